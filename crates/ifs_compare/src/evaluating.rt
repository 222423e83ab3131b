//! What an evaluation does within a range.

ghost use Rattle.std.specs.Bool.{OnFalse, OnTrue};
ghost use Rattle.std.specs.Prelude.{◌≡◌, ◌≢◌, Some, IfOk};
ghost use Rattle.ifs_solver.specs.FactSets.{fact_set_of};
ghost use Rattle.ifs_compare.specs.Differing.{moment_yield, with_entry};
ghost use Rattle.ifs_compare.specs.inner.Comparing.{blocks_in};
ghost use Rattle.ifs_compare.specs.inner.Evaluating.{effects_with, outcome_effects, AreReachedIn, IsEntryReached, IsEvaluated, IsOwnReached};
ghost use Rattle.ifs_solver.specs.Reaching.{effects_of};

use crate::looking::{same_commands, same_wish};
use crate::sides::Side;
use ifs_base::{CommandId, StateId};
use ifs_solver::{Branch, FactSet, Reached, other_than, reach, reach_body};
use std::alloc::{AllocError, Global};

/// When handlers run.
#[derive(Clone, Copy)]
pub(crate) enum Moment {
    /// The opening: the inits outside any state and of the initial state run.
    Opening,
    /// An evaluation in a state.
    In(StateId),
}

/// What comes of it.
#[derive(Drop)]
pub(crate) struct Outcome {
    /// The commands that are queued, in order.
    pub commands: Vec<CommandId>,
    /// The other state that it leads to.
    pub next: Option<StateId>,
}

impl Outcome {
    /// Whether it is the same as another one.
    pub fn is_same(&self, other: &Outcome) -> bool
        ensures same { OnTrue result (outcome_effects self.now ≡ outcome_effects other.now) }
        ensures different { OnFalse result (outcome_effects self.now ≢ outcome_effects other.now) }
    {
        same_wish(self.next, other.next)
            && same_commands(self.commands.as_slice(), other.commands.as_slice())
    }
}

/// What two policies do at a moment.
pub(crate) struct Outcomes {
    pub old: Outcome,
    pub new: Outcome,
}

impl Drop for Outcomes {
    fn drop(self) {
        let Outcomes {
            old: _old,
            new: _new,
        } = self;
    }
}

impl Outcomes {
    /// Whether they differ.
    pub fn differ(&self) -> bool
        ensures { OnTrue result (outcome_effects self.now.old ≢ outcome_effects self.now.new) }
    {
        !self.old.is_same(&self.new)
    }

    /// Whether they are the same as two others.
    pub fn are_same(&self, others: &Outcomes) -> bool {
        self.old.is_same(&others.old) && self.new.is_same(&others.new)
    }
}

/// What is known of it within a range.
#[derive(Drop)]
pub(crate) enum Evaluated {
    /// It is the same under all facts.
    Known(Outcome),
    /// It depends on this fact.
    Open(Branch),
}

/// What a policy does at a moment.
pub(crate) fn outcome_of(
    alloc: Global,
    side: Side<'_>,
    moment: Moment,
    range: &FactSet,
) -> Result<Evaluated, AllocError>
    ensures { IfOk result (λ it. IsEvaluated (fact_set_of range.now) (moment_yield (blocks_in side.entry) moment) it) }
{
    match moment {
        Moment::Opening => {
            let it = opening_of(alloc, side, range)?;
            Ok(it)
        }
        Moment::In(state) => {
            let it = evaluation_of(alloc, side, state, range)?;
            Ok(it)
        }
    }
}

/// What an opening does.
fn opening_of(alloc: Global, side: Side<'_>, range: &FactSet) -> Result<Evaluated, AllocError>
    ensures { IfOk result (λ it. IsEvaluated (fact_set_of range.now) (moment_yield (blocks_in side.entry) Moment.Opening) it) }
{
    let mut reached = Reached::new(alloc);
    match reach(range, &side.always.init, &mut reached)? {
        Some(ask) => Ok(Evaluated::Open(ask)),
        None => {
            let it = finish(side, Some(side.initial), None, range, reached)?;
            Ok(it)
        }
    }
}

/// What an evaluation in a state does.
fn evaluation_of(
    alloc: Global,
    side: Side<'_>,
    state: StateId,
    range: &FactSet,
) -> Result<Evaluated, AllocError>
    ensures { IfOk result (λ it. IsEvaluated (fact_set_of range.now) (moment_yield (blocks_in side.entry) (Moment.In state)) it) }
{
    let mut reached = Reached::new(alloc);
    match reach_in(side, state, range, &mut reached)? {
        Some(ask) => Ok(Evaluated::Open(ask)),
        None => {
            let next = other_than(state, reached.wish);
            let it = finish(side, next, next, range, reached)?;
            Ok(it)
        }
    }
}

/// Adds what the body outside any state yields, and then what that of a state does.
fn reach_in(
    side: Side<'_>,
    state: StateId,
    range: &FactSet,
    reached: &mut Reached,
) -> Result<Option<Branch>, AllocError>
    ensures { IfOk result (λ pending. AreReachedIn (fact_set_of range.now) (blocks_in side.entry) state (effects_of reached.old) (effects_of reached.new) pending) }
{
    match reach_body(range, &side.always.body, reached)? {
        Some(ask) => Ok(Some(ask)),
        None => {
            let pending = reach_own(side, state, range, reached)?;
            Ok(pending)
        }
    }
}

/// Adds what the body of a state yields, if there is such a state.
fn reach_own(
    side: Side<'_>,
    state: StateId,
    range: &FactSet,
    reached: &mut Reached,
) -> Result<Option<Branch>, AllocError>
    ensures { IfOk result (λ pending. IsOwnReached (fact_set_of range.now) (blocks_in side.entry) state (effects_of reached.old) (effects_of reached.new) pending) }
{
    match side.states.get(usize::from(state.0)) {
        Some(part) => {
            let pending = reach_body(range, &part.body, reached)?;
            Ok(pending)
        }
        None => Ok(None),
    }
}

/// Adds the commands of the init of a state that is entered. An init mentions no test, so it does not matter that tests lose
/// their values there.
fn finish(
    side: Side<'_>,
    entered: Option<StateId>,
    next: Option<StateId>,
    range: &FactSet,
    reached: Reached,
) -> Result<Evaluated, AllocError>
    ensures { IfOk result (λ it. IsEvaluated (fact_set_of range.now) (λ facts. with_entry (blocks_in side.entry) facts entered (effects_with reached next)) it) }
{
    let mut reached = reached;
    match reach_entry(side, entered, range, &mut reached)? {
        Some(ask) => Ok(Evaluated::Open(ask)),
        None => {
            let Reached {
                commands,
                wish: _wish,
            } = reached;
            Ok(Evaluated::Known(Outcome { commands, next }))
        }
    }
}

/// Adds what the init of a state reaches, if one is entered.
fn reach_entry(
    side: Side<'_>,
    entered: Option<StateId>,
    range: &FactSet,
    reached: &mut Reached,
) -> Result<Option<Branch>, AllocError>
    ensures { IfOk result (λ pending. IsEntryReached (fact_set_of range.now) (blocks_in side.entry) entered (effects_of reached.old) (effects_of reached.new) pending) }
{
    match entered {
        Some(state) => {
            let pending = reach_init(side, state, range, reached)?;
            Ok(pending)
        }
        None => Ok(None),
    }
}

/// Adds what the init of a state reaches, if there is such a state.
fn reach_init(
    side: Side<'_>,
    state: StateId,
    range: &FactSet,
    reached: &mut Reached,
) -> Result<Option<Branch>, AllocError>
    ensures { IfOk result (λ pending. IsEntryReached (fact_set_of range.now) (blocks_in side.entry) (Some state) (effects_of reached.old) (effects_of reached.new) pending) }
{
    match side.states.get(usize::from(state.0)) {
        Some(part) => {
            let pending = reach(range, &part.init, reached)?;
            Ok(pending)
        }
        None => Ok(None),
    }
}
