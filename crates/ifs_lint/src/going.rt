//! Whether a core goes a round of states twice.

ghost use Rattle.std.specs.Prelude.{◌≡◌, ◌++◌, [], Contains, IfOk, IfSome, List};
ghost use Rattle.std.specs.Bool.{OnTrue};
ghost use Rattle.ifs_core.specs.Gateway.{Known};
ghost use Rattle.ifs_core.specs.declared.step.Step.{Step as StepOfCore};
ghost use Rattle.ifs_gen.specs.Compiled.{IsWritten};
ghost use Rattle.ifs_gen.specs.Trees.{Policy as PolicyOfCore};
ghost use Rattle.ifs_play.specs.Made.{HasMade};
ghost use Rattle.ifs_lint.specs.Rounds.{GoesRound, IsRound, IsToldFrom, LeadBack, entered};
ghost use Rattle.ifs_lint.specs.inner.Going.{GoTwiceWith, IsCompiled};

use crate::results::{agrees, keep};
use ifs_base::StateId;
use ifs_claims::laws::{cores_are_in_situations, facts_stay};
use ifs_core::{Core, Step};
use ifs_play::{make_step, make_steps, open};
use ifs_policy::Policy;
use std::alloc::{AllocError, Global};

/// A policy, and its image if it has one.
#[derive(Clone, Copy)]
pub(crate) struct Compiled<'p, 'i> {
    pub policy: &'p Policy,
    pub image: Option<&'i [u8]>,
}

/// Steps that may go a round twice.
pub(crate) struct Trial {
    /// The steps from the opening up to the round.
    pub begun: Vec<Step>,
    /// The steps of the round, and those by which it is gone once more.
    pub steps: Vec<Step>,
    /// The result of each test in the world in which it is gone.
    pub results: Vec<bool>,
    /// The states of the round, in the order in which they are entered.
    pub states: Vec<StateId>,
}

impl Drop for Trial {
    fn drop(self) {
        let Trial {
            begun: _begun,
            steps: _steps,
            results: _results,
            states: _states,
        } = self;
    }
}

/// Makes steps of a core, and returns the states that they enter.
fn entered_by(
    alloc: Global,
    core: &mut Core<'_>,
    steps: &[Step],
) -> Result<Vec<StateId>, AllocError>
    ensures { (policy : PolicyOfCore) (known : Known) (begun : List StepOfCore) → HasMade policy known begun core.old
        → IfOk result (λ states. states.items ≡ entered policy known begun steps.now) }
{
    cores_are_in_situations();
    let mut states = Vec::new(alloc);
    for step in steps {
        let before = core.state();
        make_step(core, *step);
        let after = core.state();
        if after.0 != before.0 {
            states.push(after)?;
        }
    }
    Ok(states)
}

/// Whether two states are the same.
fn is_same(one: StateId, other: StateId) -> bool
    ensures { OnTrue result (one ≡ other) }
{
    one.0 == other.0
}

/// Whether a state is none of some.
fn is_new(states: &[StateId], state: StateId) -> bool
    ensures { OnTrue result (¬ Contains states.now state) }
{
    !states.contains(&state)
}

/// Whether states lead back to one: it is the last of them, and none of those before.
fn lead_back(states: &[StateId], home: StateId) -> bool
    ensures { OnTrue result (LeadBack home states.now) }
{
    match states.split_last() {
        Some((last, others)) => is_same(*last, home) && is_new(others, home),
        None => false,
    }
}

/// Whether some states are others, in the same order.
fn are_same(states: &[StateId], others: &[StateId]) -> bool
    ensures { OnTrue result (states.now ≡ others.now) }
{
    states == others
}

/// Whether some states are others, and the same once more.
fn are_twice(entered: &[StateId], states: &[StateId]) -> bool
    ensures { OnTrue result (entered.now ≡ states.now ++ states.now) }
{
    match entered.split_at_checked(states.len()) {
        Some((once, again)) => are_same(once, states) && are_same(again, states),
        None => false,
    }
}

/// Makes steps in a world with these results, and returns whether they go a round of states twice.
fn go_twice(
    alloc: Global,
    core: &mut Core<'_>,
    policy: &Policy,
    trial: &Trial,
) -> Result<bool, AllocError>
    ensures { (known : Known) (begun : List StepOfCore) → HasMade policy.now known begun core.old
        → IfOk result (λ goes. OnTrue goes (GoTwiceWith policy.now known begun trial.now.steps.items trial.now.results.items trial.now.states.items)) }
{
    cores_are_in_situations();
    facts_stay();
    let steps = trial.steps.as_slice();
    let results = trial.results.as_slice();
    let states = trial.states.as_slice();
    let count = policy.counts().tests;
    if results.len() != usize::from(count) || !agrees(core, results, count) {
        return Ok(false);
    }
    if !keep(results, steps) || !lead_back(states, core.state()) {
        return Ok(false);
    }
    let entered = entered_by(alloc, core, steps)?;
    Ok(are_twice(entered.as_slice(), states))
}

/// Whether a core that is opened with nothing known goes a round of states twice.
fn is_gone(alloc: Global, policy: &Policy, image: &[u8], trial: &Trial) -> Result<bool, AllocError>
    ensures { IsWritten policy.now image.now → IfOk result (λ gone. OnTrue gone (GoesRound policy.now trial.now.states.items)) }
{
    let _counts = policy.counts();
    match open(alloc, image)? {
        Some(core) => {
            let mut core = core;
            make_steps(&mut core, trial.begun.as_slice());
            let goes = go_twice(alloc, &mut core, policy, trial)?;
            Ok(goes)
        }
        None => Ok(false),
    }
}

/// The round that a core goes twice, if it does. It begins with the state that is defined first.
pub(crate) fn round_of(
    alloc: Global,
    compiled: Compiled<'_, '_>,
    trial: &Trial,
) -> Result<Option<Vec<StateId>>, AllocError>
    requires { IsCompiled compiled }
    ensures { IfOk result (λ found. IfSome found (λ states. IsRound compiled.entry.policy.now states.items)) }
{
    let Some(image) = compiled.image else {
        return Ok(None);
    };
    if !is_gone(alloc, compiled.policy, image, trial)? {
        return Ok(None);
    }
    let states = from_first(alloc, trial.states.as_slice())?;
    Ok(Some(states))
}

/// The states of a round, from the one on that is defined first.
fn from_first(alloc: Global, round: &[StateId]) -> Result<Vec<StateId>, AllocError>
    ensures { IfOk result (λ told. IsToldFrom round.now told.items) }
{
    let place = place_of_first(round);
    let (before, behind) = round.split_at_checked(place).unwrap_or((&[], round));
    let mut states = Vec::from_slice(alloc, behind)?;
    states.extend_from_slice(before)?;
    Ok(states)
}

/// The place of the state of a round that is defined first.
fn place_of_first(round: &[StateId]) -> usize {
    let (mut place, mut least) = (0usize, u16::MAX);
    for (index, state) in round.iter().enumerate() {
        if state.0 < least {
            place = index;
            least = state.0;
        }
    }
    place
}
