//! Facts of a range under which two policies differ.

ghost use Rattle.std.specs.Bool.{OnTrue};
ghost use Rattle.std.specs.Prelude.{IfOk, IfSome, IsSome};
ghost use Rattle.ifs_solver.specs.FactSets.{fact_set_of};
ghost use Rattle.ifs_compare.specs.Differing.{IsMomentOf};
ghost use Rattle.ifs_compare.specs.inner.Comparing.{blocks_in, IsRangeOf};
ghost use Rattle.ifs_compare.specs.inner.Evaluating.{AreEvaluated, AreOutcomes, DoMomentsDiffer};

use crate::evaluating::{Evaluated, Moment, Outcomes, outcome_of};
use crate::points::point_of;
use crate::sides::Stage;
use ifs_base::{IfaceId, LinkState, TestId};
use ifs_play::number_of;
use ifs_solver::{Branch, Domain, FactSet, Scope};
use std::alloc::AllocError;

/// Facts under which two policies differ, and what they do then.
pub(crate) struct Witness {
    pub moment: Moment,
    /// Facts: each link and each test has one value.
    pub point: FactSet,
    /// A range of facts. They do this under all of them.
    pub range: FactSet,
    pub outcomes: Outcomes,
}

impl Drop for Witness {
    fn drop(self) {
        let Witness {
            moment: _moment,
            point: _point,
            range: _range,
            outcomes: _outcomes,
        } = self;
    }
}

/// What both policies do at a moment, if it is known within a range.
pub(crate) fn outcomes_of(
    stage: &Stage<'_>,
    moment: Moment,
    range: &FactSet,
) -> Result<Option<Outcomes>, AllocError>
    ensures { IfOk result (λ known. IfSome known (λ outcomes. AreOutcomes (fact_set_of range.now) stage.now.sides moment outcomes)) }
{
    match both_outcomes(stage, moment, range)? {
        Both::Known(outcomes) => Ok(Some(outcomes)),
        Both::Open(_) => Ok(None),
    }
}

/// What is known of two policies within a range.
#[derive(Drop)]
pub(crate) enum Both {
    /// What they do is the same under all facts.
    Known(Outcomes),
    /// What one of them does depends on this fact.
    Open(Branch),
}

/// What is known of both policies at a moment within a range.
pub(crate) fn both_outcomes(
    stage: &Stage<'_>,
    moment: Moment,
    range: &FactSet,
) -> Result<Both, AllocError>
    ensures { IfOk result (λ it. AreEvaluated (fact_set_of range.now) stage.now.sides moment it) }
{
    let old = match outcome_of(stage.alloc, stage.sides.old, moment, range)? {
        Evaluated::Known(outcome) => outcome,
        Evaluated::Open(ask) => return Ok(Both::Open(ask)),
    };
    match outcome_of(stage.alloc, stage.sides.new, moment, range)? {
        Evaluated::Known(new) => Ok(Both::Known(Outcomes { old, new })),
        Evaluated::Open(ask) => Ok(Both::Open(ask)),
    }
}

/// The facts of a range that are reported first, if two policies differ under them at a moment. They do, unless what one of them runs
/// elsewhere makes up for it.
pub(crate) fn witness_in(
    stage: &Stage<'_>,
    moment: Moment,
    range: &FactSet,
) -> Result<Option<Witness>, AllocError>
    ensures { IfOk result (λ found. IsSome found → DoMomentsDiffer stage.now.scope stage.now.sides) }
{
    let first = match moment {
        // `sim` opens an image while all links are unknown
        Moment::Opening => LinkState::Unknown,
        Moment::In(_) => LinkState::Down,
    };
    let point = point_of(stage.alloc, range, first)?;
    let witness = witness_at(stage, moment, point)?;
    Ok(witness)
}

/// Whether a range has facts, and these are of so many links and tests.
fn are_of(scope: Scope, range: &FactSet) -> bool
    ensures { OnTrue result (IsRangeOf scope (fact_set_of range.now)) }
{
    if range.links.len() != scope.links {
        return false;
    }
    if range.tests.len() != scope.tests {
        return false;
    }
    range.has_facts()
}

/// Whether a policy has the state of a moment.
fn is_there(stage: &Stage<'_>, moment: Moment) -> bool
    ensures { OnTrue result (IsMomentOf (blocks_in stage.now.sides.old) moment) }
{
    match moment {
        Moment::Opening => true,
        Moment::In(state) => usize::from(state.0) < stage.sides.old.states.len(),
    }
}

/// The same at these facts.
fn witness_at(
    stage: &Stage<'_>,
    moment: Moment,
    point: FactSet,
) -> Result<Option<Witness>, AllocError>
    ensures { IfOk result (λ found. IsSome found → DoMomentsDiffer stage.now.scope stage.now.sides) }
{
    let Some(outcomes) = outcomes_of(stage, moment, &point)? else {
        return Ok(None);
    };
    if !outcomes.differ() || !are_of(stage.scope, &point) || !is_there(stage, moment) {
        return Ok(None);
    }
    let mut range = point.copied(stage.alloc)?;
    widen(stage, moment, &mut range, &outcomes)?;
    Ok(Some(Witness {
        moment,
        point,
        range,
        outcomes,
    }))
}

/// Lets each fact have as many values as it may while both policies do the same as before.
fn widen(
    stage: &Stage<'_>,
    moment: Moment,
    range: &mut FactSet,
    outcomes: &Outcomes,
) -> Result<(), AllocError> {
    for index in 0..range.links.len() {
        let ask = Branch::Link(IfaceId(number_of(index)), LinkState::Up);
        widen_at(stage, moment, range, ask, outcomes)?;
    }
    for index in 0..range.tests.len() {
        let ask = Branch::Test(TestId(number_of(index)), LinkState::Up);
        widen_at(stage, moment, range, ask, outcomes)?;
    }
    Ok(())
}

/// The same of one fact: all values, or two of them.
fn widen_at(
    stage: &Stage<'_>,
    moment: Moment,
    range: &mut FactSet,
    ask: Branch,
    outcomes: &Outcomes,
) -> Result<(), AllocError> {
    let Some(value) = range.domain(ask) else {
        return Ok(());
    };
    let all = Domain::ANY;
    let wider = [
        all,
        all.without(LinkState::Up),
        all.without(LinkState::Unknown),
        all.without(LinkState::Down),
    ];
    for choice in wider {
        if is_within(value, choice) {
            range.put(ask, choice);
            if keeps(stage, moment, range, outcomes)? {
                return Ok(());
            }
        }
    }
    range.put(ask, value);
    Ok(())
}

/// Whether each value of one choice is among those of another.
fn is_within(one: Domain, other: Domain) -> bool {
    (!one.unknown || other.unknown) && (!one.down || other.down) && (!one.up || other.up)
}

/// Whether both policies do this under all facts within a range.
fn keeps(
    stage: &Stage<'_>,
    moment: Moment,
    range: &FactSet,
    outcomes: &Outcomes,
) -> Result<bool, AllocError> {
    match outcomes_of(stage, moment, range)? {
        Some(now) => Ok(now.are_same(outcomes)),
        None => Ok(false),
    }
}
