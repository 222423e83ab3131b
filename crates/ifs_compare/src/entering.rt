//! Facts under which a difference in an init, or outside any state, shows in a state.

ghost use Rattle.std.specs.Prelude.{IfOk, IfSome, IsSome};
ghost use Rattle.ifs_compare.specs.Differing.{ArePartsOf};
ghost use Rattle.ifs_compare.specs.inner.Comparing.{blocks_in};
ghost use Rattle.ifs_compare.specs.inner.Evaluating.{DoMomentsDiffer};

use crate::choosing::{Witness, witness_in};
use crate::effort::Effort;
use crate::evaluating::Moment;
use crate::sides::Stage;
use ifs_base::StateId;
use ifs_play::number_of;
use ifs_policy::Handlers;
use ifs_solver::{Aim, Constraint, Extent, FactSet, find};
use std::alloc::AllocError;

/// The situations that one search may look at.
const LOOKS: u32 = 2_000;

/// The facts of a range that meet some demands, if any were found.
pub(crate) fn part_of(
    stage: &Stage<'_>,
    effort: &mut Effort,
    range: &FactSet,
    demands: &[Constraint<'_>],
) -> Result<Option<FactSet>, AllocError> {
    let mut part = range.copied(stage.alloc)?;
    if !part.has_facts() {
        return Ok(None);
    }
    let given = effort.left.min(LOOKS);
    let search = find(demands, &mut part, given);
    effort.spend(given, search.left);
    match search.extent {
        Extent::Somewhere => Ok(Some(part)),
        _ => Ok(None),
    }
}

/// Facts that meet some demands, under which two policies differ in a state.
fn witness_by(
    stage: &Stage<'_>,
    effort: &mut Effort,
    state: StateId,
    range: &FactSet,
    demands: &[Constraint<'_>],
) -> Result<Option<Witness>, AllocError>
    ensures { IfOk result (λ found. IsSome found → DoMomentsDiffer stage.now.scope stage.now.sides) }
{
    match part_of(stage, effort, range, demands)? {
        Some(part) => {
            let witness = witness_in(stage, Moment::In(state), &part)?;
            Ok(witness)
        }
        None => Ok(None),
    }
}

/// The parts of a state in both policies.
pub(crate) fn parts_of<'a>(
    stage: &Stage<'a>,
    state: StateId,
) -> Option<(&'a Handlers, &'a Handlers)>
    ensures { IfSome result (λ parts. ArePartsOf (blocks_in stage.now.sides.old) (blocks_in stage.now.sides.new) state parts.0.now parts.1.now) }
{
    let index = usize::from(state.0);
    let old = stage.sides.old.states.get(index)?;
    let new = stage.sides.new.states.get(index)?;
    Some((old, new))
}

/// Facts of a range under which two policies differ in a state, preferably while the bodies of the state wish for no state.
pub(crate) fn silent_witness(
    stage: &Stage<'_>,
    effort: &mut Effort,
    state: StateId,
    range: &FactSet,
) -> Result<Option<Witness>, AllocError>
    ensures { IfOk result (λ found. IsSome found → DoMomentsDiffer stage.now.scope stage.now.sides) }
{
    let Some((old, new)) = parts_of(stage, state) else {
        return Ok(None);
    };
    let silent = [Constraint::Silent(&old.body), Constraint::Silent(&new.body)];
    let witness = witness_by(stage, effort, state, range, &silent)?;
    if witness.is_some() {
        return Ok(witness);
    }
    let witness = witness_in(stage, Moment::In(state), range)?;
    Ok(witness)
}

/// Facts of a range under which a state is entered, and two policies differ then. The inits of the state differ within the range.
pub(crate) fn entering_witness(
    stage: &Stage<'_>,
    effort: &mut Effort,
    entered: StateId,
    range: &FactSet,
) -> Result<Option<Witness>, AllocError>
    ensures { IfOk result (λ found. IsSome found → DoMomentsDiffer stage.now.scope stage.now.sides) }
{
    for index in 0..stage.states() {
        let state = StateId(number_of(index));
        if state.0 != entered.0 && stage.is_common(state) {
            let witness = entering_from(stage, effort, state, entered, range)?;
            if witness.is_some() {
                return Ok(witness);
            }
        }
    }
    if stage.sides.old.initial.0 == entered.0 && stage.sides.new.initial.0 == entered.0 {
        let witness = witness_in(stage, Moment::Opening, range)?;
        return Ok(witness);
    }
    Ok(None)
}

/// The same by an evaluation in one state.
fn entering_from(
    stage: &Stage<'_>,
    effort: &mut Effort,
    state: StateId,
    entered: StateId,
    range: &FactSet,
) -> Result<Option<Witness>, AllocError>
    ensures { IfOk result (λ found. IsSome found → DoMomentsDiffer stage.now.scope stage.now.sides) }
{
    let Some((old, _new)) = parts_of(stage, state) else {
        return Ok(None);
    };
    let aim = Aim::To(entered);
    let by_own = [
        Constraint::Free(&old.body),
        Constraint::Aims(&old.body, aim),
    ];
    let witness = witness_by(stage, effort, state, range, &by_own)?;
    if witness.is_some() {
        return Ok(witness);
    }
    let always = &stage.sides.old.always.body;
    let by_always = [
        Constraint::Silent(&old.body),
        Constraint::Free(always),
        Constraint::Aims(always, aim),
    ];
    let witness = witness_by(stage, effort, state, range, &by_always)?;
    Ok(witness)
}
