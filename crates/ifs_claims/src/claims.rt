//! Claims on where a policy is: where it rests and settles, what is true there at any moment, and which states steps enter.

ghost use Rattle.std.specs.Prelude.{◌⊎◌, ◌≡◌, IfOk, OnOk, Contains, MatchBool};
ghost use Rattle.ifs_solver.specs.Asking.{guard_of};
ghost use Rattle.ifs_claims.specs.Told.{IsMissing, IsToldOfRest, IsToldOfRests, IsToldOfSettling, IsToldOfMoments, IsToldOfEntry, IsToldOfMove, IsToldOfEntryWhile};
ghost use Rattle.ifs_solver.specs.Budgets.{IsSpent, IsUsedUp};
ghost use Rattle.ifs_claims.specs.inner.Elsewhere.{IsElsewhere, IsSettling};
ghost use Rattle.ifs_claims.specs.inner.Moment.{IsArriving, IsAtOpenings, IsStaying};
ghost use Rattle.ifs_claims.specs.inner.Entering.{IsEntering, IsFrom};

use crate::asking::{ask_moving, ask_resting, ask_settled, ask_wish};
use crate::kept::{Entry, kept_condition};
use crate::opening::opening_set;
use crate::reachable_states::ReachableStates;
use crate::told::within;
use ifs_base::StateId;
use ifs_gen::laws::active_are_mentioned;
use ifs_policy::laws::held_by_an_open_test;
use ifs_solver::{Aim, Budget, Constraint, Extent, Guard, ask_in, either};
use std::alloc::AllocError;

/// Whether a policy never rests in a state while a guard is met: where nothing is owed, after any steps, it is in
/// another state or the guard is not met. Undecided if the budget ran out, or if there is no such state. Returns an
/// error if an allocation fails.
pub fn never_rests(
    reachable: &ReachableStates<'_>,
    state: StateId,
    guard: Guard<'_>,
    budget: &mut Budget,
) -> Result<Extent, AllocError>
    ensures told { IfOk result (λ told. IsToldOfRest reachable.now state (guard_of guard.entry) told) }
    ensures undecided { IfOk result (λ told. told ≡ Extent.Undecided → IsUsedUp budget.old budget.new ⊎ IsMissing reachable.now state) }
    ensures spent { OnOk result (IsSpent budget.old budget.new) }
{
    let given = *budget;
    if reachable.is_never(state) {
        return Ok(Extent::Nowhere);
    }
    let Some(bodies) = reachable.bodies(state) else {
        return Ok(Extent::Undecided);
    };
    active_are_mentioned();
    let extent = ask_resting(bodies, state, guard, budget)?;
    Ok(within(extent, given, budget))
}

/// Whether a policy never settles in a state while a guard is met: where nothing is owed and neither the body outside
/// any state nor that of the current state is held back, after any steps, it is in another state or the guard is not met.
/// Undecided if the budget ran out, or if there is no such state. Returns an error if an allocation fails.
pub fn never_settles(
    reachable: &ReachableStates<'_>,
    state: StateId,
    guard: Guard<'_>,
    budget: &mut Budget,
) -> Result<Extent, AllocError>
    ensures told { IfOk result (λ told. IsToldOfSettling reachable.now state (guard_of guard.entry) told) }
    ensures undecided { IfOk result (λ told. told ≡ Extent.Undecided → IsUsedUp budget.old budget.new ⊎ IsMissing reachable.now state) }
    ensures spent { OnOk result (IsSpent budget.old budget.new) }
{
    let given = *budget;
    let Some(_) = reachable.part(state) else {
        return Ok(Extent::Undecided);
    };
    let extent = ask_settling(reachable, state, guard, budget)?;
    Ok(within(extent, given, budget))
}

/// Whether a policy rests in one of some states while a guard is met: where nothing is owed and neither the body
/// outside any state nor that of the current state is held back, after any steps, it is in one of these states or the
/// guard is not met. Undecided if the budget ran out. Returns an error if an allocation fails.
pub fn rests_in(
    reachable: &ReachableStates<'_>,
    states: &[StateId],
    guard: Guard<'_>,
    budget: &mut Budget,
) -> Result<Extent, AllocError>
    ensures told { IfOk result (λ told. IsToldOfRests reachable.now states.now (guard_of guard.entry) told) }
    ensures undecided { IfOk result (λ told. told ≡ Extent.Undecided → IsUsedUp budget.old budget.new) }
    ensures spent { OnOk result (IsSpent budget.old budget.new) }
{
    let given = *budget;
    let count = reachable.count();
    let mut extent = Extent::Nowhere;
    for index in 0..count {
        if let Extent::Somewhere = extent {
            return Ok(within(Extent::Somewhere, given, budget));
        }
        let state = StateId(index);
        let more = ask_elsewhere(reachable, states, state, guard, budget)?;
        extent = either(extent, more);
    }
    Ok(within(extent, given, budget))
}

/// Whether some facts let a policy settle in a state that is not among some, while a guard is met. Undecided if there
/// is no such state.
fn ask_elsewhere(
    reachable: &ReachableStates<'_>,
    states: &[StateId],
    state: StateId,
    guard: Guard<'_>,
    budget: &mut Budget,
) -> Result<Extent, AllocError>
    ensures { IfOk result (λ extent. IsElsewhere reachable.now states.now (guard_of guard.entry) state extent) }
{
    if is_among(states, state) {
        return Ok(Extent::Nowhere);
    }
    let extent = ask_settling(reachable, state, guard, budget)?;
    Ok(extent)
}

/// Whether some facts let a policy settle in a state while a guard is met. Undecided if there is no such state.
fn ask_settling(
    reachable: &ReachableStates<'_>,
    state: StateId,
    guard: Guard<'_>,
    budget: &mut Budget,
) -> Result<Extent, AllocError>
    ensures { IfOk result (λ extent. IsSettling reachable.now state (guard_of guard.entry) extent) }
{
    if reachable.is_never(state) {
        return Ok(Extent::Nowhere);
    }
    let Some(bodies) = reachable.bodies(state) else {
        return Ok(Extent::Undecided);
    };
    held_by_an_open_test();
    active_are_mentioned();
    let extent = ask_settled(bodies, state, guard, budget)?;
    Ok(extent)
}

/// Whether a state is among some.
fn is_among(states: &[StateId], state: StateId) -> bool
    ensures { MatchBool result (Contains states.now state) (¬ Contains states.now state) }
{
    states.contains(&state)
}

/// Whether a guard is not met in a state at any moment, also where an evaluation is owed. Undecided if the budget ran
/// out, or if there is no such state. Returns an error if an allocation fails.
pub fn never_in(
    reachable: &ReachableStates<'_>,
    state: StateId,
    guard: Guard<'_>,
    budget: &mut Budget,
) -> Result<Extent, AllocError>
    ensures told { IfOk result (λ told. IsToldOfMoments reachable.now state (guard_of guard.entry) told) }
    ensures undecided { IfOk result (λ told. told ≡ Extent.Undecided → IsUsedUp budget.old budget.new ⊎ IsMissing reachable.now state) }
    ensures spent { OnOk result (IsSpent budget.old budget.new) }
{
    let given = *budget;
    if reachable.is_never(state) {
        return Ok(Extent::Nowhere);
    }
    let Some(_) = reachable.part(state) else {
        return Ok(Extent::Undecided);
    };
    let extent = ask_at(reachable, state, guard, budget)?;
    Ok(within(extent, given, budget))
}

/// Whether a guard may be met in a state: at an opening, where an evaluation stays in the state, or where one has just led there.
fn ask_at(
    reachable: &ReachableStates<'_>,
    state: StateId,
    guard: Guard<'_>,
    budget: &mut Budget,
) -> Result<Extent, AllocError>
    ensures { IfOk result (IsToldOfMoments reachable.now state (guard_of guard.entry)) }
{
    active_are_mentioned();
    let opening = ask_at_openings(reachable, state, guard, budget)?;
    let resting = ask_staying(reachable, state, guard, budget)?;
    let staying = either(opening, resting);
    if let Extent::Somewhere = staying {
        return Ok(Extent::Somewhere);
    }
    let arriving = ask_arriving(reachable, state, guard, budget)?;
    Ok(either(staying, arriving))
}

/// Whether a guard may be met where an evaluation stays in a state, if it is met neither at an opening nor on an arrival there. A test
/// without a value had none before, since only an entry takes a value. Undecided if there is no such state.
fn ask_staying(
    reachable: &ReachableStates<'_>,
    state: StateId,
    guard: Guard<'_>,
    budget: &mut Budget,
) -> Result<Extent, AllocError>
    ensures { IfOk result (IsStaying reachable.now state (guard_of guard.entry)) }
{
    active_are_mentioned();
    if let Guard::Unknown(_) = guard {
        return Ok(Extent::Nowhere);
    }
    let Some(bodies) = reachable.bodies(state) else {
        return Ok(Extent::Undecided);
    };
    let resting = ask_resting(bodies, state, guard, budget)?;
    Ok(resting)
}

/// Whether a guard may be met in a state at an opening, which is one of the initial state.
fn ask_at_openings(
    reachable: &ReachableStates<'_>,
    state: StateId,
    guard: Guard<'_>,
    budget: &mut Budget,
) -> Result<Extent, AllocError>
    ensures { IfOk result (IsAtOpenings reachable.now state (guard_of guard.entry)) }
{
    let initial = reachable.initial();
    if state.0 != initial.0 {
        return Ok(Extent::Nowhere);
    }
    let set = opening_set(reachable.alloc(), reachable.scope())?;
    let constraints = [Constraint::Met(guard)];
    let extent = ask_in(reachable.alloc(), &set, &constraints, budget)?;
    Ok(extent)
}

/// Whether a guard may be met in a state to which an evaluation has just led.
fn ask_arriving(
    reachable: &ReachableStates<'_>,
    state: StateId,
    guard: Guard<'_>,
    budget: &mut Budget,
) -> Result<Extent, AllocError>
    ensures { IfOk result (IsArriving reachable.now state (guard_of guard.entry)) }
{
    let _fits = reachable.count();
    active_are_mentioned();
    let at = Entry {
        always: &reachable.always().body,
    };
    let asked = guard.condition();
    let before = kept_condition(reachable.alloc(), at, asked)?;
    let guard_before = guard.with(&before);
    let extent = ask_entering(reachable, state, guard_before, budget)?;
    Ok(extent)
}

/// Whether no steps enter a state. Undecided if that was not decided when the states were judged, or if there is no such
/// state.
pub fn never_enters(reachable: &ReachableStates<'_>, state: StateId) -> Extent
    ensures { IsToldOfEntry reachable.now state result }
{
    reachable.extent(state)
}

/// Whether no step leads from one state to another one. Undecided if the budget ran out, if there is no such state, or if
/// both are the same. Returns an error if an allocation fails.
pub fn never_from(
    reachable: &ReachableStates<'_>,
    previous: StateId,
    next: StateId,
    budget: &mut Budget,
) -> Result<Extent, AllocError>
    ensures told { IfOk result (λ told. IsToldOfMove reachable.now previous next told) }
    ensures undecided { IfOk result (λ told. told ≡ Extent.Undecided → IsUsedUp budget.old budget.new ⊎ IsMissing reachable.now previous ⊎ (previous.0 ≡ next.0)) }
    ensures spent { OnOk result (IsSpent budget.old budget.new) }
{
    let given = *budget;
    if reachable.is_never(previous) || reachable.is_never(next) {
        return Ok(Extent::Nowhere);
    }
    if previous.0 == next.0 {
        return Ok(Extent::Undecided);
    }
    let Some(bodies) = reachable.bodies(previous) else {
        return Ok(Extent::Undecided);
    };
    let aim = Aim::To(next);
    let extent = ask_wish(bodies, aim, budget)?;
    Ok(within(extent, given, budget))
}

/// Whether no step enters a state while a guard is met. A step enters a state by an evaluation in another one, and the
/// guard is asked of the facts of this evaluation. Undecided if the budget ran out. Returns an error if an allocation
/// fails.
pub fn never_enters_while(
    reachable: &ReachableStates<'_>,
    next: StateId,
    guard: Guard<'_>,
    budget: &mut Budget,
) -> Result<Extent, AllocError>
    ensures told { IfOk result (λ told. IsToldOfEntryWhile reachable.now next (guard_of guard.entry) told) }
    ensures undecided { IfOk result (λ told. told ≡ Extent.Undecided → IsUsedUp budget.old budget.new) }
    ensures spent { OnOk result (IsSpent budget.old budget.new) }
{
    let given = *budget;
    active_are_mentioned();
    let extent = ask_entering(reachable, next, guard, budget)?;
    Ok(within(extent, given, budget))
}

/// Whether some facts lead to a state from any other one, while a guard is met.
fn ask_entering(
    reachable: &ReachableStates<'_>,
    next: StateId,
    guard: Guard<'_>,
    budget: &mut Budget,
) -> Result<Extent, AllocError>
    ensures { IfOk result (λ extent. IsEntering reachable.now next (guard_of guard.entry) extent) }
{
    let count = reachable.count();
    let mut extent = Extent::Nowhere;
    for index in 0..count {
        if let Extent::Somewhere = extent {
            return Ok(Extent::Somewhere);
        }
        let state = StateId(index);
        let more = ask_from(reachable, next, guard, state, budget)?;
        extent = either(extent, more);
    }
    Ok(extent)
}

/// Whether some facts lead to a state from this one, while a guard is met. Undecided if there is no such state.
fn ask_from(
    reachable: &ReachableStates<'_>,
    next: StateId,
    guard: Guard<'_>,
    state: StateId,
    budget: &mut Budget,
) -> Result<Extent, AllocError>
    ensures { IfOk result (λ extent. IsFrom reachable.now next (guard_of guard.entry) state extent) }
{
    if state.0 == next.0 {
        return Ok(Extent::Nowhere);
    }
    if reachable.is_never(state) {
        return Ok(Extent::Nowhere);
    }
    let Some(bodies) = reachable.bodies(state) else {
        return Ok(Extent::Undecided);
    };
    let extent = ask_moving(bodies, next, guard, budget)?;
    Ok(extent)
}
