//! Whether claims hold.

ghost use Rattle.std.specs.Prelude.{◌≡◌, ◌⊎◌, IfOk, OnOk};
ghost use Rattle.ifs_claims.specs.Changes.{AreKnown};
ghost use Rattle.ifs_claims.specs.Told.{IsToldOfRests, IsToldOfRuns};
ghost use Rattle.ifs_solver.specs.Budgets.{IsSpent, IsUsedUp};
ghost use Rattle.ifs_prove.specs.Claiming.{guard_in, IsOneOf, IsToldOfClaim, IsUnanswered};
ghost use Rattle.ifs_prove.specs.inner.Judging.{AreToldOf, AreToldOfMoves, AreToldOfRuns, IsOpenFor, IsOpenOf, IsToldOf};

use crate::guards::guard_of;
use ifs_base::{CommandId, StateId};
use ifs_claim_parse::{Claim, Premise};
use ifs_claims::{
    KnownChanges, ReachableStates, never_enters, never_enters_while, never_from, never_in,
    never_runs, never_settles, rests_in,
};
use ifs_solver::{Budget, Extent, either};
use std::alloc::AllocError;

/// Judges a claim: whether some facts of an evaluation would break it. If no facts do, it holds, and so does one that claims nothing.
/// Undecided only if the budget ran out, or if the policy has no such state; of `never enter STATE..` without a condition the contract
/// does not say when. Keeps what is found of changes for the next claim. Returns an error if an allocation fails.
pub fn judge(
    entered: &ReachableStates<'_>,
    claim: &Claim,
    changes: &mut KnownChanges,
    budget: &mut Budget,
) -> Result<Extent, AllocError>
    requires { AreKnown entered.now changes.old }
    ensures told { IfOk result (λ told. IsToldOfClaim entered.now claim.now told) }
    ensures undecided { IfOk result (λ told. told ≡ Extent.Undecided → IsUnanswered entered.now claim.now budget.old budget.new) }
    ensures known { AreKnown entered.now changes.new }
{
    match claim {
        Claim::NeverRests(states, premise) => {
            never_any(
                entered,
                Denied::Settling(premise),
                states.as_slice(),
                budget,
            )
        }
        Claim::RestsIn(states, premise) => {
            rests_while(entered, states.as_slice(), premise, budget)
        }
        Claim::NeverFrom(from, to) => never_moves(entered, from.as_slice(), to.as_slice(), budget),
        Claim::NeverEnters(states) => {
            never_any(entered, Denied::Entry, states.as_slice(), budget)
        }
        Claim::NeverEntersWhile(states, premise) => {
            never_any(
                entered,
                Denied::EntryWhile(premise),
                states.as_slice(),
                budget,
            )
        }
        Claim::NeverRuns(commands, premise) => {
            never_runs_any(entered, commands.as_slice(), premise, budget)
        }
        Claim::RestsWithin(most) => changes.rests_within(entered, *most, budget),
        Claim::NeverIn(states, premise) => {
            never_any(entered, Denied::Moment(premise), states.as_slice(), budget)
        }
        Claim::MayFlap(_) => Ok(Extent::Nowhere),
    }
}

/// What a claim denies of a state.
#[derive(Clone, Copy)]
enum Denied<'a> {
    /// That a policy settles there while a premise is met.
    Settling(&'a Premise),
    /// That it is there at any moment while a premise is met.
    Moment(&'a Premise),
    /// That steps lead there.
    Entry,
    /// That a step enters it while a premise is met.
    EntryWhile(&'a Premise),
    /// That a step leads there from this state.
    MoveFrom(StateId),
}

/// Whether some facts would make it so of one of some states.
fn never_any(
    entered: &ReachableStates<'_>,
    denied: Denied<'_>,
    states: &[StateId],
    budget: &mut Budget,
) -> Result<Extent, AllocError>
    ensures told { IfOk result (λ told. AreToldOf entered.now denied.entry states.now states.now told) }
    ensures undecided { IfOk result (λ told. IsOpenFor states.now (IsOpenOf entered.now denied.entry) budget.old budget.new told) }
    ensures spent { OnOk result (IsSpent budget.old budget.new) }
{
    let mut told = Extent::Nowhere;
    for state in states {
        if let Extent::Somewhere = told {
            return Ok(Extent::Somewhere);
        }
        let more = never(entered, denied, *state, budget)?;
        told = either(told, more);
    }
    Ok(told)
}

/// Whether some facts would make it so of a state.
fn never(
    entered: &ReachableStates<'_>,
    denied: Denied<'_>,
    state: StateId,
    budget: &mut Budget,
) -> Result<Extent, AllocError>
    ensures told { IfOk result (λ told. IsToldOf entered.now denied.entry state told) }
    ensures undecided { IfOk result (λ told. told ≡ Extent.Undecided → IsUsedUp budget.old budget.new ⊎ IsOpenOf entered.now denied.entry state) }
    ensures spent { OnOk result (IsSpent budget.old budget.new) }
{
    match denied {
        Denied::Settling(premise) => { never_settles(entered, state, guard_of(premise), budget) },
        Denied::Moment(premise) => never_in(entered, state, guard_of(premise), budget),
        Denied::Entry => Ok(never_enters(entered, state)),
        Denied::EntryWhile(premise) => {
            never_enters_while(entered, state, guard_of(premise), budget)
        },
        Denied::MoveFrom(previous) => never_from(entered, previous, state, budget),
    }
}

/// Whether some facts would lead from one of some states to one of others.
fn never_moves(
    entered: &ReachableStates<'_>,
    from: &[StateId],
    to: &[StateId],
    budget: &mut Budget,
) -> Result<Extent, AllocError>
    ensures told { IfOk result (λ told. AreToldOfMoves entered.now from.now from.now to.now told) }
    ensures undecided { IfOk result (λ told. IsOpenFor from.now (λ state. IsOneOf to.now (IsOpenOf entered.now (Denied.MoveFrom state))) budget.old budget.new told) }
{
    let mut told = Extent::Nowhere;
    for state in from {
        if let Extent::Somewhere = told {
            return Ok(Extent::Somewhere);
        }
        let more = never_any(entered, Denied::MoveFrom(*state), to, budget)?;
        told = either(told, more);
    }
    Ok(told)
}

/// Whether some facts would let a policy rest in another state than these while a premise is met.
fn rests_while(
    entered: &ReachableStates<'_>,
    states: &[StateId],
    premise: &Premise,
    budget: &mut Budget,
) -> Result<Extent, AllocError>
    ensures told { IfOk result (λ told. IsToldOfRests entered.now states.now (guard_in premise.now) told) }
    ensures undecided { IfOk result (λ told. told ≡ Extent.Undecided → IsUsedUp budget.old budget.new) }
{
    let guard = guard_of(premise);
    rests_in(entered, states, guard, budget)
}

/// Whether some facts would run a command while a premise is met.
fn never_runs_while(
    entered: &ReachableStates<'_>,
    command: CommandId,
    premise: &Premise,
    budget: &mut Budget,
) -> Result<Extent, AllocError>
    ensures told { IfOk result (λ told. IsToldOfRuns entered.now command (guard_in premise.now) told) }
    ensures undecided { IfOk result (λ told. told ≡ Extent.Undecided → IsUsedUp budget.old budget.new) }
    ensures spent { OnOk result (IsSpent budget.old budget.new) }
{
    let guard = guard_of(premise);
    never_runs(entered, command, guard, budget)
}

/// Whether some facts would run one of some commands while a premise is met.
fn never_runs_any(
    entered: &ReachableStates<'_>,
    commands: &[CommandId],
    premise: &Premise,
    budget: &mut Budget,
) -> Result<Extent, AllocError>
    ensures told { IfOk result (λ told. AreToldOfRuns entered.now (guard_in premise.now) commands.now commands.now told) }
    ensures undecided { IfOk result (λ told. told ≡ Extent.Undecided → IsUsedUp budget.old budget.new) }
{
    let mut told = Extent::Nowhere;
    for command in commands {
        if let Extent::Somewhere = told {
            return Ok(Extent::Somewhere);
        }
        let more = never_runs_while(entered, *command, premise, budget)?;
        told = either(told, more);
    }
    Ok(told)
}
