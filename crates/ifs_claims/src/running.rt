//! Whether a command is run while a guard is met.

ghost use Rattle.std.specs.Prelude.{◌≡◌, slice_get, IfOk, OnOk, Some};
ghost use Rattle.ifs_solver.specs.Asking.{guard_of, IsExtentAmong};
ghost use Rattle.ifs_solver.specs.FactSets.{fact_set_of, Within};
ghost use Rattle.ifs_claims.specs.Told.{IsToldOfRuns};
ghost use Rattle.ifs_solver.specs.Budgets.{IsSpent, IsUsedUp};
ghost use Rattle.ifs_claims.specs.inner.Reaching.{where_body, where_init, where_led, where_runs};
ghost use Rattle.ifs_claims.specs.inner.Running.{AreAlways, AreEvaluations, AreOpenings, AreStates, IsAlways, IsBody, IsInit, IsInitBefore, IsInitFrom, IsState};

use crate::commands::Reach;
use crate::kept::{Entry, kept_block};
use crate::opening::opening_set;
use crate::reachable_states::{Bodies, ReachableStates};
use crate::told::within;
use ifs_base::{CommandId, StateId};
use ifs_gen::laws::active_are_mentioned;
use ifs_policy::{Handlers, PolicyBlock};
use ifs_solver::{Aim, Budget, Constraint, Extent, FactSet, Guard, either};
use std::alloc::AllocError;

/// A command of a policy, and a guard that is not to be met when it is run.
#[derive(Clone, Copy)]
struct Ban<'a, 'b> {
    reachable: &'a ReachableStates<'b>,
    command: CommandId,
    guard: Guard<'a>,
}

/// Whether neither an opening nor a step queues a command while a guard is met. The guard is asked of the facts at
/// the opening, or of those that the evaluation sees, also for the init of the state that it leads to. Undecided if the
/// budget ran out. Returns an error if an allocation fails.
pub fn never_runs(
    reachable: &ReachableStates<'_>,
    command: CommandId,
    guard: Guard<'_>,
    budget: &mut Budget,
) -> Result<Extent, AllocError>
    ensures told { IfOk result (λ told. IsToldOfRuns reachable.now command (guard_of guard.entry) told) }
    ensures undecided { IfOk result (λ told. told ≡ Extent.Undecided → IsUsedUp budget.old budget.new) }
    ensures spent { OnOk result (IsSpent budget.old budget.new) }
{
    let given = *budget;
    let ban = Ban {
        reachable,
        command,
        guard,
    };
    active_are_mentioned();
    let opening = ask_openings(ban, budget)?;
    let evaluation = ask_evaluations(ban, budget)?;
    let extent = either(opening, evaluation);
    Ok(within(extent, given, budget))
}

/// Whether the inits of an opening run a command while a guard is met. Undecided if there is no initial state.
fn ask_openings(ban: Ban<'_, '_>, budget: &mut Budget) -> Result<Extent, AllocError>
    ensures { IfOk result (λ extent. AreOpenings ban.entry.reachable.now ban.entry.command (guard_of ban.entry.guard) extent) }
{
    let Some(part) = ban.reachable.part(ban.reachable.initial()) else {
        return Ok(Extent::Undecided);
    };
    let set = opening_set(ban.reachable.alloc(), ban.reachable.scope())?;
    let always = ask_init(ban, &set, &ban.reachable.always().init, budget)?;
    let initial = ask_init(ban, &set, &part.init, budget)?;
    Ok(either(always, initial))
}

/// Whether an evaluation, or the init of the state that it leads to, runs a command while a guard is met.
fn ask_evaluations(ban: Ban<'_, '_>, budget: &mut Budget) -> Result<Extent, AllocError>
    ensures { IfOk result (λ extent. AreEvaluations ban.entry.reachable.now ban.entry.command (guard_of ban.entry.guard) extent) }
{
    let always = ask_always(ban, budget)?;
    let states = ask_states(ban, budget)?;
    Ok(either(always, states))
}

/// The same of the body outside any state. If it does under some facts, those of each state are looked at: there only tests have a
/// value that one of the two bodies asks for.
fn ask_always(ban: Ban<'_, '_>, budget: &mut Budget) -> Result<Extent, AllocError>
    ensures { IfOk result (λ extent. AreAlways ban.entry.reachable.now ban.entry.command (guard_of ban.entry.guard) extent) }
{
    let all = FactSet::full(ban.reachable.alloc(), ban.reachable.scope())?;
    let everywhere = ask_body(ban, &all, &ban.reachable.always().body, budget)?;
    if let Extent::Nowhere = everywhere {
        return Ok(Extent::Nowhere);
    }
    let extent = ask_always_in_states(ban, budget)?;
    Ok(extent)
}

/// The same under facts in one of the states.
fn ask_always_in_states(ban: Ban<'_, '_>, budget: &mut Budget) -> Result<Extent, AllocError>
    ensures { IfOk result (λ extent. AreAlways ban.entry.reachable.now ban.entry.command (guard_of ban.entry.guard) extent) }
{
    let count = ban.reachable.count();
    let mut extent = Extent::Nowhere;
    for index in 0..count {
        if let Extent::Somewhere = extent {
            return Ok(Extent::Somewhere);
        }
        let state = StateId(index);
        let more = ask_always_in(ban, state, budget)?;
        extent = either(extent, more);
    }
    Ok(extent)
}

/// The same under facts in this state. Undecided if there is no such state.
fn ask_always_in(
    ban: Ban<'_, '_>,
    state: StateId,
    budget: &mut Budget,
) -> Result<Extent, AllocError>
    ensures { IfOk result (λ extent. IsAlways ban.entry.reachable.now ban.entry.command (guard_of ban.entry.guard) state extent) }
{
    if ban.reachable.is_never(state) {
        return Ok(Extent::Nowhere);
    }
    let Some(bodies) = ban.reachable.bodies(state) else {
        return Ok(Extent::Undecided);
    };
    let extent = ask_body(ban, bodies.set, bodies.always, budget)?;
    Ok(extent)
}

/// The same of the bodies and inits of all states.
fn ask_states(ban: Ban<'_, '_>, budget: &mut Budget) -> Result<Extent, AllocError>
    ensures { IfOk result (λ extent. AreStates ban.entry.reachable.now ban.entry.command (guard_of ban.entry.guard) extent) }
{
    let count = ban.reachable.count();
    let mut extent = Extent::Nowhere;
    for index in 0..count {
        if let Extent::Somewhere = extent {
            return Ok(Extent::Somewhere);
        }
        let state = StateId(index);
        let more = ask_state(ban, state, budget)?;
        extent = either(extent, more);
    }
    Ok(extent)
}

/// The same of the body and the init of a state. Undecided if there is no such state.
fn ask_state(ban: Ban<'_, '_>, state: StateId, budget: &mut Budget) -> Result<Extent, AllocError>
    ensures { IfOk result (λ extent. IsState ban.entry.reachable.now ban.entry.command (guard_of ban.entry.guard) state extent) }
{
    let Some(part) = ban.reachable.part(state) else {
        return Ok(Extent::Undecided);
    };
    let by_body = ask_own_body(ban, state, part, budget)?;
    let by_init = ask_own_init(ban, state, part, budget)?;
    Ok(either(by_body, by_init))
}

/// The same of the body of a state, which is not evaluated if the state is never entered.
fn ask_own_body(
    ban: Ban<'_, '_>,
    state: StateId,
    part: &Handlers,
    budget: &mut Budget,
) -> Result<Extent, AllocError>
    ensures { IfOk result (λ extent. IsBody ban.entry.reachable.now ban.entry.command (guard_of ban.entry.guard) state part.now extent) }
{
    if ban.reachable.is_never(state) {
        return Ok(Extent::Nowhere);
    }
    let Some(bodies) = ban.reachable.bodies(state) else {
        return Ok(Extent::Undecided);
    };
    let extent = ask_body(ban, bodies.set, &part.body, budget)?;
    Ok(extent)
}

/// The same of the init of a state. If it runs the command at all, the facts are looked at that lead to the state from another one.
fn ask_own_init(
    ban: Ban<'_, '_>,
    state: StateId,
    part: &Handlers,
    budget: &mut Budget,
) -> Result<Extent, AllocError>
    requires { slice_get ban.reachable.now.states state.0 ≡ Some part.now }
    ensures { IfOk result (IsInit ban.entry.reachable.now ban.entry.command (guard_of ban.entry.guard) state) }
{
    let all = FactSet::full(ban.reachable.alloc(), ban.reachable.scope())?;
    let context = Vec::new(ban.reachable.alloc());
    let running = ask_block(ban, &all, context, &part.init, budget)?;
    if let Extent::Nowhere = running {
        return Ok(Extent::Nowhere);
    }
    let extent = ask_entered_init(ban, state, part, budget)?;
    Ok(extent)
}

/// The same under facts that lead to the state from another one.
fn ask_entered_init(
    ban: Ban<'_, '_>,
    state: StateId,
    part: &Handlers,
    budget: &mut Budget,
) -> Result<Extent, AllocError>
    requires { slice_get ban.reachable.now.states state.0 ≡ Some part.now }
    ensures { IfOk result (IsInit ban.entry.reachable.now ban.entry.command (guard_of ban.entry.guard) state) }
{
    let count = ban.reachable.count();
    let at = Entry {
        always: &ban.reachable.always().body,
    };
    let init = kept_block(ban.reachable.alloc(), at, &part.init)?;
    let mut extent = Extent::Nowhere;
    for index in 0..count {
        if let Extent::Somewhere = extent {
            return Ok(Extent::Somewhere);
        }
        let previous = StateId(index);
        let more = ask_init_from(ban, state, &init, previous, budget)?;
        extent = either(extent, more);
    }
    Ok(extent)
}

/// The same from this state. The init says of the facts before the entry what it reaches after it. Undecided if there is no such state.
fn ask_init_from(
    ban: Ban<'_, '_>,
    state: StateId,
    init: &PolicyBlock,
    previous: StateId,
    budget: &mut Budget,
) -> Result<Extent, AllocError>
    requires { IsInitBefore ban.reachable.now state init.now }
    ensures { IfOk result (IsInitFrom ban.entry.reachable.now ban.entry.command (guard_of ban.entry.guard) state previous) }
{
    if previous.0 == state.0 {
        return Ok(Extent::Nowhere);
    }
    if ban.reachable.is_never(previous) {
        return Ok(Extent::Nowhere);
    }
    let Some(bodies) = ban.reachable.bodies(previous) else {
        return Ok(Extent::Undecided);
    };
    active_are_mentioned();
    let extent = ask_led(ban, bodies, state, init, budget)?;
    Ok(extent)
}

/// Whether under some facts in their state bodies lead to another one, while the guard is met and a block reaches the command.
fn ask_led<'a>(
    ban: Ban<'a, '_>,
    bodies: Bodies<'a>,
    next: StateId,
    block: &'a PolicyBlock,
    budget: &mut Budget,
) -> Result<Extent, AllocError>
    ensures { IfOk result (IsExtentAmong (Within (fact_set_of bodies.entry.set.now)) (where_led bodies.entry.always.now bodies.entry.own.now next (guard_of ban.entry.guard) ban.entry.command block.now)) }
{
    let (always, own) = (bodies.always, bodies.own);
    let is_met = Constraint::Met(ban.guard);
    let aim = Aim::To(next);
    let mut own_leads = Vec::new(ban.reachable.alloc());
    own_leads.extend_from_slice(&[Constraint::Free(own), Constraint::Aims(own, aim), is_met])?;
    let by_own = ask_block(ban, bodies.set, own_leads, block, budget)?;
    let mut always_leads = Vec::new(ban.reachable.alloc());
    always_leads.extend_from_slice(&[
        Constraint::Silent(own),
        Constraint::Free(always),
        Constraint::Aims(always, aim),
        is_met,
    ])?;
    let by_always = ask_block(ban, bodies.set, always_leads, block, budget)?;
    Ok(either(by_own, by_always))
}

/// Whether under some facts within a set a guard is met, and a body runs a command.
fn ask_body<'a>(
    ban: Ban<'a, '_>,
    set: &'a FactSet,
    body: &'a PolicyBlock,
    budget: &mut Budget,
) -> Result<Extent, AllocError>
    ensures { IfOk result (IsExtentAmong (Within (fact_set_of set.now)) (where_body (guard_of ban.entry.guard) ban.entry.command body.now)) }
{
    let mut context = Vec::new(ban.reachable.alloc());
    context.push(Constraint::Met(ban.guard))?;
    context.push(Constraint::Free(body))?;
    let extent = ask_block(ban, set, context, body, budget)?;
    Ok(extent)
}

/// The same of an init, which is never held back.
fn ask_init<'a>(
    ban: Ban<'a, '_>,
    set: &'a FactSet,
    init: &'a PolicyBlock,
    budget: &mut Budget,
) -> Result<Extent, AllocError>
    ensures { IfOk result (IsExtentAmong (Within (fact_set_of set.now)) (where_init (guard_of ban.entry.guard) ban.entry.command init.now)) }
{
    let mut context = Vec::new(ban.reachable.alloc());
    context.push(Constraint::Met(ban.guard))?;
    let extent = ask_block(ban, set, context, init, budget)?;
    Ok(extent)
}

/// Whether some facts within a set meet constraints, and lead to a `run` of a command in a block.
fn ask_block<'a>(
    ban: Ban<'a, '_>,
    set: &'a FactSet,
    context: Vec<Constraint<'a>>,
    block: &'a PolicyBlock,
    budget: &mut Budget,
) -> Result<Extent, AllocError>
    ensures { IfOk result (IsExtentAmong (Within (fact_set_of set.now)) (where_runs context.entry.items ban.entry.command block.now)) }
{
    let mut reach = Reach {
        alloc: ban.reachable.alloc(),
        set,
        command: ban.command,
        context,
        budget: *budget,
    };
    let extent = reach.statements(Extent::Nowhere, block.statements())?;
    *budget = reach.budget;
    Ok(extent)
}
