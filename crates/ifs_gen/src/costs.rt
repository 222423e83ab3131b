//! The greatest number of instructions that an event executes, by the written code.

ghost use Rattle.std.specs.Prelude.{◌≡◌, ◌+◌, ◌*◌, ◌<◌, length};
ghost use Rattle.ifs_gen.specs.inner.Costs.{event_cost_in, most_of_bodies, most_of_inits, op_cost, routine_cost};
ghost use Rattle.ifs_gen.specs.inner.Measures.{capped};

use crate::keys::ConditionCode;
use ifs_base::{Op, StateId};
use ifs_image::Routine;
use ifs_policy::Table;

/// The number of instructions that one instruction of a handler executes: itself, and for a call those of the
/// called routine with its `ret`.
fn op_cost(op: Op, shared: &Table<ConditionCode>) -> u64
    ensures { result ≡ op_cost shared.now op }
{
    match op {
        Op::Call(routine) => match shared.get(usize::from(routine.0)) {
            Some(code) => 2 + code.as_slice().len() as u64,
            None => 1,
        },
        _ => 1,
    }
}

/// The greatest number of instructions that a handler executes: each of its own once.
fn routine_cost(routine: &Routine, shared: &Table<ConditionCode>) -> u64
    ensures { result ≡ routine_cost shared.now routine.now }
{
    let mut left = routine.code.as_slice();
    let mut cost: u64 = 0;
    while let [op, rest @ ..] = left {
        cost = cost.saturating_add(op_cost(*op, shared));
        left = rest;
    }
    cost
}

/// The greatest cost of an init and of a body.
#[derive(Clone, Copy)]
struct MostCosts {
    init: u64,
    body: u64,
}

/// The greatest cost of an init, and of a body, among the routines of parts.
fn greatest(handlers: &[Routine], shared: &Table<ConditionCode>) -> MostCosts
    ensures init { result.init ≡ most_of_inits shared.now handlers.now }
    ensures body { result.body ≡ most_of_bodies shared.now handlers.now }
{
    let mut left = handlers;
    let mut most = MostCosts { init: 0, body: 0 };
    while let [init, body, rest @ ..] = left {
        most = MostCosts {
            init: most.init.max(routine_cost(init, shared)),
            body: most.body.max(routine_cost(body, shared)),
        };
        left = rest;
    }
    most
}

/// The greatest cost of one event, which is an evaluation or the opening.
pub(crate) fn event_cost(
    handlers: &[Routine],
    initial: StateId,
    shared: &Table<ConditionCode>,
) -> u64
    requires { 2 + 2 * initial.0 < length handlers.now }
    ensures { result ≡ capped (event_cost_in shared.now handlers.now initial.0) }
{
    let [always_init, always_body, states @ ..] = handlers else {
        unreachable!()
    };
    let most = greatest(states, shared);
    let first = &states[2 * usize::from(initial.0)];
    let evaluation = routine_cost(always_body, shared)
        .saturating_add(most.body)
        .saturating_add(most.init);
    let opening = routine_cost(always_init, shared).saturating_add(routine_cost(first, shared));
    evaluation.max(opening)
}
