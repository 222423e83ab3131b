//! The amounts of a policy's routines, and the first limit that they exceed.

ghost use Rattle.std.specs.Prelude.{◌≡◌, ◌+◌, ◌<◌, ◌≤◌, ◌++◌, length, map, sum, None, IfSome, IfOk, IfErr, OnOk};
ghost use Rattle.ifs_gen.specs.declared.amounts.Amount.TheVariants.{Size, Height, Runs};
ghost use Rattle.ifs_gen.specs.Refused.{AreWithin, IsFirstOver, IsPassed};
ghost use Rattle.ifs_gen.specs.inner.Amounts.{bounds_in, event_in, measured, most_of_bodies};
ghost use Rattle.ifs_gen.specs.inner.Amounts.{most_of_inits, amount_in, numbers_of, AreFine};
ghost use Rattle.ifs_gen.specs.inner.Measures.{capped};

use crate::fault::GenFault;
use crate::generating::VERSION;
use crate::measure::{BlockMeasure, measure_block};
use crate::mention::tests_of;
use ifs_base::{RoutineId, StateId};
use ifs_image::limits::{CODE_OF_ROUTINE, COMMANDS_OF_EVENT, STACK, code_of_image};
use ifs_policy::Handlers;
use std::alloc::{AllocError, Global};

/// An amount with a limit.
#[derive(Clone, Copy, PartialEq, Eq)]
pub(crate) enum Amount {
    /// Instructions.
    Size,
    /// The greatest number of values on the stack.
    Height,
    /// The greatest number of commands that run.
    Runs,
}

impl Amount {
    /// This amount of a routine.
    fn of(self, measure: &BlockMeasure) -> u64
        ensures { result ≡ amount_in self measure.now }
    {
        match self {
            Amount::Size => measure.size,
            Amount::Height => measure.height,
            Amount::Runs => measure.runs,
        }
    }
}

/// The measures of a part's two routines.
#[derive(Clone, Copy)]
pub(crate) struct PartMeasure {
    pub init: BlockMeasure,
    pub body: BlockMeasure,
}

/// Measures the routines of a part, in a policy with `count` tests.
pub(crate) fn measure_part(
    alloc: Global,
    part: &Handlers,
    count: usize,
) -> Result<PartMeasure, AllocError>
    requires { count ≤ 64 }
    ensures { IfOk result (λ measure. measure ≡ measured count part.now) }
{
    let init = measure_block(&part.init);
    let body = measure_block(&part.body);
    let held = tests_of(alloc, &part.body, count)?.len() as u64;
    let size = held.saturating_add(held).saturating_add(body.size);
    Ok(PartMeasure {
        init: BlockMeasure {
            size: init.size.saturating_add(1),
            ..init
        },
        body: BlockMeasure {
            size: size.saturating_add(1),
            ..body
        },
    })
}

/// Appends the measures of the routines of parts, in order.
pub(crate) fn measure_parts(
    alloc: Global,
    parts: &[Handlers],
    count: usize,
    measures: &mut Vec<PartMeasure>,
) -> Result<(), AllocError>
    requires { count ≤ 64 }
    ensures { OnOk result (measures.new.items ≡ measures.old.items ++ map (measured count) parts.now) }
{
    for part in parts {
        measures.push(measure_part(alloc, part, count)?)?;
    }
    Ok(())
}

/// The first routine whose amount exceeds a limit.
fn first_over(measures: &[PartMeasure], amount: Amount, limit: u64) -> Option<RoutineId>
    requires { length measures.now ≤ 257 }
    ensures none { result ≡ None → AreWithin limit (numbers_of amount measures.now) }
    ensures first { IfSome result (λ routine. IsFirstOver limit (numbers_of amount measures.now) routine.0) }
{
    let mut routine: u16 = 0;
    for part in measures {
        if limit < amount.of(&part.init) {
            return Some(RoutineId(routine));
        }
        if limit < amount.of(&part.body) {
            return Some(RoutineId(routine + 1));
        }
        routine += 2;
    }
    None
}

/// The number of instructions of all routines.
fn total_size(measures: &[PartMeasure]) -> u64
    ensures { result ≡ capped (sum (numbers_of Size measures.now)) }
{
    let mut left = measures;
    let mut total: u64 = 0;
    while let [part, rest @ ..] = left {
        total = total
            .saturating_add(part.init.size)
            .saturating_add(part.body.size);
        left = rest;
    }
    total
}

/// The greatest amount of an init and of a body.
#[derive(Clone, Copy)]
struct Most {
    init: u64,
    body: u64,
}

/// The greatest amount of an init, and of a body.
fn greatest(measures: &[PartMeasure], amount: Amount) -> Most
    ensures init { result.init ≡ most_of_inits amount measures.now }
    ensures body { result.body ≡ most_of_bodies amount measures.now }
{
    let mut left = measures;
    let mut most = Most { init: 0, body: 0 };
    while let [part, rest @ ..] = left {
        most = Most {
            init: most.init.max(amount.of(&part.init)),
            body: most.body.max(amount.of(&part.body)),
        };
        left = rest;
    }
    most
}

/// The greatest amount of one event, which is an evaluation or the opening.
fn event_total(measures: &[PartMeasure], initial: StateId, amount: Amount) -> u64
    requires { 1 + initial.0 < length measures.now }
    ensures { result ≡ capped (event_in amount measures.now initial.0) }
{
    let [always, states @ ..] = measures else {
        unreachable!()
    };
    let most = greatest(states, amount);
    let first = &states[usize::from(initial.0)];
    let evaluation = amount
        .of(&always.body)
        .saturating_add(most.body)
        .saturating_add(most.init);
    let opening = amount
        .of(&always.init)
        .saturating_add(amount.of(&first.init));
    evaluation.max(opening)
}

/// The budgets that follow from plain code.
#[derive(Clone, Copy)]
pub(crate) struct Bounds {
    /// The greatest number of values on the stack.
    pub stack: u16,
    /// The greatest number of commands of one event.
    pub commands: u16,
}

/// The budgets that follow from these measures, or the first limit that they exceed.
pub(crate) fn bounds_in(measures: &[PartMeasure], initial: StateId) -> Result<Bounds, GenFault>
    requires some { 1 + initial.0 < length measures.now }
    requires few { length measures.now ≤ 257 }
    ensures fine { OnOk result (AreFine measures.now initial.0) }
    ensures bounds { IfOk result (λ bounds. bounds ≡ bounds_in measures.now initial.0) }
    ensures passed { IfErr result (λ fault. IsPassed (numbers_of Size measures.now) (numbers_of Height measures.now) (event_in Runs measures.now initial.0) fault) }
{
    if let Some(routine) = first_over(measures, Amount::Size, u64::from(CODE_OF_ROUTINE)) {
        return Err(GenFault::RoutineTooLong(routine));
    }
    if u64::from(code_of_image(VERSION)) < total_size(measures) {
        return Err(GenFault::CodeTooLong);
    }
    if let Some(routine) = first_over(measures, Amount::Height, u64::from(STACK)) {
        return Err(GenFault::StackTooHigh(routine));
    }
    let commands = event_total(measures, initial, Amount::Runs);
    if u64::from(COMMANDS_OF_EVENT) < commands {
        return Err(GenFault::TooManyCommands);
    }
    let most = greatest(measures, Amount::Height);
    Ok(Bounds {
        stack: most.init.max(most.body) as u16,
        commands: commands as u16,
    })
}
