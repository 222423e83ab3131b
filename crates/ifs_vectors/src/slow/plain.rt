//! The checks that look at each entry and instruction by itself.

use crate::fault::{Check, code_at, state_at};
use crate::slow::kinds::Signature;
use crate::slow::listing::{Line, Listing};
use ifs_base::Op;
use ifs_image::{Handlers, ImageParts, Routine};
use ifs_verify::{At, VerifyFault};

/// Each plain check over the whole image, one after the other.
pub fn check_plain(parts: &ImageParts, listing: &Listing) -> Result<(), VerifyFault> {
    let lines = listing.lines();
    check_head(parts)?;
    check_states(parts)?;
    check_operands(parts, lines)?;
    check_handlers(parts, listing)?;
    check_jumps(lines)?;
    check_ends(parts.routines.as_slice())?;
    check_calls(lines)?;
    check_reached(lines, listing.origins())
}

/// The fault of a check, if what it wants does not hold.
fn wanted(holds: bool, check: Check, place: At) -> Result<(), VerifyFault> {
    if holds { Ok(()) } else { Err(check.at(place)) }
}

/// The initial state and the always part are within their tables.
fn check_head(parts: &ImageParts) -> Result<(), VerifyFault> {
    let initial = usize::from(parts.initial.0) < parts.states.len();
    let within = initial && are_within(parts, parts.always);
    wanted(within, Check::Entry, At::Head)
}

/// The handlers of each state are within their tables.
fn check_states(parts: &ImageParts) -> Result<(), VerifyFault> {
    for (index, state) in parts.states.as_slice().iter().enumerate() {
        let within = are_within(parts, state.handlers);
        wanted(within, Check::Entry, state_at(index))?;
    }
    Ok(())
}

/// Whether both routines and all tests of the mask are in their tables.
fn are_within(parts: &ImageParts, handlers: Handlers) -> bool {
    let routines = parts.routines.len();
    usize::from(handlers.init.0) < routines
        && usize::from(handlers.body.0) < routines
        && are_below(handlers.mask, parts.tests.len())
}

/// Whether a mask names only tests below a number.
fn are_below(mask: u64, tests: usize) -> bool {
    let mut rest = mask;
    for _test in 0..tests {
        rest /= 2;
    }
    rest == 0
}

/// Each index of an instruction is within its table.
fn check_operands(parts: &ImageParts, lines: &[Line]) -> Result<(), VerifyFault> {
    for line in lines {
        let (index, length) = entry_of(parts, line.op);
        wanted(
            index < length,
            Check::Entry,
            code_at(line.routine, line.place),
        )?;
    }
    Ok(())
}

/// The index that an instruction names, and the length of its table. Without an index it is the first of one entry.
fn entry_of(parts: &ImageParts, op: Op) -> (usize, usize) {
    match op {
        Op::Link(interface, _) => (usize::from(interface.0), parts.interfaces.len()),
        Op::Test(test) | Op::Known(test) => (usize::from(test.0), parts.tests.len()),
        Op::PushCommand(command) => (usize::from(command.0), parts.commands.len()),
        Op::PushState(state) => (usize::from(state.0), parts.states.len()),
        Op::Call(routine) => (usize::from(routine.0), parts.routines.len()),
        _ => (0, 1),
    }
}

/// No handler takes or leaves a value.
fn check_handlers(parts: &ImageParts, listing: &Listing) -> Result<(), VerifyFault> {
    wanted(stand_alone(listing, parts.always), Check::Leaves, At::Head)?;
    for (index, state) in parts.states.as_slice().iter().enumerate() {
        let alone = stand_alone(listing, state.handlers);
        wanted(alone, Check::Leaves, state_at(index))?;
    }
    Ok(())
}

/// Whether neither handler takes or leaves a value.
fn stand_alone(listing: &Listing, handlers: Handlers) -> bool {
    let alone = Some(Signature::default());
    listing.signature_of(handlers.init) == alone && listing.signature_of(handlers.body) == alone
}

/// Each jump leads forward and stays in its routine.
fn check_jumps(lines: &[Line]) -> Result<(), VerifyFault> {
    for line in lines {
        let target = match line.op {
            Op::Jump(target) | Op::JumpFalse(target) | Op::JumpTrue(target) => usize::from(target),
            _ => continue,
        };
        let forward = line.place < target && target < line.length;
        wanted(forward, Check::Jump, code_at(line.routine, line.place))?;
    }
    Ok(())
}

/// Each routine ends with `ret`.
fn check_ends(routines: &[Routine]) -> Result<(), VerifyFault> {
    for (index, routine) in routines.iter().enumerate() {
        let code = routine.code.as_slice();
        let ends = matches!(code.last(), Some(Op::Ret));
        wanted(
            ends,
            Check::End,
            code_at(index, code.len().saturating_sub(1)),
        )?;
    }
    Ok(())
}

/// Each called routine is lower in number than its caller.
fn check_calls(lines: &[Line]) -> Result<(), VerifyFault> {
    for line in lines {
        if let Op::Call(callee) = line.op {
            let lower = usize::from(callee.0) < line.routine;
            wanted(lower, Check::Lower, code_at(line.routine, line.place))?;
        }
    }
    Ok(())
}

/// An earlier place leads to each place but the first of a routine.
fn check_reached(lines: &[Line], origins: &[Option<usize>]) -> Result<(), VerifyFault> {
    for (line, origin) in lines.iter().zip(origins) {
        let reached = line.place == 0 || origin.is_some();
        wanted(reached, Check::Reached, code_at(line.routine, line.place))?;
    }
    Ok(())
}
