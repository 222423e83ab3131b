//! What the code uses from each place on, and the limits of a routine.

use crate::fault::{Check, code_at};
use crate::slow::kinds::{Kinds, kinds_at, left_by};
use crate::slow::listing::{Line, Listing};
use crate::slow::settled;
use ifs_base::{Op, RoutineId};
use ifs_verify::VerifyFault;
use std::alloc::Global;

/// The most that may be used from a place on. A number that does not fit is the greatest one.
#[derive(Clone, Copy, Default, PartialEq, Eq)]
pub struct Bounds {
    /// Values on the stack at one time.
    pub height: u32,
    /// Frames at one time.
    pub frames: u32,
    /// Executed instructions.
    pub cost: u32,
    /// Queued commands.
    pub commands: u32,
}

impl Bounds {
    /// What a routine may use.
    const LIMITS: Bounds = Bounds {
        height: 32,
        frames: 32,
        cost: 100_000,
        commands: 64,
    };

    /// The greater of two, each number by itself.
    pub fn or(self, other: Bounds) -> Bounds {
        Bounds {
            height: self.height.max(other.height),
            frames: self.frames.max(other.frames),
            cost: self.cost.max(other.cost),
            commands: self.commands.max(other.commands),
        }
    }

    /// The use of one, and of another after it. Values and frames at one time are not added.
    pub fn then(self, other: Bounds) -> Bounds {
        Bounds {
            cost: self.cost.saturating_add(other.cost),
            commands: self.commands.saturating_add(other.commands),
            ..self.or(other)
        }
    }

    /// The use in a frame above `values` values of its caller.
    fn above(self, values: u32) -> Bounds {
        Bounds {
            height: self.height.saturating_add(values),
            frames: self.frames.saturating_add(1),
            ..self
        }
    }

    /// The first number that is over its limit.
    pub fn over(self, limits: Bounds) -> Option<Check> {
        if self.height > limits.height {
            Some(Check::Stack)
        } else if self.frames > limits.frames {
            Some(Check::Frames)
        } else if self.cost > limits.cost {
            Some(Check::Cost)
        } else if self.commands > limits.commands {
            Some(Check::Commands)
        } else {
            None
        }
    }
}

/// What is used from each line on, or the first routine that uses more than it may.
pub fn check_bounds(
    alloc: Global,
    listing: &Listing,
    kinds: &[Option<Kinds>],
) -> Result<Vec<Bounds>, VerifyFault> {
    let bounds = settled(alloc, listing.lines(), |index, line, last| {
        let here = kinds_at(kinds, index).unwrap_or_default();
        used_from(listing, line, here, last)
    })?;
    judge_bounds(listing, bounds.as_slice())?;
    Ok(bounds)
}

/// What is used from a line on, if its instruction finds these kinds. It takes the last round's results for the line's successors
/// and for the routine that the line calls.
fn used_from(listing: &Listing, line: &Line, here: Kinds, last: &[Bounds]) -> Bounds {
    let mut after = Bounds::default();
    for place in line.successors().iter().flatten() {
        let index = listing.index_of(line, *place);
        after = after.or(at(last, index));
    }
    used_at(listing, line, here)
        .then(called(listing, line, here, last))
        .then(after)
}

/// What an instruction uses by itself.
fn used_at(listing: &Listing, line: &Line, here: Kinds) -> Bounds {
    let left = left_by(listing, line, here).unwrap_or(here);
    Bounds {
        height: here.len().max(left.len()),
        frames: 1,
        cost: 1,
        commands: if line.op == Op::Queue { 1 } else { 0 },
    }
}

/// What the routine uses that an instruction calls; nothing if it calls none.
fn called(listing: &Listing, line: &Line, here: Kinds, last: &[Bounds]) -> Bounds {
    match line.op {
        Op::Call(callee) => at(last, listing.first_of(callee)).above(kept(listing, callee, here)),
        _ => Bounds::default(),
    }
}

/// How many values stay below a called routine.
fn kept(listing: &Listing, callee: RoutineId, here: Kinds) -> u32 {
    match listing.signature_of(callee) {
        Some(signature) => here.len().saturating_sub(signature.params.len()),
        None => here.len(),
    }
}

/// What is used from the line of an index on; nothing if there is no such line.
pub fn at(bounds: &[Bounds], index: Option<usize>) -> Bounds {
    match index {
        Some(index) => bounds.get(index).copied().unwrap_or_default(),
        None => Bounds::default(),
    }
}

/// The first routine that uses more than it may.
fn judge_bounds(listing: &Listing, bounds: &[Bounds]) -> Result<(), VerifyFault> {
    for (line, used) in listing.lines().iter().zip(bounds) {
        if line.place == 0
            && let Some(check) = used.over(Bounds::LIMITS)
        {
            return Err(check.at(code_at(line.routine, 0)));
        }
    }
    Ok(())
}
