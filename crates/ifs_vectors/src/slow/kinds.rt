//! The kinds on the stack at each place, and the checks of them.

use crate::fault::{Check, code_at};
use crate::slow::listing::{Line, Listing};
use crate::slow::settled;
use ifs_base::{Kind, Op};
use ifs_image::Routine;
use ifs_verify::VerifyFault;
use std::alloc::Global;

/// How many kinds fit on the stack.
const MOST: usize = 32;

/// A list of kinds, the topmost last. The places after it are empty.
#[derive(Clone, Copy, Default, PartialEq, Eq)]
pub struct Kinds {
    kinds: [Option<Kind>; MOST],
    count: usize,
}

/// What a routine takes off its caller's list, and what it leaves there.
#[derive(Clone, Copy, Default, PartialEq, Eq)]
pub struct Signature {
    pub params: Kinds,
    pub results: Kinds,
}

impl Signature {
    /// What a routine states.
    pub fn of(routine: &Routine) -> Signature {
        Signature {
            params: Kinds::of(routine.params.as_slice()),
            results: Kinds::of(routine.results.as_slice()),
        }
    }
}

impl Kinds {
    /// These kinds, the topmost last. There are fewer than 32.
    fn of(kinds: &[Kind]) -> Kinds {
        let mut list = Kinds::default();
        for kind in kinds {
            list = list.with(*kind).unwrap_or(list);
        }
        list
    }

    /// How many kinds there are, at most 32.
    pub fn len(self) -> u32 {
        u32::try_from(self.count).unwrap_or(u32::MAX)
    }

    /// With one more on top; `None` if there are 32 already.
    fn with(self, kind: Kind) -> Option<Kinds> {
        let Kinds { mut kinds, count } = self;
        *kinds.get_mut(count)? = Some(kind);
        let count = count.checked_add(1)?;
        Some(Kinds { kinds, count })
    }

    /// The topmost, if there is one.
    fn top(self) -> Option<Kind> {
        let last = self.count.checked_sub(1)?;
        self.kinds.get(last).copied().flatten()
    }

    /// Without its topmost.
    fn below(self) -> Kinds {
        let Kinds { mut kinds, count } = self;
        let count = count.saturating_sub(1);
        if let Some(top) = kinds.get_mut(count) {
            *top = None;
        }
        Kinds { kinds, count }
    }

    /// Without its topmost, which has to be of a kind.
    fn without(self, kind: Kind) -> Result<Kinds, Check> {
        if self.top() == Some(kind) {
            Ok(self.below())
        } else {
            Err(Check::Operand)
        }
    }

    /// Without these, which have to be on top.
    fn without_all(self, wanted: Kinds) -> Result<Kinds, Check> {
        let mut left = self;
        for kind in wanted.kinds.iter().rev().flatten() {
            left = left.without(*kind)?;
        }
        Ok(left)
    }

    /// With these on top, if there is room.
    fn with_all(self, more: Kinds) -> Result<Kinds, Check> {
        let mut list = self;
        for kind in more.kinds.iter().flatten() {
            list = put(list, *kind)?;
        }
        Ok(list)
    }
}

/// What an instruction leaves of the kinds that it finds. An error is the check that fails.
pub fn left_by(listing: &Listing, line: &Line, kinds: Kinds) -> Result<Kinds, Check> {
    match line.op {
        Op::Ret => returned(listing.signature_at(line.routine), kinds),
        Op::Yes | Op::No | Op::Link(_, _) | Op::Test(_) | Op::Known(_) => put(kinds, Kind::Truth),
        Op::Negate => put(kinds.without(Kind::Truth)?, Kind::Truth),
        Op::Both | Op::Either => {
            let first = kinds.without(Kind::Truth)?;
            put(first.without(Kind::Truth)?, Kind::Truth)
        }
        Op::PushCommand(_) => put(kinds, Kind::Command),
        Op::PushState(_) => put(kinds, Kind::StateName),
        Op::Queue => kinds.without(Kind::Command),
        Op::Want => kinds.without(Kind::StateName),
        Op::Jump(_) => Ok(kinds),
        Op::JumpFalse(_) | Op::JumpTrue(_) => kinds.without(Kind::Truth),
        Op::Call(callee) => called(listing.signature_of(callee), kinds),
        Op::Pop => kinds.without(kinds.top().ok_or(Check::Operand)?),
        Op::Dup => put(kinds, kinds.top().ok_or(Check::Operand)?),
    }
}

/// With one more kind on top, if there is room.
fn put(kinds: Kinds, kind: Kind) -> Result<Kinds, Check> {
    kinds.with(kind).ok_or(Check::Stack)
}

/// The kinds at `ret`, which have to be the routine's results.
fn returned(signature: Option<Signature>, kinds: Kinds) -> Result<Kinds, Check> {
    match signature {
        Some(Signature { results, .. }) if results == kinds => Ok(kinds),
        _ => Err(Check::Results),
    }
}

/// The kinds after a call: the callee's results in place of its parameters.
fn called(signature: Option<Signature>, kinds: Kinds) -> Result<Kinds, Check> {
    let Signature { params, results } = signature.ok_or(Check::Entry)?;
    kinds.without_all(params)?.with_all(results)
}

/// The kinds at each line, if all ways to a line agree and each instruction fits what it finds.
pub fn check_kinds(alloc: Global, listing: &Listing) -> Result<Vec<Option<Kinds>>, VerifyFault> {
    let kinds = settled(
        alloc,
        listing.lines(),
        |index, line, last| found(listing, index, line, last),
    )?;
    judge_kinds(listing, kinds.as_slice())?;
    Ok(kinds)
}

/// The kinds at the line of an index, if there is such a line and they are known.
pub fn kinds_at(kinds: &[Option<Kinds>], index: usize) -> Option<Kinds> {
    kinds.get(index).copied().flatten()
}

/// The kinds at a line. At a routine's first place they are its parameters. Elsewhere the first line that leads there leaves them.
/// The kinds at that line are those of the last round.
fn found(listing: &Listing, index: usize, line: &Line, last: &[Option<Kinds>]) -> Option<Kinds> {
    if line.place == 0 {
        return listing
            .signature_at(line.routine)
            .map(|signature| signature.params);
    }
    let origin = listing.origin_of(index)?;
    let before = listing.lines().get(origin)?;
    left_by(listing, before, kinds_at(last, origin)?).ok()
}

/// Reports the first place whose instruction does not fit what it finds, or leaves other kinds than a successor has. A line without
/// kinds comes after the one at fault, since the first line that leads to it comes before it.
fn judge_kinds(listing: &Listing, kinds: &[Option<Kinds>]) -> Result<(), VerifyFault> {
    for (line, here) in listing.lines().iter().zip(kinds) {
        let place = code_at(line.routine, line.place);
        let here = here.ok_or(Check::Reached.at(place))?;
        let left = left_by(listing, line, here).map_err(|check| check.at(place))?;
        if !agrees(listing, line, left, kinds) {
            return Err(Check::Ways.at(place));
        }
    }
    Ok(())
}

/// Whether each successor of a line has the kinds that the line leaves.
fn agrees(listing: &Listing, line: &Line, left: Kinds, kinds: &[Option<Kinds>]) -> bool {
    line.successors()
        .iter()
        .flatten()
        .filter_map(|place| listing.index_of(line, *place))
        .all(|index| kinds_at(kinds, index) == Some(left))
}
