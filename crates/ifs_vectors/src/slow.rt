//! The slow checker: whether bytes are accepted, computed from what acceptance means.
//!
//! All instructions are in one list. Rounds over the whole list find which kinds are on the stack at a place and how much is used from
//! there on. Each round starts from what the last one found, until a round changes nothing. The checker shares the reader of images
//! and the names of faults with the verifier, and nothing else.

use crate::slow::bounds::check_bounds;
use crate::slow::budgets::check_budgets;
use crate::slow::kinds::check_kinds;
use crate::slow::listing::{Line, Listing};
use crate::slow::plain::check_plain;
use ifs_image::{ImageParts, read};
use ifs_verify::VerifyFault;
use std::alloc::{AllocError, Global};

mod bounds;
mod budgets;
mod kinds;
mod listing;
mod plain;

/// Whether bytes are accepted. The error is the first failed check in their order, with its place, or a failed allocation.
pub fn judge(alloc: Global, bytes: &[u8]) -> Result<(), VerifyFault> {
    let image = read(alloc, bytes)?;
    judge_parts(alloc, image.parts())
}

/// Whether an image is accepted.
fn judge_parts(alloc: Global, parts: &ImageParts) -> Result<(), VerifyFault> {
    let listing = Listing::of(alloc, parts.routines.as_slice())?;
    judge_listing(alloc, parts, &listing)
}

/// The same, with the list of its instructions.
fn judge_listing(alloc: Global, parts: &ImageParts, listing: &Listing) -> Result<(), VerifyFault> {
    check_plain(parts, listing)?;
    let kinds = check_kinds(alloc, listing)?;
    let bounds = check_bounds(alloc, listing, kinds.as_slice())?;
    check_budgets(parts, listing, bounds.as_slice())
}

/// A value for each line, by rounds over all lines until a round changes nothing. Ways lead forward and calls to lower routines, so
/// no more rounds are needed than there are lines.
fn settled<T: PartialEq + Drop, F: Fn(usize, &Line, &[T]) -> T>(
    alloc: Global,
    lines: &[Line],
    value: F,
) -> Result<Vec<T>, AllocError>
    requires { F.IsAlwaysCallable value }
{
    let mut found = round(alloc, lines, &[], &value)?;
    for _round in 0..lines.len() {
        let next = round(alloc, lines, found.as_slice(), &value)?;
        if next.as_slice() == found.as_slice() {
            break;
        }
        found = next;
    }
    Ok(found)
}

/// One round: a value for each line, by its index and the last round's values.
fn round<T: Drop, F: Fn(usize, &Line, &[T]) -> T>(
    alloc: Global,
    lines: &[Line],
    last: &[T],
    value: &F,
) -> Result<Vec<T>, AllocError>
    requires { F.IsAlwaysCallable value.now }
{
    let mut found = Vec::with_capacity(alloc, lines.len())?;
    for (index, line) in lines.iter().enumerate() {
        found.push(value(index, line, last))?;
    }
    Ok(found)
}
