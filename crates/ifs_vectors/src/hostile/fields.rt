//! Where the fields of an image begin in its bytes.

use ifs_base::Text;
use ifs_image::{ImageParts, Routine};
use std::alloc::{AllocError, Global};

/// The lengths of all fields in order, in bytes.
pub fn field_lengths(alloc: Global, parts: &ImageParts) -> Result<Vec<usize>, AllocError> {
    // magic, version, budgets, counts, initial state, always part
    let front = [4, 1, 2, 2, 4, 2, 2, 2, 2, 2, 2, 2, 2, 2, 8];
    let mut lengths = Vec::from_slice(alloc, front.as_slice())?;
    for name in parts.interfaces.as_slice() {
        put_text(&mut lengths, name)?;
    }
    for test in parts.tests.as_slice() {
        lengths.push(4)?;
        put_text(&mut lengths, &test.text)?;
    }
    put_rest(&mut lengths, parts)?;
    Ok(lengths)
}

/// Adds the fields from the commands on.
fn put_rest(lengths: &mut Vec<usize>, parts: &ImageParts) -> Result<(), AllocError> {
    for command in parts.commands.as_slice() {
        put_text(lengths, command)?;
    }
    for state in parts.states.as_slice() {
        put_text(lengths, &state.name)?;
        lengths.extend_from_slice([2, 2, 8].as_slice())?;
    }
    for routine in parts.routines.as_slice() {
        put_routine(lengths, parts.version, routine)?;
    }
    Ok(())
}

/// Adds a length and a text.
fn put_text(lengths: &mut Vec<usize>, text: &Text) -> Result<(), AllocError> {
    lengths.extend_from_slice([2, text.as_bytes().len()].as_slice())
}

/// Adds what a routine takes and leaves, and its instructions with their number.
fn put_routine(lengths: &mut Vec<usize>, version: u8, routine: &Routine) -> Result<(), AllocError> {
    if version == 1 {
        lengths.push(1)?;
    } else {
        put_kinds(lengths, routine.params.len())?;
        put_kinds(lengths, routine.results.len())?;
    }
    lengths.push(2)?;
    for _op in routine.code.as_slice() {
        lengths.push(4)?;
    }
    Ok(())
}

/// Adds a number of kinds, and the kinds.
fn put_kinds(lengths: &mut Vec<usize>, count: usize) -> Result<(), AllocError> {
    lengths.push(1)?;
    for _kind in 0..count {
        lengths.push(1)?;
    }
    Ok(())
}

/// Where the field of a byte begins, by the lengths of all fields.
pub fn field_of(lengths: &[usize], at: usize) -> usize {
    let mut start = 0usize;
    for length in lengths {
        let end = start.saturating_add(*length);
        if at < end {
            return start;
        }
        start = end;
    }
    start
}
