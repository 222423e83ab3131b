//! Assembly texts of the largest images.

use crate::checks::{holds, same, same_in};
use crate::largest::bytes_in;
use ifs_asm::{assemble, disassemble};
use ifs_image::{Image, read, write};
use ifs_test_images::{LARGEST_BYTES, SMALLEST, largest_listing};
use std::alloc::{AllocError, Global};
use std::process::Abort;
use std::test::Fail;

fn listing(alloc: Global, image: &Image) -> Result<String, Fail> {
    Ok(disassemble(alloc, image)?)
}

/// The text of the image that bytes spell.
fn text_in(alloc: Global, bytes: &[u8]) -> Result<String, Fail> {
    let image = read(alloc, bytes)?;
    listing(alloc, &image)
}

/// Only an allocation can fail for the largest image: it is assembled, written, read and disassembled.
#[test]
fn takes_the_largest_image(rt: HostRuntime) -> Result<(), Fail> {
    let text = largest_listing(rt.alloc())?;
    let bytes = bytes_in(rt.alloc(), text.as_str())?;
    same(&rt, bytes.len(), LARGEST_BYTES);
    let again = text_in(rt.alloc(), bytes.as_slice())?;
    holds(&rt, again.as_str() == text.as_str());
    Ok(())
}

/// The smallest image's text in version 2 with `routines` routines. Each has 1,024 instructions, and the last one has one fewer.
fn long_text(alloc: Global, routines: usize) -> Result<String, AllocError> {
    let mut text = format!(in alloc; "ifsv 2\n{}{}", SMALLEST.0, SMALLEST.1)?;
    for routine in 0..routines {
        let last = routine.saturating_add(1) == routines;
        put_routine(&mut text, if last { 1_023 } else { 1_024 })?;
    }
    Ok(text)
}

fn put_routine(text: &mut String, count: usize) -> Result<(), AllocError> {
    text.push_str("routine params - results -\n")?;
    for _ in 0..count {
        text.push_str("pop\n")?;
    }
    Ok(())
}

fn length_line(alloc: Global, image: &Image) -> Result<String, Fail> {
    let bytes = write(alloc, image)?;
    Ok(format!(in alloc; "ok {} bytes", bytes.len())?)
}

/// The number of bytes of a text's image, or the fault.
fn line_of(alloc: Global, text: &str) -> Result<String, Fail> {
    match assemble(alloc, text) {
        Ok(image) => length_line(alloc, &image),
        Err(fault) => Ok(format!(in alloc; "{fault}")?),
    }
}

fn check_line(rt: &impl Abort, alloc: Global, text: &str, wanted: &str) -> Result<(), Fail> {
    let line = line_of(alloc, text)?;
    same_in(rt, wanted, line.as_str(), wanted);
    Ok(())
}

#[test]
fn takes_65535_instructions_in_version_two(rt: HostRuntime) -> Result<(), Fail> {
    let mut text = long_text(rt.alloc(), 64)?;
    check_line(&rt, rt.alloc(), text.as_str(), "ok 262450 bytes")?;
    put_routine(&mut text, 0)?;
    check_line(&rt, rt.alloc(), text.as_str(), "ok 262454 bytes")?;
    text.push_str("pop\n")?;
    check_line(&rt, rt.alloc(), text.as_str(), "A2 line 65609")
}
