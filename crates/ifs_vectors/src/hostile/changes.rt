//! Each cut of an image, each added byte, and each change of a byte.

use super::fields::{field_lengths, field_of};
use super::tally::{Change, Tally, counted};
use crate::verdict::{compare, judged, refuse};
use anyhow::Result;
use ifs_image::{ImageFault, read};
use ifs_verify::VerifyFault;
use std::io;

/// Cuts an image before each byte. The field of that byte is then incomplete.
pub fn try_cuts(rt: &HostRuntime, name: &str, bytes: &[u8]) -> Result<Tally> {
    let image = read(rt.alloc(), bytes)?;
    let lengths = field_lengths(rt.alloc(), image.parts())?;
    Ok(try_each_cut(rt, name, bytes, lengths.as_slice())?)
}

fn try_each_cut(
    rt: &HostRuntime,
    name: &str,
    bytes: &[u8],
    lengths: &[usize],
) -> io::Result<Tally> {
    let mut tally = Tally::default();
    for length in 0..bytes.len() {
        let at = field_of(lengths, length);
        let fault = VerifyFault::NoImage(ImageFault::Truncated { at });
        let answer = refuse(rt.alloc(), &bytes[..length], fault);
        tally = tally.and(counted(rt, name, Change::Cut { length }, answer)?);
    }
    Ok(tally)
}

/// Adds a byte of each value after an image. That byte is left over.
pub fn try_longer(rt: &HostRuntime, name: &str, bytes: &[u8]) -> Result<Tally> {
    let mut longer = Vec::from_slice(rt.alloc(), bytes)?;
    longer.push(0)?;
    Ok(try_each_longer(rt, name, longer.as_mut_slice(), bytes.len())?)
}

fn try_each_longer(
    rt: &HostRuntime,
    name: &str,
    longer: &mut [u8],
    at: usize,
) -> io::Result<Tally> {
    let fault = VerifyFault::NoImage(ImageFault::Trailing { at });
    let mut tally = Tally::default();
    for value in 0..=u8::MAX {
        set(longer, at, value);
        let answer = refuse(rt.alloc(), longer, fault);
        tally = tally.and(counted(rt, name, Change::Byte { at, value }, answer)?);
    }
    Ok(tally)
}

/// Sets each byte of an image to each other value.
pub fn try_bytes(rt: &HostRuntime, name: &str, bytes: &mut [u8]) -> io::Result<Tally> {
    let mut tally = Tally::default();
    for at in 0..bytes.len() {
        let was = bytes[at];
        tally = tally.and(try_values(rt, name, bytes, at, was)?);
        set(bytes, at, was);
    }
    Ok(tally)
}

/// Sets a byte to each value except its own.
fn try_values(
    rt: &HostRuntime,
    name: &str,
    bytes: &mut [u8],
    at: usize,
    was: u8,
) -> io::Result<Tally> {
    let mut tally = Tally::default();
    for value in (0..=u8::MAX).filter(|value| *value != was) {
        set(bytes, at, value);
        let answer = compare(rt.alloc(), bytes, judged(rt.alloc(), bytes));
        tally = tally.and(counted(rt, name, Change::Byte { at, value }, answer)?);
    }
    Ok(tally)
}

/// Sets a byte, if it exists.
fn set(bytes: &mut [u8], at: usize, value: u8) {
    if let Some(byte) = bytes.get_mut(at) {
        *byte = value;
    }
}
