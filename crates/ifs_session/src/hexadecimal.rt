//! Images that are written as a line of hexadecimal digits.

ghost use Rattle.std.specs.Prelude.{◌≡◌, ◌≤◌, [], length, IfOk};
ghost use Rattle.ifs_session.specs.inner.Reading.{DigitGives, SpellsFront, AtHandGives, LineSpells};
ghost use Rattle.ifs_session.specs.Hexadecimal.{HexGives};

use crate::device::ByteIn;
use ifs_base::{Items, digit_value};
use std::alloc::{AllocError, Global};

/// The most bytes that an image's line spells, in 131,072 digits.
const BYTES: usize = 65_536;

/// Why a line cannot be read as bytes.
#[derive(Clone, Copy, PartialEq, Eq)]
pub(crate) enum HexFault {
    /// The line is invalid.
    Broken,
    /// An allocation for the bytes failed.
    Memory,
    /// A read failed.
    NotRead,
}

/// Reads the bytes that a line spells. A valid line is an even number of at most 131,072 lower-case hexadecimal digits.
/// Reading stops at the first byte that makes the line invalid.
pub(crate) fn hex_line<R: ByteIn>(alloc: Global, reader: &mut R) -> Result<Items<u8>, HexFault>
    ensures { HexGives result
        (record { left = R.left reader.old; faults = R.faults reader.old })
        (record { left = R.left reader.new; faults = R.faults reader.new }) }
{
    let mut bytes = Vec::new(alloc);
    match read_line(reader, &mut bytes) {
        Ok(()) => Ok(Items::new(bytes)),
        Err(fault) => Err(fault),
    }
}

/// Reads those bytes into an empty vector.
fn read_line<R: ByteIn>(reader: &mut R, bytes: &mut Vec<u8>) -> Result<(), HexFault>
    requires { bytes.old.items ≡ [] }
    ensures { LineSpells result bytes.new.items
        (record { left = R.left reader.old; faults = R.faults reader.old })
        (record { left = R.left reader.new; faults = R.faults reader.new }) }
{
    'digits: loop {
        take_at_hand(reader, bytes)?;
        let Some(high) = read_digit(reader)? else {
            return Ok(());
        };
        if bytes.len() >= BYTES {
            return Err(HexFault::Broken);
        }
        let Some(low) = read_digit(reader)? else {
            return Err(HexFault::Broken);
        };
        let Ok(()) = bytes.push(16 * high + low) else {
            return Err(HexFault::Memory);
        };
    }
}

/// Reads the bytes whose digits are at hand, up to the limit, and appends them. If an allocation fails, nothing is read.
fn take_at_hand<R: ByteIn>(reader: &mut R, bytes: &mut Vec<u8>) -> Result<(), HexFault>
    requires { length bytes.old.items ≤ 65536 }
    ensures { AtHandGives result bytes.old.items bytes.new.items
        (record { left = R.left reader.old; faults = R.faults reader.old })
        (record { left = R.left reader.new; faults = R.faults reader.new }) }
{
    let Ok(count) = append_spelled(reader.peek(), bytes) else {
        return Err(HexFault::Memory);
    };
    reader.skip(count);
    Ok(())
}

/// Appends the bytes that the front of a text spells, up to the limit, and returns their number of digits.
fn append_spelled(text: &[u8], bytes: &mut Vec<u8>) -> Result<usize, AllocError>
    requires { length bytes.old.items ≤ 65536 }
    ensures { IfOk result (λ count. SpellsFront text.now count bytes.old.items bytes.new.items) }
{
    let mut left = text;
    while let [high, low, rest @ ..] = left {
        if bytes.len() >= BYTES {
            break;
        }
        let (Some(high), Some(low)) = (digit_value(*high), digit_value(*low)) else {
            break;
        };
        bytes.push(16 * high + low)?;
        left = rest;
    }
    Ok(text.len() - left.len())
}

/// Reads a digit. Returns `None` at the end of the line.
fn read_digit<R: ByteIn>(reader: &mut R) -> Result<Option<u8>, HexFault>
    ensures { DigitGives result
        (record { left = R.left reader.old; faults = R.faults reader.old })
        (record { left = R.left reader.new; faults = R.faults reader.new }) }
{
    let Ok(next) = reader.next() else {
        return Err(HexFault::NotRead);
    };
    let Some(byte) = next else {
        return Ok(None);
    };
    if byte == b'\n' {
        return Ok(None);
    }
    match digit_value(byte) {
        Some(digit) => Ok(Some(digit)),
        None => Err(HexFault::Broken),
    }
}
