//! Parts of replies: numbers, quoted texts and lists.

ghost use Rattle.std.specs.Prelude.{◌≡◌, ◌<◌, ◌≤◌, [], ◌∷◌, ◌++◌, length, take, decimal, map};
ghost use Rattle.std.specs.Bool.{OnTrue};
ghost use Rattle.std.specs.List.{flat_map};
ghost use Rattle.ifs_base.specs.Words.{quoted_byte, quoted, listed};
ghost use Rattle.ifs_session.specs.Device.{PutGives};

use crate::device::{ByteOut, DeviceFault};
use ifs_base::{CommandId, QuotedByte, quote_byte};
use itoa::Buffer;

/// Writes a number in decimal digits.
pub(crate) fn put_number<W: ByteOut>(out: &mut W, number: u64) -> Result<(), DeviceFault>
    ensures { PutGives result (decimal number) (W.written out.old) (W.written out.new) (W.faults out.old) (W.faults out.new) }
{
    if number < 10 {
        return out.put(&[digit(number as u8)]);
    }
    out.put(Buffer::new().format(number).as_bytes())
}

/// The decimal digit of a number below 10.
fn digit(number: u8) -> u8
    requires { number < 10 }
    ensures { decimal number ≡ result ∷ [] }
{
    b'0' + number
}

/// Writes words and then a number.
#[tactic(auto, using(crate::proofs::Known::written_laws))]
#[inline(always)]
pub(crate) fn put_numbered<W: ByteOut>(
    out: &mut W,
    words: &[u8],
    number: u64,
) -> Result<(), DeviceFault>
    ensures { PutGives result (words.now ++ decimal number) (W.written out.old) (W.written out.new) (W.faults out.old) (W.faults out.new) }
{
    out.put(words)?;
    put_number(out, number)?;
    Ok(())
}

/// Writes a text in quotes.
pub(crate) fn put_quoted<W: ByteOut>(out: &mut W, text: &[u8]) -> Result<(), DeviceFault>
    ensures { PutGives result (quoted text.now) (W.written out.old) (W.written out.new) (W.faults out.old) (W.faults out.new) }
{
    out.put(b"\"")?;
    put_escaped(out, text)?;
    out.put(b"\"")?;
    Ok(())
}

/// Writes the inside of a quoted text. Bytes without an escape are written in runs, and the others one by one.
#[tactic(auto, using(crate::proofs::Known::written_laws))]
fn put_escaped<W: ByteOut>(out: &mut W, text: &[u8]) -> Result<(), DeviceFault>
    ensures { PutGives result (flat_map quoted_byte text.now) (W.written out.old) (W.written out.new) (W.faults out.old) (W.faults out.new) }
{
    let mut left = text;
    'runs: loop {
        let (plain, rest) = left.split_at(plain_length(left));
        out.put(plain)?;
        let Some((byte, others)) = rest.split_first() else {
            return Ok(());
        };
        put_quoted_byte(out, *byte)?;
        left = others;
    }
}

/// The length of the front of a text that needs no escape in quotes.
fn plain_length(text: &[u8]) -> usize
    ensures within { result ≤ length text.now }
    ensures plain { flat_map quoted_byte (take result text.now) ≡ take result text.now }
{
    for (index, byte) in text.iter().enumerate() {
        if !is_plain(*byte) {
            return index;
        }
    }
    text.len()
}

/// Whether a byte needs no escape in quotes.
fn is_plain(byte: u8) -> bool
    ensures { OnTrue result (quoted_byte byte ≡ byte ∷ []) }
{
    matches!(quote_byte(byte), QuotedByte::Plain(_))
}

/// Writes a byte of a quoted text, escaped if needed.
fn put_quoted_byte<W: ByteOut>(out: &mut W, byte: u8) -> Result<(), DeviceFault>
    ensures { PutGives result (quoted_byte byte) (W.written out.old) (W.written out.new) (W.faults out.old) (W.faults out.new) }
{
    match quote_byte(byte) {
        QuotedByte::Plain(byte) => out.put(&[byte]),
        QuotedByte::Escaped(byte) => out.put(&[b'\\', byte]),
        QuotedByte::Hexadecimal(high, low) => out.put(&[b'\\', b'x', high, low]),
    }
}

/// Writes the numbers of commands, separated by commas, or a dash if there are none.
pub(crate) fn put_commands<W: ByteOut>(
    out: &mut W,
    commands: &[CommandId],
) -> Result<(), DeviceFault>
    ensures { PutGives result (listed (map (λ c. decimal c.0) commands.now)) (W.written out.old) (W.written out.new) (W.faults out.old) (W.faults out.new) }
{
    let Some((first, others)) = commands.split_first() else {
        return out.put(b"-");
    };
    put_number(out, u64::from(first.0))?;
    for command in others {
        out.put(b",")?;
        put_number(out, u64::from(command.0))?;
    }
    Ok(())
}
