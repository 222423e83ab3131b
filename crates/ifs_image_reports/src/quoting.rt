//! Quoted texts of a line.

ghost use Rattle.std.specs.Prelude.{◌<◌, length, IfSome};

use ifs_base::digit_value;

/// Why a word is no quoted text. Offsets are in the word.
#[derive(Clone, Copy)]
pub(crate) enum TextFault {
    /// It does not begin with a quote.
    NoQuote,
    /// No quote ends it.
    Open,
    /// Bytes follow the quote that ends it, at this offset.
    Behind { at: usize },
    /// A backslash at this offset begins no escape.
    NoEscape { at: usize },
    /// A byte at this offset has to be escaped.
    Control { at: usize, byte: u8 },
}

/// The number of bytes of a quoted text, without quotes and escapes.
pub(crate) fn length_of(word: &[u8]) -> Result<usize, TextFault> {
    let [b'"', inside @ ..] = word else {
        return Err(TextFault::NoQuote);
    };
    let mut left = inside;
    let mut length = 0usize;
    while let Some((_, rest)) = byte_of(left) {
        length = length.saturating_add(1);
        left = rest;
    }
    ending(left, word.len().saturating_sub(left.len()), length)
}

/// The length of a text whose bytes end here, at this offset in its word.
fn ending(left: &[u8], at: usize, length: usize) -> Result<usize, TextFault> {
    match left {
        [] => Err(TextFault::Open),
        [b'"'] => Ok(length),
        [b'"', ..] => Err(TextFault::Behind {
            at: at.saturating_add(1),
        }),
        [b'\\', ..] => Err(TextFault::NoEscape { at }),
        [byte, ..] => Err(TextFault::Control { at, byte: *byte }),
    }
}

/// The byte that comes next in quotes, and what follows it. `None` if no byte comes next.
fn byte_of(inside: &[u8]) -> Option<(u8, &[u8])>
    ensures { IfSome result (λ next. length next.1.now < length inside.now) }
{
    match inside {
        [b'\\', byte @ (b'"' | b'\\'), rest @ ..] => Some((*byte, rest)),
        [b'\\', b'x', high, low, rest @ ..] => Some((byte_in_digits(*high, *low)?, rest)),
        [] | [b'"' | b'\\', ..] | [0..=31 | 127, ..] => None,
        [byte, rest @ ..] => Some((*byte, rest)),
    }
}

/// The byte from 01 to 7f that two hexadecimal digits spell.
fn byte_in_digits(high: u8, low: u8) -> Option<u8> {
    let high = digit_value(high)?;
    let low = digit_value(low)?;
    let byte = high.saturating_mul(16).saturating_add(low);
    if 1 <= byte && byte <= 127 {
        Some(byte)
    } else {
        None
    }
}

/// Whether two quoted texts have the same bytes.
pub(crate) fn is_same_text(one: &[u8], other: &[u8]) -> bool {
    match (one, other) {
        ([b'"', inside @ ..], [b'"', others @ ..]) => is_same_inside(inside, others),
        _ => false,
    }
}

/// The same for what follows the first quote of each.
fn is_same_inside(one: &[u8], other: &[u8]) -> bool {
    let mut left = one;
    let mut right = other;
    while let Some((byte, rest)) = byte_of(left) {
        match byte_of(right) {
            Some((same, others)) if same == byte => right = others,
            _ => return false,
        }
        left = rest;
    }
    left == b"\"".as_slice() && right == b"\"".as_slice()
}
