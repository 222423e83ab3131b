//! Link states, hexadecimal digits, and the bytes of quoted texts.

ghost use Rattle.std.specs.Prelude.{◌≡◌, ◌<◌, MatchOption};
ghost use Rattle.ifs_base.specs.Words.{link_word, hex_digit, IsNoDigit, quoted_byte, bytes_of};

use crate::op::LinkState;

/// Returns the word of a link state.
pub fn link_word(link: LinkState) -> &'static str
    ensures { result.now ≡ link_word link }
{
    match link {
        LinkState::Unknown => "unknown",
        LinkState::Down => "down",
        LinkState::Up => "up",
    }
}

/// A byte as a quoted text has it.
#[derive(Clone, Copy, Debug, PartialEq, Eq)]
pub enum QuotedByte {
    /// The byte itself.
    Plain(u8),
    /// A backslash and the byte.
    Escaped(u8),
    /// A backslash, an `x`, and two hexadecimal digits, the high one first.
    Hexadecimal(u8, u8),
}

/// Returns a byte as a quoted text has it.
pub fn quote_byte(byte: u8) -> QuotedByte
    ensures { bytes_of result ≡ quoted_byte byte }
{
    match byte {
        b'"' | b'\\' => QuotedByte::Escaped(byte),
        0..=31 | 127 => QuotedByte::Hexadecimal(hex_digit(byte / 16), hex_digit(byte % 16)),
        _ => QuotedByte::Plain(byte),
    }
}

/// Returns the hexadecimal digit of a number below 16, in lower case.
pub fn hex_digit(digit: u8) -> u8
    requires { digit < 16 }
    ensures { result ≡ hex_digit digit }
{
    if digit < 10 {
        b'0' + digit
    } else {
        b'a' + (digit - 10)
    }
}

/// Returns the value of a hexadecimal digit in lower case. Returns `None` for any other byte.
pub fn digit_value(byte: u8) -> Option<u8>
    ensures { MatchOption result (IsNoDigit byte) (λ digit. (digit < 16) × (byte ≡ hex_digit digit)) }
{
    match byte {
        b'0'..=b'9' => Some(byte - b'0'),
        b'a'..=b'f' => Some(byte - b'a' + 10),
        _ => None,
    }
}
