//! Lines and columns of offsets.

ghost use Rattle.std.specs.Prelude.{◌≡◌, count_by};
ghost use Rattle.ifs_report.specs.Positions.{begins_character, column_of, is_newline, line_of};

use crate::lines::{last_line, split};
use crate::reports::Position;

/// Returns the place of an offset of a text. An offset past the end is the end. In a text that is not in UTF-8, each byte that
/// is no continuation byte counts as a character.
pub fn position(text: &[u8], offset: usize) -> Position
    ensures line { result.line ≡ line_of text.now offset }
    ensures column { result.column ≡ column_of text.now offset }
{
    let (before, _) = split(text, offset);
    Position {
        line: 1 + newlines(before),
        column: 1 + characters(last_line(before)),
    }
}

/// Counts the newlines. It looks at every byte, so that the compiler can use vector instructions.
fn newlines(bytes: &[u8]) -> usize
    ensures { result ≡ count_by is_newline bytes.now }
{
    let mut count = 0;
    for byte in bytes {
        count += usize::from(*byte == b'\n');
    }
    count
}

/// Counts the bytes that begin a character.
fn characters(bytes: &[u8]) -> usize
    ensures { result ≡ count_by begins_character bytes.now }
{
    bytes
        .iter()
        .filter(|byte| !matches!(**byte, 0x80..=0xbf))
        .count()
}
