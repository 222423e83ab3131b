//! Parts of a text, and its lines.

use ifs_base::Span;
use ifs_report::Part;

/// A part of a text, if it lies within the text, between characters.
pub fn slice_of(text: &str, part: Part) -> Option<&str> {
    text.get(part.start..part.end)
}

/// The most bytes of a line that are looked at before a place.
const MOST_OF_A_LINE: usize = 4096;

/// What comes before an offset on its line, if that is not too long.
pub fn line_before(text: &str, offset: usize) -> Option<&str> {
    let front = text.get(..offset)?;
    let length = length_of_last(front.as_bytes());
    if length == MOST_OF_A_LINE {
        return None;
    }
    front.get(offset.saturating_sub(length)..)
}

/// How many bytes of the last line of a text are looked at.
fn length_of_last(bytes: &[u8]) -> usize {
    let mut length = 0usize;
    for byte in bytes.iter().rev() {
        if *byte == b'\n' || length == MOST_OF_A_LINE {
            break;
        }
        length = length.saturating_add(1);
    }
    length
}

/// The line of an offset, from 1.
pub fn line_at(text: &str, offset: usize) -> u32 {
    let bytes = text.as_bytes();
    newlines_in(bytes.get(..offset).unwrap_or(bytes)).saturating_add(1)
}

/// The part of a span.
pub fn part_of(span: Span) -> Part {
    Part {
        start: span.start as usize,
        end: span.end as usize,
    }
}

/// How many newlines a text has.
pub fn newlines_in(text: &[u8]) -> u32 {
    let mut count = 0u32;
    for byte in text {
        if *byte == b'\n' {
            count = count.saturating_add(1);
        }
    }
    count
}
