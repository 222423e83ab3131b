//! The place of a part of a text.

/// A part of a text: the line on which it begins, the offset of its first byte, and the offset after its last
/// byte. Lines count from 1, offsets from 0.
#[derive(Clone, Copy, Debug, PartialEq, Eq)]
pub struct Span {
    pub line: u32,
    pub start: u32,
    pub end: u32,
}
