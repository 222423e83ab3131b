//! The fields of a line, with a space between each two.

use std::alloc::{AllocError, Global};
use std::str::from_utf8;

/// A field of a line. It is empty between two spaces, and at the end of a line that ends with a space.
#[derive(Clone, Copy)]
pub(crate) struct Field<'l> {
    /// Its offset in the line.
    pub(crate) start: usize,
    pub(crate) bytes: &'l [u8],
}

impl<'l> Field<'l> {
    /// The offset in the line of what follows it.
    pub(crate) fn end(self) -> usize {
        self.start.saturating_add(self.bytes.len())
    }

    /// Its text. It is empty if it is not UTF-8.
    pub(crate) fn text(self) -> &'l str {
        from_utf8(self.bytes).unwrap_or_default()
    }
}

/// The fields of a line, in order. There is at least one.
pub(crate) fn fields_of(alloc: Global, line: &[u8]) -> Result<Vec<Field<'_>>, AllocError> {
    let mut fields = Vec::new(alloc);
    let mut start = 0usize;
    for bytes in line.split(is_space) {
        fields.push(Field { start, bytes })?;
        start = start.saturating_add(bytes.len()).saturating_add(1);
    }
    Ok(fields)
}

fn is_space(byte: &u8) -> bool {
    *byte == b' '
}

/// The first field of a line.
pub(crate) fn first_field(line: &[u8]) -> Field<'_> {
    let bytes = line.split(is_space).next().unwrap_or_default();
    Field { start: 0, bytes }
}

/// The bytes of a line before an offset, and from it on. An offset past the end is the end.
pub(crate) fn split(line: &[u8], offset: usize) -> (&[u8], &[u8]) {
    line.split_at_checked(offset).unwrap_or((line, &[]))
}
