//! The cells of a line, and how a line shows them.

ghost use Rattle.std.specs.Prelude.{length};
ghost use Rattle.std.specs.Iterator.{at_most};

use crate::window::Extent;
use ifs_terminal::{Escaped, acts_on_terminal};
use std::alloc::AllocError;
use std::str;
use unicode_width::UnicodeWidthChar;

/// A character, or a byte that belongs to no character.
#[derive(Clone, Copy)]
pub(crate) struct Cell<'a> {
    bytes: &'a [u8],
    character: Option<char>,
}

impl Cell<'_> {
    /// Adds the cell as it is shown: a tab as it is, and anything else that a terminal may act on as `\xHH`.
    pub(crate) fn put(self, line: &mut String) -> Result<(), AllocError> {
        match self.character {
            Some('\t') => line.push('\t'),
            _ => write!(line, "{}", Escaped(self.bytes)),
        }
    }

    /// Adds a mark for each column of the cell. A tab stays a tab, since its columns depend on the terminal.
    pub(crate) fn put_marks(self, marks: &mut String, mark: char) -> Result<(), AllocError> {
        match self.character {
            Some('\t') => marks.push('\t'),
            _ => put_repeated(marks, mark, self.columns()),
        }
    }

    /// The columns of the cell, with one of a tab.
    fn most_columns(self) -> usize {
        match self.character {
            Some('\t') => 1,
            _ => self.columns(),
        }
    }

    /// The columns of the cell. A tab has none of its own.
    pub(crate) fn columns(self) -> usize {
        match self.character {
            Some('\t') => 0,
            Some(character) if !acts_on_terminal(character) => character.width().unwrap_or(0),
            _ => self.bytes.len().saturating_mul(4),
        }
    }
}

/// The cells of a line.
#[derive(Drop)]
pub(crate) struct Cells<'a> {
    left: &'a [u8],
}

/// The extent of a piece of a line. A tab has one column here.
pub(crate) fn extent_of(line: &[u8]) -> Extent {
    let mut extent = Extent {
        cells: 0,
        columns: 0,
        widest: 0,
    };
    for cell in cells_of(line) {
        let columns = cell.most_columns();
        extent.cells = extent.cells.saturating_add(1);
        extent.columns = extent.columns.saturating_add(columns);
        extent.widest = extent.widest.max(columns);
    }
    extent
}

/// Reads the cells of a line, from left to right.
pub(crate) fn cells_of(line: &[u8]) -> Cells<'_> {
    Cells { left: line }
}

impl<'a> Iterator for Cells<'a> {
    type Item = Cell<'a>;

    ghost remaining = { λ s. at_most (length s.left.now) };

    fn next(&mut self) -> Option<Cell<'a>> {
        let character = character_at(self.left);
        let len = character.map_or(1, char::len_utf8);
        let (bytes, left) = self.left.split_at_checked(len)?;
        self.left = left;
        Some(Cell { bytes, character })
    }
}

/// The character that bytes begin with. It is `None` if they begin with no character.
fn character_at(bytes: &[u8]) -> Option<char> {
    let len = match bytes.first()? {
        0x00..=0x7f => 1,
        0xc2..=0xdf => 2,
        0xe0..=0xef => 3,
        0xf0..=0xf4 => 4,
        _ => return None,
    };
    str::from_utf8(bytes.get(..len)?).ok()?.chars().next()
}

/// Adds a character a number of times.
pub(crate) fn put_repeated(
    text: &mut String,
    character: char,
    count: usize,
) -> Result<(), AllocError> {
    for _ in 0..count {
        text.push(character)?;
    }
    Ok(())
}
