//! Where the places of a report are.

use crate::lines::{first_bytes, first_line, last_bytes, last_line, split, without_return};
use crate::places::position;
use crate::reports::{Part, Place, Position, Source};
use crate::window::MOST_BYTES;
use std::alloc::{AllocError, Global};

/// The texts of a file and of the definitions on its command line.
#[derive(Clone, Copy)]
pub(crate) struct Texts<'t> {
    pub(crate) source: Source<'t>,
    /// The word `NAME=VALUE` of each definition.
    pub(crate) words: &'t [String],
}

/// A part of one of these texts.
#[derive(Clone, Copy)]
pub(crate) struct Spot<'t> {
    text: &'t [u8],
    part: Part,
    /// The lines before the text.
    lines_before: usize,
    /// The name of the definition, if the text is its word.
    pub(crate) definition: Option<&'t str>,
}

/// The line on which a spot begins, and the spot's place. Of a long line, it has the bytes around the spot.
#[derive(Clone, Copy)]
pub(crate) struct Line<'t> {
    pub(crate) start: Position,
    pub(crate) before: &'t [u8],
    /// The part, up to the end of the line.
    pub(crate) inside: &'t [u8],
    pub(crate) after: &'t [u8],
    /// Whether the line is in the word of a definition.
    pub(crate) is_defined: bool,
}

/// Makes the word `NAME=VALUE` of each definition.
pub(crate) fn words_of(
    alloc: Global,
    definitions: &[(&str, &str)],
) -> Result<Vec<String>, AllocError> {
    let mut words = Vec::new(alloc);
    for (name, value) in definitions {
        words.push(format!(in alloc; "{name}={value}")?)?;
    }
    Ok(words)
}

impl<'t> Texts<'t> {
    /// Finds a place. It is `None` for the file as a whole, and for a definition that is not there.
    pub(crate) fn spot(&self, place: Place) -> Option<Spot<'t>> {
        match place {
            Place::File => None,
            Place::Text(part) => Some(Spot {
                text: self.source.text,
                part,
                lines_before: self.source.lines_before,
                definition: None,
            }),
            Place::Definition(number, part) => self.defined_spot(number, part),
        }
    }

    /// Finds the line of a place.
    pub(crate) fn line(&self, place: Place) -> Option<Line<'t>> {
        let spot = self.spot(place)?;
        Some(spot.line())
    }

    fn defined_spot(&self, number: usize, part: Part) -> Option<Spot<'t>> {
        let (name, _) = *self.source.definitions.get(number)?;
        let word = self.words.get(number)?;
        let value_at = name.len().saturating_add(1);
        Some(Spot {
            text: word.as_bytes(),
            part: Part {
                start: part.start.saturating_add(value_at),
                end: part.end.saturating_add(value_at),
            },
            lines_before: 0,
            definition: Some(name),
        })
    }
}

impl<'t> Spot<'t> {
    pub(crate) fn start(&self) -> Position {
        self.position_of(self.part.start)
    }

    /// The place after the part.
    pub(crate) fn end(&self) -> Position {
        self.position_of(self.part.end.max(self.part.start))
    }

    /// The place of an offset in the file.
    fn position_of(&self, offset: usize) -> Position {
        let Position { line, column } = position(self.text, offset);
        Position {
            line: line.saturating_add(self.lines_before),
            column,
        }
    }

    /// The line of the start.
    pub(crate) fn line(&self) -> Line<'t> {
        let (front, rest) = split(self.text, self.part.start);
        let len = self.part.end.saturating_sub(self.part.start);
        let (inside, after) = split(first_line(rest), len);
        Line {
            start: self.start(),
            before: last_bytes(shown_front(last_line(front), rest), MOST_BYTES),
            inside: first_bytes(inside, MOST_BYTES),
            after: first_bytes(after, MOST_BYTES),
            is_defined: self.definition.is_some(),
        }
    }
}

/// The start of a line, without a carriage return if a newline follows.
fn shown_front<'t>(front: &'t [u8], rest: &[u8]) -> &'t [u8] {
    match rest {
        [b'\n', ..] => without_return(front),
        _ => front,
    }
}
