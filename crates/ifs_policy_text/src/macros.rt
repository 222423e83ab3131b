//! The macros of a policy: where each is defined, and which tokens its value has.

use crate::lines::part_of;
use ifs_base::Text;
use ifs_expected_tokens::{Spelled, behind, lexemes_of, value_of};
use ifs_lex::{Lexeme, Piece, is_dropped};
use ifs_report::{Part, Place};
use std::alloc::{AllocError, Global};
use std::collections::HashMap;

/// Where the value of a macro is.
#[derive(Clone, Copy)]
pub enum Home {
    /// In the text: its first byte between the quotes.
    Text(usize),
    /// On the command line, in the definition with this number from 0.
    Given(usize),
}

/// A macro.
#[derive(Clone, Copy)]
pub struct Macro<'a> {
    pub name: &'a str,
    /// The line and the offset of its name. A macro of the command line has line 0.
    pub line: u32,
    pub at: usize,
    pub home: Home,
    pub value: Spelled<'a>,
    /// How many tokens its value has.
    pub count: usize,
}

impl<'a> Macro<'a> {
    /// The text of its value, without the bytes that quotes drop.
    pub fn text(&self, alloc: Global) -> Result<Text, AllocError> {
        match self.value {
            Spelled::Word(word) => Ok(Text::new(String::from_str(alloc, word)?)),
            Spelled::Quoted(quote, inside) => text_inside(alloc, quote, inside),
        }
    }

    /// The place of a part of its value.
    pub fn place(&self, part: Part) -> Place {
        let (start, end) = match self.value {
            Spelled::Word(_) => (part.start, part.end),
            Spelled::Quoted(quote, inside) => (
                offset_within(quote, inside.as_bytes(), part.start),
                offset_within(quote, inside.as_bytes(), part.end),
            ),
        };
        match self.home {
            Home::Text(from) => Place::Text(Part {
                start: from.saturating_add(start),
                end: from.saturating_add(end),
            }),
            Home::Given(number) => Place::Definition(number, Part { start, end }),
        }
    }

    /// The place of its name. A macro of the command line has none.
    pub fn name_place(&self) -> Place {
        match self.home {
            Home::Text(_) => Place::Text(Part {
                start: self.at,
                end: self.at.saturating_add(self.name.len()),
            }),
            Home::Given(number) => Place::Definition(number, Part { start: 0, end: 0 }),
        }
    }

    /// The place of the quote that opens its value, or of its first byte.
    pub fn opening(&self) -> Place {
        match (self.home, self.value) {
            (Home::Text(from), Spelled::Quoted(..)) => Place::Text(Part {
                start: from.saturating_sub(1),
                end: from,
            }),
            _ => self.whole(),
        }
    }

    /// The place of its whole value.
    pub fn whole(&self) -> Place {
        let length = match self.value {
            Spelled::Word(word) => word.len(),
            Spelled::Quoted(_, inside) => inside.len(),
        };
        match self.home {
            Home::Text(from) => Place::Text(Part {
                start: from,
                end: from.saturating_add(length),
            }),
            Home::Given(number) => Place::Definition(
                number,
                Part {
                    start: 0,
                    end: length,
                },
            ),
        }
    }
}

/// What quotes have between them, without the bytes that they drop.
fn text_inside(alloc: Global, quote: u8, inside: &str) -> Result<Text, AllocError> {
    match Piece::Quoted(quote, inside).text(alloc)? {
        Some(text) => Ok(text),
        None => Ok(Text::new(String::new(alloc))),
    }
}

/// The offset between quotes of a byte of the value.
fn offset_within(quote: u8, inside: &[u8], wanted: usize) -> usize {
    let mut kept = 0usize;
    for (offset, byte) in inside.iter().enumerate() {
        if is_kept(quote, inside, offset, *byte) {
            if kept == wanted {
                return offset;
            }
            kept = kept.saturating_add(1);
        }
    }
    inside.len()
}

/// Whether the value has the byte at an offset between quotes.
fn is_kept(quote: u8, inside: &[u8], offset: usize, byte: u8) -> bool {
    match inside.get(offset.saturating_add(1)..) {
        Some(after) => !is_dropped(quote, byte, after),
        None => false,
    }
}

/// The macros that are given on the command line, and then those of a text, in order, without the numbers of their tokens.
pub fn macros_of<'a>(
    alloc: Global,
    lexemes: &[Lexeme<'a>],
    definitions: &[(&'a str, &'a str)],
) -> Result<Vec<Macro<'a>>, AllocError> {
    let mut macros = Vec::new(alloc);
    put_given(&mut macros, definitions)?;
    put_written(&mut macros, lexemes)?;
    Ok(macros)
}

/// Adds the macros of the command line.
fn put_given<'a>(
    macros: &mut Vec<Macro<'a>>,
    definitions: &[(&'a str, &'a str)],
) -> Result<(), AllocError> {
    for (number, (name, value)) in definitions.iter().enumerate() {
        macros.push(Macro {
            name,
            line: 0,
            at: 0,
            home: Home::Given(number),
            value: Spelled::Word(value),
            count: 0,
        })?;
    }
    Ok(())
}

/// Adds the macros of a text.
fn put_written<'a>(macros: &mut Vec<Macro<'a>>, lexemes: &[Lexeme<'a>]) -> Result<(), AllocError> {
    // the sign `=` and the value of a definition begin none
    let mut skipped = 0usize;
    for (index, first) in lexemes.iter().enumerate() {
        if skipped > 0 {
            skipped -= 1;
        } else if let Some(found) = macro_of(first, behind(lexemes, index)) {
            macros.push(found)?;
            skipped = 2;
        }
    }
    Ok(())
}

/// The macro whose definition begins with a lexeme.
fn macro_of<'a>(first: &Lexeme<'a>, rest: &[Lexeme<'a>]) -> Option<Macro<'a>> {
    let name = first.piece.name()?;
    let (value, place) = value_of(first, rest)?;
    let quotes = match value {
        Spelled::Word(_) => 0,
        Spelled::Quoted(..) => 1,
    };
    Some(Macro {
        name,
        line: first.span.line,
        at: first.span.start as usize,
        home: Home::Text((place.span.start as usize).saturating_add(quotes)),
        value,
        count: 0,
    })
}

/// How many tokens the macro of a name has, and whether it was given on the command line.
#[derive(Clone, Copy)]
struct Counted {
    count: usize,
    is_given: bool,
}

/// The same macros, with the numbers of their tokens.
pub(crate) fn counted_macros_of<'a>(
    alloc: Global,
    lexemes: &[Lexeme<'a>],
    definitions: &[(&'a str, &'a str)],
) -> Result<Vec<Macro<'a>>, AllocError> {
    let macros = macros_of(alloc, lexemes, definitions)?;
    let mut known = HashMap::new(alloc);
    let mut all = Vec::new(alloc);
    put_counted(alloc, macros.as_slice(), &mut known, &mut all)?;
    Ok(all)
}

/// Adds macros with the numbers of their tokens, in order. Those before them are known.
fn put_counted<'a>(
    alloc: Global,
    macros: &[Macro<'a>],
    known: &mut HashMap<&'a str, Counted>,
    all: &mut Vec<Macro<'a>>,
) -> Result<(), AllocError> {
    for found in macros {
        let count = count_of(alloc, known, found)?;
        put_known(known, found, count)?;
        let mut counted = *found;
        counted.count = count;
        all.push(counted)?;
    }
    Ok(())
}

/// The number of tokens of the value of a macro.
fn count_of(
    alloc: Global,
    known: &HashMap<&str, Counted>,
    found: &Macro<'_>,
) -> Result<usize, AllocError> {
    let text = found.text(alloc)?;
    tokens_in(alloc, known, text.as_str())
}

/// Adds a macro, unless one that was given on the command line holds before it.
fn put_known<'a>(
    known: &mut HashMap<&'a str, Counted>,
    found: &Macro<'a>,
    count: usize,
) -> Result<(), AllocError> {
    if let Some(earlier) = known.get(found.name)
        && earlier.is_given
    {
        return Ok(());
    }
    let is_given = matches!(found.home, Home::Given(_));
    known.insert(found.name, Counted { count, is_given })?;
    Ok(())
}

/// The number of tokens of a value.
fn tokens_in(
    alloc: Global,
    known: &HashMap<&str, Counted>,
    value: &str,
) -> Result<usize, AllocError> {
    let lexemes = lexemes_of(alloc, value)?;
    let mut count = 0usize;
    for found in lexemes.as_slice() {
        count = count.saturating_add(count_at(known, found));
    }
    Ok(count)
}

/// The number of tokens of a lexeme of a value.
fn count_at(known: &HashMap<&str, Counted>, found: &Lexeme<'_>) -> usize {
    match found.piece {
        Piece::End | Piece::Stray | Piece::Unclosed => 0,
        Piece::Use(name) => match known.get(name) {
            Some(used) => used.count,
            None => 0,
        },
        _ => 1,
    }
}

/// The number of tokens of a lexeme of a value.
fn tokens_at(macros: &[Macro<'_>], found: &Lexeme<'_>) -> usize {
    match found.piece {
        Piece::End | Piece::Stray | Piece::Unclosed => 0,
        Piece::Use(name) => match macro_named(macros, name) {
            Some(used) => used.count,
            None => 0,
        },
        _ => 1,
    }
}

/// The macro that a name has behind these.
fn macro_named<'m, 'a>(macros: &'m [Macro<'a>], name: &str) -> Option<&'m Macro<'a>> {
    macros.get(known(macros, name)?)
}

/// The last macro of a name.
pub fn last_named<'m, 'a>(macros: &'m [Macro<'a>], name: &str) -> Option<&'m Macro<'a>> {
    let mut last = None;
    for found in macros {
        if found.name == name {
            last = Some(found);
        }
    }
    last
}

/// The first macro of a name that the text defines.
pub fn first_written<'m, 'a>(macros: &'m [Macro<'a>], name: &str) -> Option<&'m Macro<'a>> {
    for found in macros {
        if found.name == name && found.line != 0 {
            return Some(found);
        }
    }
    None
}

/// The number of the macro that a name has behind these. One that is given on the command line holds before others, and
/// the first of these.
pub fn known(macros: &[Macro<'_>], name: &str) -> Option<usize> {
    let mut last = None;
    for (index, entry) in macros.iter().enumerate() {
        if entry.name == name {
            if let Home::Given(_) = entry.home {
                return Some(index);
            }
            last = Some(index);
        }
    }
    last
}

/// The macros that are known at an offset of the text.
pub fn before<'m, 'a>(macros: &'m [Macro<'a>], offset: usize) -> &'m [Macro<'a>] {
    for (index, found) in macros.iter().enumerate() {
        if found.line != 0 && offset <= found.at {
            return front_of(macros, index);
        }
    }
    macros
}

/// The macros before the one with this number.
pub fn front_of<'m, 'a>(macros: &'m [Macro<'a>], index: usize) -> &'m [Macro<'a>] {
    macros.get(..index).unwrap_or(macros)
}

/// Where a token is in one of the values that lead to it: the place of the lexeme that brings it, and whether it is the first and
/// the last token of that.
#[derive(Clone, Copy)]
pub struct Level {
    pub place: Place,
    pub begins: bool,
    pub ends: bool,
}

/// A token of a value, by its lexeme. If that uses another macro, the number of this and that of the token in it follow.
#[derive(Clone, Copy)]
struct Held {
    level: Level,
    inner: Option<(usize, usize)>,
}

/// The levels of a token of the value of a macro, by their numbers from 0: from that value to the one that has the token itself.
pub(crate) fn levels_within(
    alloc: Global,
    macros: &[Macro<'_>],
    index: usize,
    number: usize,
) -> Result<Vec<Level>, AllocError> {
    let mut levels = Vec::new(alloc);
    let mut looked_for = (index, number);
    for _ in 0..macros.len() {
        let Some(held) = held_in(alloc, macros, looked_for.0, looked_for.1)? else {
            break;
        };
        levels.push(held.level)?;
        let Some(inner) = held.inner else {
            break;
        };
        looked_for = inner;
    }
    Ok(levels)
}

/// What the token with this number is in the value of the macro with this number.
fn held_in(
    alloc: Global,
    macros: &[Macro<'_>],
    index: usize,
    number: usize,
) -> Result<Option<Held>, AllocError> {
    let Some(home) = macros.get(index) else {
        return Ok(None);
    };
    let text = home.text(alloc)?;
    let lexemes = lexemes_of(alloc, text.as_str())?;
    Ok(held_by(front_of(macros, index), home, lexemes.as_slice(), number))
}

/// What the token with this number is among the lexemes of a value.
fn held_by(
    macros: &[Macro<'_>],
    home: &Macro<'_>,
    lexemes: &[Lexeme<'_>],
    number: usize,
) -> Option<Held> {
    let mut left = number;
    for found in lexemes {
        let count = tokens_at(macros, found);
        if left < count {
            return Some(Held {
                level: Level {
                    place: home.place(part_of(found.span)),
                    begins: left == 0,
                    ends: left.saturating_add(1) == count,
                },
                inner: inner_at(macros, found, left),
            });
        }
        left -= count;
    }
    None
}

/// The number of the macro that a lexeme uses, with that of a token in it.
fn inner_at(macros: &[Macro<'_>], found: &Lexeme<'_>, number: usize) -> Option<(usize, usize)> {
    match found.piece {
        Piece::Use(name) => Some((known(macros, name)?, number)),
        _ => None,
    }
}
