//! A policy as it was read: its text, its tokens, and where each of them is.

use crate::lines::{line_at, part_of, slice_of};
use crate::macros::{Level, Macro, before, counted_macros_of, known, levels_within};
use ifs_base::Span;
use ifs_expected_tokens::{lexemes_of, tokens_or_none};
use ifs_lex::{Lexeme, Token, What};
use ifs_report::{Part, Place};
use std::alloc::{AllocError, Global};

/// A policy with its lexemes, macros and tokens. It has no tokens if the text has none.
pub struct TokenizedPolicy<'a> {
    pub text: &'a str,
    pub lexemes: Vec<Lexeme<'a>>,
    pub macros: Vec<Macro<'a>>,
    pub tokens: Vec<Token>,
}

impl Drop for TokenizedPolicy<'_> {
    fn drop(self) {
        let TokenizedPolicy {
            text: _text,
            lexemes: _lexemes,
            macros: _macros,
            tokens: _tokens,
        } = self;
    }
}

/// Where a token is, and another place: the use of the macro that brought it there, or its place in the value if it is
/// the first token of that.
#[derive(Clone, Copy)]
pub struct Spot {
    pub place: Place,
    pub other: Option<Other>,
}

/// The other place of a token of a macro.
#[derive(Clone, Copy)]
pub enum Other {
    /// The use of the macro.
    Use(Place),
    /// The value.
    Value(Place),
}

impl Spot {
    /// The same, with the place of the use of the macro first.
    pub fn at_use(self) -> Spot {
        match self.other {
            Some(Other::Use(used)) => Spot {
                place: used,
                other: Some(Other::Value(self.place)),
            },
            _ => self,
        }
    }
}

impl<'a> TokenizedPolicy<'a> {
    /// Reads a text.
    pub fn read(
        alloc: Global,
        text: &'a str,
        definitions: &'a [(&'a str, &'a str)],
    ) -> Result<TokenizedPolicy<'a>, AllocError> {
        let tokens = tokens_of(alloc, text, definitions)?;
        let lexemes = lexemes_of(alloc, text)?;
        let macros = counted_macros_of(alloc, lexemes.as_slice(), definitions)?;
        Ok(TokenizedPolicy {
            text,
            lexemes,
            macros,
            tokens,
        })
    }

    /// The token with this number.
    pub fn what(&self, index: usize) -> Option<&What> {
        match self.tokens.get(index) {
            Some(token) => Some(&token.what),
            None => None,
        }
    }

    /// The token with this number, if there is one.
    pub fn what_at(&self, index: Option<usize>) -> Option<&What> {
        match index {
            Some(index) => self.what(index),
            None => None,
        }
    }

    /// The token before the one with this number.
    pub fn what_before(&self, index: usize) -> Option<&What> {
        match index.checked_sub(1) {
            Some(before) => self.what(before),
            None => None,
        }
    }

    /// The place of the token with this number.
    pub fn spot(&self, alloc: Global, index: usize) -> Result<Spot, AllocError> {
        let Some(token) = self.tokens.get(index) else {
            return Ok(spot_of(self.end(), None, 0));
        };
        let own = part_of(token.span);
        let levels = self.levels(alloc, index)?;
        let place = levels.last().map(|level| level.place);
        Ok(spot_of(own, place, self.number_in_use(index, token.span)))
    }

    /// Where the token with this number is in each value that leads to it, from that of the macro that the text uses on. There is
    /// none if the text itself has it.
    pub fn levels(&self, alloc: Global, index: usize) -> Result<Vec<Level>, AllocError> {
        let Some(token) = self.tokens.get(index) else {
            return Ok(Vec::new(alloc));
        };
        let own = part_of(token.span);
        let macros = before(self.macros.as_slice(), own.start);
        let used = self.used_at(own);
        match used.and_then(|name| known(macros, name)) {
            Some(found) => {
                let number = self.number_in_use(index, token.span);
                levels_within(alloc, macros, found, number)
            }
            None => Ok(Vec::new(alloc)),
        }
    }

    /// Whether the token with this number is the last one of a use of a macro, or none of a use.
    pub fn ends_use(&self, index: usize) -> bool {
        match (
            self.tokens.get(index),
            self.tokens.get(index.saturating_add(1)),
        ) {
            (Some(token), Some(next)) => token.span != next.span,
            _ => true,
        }
    }

    /// The line of the token with this number, from 1, or that of the value of the macro that has it.
    pub fn line(&self, alloc: Global, index: usize) -> Result<u32, AllocError> {
        match self.origin(alloc, index)? {
            Place::Text(part) => Ok(line_at(self.text, part.start)),
            _ => Ok(0),
        }
    }

    /// The end of the text.
    fn end(&self) -> Part {
        let length = self.text.len();
        Part {
            start: length,
            end: length,
        }
    }

    /// The place of the token with this number itself, in the text or in a value.
    pub fn origin(&self, alloc: Global, index: usize) -> Result<Place, AllocError> {
        let Spot { place, other } = self.spot(alloc, index)?;
        match other {
            Some(Other::Value(value)) => Ok(value),
            _ => Ok(place),
        }
    }

    /// The name of the macro that is used at a part of the text.
    fn used_at(&self, part: Part) -> Option<&'a str> {
        slice_of(self.text, part)?.strip_prefix('$')
    }

    /// How many tokens before this one came from the same use of a macro.
    fn number_in_use(&self, index: usize, span: Span) -> usize {
        let mut number = 0usize;
        for token in self.tokens.get(..index).unwrap_or(&[]).iter().rev() {
            if token.span != span {
                break;
            }
            number = number.saturating_add(1);
        }
        number
    }

    /// What is at a place.
    pub fn word(&self, place: Place, definitions: &[(&'a str, &'a str)]) -> &'a str {
        word_at(self.text, place, definitions).unwrap_or("")
    }
}

/// What is at a place of a text, or of the value of a definition.
fn word_at<'a>(text: &'a str, place: Place, definitions: &[(&'a str, &'a str)]) -> Option<&'a str> {
    match place {
        Place::Text(part) => slice_of(text, part),
        Place::Definition(number, part) => {
            let (_name, value) = definitions.get(number)?;
            slice_of(value, part)
        }
        Place::File => None,
    }
}

/// The tokens of a text. There is none if the text has a fault.
fn tokens_of<'a>(
    alloc: Global,
    text: &'a str,
    definitions: &'a [(&'a str, &'a str)],
) -> Result<Vec<Token>, AllocError> {
    match tokens_or_none(alloc, text, definitions)? {
        Some(tokens) => Ok(tokens),
        None => Ok(Vec::new(alloc)),
    }
}

/// The places of a token of a use of a macro, by its number in the use. A first token that is wrong makes the use wrong.
fn spot_of(used: Part, place: Option<Place>, number: usize) -> Spot {
    let used = Place::Text(used);
    match place {
        Some(place) if number == 0 => Spot {
            place: used,
            other: Some(Other::Value(place)),
        },
        Some(place) => Spot {
            place,
            other: Some(Other::Use(used)),
        },
        None => Spot {
            place: used,
            other: None,
        },
    }
}
