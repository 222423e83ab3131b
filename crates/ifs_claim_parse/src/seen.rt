//! A line that a report is about.

use crate::context::Context;
use crate::fault::LineFault;
use crate::keyword::{Keyword, keyword_of};
use crate::reading::{line_tokens, within};
use ifs_lex::{Token, What};
use ifs_report::{Part, Place};
use std::alloc::AllocError;

/// A line or a front of one, with its offset in the file and its tokens. It has none if they have a fault.
#[derive(Drop)]
pub(crate) struct Seen<'a> {
    pub context: Context<'a>,
    pub line: &'a str,
    pub at: usize,
    pub tokens: Vec<Token>,
}

/// The tokens of a line, unless they have a fault.
pub(crate) fn tokens_in(
    context: Context<'_>,
    line: &str,
) -> Result<Option<Vec<Token>>, AllocError> {
    match line_tokens(context, line) {
        Ok(tokens) => Ok(Some(tokens)),
        Err(LineFault::Memory) => Err(AllocError),
        Err(LineFault::Wrong(_)) => Ok(None),
    }
}

/// The place in the file of a part of a line that is at an offset.
pub(crate) fn place_at(at: usize, part: Part) -> Place {
    Place::Text(Part {
        start: at.saturating_add(part.start),
        end: at.saturating_add(part.end),
    })
}

impl<'a> Seen<'a> {
    /// Reads the tokens of a line at an offset of the file.
    pub fn read(context: Context<'a>, line: &'a str, at: usize) -> Result<Seen<'a>, AllocError> {
        let tokens = match tokens_in(context, line)? {
            Some(tokens) => tokens,
            None => Vec::new(context.alloc),
        };
        Ok(Seen {
            context,
            line,
            at,
            tokens,
        })
    }

    /// The token with this number.
    pub fn what(&self, index: usize) -> Option<&What> {
        match self.tokens.get(index) {
            Some(token) => Some(&token.what),
            None => None,
        }
    }

    /// The part of the line that is the token with this number, or the end behind the last one.
    fn part(&self, index: usize) -> Part {
        let (start, end) = match (self.tokens.get(index), self.tokens.last()) {
            (Some(token), _) => (token.span.start, token.span.end),
            (None, Some(last)) => (last.span.end, last.span.end),
            (None, None) => (0, 0),
        };
        let macros = self.context.macros.len();
        Part {
            start: within(start, macros, self.line.len()),
            end: within(end, macros, self.line.len()),
        }
    }

    /// The place in the file of the token with this number.
    pub fn place(&self, index: usize) -> Place {
        place_at(self.at, self.part(index))
    }

    /// What the line has at the token with this number: of a token of a macro, the use of the macro.
    pub fn written(&self, index: usize) -> &'a str {
        let part = self.part(index);
        self.line.get(part.start..part.end).unwrap_or("")
    }

    /// The text of the token with this number, if it is a word or a quoted text.
    pub fn text(&self, index: usize) -> &str {
        match self.what(index) {
            Some(What::Word(text) | What::Quoted(text)) => text.as_str(),
            _ => "",
        }
    }

    /// Whether the token with this number is a dot.
    pub fn is_dot(&self, index: usize) -> bool {
        matches!(self.what(index), Some(What::Dot))
    }

    /// The word of the language of claims that the token with this number is.
    pub fn keyword(&self, index: usize) -> Option<Keyword> {
        keyword_of(self.what(index)?)
    }

    /// Whether the token with this number is a word that asks for the values of tests.
    pub fn asks_for_values(&self, index: usize) -> bool {
        matches!(self.keyword(index), Some(Keyword::Known | Keyword::Unknown))
    }

    /// The word that the token with this number is. It is empty if the token is none.
    pub fn word(&self, index: usize) -> &str {
        match self.what(index) {
            Some(What::Word(word)) => word.as_str(),
            _ => "",
        }
    }
}
