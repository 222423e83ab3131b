//! Quoted texts that go on to other lines because a quote is missing.

use crate::grammar::Seen;
use ifs_lex::{Lexeme, Piece};
use ifs_policy_text::lines::{newlines_in, part_of};
use ifs_report::{Draft, Part, Place};

/// A quoted text of several lines: its quote, its place, its first line and its last.
#[derive(Clone, Copy)]
pub(crate) struct Long {
    pub quote: char,
    pub part: Part,
    pub first: u32,
    pub last: u32,
}

/// The first quoted text of several lines before an offset that ends where another text was to begin: a word is right behind it.
pub(crate) fn long_quoted(text: &str, lexemes: &[Lexeme<'_>], before: usize) -> Option<Long> {
    for found in lexemes {
        let part = part_of(found.span);
        if part.start >= before {
            break;
        }
        let long = long_at(found);
        if long.is_some() && is_before_word(text, part.end) {
            return long;
        }
    }
    None
}

/// Whether a word, or another quoted text, begins at an offset.
fn is_before_word(text: &str, offset: usize) -> bool {
    match text.as_bytes().get(offset) {
        Some(byte) => byte.is_ascii_alphanumeric()
            || matches!(*byte, b'/' | b'_' | b'-' | b'$' | b'"' | b'\''),
        None => false,
    }
}

/// The lines of a quoted text, if it has several.
fn long_at(found: &Lexeme<'_>) -> Option<Long> {
    let Piece::Quoted(quote, inside) = found.piece else {
        return None;
    };
    let first = found.span.line;
    match newlines_in(inside.as_bytes()) {
        0 => None,
        more => Some(Long {
            quote: char::from(quote),
            part: part_of(found.span),
            first,
            last: first.saturating_add(more),
        }),
    }
}

/// Says of a quoted text that it closes late.
pub(crate) fn put_long(long: Long, draft: &mut Draft) {
    let Long {
        quote,
        part,
        first,
        last,
    } = long;
    draft.label(
        Place::Text(Part {
            start: part.start,
            end: part.start.saturating_add(1),
        }),
        "this quote goes on",
    );
    let added = write!(
        draft.report.hint,
        "the `{quote}` on line {first} goes on to line {last}: is one missing on line {first}?"
    );
    draft.keep(added);
}

/// Says of a quoted text right before the place that it goes on to the line of the place.
pub(crate) fn put_long_before(seen: Seen<'_, '_>, draft: &mut Draft) {
    let Some(token) = seen.policy.tokens.get(seen.index) else {
        return;
    };
    let start = part_of(token.span).start;
    if let Some(long) = long_quoted(seen.policy.text, seen.policy.lexemes.as_slice(), start) {
        put_long(long, draft);
    }
}
