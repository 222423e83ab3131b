//! The lexemes of a text, and the definitions of macros among them.

ghost use Rattle.std.specs.Prelude.{◌≡◌, ◌≤◌, length, map, IfOk, IfSome};
ghost use Rattle.ifs_lex.specs.Lexemes.{lexemes_of};
ghost use Rattle.ifs_lex.specs.inner.Pieces.{spanned_of};
ghost use Rattle.ifs_expected_tokens.specs.Places.{IsDefined};

use ifs_lex::{Cursor, Lexeme, Piece, is_reserved};
use std::alloc::{AllocError, Global};

/// The most bytes of a text.
pub const MOST_BYTES: usize = 1_048_576;

/// The lexemes of a text in order, up to its end or the first place where nothing fits. A text that is longer than `MOST_BYTES`
/// has none. The only error is a failed allocation.
pub fn lexemes_of(alloc: Global, text: &str) -> Result<Vec<Lexeme<'_>>, AllocError>
    ensures { length text.now ≤ 1048576 → IfOk result (λ found. map spanned_of found.items ≡ lexemes_of text.now) }
{
    let mut lexemes = Vec::new(alloc);
    if text.len() > MOST_BYTES {
        return Ok(lexemes);
    }
    let mut cursor = Cursor::start(text);
    let mut left = text.len() + 1;
    'lexemes: while left > 0 {
        left -= 1;
        let found = cursor.next();
        lexemes.push(found)?;
        if found.piece.is_last() {
            return Ok(lexemes);
        }
    }
    Ok(lexemes)
}

/// What a macro is defined as: the word, or the text between quotes and the quote.
#[derive(Clone, Copy)]
pub enum Spelled<'a> {
    Word(&'a str),
    Quoted(u8, &'a str),
}

/// The value of a definition that begins with a lexeme, if one does, with its place.
pub fn value_of<'a, 'b>(
    name: &Lexeme<'a>,
    rest: &'b [Lexeme<'a>],
) -> Option<(Spelled<'a>, &'b Lexeme<'a>)>
    ensures { IfSome result (λ found. IsDefined (spanned_of name.now) (map spanned_of rest.now) (spanned_of found.1.now)) }
{
    let (equals, rest) = rest.split_first()?;
    if !equals.piece.is_equals() {
        return None;
    }
    name.piece.name()?;
    let (value, _) = rest.split_first()?;
    match value.piece {
        Piece::Word(word) if !is_reserved(word) => Some((Spelled::Word(word), value)),
        Piece::Quoted(quote, inside) => Some((Spelled::Quoted(quote, inside), value)),
        _ => None,
    }
}

/// The lexemes behind the one with this number.
pub fn behind<'b, 'a>(lexemes: &'b [Lexeme<'a>], index: usize) -> &'b [Lexeme<'a>] {
    lexemes.get(index.saturating_add(1)..).unwrap_or(lexemes)
}
