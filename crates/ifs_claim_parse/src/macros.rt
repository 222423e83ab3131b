//! The definitions of macros in a policy.

ghost use Rattle.std.specs.Prelude.{◌≡◌, ◌++◌, ◌∷◌, [], IfOk, IfSome, IsTrue, drop, is_some, map, string_bytes, take};
ghost use Rattle.ifs_lex.specs.Expansion.{macro_name_of, macro_text_of};
ghost use Rattle.ifs_lex.specs.inner.Pieces.{lexeme_of, spanned_of};
ghost use Rattle.ifs_claim_parse.specs.Macros.{definition_end, definitions_from, is_definition, macros_of};

use ifs_expected_tokens::{MOST_BYTES, lexemes_of};
use ifs_lex::{Lexeme, Piece, is_reserved};
use std::alloc::{AllocError, Global};

/// Whether a piece can be the value of a macro: a word that is not reserved, or a quoted text.
#[tactic(auto, using(crate::proofs::Signs::sign_is_no_value))]
fn is_value(piece: &Piece<'_>) -> bool
    ensures { result ≡ is_some (macro_text_of (lexeme_of piece.now)) }
{
    match *piece {
        Piece::Word(word) => !is_reserved(word),
        Piece::Quoted(_, _) => true,
        _ => false,
    }
}

/// Whether a piece can be the name of a macro.
fn is_name(piece: &Piece<'_>) -> bool
    ensures { result ≡ is_some (macro_name_of (lexeme_of piece.now)) }
{
    piece.name().is_some()
}

/// Whether three lexemes define a macro.
pub fn is_definition(name: &Lexeme<'_>, equals: &Lexeme<'_>, value: &Lexeme<'_>) -> bool
    ensures { result ≡ is_definition (spanned_of name.now) (spanned_of equals.now) (spanned_of value.now) }
{
    is_name(&name.piece) && equals.piece.is_equals() && is_value(&value.piece)
}

/// The offset behind the definition that begins with a lexeme, if one does.
fn definition_end(name: &Lexeme<'_>, rest: &[Lexeme<'_>]) -> Option<u32>
    ensures { result ≡ definition_end (spanned_of name.now) (map spanned_of rest.now) }
{
    let (equals, values) = rest.split_first()?;
    let (value, _) = values.split_first()?;
    if is_definition(name, equals, value) {
        return Some(value.span.end);
    }
    None
}

/// Adds a part of a text and a newline. It is `false` if the text has no such part.
fn put_part(made: &mut String, text: &str, start: usize, end: usize) -> Result<bool, AllocError>
    ensures { IfOk result (λ yes. IsTrue yes → string_bytes made.new ≡ string_bytes made.old ++ (drop start (take end text.now) ++ (10 ∷ []))) }
{
    let Some((front, _)) = text.split_at_checked(end) else {
        return Ok(false);
    };
    let Some((_, part)) = front.split_at_checked(start) else {
        return Ok(false);
    };
    made.push_str(part)?;
    made.push_str("\n")?;
    Ok(true)
}

/// Adds the definition that begins with a lexeme, if one does and it is not left out. Returns how many of the lexemes behind it
/// are left out. It is `None` if the text has no such part.
fn put_definition(
    made: &mut String,
    text: &str,
    left_out: usize,
    first: &Lexeme<'_>,
    rest: &[Lexeme<'_>],
) -> Result<Option<usize>, AllocError>
    ensures { IfOk result (λ found. IfSome found (λ next.
        string_bytes made.new ++ definitions_from text.now next (map spanned_of rest.now)
        ≡ string_bytes made.old ++ definitions_from text.now left_out (spanned_of first.now ∷ map spanned_of rest.now))) }
{
    if left_out > 0 {
        return Ok(Some(left_out - 1));
    }
    let Some(end) = definition_end(first, rest) else {
        return Ok(Some(0));
    };
    if put_part(made, text, first.span.start as usize, end as usize)? {
        return Ok(Some(2));
    }
    Ok(None)
}

/// Adds the definitions among lexemes. It is `false` if the text has no such part.
fn put_definitions(
    made: &mut String,
    text: &str,
    lexemes: &[Lexeme<'_>],
) -> Result<bool, AllocError>
    ensures { IfOk result (λ yes. IsTrue yes → string_bytes made.new ≡ string_bytes made.old ++ definitions_from text.now 0 (map spanned_of lexemes.now)) }
{
    let mut left_out = 0usize;
    let mut left = lexemes;
    'lexemes: while let [first, rest @ ..] = left {
        match put_definition(made, text, left_out, first, rest)? {
            Some(next) => left_out = next,
            None => return Ok(false),
        }
        left = rest;
    }
    Ok(true)
}

/// The definitions of macros in a text, each with a newline behind it. It is `None` if the text has over 1,048,576 bytes. The only
/// error is a failed allocation.
pub fn macros_of(alloc: Global, text: &str) -> Result<Option<String>, AllocError>
    ensures { IfOk result (λ found. IfSome found (λ made. string_bytes made ≡ macros_of text.now)) }
{
    if text.len() > MOST_BYTES {
        return Ok(None);
    }
    let lexemes = lexemes_of(alloc, text)?;
    let mut made = String::new(alloc);
    if put_definitions(&mut made, text, lexemes.as_slice())? {
        return Ok(Some(made));
    }
    Ok(None)
}
