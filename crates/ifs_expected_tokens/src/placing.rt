//! Places that reports name: each is looked at once more before it is named.

ghost use Rattle.std.specs.Prelude.{◌≡◌, ℕ, List, Option, Some, IsTrue, IfOk, map, slice_get};
ghost use Rattle.std.specs.Borrow.{Bor};
ghost use Rattle.ifs_report.specs.Positions.{line_of};
ghost use Rattle.ifs_lex.specs.Lexemes.{lexemes_of};
ghost use Rattle.ifs_lex.specs.inner.Pieces.{spanned_of};
ghost use Rattle.ifs_expected_tokens.specs.Places.{Holds, IsInValue, IsOn, IsPlaced, LiesIn};

use crate::lexemes::{MOST_BYTES, lexemes_of, value_of};
use ifs_lex::Lexeme;
use ifs_report::{Part, Place, position};
use std::alloc::{AllocError, Global};

/// The place, if it lies in the text or in the value of a definition, and in the text on the line of a fault or in the value of
/// a macro. Otherwise the whole file. The only error is a failed allocation.
pub fn placed(
    alloc: Global,
    text: &str,
    definitions: &[(&str, &str)],
    line: Option<u32>,
    place: Place,
) -> Result<Place, AllocError>
    ensures placed { IfOk result (λ found. IsPlaced text.now definitions.now line found) }
    // A part of the text on the line of the fault is kept.
    ensures kept { (part : Part) (on : ℕ) → place ≡ Place.Text part → LiesIn text.now part → line ≡ Some on → line_of text.now part.start ≡ on → IfOk result (λ found. found ≡ place) }
    // So is a part of the value of a definition.
    ensures given { (number : ℕ) (part : Part) (one : Bor (List ℕ) × Bor (List ℕ)) → place ≡ Place.Definition number part → slice_get definitions.now number ≡ Some one → LiesIn one.1.now part → IfOk result (λ found. found ≡ place) }
{
    match place {
        Place::File => Ok(Place::File),
        Place::Text(part) => {
            if lies_in(text, part) && is_on(alloc, text, line, part)? {
                return Ok(Place::Text(part));
            }
            Ok(Place::File)
        }
        Place::Definition(number, part) => Ok(given(definitions, number, part)),
    }
}

/// A part of the value of a definition, if there is such a definition and part. Otherwise the whole file.
fn given(definitions: &[(&str, &str)], number: usize, part: Part) -> Place
    ensures placed { (text : List ℕ) (line : Option ℕ) → IsPlaced text definitions.now line result }
    ensures kept { (one : Bor (List ℕ) × Bor (List ℕ)) → slice_get definitions.now number ≡ Some one → LiesIn one.1.now part → result ≡ Place.Definition number part }
{
    match definitions.get(number) {
        Some((_name, value)) if lies_in(value, part) => Place::Definition(number, part),
        _ => Place::File,
    }
}

/// Whether a part lies in a text, between characters.
fn lies_in(text: &str, part: Part) -> bool
    ensures lies { IsTrue result → LiesIn text.now part }
    ensures all { LiesIn text.now part → IsTrue result }
{
    part.start <= part.end && text.is_char_boundary(part.start) && text.is_char_boundary(part.end)
}

/// Whether a part is on a line, if there is one, or in the value of a macro.
fn is_on(alloc: Global, text: &str, line: Option<u32>, part: Part) -> Result<bool, AllocError>
    ensures on { IfOk result (λ yes. IsTrue yes → IsOn text.now line part) }
    ensures same { (on : ℕ) → line ≡ Some on → line_of text.now part.start ≡ on → IfOk result (λ yes. IsTrue yes) }
{
    match line {
        None => Ok(true),
        Some(line) => {
            if position(text.as_bytes(), part.start).line == line as usize {
                return Ok(true);
            }
            if text.len() > MOST_BYTES {
                return Ok(false);
            }
            let lexemes = lexemes_of(alloc, text)?;
            Ok(is_in_value(lexemes.as_slice(), part))
        }
    }
}

/// Whether a part lies within the value of a macro, where that is defined.
fn is_in_value(lexemes: &[Lexeme<'_>], part: Part) -> bool
    ensures { IsTrue result → IsInValue (map spanned_of lexemes.now) part }
{
    let mut left = lexemes;
    'lexemes: while let [name, rest @ ..] = left {
        if holds(name, rest, part) {
            return true;
        }
        left = rest;
    }
    false
}

/// Whether a definition begins with a lexeme, and a part lies within its value.
fn holds(name: &Lexeme<'_>, rest: &[Lexeme<'_>], part: Part) -> bool
    ensures { IsTrue result → Holds (spanned_of name.now) (map spanned_of rest.now) part }
{
    match value_of(name, rest) {
        Some((_spelled, value)) => {
            value.span.start as usize <= part.start && part.end <= value.span.end as usize
        }
        None => false,
    }
}
