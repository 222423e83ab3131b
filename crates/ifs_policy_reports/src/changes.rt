//! Changes of a text, which are tried before a hint names them.

ghost use Rattle.std.specs.Prelude.{◌≡◌, IfOk, IfSome, IsTrue, string_bytes};
ghost use Rattle.ifs_lex.specs.Expansion.{defined_by};
ghost use Rattle.ifs_policy_reports.specs.Mending.{Follows, changed};

use ifs_expected_tokens::tokens_or_none;
use ifs_parse::{ParseFault, parse};
use ifs_report::Part;
use std::alloc::{AllocError, Global};

/// A change of a text: what is written in the place of a part.
pub(crate) struct Change {
    pub part: Part,
    pub word: String,
}

impl Drop for Change {
    fn drop(self) {
        let Change {
            part: _part,
            word: _word,
        } = self;
    }
}

/// The change of a text, if the text follows the grammar with it.
pub(crate) fn mending<'a>(
    alloc: Global,
    text: &'a str,
    definitions: &'a [(&'a str, &'a str)],
    change: Change,
) -> Result<Option<Change>, AllocError>
    // The change that is returned is the one that was asked for, and mends the text.
    ensures same { IfOk result (λ found. IfSome found (λ it. it ≡ change)) }
    ensures mends { IfOk result (λ found. IfSome found (λ it. Follows (changed text.now it.part (string_bytes it.word)) (defined_by definitions.now))) }
{
    let mends = mends(alloc, text, definitions, change.part, change.word.as_str())?;
    Ok(if mends { Some(change) } else { None })
}

/// Whether a text follows the grammar with a word in the place of a part.
pub(crate) fn mends(
    alloc: Global,
    text: &str,
    definitions: &[(&str, &str)],
    part: Part,
    word: &str,
) -> Result<bool, AllocError>
    ensures { IfOk result (λ yes. IsTrue yes → Follows (changed text.now part word.now) (defined_by definitions.now)) }
{
    match text_with(alloc, text, part, word)? {
        Some(made) => follows(alloc, made.as_str(), definitions),
        None => Ok(false),
    }
}

/// The text with a word in the place of a part, if the part lies within the text, between characters.
fn text_with(
    alloc: Global,
    text: &str,
    part: Part,
    word: &str,
) -> Result<Option<String>, AllocError>
    ensures { IfOk result (λ found. IfSome found (λ made. string_bytes made ≡ changed text.now part word.now)) }
{
    let Some((front, _)) = text.split_at_checked(part.start) else {
        return Ok(None);
    };
    let Some((_, rest)) = text.split_at_checked(part.end) else {
        return Ok(None);
    };
    let mut made = String::from_str(alloc, front)?;
    made.push_str(word)?;
    made.push_str(rest)?;
    Ok(Some(made))
}

/// Whether a text follows the grammar.
fn follows(alloc: Global, text: &str, definitions: &[(&str, &str)]) -> Result<bool, AllocError>
    ensures { IfOk result (λ yes. IsTrue yes → Follows text.now (defined_by definitions.now)) }
{
    let Some(tokens) = tokens_or_none(alloc, text, definitions)? else {
        return Ok(false);
    };
    match parse(alloc, tokens.as_slice()) {
        Ok(_tree) => Ok(true),
        Err(ParseFault::Memory) => Err(AllocError),
        Err(_fault) => Ok(false),
    }
}
