//! Repairs of one sign or word: what each makes of a text.

use crate::changes::{Change, mends};
use crate::definitions::macro_with;
use crate::grammar::Seen;
use crate::links::length_of_back;
use crate::scans::{ByteKind, is_all};
use ifs_expected_tokens::Kind;
use ifs_lex::{Token, What};
use ifs_policy_text::TokenizedPolicy;
use ifs_policy_text::lines::{line_before, part_of, slice_of};
use ifs_policy_text::macros::Macro;
use ifs_report::{Part, Place};
use std::alloc::{AllocError, Global};

/// A repair of one token, by its number.
#[derive(Clone, Copy)]
pub(crate) enum Repair {
    /// The token is left out.
    Without(usize),
    /// A token of a kind is written before it.
    Before(usize, Kind),
    /// It and the next token are swapped.
    Swapped(usize),
}

/// The signs and words of the grammar, and their kinds.
const SPELLINGS: [(Kind, &str); 17] = [
    (Kind::State, "state"),
    (Kind::InitState, "init-state"),
    (Kind::Init, "init"),
    (Kind::If, "if"),
    (Kind::Run, "run"),
    (Kind::SetState, "set-state"),
    (Kind::Every, "every"),
    (Kind::Link, "link"),
    (Kind::BraceOpen, "{"),
    (Kind::BraceClose, "}"),
    (Kind::ParenOpen, "("),
    (Kind::ParenClose, ")"),
    (Kind::Dot, "."),
    (Kind::And, "&&"),
    (Kind::Or, "||"),
    (Kind::Bang, "!"),
    (Kind::Up, "up"),
];

/// A kind as it is written. It is empty if there is more than one way.
pub(crate) fn spelling(kind: Kind) -> &'static str {
    for (known, word) in &SPELLINGS {
        if *known == kind {
            return word;
        }
    }
    ""
}

/// The sign or the word that a token is. It is empty for others.
pub(crate) fn sign_of(what: &What) -> &str {
    match what {
        What::BraceOpen => "{",
        What::BraceClose => "}",
        What::ParenOpen => "(",
        What::ParenClose => ")",
        What::Dot => ".",
        What::Equals => "=",
        What::Bang => "!",
        What::And => "&&",
        What::Or => "||",
        What::Word(word) => word.as_str(),
        What::Quoted(_) | What::End => "",
    }
}

/// Whether a text follows the grammar after a repair.
pub(crate) fn repairs(
    alloc: Global,
    seen: Seen<'_, '_>,
    repair: Repair,
) -> Result<bool, AllocError> {
    match change_of(alloc, seen.policy, repair)? {
        Some(change) => mends(
            alloc,
            seen.policy.text,
            seen.definitions,
            change.part,
            change.word.as_str(),
        ),
        None => Ok(false),
    }
}

/// The change of the text that a repair is, if the place is in the text.
pub(crate) fn change_of(
    alloc: Global,
    policy: &TokenizedPolicy<'_>,
    repair: Repair,
) -> Result<Option<Change>, AllocError> {
    match repair {
        Repair::Without(index) => without(alloc, policy.origin(alloc, index)?),
        Repair::Before(index, kind) => before(alloc, policy.spot(alloc, index)?.place, kind),
        Repair::Swapped(index) => swapped(alloc, policy, index),
    }
}

/// The change that leaves out what is at a place.
fn without(alloc: Global, place: Place) -> Result<Option<Change>, AllocError> {
    let Place::Text(part) = place else {
        return Ok(None);
    };
    Ok(Some(Change {
        part,
        word: String::new(alloc),
    }))
}

/// The change that writes a token of a kind before a place.
fn before(alloc: Global, place: Place, kind: Kind) -> Result<Option<Change>, AllocError> {
    let Place::Text(part) = place else {
        return Ok(None);
    };
    let word = spelling(kind);
    Ok(Some(Change {
        part: Part {
            start: part.start,
            end: part.start,
        },
        word: format!(in alloc; " {word} ")?,
    }))
}

/// The change that swaps a token and the next one.
fn swapped(
    alloc: Global,
    policy: &TokenizedPolicy<'_>,
    index: usize,
) -> Result<Option<Change>, AllocError> {
    let Some((first, second)) = parts_at(alloc, policy, index)? else {
        return Ok(None);
    };
    let (Some(before), Some(behind)) = (slice_of(policy.text, first), slice_of(policy.text, second))
    else {
        return Ok(None);
    };
    Ok(Some(Change {
        part: Part {
            start: first.start,
            end: second.end,
        },
        word: format!(in alloc; "{behind} {before}")?,
    }))
}

/// The parts of a token and the next one, if they are beside each other in the text or in the value of a macro. A use of a macro is
/// one part.
pub(crate) fn parts_at(
    alloc: Global,
    policy: &TokenizedPolicy<'_>,
    index: usize,
) -> Result<Option<(Part, Part)>, AllocError> {
    let place = policy.spot(alloc, index.saturating_add(1))?.place;
    let Place::Text(second) = place else {
        return Ok(None);
    };
    let first = match macro_with(policy, place) {
        Some(found) => part_within(policy.text, found, second.start),
        None => lexeme_before(policy, second.start),
    };
    match first {
        Some(first) => Ok(Some((first, second))),
        None => Ok(None),
    }
}

/// The part of the last lexeme of the text before an offset.
fn lexeme_before(policy: &TokenizedPolicy<'_>, offset: usize) -> Option<Part> {
    let mut last = None;
    for found in policy.lexemes.as_slice() {
        let part = part_of(found.span);
        if part.start >= offset {
            break;
        }
        last = Some(part);
    }
    last
}

/// The part of what is before an offset in the value of a macro: a sign, a word or the use of a macro.
fn part_within(text: &str, found: &Macro<'_>, offset: usize) -> Option<Part> {
    let Place::Text(whole) = found.whole() else {
        return None;
    };
    let front = text.get(whole.start..offset)?.trim_end();
    let end = whole.start.saturating_add(front.len());
    let length = length_of_last(front);
    if length == 0 {
        return None;
    }
    Some(Part {
        start: end.saturating_sub(length),
        end,
    })
}

/// How many bytes the sign, the word or the use has with which a text ends.
fn length_of_last(front: &str) -> usize {
    if front.ends_with("&&") || front.ends_with("||") {
        return 2;
    }
    match front.as_bytes().last() {
        Some(byte) if is_sign(*byte) => 1,
        _ => length_of_back(front),
    }
}

/// Whether a byte is a sign of its own.
fn is_sign(byte: u8) -> bool {
    matches!(byte, b'{' | b'}' | b'(' | b')' | b'.' | b'!' | b'=')
}

/// The number behind the last token that is the same sign as the one with this number, without others between them. Leaving out
/// one of them is the same as leaving out another.
pub(crate) fn end_of_row(policy: &TokenizedPolicy<'_>, index: usize) -> usize {
    let Some(first) = policy.tokens.get(index) else {
        return index;
    };
    let mut end = index;
    for token in policy.tokens.get(index..).unwrap_or(&[]) {
        if !is_same(first, token) {
            break;
        }
        end = end.saturating_add(1);
    }
    end
}

/// Whether two tokens are the same sign or word.
fn is_same(first: &Token, second: &Token) -> bool {
    let sign = sign_of(&first.what);
    !sign.is_empty() && sign == sign_of(&second.what)
}

/// Whether a part of the text begins its line.
pub(crate) fn begins_line(text: &str, part: Part) -> bool {
    match line_before(text, part.start) {
        Some(blanks) => is_all(blanks, ByteKind::Blank),
        None => false,
    }
}
