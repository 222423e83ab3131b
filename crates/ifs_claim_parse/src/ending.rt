//! What can follow the tokens of a front of a line.

use crate::fault::{LineFault, Why, Wrong};
use crate::forms::read_claim;
use crate::keyword::{Keyword, Wanted, keyword_of, words_of};
use crate::next::Line;
use crate::premises::next_values;
use crate::seen::Seen;
use crate::stopping::{Stop, first_unknown, stop_in};
use crate::wording::put_words;
use ifs_lex::Token;
use std::alloc::AllocError;

/// Adds what can follow the tokens of a front of a line. Returns what is wrong with one of them, if anything is.
pub(crate) fn put_ending(
    seen: &Seen<'_>,
    expected: &mut Vec<&'static str>,
) -> Result<Option<Wrong>, AllocError> {
    let wrong = wrong_in(seen)?;
    match wrong.why {
        Why::NoCondition => put_condition(seen, wrong.index, expected),
        Why::NoTest => put_condition(seen, wrong.index.saturating_add(1), expected),
        Why::Wanted(wanted) if wrong.index >= seen.tokens.len() => {
            put_words(expected, &words_of(wanted))?;
            Ok(None)
        }
        _ => Ok(Some(wrong)),
    }
}

/// Where the tokens of a front of a line stop being a claim, or how a claim could go on.
fn wrong_in(seen: &Seen<'_>) -> Result<Wrong, AllocError> {
    let line = Line {
        alloc: seen.context.alloc,
        tables: seen.context.tables,
        count: seen.tokens.len(),
    };
    match read_claim(line, seen.tokens.as_slice()) {
        Ok(_claim) => Ok(behind_claim(seen)),
        Err(LineFault::Memory) => Err(AllocError),
        Err(LineFault::Wrong(wrong)) => Ok(wrong),
    }
}

/// How a claim could go on: by its condition, or behind its last token.
fn behind_claim(seen: &Seen<'_>) -> Wrong {
    let index = behind_while(seen.tokens.as_slice());
    let why = if index < seen.tokens.len() {
        Why::NoCondition
    } else {
        Why::Wanted(behind_names(seen))
    };
    Wrong { index, why }
}

/// What can come behind a claim without a condition. One that ends with states may have more of them, and `never enter` a condition.
fn behind_names(seen: &Seen<'_>) -> Wanted {
    match (seen.word(0), seen.word(1)) {
        ("never", "enter") => Wanted::StateWhileOrEnd,
        ("never", _) | ("may", _) => Wanted::StateOrEnd,
        _ => Wanted::End,
    }
}

/// The number of the token with which the condition behind `while` begins.
fn behind_while(tokens: &[Token]) -> usize {
    for (index, token) in tokens.iter().enumerate() {
        if let Some(Keyword::While) = keyword_of(&token.what) {
            let behind = tokens.get(index.saturating_add(1)..).unwrap_or(&[]);
            let (_values, condition) = next_values(behind);
            return tokens.len().saturating_sub(condition.len());
        }
    }
    tokens.len()
}

/// The same, where the condition that begins at a token goes on or stops.
fn put_condition(
    seen: &Seen<'_>,
    first: usize,
    expected: &mut Vec<&'static str>,
) -> Result<Option<Wrong>, AllocError> {
    let stop = stop_in(seen, first)?;
    put_stop(seen, first, &stop, expected)
}

/// The same by where the condition stops.
fn put_stop(
    seen: &Seen<'_>,
    first: usize,
    stop: &Stop,
    expected: &mut Vec<&'static str>,
) -> Result<Option<Wrong>, AllocError> {
    if let Some(wrong) = first_unknown(seen, first, stop.index) {
        return Ok(Some(wrong));
    }
    if stop.index < seen.tokens.len() {
        return Ok(Some(Wrong {
            index: first,
            why: Why::NoCondition,
        }));
    }
    stop.put_expected(expected)?;
    Ok(None)
}
