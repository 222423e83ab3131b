//! Where a condition stops.

use crate::conditions::tree_around;
use crate::context::Context;
use crate::copying::behind_if;
use crate::fault::{Why, Wrong};
use crate::keyword::{Keyword, Wanted, is_every, words_of};
use crate::names::interface_named;
use crate::nearest::near_values;
use crate::seen::Seen;
use crate::wording::{put_kinds, put_words};
use ifs_base::{Number, limits, parse_number};
use ifs_expected_tokens::{Kind, is_front, kinds_behind};
use ifs_lex::{Token, What, is_reserved};
use ifs_parse::ParseFault;
use ifs_policy::Tables;
use std::alloc::{AllocError, Global};

/// Where a condition stops: the number of the token in its line, and the kinds of tokens that can be there.
#[derive(Drop)]
pub(crate) struct Stop {
    pub index: usize,
    pub kinds: Vec<Kind>,
    /// Whether too much is open there.
    pub is_nesting: bool,
    /// Whether it is directly behind `while`, where a word can ask for the values of tests.
    pub takes_values: bool,
}

impl Stop {
    /// Adds what can be there, in words.
    pub fn put_expected(&self, list: &mut Vec<&'static str>) -> Result<(), AllocError> {
        put_kinds(list, self.kinds.as_slice())?;
        if self.takes_values {
            put_words(list, &words_of(Wanted::Values))?;
        }
        Ok(())
    }
}

/// Where the condition that begins at a token of a line stops.
pub(crate) fn stop_in(seen: &Seen<'_>, first: usize) -> Result<Stop, AllocError> {
    let tokens = seen.tokens.get(first..).unwrap_or(&[]);
    let front = tokens.get(..length_of(tokens)).unwrap_or(tokens);
    let (stop, is_nesting) = fault_in(seen.context.alloc, front)?;
    let is_misspelt = stop == 1 && is_nearly_asking(seen, first)?;
    let count = if is_misspelt { 0 } else { stop };
    let before = front.get(..count).unwrap_or(front);
    Ok(Stop {
        index: first.saturating_add(before.len()),
        kinds: kinds_in(seen, first, before)?,
        is_nesting,
        takes_values: before.is_empty() && is_behind_while(seen, first),
    })
}

/// Whether a token is directly behind `while`.
fn is_behind_while(seen: &Seen<'_>, index: usize) -> bool {
    matches!(seen.keyword(index.saturating_sub(1)), Some(Keyword::While))
}

/// Whether a token directly behind `while` is nearly a word that asks for the values of tests, and no name in a condition.
fn is_nearly_asking(seen: &Seen<'_>, index: usize) -> Result<bool, AllocError> {
    let Some(What::Word(word)) = seen.what(index) else {
        return Ok(false);
    };
    let Context { alloc, tables, .. } = seen.context;
    let is_name = interface_named(tables, word).is_some()
        || seconds_of(tables, word.as_str(), None).is_some();
    if is_name || !is_behind_while(seen, index) {
        return Ok(false);
    }
    Ok(!near_values(alloc, word.as_str())?.is_empty())
}

/// The kinds of tokens that can come behind these in a condition, which begins at a token of a line.
fn kinds_in(seen: &Seen<'_>, first: usize, tokens: &[Token]) -> Result<Vec<Kind>, AllocError> {
    let mut kinds = kinds_behind_if(seen.context.alloc, tokens)?;
    if seen.asks_for_values(first.saturating_sub(1)) && !has_every(tokens) {
        kinds.retain(|kind| *kind != Kind::BraceOpen);
    }
    Ok(kinds)
}

/// Whether a token is the word `every`, as each test has it.
fn has_every(tokens: &[Token]) -> bool {
    tokens.iter().any(|token| is_every(&token.what))
}

/// The number of the token at which tokens stop being a condition, and whether too much is open there.
fn fault_in(alloc: Global, tokens: &[Token]) -> Result<(usize, bool), AllocError> {
    let Err(fault) = tree_around(alloc, tokens)? else {
        return Ok((tokens.len(), false));
    };
    let Some(place) = fault.place() else {
        return Err(AllocError);
    };
    let is_nesting = matches!(fault, ParseFault::Nesting(_));
    Ok((place.number.saturating_sub(1), is_nesting))
}

/// The kinds of tokens that can come behind these in a condition.
fn kinds_behind_if(alloc: Global, tokens: &[Token]) -> Result<Vec<Kind>, AllocError> {
    let mut front = behind_if(alloc, tokens)?;
    if is_front(front.as_slice()) {
        kinds_behind(alloc, &mut front)
    } else {
        Ok(Vec::new(alloc))
    }
}

/// How many of the first tokens a condition can have: those before a brace and before a word that begins an action or a part.
fn length_of(tokens: &[Token]) -> usize {
    for (index, token) in tokens.iter().enumerate() {
        if ends_condition(&token.what) {
            return index;
        }
    }
    tokens.len()
}

/// Whether a condition ends before a token.
fn ends_condition(what: &What) -> bool {
    match what {
        What::BraceOpen | What::BraceClose => true,
        What::Word(word) => is_reserved(word.as_str()) && word.as_str() != "every",
        _ => false,
    }
}

/// The first name from one token up to another that the policy does not have.
pub(crate) fn first_unknown(seen: &Seen<'_>, first: usize, end: usize) -> Option<Wrong> {
    for index in first..end {
        if let Some(why) = unknown_at(seen, index) {
            return Some(Wrong { index, why });
        }
    }
    None
}

/// What the policy does not have of a name in a condition.
fn unknown_at(seen: &Seen<'_>, index: usize) -> Option<Why> {
    let next = index.saturating_add(1);
    let (What::Word(name) | What::Quoted(name)) = seen.what(index)? else {
        return None;
    };
    let tables = seen.context.tables;
    if seen.is_dot(next) {
        let is_known = seen.is_dot(index.saturating_sub(1))
            || interface_named(tables, name).is_some();
        return if is_known { None } else { Some(Why::Interface) };
    }
    if seen.word(next) != "every" {
        return None;
    }
    let seconds = period_of(seen.text(next.saturating_add(1)))?;
    match seconds_of(tables, name.as_str(), Some(seconds)) {
        Some(_) => None,
        None => Some(Why::Test),
    }
}

/// The period in seconds that a text spells.
fn period_of(text: &str) -> Option<u32> {
    let Number::Within(number) = parse_number(text.as_bytes())? else {
        return None;
    };
    let seconds = u32::try_from(number).ok()?;
    if limits::period_fits(seconds) {
        Some(seconds)
    } else {
        None
    }
}

/// The period in seconds of the first test of a command, or the given one if the policy has a test with that.
pub(crate) fn seconds_of(tables: &Tables, command: &str, given: Option<u32>) -> Option<u32> {
    for index in 0..tables.tests.len() {
        if let Some(test) = tables.tests.get(index) {
            let seconds = test.period.seconds();
            if test.command.as_str() == command && given.unwrap_or(seconds) == seconds {
                return Some(seconds);
            }
        }
    }
    None
}
