//! The next tokens of a line.

ghost use Rattle.std.specs.Prelude.{◌≡◌, ◌≢◌, ℕ, [], Contains, IfOk, IfSome, MatchBool, Some, option_map};
ghost use Rattle.std.specs.Bool.{OnTrue};
ghost use Rattle.ifs_base.specs.Numbers.{sized};
ghost use Rattle.ifs_parse.specs.Words.{number_of_what};
ghost use Rattle.ifs_claim_parse.specs.Says.{AreApart};
ghost use Rattle.ifs_claim_parse.specs.inner.Left.{
  BeginWithCommands,
  BeginWithStates,
  Begins,
  BeginsWithCommand,
  BeginsWithName,
  BeginsWithNumber,
  BeginsWithState,
};

use crate::fault::{LineFault, Why, Wrong};
use crate::keyword::{Keyword, Wanted, keyword_of, name_in};
use crate::names::{command_named, state_named};
use ifs_base::{CommandId, Number, StateId, Text, parse_number};
use ifs_lex::{Token, What};
use ifs_policy::Tables;
use std::alloc::Global;

/// What a line is read with: the tables of the policy, and the number of its tokens.
#[derive(Clone, Copy)]
pub struct Line<'a> {
    pub alloc: Global,
    pub tables: &'a Tables,
    pub count: usize,
}

impl Line<'_> {
    /// The number of the first of the tokens that end the line.
    pub fn index(self, left: &[Token]) -> usize {
        self.count.saturating_sub(left.len())
    }

    /// The fault at the first of the tokens that end the line.
    pub fn wrong(self, left: &[Token], why: Why) -> LineFault {
        LineFault::Wrong(Wrong {
            index: self.index(left),
            why,
        })
    }
}

/// The word that comes next, and the tokens behind it.
pub fn next_keyword(tokens: &[Token]) -> Option<(Keyword, &[Token])>
    ensures { IfSome result (λ found. Begins found.0 tokens.now found.1.now) }
{
    let (first, rest) = tokens.split_first()?;
    let word = keyword_of(&first.what)?;
    Some((word, rest))
}

/// The tokens behind this word, if it comes next.
pub fn expect<'t>(
    line: Line<'_>,
    tokens: &'t [Token],
    word: Keyword,
    wanted: Wanted,
) -> Result<&'t [Token], LineFault>
    ensures { IfOk result (λ rest. Begins word tokens.now rest.now) }
{
    match next_keyword(tokens) {
        Some((found, rest)) if found == word => Ok(rest),
        _ => Err(line.wrong(tokens, Why::Wanted(wanted))),
    }
}

/// The name that comes next, and the tokens behind it.
fn next_name(tokens: &[Token]) -> Option<(&Text, &[Token])>
    ensures { IfSome result (λ found. BeginsWithName found.0.now tokens.now found.1.now) }
{
    let (first, rest) = tokens.split_first()?;
    let name = name_in(&first.what)?;
    Some((name, rest))
}

/// The state whose name comes next, and the tokens behind it.
pub fn read_state<'t>(
    line: Line<'_>,
    tokens: &'t [Token],
) -> Result<(StateId, &'t [Token]), LineFault>
    ensures { IfOk result (λ found. BeginsWithState line.entry.tables.now tokens.now found.0 found.1.now) }
{
    let Some((name, rest)) = next_name(tokens) else {
        return Err(line.wrong(tokens, Why::Wanted(Wanted::State)));
    };
    match state_named(line.tables, name) {
        Some(state) => Ok((state, rest)),
        None => Err(line.wrong(tokens, Why::State)),
    }
}

/// The command that comes next, and the tokens behind it.
pub fn read_command<'t>(
    line: Line<'_>,
    tokens: &'t [Token],
) -> Result<(CommandId, &'t [Token]), LineFault>
    ensures { IfOk result (λ found. BeginsWithCommand line.entry.tables.now tokens.now found.0 found.1.now) }
{
    let Some((text, rest)) = next_name(tokens) else {
        return Err(line.wrong(tokens, Why::Wanted(Wanted::Command)));
    };
    match command_named(line.tables, text) {
        Some(command) => Ok((command, rest)),
        None => Err(line.wrong(tokens, Why::Command)),
    }
}

/// The states whose names come next, one or more, and the tokens behind them.
pub fn read_states<'t>(
    line: Line<'_>,
    tokens: &'t [Token],
) -> Result<(Vec<StateId>, &'t [Token]), LineFault>
    ensures named { IfOk result (λ found. BeginWithStates line.entry.tables.now tokens.now found.0.items found.1.now) }
    ensures some { IfOk result (λ found. found.0.items ≢ []) }
{
    let (first, mut left) = read_state(line, tokens)?;
    let mut states = Vec::new(line.alloc);
    states.push(first)?;
    'names: while let Some((name, rest)) = next_name(left) {
        match state_named(line.tables, name) {
            Some(state) => states.push(state)?,
            None => return Err(line.wrong(left, Why::State)),
        }
        left = rest;
    }
    Ok((states, left))
}

/// The commands that come next, one or more, and the tokens behind them.
pub fn read_commands<'t>(
    line: Line<'_>,
    tokens: &'t [Token],
) -> Result<(Vec<CommandId>, &'t [Token]), LineFault>
    ensures named { IfOk result (λ found. BeginWithCommands line.entry.tables.now tokens.now found.0.items found.1.now) }
    ensures some { IfOk result (λ found. found.0.items ≢ []) }
{
    let (first, mut left) = read_command(line, tokens)?;
    let mut commands = Vec::new(line.alloc);
    commands.push(first)?;
    'names: while let Some((text, rest)) = next_name(left) {
        match command_named(line.tables, text) {
            Some(command) => commands.push(command)?,
            None => return Err(line.wrong(left, Why::Command)),
        }
        left = rest;
    }
    Ok((commands, left))
}

/// Nothing, if no state of a list is among those of a list before it. The names of the second list begin at these tokens.
pub fn expect_apart(
    line: Line<'_>,
    names: &[Token],
    states: &[StateId],
    others: &[StateId],
) -> Result<(), LineFault>
    ensures { IfOk result (λ _. AreApart states.now others.now) }
{
    let mut place = 0usize;
    for other in others {
        if is_among(states, *other) {
            return Err(line.wrong(names, Why::SameState).behind(place));
        }
        place = place.saturating_add(1);
    }
    Ok(())
}

/// Whether a state is among some.
fn is_among(states: &[StateId], state: StateId) -> bool
    ensures { MatchBool result (Contains states.now state) (¬ Contains states.now state) }
{
    states.contains(&state)
}

/// The number that a token is: an unquoted word of digits.
fn number_in(what: &What) -> Option<Number>
    ensures { result ≡ option_map sized (number_of_what what.now) }
{
    match what {
        What::Word(word) => parse_number(word.as_bytes()),
        _ => None,
    }
}

/// A number of 16 bits.
fn within(number: Number) -> Option<u16>
    ensures { IfSome result (λ found. (n : ℕ) → sized n ≡ number → n ≡ found) }
{
    match number {
        Number::Within(number) => match u16::try_from(number) {
            Ok(number) => Some(number),
            Err(_) => None,
        },
        Number::TooGreat => None,
    }
}

/// The number that comes next, and the tokens behind it.
pub fn read_number<'t>(line: Line<'_>, tokens: &'t [Token]) -> Result<(u16, &'t [Token]), LineFault>
    ensures { IfOk result (λ found. BeginsWithNumber tokens.now found.0 found.1.now) }
{
    let Some((first, rest)) = tokens.split_first() else {
        return Err(line.wrong(tokens, Why::Wanted(Wanted::Number)));
    };
    let Some(number) = number_in(&first.what) else {
        return Err(line.wrong(tokens, Why::Wanted(Wanted::Number)));
    };
    match within(number) {
        Some(number) => Ok((number, rest)),
        None => Err(line.wrong(tokens, Why::TooGreat)),
    }
}

/// Whether no token is left.
pub fn is_end(tokens: &[Token]) -> bool
    ensures { OnTrue result (tokens.now ≡ []) }
{
    tokens.is_empty()
}

/// Nothing, if no token is left.
pub fn expect_end(line: Line<'_>, tokens: &[Token], wanted: Wanted) -> Result<(), LineFault>
    ensures { IfOk result (λ _. tokens.now ≡ []) }
{
    if is_end(tokens) {
        return Ok(());
    }
    Err(line.wrong(tokens, Why::Wanted(wanted)))
}
