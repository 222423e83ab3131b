//! The nine claims.

ghost use Rattle.std.specs.Prelude.{IfOk};
ghost use Rattle.ifs_claim_parse.specs.Says.{AreWhile, Says};
ghost use Rattle.ifs_claim_parse.specs.inner.Left.{Behind};
ghost use Rattle.ifs_claim_parse.specs.declared.keyword.Keyword.TheVariants as word;

use crate::claim::{Claim, Premise};
use crate::fault::{LineFault, Why};
use crate::keyword::{Keyword, Wanted};
use crate::next::{
    Line, expect, expect_apart, expect_end, is_end, next_keyword, read_commands, read_number,
    read_states,
};
use crate::premises::read_premise;
use ifs_base::StateId;
use ifs_lex::Token;

/// The claim that all tokens of a line say.
pub fn read_claim(line: Line<'_>, tokens: &[Token]) -> Result<Claim, LineFault>
    ensures { IfOk result (λ claim. Says line.entry.tables.now tokens.now claim) }
{
    let none = line.wrong(tokens, Why::Wanted(Wanted::Claim));
    let Some((word, rest)) = next_keyword(tokens) else {
        return Err(none);
    };
    match word {
        Keyword::Never => read_never(line, rest),
        Keyword::Rest => read_rest(line, rest),
        Keyword::At => never_in(line, rest),
        Keyword::May => may_flap(line, rest),
        _ => Err(none),
    }
}

/// What follows `never`: rest in STATE.. while PREMISE | from STATE.. to STATE.. | enter STATE.. [while PREMISE]
/// | run COMMAND.. while PREMISE
fn read_never(line: Line<'_>, tokens: &[Token]) -> Result<Claim, LineFault>
    ensures { IfOk result (λ claim. Behind word.Never (Says line.entry.tables.now) tokens.now claim) }
{
    let none = line.wrong(tokens, Why::Wanted(Wanted::BehindNever));
    let Some((word, rest)) = next_keyword(tokens) else {
        return Err(none);
    };
    match word {
        Keyword::Rest => never_rests(line, rest),
        Keyword::From => never_from(line, rest),
        Keyword::Enter => never_enters(line, rest),
        Keyword::Run => never_runs(line, rest),
        _ => Err(none),
    }
}

/// What follows `rest`: in STATE.. while PREMISE | within N changes
fn read_rest(line: Line<'_>, tokens: &[Token]) -> Result<Claim, LineFault>
    ensures { IfOk result (λ claim. Behind word.Rest (Says line.entry.tables.now) tokens.now claim) }
{
    let none = line.wrong(tokens, Why::Wanted(Wanted::BehindRest));
    let Some((word, rest)) = next_keyword(tokens) else {
        return Err(none);
    };
    match word {
        Keyword::In => rests_in(line, tokens),
        Keyword::Within => rests_within(line, rest),
        _ => Err(none),
    }
}

/// in STATE.. while PREMISE
fn read_while(line: Line<'_>, tokens: &[Token]) -> Result<(Vec<StateId>, Premise), LineFault>
    ensures { IfOk result (λ found. AreWhile line.entry.tables.now tokens.now found.0.items found.1) }
{
    let names = expect(line, tokens, Keyword::In, Wanted::Word(Keyword::In))?;
    let (states, rest) = read_states(line, names)?;
    let rest = expect(line, rest, Keyword::While, Wanted::StateOrWhile)?;
    let premise = read_premise(line, rest)?;
    Ok((states, premise))
}

/// What follows `never rest`.
fn never_rests(line: Line<'_>, tokens: &[Token]) -> Result<Claim, LineFault>
    ensures { IfOk result (λ claim. Behind word.Rest (Behind word.Never (Says line.entry.tables.now)) tokens.now claim) }
{
    let (states, premise) = read_while(line, tokens)?;
    Ok(Claim::NeverRests(states, premise))
}

/// What follows `rest`, from `in` on.
fn rests_in(line: Line<'_>, tokens: &[Token]) -> Result<Claim, LineFault>
    ensures { IfOk result (λ claim. Behind word.Rest (Says line.entry.tables.now) tokens.now claim) }
{
    let (states, premise) = read_while(line, tokens)?;
    Ok(Claim::RestsIn(states, premise))
}

/// What follows `never from`: STATE.. to STATE..
fn never_from(line: Line<'_>, tokens: &[Token]) -> Result<Claim, LineFault>
    ensures { IfOk result (λ claim. Behind word.From (Behind word.Never (Says line.entry.tables.now)) tokens.now claim) }
{
    let (from, rest) = read_states(line, tokens)?;
    let names = expect(line, rest, Keyword::To, Wanted::StateOrTo)?;
    let (to, rest) = read_states(line, names)?;
    expect_apart(line, names, from.as_slice(), to.as_slice())?;
    expect_end(line, rest, Wanted::StateOrEnd)?;
    Ok(Claim::NeverFrom(from, to))
}

/// What follows `never enter`: STATE.. | STATE.. while PREMISE
fn never_enters(line: Line<'_>, tokens: &[Token]) -> Result<Claim, LineFault>
    ensures { IfOk result (λ claim. Behind word.Enter (Behind word.Never (Says line.entry.tables.now)) tokens.now claim) }
{
    let (states, rest) = read_states(line, tokens)?;
    if is_end(rest) {
        return Ok(Claim::NeverEnters(states));
    }
    let rest = expect(line, rest, Keyword::While, Wanted::StateWhileOrEnd)?;
    let premise = read_premise(line, rest)?;
    Ok(Claim::NeverEntersWhile(states, premise))
}

/// What follows `never run`: COMMAND.. while PREMISE
fn never_runs(line: Line<'_>, tokens: &[Token]) -> Result<Claim, LineFault>
    ensures { IfOk result (λ claim. Behind word.Run (Behind word.Never (Says line.entry.tables.now)) tokens.now claim) }
{
    let (commands, rest) = read_commands(line, tokens)?;
    let rest = expect(line, rest, Keyword::While, Wanted::CommandOrWhile)?;
    let premise = read_premise(line, rest)?;
    Ok(Claim::NeverRuns(commands, premise))
}

/// What follows `rest within`.
fn rests_within(line: Line<'_>, tokens: &[Token]) -> Result<Claim, LineFault>
    ensures { IfOk result (λ claim. Behind word.Within (Behind word.Rest (Says line.entry.tables.now)) tokens.now claim) }
{
    let (number, rest) = read_number(line, tokens)?;
    let rest = expect(line, rest, Keyword::Changes, Wanted::Word(Keyword::Changes))?;
    expect_end(line, rest, Wanted::End)?;
    Ok(Claim::RestsWithin(number))
}

/// What follows `at`: any moment never in STATE.. while PREMISE
fn never_in(line: Line<'_>, tokens: &[Token]) -> Result<Claim, LineFault>
    ensures { IfOk result (λ claim. Behind word.At (Says line.entry.tables.now) tokens.now claim) }
{
    let rest = expect(line, tokens, Keyword::Any, Wanted::Word(Keyword::Any))?;
    let rest = expect(line, rest, Keyword::Moment, Wanted::Word(Keyword::Moment))?;
    let rest = expect(line, rest, Keyword::Never, Wanted::Word(Keyword::Never))?;
    let (states, premise) = read_while(line, rest)?;
    Ok(Claim::NeverIn(states, premise))
}

/// What follows `may`: flap STATE..
fn may_flap(line: Line<'_>, tokens: &[Token]) -> Result<Claim, LineFault>
    ensures { IfOk result (λ claim. Behind word.May (Says line.entry.tables.now) tokens.now claim) }
{
    let names = expect(line, tokens, Keyword::Flap, Wanted::Word(Keyword::Flap))?;
    let (states, rest) = read_states(line, names)?;
    expect_end(line, rest, Wanted::StateOrEnd)?;
    Ok(Claim::MayFlap(states))
}
