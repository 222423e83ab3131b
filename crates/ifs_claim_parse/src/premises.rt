//! The words behind `while`.

ghost use Rattle.std.specs.Prelude.{◌≡◌, ◌||◌, IfOk, MatchBool, true};
ghost use Rattle.std.specs.Bool.{OnTrue};
ghost use Rattle.ifs_policy.specs.Visits.{has_test};
ghost use Rattle.ifs_claim_parse.specs.Conditions.{HasTest, IsPremise};
ghost use Rattle.ifs_claim_parse.specs.inner.Asked.{BeginWithValues, IsAskable};

use crate::claim::{Premise, Values};
use crate::conditions::read_condition;
use crate::fault::{LineFault, Why};
use crate::keyword::{Keyword, is_every};
use crate::next::{Line, next_keyword};
use ifs_lex::{Token, What};
use ifs_parse::Condition;
use ifs_policy::{Single, SingleVisitor, visit_condition};

/// Whether the word before some tokens is a name: the condition goes on with `.` or `every`.
fn is_behind_name(tokens: &[Token]) -> bool {
    match tokens.first() {
        Some(next) => matches!(next.what, What::Dot) || is_every(&next.what),
        None => false,
    }
}

/// What tokens ask of the values of tests by their first word, and the tokens behind it. A name asks for nothing.
pub fn next_values(tokens: &[Token]) -> (Values, &[Token])
    ensures { BeginWithValues result.0 tokens.now result.1.now }
{
    match next_keyword(tokens) {
        Some((Keyword::Known, rest)) if !is_behind_name(rest) => (Values::Known, rest),
        Some((Keyword::Unknown, rest)) if !is_behind_name(rest) => (Values::Unknown, rest),
        _ => (Values::Any, tokens),
    }
}

/// A search for an external test.
#[derive(Clone, Copy)]
struct TestSearch {
    is_found: bool,
}

impl SingleVisitor for TestSearch {
    ghost after = { λ s single. record { is_found = s.is_found || has_test (λ _. true) single } };

    fn visit(&mut self, single: Single) {
        if let Single::TestIs(_) = single {
            self.is_found = true;
        }
    }
}

/// Whether a condition has an external test.
fn has_test(condition: &Condition<Single>) -> bool
    ensures { MatchBool result (HasTest condition.now) (¬ HasTest condition.now) }
{
    let mut search = TestSearch { is_found: false };
    visit_condition(&mut search, condition);
    search.is_found
}

/// Whether this can be asked of the values of a condition's tests.
fn is_askable(values: Values, condition: &Condition<Single>) -> bool
    ensures { OnTrue result (IsAskable values condition.now) }
{
    match values {
        Values::Any => true,
        Values::Known | Values::Unknown => has_test(condition),
    }
}

/// The premise that tokens say.
pub fn read_premise(line: Line<'_>, tokens: &[Token]) -> Result<Premise, LineFault>
    ensures { IfOk result (λ premise. IsPremise line.entry.tables.now tokens.now premise) }
{
    let (values, rest) = next_values(tokens);
    let condition = read_condition(line, rest)?;
    if !is_askable(values, &condition) {
        return Err(line.wrong(tokens, Why::NoTest));
    }
    Ok(Premise { values, condition })
}
