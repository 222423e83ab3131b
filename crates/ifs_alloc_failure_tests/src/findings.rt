//! Calls that look for what can never happen in a policy.

use crate::allocations::{Code, Turn, code_of, no_memory};
use crate::calls::tried;
use crate::failure::Failure;
use ifs_base::StateId;
use ifs_lint::{Linted, Said, lint};
use ifs_policy::{PolicyText, policy_of};
use ifs_solver::{Budget, Round, Rounds, judge_places, judge_states};
use std::alloc::{AllocError, Global};

/// A policy with a finding of each kind, and a comment on a round.
const TEXT: &str = "
# lint: may flap a b
sync = 'em0.link.up && em1.link.up || ! em0.link.up && ! em1.link.up'
state a {
  if ! $sync { set-state b }
  if em0.link.up && em0.link.up && em0.link.down { run \"x\" set-state b }
}
state b { if \"t\" every 5 || em1.link.up { set-state b set-state a } }
state c { if em0.link.up set-state d }
state d { if em0.link.up set-state c }
state e { }
";

/// The policy's text. A proof does not have to know the text, so the function hides it.
fn text() -> &'static str {
    TEXT
}

/// Tries each call on the policy of the text.
pub fn try_calls(rt: &HostRuntime) -> Result<(), Failure> {
    let given = policy_of(rt.alloc(), text(), &[]).map_err(code_of)?;
    tried_on(rt, &given, "ifs_solver::judge_places", places)?;
    tried_on(rt, &given, "ifs_solver::judge_states", states)?;
    tried_on(rt, &given, "ifs_solver::Rounds::round_at", round)?;
    tried_on(rt, &given, "ifs_lint::lint", linted)
}

/// Tries a call whose only fault is a failed allocation.
fn tried_on<F: Fn(&PolicyText, Turn) -> Result<Vec<u8>, Code>>(
    rt: &HostRuntime,
    given: &PolicyText,
    name: &str,
    make: F,
) -> Result<(), Failure>
    requires { F.IsAlwaysCallable make }
{
    tried(rt, given, name, &["AllocError"], make)
}

fn places(given: &PolicyText, turn: Turn) -> Result<Vec<u8>, Code> {
    let mut budget = Budget::POLICY;
    let made = turn.ended(judge_places(turn.begun(), &given.policy, &mut budget));
    let answers = made.map_err(no_memory)?;
    let (questions, undecided) = (budget.questions, budget.undecided);
    format!(in turn.alloc(); "{answers:?} {questions} {undecided}")
        .map_err(no_memory)
        .map(bytes_of)
}

fn states(given: &PolicyText, turn: Turn) -> Result<Vec<u8>, Code> {
    let mut budget = Budget::POLICY;
    let made = turn.ended(judge_states(turn.begun(), &given.policy, &mut budget));
    let answers = made.map_err(no_memory)?;
    format!(in turn.alloc(); "{answers:?}")
        .map_err(no_memory)
        .map(bytes_of)
}

fn round(given: &PolicyText, turn: Turn) -> Result<Vec<u8>, Code> {
    let made = turn.ended(first_round(turn.begun(), given));
    told(turn.alloc(), made.map_err(no_memory)?).map_err(no_memory)
}

/// The round at the first state.
fn first_round(alloc: Global, given: &PolicyText) -> Result<Option<Round>, AllocError> {
    let mut budget = Budget::POLICY;
    Rounds::new(alloc, &given.policy)?.round_at(StateId(0), &mut budget)
}

/// The states of a round.
fn told(alloc: Global, round: Option<Round>) -> Result<Vec<u8>, AllocError> {
    match round {
        Some(round) => {
            let states = &round.states;
            Ok(format!(in alloc; "{states:?}")?.into_bytes())
        }
        None => Ok(Vec::new(alloc)),
    }
}

fn linted(given: &PolicyText, turn: Turn) -> Result<Vec<u8>, Code> {
    let made = turn.ended(lint(turn.begun(), text(), &[], &given.tree, &given.policy));
    messages(turn.alloc(), &made.map_err(no_memory)?).map_err(no_memory)
}

/// The messages and the request lines of findings.
fn messages(alloc: Global, linted: &Linted) -> Result<Vec<u8>, AllocError> {
    let mut text = String::new(alloc);
    for said in [&linted.places, &linted.states, &linted.rounds] {
        put_said(&mut text, said)?;
    }
    Ok(text.into_bytes())
}

fn put_said(text: &mut String, said: &Said) -> Result<(), AllocError> {
    for finding in &said.findings {
        text.push_str(finding.report.message.as_str())?;
        text.push_str(finding.requests.as_str())?;
    }
    let (asked, undecided) = (said.asked, said.undecided);
    write!(text, "{asked} {undecided} ")
}

fn bytes_of(text: String) -> Vec<u8> {
    text.into_bytes()
}
