//! Claims on a policy.

use ifs_base::{CommandId, StateId};
use ifs_parse::Condition;
use ifs_policy::Single;

/// The words behind `while`: a condition, and what is asked of the values of its tests.
#[derive(Drop)]
pub struct Premise {
    pub values: Values,
    pub condition: Condition<Single>,
}

/// What is asked of the values of a condition's tests.
#[derive(Clone, Copy, Debug, PartialEq, Eq)]
pub enum Values {
    /// `COND`: nothing. The premise is that the condition is true. A test without a value is not true.
    Any,
    /// `known COND`: the premise is that the condition is true, and each of its tests has a value.
    Known,
    /// `unknown COND`: the premise is that a test of the condition has no value.
    Unknown,
}

/// What a line of a claims file says of a policy, with the numbers that its states, commands, interfaces and tests have in the
/// policy. PREMISE is `COND`, `known COND` or `unknown COND`.
#[derive(Drop)]
pub enum Claim {
    /// `never rest in STATE.. while PREMISE`: where nothing is owed and each active test has a value, it is in none of these states,
    /// or the premise does not hold.
    NeverRests(Vec<StateId>, Premise),
    /// `rest in STATE.. while PREMISE`: where nothing is owed, each active test has a value and the premise holds, it is in one of
    /// these states.
    RestsIn(Vec<StateId>, Premise),
    /// `never from STATE.. to STATE..`: no step leads from one of the first states to one of the others. No state is among both.
    NeverFrom(Vec<StateId>, Vec<StateId>),
    /// `never enter STATE..`: no steps lead to one of these states.
    NeverEnters(Vec<StateId>),
    /// `never enter STATE.. while PREMISE`: no step enters one of these states while the premise holds.
    NeverEntersWhile(Vec<StateId>, Premise),
    /// `never run "COMMAND".. while PREMISE`: neither an opening nor a step queues one of these commands while the premise holds.
    NeverRuns(Vec<CommandId>, Premise),
    /// `rest within N changes`: while no fact changes, the state changes so often at most.
    RestsWithin(u16),
    /// `at any moment never in STATE.. while PREMISE`: in each of these states the premise does not hold, also between an event
    /// and the next tick.
    NeverIn(Vec<StateId>, Premise),
    /// `may flap STATE..`: a round of some of these states is meant. It claims nothing.
    MayFlap(Vec<StateId>),
}

impl Claim {
    /// The words behind `while`, if the claim has it.
    pub fn premise(&self) -> Option<&Premise> {
        match self {
            Claim::NeverRests(_, premise)
            | Claim::RestsIn(_, premise)
            | Claim::NeverEntersWhile(_, premise)
            | Claim::NeverRuns(_, premise)
            | Claim::NeverIn(_, premise) => Some(premise),
            Claim::NeverFrom(_, _)
            | Claim::NeverEnters(_)
            | Claim::RestsWithin(_)
            | Claim::MayFlap(_) => None,
        }
    }
    /// How many states and commands it names, and one for a premise or a number.
    pub fn count_names(&self) -> usize {
        match self {
            Claim::NeverRests(states, _)
            | Claim::RestsIn(states, _)
            | Claim::NeverEntersWhile(states, _)
            | Claim::NeverIn(states, _) => states.len().saturating_add(1),
            Claim::NeverEnters(states) | Claim::MayFlap(states) => states.len(),
            Claim::NeverFrom(from, to) => from.len().saturating_add(to.len()),
            Claim::NeverRuns(commands, _) => commands.len().saturating_add(1),
            Claim::RestsWithin(_) => 1,
        }
    }
}
