//! Claims on small policies, and what is said of each. The condition of a claim is that of the first `if` of a policy's last state.

use ifs_base::{CommandId, StateId};
use ifs_claims::{
    ReachableStates, never_enters, never_enters_while, never_from, never_in, never_rests,
    never_runs, never_settles, rests_in, rests_within,
};
use ifs_parse::{Condition, Statement};
use ifs_policy::{Policy, Single, policy_of};
use ifs_solver::{Budget, Extent, Guard};
use std::alloc::{AllocError, Global};
use std::process::Abort;
use std::test::Fail;

/// A claim, with the numbers of its states and of its command.
#[derive(Clone, Copy, Debug)]
enum Claim {
    NeverRests(u16),
    NeverSettles(u16),
    RestsIn(u16),
    NeverIn(u16),
    NeverFrom(u16, u16),
    NeverEnters(u16),
    NeverEntersWhile(u16),
    NeverRuns(u16),
    RestsWithin(u16),
}

/// The condition of the first `if` of the last state.
fn condition_of(policy: &Policy) -> Option<&Condition<Single>> {
    let (last, _) = policy.states().split_last()?;
    match last.body.statements().first()? {
        Statement::If(condition, _) => Some(condition),
        _ => None,
    }
}

/// What is said of a claim.
fn told_of(
    reachable: &ReachableStates<'_>,
    claim: Claim,
    guard: Guard<'_>,
    budget: &mut Budget,
) -> Result<Extent, AllocError> {
    match claim {
        Claim::NeverRests(state) => never_rests(reachable, StateId(state), guard, budget),
        Claim::NeverSettles(state) => never_settles(reachable, StateId(state), guard, budget),
        Claim::RestsIn(state) => rests_in(reachable, &[StateId(state)], guard, budget),
        Claim::NeverIn(state) => never_in(reachable, StateId(state), guard, budget),
        Claim::NeverFrom(state, next) => never_from(
            reachable,
            StateId(state),
            StateId(next),
            budget,
        ),
        Claim::NeverEnters(state) => Ok(never_enters(reachable, StateId(state))),
        Claim::NeverEntersWhile(state) => never_enters_while(
            reachable,
            StateId(state),
            guard,
            budget,
        ),
        Claim::NeverRuns(command) => never_runs(reachable, CommandId(command), guard, budget),
        Claim::RestsWithin(changes) => rests_within(reachable, changes, budget),
    }
}

/// What a guard asks of a condition.
#[derive(Clone, Copy, Debug)]
enum Asked {
    True,
    Known,
    Unknown,
}

impl Asked {
    /// The guard of a condition.
    fn of(self, condition: &Condition<Single>) -> Guard<'_> {
        match self {
            Asked::True => Guard::True(condition),
            Asked::Known => Guard::Known(condition),
            Asked::Unknown => Guard::Unknown(condition),
        }
    }
}

/// Asserts what is said of a claim on the policy of a text, while the condition is true.
fn check(
    rt: &impl Abort,
    alloc: Global,
    text: &str,
    claim: Claim,
    wanted: Extent,
) -> Result<(), Fail> {
    check_while(rt, alloc, text, (Asked::True, claim), wanted)
}

/// Asserts what is said of a claim on the policy of a text, while a guard is met.
fn check_while(
    rt: &impl Abort,
    alloc: Global,
    text: &str,
    (asked, claim): (Asked, Claim),
    wanted: Extent,
) -> Result<(), Fail> {
    let given = policy_of(alloc, text, &[])?;
    let mut budget = Budget::POLICY;
    let reachable = ReachableStates::of(alloc, &given.policy, &mut budget)?;
    let Some(condition) = condition_of(reachable.policy()) else {
        assert!(rt; false, "{text}");
        return Ok(());
    };
    let told = told_of(&reachable, claim, asked.of(condition), &mut budget)?;
    assert_eq!(rt; told, wanted, "{claim:?} {asked:?}");
    Ok(())
}

/// A state for a link that is up, one for a link that is not, and one that nothing enters.
const PAIR: &str =
    "state a { if e.link.up set-state b } state b { if ! e.link.up set-state a } state c { if e.link.up run \"x\" }";

const OF_PAIR: &[(Claim, Extent)] = &[
    (Claim::NeverRests(0), Extent::Nowhere),
    (Claim::NeverRests(1), Extent::Somewhere),
    (Claim::NeverRests(2), Extent::Nowhere),
    (Claim::NeverRests(3), Extent::Undecided),
    (Claim::NeverSettles(0), Extent::Nowhere),
    (Claim::NeverSettles(1), Extent::Somewhere),
    (Claim::RestsIn(1), Extent::Nowhere),
    (Claim::RestsIn(0), Extent::Somewhere),
    (Claim::NeverIn(0), Extent::Somewhere),
    (Claim::NeverIn(2), Extent::Nowhere),
    (Claim::NeverFrom(0, 1), Extent::Somewhere),
    (Claim::NeverFrom(0, 2), Extent::Nowhere),
    (Claim::NeverEnters(1), Extent::Somewhere),
    (Claim::NeverEnters(2), Extent::Nowhere),
    (Claim::NeverEntersWhile(1), Extent::Somewhere),
    (Claim::NeverEntersWhile(0), Extent::Nowhere),
    (Claim::NeverRuns(0), Extent::Nowhere),
    (Claim::RestsWithin(1), Extent::Nowhere),
    (Claim::RestsWithin(0), Extent::Somewhere),
];

#[test]
fn pair(rt: HostRuntime) -> Result<(), Fail> {
    for (claim, wanted) in OF_PAIR {
        check(&rt, rt.alloc(), PAIR, *claim, *wanted)?;
    }
    Ok(())
}

/// A command of a body while the link is up, one of an `init` that is run while it is not, and a test that holds a body back.
const COMMANDS: &str =
    "state a { if e.link.up run \"x\" if ! e.link.up set-state b } state b { init run \"y\" if e.link.up && \"t\" every 5 set-state a } state c { if e.link.up run \"z\" }";

const OF_COMMANDS: &[(Claim, Extent)] = &[
    (Claim::NeverRuns(0), Extent::Somewhere),
    (Claim::NeverRuns(1), Extent::Nowhere),
    (Claim::NeverRuns(2), Extent::Nowhere),
    (Claim::NeverRests(1), Extent::Somewhere),
    (Claim::NeverSettles(1), Extent::Somewhere),
];

#[test]
fn commands(rt: HostRuntime) -> Result<(), Fail> {
    for (claim, wanted) in OF_COMMANDS {
        check(&rt, rt.alloc(), COMMANDS, *claim, *wanted)?;
    }
    Ok(())
}

/// A state that a test leaves: it rests there while the test has no value, and does not settle.
const HELD_BACK: &str =
    "state a { if e.link.up set-state b } state b { if \"t\" every 5 set-state a if ! \"t\" every 5 set-state a if e.link.up run \"x\" } state c { if e.link.up run \"x\" }";

const OF_HELD_BACK: &[(Claim, Extent)] = &[
    (Claim::NeverRests(1), Extent::Somewhere),
    (Claim::NeverSettles(1), Extent::Nowhere),
];

#[test]
fn held_back(rt: HostRuntime) -> Result<(), Fail> {
    for (claim, wanted) in OF_HELD_BACK {
        check(&rt, rt.alloc(), HELD_BACK, *claim, *wanted)?;
    }
    Ok(())
}

/// Two states that follow each other for ever.
const ROUND: &str =
    "state a { if e.link.up set-state b } state b { set-state a } state c { if e.link.up run \"x\" }";

#[test]
fn round(rt: HostRuntime) -> Result<(), Fail> {
    check(
        &rt,
        rt.alloc(),
        ROUND,
        Claim::RestsWithin(5),
        Extent::Somewhere,
    )
}

/// A gateway whose tests outside of states are those of its health. It leaves `broken` under facts that do not lead there, and
/// goes through `master` and `alone` before the test for maintenance has ended.
const GATEWAY: &str = "init-state starting
if ! \"w\" every 5 set-state broken
if \"m\" every 15 set-state maintenance
state starting { if \"w\" every 5 { if e.link.up set-state master if e.link.down set-state backup } }
state master { if e.link.down set-state backup if e.link.up && ! \"t\" every 5 set-state alone }
state alone { if e.link.down set-state backup if e.link.up && \"t\" every 5 set-state master }
state backup { if e.link.up set-state master }
state broken { if \"w\" every 5 set-state starting }
state maintenance { if ! \"m\" every 15 set-state starting }";

const OF_GATEWAY: &[(Claim, Extent)] = &[
    (Claim::RestsWithin(3), Extent::Nowhere),
    (Claim::RestsWithin(2), Extent::Somewhere),
];

#[test]
fn gateway(rt: HostRuntime) -> Result<(), Fail> {
    for (claim, wanted) in OF_GATEWAY {
        check(&rt, rt.alloc(), GATEWAY, *claim, *wanted)?;
    }
    Ok(())
}

/// Three changes follow each other while the link is up, but the first of these states is entered while it is down.
const BEGINNINGS: &str =
    "init-state d state a { if e.link.up set-state b } state b { if e.link.up set-state c } state c { if e.link.up set-state d } state d { if e.link.down set-state a }";

const OF_BEGINNINGS: &[(Claim, Extent)] = &[
    (Claim::RestsWithin(2), Extent::Nowhere),
    (Claim::RestsWithin(1), Extent::Somewhere),
];

#[test]
fn beginnings(rt: HostRuntime) -> Result<(), Fail> {
    for (claim, wanted) in OF_BEGINNINGS {
        check(&rt, rt.alloc(), BEGINNINGS, *claim, *wanted)?;
    }
    Ok(())
}

/// A test outside of states keeps its value where a state is entered.
const OUTSIDE: &str =
    "init-state c if \"w\" every 5 set-state b state a { if e.link.up run \"x\" } state b { if ! \"w\" every 5 set-state a } state c { if \"w\" every 5 set-state b }";

const OF_OUTSIDE: &[(Claim, Extent)] = &[
    (Claim::NeverIn(0), Extent::Nowhere),
    (Claim::NeverIn(1), Extent::Somewhere),
    (Claim::NeverIn(2), Extent::Nowhere),
];

#[test]
fn outside(rt: HostRuntime) -> Result<(), Fail> {
    for (claim, wanted) in OF_OUTSIDE {
        check(&rt, rt.alloc(), OUTSIDE, *claim, *wanted)?;
    }
    Ok(())
}

/// A command outside of states. No state that is entered asks for both tests.
const TWO_TESTS: &str =
    "if e.link.up run \"x\" state a { if \"t\" every 5 set-state b } state b { if \"u\" every 5 set-state a } state c { if \"t\" every 5 && \"u\" every 5 run \"y\" }";

#[test]
fn two_tests(rt: HostRuntime) -> Result<(), Fail> {
    check(
        &rt,
        rt.alloc(),
        TWO_TESTS,
        Claim::NeverRuns(0),
        Extent::Nowhere,
    )
}

/// An entry takes the values of the tests of a state. An init sees the links of the evaluation that leads to its state.
const ENTRY: &str =
    "state a { if e.link.down && \"t\" every 5 set-state b } state b { init { if e.link.up run \"x\" if e.link.down run \"y\" } if \"t\" every 5 set-state a } state c { if \"t\" every 5 run \"z\" }";

const OF_ENTRY: &[(Claim, Extent)] = &[
    (Claim::NeverIn(0), Extent::Somewhere),
    (Claim::NeverIn(1), Extent::Nowhere),
    (Claim::NeverRuns(0), Extent::Nowhere),
    (Claim::NeverRuns(1), Extent::Somewhere),
];

#[test]
fn entry(rt: HostRuntime) -> Result<(), Fail> {
    for (claim, wanted) in OF_ENTRY {
        check(&rt, rt.alloc(), ENTRY, *claim, *wanted)?;
    }
    Ok(())
}

/// At an opening no test has a value. A reload may know any links.
const OPENING: &str =
    "state a { init { if e.link.up run \"x\" } if e.link.up set-state b } state b { } state c { if e.link.up run \"y\" }";

const OF_OPENING: &[(Claim, Extent)] = &[
    (Claim::NeverIn(0), Extent::Somewhere),
    (Claim::NeverIn(1), Extent::Somewhere),
    (Claim::NeverRests(0), Extent::Nowhere),
    (Claim::NeverRuns(0), Extent::Somewhere),
];

#[test]
fn opening(rt: HostRuntime) -> Result<(), Fail> {
    for (claim, wanted) in OF_OPENING {
        check(&rt, rt.alloc(), OPENING, *claim, *wanted)?;
    }
    Ok(())
}

/// A test of two states that has failed, or that has no value. An entry takes its value.
const RESULTS: &str =
    "state a { if \"t\" every 5 set-state b } state b { if ! \"t\" every 5 { run \"x\" set-state a } } state c { if ! \"t\" every 5 run \"y\" }";

const OF_RESULTS: &[(Asked, Claim, Extent)] = &[
    (Asked::Known, Claim::NeverSettles(0), Extent::Somewhere),
    (Asked::Known, Claim::NeverSettles(1), Extent::Nowhere),
    (Asked::Known, Claim::RestsIn(0), Extent::Nowhere),
    (Asked::Known, Claim::NeverIn(0), Extent::Somewhere),
    (Asked::Known, Claim::NeverIn(1), Extent::Nowhere),
    (Asked::Known, Claim::NeverEntersWhile(0), Extent::Somewhere),
    (Asked::Known, Claim::NeverEntersWhile(1), Extent::Nowhere),
    (Asked::Known, Claim::NeverRuns(0), Extent::Somewhere),
    (Asked::Unknown, Claim::NeverRests(0), Extent::Somewhere),
    (Asked::Unknown, Claim::NeverSettles(0), Extent::Nowhere),
    (Asked::Unknown, Claim::RestsIn(2), Extent::Nowhere),
    (Asked::Unknown, Claim::NeverIn(1), Extent::Somewhere),
    (Asked::Unknown, Claim::NeverEntersWhile(0), Extent::Nowhere),
    (Asked::Unknown, Claim::NeverRuns(0), Extent::Nowhere),
    (Asked::True, Claim::NeverIn(1), Extent::Somewhere),
    (Asked::True, Claim::NeverRests(0), Extent::Somewhere),
];

#[test]
fn results(rt: HostRuntime) -> Result<(), Fail> {
    for (asked, claim, wanted) in OF_RESULTS {
        check_while(&rt, rt.alloc(), RESULTS, (*asked, *claim), *wanted)?;
    }
    Ok(())
}
