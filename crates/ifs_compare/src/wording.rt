//! The words of differences.

ghost use Rattle.std.specs.Prelude.{◌<◌, OnOk, length};

use crate::answers::Difference;
use crate::choosing::Witness;
use crate::evaluating::{Moment, Outcome, Outcomes};
use crate::sides::Stage;
use ifs_base::{CommandId, LinkState, StateId, TestId};
use ifs_play::{CompiledPolicy, telling_period, word_of};
use ifs_policy::ExternalTest;
use ifs_solver::Domain;
use ifs_terminal::Draft;
use std::alloc::{AllocError, Global};

/// What may differ in two policies.
#[derive(Clone, Copy)]
pub(crate) enum Question {
    /// The inits outside any state.
    Opening,
    /// The bodies outside any state.
    Always,
    /// The inits of a state.
    Init(StateId),
    /// Evaluations in a state.
    Body(StateId),
}

/// Why a question is not decided.
#[derive(Clone, Copy)]
pub(crate) enum Reason {
    /// The situations that a search may look at are used up.
    Budget,
    /// No facts were found under which an event differs.
    NoFacts,
}

/// The most commands that a line names of one policy.
const MOST_COMMANDS: usize = 6;

/// Adds a difference: what differs, the name of the state that it is about or nothing, and request lines.
pub(crate) fn put_difference(
    alloc: Global,
    report: Draft,
    state: &str,
    requests: String,
    differences: &mut Vec<Difference>,
) -> Result<(), AllocError>
    ensures { OnOk result (0 < length differences.new.items) }
{
    let difference = difference_of(alloc, report, state, requests)?;
    differences.push(difference)?;
    Ok(())
}

/// A difference with these words.
fn difference_of(
    alloc: Global,
    report: Draft,
    state: &str,
    requests: String,
) -> Result<Difference, AllocError> {
    let state = String::from_str(alloc, state)?;
    let report = report.into_text()?;
    Ok(Difference {
        report,
        state,
        requests,
        line: 0,
    })
}

/// Adds a difference about no state, without request lines.
pub(crate) fn put_report(
    alloc: Global,
    report: Draft,
    differences: &mut Vec<Difference>,
) -> Result<(), AllocError>
    ensures { OnOk result (0 < length differences.new.items) }
{
    put_difference(alloc, report, "", String::new(alloc), differences)?;
    Ok(())
}

/// Adds a text between two marks, on one line.
fn put_between(words: &mut Draft, mark: char, text: &str) {
    words.add(mark);
    for character in text.chars() {
        let is_control = matches!(character, '\n' | '\r' | '\t');
        words.add(if is_control { ' ' } else { character });
    }
    words.add(mark);
}

/// Adds a name between backquotes.
fn put_quoted(words: &mut Draft, text: &str) {
    put_between(words, '`', text)
}

/// Adds that nothing is decided.
pub(crate) fn put_all_open(alloc: Global, undecided: &mut Vec<Difference>) -> Result<(), AllocError>
    ensures { OnOk result (0 < length undecided.new.items) }
{
    let mut words = Draft::new(alloc);
    words.put("whether the policies do the same is not decided");
    let question = difference_of(alloc, words, "", String::new(alloc))?;
    undecided.push(question)?;
    Ok(())
}

/// That a question is not decided.
pub(crate) fn open_words(stage: &Stage<'_>, question: Question, reason: Reason) -> Draft {
    let mut words = Draft::new(stage.alloc);
    match question {
        Question::Opening => words.put("the opening"),
        Question::Always => words.put("outside any state"),
        Question::Init(state) | Question::Body(state) => put_state(&mut words, stage, state),
    }
    words.put(match question {
        Question::Opening => ": whether it runs the same commands",
        Question::Always => ": whether the bodies do the same",
        Question::Init(_) => ": whether its entry runs the same commands",
        Question::Body(_) => ": whether its evaluations do the same",
    });
    words.put(match reason {
        Reason::Budget => " is not decided, since the budget is used up",
        Reason::NoFacts => " is not decided, since no facts were found that show a difference",
    });
    words
}

/// That only one policy has a name of some kind.
pub(crate) fn missing_words(alloc: Global, side: &str, kind: &str, name: &str) -> Draft {
    let mut words = Draft::new(alloc);
    words.put("only ");
    words.put(side);
    words.put(" has the ");
    words.put(kind);
    words.put(" ");
    put_quoted(&mut words, name);
    words
}

/// That a test has another period in the new policy.
pub(crate) fn period_words(alloc: Global, before: &ExternalTest, test: &ExternalTest) -> Draft {
    let mut words = Draft::new(alloc);
    words.put("the test ");
    put_quoted(&mut words, test.command.as_str());
    words.put(" runs every ");
    words.add(before.period.seconds());
    words.put(" in OLD and every ");
    words.add(test.period.seconds());
    words.put(" in NEW");
    words
}

/// That the initial states differ.
pub(crate) fn initial_words(stage: &Stage<'_>) -> Draft {
    let mut words = Draft::new(stage.alloc);
    words.put("the initial state is ");
    put_quoted(&mut words, stage.state_name(stage.sides.old.initial));
    words.put(" in OLD and ");
    put_quoted(&mut words, stage.state_name(stage.sides.new.initial));
    words.put(" in NEW");
    words
}

/// That a test is active in one policy alone: in a state, or outside any.
pub(crate) fn active_words(
    stage: &Stage<'_>,
    state: Option<StateId>,
    test: TestId,
    in_old: bool,
) -> Draft {
    let mut words = Draft::new(stage.alloc);
    match state {
        Some(state) => put_state(&mut words, stage, state),
        None => words.put("outside any state"),
    }
    words.put(": the test ");
    put_test(&mut words, stage, usize::from(test.0));
    words.put(if in_old {
        " is active in OLD and not in NEW"
    } else {
        " is active in NEW and not in OLD"
    });
    words
}

/// Adds the command of a test, and its period if another test has the same command.
fn put_test(words: &mut Draft, stage: &Stage<'_>, index: usize) {
    if let Some(test) = stage.tables.tests.get(index) {
        put_quoted(words, test.command.as_str());
    }
    if let Some(seconds) = telling_period(&stage.tables.tests, index) {
        words.put(" every ");
        words.add(seconds);
    }
}

/// Adds a state with its name.
fn put_state(words: &mut Draft, stage: &Stage<'_>, state: StateId) {
    words.put("state ");
    put_quoted(words, stage.state_name(state));
}

/// Reports that events of two policies do not queue as many commands at most.
pub(crate) fn report_rooms(
    alloc: Global,
    old: &CompiledPolicy,
    new: &CompiledPolicy,
    differences: &mut Vec<Difference>,
) -> Result<(), AllocError>
    ensures { OnOk result (0 < length differences.new.items) }
{
    let (old, new) = (old.budgets().commands, new.budgets().commands);
    let mut words = Draft::new(alloc);
    words.put("the greatest number of commands of an event is ");
    words.add(old);
    words.put(" in OLD and ");
    words.add(new);
    words.put(" in NEW, so `busy` may come at another length of the queue");
    put_report(alloc, words, differences)?;
    Ok(())
}

/// The facts under which two policies differ, and what they do then.
pub(crate) fn witness_words(stage: &Stage<'_>, witness: &Witness) -> Draft {
    let mut words = Draft::new(stage.alloc);
    match witness.moment {
        Moment::Opening => words.put("the opening"),
        Moment::In(state) => put_state(&mut words, stage, state),
    }
    words.put(":");
    put_facts(&mut words, stage, witness);
    put_outcomes(&mut words, stage, &witness.outcomes);
    words
}

/// What comes before the next fact.
fn before(named: usize) -> &'static str {
    if named == 0 { " while " } else { ", " }
}

/// Adds the facts.
fn put_facts(words: &mut Draft, stage: &Stage<'_>, witness: &Witness) {
    let links = put_links(words, stage, witness);
    let named = put_tests(words, stage, witness, links);
    if named > 0 {
        words.put(",");
    }
}

/// Adds what is so of links. Returns how many are named.
fn put_links(words: &mut Draft, stage: &Stage<'_>, witness: &Witness) -> usize {
    let mut named = 0usize;
    for (index, choice) in witness.range.links.iter().enumerate() {
        if is_open(*choice) {
            continue;
        }
        if let Some(name) = stage.tables.interfaces.get(index) {
            words.put(before(named));
            words.put(name.as_str());
            put_link(words, *choice);
            named = named.saturating_add(1);
        }
    }
    named
}

/// Adds what is so of tests. Those that only need a value are counted. Returns how many facts are named.
fn put_tests(words: &mut Draft, stage: &Stage<'_>, witness: &Witness, links: usize) -> usize {
    let mut named = links;
    let mut others = 0usize;
    for (index, choice) in witness.range.tests.iter().enumerate() {
        if is_open(*choice) {
            continue;
        }
        if is_any_value(*choice) {
            others = others.saturating_add(1);
        } else {
            words.put(before(named));
            put_test(words, stage, index);
            words.put(test_words(*choice));
            named = named.saturating_add(1);
        }
    }
    put_others(words, named, others)
}

/// Adds how many tests only need a value. Returns how many facts are named.
fn put_others(words: &mut Draft, named: usize, others: usize) -> usize {
    if others == 0 {
        return named;
    }
    words.put(before(named));
    let more = if named == 0 { "" } else { " more" };
    if others == 1 {
        words.put("one");
        words.put(more);
        words.put(" test has a value");
    } else {
        words.add(others);
        words.put(more);
        words.put(" tests have values");
    }
    named.saturating_add(1)
}

/// Whether a test may have any value, but has one.
fn is_any_value(choice: Domain) -> bool {
    !choice.unknown && choice.down && choice.up
}

/// Whether a fact may have any value.
fn is_open(choice: Domain) -> bool {
    choice.unknown && choice.down && choice.up
}

/// Adds the states that a link may be in.
fn put_link(words: &mut Draft, choice: Domain) {
    let mut link = " is ";
    for state in [LinkState::Unknown, LinkState::Down, LinkState::Up] {
        if choice.allows(state) {
            words.put(link);
            words.put(word_of(state));
            link = " or ";
        }
    }
}

/// What is so of a test.
fn test_words(choice: Domain) -> &'static str {
    match (choice.unknown, choice.down, choice.up) {
        (false, _, true) => " is true",
        (false, _, false) => " is false",
        (true, false, false) => " has no value",
        (true, true, false) => " is false or has no value",
        (true, _, _) => " is true or has no value",
    }
}

/// Adds what both policies do.
fn put_outcomes(words: &mut Draft, stage: &Stage<'_>, outcomes: &Outcomes) {
    let (old, new) = (&outcomes.old, &outcomes.new);
    let (some, others) = (old.commands.as_slice(), new.commands.as_slice());
    if old.next == new.next {
        put_instead(words, stage, some, others);
        put_way(words, stage, old.next);
        return;
    }
    let with_commands = some != others;
    words.put(" OLD ");
    put_outcome(words, stage, old, with_commands);
    words.put(if with_commands { "; NEW " } else { " and NEW " });
    put_outcome(words, stage, new, with_commands);
}

/// Adds the commands of both without those that are the same at the front and at the back.
fn put_instead(words: &mut Draft, stage: &Stage<'_>, old: &[CommandId], new: &[CommandId]) {
    let front = same_front(old, new);
    let (old, new) = (rest(old, front), rest(new, front));
    let back = same_back(old, new);
    words.put(" NEW runs ");
    put_commands(words, stage, without_last(new, back));
    words.put(" instead of ");
    put_commands(words, stage, without_last(old, back));
}

/// How many commands are the same at the front.
fn same_front(some: &[CommandId], others: &[CommandId]) -> usize {
    let mut count = 0usize;
    for (one, other) in some.iter().zip(others.iter()) {
        if one.0 != other.0 {
            return count;
        }
        count = count.saturating_add(1);
    }
    count
}

/// How many commands are the same at the back.
fn same_back(some: &[CommandId], others: &[CommandId]) -> usize {
    let mut count = 0usize;
    for (one, other) in some.iter().rev().zip(others.iter().rev()) {
        if one.0 != other.0 {
            return count;
        }
        count = count.saturating_add(1);
    }
    count
}

/// The commands after the first ones.
fn rest(commands: &[CommandId], front: usize) -> &[CommandId] {
    commands.get(front..).unwrap_or(&[])
}

/// The commands before the last ones.
fn without_last(commands: &[CommandId], back: usize) -> &[CommandId] {
    let count = commands.len().saturating_sub(back);
    commands.get(..count).unwrap_or(commands)
}

/// Adds where both lead.
fn put_way(words: &mut Draft, stage: &Stage<'_>, next: Option<StateId>) {
    if let Some(state) = next {
        words.put(" on the way to ");
        put_quoted(words, stage.state_name(state));
    }
}

/// Adds where a policy leads, and the commands that it runs.
fn put_outcome(words: &mut Draft, stage: &Stage<'_>, outcome: &Outcome, with_commands: bool) {
    match outcome.next {
        Some(state) => {
            words.put("leads to ");
            put_quoted(words, stage.state_name(state));
        }
        None => words.put("stays"),
    }
    if with_commands {
        words.put(" and runs ");
        put_commands(words, stage, outcome.commands.as_slice());
    }
}

/// Adds commands.
fn put_commands(words: &mut Draft, stage: &Stage<'_>, commands: &[CommandId]) {
    if commands.len() == 0 {
        words.put("nothing");
    }
    for (index, command) in commands.iter().enumerate() {
        if index < MOST_COMMANDS {
            words.put(if index == 0 { "" } else { ", " });
            put_between(words, '"', stage.command_text(*command));
        }
    }
    let others = commands.len().saturating_sub(MOST_COMMANDS);
    if others > 0 {
        words.put(" and ");
        words.add(others);
        words.put(" more");
    }
}
