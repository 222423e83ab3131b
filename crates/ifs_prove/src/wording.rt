//! What is so when a claim is broken, in words.

ghost use Rattle.std.specs.Prelude.{◌≡◌, ◌||◌};
ghost use Rattle.ifs_prove.specs.inner.Facts.{is_of_link};

use crate::facts::{is_open, link_seen, test_seen};
use crate::fronts::Front;
use crate::making::tells;
use crate::trial::{Ending, Trial};
use ifs_base::{CommandId, IfaceId, LinkState, StateId, TestId};
use ifs_claim_parse::Claim;
use ifs_core::{Core, Reply, Step};
use ifs_parse::Condition;
use ifs_play::{make_step, make_steps, number_of, telling_period, word_of};
use ifs_policy::{Policy, Single, SingleVisitor, mentions, mentions_in, visit_condition};
use ifs_terminal::Draft;
use std::alloc::{AllocError, Global};

/// The most characters of a command in a message.
const MOST_CHARACTERS: usize = 60;

/// The most links, tests or states that a message names.
const MOST_NAMED: usize = 8;

/// The known ones of some links, as `carp0 up, carp1 down`.
pub(crate) fn links_in_words(
    alloc: Global,
    policy: &Policy,
    links: &[LinkState],
) -> Result<String, AllocError> {
    let mut words = Draft::new(alloc);
    put_known(&mut words, policy, links);
    words.into_text()
}

/// Adds the known ones of some links.
fn put_known(words: &mut Draft, policy: &Policy, links: &[LinkState]) {
    let mut before = "";
    for (number, link) in links.iter().enumerate() {
        if *link != LinkState::Unknown {
            words.put(before);
            put_link(words, policy, IfaceId(number_of(number)), *link);
            before = ", ";
        }
    }
}

/// What is so when a core that was just opened has made the steps of a trial that breaks a claim.
pub(crate) fn situation_of(
    alloc: Global,
    policy: &Policy,
    core: &mut Core<'_>,
    claim: &Claim,
    trial: &Trial,
    front: Front,
) -> Result<String, AllocError> {
    let mut words = Draft::new(alloc);
    put_end(&mut words, policy, core, claim, trial, front);
    words.into_text()
}

/// Makes the steps of a trial, and adds what is so then.
fn put_end(
    words: &mut Draft,
    policy: &Policy,
    core: &mut Core<'_>,
    claim: &Claim,
    trial: &Trial,
    front: Front,
) {
    make_steps(core, trial.begun.as_slice());
    match &trial.ending {
        Ending::There => put_situation(words, policy, core, claim),
        Ending::By(step) => put_step(words, policy, core, claim, *step),
        Ending::Opening => put_opening(words, policy, core, claim),
        Ending::Within(steps, _) => {
            put_changes(words, policy, core, claim, steps.as_slice(), front);
        }
    }
}

/// Adds the state of a core, the links that matter, and the tests that have no value.
fn put_situation(words: &mut Draft, policy: &Policy, core: &Core<'_>, claim: &Claim) {
    put_state(words, policy, core.state());
    match claim.premise() {
        Some(premise) => {
            let condition = &premise.condition;
            put_links(words, policy, core, condition);
            put_results(words, policy, core, condition);
            put_open(words, policy, core, condition);
        }
        None => words.put(" is entered"),
    }
}

/// Makes a step, and adds what it does.
fn put_step(words: &mut Draft, policy: &Policy, core: &mut Core<'_>, claim: &Claim, step: Step) {
    let before = core.state();
    if let Claim::NeverEntersWhile(_, premise) | Claim::NeverRuns(_, premise) = claim {
        put_seen(words, policy, core, &premise.condition, step);
    }
    let reply = core.step(step);
    if let Claim::NeverRuns(commands, _) = claim {
        put_state(words, policy, core.state());
        words.put(if before == core.state() {
            ", "
        } else {
            " is entered, "
        });
        put_run(words, policy, commands.as_slice(), &reply);
        return;
    }
    put_state(words, policy, before);
    words.put(" is left, ");
    put_state(words, policy, core.state());
    words.put(" is entered");
}

/// Adds the first of some commands that a step queued.
fn put_run(words: &mut Draft, policy: &Policy, commands: &[CommandId], reply: &Reply) {
    for command in commands {
        if tells(reply, *command) {
            put_command(words, policy, *command);
            words.put(" runs");
            return;
        }
    }
}

/// Adds the facts of a condition that a step of a core sees, as "carp0 up, `ping ..` is false: ".
fn put_seen(
    words: &mut Draft,
    policy: &Policy,
    core: &Core<'_>,
    condition: &Condition<Single>,
    step: Step,
) {
    let links = put_links_seen(words, policy, core, condition, step);
    let named = put_values_seen(words, policy, core, condition, step, links);
    words.put(if named == 0 { "" } else { ": " });
}

/// Adds the links of a condition that a step sees. Returns how many these are.
fn put_links_seen(
    words: &mut Draft,
    policy: &Policy,
    core: &Core<'_>,
    condition: &Condition<Single>,
    step: Step,
) -> usize {
    let mut named = 0usize;
    for number in 0..policy.counts().interfaces {
        let interface = IfaceId(number);
        if mentions_link(condition, Some(interface)) && named < MOST_NAMED {
            let link = link_seen(core, step, interface).unwrap_or(LinkState::Unknown);
            words.put(if named == 0 { "" } else { ", " });
            put_link(words, policy, interface, link);
            named = named.saturating_add(1);
        }
    }
    named
}

/// Adds the tests of a condition that a step sees, behind so many links. Returns how many these are together.
fn put_values_seen(
    words: &mut Draft,
    policy: &Policy,
    core: &Core<'_>,
    condition: &Condition<Single>,
    step: Step,
    links: usize,
) -> usize {
    let mut named = links;
    for number in 0..policy.counts().tests {
        let test = TestId(number);
        if mentions_in(test, condition) && named < MOST_NAMED {
            words.put(if named == 0 { "" } else { ", " });
            put_test(words, policy, test);
            words.put(match test_seen(core, step, test) {
                Some(Some(true)) => " is true",
                Some(Some(false)) => " is false",
                _ => " has no value",
            });
            named = named.saturating_add(1);
        }
    }
    named
}

/// Adds the first of the commands of a claim that an opening runs. Takes commands from the queue of the core.
fn put_opening(words: &mut Draft, policy: &Policy, core: &mut Core<'_>, claim: &Claim) {
    words.put("at the opening ");
    if let Claim::NeverRuns(commands, _) = claim
        && let Some(command) = first_waiting(core, commands.as_slice())
    {
        put_command(words, policy, command);
    }
    words.put(" runs");
}

/// The first command of the queue of a core that is one of some. Takes it, and those before it.
fn first_waiting(core: &mut Core<'_>, commands: &[CommandId]) -> Option<CommandId> {
    for _ in 0..core.queue_len() {
        let command = core.take()?;
        if commands.contains(&command) {
            return Some(command);
        }
    }
    None
}

/// Makes the steps that are printed, and adds the states that follow each other.
fn put_changes(
    words: &mut Draft,
    policy: &Policy,
    core: &mut Core<'_>,
    claim: &Claim,
    steps: &[Step],
    front: Front,
) {
    put_state(words, policy, core.state());
    let mut count = 0usize;
    for step in front.of(steps) {
        let before = core.state();
        make_step(core, *step);
        if before != core.state() {
            count = count.saturating_add(1);
            put_next(words, policy, core.state(), count);
        }
    }
    match claim {
        Claim::RestsWithin(most) if front.is_round => {
            words.put(", and so on");
            put_count(words, usize::from(*most).saturating_add(1));
        }
        _ => {
            words.put(if count < MOST_NAMED { "" } else { ", .." });
            put_count(words, count);
        }
    }
}

/// Adds how many changes there are.
fn put_count(words: &mut Draft, count: usize) {
    words.put(": ");
    words.add(count);
    words.put(if count == 1 { " change" } else { " changes" });
}

/// Adds a state that is entered, unless so many are named already.
fn put_next(words: &mut Draft, policy: &Policy, state: StateId, count: usize) {
    if count < MOST_NAMED {
        words.put(", ");
        put_state(words, policy, state);
    }
}

/// Adds the name of a state.
fn put_state(words: &mut Draft, policy: &Policy, state: StateId) {
    if let Some(name) = policy.state(state) {
        put_between(words, "`", name.as_str());
    }
}

/// Adds a link with its state.
fn put_link(words: &mut Draft, policy: &Policy, interface: IfaceId, link: LinkState) {
    if let Some(name) = policy.interface(interface) {
        words.put(name.as_str());
    }
    words.put(" ");
    words.put(word_of(link));
}

/// Adds the command of a `run`.
fn put_command(words: &mut Draft, policy: &Policy, command: CommandId) {
    if let Some(text) = policy.command(command) {
        put_between(words, "\"", text.as_str());
    }
}

/// Adds the command of a test, and its period if another test has the same command.
fn put_test(words: &mut Draft, policy: &Policy, test: TestId) {
    let index = usize::from(test.0);
    if let Some(test) = policy.test(test) {
        put_between(words, "`", test.command.as_str());
    }
    if let Some(seconds) = telling_period(&policy.tables().tests, index) {
        words.put(" every ");
        words.add(seconds);
    }
}

/// Adds a text between two signs, on one line and cut.
fn put_between(words: &mut Draft, sign: &str, text: &str) {
    words.put(sign);
    put_cut(words, text);
    words.put(sign);
}

/// Adds the first characters of a text, on one line.
fn put_cut(words: &mut Draft, text: &str) {
    let mut count = 0usize;
    let mut is_blank = false;
    for character in text.chars() {
        let blank = matches!(character, ' ' | '\t' | '\n' | '\r');
        if count >= MOST_CHARACTERS {
            words.put("..");
            return;
        }
        if !blank || !is_blank {
            words.add(if blank { ' ' } else { character });
            count = count.saturating_add(1);
        }
        is_blank = blank;
    }
}

/// Adds the links that a condition mentions, or those that are not unknown if it mentions none.
fn put_links(words: &mut Draft, policy: &Policy, core: &Core<'_>, condition: &Condition<Single>) {
    let is_about_links = mentions_link(condition, None);
    let mut named = 0usize;
    for number in 0..policy.counts().interfaces {
        let interface = IfaceId(number);
        let link = core.link(interface).unwrap_or(LinkState::Unknown);
        let is_named = if is_about_links {
            mentions_link(condition, Some(interface))
        } else {
            link != LinkState::Unknown
        };
        if is_named && named < MOST_NAMED {
            named = named.saturating_add(1);
            words.put(", ");
            put_link(words, policy, interface, link);
        }
    }
}

/// Adds the results of the tests that a condition mentions.
fn put_results(words: &mut Draft, policy: &Policy, core: &Core<'_>, condition: &Condition<Single>) {
    let mut named = 0usize;
    for number in 0..policy.counts().tests {
        let test = TestId(number);
        if let Some(Some(value)) = core.test_value(test) {
            if mentions_in(test, condition) && named < MOST_NAMED {
                named = named.saturating_add(1);
                words.put(", ");
                put_test(words, policy, test);
                words.put(if value { " is true" } else { " is false" });
            }
        }
    }
}

/// Adds the tests without a value that a condition mentions, or a body that is evaluated.
fn put_open(words: &mut Draft, policy: &Policy, core: &Core<'_>, condition: &Condition<Single>) {
    let count = count_open(policy, core, condition);
    let mut named = 0usize;
    for number in 0..policy.counts().tests {
        let test = TestId(number);
        if lacks(policy, core, condition, test) && named < MOST_NAMED {
            words.put(before_test(named, count));
            put_test(words, policy, test);
            named = named.saturating_add(1);
        }
    }
    words.put(match count {
        0 => "",
        1 => " has no value yet",
        _ => " have no value yet",
    });
}

/// What comes before a test, by how many are named and how many there are.
fn before_test(named: usize, count: usize) -> &'static str {
    if named == 0 {
        if count == 1 {
            ": the test "
        } else {
            ": the tests "
        }
    } else if named.saturating_add(1) == count {
        " and "
    } else {
        ", "
    }
}

/// How many tests have no value that a condition mentions, or a body that is evaluated.
fn count_open(policy: &Policy, core: &Core<'_>, condition: &Condition<Single>) -> usize {
    let mut count = 0usize;
    for number in 0..policy.counts().tests {
        if lacks(policy, core, condition, TestId(number)) {
            count = count.saturating_add(1);
        }
    }
    count.min(MOST_NAMED)
}

/// Whether a test has no value, and a condition mentions it or a body that is evaluated.
fn lacks(policy: &Policy, core: &Core<'_>, condition: &Condition<Single>, test: TestId) -> bool {
    if !is_open(core, test) {
        return false;
    }
    let own = match policy.handlers(core.state()) {
        Some(part) => mentions(test, &part.body),
        None => false,
    };
    own || mentions(test, &policy.always().body) || mentions_in(test, condition)
}

/// A search for the link of an interface, or for any link.
#[derive(Clone, Copy)]
struct LinkSearch {
    interface: Option<IfaceId>,
    is_found: bool,
}

impl SingleVisitor for LinkSearch {
    ghost after = { λ s single. record { interface = s.interface; is_found = s.is_found || is_of_link s.interface single } };

    fn visit(&mut self, single: Single) {
        let is_of_link = is_of_link(self.interface, single);
        self.is_found = self.is_found || is_of_link;
    }
}

/// Whether a single test is of the link of an interface, or of any link.
fn is_of_link(interface: Option<IfaceId>, single: Single) -> bool
    ensures { result ≡ is_of_link interface single }
{
    match (interface, single) {
        (None, Single::LinkIs(_, _)) => true,
        (Some(other), Single::LinkIs(interface, _)) => other.0 == interface.0,
        (_, Single::TestIs(_)) => false,
    }
}

/// Whether a condition mentions the link of an interface, or any link.
fn mentions_link(condition: &Condition<Single>, interface: Option<IfaceId>) -> bool {
    let mut search = LinkSearch {
        interface,
        is_found: false,
    };
    visit_condition(&mut search, condition);
    search.is_found
}
