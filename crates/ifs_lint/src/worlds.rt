//! Worlds: a link state for each interface, and a result for each test.

use crate::results::agrees;
use ifs_base::{IfaceId, LinkState, StateId, TestId};
use ifs_play::{LONGEST_WAIT, Move, Simulation, number_of, telling_period, word_of};
use ifs_policy::{Policy, mentions};
use ifs_report::Draft;
use ifs_solver::{Domain, FactSet};
use std::alloc::{AllocError, Global};

/// The most links and tests that a message names.
const MOST_NAMED: usize = 6;

/// A range of worlds: the states that each link may have, and the result of each test.
#[derive(Drop)]
pub(crate) struct World {
    links: Vec<Domain>,
    results: Vec<bool>,
    /// How many seconds it takes until each test that is active outside of states runs again.
    period: u64,
}

impl World {
    /// A range of worlds of a policy, with one result for each test.
    pub fn of(alloc: Global, policy: &Policy, range: &FactSet) -> Result<World, AllocError> {
        let mut links = Vec::new(alloc);
        links.extend_from_slice(range.links.as_slice())?;
        let mut results = Vec::new(alloc);
        for choice in &range.tests {
            results.push(choice.up)?;
        }
        Ok(World {
            links,
            results,
            period: period_of(policy),
        })
    }

    /// The result of each test.
    pub fn results(&self) -> &[bool] {
        self.results.as_slice()
    }

    /// Brings a core into this world, and lets so many seconds pass there, one after the other. Returns the states of a round
    /// that it made twice, if it did, since no test has a value from before.
    pub fn round_of(
        &self,
        simulation: &mut Simulation<'_>,
        seconds: usize,
    ) -> Result<Option<usize>, AllocError> {
        self.begin(simulation)?;
        let mut from = None;
        for _ in 0..seconds {
            if from.is_none() && self.is_around(simulation) {
                from = Some(simulation.entered().len().saturating_sub(1));
            }
            simulation.make(Move::Wait(1))?;
            self.end_all(simulation)?;
            let round = round_since(simulation.entered(), from);
            if round.is_some() {
                return Ok(round);
            }
        }
        Ok(None)
    }

    /// Whether each test that has a value has its result.
    fn is_around(&self, simulation: &Simulation<'_>) -> bool {
        let count = u16::try_from(self.results.len()).unwrap_or(u16::MAX);
        agrees(simulation.core(), self.results(), count)
    }

    /// The facts of a core that went a round in one of these worlds: its links, and the result of each test.
    pub fn facts(&self, alloc: Global, simulation: &Simulation<'_>) -> Result<FactSet, AllocError> {
        let mut links = Vec::new(alloc);
        for number in 0..self.links.len() {
            let link = simulation.core().link(IfaceId(number_of(number)));
            links.push(Domain::ANY.only(link.unwrap_or(LinkState::Unknown)))?;
        }
        let mut tests = Vec::new(alloc);
        for value in &self.results {
            let result = if *value {
                LinkState::Up
            } else {
                LinkState::Down
            };
            tests.push(Domain::RESULT.only(result))?;
        }
        Ok(FactSet { links, tests })
    }

    /// Brings a core into one of these worlds: each link has a state of it, and each test that is active outside of states its
    /// value. A link that has such a state keeps it.
    fn begin(&self, simulation: &mut Simulation<'_>) -> Result<(), AllocError> {
        for (index, choice) in self.links.iter().enumerate() {
            bring(simulation, IfaceId(number_of(index)), *choice)?;
        }
        self.end_all(simulation)?;
        // at the opening each test is due
        let seconds = if simulation.now() == 0 {
            1
        } else {
            self.period
        };
        simulation.make(Move::Wait(seconds))?;
        self.end_all(simulation)
    }

    /// Ends each run of a test with its result.
    fn end_all(&self, simulation: &mut Simulation<'_>) -> Result<(), AllocError> {
        for _ in 0..simulation.runs().len() {
            let Some(start) = simulation.runs().first().copied() else {
                return Ok(());
            };
            let value = self.result(start.test);
            simulation.make(Move::End(start.test, value))?;
        }
        Ok(())
    }

    /// The result of a test.
    fn result(&self, test: TestId) -> bool {
        match self.results.get(usize::from(test.0)) {
            Some(value) => *value,
            None => false,
        }
    }
}

/// How many seconds it takes until each test that the body outside any state mentions runs again: one if there is no such test.
fn period_of(policy: &Policy) -> u64 {
    for number in 0..policy.counts().tests {
        if mentions(TestId(number), &policy.always().body) {
            return LONGEST_WAIT;
        }
    }
    1
}

/// Brings a link into one of some states, unless it is in one of them.
fn bring(
    simulation: &mut Simulation<'_>,
    interface: IfaceId,
    choice: Domain,
) -> Result<(), AllocError> {
    match simulation.core().link(interface) {
        Some(state) if choice.allows(state) => Ok(()),
        _ => simulation.make(Move::Link(interface, choice.first())),
    }
}

/// The number of states of a round that states end twice, if there is one behind a place.
fn round_since(states: &[StateId], from: Option<usize>) -> Option<usize> {
    round_at_end(states.get(from?..)?)
}

/// The number of states of a round that the last of some states end twice, if there is one.
fn round_at_end(states: &[StateId]) -> Option<usize> {
    let (last, before) = states.split_last()?;
    let place = last_place(before, *last)?;
    let length = before.len().saturating_sub(place);
    let start = place.checked_sub(length)?;
    let once = states.get(start..place)?;
    let again = states.get(place..before.len())?;
    if once == again { Some(length) } else { None }
}

/// The place at which a state comes last among some.
fn last_place(states: &[StateId], wanted: StateId) -> Option<usize> {
    let mut place = None;
    for (index, state) in states.iter().enumerate() {
        if *state == wanted {
            place = Some(index);
        }
    }
    place
}

/// Says what is so in a range of worlds, as ` while ..`.
pub(crate) fn put_worlds(draft: &mut Draft, policy: &Policy, range: &FactSet) {
    let links = put_links(draft, policy, range.links.as_slice());
    let named = put_tests(draft, policy, range.tests.as_slice(), links);
    let others = named.saturating_sub(MOST_NAMED);
    if others > 0 {
        let added = write!(draft.report.message, " and {others} more");
        draft.keep(added);
    }
}

/// Says which states links may be in, where not any. Returns how many these are.
fn put_links(draft: &mut Draft, policy: &Policy, links: &[Domain]) -> usize {
    let mut named = 0usize;
    for (index, choice) in links.iter().enumerate() {
        if choice.unknown && choice.down && choice.up {
            continue;
        }
        if named < MOST_NAMED {
            draft.say(before(named));
            put_link(draft, policy, IfaceId(number_of(index)), *choice);
        }
        named = named.saturating_add(1);
    }
    named
}

/// Says which results tests have, where not any, behind so many links. Returns how many these are together.
fn put_tests(draft: &mut Draft, policy: &Policy, tests: &[Domain], links: usize) -> usize {
    let mut named = links;
    for (index, choice) in tests.iter().enumerate() {
        if choice.down && choice.up {
            continue;
        }
        if named < MOST_NAMED {
            draft.say(before(named));
            put_test(draft, policy, TestId(number_of(index)), choice.up);
        }
        named = named.saturating_add(1);
    }
    named
}

/// What comes before a link or a test.
fn before(named: usize) -> &'static str {
    if named == 0 { " while " } else { ", " }
}

/// Says which states a link may be in.
fn put_link(draft: &mut Draft, policy: &Policy, interface: IfaceId, choice: Domain) {
    if let Some(name) = policy.interface(interface) {
        draft.say(name.as_str());
    }
    let mut link = " is ";
    for state in [LinkState::Unknown, LinkState::Down, LinkState::Up] {
        if choice.allows(state) {
            draft.say(link);
            draft.say(word_of(state));
            link = " or ";
        }
    }
}

/// Says the result of a test, which is named by its command, and also by its period if another test has the same command.
fn put_test(draft: &mut Draft, policy: &Policy, test: TestId, value: bool) {
    let index = usize::from(test.0);
    draft.say("`");
    if let Some(test) = policy.test(test) {
        draft.say(test.command.as_str());
    }
    draft.say("`");
    if let Some(seconds) = telling_period(&policy.tables().tests, index) {
        let added = write!(draft.report.message, " every {seconds}");
        draft.keep(added);
    }
    draft.say(if value { " is true" } else { " is false" });
}
