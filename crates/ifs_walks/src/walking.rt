//! Walks of a core towards facts that would break a claim.

use crate::ways::Target;
use ifs_base::{IfaceId, LinkState, StateId, TestId};
use ifs_core::Core;
use ifs_play::{LONGEST_WAIT, Move, Random, is_running, number_of, some_state};
use ifs_sched::Start;
use ifs_solver::{Domain, FactSet};
use std::alloc::Global;

/// As many ways are looked at in the time of a move.
const WAYS: usize = 64;

/// The ways of a policy from states to others, and how far each state is from the one that a walk is for.
#[derive(Drop)]
pub struct Map {
    ways: Vec<Target>,
    /// For each state, how many ways lead on to the state; none if no ways do.
    far: Vec<Option<usize>>,
    /// The state to which it was measured.
    to: Option<StateId>,
    /// Whether an allocation has failed. Then nothing that was measured counts.
    pub has_failed: bool,
}

impl Map {
    /// The map of these ways, for no state.
    pub fn new(alloc: Global, ways: Vec<Target>) -> Map {
        Map {
            ways,
            far: Vec::new(alloc),
            to: None,
            has_failed: false,
        }
    }

    /// Measures how far each of so many states is from this one. Returns the cost, in moves of a core.
    pub fn measure(&mut self, count: u16, state: StateId) -> usize {
        if self.to == Some(state) {
            return 0;
        }
        self.to = Some(state);
        self.far.clear();
        for number in 0..count {
            let far = if number == state.0 { Some(0) } else { None };
            self.has_failed |= self.far.push(far).is_err();
        }
        self.measure_rounds(count)
    }

    /// Measures round by round, so often at most. Returns the cost.
    fn measure_rounds(&mut self, count: u16) -> usize {
        let mut cost = 0usize;
        for round in 0..usize::from(count) {
            cost = cost.saturating_add(self.ways.len() / WAYS);
            if !self.measure_next(round) {
                break;
            }
        }
        cost
    }

    /// Measures the states from which one way leads to a state that is so far. Returns whether there are any.
    fn measure_next(&mut self, far: usize) -> bool {
        let mut is_any = false;
        for way in &self.ways {
            let Some(next) = way.next else {
                continue;
            };
            let next_far = far_in(self.far.as_slice(), next);
            if let Some(place) = self.far.get_mut(usize::from(way.state.0)) {
                if place.is_none() && next_far == Some(far) {
                    *place = Some(far.saturating_add(1));
                    is_any = true;
                }
            }
        }
        is_any
    }

    /// The number of a way from a state, mostly of one that leads nearer.
    fn way(&self, random: &mut Random, state: StateId) -> Option<usize> {
        let is_straight = random.below(8) != 0;
        let count = self.count_ways(state, is_straight);
        let place = random.below(count.max(1));
        self.way_at(state, is_straight, place)
    }

    /// How many ways lead from a state, or lead nearer.
    fn count_ways(&self, state: StateId, is_straight: bool) -> usize {
        let mut count = 0usize;
        for way in &self.ways {
            if self.is_way(way, state, is_straight) {
                count = count.saturating_add(1);
            }
        }
        count
    }

    /// The number of the way of these that has so many of them before it.
    fn way_at(&self, state: StateId, is_straight: bool, place: usize) -> Option<usize> {
        let mut left = place;
        for (number, way) in self.ways.iter().enumerate() {
            if self.is_way(way, state, is_straight) {
                if left == 0 {
                    return Some(number);
                }
                left -= 1;
            }
        }
        None
    }

    /// Whether a way leads from a state, and nearer if that is wanted.
    fn is_way(&self, way: &Target, state: StateId, is_straight: bool) -> bool {
        way.state.0 == state.0 && (!is_straight || self.leads_nearer(way))
    }

    /// Whether a way leads nearer.
    fn leads_nearer(&self, way: &Target) -> bool {
        let Some(next) = way.next else {
            return false;
        };
        let far = self.far.as_slice();
        match (far_in(far, next), far_in(far, way.state)) {
            (Some(there), Some(here)) => there < here,
            _ => false,
        }
    }
}

/// How far a state is.
fn far_in(far: &[Option<usize>], state: StateId) -> Option<usize> {
    match far.get(usize::from(state.0)) {
        Some(far) => *far,
        None => None,
    }
}

/// The moves of a walk. Once one could not be added, they do not count.
#[derive(Drop)]
pub struct Trail {
    /// Moves that bring facts that are wanted at present.
    near: Vec<Move>,
    pub made: Vec<Move>,
    pub has_failed: bool,
}

impl Trail {
    /// The trail of a walk that has not begun.
    pub fn new(alloc: Global) -> Trail {
        Trail {
            near: Vec::new(alloc),
            made: Vec::new(alloc),
            has_failed: false,
        }
    }

    /// Adds a move of the walk.
    pub fn put(&mut self, happens: Move) {
        self.has_failed |= self.made.push(happens).is_err();
    }

    /// Adds a move that brings a fact.
    fn put_near(&mut self, happens: Move) {
        self.has_failed |= self.near.push(happens).is_err();
    }

    /// One of the moves that bring facts.
    fn pick(&self, random: &mut Random) -> Move {
        let number = random.below(self.near.len());
        self.near.get(number).copied().unwrap_or(Move::Wait(1))
    }
}

/// A walk: what is wanted at present.
#[derive(Drop)]
pub struct Walk<'m, 't> {
    map: &'m Map,
    target: &'t Target,
    /// The state in which the present way was chosen.
    from: Option<StateId>,
    /// The number of the present way.
    way: Option<usize>,
}

impl<'m, 't> Walk<'m, 't> {
    /// A walk towards a target.
    pub fn new(map: &'m Map, target: &'t Target) -> Walk<'m, 't> {
        Walk {
            map,
            target,
            from: None,
            way: None,
        }
    }

    /// The next move of a core where these tests run. None if it may be any.
    pub fn next(
        &mut self,
        random: &mut Random,
        trail: &mut Trail,
        core: &Core<'_>,
        runs: &[Start],
    ) -> Option<Move> {
        if random.below(12) == 0 {
            return None;
        }
        let state = core.state();
        let target = self.target;
        if state.0 == target.state.0 {
            return towards(random, trail, core, runs, &target.facts);
        }
        match self.way_from(random, state) {
            Some(way) => towards(random, trail, core, runs, &way.facts),
            None => None,
        }
    }

    /// The present way in a state.
    fn way_from(&mut self, random: &mut Random, state: StateId) -> Option<&'m Target> {
        let map = self.map;
        if self.from != Some(state) || random.below(16) == 0 {
            self.from = Some(state);
            self.way = map.way(random, state);
        }
        map.ways.get(self.way?)
    }
}

/// A move towards some facts. None if it may be any.
pub(crate) fn towards(
    random: &mut Random,
    trail: &mut Trail,
    core: &Core<'_>,
    runs: &[Start],
    facts: &FactSet,
) -> Option<Move> {
    trail.near.clear();
    let lacks_link = put_links(random, trail, core, facts);
    let lacks_test = put_ends(random, trail, core, runs, facts);
    if trail.near.is_empty() || (core.owed() && random.below(3) == 0) {
        return wait(core, lacks_link || lacks_test);
    }
    Some(trail.pick(random))
}

/// Adds the moves of links that bring facts. Returns whether there are any.
fn put_links(random: &mut Random, trail: &mut Trail, core: &Core<'_>, facts: &FactSet) -> bool {
    let mut is_lacking = false;
    for (number, choice) in facts.links.iter().enumerate() {
        let interface = IfaceId(number_of(number));
        let now = core.link(interface).unwrap_or(LinkState::Unknown);
        if !choice.allows(now) {
            is_lacking = true;
            trail.put_near(Move::Link(interface, some_allowed(random, *choice)));
        }
    }
    is_lacking
}

/// Adds the ends of running tests that bring facts. Returns whether a test lacks a value that is wanted.
fn put_ends(
    random: &mut Random,
    trail: &mut Trail,
    core: &Core<'_>,
    runs: &[Start],
    facts: &FactSet,
) -> bool {
    let mut is_lacking = false;
    for (number, choice) in facts.tests.iter().enumerate() {
        let test = TestId(number_of(number));
        if lacks(*choice, core.test_value(test)) {
            is_lacking = true;
            if is_running(runs, test) {
                trail.put_near(Move::End(test, some_value(random, *choice)));
            }
        }
    }
    is_lacking
}

/// Whether a test lacks a value that is wanted, and that it may have.
fn lacks(choice: Domain, value: Option<Option<bool>>) -> bool {
    !choice.allows(value_of(value)) && (choice.down || choice.up)
}

/// Waits for the next tick or for the next test. None if nothing is lacking, or no test is due.
fn wait(core: &Core<'_>, is_lacking: bool) -> Option<Move> {
    if core.owed() {
        return Some(Move::Wait(1));
    }
    if !is_lacking {
        return None;
    }
    core.next_due()?;
    Some(Move::Wait(pause_of(core)))
}

/// How long it is to the next evaluation or test, in seconds.
pub fn pause_of(core: &Core<'_>) -> u64 {
    if core.owed() {
        return 1;
    }
    match core.next_due() {
        Some(due) => due.saturating_sub(core.now()).max(1).min(LONGEST_WAIT),
        None => 1,
    }
}

/// The value of a test by the name of a link state: unknown if it has none, down if it is false, up if it is true.
fn value_of(value: Option<Option<bool>>) -> LinkState {
    match value {
        Some(Some(false)) => LinkState::Down,
        Some(Some(true)) => LinkState::Up,
        _ => LinkState::Unknown,
    }
}

/// One of the states that a link may be in.
fn some_allowed(random: &mut Random, choice: Domain) -> LinkState {
    for _ in 0..8 {
        let state = some_state(random);
        if choice.allows(state) {
            return state;
        }
    }
    choice.first()
}

/// One of the results that a test may have.
pub fn some_value(random: &mut Random, choice: Domain) -> bool {
    if choice.down && choice.up {
        random.below(2) == 0
    } else {
        choice.up
    }
}
