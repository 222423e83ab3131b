//! Which states a core enters. From each state that was entered, walks go towards facts which lead to one that was not.

use crate::walking::{Trail, towards};
use crate::ways::{Target, Ways};
use ifs_base::{LinkState, StateId};
use ifs_play::{Allowance, Move, Random, Simulation, opened_knowing, some_move};
use ifs_policy::Policy;
use ifs_solver::{Budget, FactSet};
use std::alloc::{AllocError, Global};

/// The most moves of cores.
const MOVES: usize = 60_000;

/// The most moves from one state to another.
const LENGTH: usize = 40;

/// How often each way is tried.
const TRIES: u64 = 6;

/// How a core first entered a state.
#[derive(Drop)]
struct Entry {
    /// The state before.
    from: StateId,
    /// The moves from there.
    moves: Vec<Move>,
    /// The links that a reload knows, if the moves begin at one.
    links: Vec<LinkState>,
}

/// Moves from an opening.
#[derive(Drop)]
pub struct Route {
    /// The links that a reload knows, if it is one.
    pub links: Vec<LinkState>,
    pub moves: Vec<Move>,
}

/// The states that a core entered, each with how it did. No clause says which these are: a caller makes the moves on a core.
#[derive(Drop)]
pub struct Visits<'p, 'i> {
    alloc: Global,
    policy: &'p Policy,
    image: &'i [u8],
    /// For each state how it was entered first, if it was.
    entries: Vec<Option<Entry>>,
    /// The states that were entered, in this order.
    order: Vec<StateId>,
    allowance: Allowance,
}

impl<'p, 'i> Visits<'p, 'i> {
    /// The states that walks enter on the image of a policy. Without an image there are none but the initial one. The budget is for the
    /// search for ways. Returns an error if an allocation fails.
    pub fn of(
        alloc: Global,
        policy: &'p Policy,
        image: &'i [u8],
        budget: Budget,
    ) -> Result<Visits<'p, 'i>, AllocError> {
        let mut ways = Ways::new(alloc, policy, budget);
        ways.put_all();
        let (ways, _) = ways.into_found()?;
        let mut visits = Visits::new(alloc, policy, image)?;
        for number in 0..TRIES {
            visits.go_on(ways.as_slice(), number)?;
        }
        Ok(visits)
    }

    /// Only the initial state was entered.
    fn new(
        alloc: Global,
        policy: &'p Policy,
        image: &'i [u8],
    ) -> Result<Visits<'p, 'i>, AllocError> {
        let mut entries = Vec::new(alloc);
        for _ in 0..policy.counts().states {
            entries.push(None)?;
        }
        let initial = policy.initial();
        let mut visits = Visits {
            alloc,
            policy,
            image,
            entries,
            order: Vec::new(alloc),
            allowance: Allowance { left: MOVES },
        };
        visits.keep(
            initial,
            Entry {
                from: initial,
                moves: Vec::new(alloc),
                links: Vec::new(alloc),
            },
        )?;
        Ok(visits)
    }

    /// The image on which cores were opened. It has no bytes if the code of the policy exceeds a limit.
    pub fn image(&self) -> &'i [u8] {
        self.image
    }

    /// Whether a core made walks, and entered no such state.
    pub fn misses(&self, state: StateId) -> bool {
        !self.image.is_empty() && !self.has(state)
    }

    /// Whether a core entered a state.
    fn has(&self, state: StateId) -> bool {
        self.entry(state).is_some()
    }

    /// The route to a state, if a core entered it.
    pub fn route_to(&self, state: StateId) -> Result<Option<Route>, AllocError> {
        let mut states = Vec::new(self.alloc);
        let mut current = state;
        for _ in 0..self.entries.len() {
            let Some(entry) = self.entry(current) else {
                return Ok(None);
            };
            states.push(current)?;
            if current == self.policy.initial() || !entry.links.is_empty() {
                break;
            }
            current = entry.from;
        }
        Ok(Some(self.route_through(states.as_slice())?))
    }

    /// The route through these states, the last one first.
    fn route_through(&self, states: &[StateId]) -> Result<Route, AllocError> {
        let mut route = Route {
            links: Vec::new(self.alloc),
            moves: Vec::new(self.alloc),
        };
        for state in states.iter().rev() {
            if let Some(entry) = self.entry(*state) {
                route.links.extend_from_slice(entry.links.as_slice())?;
                route.moves.extend_from_slice(entry.moves.as_slice())?;
            }
        }
        Ok(route)
    }

    /// How a state was entered.
    fn entry(&self, state: StateId) -> Option<&Entry> {
        match self.entries.get(usize::from(state.0)) {
            Some(Some(entry)) => Some(entry),
            _ => None,
        }
    }

    /// Keeps how a state was entered, unless it was before. Returns whether it was not.
    fn keep(&mut self, state: StateId, entry: Entry) -> Result<bool, AllocError> {
        match self.entries.get_mut(usize::from(state.0)) {
            Some(place) if place.is_none() => {
                *place = Some(entry);
                self.order.push(state)?;
                Ok(true)
            }
            _ => Ok(false),
        }
    }

    /// Goes on from each state that was entered, also from those that are entered now.
    fn go_on(&mut self, ways: &[Target], number: u64) -> Result<(), AllocError> {
        for place in 0..self.entries.len() {
            if let Some(state) = self.order.get(place).copied() {
                self.go_on_from(state, ways, number)?;
            }
        }
        Ok(())
    }

    /// Goes on from a state, by each way to one that was not entered.
    fn go_on_from(
        &mut self,
        state: StateId,
        ways: &[Target],
        number: u64,
    ) -> Result<(), AllocError> {
        for way in ways {
            if way.state == state && self.is_new(way) && self.allowance.left > 0 {
                self.try_way(way, ways, number)?;
            }
        }
        Ok(())
    }

    /// Whether a way leads to a state that was not entered.
    fn is_new(&self, way: &Target) -> bool {
        match way.next {
            Some(next) => !self.has(next),
            None => false,
        }
    }

    /// Walks to the state of a way, and on by it. From the initial state a reload is tried, too.
    fn try_way(&mut self, way: &Target, ways: &[Target], number: u64) -> Result<(), AllocError> {
        if let Some(to) = self.route_to(way.state)? {
            self.walk(&to, way, ways, number)?;
        }
        if way.state == self.policy.initial() && self.is_new(way) {
            let reload = Route {
                links: links_of(self.alloc, &way.facts)?,
                moves: Vec::new(self.alloc),
            };
            self.walk(&reload, way, ways, number)?;
        }
        Ok(())
    }

    /// Makes moves from an opening, and walks on by a way.
    fn walk(
        &mut self,
        to: &Route,
        way: &Target,
        ways: &[Target],
        number: u64,
    ) -> Result<(), AllocError> {
        self.allowance.spend_opening(self.image, to.moves.len());
        let Some(core) = opened_knowing(self.alloc, self.image, to.links.as_slice())? else {
            return Ok(());
        };
        let mut simulation = Simulation::new(self.alloc, core)?;
        for happens in &to.moves {
            simulation.make(*happens)?;
        }
        let ended = self.walk_by(&mut simulation, to, way, ways, number);
        simulation.end();
        ended
    }

    /// The same of a core that is in the state of the way.
    fn walk_by(
        &mut self,
        simulation: &mut Simulation<'_>,
        to: &Route,
        way: &Target,
        ways: &[Target],
        number: u64,
    ) -> Result<(), AllocError> {
        let mut random = Random::new(number);
        let is_opening = to.moves.is_empty();
        let mut present = way;
        for count in 0..self.entries.len() {
            let mut links = Vec::new(self.alloc);
            if count == 0 && is_opening {
                links.extend_from_slice(to.links.as_slice())?;
            }
            if !self.enters(simulation, &mut random, &present.facts, links)? {
                break;
            }
            match self.new_way(simulation.state(), ways) {
                Some(next) => present = next,
                None => break,
            }
        }
        Ok(())
    }

    /// The first way from a state to one that was not entered.
    fn new_way<'w>(&self, state: StateId, ways: &'w [Target]) -> Option<&'w Target> {
        for way in ways {
            if way.state == state && self.is_new(way) {
                return Some(way);
            }
        }
        None
    }

    /// Moves towards facts until the state changes. Returns whether it is one that was not entered before.
    fn enters(
        &mut self,
        simulation: &mut Simulation<'_>,
        random: &mut Random,
        facts: &FactSet,
        links: Vec<LinkState>,
    ) -> Result<bool, AllocError> {
        let from = simulation.state();
        let mut trail = Trail::new(self.alloc);
        for _ in 0..LENGTH {
            if simulation.state() != from || self.allowance.left == 0 {
                break;
            }
            self.allowance.spend(1);
            let happens = self.next(simulation, random, &mut trail, facts);
            simulation.make(happens)?;
            trail.put(happens);
        }
        if trail.has_failed {
            return Err(AllocError);
        }
        let entry = Entry {
            from,
            moves: trail.made,
            links,
        };
        self.keep(simulation.state(), entry)
    }

    /// A move towards facts, or now and then any.
    fn next(
        &self,
        simulation: &Simulation<'_>,
        random: &mut Random,
        trail: &mut Trail,
        facts: &FactSet,
    ) -> Move {
        let wanted = if random.below(12) == 0 {
            None
        } else {
            towards(random, trail, simulation.core(), simulation.runs(), facts)
        };
        match wanted {
            Some(happens) => happens,
            None => some_move(
                random,
                usize::from(self.policy.counts().interfaces),
                simulation.runs(),
            ),
        }
    }
}

/// The links of some facts.
fn links_of(alloc: Global, facts: &FactSet) -> Result<Vec<LinkState>, AllocError> {
    let mut links = Vec::new(alloc);
    for choice in &facts.links {
        links.push(choice.first())?;
    }
    Ok(links)
}
