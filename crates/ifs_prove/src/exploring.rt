//! Short ways from the opening that break claims, the shortest first, for all claims of a file together.

use crate::playing::{Player, breaks_across, is_seen};
use crate::replaying::breaks_in;
use ifs_base::{IfaceId, LinkState, StateId, TestId, Text};
use ifs_claim_parse::Stated;
use ifs_core::Core;
use ifs_play::{Allowance, Move, Simulation, is_running, number_of, word_of};
use ifs_policy::Table;
use ifs_sched::Start;
use ifs_walks::pause_of;
use std::alloc::{AllocError, Global};

/// The most moves of cores.
const MOVES: usize = 10_000;

/// So many looks at a name of a claim take the time of a move.
const LOOKS: usize = 8;

/// The most ways that are gone on from.
const WAYS: usize = 4_000;

/// Ways that break claims. Once an allocation has failed, nothing that was found counts.
#[derive(Drop)]
pub(crate) struct ShortWays<'c> {
    alloc: Global,
    claims: &'c [Stated],
    /// For each claim the moves of a way that breaks it, if one was found.
    found: Vec<Option<Vec<Move>>>,
    /// Ways, each to facts to which no way before it leads.
    ways: Vec<Vec<Move>>,
    /// The facts to which they lead.
    known: Table<Text>,
    /// What a look at all claims costs.
    cost: usize,
    allowance: Allowance,
    has_failed: bool,
}

impl<'c> ShortWays<'c> {
    /// No ways for the claims of a file.
    pub fn new(alloc: Global, claims: &'c [Stated]) -> Result<ShortWays<'c>, AllocError> {
        let mut found = Vec::new(alloc);
        let mut names = 0usize;
        for stated in claims {
            found.push(None)?;
            names = names.saturating_add(stated.claim.count_names());
        }
        Ok(ShortWays {
            alloc,
            claims,
            found,
            ways: Vec::new(alloc),
            known: Table::new(alloc),
            cost: names / LOOKS,
            allowance: Allowance { left: MOVES },
            has_failed: false,
        })
    }

    /// The moves that break the claim of a line, if some were found.
    pub fn of_line(&self, line: u32) -> Option<&[Move]> {
        for (claim, found) in self.claims.iter().zip(self.found.as_slice()) {
            if claim.line == line {
                return match found {
                    Some(moves) => Some(moves.as_slice()),
                    None => None,
                };
            }
        }
        None
    }

    /// Looks for ways. Returns an error if an allocation failed.
    pub fn explore(&mut self, player: &mut Player<'_, '_>) -> Result<(), AllocError> {
        self.try_way(player, Vec::new(self.alloc));
        for place in 0..WAYS {
            if self.allowance.left == 0 || place >= self.ways.len() {
                break;
            }
            let moves = self.moves_from(player, place);
            for happens in &moves {
                self.go_on(player, place, *happens);
            }
        }
        if self.has_failed || player.has_failed {
            return Err(AllocError);
        }
        Ok(())
    }

    /// The moves that may follow a way.
    fn moves_from(&mut self, player: &mut Player<'_, '_>, place: usize) -> Vec<Move> {
        let mut moves = Vec::new(self.alloc);
        let Some(way) = self.ways.get(place) else {
            return moves;
        };
        self.allowance.spend_opening(player.image, way.len());
        match player.simulation(&[]) {
            Some(simulation) => {
                let mut simulation = simulation;
                for happens in way {
                    player.make(&mut simulation, *happens);
                }
                let links = usize::from(player.policy.counts().interfaces);
                self.has_failed |= put_moves(&mut moves, &simulation, links).is_err();
                simulation.end();
            }
            None => {}
        }
        moves
    }

    /// Goes on from a way by a move.
    fn go_on(&mut self, player: &mut Player<'_, '_>, place: usize, happens: Move) {
        let mut longer = Vec::new(self.alloc);
        if let Some(way) = self.ways.get(place) {
            self.has_failed |= longer.extend_from_slice(way.as_slice()).is_err();
        }
        self.has_failed |= longer.push(happens).is_err();
        self.try_way(player, longer);
    }

    /// Makes the moves of a way, looks at the claims after the last one, and keeps the way if it leads to other facts than those before.
    fn try_way(&mut self, player: &mut Player<'_, '_>, way: Vec<Move>) {
        if self.allowance.left == 0 {
            return;
        }
        self.allowance.spend_opening(player.image, way.len());
        match player.simulation(&[]) {
            Some(simulation) => {
                let mut simulation = simulation;
                let is_new = self.make(player, &mut simulation, way.as_slice());
                simulation.end();
                if is_new {
                    self.has_failed |= self.ways.push(way).is_err();
                }
            }
            None => {}
        }
    }

    /// Makes moves of a core, and looks at the claims after the last one. Returns whether they lead to other facts.
    fn make(
        &mut self,
        player: &mut Player<'_, '_>,
        simulation: &mut Simulation<'_>,
        way: &[Move],
    ) -> bool {
        let Some((last, before)) = way.split_last() else {
            self.look(player, simulation.core(), way);
            return self.is_new(simulation);
        };
        for happens in before {
            player.make(simulation, *happens);
        }
        let seen = self.seen_by(simulation.core(), *last);
        let state = simulation.state();
        if !player.make(simulation, *last) {
            return false;
        }
        self.look_across(simulation, state, seen.as_slice(), way);
        self.look(player, simulation.core(), way);
        self.is_new(simulation)
    }

    /// For each claim whether its condition is true under the facts that a move brings, if it is on a command.
    fn seen_by(&mut self, core: &Core<'_>, happens: Move) -> Vec<bool> {
        let mut seen = Vec::new(self.alloc);
        for stated in self.claims {
            self.has_failed |= seen.push(is_seen(core, &stated.claim, happens)).is_err();
        }
        seen
    }

    /// Looks at the claims on steps.
    fn look_across(
        &mut self,
        simulation: &Simulation<'_>,
        before: StateId,
        seen: &[bool],
        way: &[Move],
    ) {
        for (place, stated) in self.claims.iter().enumerate() {
            let was_true = seen.get(place).copied().unwrap_or(false);
            if breaks_across(
                &stated.claim,
                before,
                simulation.state(),
                was_true,
                simulation.queued(),
            ) {
                self.keep(place, way);
            }
        }
    }

    /// Looks at the claims on situations that no way breaks so far.
    fn look(&mut self, player: &Player<'_, '_>, core: &Core<'_>, way: &[Move]) {
        self.allowance.spend(self.cost);
        for (place, stated) in self.claims.iter().enumerate() {
            if self.is_open(place) && breaks_in(core, player.policy, &stated.claim) {
                self.keep(place, way);
            }
        }
    }

    /// Whether no way is known that breaks a claim.
    fn is_open(&self, place: usize) -> bool {
        matches!(self.found.get(place), Some(None))
    }

    /// Keeps the first way that breaks a claim.
    fn keep(&mut self, place: usize, way: &[Move]) {
        if !self.is_open(place) {
            return;
        }
        let mut moves = Vec::new(self.alloc);
        self.has_failed |= moves.extend_from_slice(way).is_err();
        if let Some(found) = self.found.get_mut(place) {
            *found = Some(moves);
        }
    }

    /// Whether the facts of a core were not met before. Keeps them.
    fn is_new(&mut self, simulation: &Simulation<'_>) -> bool {
        match facts_in_words(self.alloc, simulation) {
            Ok(words) => {
                if self.known.has(&words) {
                    return false;
                }
                self.has_failed |= self.known.insert(words).is_err();
                true
            }
            Err(AllocError) => {
                self.has_failed = true;
                false
            }
        }
    }
}

/// Adds the moves of a core that may change something: another state of a link, the end of a test, and the next moment at which something
/// happens.
fn put_moves(
    moves: &mut Vec<Move>,
    simulation: &Simulation<'_>,
    links: usize,
) -> Result<(), AllocError> {
    for number in 0..links {
        put_links(moves, simulation.core(), IfaceId(number_of(number)))?;
    }
    for start in simulation.runs() {
        moves.push(Move::End(start.test, false))?;
        moves.push(Move::End(start.test, true))?;
    }
    moves.push(Move::Wait(pause_of(simulation.core())))?;
    Ok(())
}

/// Adds each state of a link that it is not in.
fn put_links(moves: &mut Vec<Move>, core: &Core<'_>, interface: IfaceId) -> Result<(), AllocError> {
    for state in [LinkState::Unknown, LinkState::Down, LinkState::Up] {
        if core.link(interface) != Some(state) {
            moves.push(Move::Link(interface, state))?;
        }
    }
    Ok(())
}

/// The state, whether an evaluation is owed, the links, the values of tests and those that run.
fn facts_in_words(alloc: Global, simulation: &Simulation<'_>) -> Result<Text, AllocError> {
    let core = simulation.core();
    let mut words = String::new(alloc);
    write!(words, "{} {}", core.state().0, core.owed())?;
    put_links_known(&mut words, core)?;
    put_values(&mut words, core, simulation.runs())?;
    Ok(Text::new(words))
}

/// Adds the state of each link.
fn put_links_known(words: &mut String, core: &Core<'_>) -> Result<(), AllocError> {
    for number in 0..u16::MAX {
        match core.link(IfaceId(number)) {
            Some(state) => write!(words, " {}", word_of(state))?,
            None => return Ok(()),
        }
    }
    Ok(())
}

/// Adds the value of each test, and whether it runs.
fn put_values(words: &mut String, core: &Core<'_>, runs: &[Start]) -> Result<(), AllocError> {
    for number in 0..u16::MAX {
        let test = TestId(number);
        match core.test_value(test) {
            Some(value) => write!(words, " {}", word_of_value(value))?,
            None => return Ok(()),
        }
        if is_running(runs, test) {
            words.push_str(" runs")?;
        }
    }
    Ok(())
}

/// The word of a value.
fn word_of_value(value: Option<bool>) -> &'static str {
    match value {
        None => "none",
        Some(false) => "false",
        Some(true) => "true",
    }
}
