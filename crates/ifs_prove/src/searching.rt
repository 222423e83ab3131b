//! A search for steps that break a claim. No clause speaks of it: a core makes the steps before they are reported.
//!
//! Each walk of a core is towards facts that would break the claim, and changes one fact after the other, in an order that a
//! generator of numbers gives. Then each move without which the claim is still broken is left out.

use crate::describing::{Showing, steps_of};
use crate::exploring::ShortWays;
use crate::laps::StateSet;
use crate::needed::Aimed;
use crate::playing::{Goal, Player, Search};
use crate::targets::Finder;
use crate::trial::Trial;
use ifs_base::LinkState;
use ifs_claim_parse::{Claim, Stated};
use ifs_play::{Move, PARTS, Shown, situations_of};
use ifs_policy::Policy;
use ifs_solver::Budget;
use ifs_walks::{Map, Target, Ways};
use std::alloc::{AllocError, Global};

/// The situations that the search for ways and for facts may look at.
const FACTS: Budget = Budget {
    each: 1_000,
    left: 150_000,
    questions: 0,
    undecided: 0,
};

/// The most walks for a claim.
const WALKS: u64 = 40;

/// The most moves for a claim, and the least number of them that a claim may make while any are left.
const MOST: usize = 6_000;

const LEAST: usize = 500;

/// The most situations that the search for facts of one claim may look at.
const SITUATIONS: u32 = 10_000;

/// The most walks from openings after a reload.
const RELOADS: u64 = 8;

/// Steps that are to break a claim, and the links that are known at their opening, if any are.
#[derive(Drop)]
pub(crate) struct Found {
    pub trial: Trial,
    pub links: Vec<LinkState>,
    /// The state changes more often than this in the world of the trial, if the claim is on that.
    pub most: u16,
}

/// A search for steps on one policy.
#[derive(Drop)]
pub(crate) struct Stage<'p, 'i, 'c> {
    player: Player<'p, 'i>,
    map: Map,
    /// What the search for facts may still look at.
    facts: Budget,
    /// How many moves cores may make for one claim.
    each: usize,
    /// Ways to all claims, once one was looked for.
    ways: ShortWays<'c>,
    is_explored: bool,
    /// The line of the present claim.
    line: u32,
}

impl<'p, 'i, 'c> Stage<'p, 'i, 'c> {
    /// The stage for the claims of a file.
    pub fn new(
        alloc: Global,
        policy: &'p Policy,
        image: &'i [u8],
        claims: &'c [Stated],
    ) -> Result<Stage<'p, 'i, 'c>, AllocError> {
        let facts = FACTS.within(situations_of(policy, PARTS));
        let mut ways = Ways::new(alloc, policy, facts);
        ways.put_all();
        let (ways, left) = ways.into_found()?;
        let map = Map::new(alloc, ways);
        let player = Player::new(alloc, policy, image, claims)?;
        let each = share_of(player.allowance.left, claims.len());
        Ok(Stage {
            player,
            map,
            facts: Budget { left, ..facts },
            each,
            ways: ShortWays::new(alloc, claims)?,
            is_explored: false,
            line: 0,
        })
    }

    /// Goes on to the claim of a line.
    pub fn turn_to(&mut self, line: u32) {
        self.line = line;
    }

    /// Steps that break the present claim, if some are found.
    pub fn look(&mut self, claim: &Claim) -> Result<Option<Found>, AllocError> {
        if let Some(found) = self.look_short(claim)? {
            return Ok(Some(found));
        }
        let targets = self.targets_of(claim)?;
        let found = self.look_among(claim, targets.as_slice());
        if self.player.has_failed || self.map.has_failed {
            return Err(AllocError);
        }
        Ok(found)
    }

    /// The same by the opening, or by a short way.
    fn look_short(&mut self, claim: &Claim) -> Result<Option<Found>, AllocError> {
        if let Claim::RestsWithin(_) = claim {
            return Ok(None);
        }
        let target = Target::anywhere(self.player.alloc, self.player.policy)?;
        let search = Search {
            claim,
            links: &[],
            target: &target,
            number: 0,
        };
        if let Some(trial) = self.player.at_once(&search) {
            return Ok(Some(Found {
                trial,
                links: Vec::new(self.player.alloc),
                most: 0,
            }));
        }
        match self.short_way()? {
            Some(moves) => Ok(self.shown(&search, moves)),
            None => Ok(None),
        }
    }

    /// The moves of a short way that breaks the present claim, if one was found.
    fn short_way(&mut self) -> Result<Option<Vec<Move>>, AllocError> {
        if !self.is_explored {
            self.is_explored = true;
            self.ways.explore(&mut self.player)?;
        }
        let Some(way) = self.ways.of_line(self.line) else {
            return Ok(None);
        };
        let mut moves = Vec::new(self.player.alloc);
        moves.extend_from_slice(way)?;
        Ok(Some(moves))
    }

    /// Steps of these moves that break a claim, if they do, with few that it does not need.
    fn shown(&mut self, search: &Search<'_, '_, '_>, moves: Vec<Move>) -> Option<Found> {
        let found = self.player.tried(search, moves.as_slice())?;
        let shown = self.player.shortened(search, Shown { moves, found })?;
        let Shown {
            moves: _moves,
            found,
        } = shown;
        Some(Found {
            trial: found,
            links: Vec::new(self.player.alloc),
            most: 0,
        })
    }

    /// The targets of walks for a claim.
    fn targets_of(&mut self, claim: &Claim) -> Result<Vec<Target>, AllocError> {
        let given = self.facts.left.min(SITUATIONS);
        let budget = Budget {
            left: given,
            ..self.facts
        };
        let mut finder = Finder::new(self.player.alloc, self.player.policy, budget);
        finder.of_claim(claim);
        let (targets, left) = finder.into_found()?;
        let used = given.saturating_sub(left);
        self.facts.left = self.facts.left.saturating_sub(used);
        Ok(targets)
    }

    /// Steps that break a claim, by walks to these targets: from an opening at which nothing is known, or else after a reload.
    fn look_among(&mut self, claim: &Claim, targets: &[Target]) -> Option<Found> {
        match self.look_from(claim, targets, WALKS, false) {
            Some(plain) => Some(plain),
            None => self.look_from(claim, targets, RELOADS, true),
        }
    }

    /// The same by so many walks from openings of one kind.
    fn look_from(
        &mut self,
        claim: &Claim,
        targets: &[Target],
        walks: u64,
        is_reload: bool,
    ) -> Option<Found> {
        let floor = self.player.allowance.left.saturating_sub(self.each);
        for number in 0..walks {
            if let Some(target) = target_of(targets, number)
                && self.player.allowance.left > floor
                && let Some(found) = self.look_at(claim, target, number, is_reload)
            {
                return Some(found);
            }
        }
        None
    }

    /// The same by one walk. After a reload some link has to be known.
    fn look_at(
        &mut self,
        claim: &Claim,
        target: &Target,
        number: u64,
        is_reload: bool,
    ) -> Option<Found> {
        let links = self.player.links_known(&target.facts, is_reload);
        if is_reload && links.is_empty() {
            return None;
        }
        let search = Search {
            claim,
            links: links.as_slice(),
            target,
            number,
        };
        match self.walk(&search) {
            Some(Goal { trial, most }) => Some(Found { trial, links, most }),
            None => None,
        }
    }

    /// Steps of one walk that break a claim, with few that it does not need.
    fn walk(&mut self, search: &Search<'_, '_, '_>) -> Option<Goal> {
        if let Some(opening) = self.player.at_once(search) {
            return Some(Goal {
                trial: opening,
                most: 0,
            });
        }
        let count = self.player.policy.counts().states;
        let cost = self.map.measure(count, search.target.state);
        self.player.allowance.spend(cost);
        let moves = self.player.walked(&self.map, search)?;
        let found = self.player.tried(search, moves.as_slice())?;
        let shown = self.player.shortened(search, Shown { moves, found })?;
        self.player.prolonged(search, shown)
    }

    /// A trial that breaks a claim by those of its steps that the claim needs. None of an opening, and if rounds go on behind them.
    pub fn needed(&mut self, showing: Showing<'_>) -> Result<Option<Trial>, AllocError> {
        let aimed = Aimed {
            claim: showing.claim,
            links: showing.links,
        };
        let Some(steps) = steps_of(self.player.alloc, self.player.meant.as_slice(), showing)? else {
            return Ok(None);
        };
        let needed = self.player.needed(aimed, steps.as_slice())?;
        if self.player.has_failed {
            return Err(AllocError);
        }
        Ok(needed)
    }

    /// The states of each `may flap` line.
    pub fn meant(&self) -> &[StateSet] {
        self.player.meant.as_slice()
    }
}

/// How many moves one of some claims may make.
fn share_of(left: usize, claims: usize) -> usize {
    left.checked_div(claims.max(1))
        .unwrap_or(left)
        .max(LEAST)
        .min(MOST)
}

/// The target of a walk: one after the other.
fn target_of(targets: &[Target], number: u64) -> Option<&Target> {
    let place = (number as usize).checked_rem(targets.len())?;
    targets.get(place)
}
