//! Cores that make moves for claims. No clause speaks of them: another core makes the steps before they are reported.

use crate::facts::is_met_seen;
use crate::laps::StateSet;
use crate::prolonging::CHANGES;
use crate::replaying::{breaks_at_once, breaks_in};
use crate::trial::{Ending, Trial};
use ifs_base::{CommandId, IfaceId, LinkState, StateId};
use ifs_claim_parse::{Claim, Stated};
use ifs_core::{Core, Step};
use ifs_play::{
    Allowance, Move, PARTS, Random, Replay, Shown, Simulation, line_fits, number_of,
    opened_knowing, shortened, situations_of, some_move,
};
use ifs_policy::Policy;
use ifs_solver::FactSet;
use ifs_walks::{Map, Target, Trail, Walk};
use std::alloc::{AllocError, Global};

/// The most moves of all cores together.
const MOVES: u32 = 150_000;

/// The most moves of a walk.
const LENGTH: usize = 100;

/// The most moves that go on in worlds that were found.
const FURTHER: usize = 300_000;

/// The most steps that are made to leave out others.
const TRIES: usize = 60_000;

/// What one walk looks for.
#[derive(Clone, Copy)]
pub(crate) struct Search<'c, 'l, 't> {
    pub claim: &'c Claim,
    /// The links that are known at the opening, if any are.
    pub links: &'l [LinkState],
    pub target: &'t Target,
    /// The number of the walk.
    pub number: u64,
}

/// A trial, and a number that the changes of the state in its world exceed.
#[derive(Drop)]
pub(crate) struct Goal {
    pub trial: Trial,
    pub most: u16,
}

impl Goal {
    /// The trial, if the changes exceed this number.
    fn trial_beyond(self, most: usize) -> Option<Trial> {
        if usize::from(self.most) < most {
            return None;
        }
        Some(self.trial)
    }
}

/// Makes moves of cores on the image of a policy, and counts them. Once an allocation has failed, nothing that it found counts.
#[derive(Drop)]
pub(crate) struct Player<'p, 'i> {
    pub alloc: Global,
    pub policy: &'p Policy,
    pub image: &'i [u8],
    /// The moves for all claims.
    pub allowance: Allowance,
    /// The moves that go on in worlds that were found.
    pub further: Allowance,
    /// The steps that are made to leave out others.
    pub tries: Allowance,
    /// The most changes that a claim names.
    pub furthest: u16,
    /// The states of each `may flap` line.
    pub meant: Vec<StateSet>,
    pub has_failed: bool,
}

impl<'p, 'i> Player<'p, 'i> {
    /// The player for the claims of a file.
    pub(crate) fn new(
        alloc: Global,
        policy: &'p Policy,
        image: &'i [u8],
        claims: &[Stated],
    ) -> Result<Player<'p, 'i>, AllocError> {
        let meant = meant_in(alloc, claims)?;
        Ok(Player {
            alloc,
            policy,
            image,
            allowance: Allowance {
                left: MOVES.min(situations_of(policy, PARTS)) as usize,
            },
            further: Allowance { left: FURTHER },
            tries: Allowance { left: TRIES },
            furthest: furthest_in(claims),
            meant,
            has_failed: false,
        })
    }

    /// Makes a move. Returns whether that was a step which changed something.
    pub(crate) fn make(&mut self, simulation: &mut Simulation<'_>, happens: Move) -> bool {
        let count = simulation.steps().len();
        self.has_failed |= simulation.make(happens).is_err();
        simulation.steps().len() > count
    }

    /// The same steps.
    pub(crate) fn copied(&mut self, steps: &[Step]) -> Vec<Step> {
        let mut same = Vec::new(self.alloc);
        self.has_failed |= same.extend_from_slice(steps).is_err();
        same
    }

    /// Links that a reload knows: those of some facts. It knows none without a reload, or if none of them is known.
    pub(crate) fn links_known(&mut self, facts: &FactSet, is_reload: bool) -> Vec<LinkState> {
        let mut links = Vec::new(self.alloc);
        self.has_failed |= is_reload && put_known(&mut links, self.policy, facts).is_err();
        links
    }

    /// A core at work that is just opened.
    pub(crate) fn simulation(&mut self, links: &[LinkState]) -> Option<Simulation<'i>> {
        let core = self.opened(links)?;
        match Simulation::new(self.alloc, core) {
            Ok(simulation) => Some(simulation),
            Err(AllocError) => {
                self.has_failed = true;
                None
            }
        }
    }

    /// A core that is just opened.
    pub(crate) fn opened(&mut self, links: &[LinkState]) -> Option<Core<'i>> {
        match opened_knowing(self.alloc, self.image, links) {
            Ok(core) => core,
            Err(AllocError) => {
                self.has_failed = true;
                None
            }
        }
    }

    /// The opening, if it breaks the claim.
    pub(crate) fn at_once(&mut self, search: &Search<'_, '_, '_>) -> Option<Trial> {
        if !matches!(search.claim, Claim::NeverRuns(_, _)) {
            return None;
        }
        let core = self.opened(search.links)?;
        let mut core = core;
        if !breaks_at_once(&mut core, search.claim) {
            return None;
        }
        Some(Trial {
            begun: Vec::new(self.alloc),
            ending: Ending::Opening,
        })
    }

    /// The moves of a walk, if it came to an end that may break the claim.
    pub(crate) fn walked(&mut self, map: &Map, search: &Search<'_, '_, '_>) -> Option<Vec<Move>> {
        let mut trail = Trail::new(self.alloc);
        let is_there = self.walk(map, search, &mut trail);
        self.has_failed |= trail.has_failed;
        self.allowance.spend(trail.made.len().saturating_add(1));
        if is_there { Some(trail.made) } else { None }
    }

    /// Adds the moves of a walk. Returns whether it came to such an end.
    fn walk(&mut self, map: &Map, search: &Search<'_, '_, '_>, trail: &mut Trail) -> bool {
        match self.simulation(search.links) {
            Some(simulation) => {
                let mut simulation = simulation;
                let mut walk = Walk::new(map, search.target);
                let is_there = self.walk_by(&mut simulation, &mut walk, search, trail);
                simulation.end();
                is_there
            }
            None => false,
        }
    }

    /// The same of a core.
    fn walk_by(
        &mut self,
        simulation: &mut Simulation<'_>,
        walk: &mut Walk<'_, '_>,
        search: &Search<'_, '_, '_>,
        trail: &mut Trail,
    ) -> bool {
        let links = usize::from(self.policy.counts().interfaces);
        let mut random = Random::new(search.number);
        let mut is_there = self.is_there(simulation.core(), search);
        for _ in 0..LENGTH {
            if is_there {
                break;
            }
            let happens = match walk.next(
                &mut random,
                trail,
                simulation.core(),
                simulation.runs(),
            ) {
                Some(happens) => happens,
                None => some_move(&mut random, links, simulation.runs()),
            };
            trail.put(happens);
            let is_broken = self.breaks_by(simulation, search.claim, happens);
            is_there = is_broken || self.is_there(simulation.core(), search);
        }
        is_there
    }

    /// Whether a walk is where it may stop: its situation breaks the claim, or the links are those of a world that may do.
    fn is_there(&self, core: &Core<'_>, search: &Search<'_, '_, '_>) -> bool {
        match search.claim {
            Claim::RestsWithin(_) => has_links(core, search.target),
            claim => breaks_in(core, self.policy, claim),
        }
    }

    /// Makes a move, and returns whether its last step breaks a claim.
    pub(crate) fn breaks_by(
        &mut self,
        simulation: &mut Simulation<'_>,
        claim: &Claim,
        happens: Move,
    ) -> bool {
        let before = simulation.state();
        let was_true = is_seen(simulation.core(), claim, happens);
        let is_made = self.make(simulation, happens);
        is_made
            && breaks_across(
                claim,
                before,
                simulation.state(),
                was_true,
                simulation.queued(),
            )
    }

    /// The steps of these moves, if they break the claim.
    pub(crate) fn tried(&mut self, search: &Search<'_, '_, '_>, moves: &[Move]) -> Option<Trial> {
        self.allowance.spend(moves.len().saturating_add(1));
        match self.simulation(search.links) {
            Some(simulation) => {
                let mut simulation = simulation;
                let trial = self.trial_by(&mut simulation, search, moves);
                simulation.end();
                trial
            }
            None => None,
        }
    }

    /// The same of a core.
    fn trial_by(
        &mut self,
        simulation: &mut Simulation<'_>,
        search: &Search<'_, '_, '_>,
        moves: &[Move],
    ) -> Option<Trial> {
        let mut is_broken = false;
        for happens in moves {
            is_broken = self.breaks_by(simulation, search.claim, *happens);
        }
        match search.claim {
            Claim::RestsWithin(most) => {
                let wanted = usize::from(*most).min(CHANGES);
                let goal = self.trial_within(simulation, search, wanted)?;
                goal.trial_beyond(wanted)
            }
            Claim::NeverFrom(_, _) | Claim::NeverEntersWhile(_, _) | Claim::NeverRuns(_, _) => {
                self.trial_by_last(simulation.steps(), is_broken)
            }
            claim => {
                let is_broken = breaks_in(simulation.core(), self.policy, claim);
                self.trial_there(simulation.steps(), is_broken)
            }
        }
    }

    /// Steps that break a claim at the last one, if they do.
    fn trial_by_last(&mut self, steps: &[Step], is_broken: bool) -> Option<Trial> {
        match steps.split_last() {
            Some((last, begun)) if is_broken => Some(Trial {
                begun: self.copied(begun),
                ending: Ending::By(*last),
            }),
            _ => None,
        }
    }

    /// Steps after which a claim is broken, if it is.
    fn trial_there(&mut self, steps: &[Step], is_broken: bool) -> Option<Trial> {
        if !is_broken {
            return None;
        }
        Some(Trial {
            begun: self.copied(steps),
            ending: Ending::There,
        })
    }

    /// The same claim broken without moves that it does not need.
    pub(crate) fn shortened(
        &mut self,
        search: &Search<'_, '_, '_>,
        shown: Shown<Trial>,
    ) -> Option<Shown<Trial>> {
        let alloc = self.alloc;
        match shortened(alloc, self, search, shown) {
            Ok(kept) => Some(kept),
            Err(AllocError) => {
                self.has_failed = true;
                None
            }
        }
    }
}

impl<'c, 'l, 't> Replay<Search<'c, 'l, 't>> for Player<'_, '_> {
    type Found = Trial;

    fn replay(
        &mut self,
        goal: &Search<'c, 'l, 't>,
        moves: &[Move],
    ) -> Result<Option<Trial>, AllocError> {
        if self.allowance.left == 0 {
            return Ok(None);
        }
        Ok(self.tried(goal, moves))
    }
}

/// The most changes that a claim names.
fn furthest_in(claims: &[Stated]) -> u16 {
    let mut furthest = 0;
    for stated in claims {
        if let Claim::RestsWithin(most) = &stated.claim {
            furthest = furthest.max(*most);
        }
    }
    furthest
}

/// The states of each `may flap` line.
fn meant_in(alloc: Global, claims: &[Stated]) -> Result<Vec<StateSet>, AllocError> {
    let mut meant = Vec::new(alloc);
    for stated in claims {
        if let Claim::MayFlap(states) = &stated.claim {
            meant.push(StateSet::of(states.as_slice()))?;
        }
    }
    Ok(meant)
}

/// Adds the links of some facts that requests can report, if one of them is known.
fn put_known(
    links: &mut Vec<LinkState>,
    policy: &Policy,
    facts: &FactSet,
) -> Result<(), AllocError> {
    for (number, choice) in facts.links.iter().enumerate() {
        let state = choice.first();
        let is_reported = match policy.interface(IfaceId(number_of(number))) {
            Some(name) => line_fits(name.as_str(), state),
            None => true,
        };
        links.push(if is_reported {
            state
        } else {
            LinkState::Unknown
        })?;
    }
    if !are_known(links.as_slice()) {
        links.clear();
    }
    Ok(())
}

/// Whether one of some links is known.
fn are_known(links: &[LinkState]) -> bool {
    for link in links {
        if *link != LinkState::Unknown {
            return true;
        }
    }
    false
}

/// Whether a core is in the state of a target, with links as they are wanted.
fn has_links(core: &Core<'_>, target: &Target) -> bool {
    if core.state() != target.state {
        return false;
    }
    for (number, choice) in target.facts.links.iter().enumerate() {
        let link = core.link(IfaceId(number_of(number)));
        if !choice.allows(link.unwrap_or(LinkState::Unknown)) {
            return false;
        }
    }
    true
}

/// Whether the facts that a move brings meet the premise of a claim on steps.
pub(crate) fn is_seen(core: &Core<'_>, claim: &Claim, happens: Move) -> bool {
    match claim {
        Claim::NeverEntersWhile(_, premise) | Claim::NeverRuns(_, premise) => {
            is_met_seen(core, seen_by(happens), premise)
        }
        _ => false,
    }
}

/// Whether a step breaks a claim, by the states before and after it, what it saw, and the commands that it queued.
pub(crate) fn breaks_across(
    claim: &Claim,
    before: StateId,
    after: StateId,
    was_true: bool,
    queued: &[CommandId],
) -> bool {
    match claim {
        Claim::NeverFrom(from, to) => from.contains(&before) && to.contains(&after),
        Claim::NeverEntersWhile(states, _) => {
            was_true && before != after && states.contains(&after)
        }
        Claim::NeverRuns(commands, _) => was_true && is_any(queued, commands.as_slice()),
        _ => false,
    }
}

/// Whether one of some commands is among others.
fn is_any(queued: &[CommandId], commands: &[CommandId]) -> bool {
    for command in queued {
        if commands.contains(command) {
            return true;
        }
    }
    false
}

/// A step that brings the same fact as a move.
fn seen_by(happens: Move) -> Step {
    match happens {
        Move::Link(interface, state) => Step::Link(interface, state),
        Move::End(test, value) => Step::Finished(test, 0, value),
        Move::Wait(_) => Step::Take,
    }
}
