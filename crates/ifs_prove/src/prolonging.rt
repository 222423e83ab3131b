//! Worlds in which the state changes often.

use crate::laps::count_unmeant;
use crate::playing::{Goal, Player, Search};
use crate::trial::{Ending, Trial};
use ifs_base::{StateId, TestId};
use ifs_claim_parse::Claim;
use ifs_core::{Core, Step};
use ifs_play::{Move, Random, Shown, Simulation, number_of};
use ifs_sched::Start;
use ifs_walks::{Target, pause_of, some_value};
use std::alloc::AllocError;

/// The most ticks in a world while walks are looked for, and the most without a change of the state.
const TICKS: usize = 1_000;

/// The most changes in a world that a walk is looked for with. A walk with as many is in a round, or nearly so.
pub(crate) const CHANGES: usize = 300;

impl Player<'_, '_> {
    /// Further steps in the world of a core, until its state has changed more often than so or changes no more. None if it does not
    /// change.
    pub(crate) fn trial_within(
        &mut self,
        simulation: &mut Simulation<'_>,
        search: &Search<'_, '_, '_>,
        most: usize,
    ) -> Option<Goal> {
        let mut random = Random::new(search.number);
        let count = simulation.steps().len();
        let results = self.results_in(simulation.core(), &mut random, search.target);
        let changes = self.count_changes(simulation, &mut random, results.as_slice(), most);
        let exceeded = changes.checked_sub(1)?;
        let (begun, further) = cut(simulation.steps(), count);
        Some(Goal {
            trial: Trial {
                begun: self.copied(begun),
                ending: Ending::Within(self.copied(further), results),
            },
            most: u16::try_from(exceeded).unwrap_or(u16::MAX),
        })
    }

    /// A trial that breaks a claim, with further steps in its world for as many changes as any claim names.
    pub(crate) fn prolonged(
        &mut self,
        search: &Search<'_, '_, '_>,
        shown: Shown<Trial>,
    ) -> Option<Goal> {
        let Shown { moves, found } = shown;
        let Claim::RestsWithin(most) = search.claim else {
            return Some(Goal {
                trial: found,
                most: 0,
            });
        };
        let goal = self.prolonged_from(search, moves.as_slice());
        match goal {
            Some(goal) if goal.most >= *most => Some(goal),
            _ if usize::from(*most) <= CHANGES => Some(Goal {
                trial: found,
                most: *most,
            }),
            _ => None,
        }
    }

    /// The same after these moves. The state may change less often.
    fn prolonged_from(&mut self, search: &Search<'_, '_, '_>, moves: &[Move]) -> Option<Goal> {
        match self.simulation(search.links) {
            Some(simulation) => {
                let mut simulation = simulation;
                let goal = self.prolonged_by(&mut simulation, search, moves);
                simulation.end();
                goal
            }
            None => None,
        }
    }

    /// The same of a core. Its moves are not those for walks.
    fn prolonged_by(
        &mut self,
        simulation: &mut Simulation<'_>,
        search: &Search<'_, '_, '_>,
        moves: &[Move],
    ) -> Option<Goal> {
        for happens in moves {
            self.make(simulation, *happens);
        }
        let for_walks = self.allowance;
        self.allowance = self.further;
        let goal = self.trial_within(simulation, search, usize::from(self.furthest));
        self.further = self.allowance;
        self.allowance = for_walks;
        goal
    }

    /// For each test its value, or a result that is wanted.
    fn results_in(&mut self, core: &Core<'_>, random: &mut Random, target: &Target) -> Vec<bool> {
        let mut results = Vec::new(self.alloc);
        for (number, choice) in target.facts.tests.iter().enumerate() {
            let wanted = some_value(random, *choice);
            let value = core.test_value(TestId(number_of(number)));
            self.has_failed |= results.push(value.flatten().unwrap_or(wanted)).is_err();
        }
        results
    }

    /// Makes moves in a world until the state has changed more often than so, and returns how often it does. Changes of rounds that are
    /// meant are not counted.
    fn count_changes(
        &mut self,
        simulation: &mut Simulation<'_>,
        random: &mut Random,
        results: &[bool],
        most: usize,
    ) -> usize {
        let start = simulation.entered().len().saturating_sub(1);
        let mut count = 0usize;
        let mut quiet = 0usize;
        for _ in 0..most.saturating_mul(4).saturating_add(12) {
            if count > most || quiet > TICKS || self.allowance.left == 0 {
                break;
            }
            let more = self.turn(simulation, random, results);
            quiet = if more == 0 {
                quiet.saturating_add(1)
            } else {
                0
            };
            count = count.saturating_add(more);
        }
        if self.meant.is_empty() {
            return count;
        }
        self.unmeant_in(simulation.entered().get(start..).unwrap_or(&[]))
    }

    /// How many changes along some states belong to no round that is meant.
    fn unmeant_in(&mut self, entered: &[StateId]) -> usize {
        match count_unmeant(self.alloc, entered, self.meant.as_slice()) {
            Ok(count) => count,
            Err(AllocError) => {
                self.has_failed = true;
                0
            }
        }
    }

    /// Ends some tests with their results, and lets time pass. Returns how often the state changed, where no round may be meant.
    fn turn(
        &mut self,
        simulation: &mut Simulation<'_>,
        random: &mut Random,
        results: &[bool],
    ) -> usize {
        let pause = pause_in(simulation);
        let happen = self.ends(simulation.runs(), random, results, pause);
        let mut count = 0usize;
        for happens in &happen {
            let before = simulation.state();
            self.make(simulation, *happens);
            self.allowance.spend(1);
            if self.counts(before, simulation.state()) {
                count = count.saturating_add(1);
            }
        }
        count
    }

    /// The ends of some tests with their results, and the pause.
    fn ends(
        &mut self,
        runs: &[Start],
        random: &mut Random,
        results: &[bool],
        pause: u64,
    ) -> Vec<Move> {
        let mut happen = Vec::new(self.alloc);
        for start in runs {
            if random.below(4) != 0 {
                let value = results.get(usize::from(start.test.0)).copied();
                let end = Move::End(start.test, value.unwrap_or(false));
                self.has_failed |= happen.push(end).is_err();
            }
        }
        self.has_failed |= happen.push(Move::Wait(pause)).is_err();
        happen
    }

    /// Whether the state changes, and not between states of one `may flap` line.
    fn counts(&self, state: StateId, next: StateId) -> bool {
        for states in &self.meant {
            if states.has(state) && states.has(next) {
                return false;
            }
        }
        state != next
    }
}

/// The first steps, so many, and those after them.
fn cut(steps: &[Step], count: usize) -> (&[Step], &[Step]) {
    match steps.split_at_checked(count) {
        Some(parts) => parts,
        None => (steps, &[]),
    }
}

/// How long a world waits for what happens next: a second while a test runs.
fn pause_in(simulation: &Simulation<'_>) -> u64 {
    if simulation.runs().is_empty() {
        pause_of(simulation.core())
    } else {
        1
    }
}
