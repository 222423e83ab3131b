//! The steps that a break needs. No clause speaks of them: a core makes them before they are reported.
//!
//! A walk leaves out moves, and so changes the moments of the ticks behind them. Here each step is left out by itself, as a reader of
//! the requests would do it.

use crate::laps::count_unmeant;
use crate::playing::Player;
use crate::replaying::breaks_on;
use crate::trial::{Ending, Trial};
use ifs_base::{LinkState, TestId};
use ifs_claim_parse::Claim;
use ifs_core::{Core, Step};
use ifs_play::make_step;
use std::alloc::{AllocError, Global};

/// The most steps that are tried for `rest within N changes`.
const CHANGING: usize = 64;

/// So often all steps are tried.
const PASSES: usize = 6;

/// A claim that steps are to break, from an opening that knows these links.
#[derive(Clone, Copy)]
pub(crate) struct Aimed<'c, 'l> {
    pub claim: &'c Claim,
    pub links: &'l [LinkState],
}

impl Player<'_, '_> {
    /// The steps that break a claim without those that it does not need. None if they do not break it, if no more may be tried, or if they
    /// change the state and are too many.
    pub(crate) fn needed(
        &mut self,
        aimed: Aimed<'_, '_>,
        steps: &[Step],
    ) -> Result<Option<Trial>, AllocError> {
        let are_many = matches!(aimed.claim, Claim::RestsWithin(_)) && steps.len() > CHANGING;
        if are_many || self.tries.left == 0 {
            return Ok(None);
        }
        let mut kept = copied(self.alloc, steps)?;
        let mut block = steps.len() / 2;
        for _ in 0..usize::BITS {
            if block > 1 {
                kept = self.fewer(aimed, kept, block)?;
            }
            block /= 2;
        }
        for _ in 0..PASSES {
            let count = kept.len();
            kept = self.fewer(aimed, kept, 1)?;
            if kept.len() == count {
                break;
            }
        }
        self.breaking(aimed, kept.as_slice())
    }

    /// Leaves out each block of so many steps without which the others still break a claim. Begins with the last one.
    fn fewer(
        &mut self,
        aimed: Aimed<'_, '_>,
        steps: Vec<Step>,
        block: usize,
    ) -> Result<Vec<Step>, AllocError> {
        let count = steps.len();
        let mut kept = steps;
        for behind in 0..count {
            let place = count.saturating_sub(behind).saturating_sub(1);
            if place < kept.len() && place.checked_rem(block) == Some(0) {
                let fewer = without(self.alloc, kept.as_slice(), place, block)?;
                if self.trial_of(aimed, fewer.as_slice())?.is_some() {
                    kept = fewer;
                }
            }
        }
        Ok(kept)
    }

    /// A trial of these steps, if more may be tried and these break a claim.
    fn trial_of(
        &mut self,
        aimed: Aimed<'_, '_>,
        steps: &[Step],
    ) -> Result<Option<Trial>, AllocError> {
        if self.tries.left == 0 {
            return Ok(None);
        }
        self.breaking(aimed, steps)
    }

    /// A trial of these steps, if they break a claim. The state may have changed too often after the first of them.
    fn breaking(
        &mut self,
        aimed: Aimed<'_, '_>,
        steps: &[Step],
    ) -> Result<Option<Trial>, AllocError> {
        let Claim::RestsWithin(_) = aimed.claim else {
            return self.breaking_last(aimed, steps);
        };
        for count in 0..steps.len() {
            let first = steps.get(..count).unwrap_or(steps);
            let trial = self.breaking_last(aimed, first)?;
            if trial.is_some() {
                return Ok(trial);
            }
        }
        self.breaking_last(aimed, steps)
    }

    /// The trial of these steps, if they break a claim at the end.
    fn breaking_last(
        &mut self,
        aimed: Aimed<'_, '_>,
        steps: &[Step],
    ) -> Result<Option<Trial>, AllocError> {
        self.tries.spend_opening(self.image, steps.len());
        let Some(trial) = self.ended(aimed, steps)? else {
            return Ok(None);
        };
        let Some(core) = self.opened(aimed.links) else {
            return Ok(None);
        };
        let mut core = core;
        let broken = breaks_on(&mut core, self.policy, aimed.claim, &trial);
        Ok(if broken { Some(trial) } else { None })
    }

    /// The trial of these steps, with the ending that a claim asks for.
    fn ended(&mut self, aimed: Aimed<'_, '_>, steps: &[Step]) -> Result<Option<Trial>, AllocError> {
        match aimed.claim {
            Claim::RestsWithin(most) => self.in_one_world(aimed, steps, *most),
            Claim::NeverFrom(_, _) | Claim::NeverEntersWhile(_, _) | Claim::NeverRuns(_, _) => {
                by_last(self.alloc, steps)
            }
            _ => Ok(Some(Trial {
                begun: copied(self.alloc, steps)?,
                ending: Ending::There,
            })),
        }
    }

    /// As many of the last steps as are in one world, if they change the state more often than so.
    fn in_one_world(
        &mut self,
        aimed: Aimed<'_, '_>,
        steps: &[Step],
        most: u16,
    ) -> Result<Option<Trial>, AllocError> {
        let Some(core) = self.opened(aimed.links) else {
            return Ok(None);
        };
        let mut core = core;
        let tests = self.policy.counts().tests;
        let (count, results) = world_of(self.alloc, &mut core, tests, steps)?;
        let (begun, further) = steps.split_at_checked(count).unwrap_or((steps, &[]));
        if self.changes_by(&mut core, further)? <= usize::from(most) {
            return Ok(None);
        }
        Ok(Some(Trial {
            begun: copied(self.alloc, begun)?,
            ending: Ending::Within(copied(self.alloc, further)?, results),
        }))
    }

    /// How often steps change the state of a core. Changes of rounds that are meant are not counted.
    fn changes_by(&self, core: &mut Core<'_>, steps: &[Step]) -> Result<usize, AllocError> {
        let mut entered = Vec::new(self.alloc);
        entered.push(core.state())?;
        for step in steps {
            let before = core.state();
            make_step(core, *step);
            if core.state() != before {
                entered.push(core.state())?;
            }
        }
        count_unmeant(self.alloc, entered.as_slice(), self.meant.as_slice())
    }
}

/// The trial of steps that end with the one which is to break a claim.
fn by_last(alloc: Global, steps: &[Step]) -> Result<Option<Trial>, AllocError> {
    match steps.split_last() {
        Some((last, begun)) => Ok(Some(Trial {
            begun: copied(alloc, begun)?,
            ending: Ending::By(*last),
        })),
        None => Ok(None),
    }
}

/// The same steps.
fn copied(alloc: Global, steps: &[Step]) -> Result<Vec<Step>, AllocError> {
    let mut same = Vec::new(alloc);
    same.extend_from_slice(steps)?;
    Ok(same)
}

/// The steps without so many of them from a place on.
fn without(
    alloc: Global,
    steps: &[Step],
    place: usize,
    count: usize,
) -> Result<Vec<Step>, AllocError> {
    let mut fewer = Vec::new(alloc);
    for (number, step) in steps.iter().enumerate() {
        if number < place || number >= place.saturating_add(count) {
            fewer.push(*step)?;
        }
    }
    Ok(fewer)
}

/// Makes steps of a core until those that follow are in one world. Returns how many it makes, and the results of the tests in the world.
fn world_of(
    alloc: Global,
    core: &mut Core<'_>,
    tests: u16,
    steps: &[Step],
) -> Result<(usize, Vec<bool>), AllocError> {
    let mut begun = 0usize;
    for step in steps {
        let further = steps.get(begun..).unwrap_or(&[]);
        if let Some(results) = results_of(alloc, core, tests, further)? {
            return Ok((begun, results));
        }
        make_step(core, *step);
        begun = begun.saturating_add(1);
    }
    match results_of(alloc, core, tests, &[])? {
        Some(results) => Ok((begun, results)),
        None => Ok((begun, Vec::new(alloc))),
    }
}

/// The results of all tests in the world of some steps: of a test without a value the one that is reported, or else false. None if a
/// link changes or a test has two results.
fn results_of(
    alloc: Global,
    core: &Core<'_>,
    tests: u16,
    steps: &[Step],
) -> Result<Option<Vec<bool>>, AllocError> {
    let mut known = values_of(alloc, core, tests)?;
    for step in steps {
        match step {
            Step::Link(_, _) => return Ok(None),
            Step::Finished(test, _, value) => {
                if !is_consistent(known.as_mut_slice(), *test, *value) {
                    return Ok(None);
                }
            }
            Step::Tick(_) | Step::Take => {}
        }
    }
    let mut results = Vec::new(alloc);
    for value in &known {
        results.push(value.unwrap_or(false))?;
    }
    Ok(Some(results))
}

/// The value of each test of a core.
fn values_of(alloc: Global, core: &Core<'_>, tests: u16) -> Result<Vec<Option<bool>>, AllocError> {
    let mut values = Vec::new(alloc);
    for number in 0..tests {
        values.push(core.test_value(TestId(number)).flatten())?;
    }
    Ok(values)
}

/// Whether a result of a test is the one that is known. Keeps it if none is.
fn is_consistent(known: &mut [Option<bool>], test: TestId, value: bool) -> bool {
    match known.get_mut(usize::from(test.0)) {
        Some(place) => {
            let is_same = *place != Some(!value);
            *place = Some(value);
            is_same
        }
        None => true,
    }
}
