//! A search for facts under which two policies do something else at a moment.

ghost use Rattle.std.specs.Prelude.{◌≤◌, IfOk, IsSome};
ghost use Rattle.ifs_compare.specs.inner.Evaluating.{DoMomentsDiffer};

use crate::choosing::{Both, Witness, both_outcomes, witness_in};
use crate::effort::Effort;
use crate::evaluating::{Moment, Outcomes};
use crate::sides::Stage;
use ifs_base::StateId;
use ifs_solver::{Branch, Domain, FactSet};
use std::alloc::AllocError;

/// The situations that one search may look at.
const LOOKS: u32 = 5_000;

/// What a search found, and what is left of its budget.
#[derive(Clone, Copy)]
struct Explored {
    found: bool,
    left: u32,
}

/// What a search looks for: evaluations at a moment that differ. If a state is given, both lead there.
#[derive(Clone, Copy)]
struct Sought {
    moment: Moment,
    entered: Option<StateId>,
}

impl Sought {
    /// Whether two policies that do this are what is looked for.
    fn is_met(self, outcomes: &Outcomes) -> bool {
        let leads = match self.entered {
            Some(_) => outcomes.old.next == self.entered && outcomes.new.next == self.entered,
            None => true,
        };
        leads && outcomes.differ()
    }
}

/// Facts under which two policies differ at a moment, if a search finds any. If a state is given, both lead there then.
pub(crate) fn explored_witness(
    stage: &Stage<'_>,
    effort: &mut Effort,
    moment: Moment,
    entered: Option<StateId>,
) -> Result<Option<Witness>, AllocError>
    ensures { IfOk result (λ found. IsSome found → DoMomentsDiffer stage.now.scope stage.now.sides) }
{
    let mut range = FactSet::full(stage.alloc, stage.scope)?;
    let given = effort.left.min(LOOKS);
    let sought = Sought { moment, entered };
    let explored = explore(stage, sought, &mut range, given)?;
    effort.spend(given, explored.left);
    if explored.found {
        let witness = witness_in(stage, moment, &range)?;
        Ok(witness)
    } else {
        Ok(None)
    }
}

/// Searches a range. If something is found, the range becomes a part of it in which the policies differ. Otherwise it stays.
#[cycle(explore)]
fn explore(
    stage: &Stage<'_>,
    sought: Sought,
    range: &mut FactSet,
    budget: u32,
) -> Result<Explored, AllocError>
    ensures { IfOk result (λ it. it.left ≤ budget) }
{
    if budget == 0 {
        return Ok(Explored {
            found: false,
            left: 0,
        });
    }
    let left = budget - 1;
    match both_outcomes(stage, sought.moment, range)? {
        Both::Known(outcomes) => Ok(Explored {
            found: sought.is_met(&outcomes),
            left,
        }),
        Both::Open(ask) => {
            let explored = explore_both(stage, sought, range, ask, left)?;
            Ok(explored)
        }
    }
}

/// Searches both parts of a range: that with the value that is asked for, and that with all others.
#[cycle(explore)]
fn explore_both(
    stage: &Stage<'_>,
    sought: Sought,
    range: &mut FactSet,
    ask: Branch,
    budget: u32,
) -> Result<Explored, AllocError>
    ensures { IfOk result (λ it. it.left ≤ budget) }
{
    let Some(choice) = range.domain(ask) else {
        return Ok(Explored {
            found: false,
            left: budget,
        });
    };
    let asked = choice.only(ask.value());
    let first = explore_part(stage, sought, range, ask, asked, budget)?;
    if first.found {
        return Ok(first);
    }
    let others = choice.without(ask.value());
    let second = explore_part(stage, sought, range, ask, others, first.left)?;
    if !second.found {
        range.put(ask, choice);
    }
    Ok(second)
}

/// Searches the part of a range with another choice at a place.
#[cycle(explore)]
fn explore_part(
    stage: &Stage<'_>,
    sought: Sought,
    range: &mut FactSet,
    ask: Branch,
    part: Domain,
    budget: u32,
) -> Result<Explored, AllocError>
    ensures { IfOk result (λ it. it.left ≤ budget) }
{
    if !part.has_one() {
        return Ok(Explored {
            found: false,
            left: budget,
        });
    }
    range.put(ask, part);
    let explored = explore(stage, sought, range, budget)?;
    Ok(explored)
}
