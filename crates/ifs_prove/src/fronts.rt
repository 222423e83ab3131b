//! Which of the steps in a world are printed: those until the state has changed too often, or until two rounds show how it goes on.

use crate::laps::{StateSet, unmeant};
use ifs_base::StateId;
use ifs_core::{Core, Step};
use ifs_play::make_step;
use std::alloc::{AllocError, Global};

/// So many changes are printed, also where there are rounds.
const CHANGES: usize = 16;

/// The front of the steps in a world that is printed.
#[derive(Clone, Copy)]
pub(crate) struct Front {
    /// The number of steps.
    steps: usize,
    /// Whether it ends with two rounds, which go on.
    pub is_round: bool,
}

impl Front {
    /// No steps.
    pub const NONE: Front = Front {
        steps: 0,
        is_round: false,
    };

    /// These steps of some.
    pub fn of(self, steps: &[Step]) -> &[Step] {
        steps.get(..self.steps).unwrap_or(steps)
    }
}

/// The steps of a core until its state has changed more often than so, or until two rounds are made. Changes of rounds that are meant
/// are not counted.
pub(crate) fn front_of(
    alloc: Global,
    core: &mut Core<'_>,
    steps: &[Step],
    meant: &[StateSet],
    most: u16,
) -> Result<Front, AllocError> {
    let mut entered = Vec::new(alloc);
    let mut places = Vec::new(alloc);
    entered.push(core.state())?;
    for (place, step) in steps.iter().enumerate() {
        let before = core.state();
        make_step(core, *step);
        if core.state() != before {
            entered.push(core.state())?;
            places.push(place.saturating_add(1))?;
            let is_enough = meant.is_empty() && places.len() > usize::from(most);
            if is_enough || has_two_rounds(entered.as_slice()) {
                break;
            }
        }
    }
    let counts = unmeant(alloc, entered.as_slice(), meant)?;
    match place_beyond(places.as_slice(), counts.as_slice(), most) {
        Some(steps) => Ok(Front {
            steps,
            is_round: false,
        }),
        None => Ok(whole_front(entered.as_slice(), places.as_slice(), steps.len())),
    }
}

/// How many steps it takes until more changes than so count.
fn place_beyond(places: &[usize], counts: &[bool], most: u16) -> Option<usize> {
    let mut counted = 0usize;
    for (place, is_counted) in places.iter().zip(counts) {
        counted = counted.saturating_add(usize::from(*is_counted));
        if counted > usize::from(most) {
            return Some(*place);
        }
    }
    None
}

/// The front with all changes, of so many steps unless it ends with two rounds.
fn whole_front(entered: &[StateId], places: &[usize], count: usize) -> Front {
    let is_round = has_two_rounds(entered);
    let steps = match places.last() {
        Some(place) if is_round => *place,
        _ => count,
    };
    Front { steps, is_round }
}

/// Whether many states end with two rounds.
fn has_two_rounds(entered: &[StateId]) -> bool {
    if entered.len() <= CHANGES {
        return false;
    }
    for period in 1..(entered.len() / 2).saturating_add(1) {
        if is_periodic(entered, period) {
            return true;
        }
    }
    false
}

/// Whether the last states are two rounds of so many changes.
fn is_periodic(entered: &[StateId], period: usize) -> bool {
    let before = entered
        .get(..entered.len().saturating_sub(period))
        .unwrap_or(&[]);
    let mut same = 0usize;
    for (one, other) in entered.iter().rev().zip(before.iter().rev()) {
        if one != other {
            return false;
        }
        same = same.saturating_add(1);
        if same > period {
            return true;
        }
    }
    false
}
