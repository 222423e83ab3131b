//! Changes of the state that belong to rounds which are meant.

use ifs_base::{StateId, limits};
use std::alloc::{AllocError, Global};

/// How many states a word of a set has.
const BITS: u16 = 64;

/// Some states of a policy.
#[derive(Clone, Copy, PartialEq, Eq)]
pub(crate) struct StateSet {
    words: [u64; 4],
}

impl StateSet {
    /// These states.
    pub fn of(states: &[StateId]) -> StateSet {
        let mut set = StateSet { words: [0; 4] };
        for state in states {
            set.insert(*state);
        }
        set
    }

    fn insert(&mut self, state: StateId) {
        if let Some(word) = self.words.get_mut(usize::from(state.0 / BITS)) {
            *word |= bit_of(state);
        }
    }

    /// Whether a state is among them.
    pub fn has(self, state: StateId) -> bool {
        match self.words.get(usize::from(state.0 / BITS)) {
            Some(word) => word & bit_of(state) != 0,
            None => false,
        }
    }

    /// How many they are.
    fn len(self) -> usize {
        let mut count = 0usize;
        for word in self.words {
            count = count.saturating_add(word.count_ones() as usize);
        }
        count
    }
}

/// The bit of a state in its word.
fn bit_of(state: StateId) -> u64 {
    1u64 << u32::from(state.0 % BITS)
}

/// For each change along some states, each from one to the next, whether it belongs to no round that is meant. A round is meant if its
/// states are just those of a set.
pub(crate) fn unmeant(
    alloc: Global,
    entered: &[StateId],
    meant: &[StateSet],
) -> Result<Vec<bool>, AllocError> {
    let mut marks = Vec::new(alloc);
    for end in 1..entered.len() {
        marks.push(true)?;
        if let Some(start) = round_before(entered, end)
            && is_meant(entered.get(start..end).unwrap_or(&[]), meant)
        {
            clear(marks.as_mut_slice(), start);
        }
    }
    Ok(marks)
}

/// How many changes along some states belong to no round that is meant.
pub(crate) fn count_unmeant(
    alloc: Global,
    entered: &[StateId],
    meant: &[StateSet],
) -> Result<usize, AllocError> {
    let mut count = 0usize;
    for is_unmeant in &unmeant(alloc, entered, meant)? {
        count = count.saturating_add(usize::from(*is_unmeant));
    }
    Ok(count)
}

/// Where the state at a place was entered last before, if a round may have led from there to it.
fn round_before(entered: &[StateId], end: usize) -> Option<usize> {
    let state = entered.get(end)?;
    for length in 1..usize::from(limits::STATES).saturating_add(1) {
        let start = end.checked_sub(length)?;
        if entered.get(start) == Some(state) {
            return Some(start);
        }
    }
    None
}

/// Whether some states follow each other once each, and are just those of a set.
fn is_meant(round: &[StateId], meant: &[StateSet]) -> bool {
    let states = StateSet::of(round);
    states.len() == round.len() && meant.contains(&states)
}

/// Clears the marks from a place on.
fn clear(marks: &mut [bool], start: usize) {
    for place in start..marks.len() {
        if let Some(mark) = marks.get_mut(place) {
            *mark = false;
        }
    }
}
