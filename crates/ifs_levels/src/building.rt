//! A search for the rows of a table. No clause speaks of it: the table is checked to be closed.
//!
//! The search follows all outcomes from the first levels on. Where it comes back to a state with another level by additions alone,
//! this goes on for ever, so the row has all levels from there on.

use crate::metering::{Change, only_adds};
use crate::moments::Outcome;
use crate::policy_outcomes::PolicyOutcomes;
use crate::ranges::{LevelRange, range_by};
use crate::rows::Row;
use ifs_base::StateId;
use std::alloc::{AllocError, Global};

/// The most rows of a table.
const MOST_ROWS: usize = 4_096;

/// A row, and how it was found.
#[derive(Clone, Copy, Drop)]
struct Found {
    row: Row,
    /// The number of the row before it. None at an opening from a first level.
    before: Option<usize>,
    /// Whether the commands between them only add.
    adds: bool,
    /// Whether another row has its levels too.
    is_covered: bool,
}

/// A search for rows. Once an allocation has failed, nothing that was found counts.
#[derive(Drop)]
struct RowSearch<'a> {
    meter: &'a [Change],
    found: Vec<Found>,
    /// Whether there are rows beyond the limit, or a level does not fit.
    is_cut: bool,
    has_failed: bool,
}

/// Rows that are closed if the search finds them all. None if there are too many, or a level does not fit. Returns an error if an
/// allocation fails.
pub(crate) fn rows_of(
    alloc: Global,
    outcomes: &PolicyOutcomes<'_>,
    meter: &[Change],
    keeps: bool,
    firsts: &[i64],
) -> Result<Option<Vec<Row>>, AllocError> {
    let mut search = RowSearch {
        meter,
        found: Vec::new(alloc),
        is_cut: false,
        has_failed: false,
    };
    search.open(outcomes, firsts);
    search.follow_all(outcomes, keeps);
    search.into_rows(alloc)
}

impl RowSearch<'_> {
    /// Adds what openings come to from first levels.
    fn open(&mut self, outcomes: &PolicyOutcomes<'_>, firsts: &[i64]) {
        let initial = outcomes.policy().initial();
        for first in firsts {
            self.follow(None, initial, LevelRange::only(*first), outcomes.opening());
        }
    }

    /// Adds what rows lead to, one after the other.
    fn follow_all(&mut self, outcomes: &PolicyOutcomes<'_>, keeps: bool) {
        for place in 0..MOST_ROWS {
            let Some(found) = self.found.get(place).copied() else {
                return;
            };
            if !found.is_covered {
                self.follow_row(outcomes, keeps, place, found.row);
            }
        }
    }

    /// Adds what a row leads to.
    fn follow_row(&mut self, outcomes: &PolicyOutcomes<'_>, keeps: bool, place: usize, row: Row) {
        if keeps {
            let initial = outcomes.policy().initial();
            self.follow(Some(place), initial, row.levels, outcomes.opening());
        }
        if let Some(next) = outcomes.in_state(row.state) {
            self.follow(Some(place), row.state, row.levels, next);
        }
    }

    /// Adds what outcomes lead to from a state with some levels.
    fn follow(
        &mut self,
        before: Option<usize>,
        state: StateId,
        levels: LevelRange,
        outcomes: &[Outcome],
    ) {
        for outcome in outcomes {
            match range_by(self.meter, levels, outcome.commands.as_slice()) {
                Some(after) => self.put(row_at(state, outcome.next, after), before, outcome),
                None => self.is_cut = true,
            }
        }
    }

    /// Adds a row, if no other one has its levels.
    fn put(&mut self, row: Row, before: Option<usize>, outcome: &Outcome) {
        if self.is_cut || self.has(&row) {
            return;
        }
        if self.found.len() >= MOST_ROWS {
            self.is_cut = true;
            return;
        }
        let adds = only_adds(self.meter, outcome.commands.as_slice());
        let row = self.widened(row, before, adds);
        self.cover(&row);
        let found = Found {
            row,
            before,
            adds,
            is_covered: false,
        };
        self.has_failed |= self.found.push(found).is_err();
    }

    /// Whether one row has the levels of another one.
    fn has(&self, row: &Row) -> bool {
        self.found
            .iter()
            .any(|found| !found.is_covered && covers(&found.row, row))
    }

    /// Notes which rows have no levels beside those of a new one.
    fn cover(&mut self, row: &Row) {
        for found in &mut self.found {
            if covers(row, &found.row) {
                found.is_covered = true;
            }
        }
    }

    /// A row with all levels that it comes to, if additions alone lead to it from a row of its state with another level.
    fn widened(&self, row: Row, before: Option<usize>, adds: bool) -> Row {
        let (mut place, mut adds) = (before, adds);
        for _ in 0..self.found.len() {
            let Some(number) = place else {
                return row;
            };
            let Some(found) = self.found.get(number) else {
                return row;
            };
            if !adds {
                return row;
            }
            if found.row.state.0 == row.state.0 && found.row.owed == row.owed {
                let levels = grown(found.row.levels, row.levels);
                return Row { levels, ..row };
            }
            place = found.before;
            adds = found.adds;
        }
        row
    }

    /// The rows that no other one covers.
    fn into_rows(self, alloc: Global) -> Result<Option<Vec<Row>>, AllocError> {
        if self.has_failed {
            return Err(AllocError);
        }
        if self.is_cut {
            return Ok(None);
        }
        let mut rows = Vec::new(alloc);
        for found in &self.found {
            if !found.is_covered {
                rows.push(found.row)?;
            }
        }
        Ok(Some(rows))
    }
}

/// The row where a state stays, or where the next one is entered.
fn row_at(state: StateId, next: Option<StateId>, levels: LevelRange) -> Row {
    Row {
        state: next.unwrap_or(state),
        owed: next.is_some(),
        levels,
    }
}

/// Whether a row has all levels of another one of its state.
fn covers(row: &Row, other: &Row) -> bool {
    row.state.0 == other.state.0 && row.owed == other.owed && row.levels.includes(&other.levels)
}

/// All levels that come of a range, if additions make another one of it again and again.
fn grown(before: LevelRange, after: LevelRange) -> LevelRange {
    match (before.least, after.least) {
        (Some(least), Some(next)) if next < least => LevelRange {
            least: None,
            greatest: before.greatest,
        },
        (Some(least), Some(_)) => LevelRange {
            least: Some(least),
            greatest: None,
        },
        _ => LevelRange {
            least: None,
            greatest: None,
        },
    }
}
