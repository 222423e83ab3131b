//! Whether a table of states with levels has all that outcomes lead to.

ghost use Rattle.std.specs.Bool.{OnTrue};
ghost use Rattle.std.specs.Prelude.{All};
ghost use Rattle.ifs_levels.specs.Metering.{meter_of};
ghost use Rattle.ifs_levels.specs.Ranges.{OfEach, is_within};
ghost use Rattle.ifs_levels.specs.Rows.{HasNext, HasRow, IsRowOf, LeadsToRow};

use crate::metering::Change;
use crate::moments::Outcome;
use crate::ranges::{LevelRange, range_by};
use ifs_base::StateId;

/// A state with levels.
#[derive(Clone, Copy, Debug, PartialEq, Eq)]
pub struct Row {
    pub state: StateId,
    /// The state was just entered, and an evaluation is owed.
    pub owed: bool,
    /// The levels once the queue is run.
    pub levels: LevelRange,
}

/// Whether a row has a state with some levels.
fn is_row_of(row: &Row, state: StateId, owed: bool, levels: &LevelRange) -> bool
    ensures { OnTrue result (OfEach levels.now (λ level. IsRowOf state owed level row.now)) }
{
    row.state.0 == state.0 && row.owed == owed && row.levels.includes(levels)
}

/// Whether one row of a table has a state with some levels.
fn has_row(rows: &[Row], state: StateId, owed: bool, levels: &LevelRange) -> bool
    ensures { OnTrue result (OfEach levels.now (HasRow rows.now state owed)) }
{
    for row in rows {
        if is_row_of(row, state, owed, levels) {
            return true;
        }
    }
    false
}

/// Whether there is a row where a state stays, or where the next one is entered.
fn has_next(rows: &[Row], state: StateId, next: Option<StateId>, levels: &LevelRange) -> bool
    ensures { OnTrue result (OfEach levels.now (HasNext rows.now state next)) }
{
    match next {
        None => has_row(rows, state, false, levels),
        Some(next) => has_row(rows, next, true, levels),
    }
}

/// Whether there is a row where an outcome leads from a state with some levels.
fn leads(
    rows: &[Row],
    meter: &[Change],
    state: StateId,
    levels: LevelRange,
    outcome: &Outcome,
) -> bool
    ensures { OnTrue result (OfEach levels (λ level. LeadsToRow rows.now (meter_of meter.now) state level outcome.now)) }
{
    match range_by(meter, levels, outcome.commands.as_slice()) {
        None => false,
        Some(after) => has_next(rows, state, outcome.next, &after),
    }
}

/// Whether there is a row where each of some outcomes leads from a state with some levels. The meter has what each command does by
/// its number.
pub fn all_lead(
    rows: &[Row],
    meter: &[Change],
    state: StateId,
    levels: LevelRange,
    outcomes: &[Outcome],
) -> bool
    ensures { OnTrue result (All (λ outcome. OfEach levels (λ level. LeadsToRow rows.now (meter_of meter.now) state level outcome)) outcomes.now) }
{
    for outcome in outcomes {
        if !leads(rows, meter, state, levels, outcome) {
            return false;
        }
    }
    true
}
