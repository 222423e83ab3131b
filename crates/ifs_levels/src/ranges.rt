//! Ranges of levels, and what commands make of them.

ghost use Rattle.std.specs.Bool.{OnTrue};
ghost use Rattle.std.specs.Prelude.{◌≡◌, All, IfSome, Some};
ghost use Rattle.ifs_levels.specs.Metering.{meter_of};
ghost use Rattle.ifs_levels.specs.Ranges.{HasAllOf, end_changed, is_from, is_up_to, is_within, range_by, range_changed};
ghost use Rattle.ifs_levels.specs.Within.{IsRestWithin};
ghost use Rattle.ifs_levels.specs.inner.Ranges.{EndsBy, IsStaying, StartsBy, StaysIn};

use crate::metering::Change;
use crate::moments::Outcome;
use crate::rows::Row;
use ifs_base::{CommandId, StateId};

/// The levels from the least to the greatest, both included. None is no bound.
#[derive(Clone, Copy, Debug, PartialEq, Eq)]
pub struct LevelRange {
    pub least: Option<i64>,
    pub greatest: Option<i64>,
}

impl LevelRange {
    /// One level.
    pub fn only(level: i64) -> LevelRange
        ensures least { result.least ≡ Some level }
        ensures greatest { result.greatest ≡ Some level }
    {
        LevelRange {
            least: Some(level),
            greatest: Some(level),
        }
    }

    /// Whether it has a level.
    pub fn has(&self, level: i64) -> bool
        ensures { result ≡ is_within self.now level }
    {
        is_from(self.least, level) && is_up_to(self.greatest, level)
    }

    /// Whether it begins no later than another one, and ends no earlier. Then it has all levels of the other one.
    pub fn includes(&self, other: &LevelRange) -> bool
        ensures { OnTrue result (HasAllOf self.now other.now) }
    {
        begins_by(self.least, other.least) && ends_by(self.greatest, other.greatest)
    }
}

/// Whether a level is not below the least one, if there is one.
fn is_from(least: Option<i64>, level: i64) -> bool
    ensures { result ≡ is_from least level }
{
    match least {
        None => true,
        Some(least) => least <= level,
    }
}

/// Whether a level is not above the greatest one, if there is one.
fn is_up_to(greatest: Option<i64>, level: i64) -> bool
    ensures { result ≡ is_up_to greatest level }
{
    match greatest {
        None => true,
        Some(greatest) => level <= greatest,
    }
}

/// Whether a range with the first least level begins no later than one with the other.
fn begins_by(least: Option<i64>, other: Option<i64>) -> bool
    ensures { OnTrue result (StartsBy least other) }
{
    match (least, other) {
        (None, _) => true,
        (Some(_), None) => false,
        (Some(least), Some(other)) => least <= other,
    }
}

/// Whether a range with the first greatest level ends no earlier than one with the other.
fn ends_by(greatest: Option<i64>, other: Option<i64>) -> bool
    ensures { OnTrue result (EndsBy greatest other) }
{
    match (greatest, other) {
        (None, _) => true,
        (Some(_), None) => false,
        (Some(greatest), Some(other)) => other <= greatest,
    }
}

/// The end of a range after a change. None if it does not fit.
fn end_changed(change: Change, end: Option<i64>) -> Option<Option<i64>>
    ensures { IfSome result (λ after. after ≡ end_changed change end) }
{
    match (change, end) {
        (Change::Keeps, _) => Some(end),
        (Change::Adds(_), None) => Some(None),
        (Change::Adds(number), Some(level)) => match level.checked_add(number) {
            None => None,
            Some(sum) => Some(Some(sum)),
        },
        (Change::Sets(value), _) => Some(Some(value)),
    }
}

/// The levels after a change. None if an end does not fit.
fn range_changed(change: Change, levels: LevelRange) -> Option<LevelRange>
    ensures { IfSome result (λ after. after ≡ range_changed change levels) }
{
    match (
        end_changed(change, levels.least),
        end_changed(change, levels.greatest),
    ) {
        (Some(least), Some(greatest)) => Some(LevelRange { least, greatest }),
        _ => None,
    }
}

/// The levels after a command. None if an end does not fit.
fn range_after(meter: &[Change], levels: LevelRange, command: CommandId) -> Option<LevelRange>
    ensures { IfSome result (λ after. after ≡ range_changed (meter_of meter.now command) levels) }
{
    match meter.get(usize::from(command.0)) {
        None => Some(levels),
        Some(change) => range_changed(*change, levels),
    }
}

/// The levels after some commands, in order. The meter has what each command does by its number: nothing if it is not there.
/// None if an end does not fit on the way.
pub fn range_by(meter: &[Change], levels: LevelRange, commands: &[CommandId]) -> Option<LevelRange>
    ensures { IfSome result (λ after. after ≡ range_by (meter_of meter.now) levels commands.now) }
{
    let mut now_at = levels;
    for command in commands {
        match range_after(meter, now_at, *command) {
            None => return None,
            Some(after) => now_at = after,
        }
    }
    Some(now_at)
}

/// Whether a range has some levels, and all that some commands make of them one after the other.
fn stays(meter: &[Change], range: &LevelRange, levels: LevelRange, commands: &[CommandId]) -> bool
    ensures { OnTrue result (StaysIn (meter_of meter.now) range.now levels commands.now) }
{
    let mut now_at = levels;
    for command in commands {
        if !range.includes(&now_at) {
            return false;
        }
        match range_after(meter, now_at, *command) {
            None => return false,
            Some(after) => now_at = after,
        }
    }
    range.includes(&now_at)
}

/// Whether an outcome does not lead out of a range on the way, from some levels.
fn outcome_stays(
    meter: &[Change],
    range: &LevelRange,
    levels: LevelRange,
    outcome: &Outcome,
) -> bool
    ensures { OnTrue result (IsStaying (meter_of meter.now) range.now levels outcome.now) }
{
    stays(meter, range, levels, outcome.commands.as_slice())
}

/// Whether none of some outcomes leads out of a range on the way, from some levels.
pub(crate) fn all_stay(
    meter: &[Change],
    range: &LevelRange,
    levels: LevelRange,
    outcomes: &[Outcome],
) -> bool
    ensures { OnTrue result (All (IsStaying (meter_of meter.now) range.now levels) outcomes.now) }
{
    for outcome in outcomes {
        if !outcome_stays(meter, range, levels, outcome) {
            return false;
        }
    }
    true
}

/// Whether a row is not one of rest in a state, or a range has its levels.
fn is_rest_within(row: &Row, state: StateId, range: &LevelRange) -> bool
    ensures { OnTrue result (IsRestWithin state (is_within range.now) row.now) }
{
    row.state.0 != state.0 || (row.owed || range.includes(&row.levels))
}

/// Whether a range has the levels of all rows of rest in a state.
pub(crate) fn rest_within(rows: &[Row], state: StateId, range: &LevelRange) -> bool
    ensures { OnTrue result (All (IsRestWithin state (is_within range.now)) rows.now) }
{
    for row in rows {
        if !is_rest_within(row, state, range) {
            return false;
        }
    }
    true
}
