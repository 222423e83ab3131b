//! Closed tables of states with levels.

ghost use Rattle.std.specs.Bool.{OnTrue};
ghost use Rattle.std.specs.Prelude.{◌≡◌, All, IfOk, IfSome, OnOk};
ghost use Rattle.ifs_levels.specs.Ranges.{is_within};
ghost use Rattle.ifs_levels.specs.Rows.{HasAll, HoldsInTable};
ghost use Rattle.ifs_levels.specs.Within.{AddsRest, IsAtRestIn, IsRestAmong, TableRestsWithin, TableStaysWithin};

use crate::building::rows_of;
use crate::metering::Change;
use crate::policy_outcomes::PolicyOutcomes;
use crate::ranges::{LevelRange, rest_within};
use crate::rows::Row;
use ifs_base::StateId;
use std::alloc::{AllocError, Global};
use std::marker::Model;

/// A table of states with levels, which has each state and level that steps lead to, from any of some first levels at the opening,
/// and if a reload keeps the level, from that which is left. Clauses see its parts.
#[derive(Drop)]
pub struct LevelTable<'a> {
    outcomes: &'a PolicyOutcomes<'a>,
    /// What each command does to the level, by its number.
    meter: Vec<Change>,
    keeps: bool,
    firsts: Vec<i64>,
    rows: Vec<Row>,
}

impl<'a> Model for LevelTable<'a> {
    ghost use Rattle.ifs_levels.specs.Rows.{TableParts, HasAll};
    ghost use Rattle.std.specs.Coded.{codes};
    ghost use Rattle.ifs_policy.specs.contracts.policy.Handlers as handlers;

    ghost Value = { TableParts };

    ghost coded = { Prim.hlevel (codes, handlers.the_row.coded) };

    ghost view = { λ t. record { policy = t.outcomes.now; meter = t.meter.items; keeps = t.keeps; firsts = t.firsts.items; rows = t.rows.items } };

    ghost invariant = { λ t. HasAll (record { policy = t.outcomes.now; meter = t.meter.items; keeps = t.keeps; firsts = t.firsts.items; rows = t.rows.items }) };
}

impl<'a> LevelTable<'a> {
    /// The table of a level. None if it would have more than 4,096 rows, or a level does not fit. Returns an error if an allocation
    /// fails.
    pub fn of(
        alloc: Global,
        outcomes: &'a PolicyOutcomes<'a>,
        meter: &[Change],
        keeps: bool,
        firsts: &[i64],
    ) -> Result<Option<LevelTable<'a>>, AllocError>
        ensures policy { IfOk result (λ found. IfSome found (λ table. table.policy ≡ outcomes.now)) }
        ensures meter { IfOk result (λ found. IfSome found (λ table. table.meter ≡ meter.now)) }
        ensures keeps { IfOk result (λ found. IfSome found (λ table. table.keeps ≡ keeps)) }
        ensures firsts { IfOk result (λ found. IfSome found (λ table. table.firsts ≡ firsts.now)) }
    {
        let Some(rows) = rows_of(alloc, outcomes, meter, keeps, firsts)? else {
            return Ok(None);
        };
        if !outcomes.has_all(meter, keeps, firsts, rows.as_slice()) {
            return Ok(None);
        }
        Ok(Some(LevelTable {
            outcomes,
            meter: copied(alloc, meter)?,
            keeps,
            firsts: copied(alloc, firsts)?,
            rows,
        }))
    }

    /// Whether the level by what was run stays in a range after any steps, also between two commands of one event. False if a command
    /// of an opening or of an evaluation leads out of the range from a row.
    pub fn stays_within(&self, range: &LevelRange) -> bool
        ensures { OnTrue result (TableStaysWithin self.now (is_within range.now)) }
    {
        self.outcomes.all_within(
            self.meter.as_slice(),
            self.keeps,
            self.firsts.as_slice(),
            self.rows.as_slice(),
            range,
        )
    }

    /// Whether the policy rests in a state only with levels in a range. False if a row of rest in the state has another level.
    pub fn rests_within(&self, state: StateId, range: &LevelRange) -> bool
        ensures { OnTrue result (TableRestsWithin self.now state (is_within range.now)) }
    {
        rest_within(self.rows.as_slice(), state, range)
    }

    /// The levels with which the policy rests in a state: all, and perhaps some more.
    pub fn levels_at_rest(
        &self,
        alloc: Global,
        state: StateId,
    ) -> Result<Vec<LevelRange>, AllocError>
        ensures { IfOk result (λ ranges. HoldsInTable self.now (IsAtRestIn self.now.policy state ranges.items)) }
    {
        let ranges = levels_in(alloc, self.rows.as_slice(), state)?;
        Ok(ranges)
    }

    /// Whether the levels of each row have a least and a greatest one.
    pub fn is_bounded(&self) -> bool {
        self.rows.iter().all(|row| row.levels.least.is_some() && row.levels.greatest.is_some())
    }

    /// The rows.
    pub fn rows(&self) -> &[Row]
        ensures value { result.now ≡ self.now.rows }
        ensures all { HasAll self.now }
    {
        self.rows.as_slice()
    }
}

/// The same values.
fn copied<T: Copy + Drop>(alloc: Global, values: &[T]) -> Result<Vec<T>, AllocError>
    ensures { IfOk result (λ same. same.items ≡ values.now) }
{
    let mut same = Vec::new(alloc);
    same.extend_from_slice(values)?;
    Ok(same)
}

/// The levels of the rows of rest in a state.
fn levels_in(alloc: Global, rows: &[Row], state: StateId) -> Result<Vec<LevelRange>, AllocError>
    ensures { IfOk result (λ ranges. All (IsRestAmong state ranges.items) rows.now) }
{
    let mut ranges = Vec::new(alloc);
    for row in rows {
        put_rest(&mut ranges, row, state)?;
    }
    Ok(ranges)
}

/// Adds the levels of a row, if it is one of rest in a state.
fn put_rest(ranges: &mut Vec<LevelRange>, row: &Row, state: StateId) -> Result<(), AllocError>
    ensures { OnOk result (AddsRest state row.now ranges.old.items ranges.new.items) }
{
    if row.state.0 == state.0 && !row.owed {
        ranges.push(row.levels)?;
    }
    Ok(())
}
