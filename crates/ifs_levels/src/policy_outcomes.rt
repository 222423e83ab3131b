//! All that may come of the moments of a policy.

ghost use Rattle.std.specs.Bool.{OnTrue};
ghost use Rattle.std.specs.Prelude.{◌≡◌, ◌⊎◌, false, true, All, IfOk, IfSome, None, OnOk};
ghost use Rattle.ifs_solver.specs.Budgets.{IsSpent, IsUsedUp};
ghost use Rattle.ifs_levels.specs.Levels.{HoldsFromOpenings, StaysWithin};
ghost use Rattle.ifs_levels.specs.Metering.{meter_of};
ghost use Rattle.ifs_levels.specs.Outcomes.{have_no_tests, AreOutcomesOf};
ghost use Rattle.ifs_levels.specs.Ranges.{OfEach, is_within};
ghost use Rattle.ifs_levels.specs.Rows.{IsClosedTable, IsInTable, IsRowClosed, LeadsOn, Opens};
ghost use Rattle.ifs_levels.specs.Within.{IsRowWithin, LeadsWithin, OpensWithin, RestsOnlyWithin};
ghost use Rattle.ifs_levels.specs.inner.Tables.{AreAllFrom};

use crate::metering::Change;
use crate::moments::{Moment, Outcome};
use crate::ranges::{LevelRange, all_stay, rest_within};
use crate::rows::{Row, all_lead};
use crate::searching::outcomes;
use ifs_base::StateId;
use ifs_claims::laws::steps_evaluate_once;
use ifs_policy::Policy;
use ifs_solver::Budget;
use std::alloc::{AllocError, Global};
use std::marker::Model;

/// All that may come of an evaluation in a state.
#[derive(Drop)]
pub(crate) struct StateOutcomes {
    pub outcomes: Vec<Outcome>,
}

/// A policy with all that may come of its opening, and of an evaluation in each of its states. Clauses see the policy.
#[derive(Drop)]
pub struct PolicyOutcomes<'a> {
    policy: &'a Policy,
    opening: Vec<Outcome>,
    /// By the number of the state.
    states: Vec<StateOutcomes>,
}

impl<'a> Model for PolicyOutcomes<'a> {
    ghost use Rattle.ifs_policy.specs.declared.policy.PolicyParts.{PolicyParts};
    ghost use Rattle.ifs_levels.specs.declared.moments.Moment.TheVariants.{Opening};
    ghost use Rattle.ifs_levels.specs.Outcomes.{AreOutcomesOf};
    ghost use Rattle.ifs_levels.specs.inner.Tables.{AreAllFrom};
    ghost use Rattle.std.specs.Coded.{codes};
    ghost use Rattle.ifs_policy.specs.contracts.policy.Handlers as handlers;

    ghost Value = { PolicyParts };

    ghost coded = { Prim.hlevel (codes, handlers.the_row.coded) };

    ghost view = { λ a. a.policy.now };

    ghost invariant = { λ a. AreOutcomesOf a.policy.now Opening a.opening.items × AreAllFrom a.policy.now 0 a.states.items };
}

impl<'a> PolicyOutcomes<'a> {
    /// A policy whose outcomes are searched. None if the budget ran out, or if an `init` has an external test, which no policy
    /// text can have. Returns an error if an allocation fails.
    pub fn of(
        alloc: Global,
        policy: &'a Policy,
        budget: &mut Budget,
    ) -> Result<Option<PolicyOutcomes<'a>>, AllocError>
        ensures value { IfOk result (λ found. IfSome found (λ all. all ≡ policy.now)) }
        ensures undecided { IfOk result (λ found. found ≡ None → IsUsedUp budget.old budget.new ⊎ (have_no_tests policy.now.states ≡ false)) }
        ensures spent { OnOk result (IsSpent budget.old budget.new) }
    {
        let Some(opening) = outcomes(alloc, policy, Moment::Opening, budget)? else {
            return Ok(None);
        };
        let Some(states) = states_of(alloc, policy, budget)? else {
            return Ok(None);
        };
        Ok(Some(PolicyOutcomes {
            policy,
            opening,
            states,
        }))
    }

    /// The policy.
    pub fn policy(&self) -> &Policy
        ensures { result.now ≡ self.now }
    {
        self.policy
    }

    /// All that may come of the opening.
    pub fn opening(&self) -> &[Outcome]
        ensures { AreOutcomesOf self.now Moment.Opening result.now }
    {
        self.opening.as_slice()
    }

    /// All that may come of an evaluation in a state. None if there is no such state.
    pub fn in_state(&self, state: StateId) -> Option<&[Outcome]>
        ensures { IfSome result (λ outcomes. AreOutcomesOf self.now (Moment.In state) outcomes.now) }
    {
        match self.states.as_slice().get(usize::from(state.0)) {
            None => None,
            Some(found) => Some(found.outcomes.as_slice()),
        }
    }

    /// Whether a table has each state and level that steps lead to, from a first level at the opening, and if a reload keeps the level,
    /// from that which is left. The meter has what each command does by its number. False if it is not closed: then an opening or an
    /// outcome leads out of it, or a level does not fit.
    pub fn is_closed(&self, meter: &[Change], keeps: bool, first: i64, rows: &[Row]) -> bool
        ensures { OnTrue result (HoldsFromOpenings self.now (meter_of meter.now) keeps first (IsInTable rows.now)) }
    {
        self.opens_from(meter, &first, rows) && self.are_closed(meter, keeps, rows)
    }

    /// Whether the level by what was run stays in a range, after any steps, from a first level at the opening, and if a reload keeps
    /// the level, from that which is left. Also between two commands of one event. The meter has what each command does by its number.
    /// False if the table is not closed, or if a command of an opening or of an outcome leads out of the range from one of its rows.
    pub fn stays_within(
        &self,
        meter: &[Change],
        keeps: bool,
        first: i64,
        rows: &[Row],
        range: &LevelRange,
    ) -> bool
        ensures { OnTrue result (StaysWithin self.now (meter_of meter.now) keeps first (is_within range.now)) }
    {
        self.is_closed(meter, keeps, first, rows)
            && self.keeps_within(meter, keeps, &first, rows, range)
    }

    /// Whether the policy rests in a state only with levels in a range, from a first level at the opening, and if a reload keeps the
    /// level, from that which is left. The meter has what each command does by its number. False if the table is not closed, or if a
    /// row of rest in the state has another level.
    pub fn rests_within(
        &self,
        meter: &[Change],
        keeps: bool,
        first: i64,
        rows: &[Row],
        state: StateId,
        range: &LevelRange,
    ) -> bool
        ensures { OnTrue result (RestsOnlyWithin self.now (meter_of meter.now) keeps first state (is_within range.now)) }
    {
        self.is_closed(meter, keeps, first, rows) && rest_within(rows, state, range)
    }

    /// Whether a table has each state and level that steps lead to from any of some first levels.
    pub(crate) fn has_all(
        &self,
        meter: &[Change],
        keeps: bool,
        firsts: &[i64],
        rows: &[Row],
    ) -> bool
        ensures { OnTrue result (All (λ first. HoldsFromOpenings self.now (meter_of meter.now) keeps first (IsInTable rows.now)) firsts.now) }
    {
        if !self.are_closed(meter, keeps, rows) {
            return false;
        }
        for first in firsts {
            if !self.opens_from(meter, first, rows) {
                return false;
            }
        }
        true
    }

    /// Whether no command leads out of a range from the rows of a closed table, and from openings with first levels.
    pub(crate) fn all_within(
        &self,
        meter: &[Change],
        keeps: bool,
        firsts: &[i64],
        rows: &[Row],
        range: &LevelRange,
    ) -> bool
        ensures { OnTrue result (All (λ first. HoldsFromOpenings self.now (meter_of meter.now) keeps first (IsInTable rows.now) → StaysWithin self.now (meter_of meter.now) keeps first (is_within range.now)) firsts.now) }
    {
        for first in firsts {
            if !self.keeps_within(meter, keeps, first, rows, range) {
                return false;
            }
        }
        true
    }

    /// Whether no command leads out of a range from the rows of a closed table.
    pub(crate) fn keeps_within(
        &self,
        meter: &[Change],
        keeps: bool,
        first: &i64,
        rows: &[Row],
        range: &LevelRange,
    ) -> bool
        ensures { OnTrue result (HoldsFromOpenings self.now (meter_of meter.now) keeps first.now (IsInTable rows.now) → StaysWithin self.now (meter_of meter.now) keeps first.now (is_within range.now)) }
    {
        steps_evaluate_once();
        let level = *first;
        self.opens_within(meter, LevelRange::only(level), range)
            && self.are_within(meter, keeps, rows, range)
    }

    /// Whether a table has each opening from a first level.
    pub(crate) fn opens_from(&self, meter: &[Change], first: &i64, rows: &[Row]) -> bool
        ensures { OnTrue result (Opens self.now (meter_of meter.now) rows.now first.now) }
    {
        let level = *first;
        self.opens(meter, LevelRange::only(level), rows)
    }

    /// Whether a table has each opening from some levels.
    fn opens(&self, meter: &[Change], levels: LevelRange, rows: &[Row]) -> bool
        ensures { OnTrue result (OfEach levels (Opens self.now (meter_of meter.now) rows.now)) }
    {
        all_lead(rows, meter, self.policy.initial(), levels, self.opening())
    }

    /// Whether a table has all that an evaluation in a state comes to from some levels.
    fn leads_on(&self, meter: &[Change], state: StateId, levels: LevelRange, rows: &[Row]) -> bool
        ensures { OnTrue result (OfEach levels (LeadsOn self.now (meter_of meter.now) rows.now state)) }
    {
        match self.in_state(state) {
            None => false,
            Some(outcomes) => all_lead(rows, meter, state, levels, outcomes),
        }
    }

    /// Whether a table has each opening from some levels, if a reload keeps them.
    fn reopens(&self, meter: &[Change], keeps: bool, levels: LevelRange, rows: &[Row]) -> bool
        ensures { OnTrue result (keeps ≡ true → OfEach levels (Opens self.now (meter_of meter.now) rows.now)) }
    {
        !keeps || self.opens(meter, levels, rows)
    }

    /// Whether nothing leads out of a table from a row.
    fn is_row_closed(&self, meter: &[Change], keeps: bool, row: &Row, rows: &[Row]) -> bool
        ensures { OnTrue result (IsRowClosed self.now (meter_of meter.now) keeps rows.now row.now) }
    {
        self.reopens(meter, keeps, row.levels, rows)
            && self.leads_on(meter, row.state, row.levels, rows)
    }

    /// Whether no opening leads out of a range on the way, from some levels.
    fn opens_within(&self, meter: &[Change], levels: LevelRange, range: &LevelRange) -> bool
        ensures { OnTrue result (OfEach levels (OpensWithin self.now (meter_of meter.now) (is_within range.now))) }
    {
        all_stay(meter, range, levels, self.opening())
    }

    /// Whether no evaluation in a state leads out of a range on the way, from some levels.
    fn leads_within(
        &self,
        meter: &[Change],
        state: StateId,
        levels: LevelRange,
        range: &LevelRange,
    ) -> bool
        ensures { OnTrue result (OfEach levels (LeadsWithin self.now (meter_of meter.now) (is_within range.now) state)) }
    {
        match self.in_state(state) {
            None => false,
            Some(outcomes) => all_stay(meter, range, levels, outcomes),
        }
    }

    /// Whether no opening leads out of a range on the way, from some levels, if a reload keeps them.
    fn reopens_within(
        &self,
        meter: &[Change],
        keeps: bool,
        levels: LevelRange,
        range: &LevelRange,
    ) -> bool
        ensures { OnTrue result (keeps ≡ true → OfEach levels (OpensWithin self.now (meter_of meter.now) (is_within range.now))) }
    {
        !keeps || self.opens_within(meter, levels, range)
    }

    /// Whether nothing leads out of a range from a row.
    fn is_row_within(&self, meter: &[Change], keeps: bool, row: &Row, range: &LevelRange) -> bool
        ensures { OnTrue result (IsRowWithin self.now (meter_of meter.now) keeps (is_within range.now) row.now) }
    {
        self.reopens_within(meter, keeps, row.levels, range)
            && self.leads_within(meter, row.state, row.levels, range)
    }

    /// Whether nothing leads out of a range from some rows.
    fn are_within(&self, meter: &[Change], keeps: bool, rows: &[Row], range: &LevelRange) -> bool
        ensures { OnTrue result (All (IsRowWithin self.now (meter_of meter.now) keeps (is_within range.now)) rows.now) }
    {
        for row in rows {
            if !self.is_row_within(meter, keeps, row, range) {
                return false;
            }
        }
        true
    }

    /// Whether nothing leads out of a table from its rows.
    fn all_closed(&self, meter: &[Change], keeps: bool, rows: &[Row]) -> bool
        ensures { OnTrue result (All (IsRowClosed self.now (meter_of meter.now) keeps rows.now) rows.now) }
    {
        for row in rows {
            if !self.is_row_closed(meter, keeps, row, rows) {
                return false;
            }
        }
        true
    }

    /// Whether nothing leads out of a table, so that it has all that steps lead to from each level at which it has the opening.
    pub(crate) fn are_closed(&self, meter: &[Change], keeps: bool, rows: &[Row]) -> bool
        ensures { OnTrue result (IsClosedTable self.now (meter_of meter.now) keeps rows.now) }
    {
        steps_evaluate_once();
        self.all_closed(meter, keeps, rows)
    }
}

/// All that may come of an evaluation in each state. None if the budget ran out.
fn states_of(
    alloc: Global,
    policy: &Policy,
    budget: &mut Budget,
) -> Result<Option<Vec<StateOutcomes>>, AllocError>
    ensures all { IfOk result (λ found. IfSome found (λ states. AreAllFrom policy.now 0 states.items)) }
    ensures undecided { IfOk result (λ found. found ≡ None → IsUsedUp budget.old budget.new ⊎ (have_no_tests policy.now.states ≡ false)) }
    ensures spent { OnOk result (IsSpent budget.old budget.new) }
{
    let mut states = Vec::new(alloc);
    for index in 0..policy.counts().states {
        let Some(outcomes) = outcomes(alloc, policy, Moment::In(StateId(index)), budget)? else {
            return Ok(None);
        };
        states.push(StateOutcomes { outcomes })?;
    }
    Ok(Some(states))
}
