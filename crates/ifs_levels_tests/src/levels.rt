//! Levels of a policy with two states, whose inits run a command each.

use ifs_base::{CommandId, StateId};
use ifs_levels::{
    Change, LevelRange, LevelTable, Moment, PolicyOutcomes, Row, TrackedLevel, all_lead, level_by,
    outcomes, range_by,
};
use ifs_policy::policy_of;
use ifs_solver::Budget;
use std::alloc::Global;
use std::process::Abort;
use std::test::Fail;

/// Two states that follow a link.
const PAIR: &str =
    "state a { init run \"worse\" if e.link.up set-state b } state b { init run \"better\" if ! e.link.up set-state a }";

/// The commands add 50 and take it away.
const ADDING: &[Change] = &[Change::Adds(50), Change::Adds(-50)];

/// The commands set 50 and 0.
const SETTING: &[Change] = &[Change::Sets(50), Change::Sets(0)];

/// All levels of a first opening at 0.
const ROWS: &[Row] = &[
    Row {
        state: StateId(0),
        owed: true,
        levels: LevelRange {
            least: Some(50),
            greatest: Some(50),
        },
    },
    Row {
        state: StateId(0),
        owed: false,
        levels: LevelRange {
            least: Some(50),
            greatest: Some(50),
        },
    },
    Row {
        state: StateId(1),
        owed: true,
        levels: LevelRange {
            least: Some(0),
            greatest: Some(0),
        },
    },
    Row {
        state: StateId(1),
        owed: false,
        levels: LevelRange {
            least: Some(0),
            greatest: Some(0),
        },
    },
];

/// The levels from 0 on.
const FROM_ZERO: LevelRange = LevelRange {
    least: Some(0),
    greatest: None,
};

#[test]
fn levels(rt: HostRuntime) -> Result<(), Fail> {
    let commands = &[CommandId(0), CommandId(0), CommandId(1), CommandId(2)];
    assert_eq!(rt; level_by(ADDING, 7, commands), Some(57));
    assert_eq!(rt; level_by(SETTING, 7, commands), Some(0));
    assert_eq!(rt; level_by(ADDING, i64::MAX, commands), None);
    Ok(())
}

#[test]
fn ranges(rt: HostRuntime) -> Result<(), Fail> {
    let commands = &[CommandId(0), CommandId(0), CommandId(1)];
    let after = LevelRange {
        least: Some(50),
        greatest: None,
    };
    assert_eq!(rt; range_by(ADDING, FROM_ZERO, commands), Some(after));
    assert_eq!(rt;
        range_by(SETTING, FROM_ZERO, commands),
        Some(LevelRange::only(0))
    );
    assert_eq!(rt;
        range_by(ADDING, LevelRange::only(i64::MAX), commands),
        None
    );
    assert!(rt; FROM_ZERO.includes(&after) && !after.includes(&FROM_ZERO));
    Ok(())
}

#[test]
fn tracked(rt: HostRuntime) -> Result<(), Fail> {
    let few = LevelRange {
        least: Some(0),
        greatest: Some(50),
    };
    let begun = TrackedLevel::begin(&few, 0);
    let Some(there) = begun.after(ADDING, &few, &[CommandId(0), CommandId(1)]) else {
        assert!(rt; false, "there");
        return Ok(());
    };
    assert_eq!(rt; there.level, 0);
    assert!(rt; there.has_stayed);
    let Some(beyond) = begun.after(ADDING, &few, &[CommandId(1), CommandId(0)]) else {
        assert!(rt; false, "beyond");
        return Ok(());
    };
    assert_eq!(rt; beyond.level, 0);
    assert!(rt; !beyond.has_stayed);
    Ok(())
}

#[test]
fn outcomes_of_moments(rt: HostRuntime) -> Result<(), Fail> {
    let given = policy_of(rt.alloc(), PAIR, &[])?;
    let mut budget = Budget::POLICY;
    let found = outcomes(rt.alloc(), &given.policy, Moment::Opening, &mut budget)?;
    let Some(opening) = found else {
        assert!(rt; false, "opening");
        return Ok(());
    };
    assert_eq!(rt; opening.len(), 1);
    let Some(all) = PolicyOutcomes::of(rt.alloc(), &given.policy, &mut budget)? else {
        assert!(rt; false, "states");
        return Ok(());
    };
    assert_eq!(rt; all.opening().len(), 1);
    assert_eq!(rt; all.in_state(StateId(0)).map_or(0, |found| found.len()), 2);
    assert!(rt; all.in_state(StateId(2)).is_none());
    assert!(rt; all_lead(ROWS, ADDING, StateId(0), LevelRange::only(0), all.opening()));
    assert!(rt;
        !all_lead(
            ROWS,
            ADDING,
            StateId(0),
            LevelRange::only(50),
            all.opening()
        )
    );
    assert_eq!(rt; all.policy().counts().states, 2);
    Ok(())
}

/// Asserts whether a table is closed.
fn check(
    rt: &impl Abort,
    alloc: Global,
    meter: &[Change],
    rows: &[Row],
    wanted: bool,
) -> Result<(), Fail> {
    let given = policy_of(alloc, PAIR, &[])?;
    let mut budget = Budget::POLICY;
    let Some(all) = PolicyOutcomes::of(alloc, &given.policy, &mut budget)? else {
        assert!(rt; false, "outcomes");
        return Ok(());
    };
    assert_eq!(rt; all.is_closed(meter, true, 0, rows), wanted);
    Ok(())
}

/// Asserts whether all levels are from 0 to some greatest one.
fn check_within(
    rt: &impl Abort,
    alloc: Global,
    meter: &[Change],
    greatest: i64,
    wanted: bool,
) -> Result<(), Fail> {
    let given = policy_of(alloc, PAIR, &[])?;
    let mut budget = Budget::POLICY;
    let Some(all) = PolicyOutcomes::of(alloc, &given.policy, &mut budget)? else {
        assert!(rt; false, "outcomes");
        return Ok(());
    };
    let range = LevelRange {
        least: Some(0),
        greatest: Some(greatest),
    };
    assert!(rt; range.has(greatest) && !range.has(greatest.saturating_add(1)));
    assert_eq!(rt; all.stays_within(meter, true, 0, ROWS, &range), wanted);
    assert_eq!(rt;
        all.rests_within(meter, true, 0, ROWS, StateId(0), &range),
        wanted
    );
    assert!(rt; all.rests_within(meter, true, 0, ROWS, StateId(1), &range));
    Ok(())
}

#[test]
fn levels_in_a_range(rt: HostRuntime) -> Result<(), Fail> {
    check_within(&rt, rt.alloc(), SETTING, 50, true)?;
    check_within(&rt, rt.alloc(), SETTING, 49, false)
}

/// What sets survives a reload.
#[test]
fn closed(rt: HostRuntime) -> Result<(), Fail> {
    check(&rt, rt.alloc(), SETTING, ROWS, true)
}

/// What adds does not: a reload in the first state adds again.
#[test]
fn open_at_a_reload(rt: HostRuntime) -> Result<(), Fail> {
    check(&rt, rt.alloc(), ADDING, ROWS, false)
}

/// Without the last row, the table lacks where an evaluation leads.
#[test]
fn open_without_a_row(rt: HostRuntime) -> Result<(), Fail> {
    check(&rt, rt.alloc(), SETTING, &ROWS[..3], false)
}

/// Asserts the levels with which a policy rests in both states.
fn check_rests(
    rt: &impl Abort,
    alloc: Global,
    meter: &[Change],
    keeps: bool,
    wanted: [LevelRange; 2],
) -> Result<(), Fail> {
    let given = policy_of(alloc, PAIR, &[])?;
    let mut budget = Budget::POLICY;
    let Some(all) = PolicyOutcomes::of(alloc, &given.policy, &mut budget)? else {
        assert!(rt; false, "outcomes");
        return Ok(());
    };
    let Some(table) = LevelTable::of(alloc, &all, meter, keeps, &[0])? else {
        assert!(rt; false, "table");
        return Ok(());
    };
    let [first, second] = wanted;
    let found = table.levels_at_rest(alloc, StateId(0))?;
    assert!(rt; found.as_slice() == [first].as_slice());
    let found = table.levels_at_rest(alloc, StateId(1))?;
    assert!(rt; found.as_slice() == [second].as_slice());
    assert_eq!(rt;
        table.rests_within(StateId(0), &LevelRange::only(50)),
        first == LevelRange::only(50)
    );
    assert!(rt; table.stays_within(&FROM_ZERO));
    Ok(())
}

/// What sets has one level in each state.
#[test]
fn table_of_setting(rt: HostRuntime) -> Result<(), Fail> {
    let wanted = [LevelRange::only(50), LevelRange::only(0)];
    check_rests(&rt, rt.alloc(), SETTING, true, wanted)
}

/// So does what adds, if each opening begins at the first level.
#[test]
fn table_without_reloads(rt: HostRuntime) -> Result<(), Fail> {
    let wanted = [LevelRange::only(50), LevelRange::only(0)];
    check_rests(&rt, rt.alloc(), ADDING, false, wanted)
}

/// If a reload keeps the level, what adds has no greatest one.
#[test]
fn table_without_a_bound(rt: HostRuntime) -> Result<(), Fail> {
    let wanted = [
        LevelRange {
            least: Some(50),
            greatest: None,
        },
        FROM_ZERO,
    ];
    check_rests(&rt, rt.alloc(), ADDING, true, wanted)
}
