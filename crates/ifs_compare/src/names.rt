//! The names that only one of two policies has.

ghost use Rattle.std.specs.Bool.{OnFalse, OnTrue};
ghost use Rattle.ifs_compare.specs.Renumbering.{AreIn, HaveSameEntries, HaveSameNames};

use crate::answers::Difference;
use crate::joining::matched;
use crate::wording::{missing_words, period_words, put_report};
use ifs_base::Text;
use ifs_policy::{ExternalTest, Table, Tables};
use std::alloc::{AllocError, Global};
use std::hash::Hash;

/// Whether each entry of one table is in another.
fn are_in<T: Eq + Hash + Drop>(one: &Table<T>, other: &Table<T>) -> bool
    ensures same { OnTrue result (AreIn T.eq one.now other.now) }
    ensures apart { OnFalse result (¬ AreIn T.eq one.now other.now) }
{
    for index in 0..one.len() {
        match one.get(index) {
            Some(entry) => {
                if !other.has(entry) {
                    return false;
                }
            }
            None => unreachable!(),
        }
    }
    true
}

/// Whether two tables have the same entries.
fn have_same<T: Eq + Hash + Drop>(one: &Table<T>, other: &Table<T>) -> bool
    ensures same { OnTrue result (HaveSameEntries T.eq one.now other.now) }
    ensures apart { OnFalse result (¬ HaveSameEntries T.eq one.now other.now) }
{
    are_in(one, other) && are_in(other, one)
}

/// Whether two policies have the same interfaces, tests, commands and states.
pub(crate) fn have_same_names(old: &Tables, new: &Tables) -> bool
    ensures same { OnTrue result (HaveSameNames old.now new.now) }
    ensures apart { OnFalse result (¬ HaveSameNames old.now new.now) }
{
    have_same(&old.interfaces, &new.interfaces)
        && have_same(&old.tests, &new.tests)
        && have_same(&old.commands, &new.commands)
        && have_same(&old.states, &new.states)
}

/// Reports the names that only one of two policies has, and the tests that have another period.
pub(crate) fn report_names(
    alloc: Global,
    old: &Tables,
    new: &Tables,
    differences: &mut Vec<Difference>,
) -> Result<(), AllocError> {
    report_texts(
        alloc,
        "interface",
        &old.interfaces,
        &new.interfaces,
        differences,
    )?;
    report_periods(alloc, old, new, differences)?;
    report_tests(alloc, "OLD", &old.tests, &new.tests, differences)?;
    report_tests(alloc, "NEW", &new.tests, &old.tests, differences)?;
    report_texts(alloc, "command", &old.commands, &new.commands, differences)?;
    report_texts(alloc, "state", &old.states, &new.states, differences)
}

/// Reports the texts that only one of two tables has.
fn report_texts(
    alloc: Global,
    kind: &str,
    old: &Table<Text>,
    new: &Table<Text>,
    differences: &mut Vec<Difference>,
) -> Result<(), AllocError> {
    report_missing(alloc, "OLD", kind, old, new, differences)?;
    report_missing(alloc, "NEW", kind, new, old, differences)
}

/// Reports the texts of a table that another one lacks.
fn report_missing(
    alloc: Global,
    side: &str,
    kind: &str,
    table: &Table<Text>,
    other: &Table<Text>,
    differences: &mut Vec<Difference>,
) -> Result<(), AllocError> {
    for index in 0..table.len() {
        match table.get(index) {
            Some(text) if !other.has(text) => {
                let report = missing_words(alloc, side, kind, text.as_str());
                put_report(alloc, report, differences)?;
            }
            _ => {}
        }
    }
    Ok(())
}

/// Reports the tests of a table that another one lacks, apart from those that have another period there.
fn report_tests(
    alloc: Global,
    side: &str,
    table: &Table<ExternalTest>,
    other: &Table<ExternalTest>,
    differences: &mut Vec<Difference>,
) -> Result<(), AllocError> {
    for index in 0..table.len() {
        match table.get(index) {
            Some(test) if !other.has(test) && matched(other, table, test).is_none() => {
                let mut report = missing_words(alloc, side, "test", test.command.as_str());
                report.put(" every ");
                report.add(test.period.seconds());
                put_report(alloc, report, differences)?;
            }
            _ => {}
        }
    }
    Ok(())
}

/// Reports the tests that have another period.
fn report_periods(
    alloc: Global,
    old: &Tables,
    new: &Tables,
    differences: &mut Vec<Difference>,
) -> Result<(), AllocError> {
    for index in 0..new.tests.len() {
        let Some(test) = new.tests.get(index) else {
            continue;
        };
        if let Some(before) = matched(&old.tests, &new.tests, test) {
            put_report(alloc, period_words(alloc, before, test), differences)?;
        }
    }
    Ok(())
}
