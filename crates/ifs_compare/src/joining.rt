//! Tables that have the names of two policies.

use ifs_base::Text;
use ifs_policy::{ExternalTest, Table, Tables};
use std::alloc::{AllocError, Global};

/// The one test of a table with this command that another table lacks. None if there are several.
fn only_one<'a>(
    table: &'a Table<ExternalTest>,
    other: &Table<ExternalTest>,
    command: &Text,
) -> Option<&'a ExternalTest> {
    let mut found = None;
    let mut count = 0usize;
    for index in 0..table.len() {
        match table.get(index) {
            Some(test) if test.command.as_str() == command.as_str() && !other.has(test) => {
                found = Some(test);
                count = count.saturating_add(1);
            }
            _ => {}
        }
    }
    if count == 1 { found } else { None }
}

/// The test of the first table that is this test of the second one with another period.
pub(crate) fn matched<'a>(
    first: &'a Table<ExternalTest>,
    second: &Table<ExternalTest>,
    test: &ExternalTest,
) -> Option<&'a ExternalTest> {
    if first.has(test) {
        return None;
    }
    only_one(second, first, &test.command)?;
    only_one(first, second, &test.command)
}

/// Empty tables. Does not allocate.
fn empty(alloc: Global) -> Tables {
    Tables {
        interfaces: Table::new(alloc),
        tests: Table::new(alloc),
        commands: Table::new(alloc),
        states: Table::new(alloc),
    }
}

/// Adds texts that a table lacks.
fn add_texts(table: &mut Table<Text>, more: &Table<Text>) -> Result<(), AllocError> {
    for index in 0..more.len() {
        if let Some(text) = more.get(index) {
            table.insert(text.clone()?)?;
        }
    }
    Ok(())
}

/// Adds tests that a table lacks.
fn add_tests(
    table: &mut Table<ExternalTest>,
    more: &Table<ExternalTest>,
) -> Result<(), AllocError> {
    for index in 0..more.len() {
        if let Some(test) = more.get(index) {
            table.insert(copy_of(test)?)?;
        }
    }
    Ok(())
}

/// The same test.
fn copy_of(test: &ExternalTest) -> Result<ExternalTest, AllocError> {
    Ok(ExternalTest {
        command: test.command.clone()?,
        period: test.period,
    })
}

/// Adds the names of interfaces, commands and states that tables lack.
fn add_names(tables: &mut Tables, more: &Tables) -> Result<(), AllocError> {
    add_texts(&mut tables.interfaces, &more.interfaces)?;
    add_texts(&mut tables.commands, &more.commands)?;
    add_texts(&mut tables.states, &more.states)
}

/// Adds all entries that tables lack.
fn add_all(tables: &mut Tables, more: &Tables) -> Result<(), AllocError> {
    add_names(tables, more)?;
    add_tests(&mut tables.tests, &more.tests)
}

/// Adds the tests of the new policy. One that has another period in the old one has that.
fn add_adjusted(
    made: &mut Table<ExternalTest>,
    old: &Table<ExternalTest>,
    new: &Table<ExternalTest>,
) -> Result<(), AllocError> {
    for index in 0..new.len() {
        if let Some(test) = new.get(index) {
            let kept = matched(old, new, test).unwrap_or(test);
            made.insert(copy_of(kept)?)?;
        }
    }
    Ok(())
}

/// The tables of the new policy, in which a test that has another period in the old one has that.
pub(crate) fn adjusted(alloc: Global, old: &Tables, new: &Tables) -> Result<Tables, AllocError> {
    let mut made = empty(alloc);
    put_adjusted(&mut made, old, new)?;
    Ok(made)
}

/// Puts them into empty tables.
fn put_adjusted(made: &mut Tables, old: &Tables, new: &Tables) -> Result<(), AllocError> {
    add_names(made, new)?;
    add_adjusted(&mut made.tests, &old.tests, &new.tests)
}

/// The entries of the first tables, and behind them those that only the second ones have.
pub(crate) fn joined(alloc: Global, first: &Tables, second: &Tables) -> Result<Tables, AllocError> {
    let mut made = empty(alloc);
    put_joined(&mut made, first, second)?;
    Ok(made)
}

/// Puts them into empty tables.
fn put_joined(made: &mut Tables, first: &Tables, second: &Tables) -> Result<(), AllocError> {
    add_all(made, first)?;
    add_all(made, second)
}
