//! The times of a daemon's steps, by its status file.

use crate::status::{StatusRead, Unanswered, failed};
use ifs_explain::Times;
use ifs_host::failure::Failure;
use ifs_status::{Clock, clock_at};
use ifs_status_file::daemon_status::{Change, DaemonStatus};
use ifs_status_file::{StatusFault, parse_json, read_status};
use ifs_terminal::{Escaped, Shown};
use std::alloc::{AllocError, Global};

/// How many steps a daemon had made, whether it took another image over, its latest ticks, each with what the clock showed, its
/// latest changes of state in words, and its latest runs that were killed.
#[derive(Drop)]
pub struct StepTimes {
    steps: u64,
    is_reloaded: bool,
    ticks: Vec<(u64, String)>,
    changes: Vec<(u64, String)>,
    killed: Vec<(u64, u64)>,
}

impl StepTimes {
    /// The times that the status file of a daemon has.
    pub fn read<'a>(rt: &HostRuntime, file: &'a str) -> Result<StepTimes, Failure<'a>> {
        match read(rt, file) {
            Ok(times) => Ok(times),
            Err(unanswered) => Err(failed(rt, file, unanswered)),
        }
    }

    /// The times, as they are asked for with a trace.
    pub fn times(&self) -> Times<'_> {
        Times {
            steps: self.steps,
            is_reloaded: self.is_reloaded,
            ticks: self.ticks.as_slice(),
            changes: self.changes.as_slice(),
            killed: self.killed.as_slice(),
        }
    }
}

/// Reads the file and the clock.
fn read<'a>(rt: &HostRuntime, file: &'a str) -> Result<StepTimes, Unanswered<'a>> {
    let read = StatusRead::of(rt, file)?;
    Ok(times_in(rt.alloc(), read.text(), read.clock())?)
}

/// The times that the text of a status file has.
fn times_in(alloc: Global, text: &[u8], clock: Clock<'_>) -> Result<StepTimes, StatusFault> {
    let value = parse_json(alloc, text)?;
    let status = read_status(alloc, &value)?;
    times_of(alloc, &status, clock)
}

/// The times that a status has.
fn times_of(
    alloc: Global,
    status: &DaemonStatus<'_>,
    clock: Clock<'_>,
) -> Result<StepTimes, StatusFault> {
    let ticks = shown_ticks(alloc, status, clock)?;
    let changes = shown_changes(alloc, status, clock)?;
    let killed = killed_runs(alloc, status)?;
    Ok(StepTimes {
        steps: status.counts.steps,
        is_reloaded: status.counts.reloads > status.counts.refused,
        ticks,
        changes,
        killed,
    })
}

/// The latest ticks, each with what the clock showed.
fn shown_ticks(
    alloc: Global,
    status: &DaemonStatus<'_>,
    clock: Clock<'_>,
) -> Result<Vec<(u64, String)>, AllocError> {
    let mut shown = Vec::new(alloc);
    for tick in &status.ticks {
        let clock = format!(in alloc; "{}", clock.at(clock_at(status, *tick, clock)))?;
        shown.push((tick.moment, clock))?;
    }
    Ok(shown)
}

/// The latest changes of state, each with its last moment and in words.
fn shown_changes(
    alloc: Global,
    status: &DaemonStatus<'_>,
    clock: Clock<'_>,
) -> Result<Vec<(u64, String)>, AllocError> {
    let mut shown = Vec::new(alloc);
    for change in &status.changes {
        let words = words_of(alloc, status, change, clock)?;
        shown.push((change.last.moment, words))?;
    }
    Ok(shown)
}

/// A change of state in words: its moment, what the clock showed then, its cause and the states.
fn words_of(
    alloc: Global,
    status: &DaemonStatus<'_>,
    change: &Change<'_>,
    clock: Clock<'_>,
) -> Result<String, AllocError> {
    let moment = change.last.moment;
    let shown = clock.at(clock_at(status, change.last, clock));
    let cause = Escaped(change.cause.as_bytes());
    let (from, to, times) = (Shown(change.from), Shown(change.to), change.times);
    if times > 1 {
        format!(in alloc; "{moment} {shown} {cause} -> done {from} => {to}, {times} times by then")
    } else {
        format!(in alloc; "{moment} {shown} {cause} -> done {from} => {to}")
    }
}

/// The latest runs of tests that were killed at their limits, each with the limit in seconds.
fn killed_runs(alloc: Global, status: &DaemonStatus<'_>) -> Result<Vec<(u64, u64)>, AllocError> {
    let mut runs = Vec::new(alloc);
    for killed in &status.killed {
        runs.push((killed.run, killed.limit))?;
    }
    Ok(runs)
}
