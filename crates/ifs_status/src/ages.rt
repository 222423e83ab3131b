//! How long ago something was, by the clock of moments. The date of the system may be set meanwhile.

use crate::clock::Clock;
use ifs_status_file::daemon_status::{DaemonStatus, Time};

/// By so many seconds what the system's clock showed may differ from an age. Beyond that its date was set since.
const APART: u64 = 2;

/// How many seconds ago the status was written.
pub(crate) fn seconds_since_written(status: &DaemonStatus<'_>, clock: Clock<'_>) -> u64 {
    match between(status.uptime, clock.uptime()) {
        Some(seconds) => seconds,
        None => clock.now().abs_diff(status.written),
    }
}

/// How many seconds ago the last tick came, or the daemon was started if none did.
pub(crate) fn seconds_since_tick(status: &DaemonStatus<'_>, clock: Clock<'_>) -> u64 {
    match (status.silent, between(status.uptime, clock.uptime())) {
        (Some(silent), Some(written)) => silent.saturating_add(written),
        _ => clock.now().abs_diff(heard(status)),
    }
}

/// How many seconds something is as it is. The moments of ticks say it, or the system's clock before the first tick, and for an
/// older daemon.
pub(crate) fn age(status: &DaemonStatus<'_>, since: Time, clock: Clock<'_>) -> u64 {
    match (status.tick, status.silent) {
        (Some(tick), Some(_silent)) => {
            let before = tick.moment.saturating_sub(since.moment);
            before.saturating_add(seconds_since_tick(status, clock))
        }
        _ => age_by_clock(status, since.clock, clock),
    }
}

/// How many seconds ago it was a second of the system's clock that the status has.
pub(crate) fn age_by_clock(status: &DaemonStatus<'_>, since: u64, clock: Clock<'_>) -> u64 {
    let before = status.written.saturating_sub(since);
    match between(status.uptime, clock.uptime()) {
        Some(seconds) => before.saturating_add(seconds),
        None => clock.now().saturating_sub(since),
    }
}

/// The second of the system's clock at a time: what it showed, or if its date was set since, what it would have shown. Of an older
/// daemon it is what it showed.
pub fn clock_at(status: &DaemonStatus<'_>, time: Time, clock: Clock<'_>) -> u64 {
    let by_age = clock.now().saturating_sub(age(status, time, clock));
    if status.silent.is_none() || by_age.abs_diff(time.clock) <= APART {
        time.clock
    } else {
        by_age
    }
}

/// Whether something was so from the start of the daemon on.
pub(crate) fn is_from_start(status: &DaemonStatus<'_>, since: Time) -> bool {
    let is_early = match status.first {
        Some(first) => since.moment <= first,
        None => true,
    };
    is_early && since.clock <= status.started
}

/// The second of the system's clock at the last tick, or at the daemon's start if there was none.
fn heard(status: &DaemonStatus<'_>) -> u64 {
    match status.tick {
        Some(tick) => tick.clock,
        None => status.started,
    }
}

/// The seconds between two times since the system's start, if both are known and the second one is not earlier.
fn between(earlier: Option<u64>, later: Option<u64>) -> Option<u64> {
    later?.checked_sub(earlier?)
}
