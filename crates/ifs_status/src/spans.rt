//! Spans of time and large numbers, as they are shown.

use crate::ages::{age, clock_at, is_from_start};
use crate::clock::Clock;
use ifs_status_file::daemon_status::{DaemonStatus, Time};
use ifs_terminal::Draft;
use std::fmt::{self, Display, Formatter, Write};

/// Adds a span of this many seconds, in whole seconds, minutes, hours or days.
pub(crate) fn put_span(draft: &mut Draft, seconds: u64) {
    let (count, unit) = match seconds {
        0..=59 => (seconds, " s"),
        60..=3_599 => (seconds / 60, " min"),
        3_600..=86_399 => (seconds / 3_600, " h"),
        _ => (seconds / 86_400, " d"),
    };
    draft.add(count);
    draft.put(unit);
}

/// Adds for how long something is as it is, in the status of a daemon.
pub(crate) fn put_for(draft: &mut Draft, status: &DaemonStatus<'_>, since: Time, clock: Clock<'_>) {
    if is_from_start(status, since) {
        draft.put("since the start");
    } else {
        draft.put("for ");
        put_span(draft, age(status, since, clock));
    }
}

/// Adds since when and for how long something is as it is.
pub(crate) fn put_since(
    draft: &mut Draft,
    status: &DaemonStatus<'_>,
    since: Time,
    clock: Clock<'_>,
) {
    draft.put("since ");
    if is_from_start(status, since) {
        draft.put("the start");
    } else {
        put_clock(draft, status, since, clock);
    }
    draft.put(" (");
    put_span(draft, age(status, since, clock));
    draft.put(")");
}

/// Adds what the clock showed at a time.
pub(crate) fn put_clock(
    draft: &mut Draft,
    status: &DaemonStatus<'_>,
    time: Time,
    clock: Clock<'_>,
) {
    draft.add(clock.at(clock_at(status, time, clock)));
}

/// Adds a number, with a comma before the last three digits, and before the three digits before them.
pub(crate) fn put_grouped(draft: &mut Draft, number: u64) {
    let (thousands, ones) = (number / 1_000, number % 1_000);
    match thousands {
        0 => return draft.add(ones),
        1..=999 => draft.add(thousands),
        _ => put_point(draft, thousands / 1_000, ",", thousands % 1_000),
    }
    draft.put(",");
    draft.add(ThreeDigits(ones));
}

/// Adds a number, a point and three digits.
pub(crate) fn put_point(draft: &mut Draft, number: u64, point: &str, digits: u64) {
    draft.add(number);
    draft.put(point);
    draft.add(ThreeDigits(digits));
}

/// A number below 1,000. It is printed with three digits.
#[derive(Clone, Copy)]
struct ThreeDigits(u64);

impl Display for ThreeDigits {
    fn fmt<W: Write>(&self, f: &mut Formatter<W>) -> fmt::Result {
        write!(f, "{:03}", self.0)
    }
}
