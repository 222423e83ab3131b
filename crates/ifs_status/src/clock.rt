//! A clock, and what it shows.

ghost use Rattle.std.specs.Prelude.{◌≡◌, ◌*ℤ◌, ◌+ℤ◌, pos, IfSome};
ghost use Rattle.jiff_core.specs.DateTime.{civil_nanos};
ghost use Rattle.jiff_core.specs.Timestamp.{nanos_of_seconds};
ghost use Rattle.jiff_tz.specs.Zone.{offset_at};

use jiff_core::Timestamp;
use jiff_core::civil::{Date, DateTime};
use jiff_tz::TimeZone;
use std::fmt::{self, Display, Formatter, Write};

/// The nanoseconds of a second.
const NANOSECONDS: i128 = 1_000_000_000;

/// A clock of a time zone.
#[derive(Clone, Copy)]
pub struct Clock<'a> {
    pub(crate) zone: TimeZone<'a>,
    /// The seconds since 1970-01-01 00:00:00 UTC.
    pub(crate) now: u64,
    /// The seconds since the system's start, if the system says them.
    pub(crate) uptime: Option<u64>,
}

/// What a clock shows. It is printed as `HH:MM:SS` for a time of today, and as `YYYY-MM-DD HH:MM` for another day.
#[derive(Clone, Copy)]
pub struct ClockTime {
    /// The date and the time of day. There is none after the year 9999.
    civil: Option<DateTime>,
    is_today: bool,
}

impl Clock<'_> {
    /// The seconds since 1970 that the clock is at.
    pub fn now(self) -> u64 {
        self.now
    }

    /// The seconds since the system's start, if the system says them.
    pub fn uptime(self) -> Option<u64> {
        self.uptime
    }

    /// What the clock shows at a second since 1970.
    pub fn at(self, seconds: u64) -> ClockTime {
        let civil = civil(self.zone, seconds);
        let is_today = match (civil, civil_of_now(self)) {
            (Some(civil), Some(now)) => is_same_day(civil.date, now.date),
            _ => false,
        };
        ClockTime { civil, is_today }
    }
}

/// What the clock shows now.
fn civil_of_now(clock: Clock<'_>) -> Option<DateTime> {
    civil(clock.zone, clock.now)
}

/// The date and the time of day in a zone. There is none after the year 9999.
fn civil(zone: TimeZone<'_>, seconds: u64) -> Option<DateTime>
    ensures { IfSome result (λ shown. civil_nanos shown
        ≡ pos seconds *ℤ pos 1_000_000_000 +ℤ nanos_of_seconds (offset_at zone.entry (pos seconds *ℤ pos 1_000_000_000))) }
{
    match Timestamp::from_nanosecond(i128::from(seconds) * NANOSECONDS) {
        Ok(timestamp) => Some(zone.to_datetime(timestamp)),
        Err(_) => None,
    }
}

/// Whether two dates are the same day.
fn is_same_day(one: Date, other: Date) -> bool {
    one.year == other.year && one.month == other.month && one.day == other.day
}

impl Display for ClockTime {
    fn fmt<W: Write>(&self, f: &mut Formatter<W>) -> fmt::Result {
        let Some(DateTime { date, time }) = self.civil else {
            return f.write_str("a time that is not known");
        };
        let (hour, minute) = (time.hour, time.minute);
        if self.is_today {
            return write!(f, "{hour:02}:{minute:02}:{:02}", time.second);
        }
        write!(
            f,
            "{:04}-{:02}-{:02} {hour:02}:{minute:02}",
            date.year, date.month, date.day
        )
    }
}
