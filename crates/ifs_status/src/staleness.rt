//! How old the status of a daemon is.

ghost use Rattle.std.specs.Prelude.{◌≡◌};
ghost use Rattle.ifs_status.specs.Services.{is_stale};

use crate::ages::{seconds_since_tick, seconds_since_written};
use crate::clock::Clock;
use crate::spans::put_span;
use crate::texts::put_line;
use ifs_status_file::daemon_status::DaemonStatus;
use ifs_terminal::Draft;

/// The most seconds of a status that is not stale.
const LIMIT: u64 = 10;

/// How old the status of a daemon is, in seconds.
#[derive(Clone, Copy)]
pub(crate) struct Staleness {
    /// Since the status was written.
    pub(crate) written: u64,
    /// Since the daemon's last tick, or since its start if there was no tick.
    pub(crate) tick: u64,
}

impl Staleness {
    /// The age of a status.
    pub(crate) fn of(status: &DaemonStatus<'_>, clock: Clock<'_>) -> Staleness {
        Staleness {
            written: seconds_since_written(status, clock),
            tick: seconds_since_tick(status, clock),
        }
    }

    /// Whether the status is stale.
    pub(crate) fn is_stale(self) -> bool
        ensures { result ≡ is_stale self.written self.tick }
    {
        self.written > LIMIT || self.tick > LIMIT
    }

    /// Whether ticks come.
    pub(crate) fn has_ticks(self) -> bool {
        self.tick <= LIMIT
    }

    /// Whether the status is not written.
    pub(crate) fn is_unwritten(self) -> bool {
        self.written > LIMIT
    }

    /// Adds what is wrong if the status is stale, why its file cannot be written if that is known, and what ends it.
    pub(crate) fn put(self, draft: &mut Draft, reason: Option<&str>, end: &str) {
        if self.is_unwritten() {
            draft.put("NOT WRITTEN for ");
            put_span(draft, self.written);
            draft.put(": ");
            put_line(draft, reason.unwrap_or(CAUSES));
        } else if self.tick > LIMIT {
            draft.put("NO TICKS for ");
            put_span(draft, self.tick);
        } else {
            return;
        }
        draft.put(end);
    }
}

/// Why a status may not be written whose file can be.
const CAUSES: &str = "the daemon is stopped, waits for a command, or gets no ticks";
