//! The latest changes of state, in words.

use crate::clock::Clock;
use crate::spans::put_clock;
use crate::texts::{put_line, put_name};
use ifs_status_file::daemon_status::{Change, DaemonStatus};
use ifs_terminal::Draft;

/// The most changes that are shown.
const SHOWN: usize = 5;

/// Adds how many changes of state there were, and the latest ones.
pub(crate) fn put_changes(draft: &mut Draft, status: &DaemonStatus<'_>, clock: Clock<'_>) {
    let changes = status.changes.as_slice();
    let Some(hour) = status.hour else {
        return;
    };
    draft.add(hour);
    draft.put(if hour == 1 { " change" } else { " changes" });
    draft.put(" in the last hour, ");
    draft.add(status.counts.changes);
    draft.put(" since the start\n");
    let (_earlier, latest) = changes.split_at(changes.len().saturating_sub(SHOWN));
    for change in latest {
        put_change(draft, status, change, clock);
    }
}

/// Adds the line of a change: when it came, between which states, and by which cause.
fn put_change(draft: &mut Draft, status: &DaemonStatus<'_>, change: &Change<'_>, clock: Clock<'_>) {
    draft.put("  ");
    put_clock(draft, status, change.first, clock);
    if change.times > 1 {
        draft.put(" to ");
        put_clock(draft, status, change.last, clock);
        draft.put(", ");
        draft.add(change.times);
        draft.put(" times:");
    }
    draft.put(" ");
    put_name(draft, change.from);
    draft.put(" -> ");
    put_name(draft, change.to);
    draft.put(" by ");
    put_line(draft, change.cause);
    draft.put("\n");
}
