//! The status of a daemon, in words.

use crate::ages::{age, age_by_clock};
use crate::changes::put_changes;
use crate::clock::Clock;
use crate::spans::{put_clock, put_for, put_grouped, put_since, put_span};
use crate::staleness::Staleness;
use crate::texts::{put_line, put_name, put_shown};
use ifs_status_file::daemon_status::{
    DaemonStatus, EndedCommand, Link, RunningCommand, Test, Time,
};
use ifs_terminal::Draft;

/// Adds the status of a daemon, on several lines. The program that prints it has this version. The reason is why its file cannot
/// be written, if that is known.
pub(crate) fn put_words(
    draft: &mut Draft,
    status: &DaemonStatus<'_>,
    clock: Clock<'_>,
    version: &str,
    reason: Option<&str>,
) {
    Staleness::of(status, clock).put(draft, reason, "\n");
    put_state(draft, status, clock);
    draft.put("\n");
    put_held(draft, status, clock, "", "\n");
    put_daemon(draft, status, clock, version);
    for test in &status.tests {
        put_test(draft, status, test, clock);
    }
    for link in &status.links {
        put_link(draft, status, link, clock);
    }
    put_commands(draft, status, clock);
    put_changes(draft, status, clock);
}

/// Adds the state, without a newline.
pub(crate) fn put_state(draft: &mut Draft, status: &DaemonStatus<'_>, clock: Clock<'_>) {
    let state = status.state;
    put_name(draft, state.name);
    draft.put(" ");
    put_since(draft, status, state.since, clock);
    if let Some(from) = state.from {
        draft.put(", from ");
        put_name(draft, from);
    }
    if let Some(cause) = state.cause {
        draft.put(", by ");
        put_line(draft, cause);
    }
}

/// Adds each test that runs, whose value is not known, and without which the state cannot go on, between these words.
pub(crate) fn put_held(
    draft: &mut Draft,
    status: &DaemonStatus<'_>,
    clock: Clock<'_>,
    before: &str,
    after: &str,
) {
    for test in &status.tests {
        if let Some(since) = held_since(test) {
            draft.put(before);
            put_shown(draft, "held back by test ", test.command);
            draft.put(", running for ");
            put_span(draft, age(status, since, clock));
            draft.put(after);
        }
    }
}

/// Since when a test runs whose value is needed and not known.
fn held_since(test: &Test<'_>) -> Option<Time> {
    if test.needed && test.running && test.value.is_none() {
        test.started
    } else {
        None
    }
}

/// Adds the line on the daemon: its ticks, its image and its version.
fn put_daemon(draft: &mut Draft, status: &DaemonStatus<'_>, clock: Clock<'_>, version: &str) {
    put_ticks(draft, status, clock);
    draft.put("; image of ");
    put_grouped(draft, status.image.bytes);
    draft.put(" bytes read ");
    put_clock(draft, status, status.image.read, clock);
    draft.put(", version ");
    put_line(draft, status.version);
    if status.version != version {
        draft.put(" runs, ");
        draft.put(version);
        draft.put(" is installed");
    }
    draft.put("\n");
}

/// Adds when the last tick came, and when a test starts next.
fn put_ticks(draft: &mut Draft, status: &DaemonStatus<'_>, clock: Clock<'_>) {
    let Some(tick) = status.tick else {
        return draft.put("no tick came yet");
    };
    let staleness = Staleness::of(status, clock);
    let words = if staleness.has_ticks() {
        "ticks come (last "
    } else {
        "no ticks come (last "
    };
    draft.put(words);
    put_span(draft, staleness.tick);
    draft.put(" ago)");
    match status.next {
        Some(next) if staleness.has_ticks() => {
            let left = next.saturating_sub(tick.moment);
            draft.put("; next test in ");
            put_span(draft, left.saturating_sub(staleness.tick));
        }
        _ => {}
    }
}

/// Adds the line of a test.
fn put_test(draft: &mut Draft, status: &DaemonStatus<'_>, test: &Test<'_>, clock: Clock<'_>) {
    let words = match test.value {
        Some(true) => "good  test ",
        Some(false) => "fail  test ",
        None => "unknown  test ",
    };
    put_shown(draft, words, test.command);
    put_period(draft, status, test);
    draft.put(" (");
    put_for(draft, status, test.since, clock);
    draft.put(")");
    if let Some(limit) = test.limit {
        put_limit(draft, ", killed at its limit of ", limit);
    }
    if test.running {
        put_running_test(draft, status, test, clock);
    }
    draft.put("\n");
}

/// Adds the period of a test, if another test has the same text.
fn put_period(draft: &mut Draft, status: &DaemonStatus<'_>, test: &Test<'_>) {
    let mut alike = 0usize;
    for other in &status.tests {
        if other.command == test.command {
            alike = alike.saturating_add(1);
        }
    }
    if let Some(every) = test.every
        && alike > 1
    {
        draft.put(" every ");
        draft.add(every);
    }
}

/// Adds that a test runs, and how long if that is known and longer than its period.
fn put_running_test(
    draft: &mut Draft,
    status: &DaemonStatus<'_>,
    test: &Test<'_>,
    clock: Clock<'_>,
) {
    draft.put(", running");
    if let (Some(started), Some(every)) = (test.started, test.every) {
        let seconds = age(status, started, clock);
        if seconds >= every {
            draft.put(" for ");
            put_span(draft, seconds);
        }
    }
}

/// Adds words and a limit in seconds.
fn put_limit(draft: &mut Draft, words: &str, limit: u64) {
    draft.put(words);
    draft.add(limit);
    draft.put(" s");
}

/// Adds the line of a link.
fn put_link(draft: &mut Draft, status: &DaemonStatus<'_>, link: &Link<'_>, clock: Clock<'_>) {
    let words = match link.up {
        Some(true) => "up  link ",
        Some(false) => "down  link ",
        None => "unknown  link ",
    };
    put_shown(draft, words, link.name);
    draft.put(" (");
    put_for(draft, status, link.since, clock);
    draft.put(")\n");
}

/// Adds the command that runs, the commands that wait, and the command that ended last.
fn put_commands(draft: &mut Draft, status: &DaemonStatus<'_>, clock: Clock<'_>) {
    if let Some(running) = &status.running {
        put_running(draft, status, running, clock);
    }
    put_queue(draft, status.queue.as_slice());
    match &status.last {
        Some(last) => put_last(draft, status, last, clock),
        None => draft.put("no command ended yet\n"),
    }
}

/// Adds the command that runs.
fn put_running(
    draft: &mut Draft,
    status: &DaemonStatus<'_>,
    running: &RunningCommand<'_>,
    clock: Clock<'_>,
) {
    put_shown(draft, "runs command ", running.command);
    draft.put(" for ");
    put_span(draft, age_by_clock(status, running.since, clock));
    draft.put("\n");
}

/// Adds the commands that wait, if there are any.
fn put_queue(draft: &mut Draft, queue: &[&str]) {
    if queue.is_empty() {
        return;
    }
    draft.add(queue.len());
    draft.put(if queue.len() == 1 {
        " command waits: "
    } else {
        " commands wait: "
    });
    let mut before = "";
    for command in queue {
        put_shown(draft, before, command);
        before = ", ";
    }
    draft.put("\n");
}

/// Adds the command that ended last.
fn put_last(
    draft: &mut Draft,
    status: &DaemonStatus<'_>,
    last: &EndedCommand<'_>,
    clock: Clock<'_>,
) {
    put_shown(draft, "last command ", last.command);
    match (last.exit, last.limit) {
        (_, Some(limit)) => put_limit(draft, ": killed at its limit of ", limit),
        (Some(exit), None) => put_exit(draft, exit),
        (None, None) => draft.put(": not run"),
    }
    draft.put(", ");
    put_span(draft, age_of_command(status, last, clock));
    draft.put(" ago; ");
    draft.add(status.counts.failed);
    draft.put(" failed since the start\n");
}

/// How many seconds ago a command ended.
fn age_of_command(status: &DaemonStatus<'_>, last: &EndedCommand<'_>, clock: Clock<'_>) -> u64 {
    match last.moment {
        Some(moment) => age(
            status,
            Time {
                moment,
                clock: last.ended,
            },
            clock,
        ),
        None => age_by_clock(status, last.ended, clock),
    }
}

/// Adds the exit status of a command.
fn put_exit(draft: &mut Draft, exit: i32) {
    draft.put(": exit ");
    draft.add(exit);
}
