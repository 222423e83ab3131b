//! The status of a daemon, for Prometheus: the text format for exposition.

use crate::spans::put_point;
use crate::texts::put_label;
use ifs_status_file::daemon_status::{Counts, DaemonStatus, EndedCommand, Link, Test};
use ifs_terminal::Draft;
use std::fmt::Display;

/// The kind of a metric.
#[derive(Clone, Copy)]
enum Kind {
    /// It may become less.
    Gauge,
    /// It only grows while the daemon runs.
    Counter,
}

/// Adds the status of a daemon, as metrics for Prometheus.
pub(crate) fn put_prometheus(draft: &mut Draft, status: &DaemonStatus<'_>) {
    put_labelled(draft, status);
    put_present(draft, status);
    put_counts(draft, &status.counts);
    put_waiting(draft, status);
    put_latest(draft, status);
}

/// Adds how many commands wait, and how many changes of state there were in the last hour.
fn put_waiting(draft: &mut Draft, status: &DaemonStatus<'_>) {
    put_gauge(
        draft,
        "commands_waiting",
        "Commands that wait.",
        status.queue.len() as u64,
    );
    if let Some(hour) = status.hour {
        put_gauge(
            draft,
            "state_changes_in_last_hour",
            "Changes of state in the hour before the last tick.",
            hour,
        );
    }
}

/// Adds the metrics with labels.
fn put_labelled(draft: &mut Draft, status: &DaemonStatus<'_>) {
    put_head(draft, "info", "The version of the daemon.", Kind::Gauge);
    put_sample(draft, "info", "version", status.version, 1);
    put_head(draft, "state", "The state of the policy.", Kind::Gauge);
    put_sample(draft, "state", "state", status.state.name, 1);
    put_links(draft, status.links.as_slice());
    put_tests(draft, status.tests.as_slice());
}

/// Adds the state, when the status was written, and the image.
fn put_present(draft: &mut Draft, status: &DaemonStatus<'_>) {
    put_gauge(
        draft,
        "state_since_seconds",
        "When the state was entered, in seconds since 1970.",
        status.state.since.clock,
    );
    put_gauge(
        draft,
        "facts_written_timestamp_seconds",
        "When the facts were written.",
        status.written,
    );
    put_gauge(
        draft,
        "image_bytes",
        "The length of the image.",
        status.image.bytes,
    );
}

/// Adds the counts.
fn put_counts(draft: &mut Draft, counts: &Counts) {
    put_count(draft, "steps_total", "Steps that were taken.", counts.steps);
    put_count(
        draft,
        "state_changes_total",
        "Changes of state.",
        counts.changes,
    );
    put_count(
        draft,
        "commands_total",
        "Commands that ran.",
        counts.commands,
    );
    put_count(
        draft,
        "commands_failed_total",
        "Commands that were not run, or whose exit status is not 0.",
        counts.failed,
    );
    put_count(draft, "reloads_total", "Reloads.", counts.reloads);
    put_count(
        draft,
        "reloads_refused_total",
        "Reloads that were refused.",
        counts.refused,
    );
}

/// Adds the last tick, the command that runs, and the one that ended last, if they are known.
fn put_latest(draft: &mut Draft, status: &DaemonStatus<'_>) {
    if let Some(tick) = &status.tick {
        put_gauge(
            draft,
            "last_tick_timestamp_seconds",
            "When the last tick came.",
            tick.clock,
        );
    }
    if let Some(running) = &status.running {
        put_gauge(
            draft,
            "command_started_timestamp_seconds",
            "When the command that runs was started.",
            running.since,
        );
    }
    if let Some(last) = &status.last {
        put_duration(draft, last.milliseconds);
        put_exit(draft, last);
    }
}

/// Adds a number that may become less.
fn put_gauge(draft: &mut Draft, name: &str, help: &str, value: u64) {
    put_head(draft, name, help, Kind::Gauge);
    put_value(draft, name, value);
}

/// Adds a count since the daemon's start.
fn put_count(draft: &mut Draft, name: &str, help: &str, value: u64) {
    put_head(draft, name, help, Kind::Counter);
    put_value(draft, name, value);
}

/// Adds a value without a label.
fn put_value<D: Display + Copy>(draft: &mut Draft, name: &str, value: D) {
    put_metric_name(draft, name);
    draft.put(" ");
    draft.add(value);
    draft.put("\n");
}

/// Adds the links that are known.
fn put_links(draft: &mut Draft, links: &[Link<'_>]) {
    put_head(draft, "link_up", "Whether a link is up.", Kind::Gauge);
    for link in links {
        if let Some(is_up) = link.up {
            put_sample(draft, "link_up", "link", link.name, u64::from(is_up));
        }
    }
}

/// Adds the tests that are known.
fn put_tests(draft: &mut Draft, tests: &[Test<'_>]) {
    put_head(draft, "test_true", "Whether a test is true.", Kind::Gauge);
    for test in tests {
        if let Some(is_true) = test.value {
            put_test(draft, test, u64::from(is_true));
        }
    }
}

/// Adds the value of a test, with its period: two tests of one text have different periods.
fn put_test(draft: &mut Draft, test: &Test<'_>, value: u64) {
    put_labelled_name(draft, "test_true", "test", test.command);
    if let Some(every) = test.every {
        draft.put(",every=\"");
        draft.add(every);
        draft.put("\"");
    }
    draft.put("} ");
    draft.add(value);
    draft.put("\n");
}

/// Adds how long the last command ran.
fn put_duration(draft: &mut Draft, milliseconds: u64) {
    let name = "last_command_duration_seconds";
    put_head(draft, name, "How long the last command ran.", Kind::Gauge);
    put_metric_name(draft, name);
    draft.put(" ");
    put_point(draft, milliseconds / 1_000, ".", milliseconds % 1_000);
    draft.put("\n");
}

/// Adds the exit status of the last command, if it was run.
fn put_exit(draft: &mut Draft, last: &EndedCommand<'_>) {
    if let Some(exit) = last.exit {
        let name = "last_command_exit_status";
        put_head(
            draft,
            name,
            "The exit status of the last command.",
            Kind::Gauge,
        );
        put_value(draft, name, exit);
    }
}

/// Adds the name of a metric.
fn put_metric_name(draft: &mut Draft, name: &str) {
    draft.put("ifsvm_");
    draft.put(name);
}

/// Adds the two lines that describe a metric.
fn put_head(draft: &mut Draft, name: &str, help: &str, kind: Kind) {
    draft.put("# HELP ");
    put_metric_name(draft, name);
    draft.put(" ");
    draft.put(help);
    draft.put("\n# TYPE ");
    put_metric_name(draft, name);
    draft.put(match kind {
        Kind::Gauge => " gauge\n",
        Kind::Counter => " counter\n",
    });
}

/// Adds a value with a label.
fn put_sample(draft: &mut Draft, name: &str, label: &str, labelled: &str, value: u64) {
    put_labelled_name(draft, name, label, labelled);
    draft.put("} ");
    draft.add(value);
    draft.put("\n");
}

/// Adds the name of a metric and its first label.
fn put_labelled_name(draft: &mut Draft, name: &str, label: &str, labelled: &str) {
    put_metric_name(draft, name);
    draft.put("{");
    draft.put(label);
    draft.put("=\"");
    put_label(draft, labelled);
    draft.put("\"");
}
