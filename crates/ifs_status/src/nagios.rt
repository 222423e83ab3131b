//! The status of a daemon, for Nagios.

use crate::ages::age;
use crate::answering::Query;
use crate::clock::Clock;
use crate::service::{Service, service_of};
use crate::staleness::Staleness;
use crate::texts::{put_plugin, put_shown};
use crate::words::{put_held, put_state};
use ifs_status_file::daemon_status::DaemonStatus;
use ifs_terminal::Draft;
use std::alloc::{AllocError, Global};

/// Adds the status of a daemon, on a line for Nagios. Returns the status of Nagios. It is unknown if the image has no state of a
/// name that is asked about.
pub(crate) fn put_nagios(
    alloc: Global,
    draft: &mut Draft,
    status: &DaemonStatus<'_>,
    clock: Clock<'_>,
    query: &Query<'_>,
) -> Service {
    let is_missing = lacks(status, query.critical) || lacks(status, query.warn);
    let staleness = Staleness::of(status, clock);
    let is_warning = query.warn.contains(&status.state.name);
    let is_critical = query.critical.contains(&status.state.name);
    let service = service_of(staleness, is_missing, is_warning, is_critical);
    put_word(draft, service);
    if is_missing {
        put_missing(alloc, draft, status, query);
    } else {
        put_staleness_and_state(alloc, draft, status, clock, query.reason);
        put_numbers(draft, status, staleness, clock);
    }
    service
}

/// Whether the image has no state of one of these names. Without the names of the states it has all.
fn lacks(status: &DaemonStatus<'_>, names: &[&str]) -> bool {
    for name in names {
        if is_missing(status, name) {
            return true;
        }
    }
    false
}

/// Whether the image has no state of this name. Without the names of the states it has all.
fn is_missing(status: &DaemonStatus<'_>, name: &str) -> bool {
    for state in &status.states {
        if *state == name {
            return false;
        }
    }
    !status.states.is_empty()
}

/// Adds the line on the states that the image lacks.
fn put_missing(alloc: Global, draft: &mut Draft, status: &DaemonStatus<'_>, query: &Query<'_>) {
    let mut words = Draft::new(alloc);
    words.put("the image lacks a state:");
    put_missing_of(&mut words, status, query.critical);
    put_missing_of(&mut words, status, query.warn);
    put_plugin(draft, words.as_str());
    draft.needs(&words);
    draft.put("\n");
}

/// Adds those of these names that no state of the image has.
fn put_missing_of(words: &mut Draft, status: &DaemonStatus<'_>, names: &[&str]) {
    for name in names {
        if is_missing(status, name) {
            put_shown(words, " ", name);
        }
    }
}

/// The line for Nagios on a daemon whose status cannot be read, with its newline.
pub fn unknown(alloc: Global, cause: &str) -> Result<String, AllocError> {
    let mut draft = Draft::new(alloc);
    put_word(&mut draft, Service::Unknown);
    put_plugin(&mut draft, cause);
    draft.put("\n");
    draft.into_text()
}

/// Adds what comes before the words of the line.
fn put_word(draft: &mut Draft, service: Service) {
    draft.put("IFSVM ");
    draft.put(service.word());
    draft.put(" - ");
}

/// Adds what is wrong, if the status is stale, the state, and what holds it back.
fn put_staleness_and_state(
    alloc: Global,
    draft: &mut Draft,
    status: &DaemonStatus<'_>,
    clock: Clock<'_>,
    reason: Option<&str>,
) {
    let mut words = Draft::new(alloc);
    Staleness::of(status, clock).put(&mut words, reason, "; ");
    put_state(&mut words, status, clock);
    put_held(&mut words, status, clock, "; ", "");
    put_plugin(draft, words.as_str());
    draft.needs(&words);
}

/// Adds the numbers of the line, and its newline.
fn put_numbers(
    draft: &mut Draft,
    status: &DaemonStatus<'_>,
    staleness: Staleness,
    clock: Clock<'_>,
) {
    draft.put("| state_age=");
    draft.add(age(status, status.state.since, clock));
    draft.put("s;;;0 tick_age=");
    draft.add(staleness.tick);
    draft.put("s;;;0 steps=");
    draft.add(status.counts.steps);
    draft.put("c failed_commands=");
    draft.add(status.counts.failed);
    draft.put("c");
    if let Some(hour) = status.hour {
        draft.put(" changes_in_hour=");
        draft.add(hour);
        draft.put(";;;0");
    }
    draft.put("\n");
}
