//! The answer to what is asked of the text of a status file.

use crate::clock::Clock;
use crate::nagios::put_nagios;
use crate::prometheus::put_prometheus;
use crate::service::Service;
use crate::staleness::Staleness;
use crate::texts::put_json_text;
use crate::words::put_words;
use ifs_options::StatusForm;
use ifs_status_file::daemon_status::DaemonStatus;
use ifs_status_file::{StatusFault, parse_json, read_status};
use ifs_terminal::Draft;
use serde_json::Value;
use std::alloc::Global;

/// What is asked of the status of a daemon.
#[derive(Clone, Copy)]
pub struct Query<'a> {
    pub form: StatusForm,
    /// The states that are a warning for Nagios.
    pub warn: &'a [&'a str],
    /// The states that are critical for Nagios.
    pub critical: &'a [&'a str],
    /// The version of the program that answers.
    pub version: &'static str,
    /// Why the file of the status cannot be written, if that is known.
    pub reason: Option<&'a str>,
}

/// What is printed, and the status for Nagios. It is good where none is asked for.
#[derive(Drop)]
pub struct Answer {
    pub text: String,
    pub service: Service,
    /// Whether the status is not written, so that the reason is of interest.
    pub is_unwritten: bool,
}

/// Answers by the text of a status file.
pub fn answer_to(
    alloc: Global,
    text: &[u8],
    clock: Clock<'_>,
    query: &Query<'_>,
) -> Result<Answer, StatusFault> {
    let value = parse_json(alloc, text)?;
    answer_in(alloc, &value, clock, query)
}

/// Answers by JSON.
fn answer_in(
    alloc: Global,
    value: &Value,
    clock: Clock<'_>,
    query: &Query<'_>,
) -> Result<Answer, StatusFault> {
    let status = read_status(alloc, value)?;
    answer_by(alloc, value, &status, clock, query)
}

/// Answers by the status that JSON has.
fn answer_by(
    alloc: Global,
    value: &Value,
    status: &DaemonStatus<'_>,
    clock: Clock<'_>,
    query: &Query<'_>,
) -> Result<Answer, StatusFault> {
    let mut draft = Draft::new(alloc);
    let service = put_answer(alloc, &mut draft, value, status, clock, query);
    Ok(Answer {
        text: draft.into_text()?,
        service,
        is_unwritten: Staleness::of(status, clock).is_unwritten(),
    })
}

/// Adds the answer by the status that JSON has. Returns the status for Nagios.
fn put_answer(
    alloc: Global,
    draft: &mut Draft,
    value: &Value,
    status: &DaemonStatus<'_>,
    clock: Clock<'_>,
    query: &Query<'_>,
) -> Service {
    match query.form {
        StatusForm::Words => put_words(draft, status, clock, query.version, query.reason),
        StatusForm::Json => put_json(alloc, draft, value),
        StatusForm::Nagios => return put_nagios(alloc, draft, status, clock, query),
        StatusForm::Prometheus => put_prometheus(draft, status),
    }
    Service::Good
}

/// Adds JSON on a line.
fn put_json(alloc: Global, draft: &mut Draft, value: &Value) {
    let mut json = Draft::new(alloc);
    json.add(value);
    put_json_text(draft, json.as_str());
    draft.needs(&json);
    draft.put("\n");
}
