//! What an analysis of policies prints.

use ifs_report::{Report, Source, json_with_requests};
use ifs_terminal::{Escaped, Shown, displays_as};
use std::alloc::{AllocError, Global};

/// How findings, verdicts and differences are printed.
#[derive(Clone, Copy)]
pub enum Form {
    /// As lines for a reader.
    Text,
    /// The same with lines of the file and carets, for a reader at a terminal.
    Excerpts { is_coloured: bool },
    /// As JSON objects, one on a line.
    Json,
}

/// What an analysis prints, and how it ended.
#[derive(Drop)]
pub struct Analysis {
    /// The lines of what was found.
    pub lines: String,
    /// The line behind them, with how much was asked or found. It is empty if an analysis has none.
    pub counts: String,
    pub conclusion: Conclusion,
}

impl Analysis {
    /// All that it prints.
    pub fn into_text(self) -> Result<String, AllocError> {
        let Analysis {
            lines,
            counts,
            conclusion: _conclusion,
        } = self;
        let mut text = lines;
        text.push_str(counts.as_str())?;
        Ok(text)
    }
}

/// How an analysis ended.
#[derive(Clone, Copy, PartialEq, Eq)]
pub enum Conclusion {
    /// All is decided, and nothing is wrong or differs.
    Good,
    /// A warning, a broken claim or a difference was found.
    Defect,
    /// No defect was found, but something is not decided.
    Undecided,
    /// No claim is on the line that was asked for.
    NoClaim,
}

/// Adds a report with request lines, as a JSON object on a line.
pub(crate) fn put_object(
    alloc: Global,
    text: &mut String,
    report: &Report,
    source: Source<'_>,
    requests: &str,
) -> Result<(), AllocError> {
    let object = json_with_requests(alloc, report, source, requests)?;
    text.push_str(object.as_str())
}

/// Adds request lines, each after four spaces. If a terminal acts on a character of one of them, the names of interfaces are in quotes.
pub(crate) fn put_requests(text: &mut String, requests: &str) -> Result<(), AllocError> {
    let is_quoted = acts_on_terminal(requests);
    for line in requests.lines() {
        put_request(text, line, is_quoted)?;
    }
    Ok(())
}

/// Adds how request lines with names in quotes are replayed, if they have some.
pub(crate) fn put_replay(text: &mut String, requests: &str) -> Result<(), AllocError> {
    if acts_on_terminal(requests) {
        text.push_str("hint: `ifsvm sim --names` takes these lines\n")?;
    }
    Ok(())
}

/// Adds request lines, and how they are replayed.
pub(crate) fn put_requests_last(text: &mut String, requests: &str) -> Result<(), AllocError> {
    put_requests(text, requests)?;
    put_replay(text, requests)
}

/// Whether a terminal acts on a character of some request lines.
fn acts_on_terminal(requests: &str) -> bool {
    !displays_as(Escaped(requests.as_bytes()), requests)
}

/// Adds a request line, with the name of an interface in quotes or as it is.
fn put_request(text: &mut String, line: &str, is_quoted: bool) -> Result<(), AllocError> {
    match link_in(line) {
        Some((name, state)) if is_quoted => write!(text, "    link {} {state}\n", Shown(name)),
        _ => write!(text, "    {}\n", Escaped(line.as_bytes())),
    }
}

/// The interface and the state that a request line reports, if it is on a link.
fn link_in(line: &str) -> Option<(&str, &str)> {
    line.strip_prefix("link ")?.rsplit_once(' ')
}
