//! Reports as JSON.

use crate::reports::{Label, Report, Severity, Source};
use crate::spots::{Spot, Texts, words_of};
use ifs_terminal::acts_on_terminal;
use std::alloc::{AllocError, Global};

/// Makes one JSON object of a report, on a line that ends with a newline.
///
/// It has `file` as the user gave it, `severity` (`error`, `warning` or `note`), `code`, `message`, `expected`, an array of texts, and
/// `related`, an array of an object for each label, with its `message`. The report and each of these objects have `line`,
/// `column`, `end_line` and `end_column` of their place, unless it is the file as a whole. `definition` is the name of a
/// definition, whose columns count in its word `NAME=VALUE`. `rule` and `hint` are left out if they are empty.
///
/// Whatever a terminal may act on is escaped. The only error is a failed allocation.
pub fn json(alloc: Global, report: &Report, source: Source<'_>) -> Result<String, AllocError> {
    json_with_requests(alloc, report, source, "")
}

/// Makes the same object with `requests`, an array of request lines, unless there are none.
///
/// The only error is a failed allocation.
pub fn json_with_requests(
    alloc: Global,
    report: &Report,
    source: Source<'_>,
    requests: &str,
) -> Result<String, AllocError> {
    let words = words_of(alloc, source.definitions)?;
    let texts = Texts {
        source,
        words: words.as_slice(),
    };
    let mut text = String::new(alloc);
    put_report(&mut text, report, texts)?;
    put_requests(&mut text, requests)?;
    text.push_str("}\n")?;
    Ok(text)
}

/// Adds an array of the lines of a text, unless it is empty.
fn put_requests(text: &mut String, requests: &str) -> Result<(), AllocError> {
    if requests.is_empty() {
        return Ok(());
    }
    text.push_str(",\"requests\":[")?;
    for (index, line) in requests.trim_end().split('\n').enumerate() {
        put_member(text, comma_before(index), line)?;
    }
    text.push(']')
}

fn put_report(text: &mut String, report: &Report, texts: Texts<'_>) -> Result<(), AllocError> {
    put_member(text, "{\"file\":", texts.source.name)?;
    put_member(text, ",\"severity\":", severity_word(report.severity))?;
    put_member(text, ",\"code\":", report.code)?;
    put_member(text, ",\"message\":", report.message.as_str())?;
    put_spot(text, texts.spot(report.place))?;
    put_expected(text, report.expected.as_slice())?;
    put_related(text, report.labels.as_slice(), texts)?;
    put_optional(text, ",\"rule\":", report.rule)?;
    put_optional(text, ",\"hint\":", report.hint.as_str())
}

fn severity_word(severity: Severity) -> &'static str {
    match severity {
        Severity::Error => "error",
        Severity::Warning => "warning",
        Severity::Note => "note",
    }
}

/// Adds the members of a place, each after a comma.
fn put_spot(text: &mut String, spot: Option<Spot<'_>>) -> Result<(), AllocError> {
    let Some(spot) = spot else {
        return Ok(());
    };
    let (start, end) = (spot.start(), spot.end());
    write!(text, ",\"line\":{},\"column\":{}", start.line, start.column)?;
    write!(
        text,
        ",\"end_line\":{},\"end_column\":{}",
        end.line, end.column
    )?;
    match spot.definition {
        Some(name) => put_member(text, ",\"definition\":", name),
        None => Ok(()),
    }
}

fn put_expected(text: &mut String, expected: &[&str]) -> Result<(), AllocError> {
    text.push_str(",\"expected\":[")?;
    for (index, words) in expected.iter().enumerate() {
        put_member(text, comma_before(index), words)?;
    }
    text.push(']')
}

fn put_related(text: &mut String, labels: &[Label], texts: Texts<'_>) -> Result<(), AllocError> {
    text.push_str(",\"related\":[")?;
    for (index, label) in labels.iter().enumerate() {
        text.push_str(comma_before(index))?;
        put_label(text, label, texts)?;
    }
    text.push(']')
}

/// What precedes an entry of an array.
fn comma_before(index: usize) -> &'static str {
    if index == 0 { "" } else { "," }
}

fn put_label(text: &mut String, label: &Label, texts: Texts<'_>) -> Result<(), AllocError> {
    put_member(text, "{\"message\":", label.words)?;
    put_spot(text, texts.spot(label.place))?;
    text.push('}')
}

/// Adds a member, unless its value is empty.
fn put_optional(text: &mut String, before: &str, value: &str) -> Result<(), AllocError> {
    if value.is_empty() {
        Ok(())
    } else {
        put_member(text, before, value)
    }
}

/// Adds what precedes a value, and the value as a string.
fn put_member(text: &mut String, before: &str, value: &str) -> Result<(), AllocError> {
    text.push_str(before)?;
    text.push('"')?;
    for character in value.chars() {
        put_character(text, character)?;
    }
    text.push('"')
}

/// Adds a character of a string.
fn put_character(text: &mut String, character: char) -> Result<(), AllocError> {
    match character {
        '"' => text.push_str("\\\""),
        '\\' => text.push_str("\\\\"),
        '\n' => text.push_str("\\n"),
        '\t' => text.push_str("\\t"),
        _ if acts_on_terminal(character) => write!(text, "\\u{:04x}", u32::from(character)),
        _ => text.push(character),
    }
}
