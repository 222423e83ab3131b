//! Reports as a reader sees them.

use crate::excerpts::{gutter_columns, put_excerpt, put_remark};
use crate::page::{Page, Style};
use crate::reports::{Label, Place, Position, Report, Severity, Source};
use crate::spots::{Line, Texts, words_of};
use std::alloc::{AllocError, Global};

/// Makes the text of a report, for a reader. Each of its lines ends with a newline.
///
/// The name `-` is shown as `standard input`. Columns of a definition count in its word `NAME=VALUE`. With colours, the text has
/// escape sequences. Whatever else a terminal may act on is escaped, except for tabs in lines of the file.
///
/// The only error is a failed allocation.
pub fn shown(
    alloc: Global,
    report: &Report,
    source: Source<'_>,
    colours: bool,
) -> Result<String, AllocError> {
    let words = words_of(alloc, source.definitions)?;
    let texts = Texts {
        source,
        words: words.as_slice(),
    };
    let mut page = Page::new(alloc, colours);
    put_report(alloc, &mut page, report, texts)?;
    Ok(page.text)
}

/// Makes the first line of the text of a report, without colours: its place and its message. It ends with a newline.
///
/// The only error is a failed allocation.
pub fn shown_line(
    alloc: Global,
    report: &Report,
    source: Source<'_>,
) -> Result<String, AllocError> {
    let words = words_of(alloc, source.definitions)?;
    let texts = Texts {
        source,
        words: words.as_slice(),
    };
    let mut page = Page::new(alloc, false);
    put_place(
        &mut page,
        report.place,
        source.name,
        texts.line(report.place),
    )?;
    put_message(&mut page, report)?;
    Ok(page.text)
}

fn put_report(
    alloc: Global,
    page: &mut Page,
    report: &Report,
    texts: Texts<'_>,
) -> Result<(), AllocError> {
    let line = texts.line(report.place);
    let others = lines_of(alloc, report.labels.as_slice(), texts)?;
    let gutter = gutter_columns(last_number(line, others.as_slice()));
    put_place(page, report.place, texts.source.name, line)?;
    put_message(page, report)?;
    if let Some(line) = line {
        put_excerpt(page, gutter, &line, "")?;
    }
    put_labels(page, gutter, report.labels.as_slice(), others.as_slice())?;
    put_last(page, None, "rule:", report.rule)?;
    put_last(page, Some(Style::Hint), "hint:", report.hint.as_str())
}

/// The lines of labels.
fn lines_of<'t>(
    alloc: Global,
    labels: &[Label],
    texts: Texts<'t>,
) -> Result<Vec<Option<Line<'t>>>, AllocError> {
    let mut lines = Vec::new(alloc);
    for label in labels {
        lines.push(texts.line(label.place))?;
    }
    Ok(lines)
}

/// The greatest number of these lines, or 0 if there is none.
fn last_number(line: Option<Line<'_>>, others: &[Option<Line<'_>>]) -> usize {
    let mut last = number_of(line);
    for other in others {
        last = last.max(number_of(*other));
    }
    last
}

fn number_of(line: Option<Line<'_>>) -> usize {
    line.map_or(0, |line| line.start.line)
}

/// Adds the place of a report, and a colon.
fn put_place(
    page: &mut Page,
    place: Place,
    name: &str,
    line: Option<Line<'_>>,
) -> Result<(), AllocError> {
    let is_defined = matches!(place, Place::Definition(_, _));
    match name {
        _ if is_defined => page.text.push_str("-D")?,
        "-" => page.text.push_str("standard input")?,
        _ => page.put_escaped(name)?,
    }
    match line {
        None => page.text.push_str(": "),
        Some(line) => put_position(&mut page.text, is_defined, line.start),
    }
}

/// Adds a line and a column. The word of a definition has no line of its own.
fn put_position(text: &mut String, is_defined: bool, start: Position) -> Result<(), AllocError> {
    let Position { line, column } = start;
    if is_defined {
        write!(text, ":{column}: ")
    } else {
        write!(text, ":{line}:{column}: ")
    }
}

/// Adds the message, with what is expected.
fn put_message(page: &mut Page, report: &Report) -> Result<(), AllocError> {
    let (style, word) = match report.severity {
        Severity::Error => (Style::Error, "error:"),
        Severity::Warning => (Style::Warning, "warning:"),
        Severity::Note => (Style::Note, "note:"),
    };
    page.put_styled(style, word)?;
    page.text.push(' ')?;
    page.begin(Style::Message)?;
    page.put_escaped(report.message.as_str())?;
    put_expected(page, report.expected.as_slice())?;
    page.end()?;
    page.text.push('\n')
}

/// Adds what is expected, as `; expected A, B or C`.
fn put_expected(page: &mut Page, expected: &[&str]) -> Result<(), AllocError> {
    for (index, words) in expected.iter().enumerate() {
        page.text.push_str(link(index, expected.len()))?;
        page.put_escaped(words)?;
    }
    Ok(())
}

/// What precedes an entry of a list.
fn link(index: usize, len: usize) -> &'static str {
    if index == 0 {
        "; expected "
    } else if index.saturating_add(1) == len {
        " or "
    } else {
        ", "
    }
}

/// Adds the line of each label, or its words alone if it has no line.
fn put_labels(
    page: &mut Page,
    gutter: usize,
    labels: &[Label],
    lines: &[Option<Line<'_>>],
) -> Result<(), AllocError> {
    for (label, line) in labels.iter().zip(lines) {
        match line {
            Some(line) => put_excerpt(page, gutter, line, label.words)?,
            None => put_remark(page, gutter, label.words)?,
        }
    }
    Ok(())
}

/// Adds a line with a word and a text, unless the text is empty.
fn put_last(
    page: &mut Page,
    style: Option<Style>,
    word: &str,
    text: &str,
) -> Result<(), AllocError> {
    if text.is_empty() {
        return Ok(());
    }
    match style {
        Some(style) => page.put_styled(style, word)?,
        None => page.text.push_str(word)?,
    }
    page.text.push(' ')?;
    page.put_escaped(text)?;
    page.text.push('\n')
}
