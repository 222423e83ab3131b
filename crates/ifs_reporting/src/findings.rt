//! The findings of `lint`.

use crate::analysis::{
    Analysis, Conclusion, Form, put_object, put_replay, put_requests, put_requests_last,
};
use crate::policies::read_policy;
use ifs_lint::{Finding, Linted, lint};
use ifs_report::{Source, shown, shown_line};
use ifs_terminal::Escaped;
use std::alloc::{AllocError, Global};

/// The findings on the policy of a source. They are `None` if `check` refuses the source.
pub fn findings_on(
    alloc: Global,
    source: Source<'_>,
    form: Form,
) -> Result<Option<Analysis>, AllocError> {
    let Some(file) = read_policy(alloc, source)? else {
        return Ok(None);
    };
    let linted = lint(
        alloc,
        file.text,
        source.definitions,
        &file.tree,
        &file.policy,
    )?;
    Ok(Some(Analysis {
        lines: lines_of(alloc, &linted, source, form)?,
        counts: counts_of(alloc, &linted, form)?,
        conclusion: conclusion_of(&linted),
    }))
}

/// The lines of all findings.
fn lines_of(
    alloc: Global,
    linted: &Linted,
    source: Source<'_>,
    form: Form,
) -> Result<String, AllocError> {
    let mut lines = String::new(alloc);
    for said in [&linted.places, &linted.states, &linted.rounds] {
        put_all(alloc, &mut lines, said.findings.as_slice(), source, form)?;
    }
    Ok(lines)
}

/// Adds findings.
fn put_all(
    alloc: Global,
    lines: &mut String,
    findings: &[Finding],
    source: Source<'_>,
    form: Form,
) -> Result<(), AllocError> {
    for finding in findings {
        let (report, requests) = (&finding.report, finding.requests.as_str());
        match form {
            Form::Json => put_object(alloc, lines, report, source, requests)?,
            Form::Text => {
                lines.push_str(shown_line(alloc, report, source)?.as_str())?;
                put_requests(lines, requests)?;
                put_hint(lines, report.hint.as_str())?;
                put_replay(lines, requests)?;
            }
            Form::Excerpts { is_coloured } => {
                lines.push_str(shown(alloc, report, source, is_coloured)?.as_str())?;
                put_requests_last(lines, requests)?;
            }
        }
    }
    Ok(())
}

/// Adds the line of a hint, if there is one.
fn put_hint(lines: &mut String, hint: &str) -> Result<(), AllocError> {
    if hint.is_empty() {
        return Ok(());
    }
    write!(lines, "hint: {}\n", Escaped(hint.as_bytes()))
}

/// The line with how many questions were asked, and how many of them are not decided.
fn counts_of(alloc: Global, linted: &Linted, form: Form) -> Result<String, AllocError> {
    let (asked, undecided) = (linted.asked(), linted.undecided());
    let (on_places, open_places) = (linted.places.asked, linted.places.undecided);
    let mut line = String::new(alloc);
    match form {
        Form::Text | Form::Excerpts { .. } => {
            write!(line, "{asked} questions, {undecided} not decided\n")?;
        }
        Form::Json => {
            write!(line, "{{\"questions\":{asked},\"undecided\":{undecided}")?;
            write!(
                line,
                ",\"questions_on_places\":{on_places},\"undecided_on_places\":{open_places}}}\n"
            )?;
        }
    }
    Ok(line)
}

/// How `lint` ended: a note is no defect.
fn conclusion_of(linted: &Linted) -> Conclusion {
    if linted.is_clean() {
        Conclusion::Good
    } else {
        Conclusion::Defect
    }
}
