//! What is said of refused images and refused assembly texts.

use crate::checks::{holds_in, same_in};
use ifs_image_reports::of_verification;
use ifs_report::{Place, Report};
use ifs_verify::verify;
use std::alloc::{AllocError, Global};
use std::process::Abort;
use std::test::Fail;

mod assembly;
mod bytes;
mod verification;

/// A report on one line: its code, its part of the text, and its words, without the rule.
fn line_of(alloc: Global, report: &Report) -> Result<String, AllocError> {
    let mut line = String::from_str(alloc, report.code)?;
    if let Place::Text(part) = report.place {
        write!(line, " {}..{}", part.start, part.end)?;
    }
    write!(line, " {}", report.message)?;
    put_expected(&mut line, report.expected.as_slice())?;
    if !report.hint.is_empty() {
        write!(line, "; hint: {}", report.hint)?;
    }
    Ok(line)
}

fn put_expected(line: &mut String, expected: &[&'static str]) -> Result<(), AllocError> {
    let mut before = "; expected ";
    for word in expected {
        write!(line, "{before}{word}")?;
        before = ", ";
    }
    Ok(())
}

/// Asserts that a report is this line.
fn check_line(
    rt: &impl Abort,
    alloc: Global,
    report: &Report,
    wanted: &str,
) -> Result<(), AllocError> {
    let line = line_of(alloc, report)?;
    same_in(rt, wanted, line.as_str(), wanted);
    Ok(())
}

/// Asserts that an image is refused with this line.
fn check_image(rt: &impl Abort, alloc: Global, bytes: &[u8], wanted: &str) -> Result<(), Fail> {
    let Err(fault) = verify(alloc, bytes) else {
        holds_in(rt, wanted, false);
        return Ok(());
    };
    let report = of_verification(alloc, bytes, fault)?;
    check_line(rt, alloc, &report, wanted)?;
    Ok(())
}

/// Whether a report has a message and a rule.
fn has_words(report: &Report) -> bool {
    !report.message.is_empty() && !report.rule.is_empty()
}
