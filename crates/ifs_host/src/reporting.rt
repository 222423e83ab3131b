//! Reports on standard error: what is wrong with a file, or looks wrong in it.

use crate::failure::Failure;
use crate::system_limits::Stream;
use ifs_image_reports::of_verification;
use ifs_options::Reports;
use ifs_report::{Report, Source, json, shown};
use ifs_verify::VerifyFault;
use std::env::FillError;
use std::io::{self, IsTerminal, Write};
use std::rt::Env;

/// Writes a report on a file to standard error. A report is lost if an allocation or a write fails: the answer of the program
/// is there already, and stays as it is.
pub fn write_report(rt: &HostRuntime, reports: Reports, report: &Report, source: Source<'_>) {
    let text = match reports {
        Reports::Text => {
            let is_coloured = is_coloured(rt, rt.stderr().is_terminal());
            shown(rt.alloc(), report, source, is_coloured)
        }
        Reports::Json => json(rt.alloc(), report, source),
        Reports::Quiet => return,
    };
    if let Ok(text) = text {
        let _written = ReportStream { rt }.write_all(text.as_bytes());
    }
}

/// Prints the line of a refused image, and then writes the report on it. If memory ran out or the line is not printed, there is
/// no report.
#[inline(never)]
pub fn refuse_image<'p>(
    rt: &HostRuntime,
    reports: Reports,
    image: Source<'_>,
    fault: VerifyFault,
) -> Failure<'p> {
    let failure = Failure::of_refusal(rt, fault.text());
    if reports == Reports::Quiet || fault == VerifyFault::OutOfMemory {
        return failure;
    }
    if let Failure::Refused = failure
        && let Ok(report) = of_verification(rt.alloc(), image.text, fault)
    {
        write_report(rt, reports, &report, image);
    }
    failure
}

/// The file of an image, for reports.
pub fn image_source<'a>(name: &'a str, image: &'a [u8]) -> Source<'a> {
    Source {
        name,
        text: image,
        lines_before: 0,
        definitions: &[],
    }
}

/// Whether what is printed on a stream has colours: if it is a terminal that shows them, and no variable says otherwise.
pub fn is_coloured(rt: &HostRuntime, is_terminal: bool) -> bool {
    let is_unwanted = is_filled(rt, "NO_COLOR")
        || has_value(rt, "CLICOLOR", b"0")
        || has_value(rt, "TERM", b"dumb");
    is_terminal && !is_unwanted
}

/// Whether a variable is set and not empty.
fn is_filled(rt: &HostRuntime, name: &str) -> bool {
    // a value that is longer than the room is not empty
    let mut room = [0u8; 1];
    !matches!(rt.var(name, &mut room), Ok(0) | Err(FillError::NotPresent))
}

/// Whether a variable has this value.
fn has_value(rt: &HostRuntime, name: &str, value: &[u8]) -> bool {
    let mut room = [0u8; 8];
    match rt.var(name, &mut room) {
        Ok(length) => room.get(..length) == Some(value),
        Err(_fault) => false,
    }
}

/// Standard error as the place of reports. A write to a file that has the greatest length of files is an error, and no signal.
#[derive(Clone, Copy)]
struct ReportStream<'a> {
    rt: &'a HostRuntime,
}

impl Write for ReportStream<'_> {
    fn write(&mut self, buf: &[u8]) -> io::Result<usize> {
        Stream::Error.check_growth(self.rt)?;
        self.rt.stderr().write(buf)
    }

    fn flush(&mut self) -> io::Result<()> {
        Ok(())
    }
}
