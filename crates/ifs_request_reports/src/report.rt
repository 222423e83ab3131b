//! The report on a line.

ghost use Rattle.std.specs.Prelude.{◌≡◌, length, IfOk, IfSome};
ghost use Rattle.ifs_request_reports.specs.Places.{IsWithin};

use crate::numbers::{interface_in, say_no_interface, say_out_of_range, say_too_long};
use crate::places::part_of;
use crate::refused::say_no_request;
use ifs_core::Core;
use ifs_report::{Draft, Part, Place, Report, Severity};
use ifs_session::{RequestFault, fault_in};
use std::alloc::{AllocError, Global};

/// A line of a session, without its newline.
#[derive(Clone, Copy)]
pub(crate) struct Line<'l, 'k, 'c> {
    pub(crate) text: &'l [u8],
    /// The core of the session.
    pub(crate) core: &'k Core<'c>,
    /// Whether lines with names are taken too.
    pub(crate) takes_names: bool,
}

/// The report on a line of a session, without its newline, if the session replies to it with a fault. Its place is in the line.
///
/// The only error is a failed allocation.
pub fn report_on(
    alloc: Global,
    core: &Core<'_>,
    line: &[u8],
    takes_names: bool,
) -> Result<Option<Report>, AllocError>
    ensures error { IfOk result (λ found. IfSome found (λ report. report.severity ≡ Severity.Error)) }
    ensures place { IfOk result (λ found. IfSome found (λ report. IsWithin (length line.now) report.place)) }
{
    let said = Line {
        text: line,
        core,
        takes_names,
    };
    match fault_of(said) {
        Some(fault) => Ok(Some(report_of(alloc, line, said, fault)?)),
        None => Ok(None),
    }
}

/// The fault that is the reply to a line.
fn fault_of(line: Line<'_, '_, '_>) -> Option<RequestFault> {
    if let Some(fault) = fault_in(line.text) {
        return Some(fault);
    }
    if line.text == b"reload".as_slice() {
        return Some(RequestFault::NoRequest);
    }
    if !line.text.starts_with(b"link ") {
        return None;
    }
    match line.core.iface_of(interface_in(line.text).bytes) {
        Some(_interface) => None,
        None => Some(RequestFault::NoInterface),
    }
}

/// The report on a line with this fault. The text is that of the line.
fn report_of(
    alloc: Global,
    text: &[u8],
    line: Line<'_, '_, '_>,
    fault: RequestFault,
) -> Result<Report, AllocError>
    ensures error { IfOk result (λ report. report.severity ≡ Severity.Error) }
    ensures place { IfOk result (λ report. IsWithin (length text.now) report.place) }
{
    let mut draft = Draft::new(alloc, Severity::Error);
    let part = say(alloc, &mut draft, line, fault)?;
    let mut report = draft.finish()?;
    report.severity = Severity::Error;
    report.code = code_of(fault);
    report.place = Place::Text(part_of(text, part.start, part.end));
    Ok(report)
}

/// Says what is wrong with a line, and returns where.
fn say(
    alloc: Global,
    draft: &mut Draft,
    line: Line<'_, '_, '_>,
    fault: RequestFault,
) -> Result<Part, AllocError> {
    match fault {
        RequestFault::NoRequest => say_no_request(alloc, draft, line),
        RequestFault::TooLong => say_too_long(alloc, draft, line.text),
        RequestFault::OutOfRange => say_out_of_range(alloc, draft, line.text),
        RequestFault::NoInterface => say_no_interface(alloc, draft, line),
    }
}

/// The code of a fault.
fn code_of(fault: RequestFault) -> &'static str {
    match fault {
        RequestFault::NoRequest => "C1",
        RequestFault::TooLong => "C2",
        RequestFault::OutOfRange => "C3",
        RequestFault::NoInterface => "C4",
    }
}
