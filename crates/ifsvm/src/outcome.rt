//! How a word ends.

use ifs_host::failure::Failure;
use ifs_host::reporting::{image_source, write_report};
use ifs_options::Reports;
use ifs_report::{Place, Report, Severity};
use ifs_status::Service;
use std::alloc::AllocError;
use std::process::ExitCode;

/// How a word ended if it did not fail.
#[derive(Clone, Copy)]
pub enum Outcome {
    /// All is done and decided: status 0.
    Decided,
    /// What was asked is not decided: status 4.
    Undecided,
    /// A service has this status for Nagios.
    Service(Service),
}

impl Outcome {
    /// The exit status.
    pub fn status(self) -> ExitCode {
        match self {
            Outcome::Decided => ExitCode::SUCCESS,
            Outcome::Undecided => ExitCode::from(4),
            Outcome::Service(service) => ExitCode::from(service.status()),
        }
    }
}

/// The failure of a word that refuses a whole file, after a report with this message is written. The report is lost if memory runs
/// out.
pub fn refused_file<'a>(
    rt: &HostRuntime,
    file: &str,
    message: Result<String, AllocError>,
) -> Failure<'a> {
    if let Ok(message) = message {
        let report = Report::new(rt.alloc(), Severity::Error, "", Place::File, message);
        write_report(rt, Reports::Text, &report, image_source(file, &[]));
    }
    Failure::Refused
}
