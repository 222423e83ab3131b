//! The status of a daemon, by its status file.

use crate::outcome::{Outcome, refused_file};
use ifs_command_line::{Request, VERSION};
use ifs_host::failure::Failure;
use ifs_host::files::read_regular_file;
use ifs_host::probing::why_unwritable;
use ifs_host::standard_output::StandardOutput;
use ifs_host::uptime::uptime;
use ifs_options::StatusForm;
use ifs_status::{Answer, Clock, Query, Service, Zone, answer_to, unknown};
use ifs_status_file::StatusFault;
use ifs_terminal::Draft;
use std::alloc::{AllocError, Global};
use std::io::{self, Write};
use std::time::SystemTime;

/// The code of a failed allocation.
const OUT_OF_MEMORY: &str = "V0";

/// The status file of a daemon, and the clock as it was read.
pub struct StatusRead {
    bytes: Vec<u8>,
    zone: Zone,
    /// The seconds of the system's clock since 1970.
    now: u64,
    /// The seconds since the system's start, if the system says them.
    uptime: Option<u64>,
}

impl Drop for StatusRead {
    fn drop(self) {
        let StatusRead {
            bytes: _bytes,
            zone: _zone,
            now: _now,
            uptime: _uptime,
        } = self;
    }
}

impl StatusRead {
    /// Reads the file, and then the clock, so that the status is of no later time.
    pub fn of<'a>(rt: &HostRuntime, file: &'a str) -> Result<StatusRead, Failure<'a>> {
        let bytes = match read_regular_file(rt, file) {
            Ok(bytes) => bytes,
            Err(fault) => return Err(Failure::of_facts(file, fault)),
        };
        match seconds(rt) {
            Ok(now) => Ok(StatusRead {
                bytes,
                zone: Zone::read(rt),
                now,
                uptime: uptime(rt),
            }),
            Err(error) => Err(Failure::of_system("clock", error)),
        }
    }

    /// The bytes of the file.
    pub fn text(&self) -> &[u8] {
        self.bytes.as_slice()
    }

    /// The clock.
    pub fn clock(&self) -> Clock<'_> {
        self.zone.clock(self.now, self.uptime)
    }
}

/// Why there is no answer.
#[derive(Drop)]
pub enum Unanswered<'a> {
    /// The file or the clock cannot be read.
    Unread(Failure<'a>),
    /// The file has no status.
    NoStatus(StatusFault),
}

impl<'a> From<Failure<'a>> for Unanswered<'a> {
    fn from(failure: Failure<'a>) -> Unanswered<'a> {
        Unanswered::Unread(failure)
    }
}

impl From<StatusFault> for Unanswered<'_> {
    fn from(fault: StatusFault) -> Self {
        Unanswered::NoStatus(fault)
    }
}

/// Prints the status of a daemon, by its status file.
pub fn status<'a>(
    rt: &HostRuntime,
    file: &'a str,
    form: StatusForm,
    request: &Request<'_>,
) -> Result<Outcome, Failure<'a>> {
    let query = Query {
        form,
        warn: request.warn.as_slice(),
        critical: request.critical.as_slice(),
        version: VERSION,
        reason: None,
    };
    match answered(rt, file, &query) {
        Ok(answer) => printed(rt, &answer),
        Err(unanswered) if matches!(form, StatusForm::Nagios) => unknown_service(
            rt,
            file,
            &unanswered,
        ),
        Err(unanswered) => Err(failed(rt, file, unanswered)),
    }
}

/// Reads the file and the clock, and answers. If the status is not written, it looks why the file cannot be.
fn answered<'a>(
    rt: &HostRuntime,
    file: &'a str,
    query: &Query<'_>,
) -> Result<Answer, Unanswered<'a>> {
    let read = StatusRead::of(rt, file)?;
    let answer = answer_to(rt.alloc(), read.text(), read.clock(), query)?;
    if !answer.is_unwritten {
        return Ok(answer);
    }
    match why_unwritable(rt, file, read.text().len()) {
        Some(reason) => answered_with(rt, &read, query, reason.as_str()),
        None => Ok(answer),
    }
}

/// Answers, and says why the file cannot be written.
fn answered_with<'a>(
    rt: &HostRuntime,
    read: &StatusRead,
    query: &Query<'_>,
    reason: &str,
) -> Result<Answer, Unanswered<'a>> {
    let query = Query {
        reason: Some(reason),
        ..*query
    };
    Ok(answer_to(rt.alloc(), read.text(), read.clock(), &query)?)
}

/// The seconds of the system's clock since 1970.
fn seconds(rt: &HostRuntime) -> io::Result<u64> {
    match SystemTime::now(rt)?.duration_since(SystemTime::UNIX_EPOCH) {
        Ok(duration) => Ok(duration.as_secs()),
        Err(_) => Ok(0),
    }
}

/// Prints an answer.
fn printed<'a>(rt: &HostRuntime, answer: &Answer) -> Result<Outcome, Failure<'a>> {
    StandardOutput::new(rt).write_all(answer.text.as_bytes())?;
    Ok(Outcome::Service(answer.service))
}

/// Prints the line for Nagios on a daemon whose status cannot be read.
fn unknown_service<'a>(
    rt: &HostRuntime,
    file: &str,
    unanswered: &Unanswered<'_>,
) -> Result<Outcome, Failure<'a>> {
    match unknown_line(rt.alloc(), file, unanswered) {
        Ok(line) => StandardOutput::new(rt).write_all(line.as_bytes())?,
        Err(_) => println!(rt; "IFSVM UNKNOWN - no memory")?,
    }
    Ok(Outcome::Service(Service::Unknown))
}

/// The line for Nagios on a daemon whose status cannot be read.
fn unknown_line(
    alloc: Global,
    file: &str,
    unanswered: &Unanswered<'_>,
) -> Result<String, AllocError> {
    let mut cause = Draft::new(alloc);
    match unanswered {
        Unanswered::Unread(failure) => cause.add(failure),
        Unanswered::NoStatus(fault) => {
            cause.put(file);
            cause.put(": ");
            cause.add(fault);
        }
    }
    let cause = cause.into_text()?;
    unknown(alloc, cause.as_str())
}

/// The failure of a word that has no answer, after its report is written. A report is lost if memory runs out.
pub fn failed<'a>(rt: &HostRuntime, file: &str, unanswered: Unanswered<'a>) -> Failure<'a> {
    match unanswered {
        Unanswered::Unread(Failure::File { path, fault }) => {
            Failure::of_file(rt, OUT_OF_MEMORY, path, fault)
        }
        Unanswered::Unread(failure) => failure,
        Unanswered::NoStatus(StatusFault::Memory) => Failure::out_of_memory(rt, OUT_OF_MEMORY),
        Unanswered::NoStatus(fault) => {
            let message = format!(in rt.alloc(); "this is no file of facts: {fault}");
            refused_file(rt, file, message)
        }
    }
}
