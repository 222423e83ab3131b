//! Failures of the program, and their exit statuses.

use crate::files::FileFault;
use crate::shell::SHELL;
use crate::system_limits::Stream;
use crate::system_words::SystemWords;
use ifs_base::FaultText;
use ifs_session::SessionFault;
use std::fmt::{self, Display, Formatter, Write};
use std::io::{self, ErrorKind};
use std::process::ExitCode;

/// Why the program failed. It determines the exit status.
#[derive(Drop)]
pub enum Failure<'a> {
    /// The input was refused, and its line was printed: status 1.
    Refused,
    /// The command line was wrong, and a message was printed: status 2.
    CommandLine,
    /// A file could not be read or written, or a socket failed: status 3.
    File { path: &'a str, fault: FileFault },
    /// The file of a daemon's facts is not there: status 3.
    NoFacts { path: &'a str, error: io::Error },
    /// There was no reply over a socket, or not in time: status 3.
    NoReply { socket: &'a str },
    /// The shell cannot be run: status 3.
    Shell(io::Error),
    /// The stack of the process is too small for a daemon: status 3.
    Stack { bytes: u64, needed: u64 },
    /// A write to standard output failed: status 3.
    Output(io::Error),
    /// A session failed: status 3.
    Session(SessionFault),
}

impl<'a> Failure<'a> {
    /// Writes the cause of status 3 to standard error, and returns the exit status. Nothing is written if nobody reads standard output
    /// any more.
    pub fn report(self, rt: &impl Eprint) -> ExitCode {
        let status = self.status();
        if status == 3 && !self.is_end_of_reader() {
            // if standard error fails too, only the status is left
            let _written = eprintln!(rt; "device {self}");
        }
        ExitCode::from(status)
    }

    /// Whether a write failed since nobody reads standard output any more.
    fn is_end_of_reader(&self) -> bool {
        match self {
            Failure::Output(error) => error.kind() == ErrorKind::BrokenPipe,
            Failure::Session(SessionFault::WriteFailed) => Stream::Output.has_no_reader(),
            _ => false,
        }
    }

    fn status(&self) -> u8 {
        match self {
            Failure::Refused => 1,
            Failure::CommandLine => 2,
            _ => 3,
        }
    }

    /// The failure of a file. If an allocation for its bytes failed, prints the line with this code.
    pub fn of_file(
        rt: &impl Print,
        code: &'static str,
        path: &'a str,
        fault: FileFault,
    ) -> Failure<'a> {
        match fault {
            FileFault::Memory => Failure::out_of_memory(rt, code),
            fault => Failure::File { path, fault },
        }
    }

    /// The failure of the file that has the facts of a daemon.
    pub fn of_facts(path: &'a str, fault: FileFault) -> Failure<'a> {
        match fault {
            FileFault::System(error) if error.kind() == ErrorKind::NotFound => {
                Failure::NoFacts { path, error }
            }
            fault => Failure::File { path, fault },
        }
    }

    /// The failure of a system call on a file.
    pub fn of_system(path: &'a str, error: io::Error) -> Failure<'a> {
        Failure::File {
            path,
            fault: FileFault::from(error),
        }
    }

    /// Prints the line with this code, for a failed allocation.
    pub fn out_of_memory(rt: &impl Print, code: &'static str) -> Failure<'a> {
        refused(println!(rt; "refused {code}"))
    }

    /// Prints the line of a refusal.
    pub fn of_refusal(rt: &impl Print, fault: FaultText) -> Failure<'a> {
        refused(println!(rt; "refused {fault}"))
    }
}

/// The failure after the line of a refusal was printed with this result.
fn refused<'a>(printed: io::Result<()>) -> Failure<'a> {
    match printed {
        Ok(()) => Failure::Refused,
        Err(error) => Failure::Output(error),
    }
}

impl Display for Failure<'_> {
    fn fmt<W: Write>(&self, f: &mut Formatter<W>) -> fmt::Result {
        match self {
            Failure::Refused | Failure::CommandLine => Ok(()),
            Failure::File { path, fault } => {
                write!(f, "{path}: ")?;
                put_fault(f, fault)
            }
            Failure::NoFacts { path, error } => write!(
                f,
                "{path}: {}; is the daemon running with `--facts`?",
                SystemWords(error)
            ),
            Failure::NoReply { socket } => write!(f, "{socket}: no reply"),
            Failure::Shell(error) => write!(f, "{SHELL}: {}", SystemWords(error)),
            Failure::Stack { bytes, needed } => {
                write!(f, "stack: {bytes} bytes, and {needed} are needed")
            }
            Failure::Output(error) => write!(f, "standard output: {}", SystemWords(error)),
            Failure::Session(fault) => write!(f, "{fault}"),
        }
    }
}

/// Writes what is wrong with a file.
fn put_fault<W: Write>(f: &mut Formatter<W>, fault: &FileFault) -> fmt::Result {
    match fault {
        FileFault::System(error) => write!(f, "{}", SystemWords(error)),
        fault => write!(f, "{fault}"),
    }
}

impl From<io::Error> for Failure<'_> {
    fn from(error: io::Error) -> Self {
        Failure::Output(error)
    }
}
