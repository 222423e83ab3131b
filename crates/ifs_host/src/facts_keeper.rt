//! The daemon's side of the helper that keeps its facts in their file.

use crate::facts_helper::{NAME, REMOVE};
use crate::shell::poll_briefly;
use libc::types::pollfd;
use std::alloc::{AllocError, Global};
use std::io::{self, ErrorKind, Read, Write};
use std::os::fd::AsRawFd;
use std::os::unix::process::CommandExt;
use std::process::{Child, ChildStdin, ChildStdout, Command, Stdio};
use thiserror::Error;

/// The program that runs, whatever became of its file.
const PROGRAM: &str = "/proc/self/exe";

/// How long the daemon waits for the helper, in milliseconds.
const LIMIT: i32 = 250;

/// The most bytes of an answer that are read.
const ANSWER: usize = 512;

/// The most parts in which an order is passed on.
const PARTS: u32 = 1_024;

/// Why facts are not in their file.
#[derive(Debug, Drop, Error)]
pub enum KeepFault {
    /// The helper could not be started or asked.
    #[error("{0}")]
    System(io::Error),
    /// The helper says why.
    #[error("{0}")]
    Refused(String),
    /// The helper has not answered in time.
    #[error("not written within 250 ms")]
    Late,
}

impl From<io::Error> for KeepFault {
    fn from(error: io::Error) -> KeepFault {
        KeepFault::System(error)
    }
}

impl From<AllocError> for KeepFault {
    fn from(error: AllocError) -> KeepFault {
        KeepFault::System(io::Error::from(error))
    }
}

/// How long the daemon waits for an answer.
#[derive(Clone, Copy, PartialEq, Eq)]
pub enum Waiting {
    /// Not at all.
    Never,
    /// For a quarter of a second at most. Not at all if the helper was late before, and has not answered since.
    Briefly,
}

/// What keeps the facts of a daemon in their file. The helper is started with the first order, and again if it has ended.
#[derive(Drop)]
pub struct FactsKeeper {
    rt: HostRuntime,
    path: String,
    helper: Option<Helper>,
}

/// A helper that runs.
#[derive(Drop)]
struct Helper {
    child: Child,
    orders: ChildStdin,
    answers: ChildStdout,
    /// What was not passed on of the orders.
    rest: Vec<u8>,
    /// Whether an answer is due.
    is_due: bool,
    /// Whether the helper was late, and has not answered since.
    is_late: bool,
}

impl FactsKeeper {
    /// What keeps facts in the file at this path.
    pub fn new(rt: HostRuntime, path: &str) -> Result<FactsKeeper, AllocError> {
        let path = String::from_str(rt.alloc(), path)?;
        Ok(FactsKeeper {
            rt,
            path,
            helper: None,
        })
    }

    /// The path of the file.
    pub fn path(&self) -> &str {
        self.path.as_str()
    }

    /// Waits for the answer to the last order, if one is due.
    pub fn settle(&mut self, waiting: Waiting) -> Result<(), KeepFault> {
        let Some(helper) = &mut self.helper else {
            return Ok(());
        };
        let settled = helper.settle(self.rt.alloc(), waiting);
        if let Err(KeepFault::System(_)) = &settled {
            self.let_go();
        }
        settled
    }

    /// Gives an order, a line. It does not wait for the answer.
    pub fn give(&mut self, order: &str) -> Result<(), KeepFault> {
        let mut helper = match self.helper.take() {
            Some(helper) => helper,
            None => start(&self.rt, self.path.as_str())?,
        };
        let given = helper.give(order);
        self.helper = Some(helper);
        if given.is_err() {
            self.let_go();
        }
        given
    }

    /// Has the file removed, and waits for that briefly.
    pub fn remove(&mut self) {
        let _settled = self.settle(Waiting::Briefly);
        if self.helper.is_some() {
            // if the disk hangs, it is removed once that ends
            let _given = self.give(REMOVE);
            let _removed = self.settle(Waiting::Briefly);
        }
    }

    /// Ends the helper, and lets go of it.
    fn let_go(&mut self) {
        if let Some(mut helper) = self.helper.take() {
            let _killed = helper.child.kill();
            let _ended = poll_briefly(&self.rt, &mut helper.child);
        }
    }
}

impl Helper {
    /// Takes an order, and passes on what the helper has room for.
    fn give(&mut self, order: &str) -> Result<(), KeepFault> {
        self.rest.extend_from_slice(order.as_bytes())?;
        self.is_due = true;
        self.pass_part()?;
        Ok(())
    }

    /// Waits for the answer, if one is due.
    fn settle(&mut self, alloc: Global, waiting: Waiting) -> Result<(), KeepFault> {
        if !self.is_due {
            return Ok(());
        }
        let limit = if self.is_late || waiting == Waiting::Never {
            0
        } else {
            LIMIT
        };
        self.is_late = true;
        self.pass_on(limit)?;
        if !has_room(self.answers.as_raw_fd(), libc::net::POLLIN, limit) {
            return Err(KeepFault::Late);
        }
        self.is_late = false;
        self.is_due = false;
        read_answer(alloc, &mut self.answers)
    }

    /// Passes on the rest of the orders. It waits for at most so many milliseconds before each part.
    fn pass_on(&mut self, limit: i32) -> Result<(), KeepFault> {
        for _ in 0..PARTS {
            if self.rest.is_empty() {
                return Ok(());
            }
            if !has_room(self.orders.as_raw_fd(), libc::net::POLLOUT, limit) {
                return Err(KeepFault::Late);
            }
            self.pass_part()?;
        }
        Err(KeepFault::Late)
    }

    /// Passes on as much of the rest as the helper has room for.
    fn pass_part(&mut self) -> io::Result<()> {
        match self.orders.write(self.rest.as_slice()) {
            Ok(count) => {
                self.rest.drain(..count.min(self.rest.len()));
                Ok(())
            }
            Err(error) if error.kind() == ErrorKind::WouldBlock => Ok(()),
            Err(error) => Err(error),
        }
    }
}

/// Starts the helper for the file at a path.
fn start(rt: &HostRuntime, path: &str) -> Result<Helper, KeepFault> {
    let mut command = Command::new(rt.alloc(), PROGRAM)?;
    command.arg0(NAME)?.arg(path)?;
    command
        .stdin(Stdio::piped())
        .stdout(Stdio::piped())
        .stderr(Stdio::null());
    let mut child = command.spawn(rt)?;
    let (Some(orders), Some(answers)) = (child.stdin.take(), child.stdout.take()) else {
        return Err(KeepFault::System(ErrorKind::Other.into()));
    };
    // else a write to a helper that hangs would wait
    let _never_waits = os::set_nonblocking(orders.as_raw_fd(), true);
    Ok(Helper {
        child,
        orders,
        answers,
        rest: Vec::new(rt.alloc()),
        is_due: false,
        is_late: false,
    })
}

/// Whether a pipe has room, or has something to read, within so many milliseconds. A pipe whose other end is closed has both.
fn has_room(pipe: i32, events: i16, limit: i32) -> bool {
    let mut asked = [pollfd {
        fd: pipe,
        events,
        revents: 0,
    }];
    libc::net::poll(&mut asked, limit) > 0
}

/// Reads an answer that is there.
fn read_answer(alloc: Global, answers: &mut ChildStdout) -> Result<(), KeepFault> {
    let mut buffer = [0; ANSWER];
    let count = answers.read(&mut buffer)?;
    match buffer.get(..count).unwrap_or_default() {
        [] => Err(KeepFault::System(io::Error::other("its helper has ended"))),
        [b'\n', ..] => Ok(()),
        [text @ .., _newline] => Err(KeepFault::Refused(String::from_utf8_lossy(alloc, text)?)),
    }
}
