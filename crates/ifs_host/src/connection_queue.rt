//! The connections of the daemon's listener, one after another, and the ends of its tests between them.

use crate::notes::NoteLog;
use crate::runner::Runner;
use crate::runner_host::RunnerHost;
use crate::watching::{Patience, Watched};
use log::warn;
use std::io::{self, ErrorKind};
use std::os::fd::AsRawFd;
use std::os::unix::net::{UnixListener, UnixStream};
use std::thread;
use std::time::Duration;

/// The pause after an `accept` that failed, in milliseconds.
const PAUSE: u64 = 100;

/// What the daemon does next.
#[derive(Clone, Copy, PartialEq, Eq)]
pub enum Wake {
    /// It serves the next client.
    Client,
    /// It looks at the tests that run, since one has ended or could not be started.
    End,
    /// It looks at the tests that run, as it does now and then.
    Look,
}

/// Whether other clients wait while one is served.
#[derive(Clone, Copy, PartialEq, Eq)]
pub enum OtherClients {
    /// At least one waits, or a test has ended.
    Waiting,
    /// None waits.
    Absent,
    /// The system does not say.
    Unknown,
}

/// The connections of a listener, in order. One of them may be accepted ahead of its turn.
#[derive(Drop)]
pub struct ConnectionQueue<'a> {
    listener: &'a UnixListener,
    /// The connection that was accepted ahead of its turn.
    ahead: Option<UnixStream>,
    /// What was watched as the present connection began.
    watched: Watched,
}

impl<'a> ConnectionQueue<'a> {
    /// The connections of a listener, without one ahead of its turn.
    pub fn new(listener: &'a UnixListener) -> Self {
        ConnectionQueue {
            listener,
            ahead: None,
            watched: Watched::new(),
        }
    }

    /// Waits until a client comes or a test of the host ends, and returns what is to be done. If both have come, it is what is
    /// to be `first`. If the system cannot watch them, it is to serve a client.
    pub fn wait<Q: Runner>(&mut self, host: &RunnerHost<Q>, first: Wake) -> Wake {
        self.watched.restart(self.listener.as_raw_fd());
        host.watch(&mut self.watched);
        let patience = self.patience(host);
        if !self.watched.look(patience) {
            return Wake::Client;
        }
        let has_client = self.ahead.is_some() || self.watched.has_client();
        let has_end = self.watched.has_closed() || host.has_failed();
        match first {
            Wake::Client if has_client => Wake::Client,
            _ if has_end => Wake::End,
            _ if has_client || !host.has_running() => Wake::Client,
            _ => Wake::Look,
        }
    }

    /// How long to wait for news. What a test leaves running may keep its pipe open, so tests that run are looked at now and then.
    fn patience<Q: Runner>(&self, host: &RunnerHost<Q>) -> Patience {
        if self.ahead.is_some() || host.has_failed() {
            Patience::None
        } else if host.has_running() {
            Patience::Short
        } else {
            Patience::Endless
        }
    }

    /// The next connection. It waits for one if need be.
    pub fn next(&mut self, rt: &HostRuntime, notes: &NoteLog) -> Option<UnixStream> {
        match self.ahead.take() {
            Some(stream) => Some(stream),
            None => accept_next(rt, notes, self.listener),
        }
    }

    /// Whether other clients wait, or a test has ended that ran as the present connection began. If a client waits, its connection
    /// is accepted ahead of its turn.
    pub fn check_others(&mut self) -> OtherClients {
        if self.watched.look(Patience::None) && self.watched.has_closed() {
            return OtherClients::Waiting;
        }
        match self.ahead.take() {
            Some(stream) => self.keep(stream),
            None => self.accept_ahead(),
        }
    }

    /// Keeps a connection for its turn.
    fn keep(&mut self, stream: UnixStream) -> OtherClients {
        self.ahead = Some(stream);
        OtherClients::Waiting
    }

    /// Accepts a connection if one waits.
    fn accept_ahead(&mut self) -> OtherClients {
        match accept_at_once(self.listener) {
            Ok(stream) => self.keep(stream),
            Err(error) if error.kind() == ErrorKind::WouldBlock => OtherClients::Absent,
            Err(_) => OtherClients::Unknown,
        }
    }
}

/// Accepts a connection without waiting. If none waits, the error is that of a call that would have to wait.
fn accept_at_once(listener: &UnixListener) -> io::Result<UnixStream> {
    listener.set_nonblocking(true)?;
    let connection = listener.accept();
    // if this fails, the next connection is looked for ten times a second
    let _waits_again = listener.set_nonblocking(false);
    let (stream, _address) = connection?;
    Ok(stream)
}

/// Accepts the next connection. If that fails, it tries again after a pause. It notes the cause, once while it stays the
/// same.
fn accept_next(rt: &HostRuntime, notes: &NoteLog, listener: &UnixListener) -> Option<UnixStream> {
    let mut noted = None;
    for _ in 0..u64::MAX {
        match listener.accept() {
            Ok((stream, _address)) => return Some(stream),
            Err(error) => {
                if noted != Some(error.kind()) {
                    warn!(notes; "no connection: {error}");
                    noted = Some(error.kind());
                }
                thread::sleep(rt, Duration::from_millis(PAUSE));
            }
        }
    }
    None
}
