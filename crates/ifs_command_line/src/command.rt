//! What a command line asks for, borrowed from its words.

use ifs_base::LinkState;
use ifs_options::{Explained, Lines, Reports, Serve, StatusForm, Task};
use std::time::Duration;

/// What a command line asks for, its definitions, links and states, and which reports it wants.
#[derive(Drop)]
pub struct Request<'a> {
    pub command: Command<'a>,
    /// Names of macros with their values, in order.
    pub definitions: Vec<(&'a str, &'a str)>,
    /// Names of interfaces with their link states, in order.
    pub links: Vec<(&'a str, LinkState)>,
    pub reports: Reports,
    /// The states that are a warning for Nagios.
    pub warn: Vec<&'a str>,
    /// The states that are critical for Nagios.
    pub critical: Vec<&'a str>,
}

/// What a command line asks for, without its definitions, links and states.
#[derive(Clone, Copy)]
pub enum Command<'a> {
    /// Without words: run a session whose first line is the image.
    Session,
    /// Do a task on a file.
    OnFile {
        task: Task,
        file: &'a str,
        /// The file of the image to write, if the task makes one.
        image: Option<&'a str>,
    },
    /// Print the findings on the policy of a file.
    Lint {
        file: &'a str,
        /// Whether the exit status says if there is one.
        is_strict: bool,
    },
    /// Say of each claim of a file whether it holds of the policy of another.
    Prove(Prove<'a>),
    /// Print what differs between the policies of two files.
    Compare {
        old: &'a str,
        new: &'a str,
    },
    /// Run a session on the image of a file.
    Sim {
        image: &'a str,
        lines: Lines,
    },
    /// Run the daemon.
    Serve(Serve<'a>),
    /// Send a request to a daemon.
    Send(Send<'a>),
    /// Print what a daemon did.
    Explain(Explain<'a>),
    /// Print the state of a daemon by its file of facts.
    Status {
        file: &'a str,
        form: StatusForm,
    },
}

/// The claims of a file, on the policy of another.
#[derive(Clone, Copy)]
pub struct Prove<'a> {
    pub file: &'a str,
    pub claims: &'a str,
    /// The line of the claim whose request lines alone are printed.
    pub requests: Option<u64>,
}

/// A request line for the daemon of a socket.
#[derive(Clone, Copy)]
pub struct Send<'a> {
    pub socket: &'a str,
    pub request: &'a str,
    pub manner: Manner,
}

/// What a client does after its request is written.
#[derive(Clone, Copy)]
pub enum Manner {
    /// It ends.
    NoWait,
    /// It waits for the reply and prints it.
    Wait {
        /// How long it waits at most.
        limit: Option<Duration>,
        /// Whether the reply to a request that was not done is a refusal.
        check: bool,
        /// Whether what a terminal may act on is escaped.
        escape: bool,
    },
}

/// The daemon of a socket and its image's file.
#[derive(Clone, Copy)]
pub struct Explain<'a> {
    pub image: &'a str,
    pub socket: &'a str,
    pub explained: Explained,
    /// The daemon's file of facts.
    pub facts: Option<&'a str>,
    /// How long the reply is waited for at most.
    pub limit: Option<Duration>,
}
