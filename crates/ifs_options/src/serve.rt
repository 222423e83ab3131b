//! The options of a daemon.

use std::time::Duration;

/// A daemon on the image of a file, for the clients of a socket.
#[derive(Clone, Copy)]
pub struct Serve<'a> {
    /// The image's file.
    pub image: &'a str,
    /// The socket's file.
    pub socket: &'a str,
    /// Which notes it writes.
    pub notes: Notes,
    /// How it writes them.
    pub form: NoteForm,
    /// The time limits of commands and tests.
    pub limits: Limits,
    /// The file that it writes its facts to.
    pub facts: Option<&'a str>,
    /// The version of the program.
    pub version: &'static str,
}

/// Which notes a daemon writes.
#[derive(Clone, Copy)]
pub enum Notes {
    /// All, with the end of each connection.
    All,
    /// Changes of state, commands and faults.
    Changes,
    /// Only warnings and errors.
    Faults,
    /// None.
    Off,
}

/// How a daemon writes its notes.
#[derive(Clone, Copy)]
pub enum NoteForm {
    /// After the level and the program's name.
    Named,
    /// After the number of the level, as the system's log reads it.
    Numbered,
    /// As JSON objects, one a line.
    Json,
}

/// How long the shell may run a text before it is killed. `None` is no limit.
#[derive(Clone, Copy, Default)]
pub struct Limits {
    /// How long a command may run. If it runs longer, the host goes on, also if the system cannot end it.
    pub command: Option<Duration>,
    /// How long a test may run. If it runs longer, it ends with false, also if the system cannot end it. The limit is checked
    /// when the host is polled.
    pub test: Option<Duration>,
}
