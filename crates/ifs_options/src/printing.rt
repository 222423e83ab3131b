//! What is printed, and in which form.

/// How the reports on a file are written to standard error.
#[derive(Clone, Copy, PartialEq, Eq)]
pub enum Reports {
    /// As text, with colours if the user wants them and standard error is a terminal.
    Text,
    /// As JSON objects, one a line.
    Json,
    /// Not at all.
    Quiet,
}

/// Which lines a session takes, and what is written beside its replies.
#[derive(Clone, Copy)]
pub struct Lines {
    /// Whether it also takes lines with names, which stand for requests.
    pub takes_names: bool,
    /// Whether each request is printed before its reply.
    pub is_echoed: bool,
    /// Whether a report follows the reply to a line that is refused.
    pub is_explained: bool,
}

/// What is printed of a daemon's steps.
#[derive(Clone, Copy)]
pub enum Explained {
    /// What each did, without ticks that evaluated nothing.
    Steps,
    /// The same, without steps that changed neither the state nor a link or a test, and queued no command.
    Changes,
    /// The request lines of these steps.
    Requests,
}

/// How a daemon's facts are printed.
#[derive(Clone, Copy)]
pub enum StatusForm {
    /// In words.
    Words,
    /// As JSON.
    Json,
    /// As a line and a status for Nagios.
    Nagios,
    /// As metrics for Prometheus.
    Prometheus,
}
