//! What is said of a file.

ghost use Rattle.std.specs.Prelude.{◌≡◌};

use std::alloc::Global;

/// How grave a report is.
#[derive(Clone, Copy, Debug, PartialEq, Eq)]
pub enum Severity {
    /// The file is refused.
    Error,
    /// The file is accepted, but has a defect.
    Warning,
    /// The file is accepted, but looks wrong.
    Note,
}

/// A part of a text, as byte offsets: from `start` up to `end`.
#[derive(Clone, Copy, Debug, PartialEq, Eq)]
pub struct Part {
    pub start: usize,
    pub end: usize,
}

/// What a report points to.
#[derive(Clone, Copy, Debug, PartialEq, Eq)]
pub enum Place {
    /// The file as a whole.
    File,
    /// A part of the file's text.
    Text(Part),
    /// A part of the value of a definition on the command line (`-D NAME=VALUE`): its number from 0, and the part of VALUE.
    Definition(usize, Part),
}

/// Another place that a report names, with a few words, as `used here`.
#[derive(Debug, Drop)]
pub struct Label {
    pub place: Place,
    pub words: &'static str,
}

/// What is said of one place of a file.
#[derive(Debug, Drop)]
pub struct Report {
    pub severity: Severity,
    /// The code of the refusal, such as `P6`, or the kind of a finding, such as `never`. It is empty for a note.
    pub code: &'static str,
    pub place: Place,
    /// What is wrong, in one sentence without a full stop.
    pub message: String,
    /// What could be there instead, most useful first. It is empty if nothing is known.
    pub expected: Vec<&'static str>,
    pub labels: Vec<Label>,
    /// The rule that is broken, in one sentence. It is empty if the message says it.
    pub rule: &'static str,
    /// What would mend it. It is empty if nothing is known.
    pub hint: String,
}

impl Report {
    /// A report that says no more than this.
    pub fn new(
        alloc: Global,
        severity: Severity,
        code: &'static str,
        place: Place,
        message: String,
    ) -> Report
        ensures severity { result.severity ≡ severity }
        ensures code { result.code.now ≡ code.now }
        ensures place { result.place ≡ place }
    {
        Report {
            severity,
            code,
            place,
            message,
            expected: Vec::new(alloc),
            labels: Vec::new(alloc),
            rule: "",
            hint: String::new(alloc),
        }
    }
}

/// The file that reports are about.
#[derive(Clone, Copy)]
pub struct Source<'a> {
    /// Its name as the user gave it. `-` is standard input.
    pub name: &'a str,
    pub text: &'a [u8],
    /// The lines of the file before the text: 0, unless the text is a line of a stream.
    pub lines_before: usize,
    /// The definitions on the command line, as names and values.
    pub definitions: &'a [(&'a str, &'a str)],
}

/// A place in a text: a line, and a column in it. Both count from 1. Columns count characters.
#[derive(Clone, Copy, Debug, PartialEq, Eq)]
pub struct Position {
    pub line: usize,
    pub column: usize,
}
