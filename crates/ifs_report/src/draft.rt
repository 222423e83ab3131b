//! Reports while they are made.

ghost use Rattle.std.specs.Prelude.{◌≡◌, IfOk};

use crate::reports::{Label, Place, Report, Severity};
use std::alloc::{AllocError, Global};

/// The most characters of a word in a message.
const MOST_CHARACTERS: usize = 40;

/// A report while it is made. It keeps whether something could not be added, which `finish` returns.
pub struct Draft {
    pub report: Report,
    has_failed: bool,
}

impl Drop for Draft {
    fn drop(self) {
        let Draft {
            report: _report,
            has_failed: _has_failed,
        } = self;
    }
}

impl Draft {
    /// A report on the whole file that says nothing yet, and has no code.
    pub fn new(alloc: Global, severity: Severity) -> Draft
        ensures severity { result.report.severity ≡ severity }
        ensures place { result.report.place ≡ Place.File }
    {
        Draft {
            report: Report::new(alloc, severity, "", Place::File, String::new(alloc)),
            has_failed: false,
        }
    }

    /// The report. The only error is that something could not be added.
    pub fn finish(self) -> Result<Report, AllocError>
        ensures { IfOk result (λ report. report ≡ self.report) }
    {
        let Draft { report, has_failed } = self;
        if has_failed {
            return Err(AllocError);
        }
        Ok(report)
    }

    /// Notes that something could not be added.
    pub fn fail(&mut self) {
        self.has_failed = true;
    }

    /// Keeps whether something could be added.
    pub fn keep(&mut self, added: Result<(), AllocError>) {
        if added.is_err() {
            self.has_failed = true;
        }
    }

    /// Puts the report on a place.
    pub fn at(&mut self, place: Place)
        ensures { self.new.report.place ≡ place }
    {
        let report = &mut self.report;
        report.place = place;
    }

    /// Gives the report a code.
    pub fn code(&mut self, code: &'static str) {
        let report = &mut self.report;
        report.code = code;
    }

    /// Names the rule that is broken.
    pub fn rule(&mut self, rule: &'static str) {
        let report = &mut self.report;
        report.rule = rule;
    }

    /// Adds to the message.
    pub fn say(&mut self, text: &str) {
        let added = self.report.message.push_str(text);
        self.keep(added);
    }

    /// Adds a word to the message, with what comes before and behind it.
    pub fn say_of(&mut self, before: &str, word: &str, behind: &str) {
        self.say(before);
        self.say(word);
        self.say(behind);
    }

    /// Adds the first characters of a word to the message, on one line.
    pub fn say_cut(&mut self, word: &str) {
        let added = put_cut(&mut self.report.message, word);
        self.keep(added);
    }

    /// Adds a word between backquotes to the message, on one line and cut, with what comes before and behind it.
    pub fn say_quoted(&mut self, before: &str, word: &str, behind: &str) {
        self.say(before);
        self.say("`");
        self.say_cut(word);
        self.say("`");
        self.say(behind);
    }

    /// Adds to the hint.
    pub fn hint(&mut self, text: &str) {
        let added = self.report.hint.push_str(text);
        self.keep(added);
    }

    /// Adds a word to the hint, with what comes before and behind it.
    pub fn hint_of(&mut self, before: &str, word: &str, behind: &str) {
        self.hint(before);
        self.hint(word);
        self.hint(behind);
    }

    /// Adds what could be there instead.
    pub fn expect(&mut self, words: &'static str) {
        if self.report.expected.push(words).is_err() {
            self.has_failed = true;
        }
    }

    /// Adds another place with its words.
    pub fn label(&mut self, place: Place, words: &'static str) {
        if self.report.labels.push(Label { place, words }).is_err() {
            self.has_failed = true;
        }
    }
}

/// Adds the first characters of a word, on one line.
fn put_cut(text: &mut String, word: &str) -> Result<(), AllocError> {
    for (number, character) in word.chars().enumerate() {
        if number == MOST_CHARACTERS {
            return text.push_str("..");
        }
        text.push(if character == '\n' { ' ' } else { character })?;
    }
    Ok(())
}
