//! Making reports.

ghost use Rattle.std.specs.Prelude.{◌≡◌, IfOk};

use crate::wording::list_of;
use ifs_report::{Draft, Place, Report, Severity};
use std::alloc::{AllocError, Global};

/// What would mend a line.
#[derive(Clone, Copy)]
pub(crate) enum Hint<'a> {
    Words(&'static str),
    /// A word, with what comes before and behind it.
    Word(&'static str, &'a str, &'static str),
    /// A test with this period in seconds is meant.
    Period(u32),
}

/// What a message ends with.
#[derive(Clone, Copy)]
pub(crate) enum End<'a> {
    Words(&'a str),
    /// This number of bytes.
    Size(usize),
    /// This byte, which cannot be there.
    Byte(u8),
}

/// What a report says. What is empty is left out.
#[derive(Clone, Copy)]
pub(crate) struct Said<'a> {
    pub code: &'static str,
    pub place: Place,
    /// What the message begins with.
    pub before: &'static str,
    /// A word that a backquote ends, on one line and cut.
    pub word: Option<&'a str>,
    pub behind: &'static str,
    pub last: End<'a>,
    pub rule: &'static str,
    pub hint: Hint<'a>,
}

/// A report that says nothing yet. It is on the whole file.
pub(crate) const NOTHING: Said<'static> = Said {
    code: "Q1",
    place: Place::File,
    before: "",
    word: None,
    behind: "",
    last: End::Words(""),
    rule: "",
    hint: Hint::Words(""),
};

impl Said<'_> {
    /// The report, with what could be there instead.
    pub fn report(self, alloc: Global, expected: Vec<&'static str>) -> Result<Report, AllocError>
        ensures { IfOk result (λ report. report.place ≡ self.entry.place) }
    {
        let mut draft = Draft::new(alloc, Severity::Error);
        put_texts(&mut draft, &self);
        let mut report = draft.finish()?;
        report.code = self.code;
        report.place = self.place;
        report.expected = expected;
        report.rule = self.rule;
        Ok(report)
    }

    /// The report, with those of some words that are not empty.
    pub fn report_with(self, alloc: Global, words: &[&'static str]) -> Result<Report, AllocError> {
        let expected = list_of(alloc, words)?;
        self.report(alloc, expected)
    }
}

/// Adds what a report says to its message and its hint.
fn put_texts(draft: &mut Draft, said: &Said<'_>) {
    draft.say(said.before);
    if let Some(word) = said.word {
        draft.say_cut(word);
        draft.say("`");
    }
    draft.say(said.behind);
    put_end(draft, said.last);
    match said.hint {
        Hint::Words(words) => draft.hint(words),
        Hint::Word(before, word, behind) => draft.hint_of(before, word, behind),
        Hint::Period(seconds) => put_period(draft, seconds),
    }
}

/// Adds what a message ends with.
fn put_end(draft: &mut Draft, end: End<'_>) {
    match end {
        End::Words(words) => draft.say(words),
        End::Size(bytes) => {
            let added = write!(draft.report.message, "{bytes} bytes");
            draft.keep(added);
        }
        End::Byte(byte) => {
            let added = write!(
                draft.report.message,
                "the byte {byte:02x} cannot stand here"
            );
            draft.keep(added);
        }
    }
}

/// Adds the hint that a test with this period is meant.
fn put_period(draft: &mut Draft, seconds: u32) {
    let added = write!(draft.report.hint, "did you mean `every {seconds}`?");
    draft.keep(added);
}
