//! What is found on a line of an assembly text, and the report on it.

ghost use Rattle.std.specs.Prelude.{◌≡◌, IfOk};

use crate::before::Before;
use crate::forms::kinds_of_lines;
use crate::pieces::{Piece, put};
use crate::words::Word;
use ifs_report::{Label, Part, Place, Report, Severity};
use std::alloc::{AllocError, Global};

/// What is wrong on a line, and the word of the line that it is about.
#[derive(Clone, Copy)]
pub(crate) struct Finding<'a> {
    pub word: Word<'a>,
    /// What is wrong.
    pub message: Sentence<'a>,
    pub expected: Expected,
    pub rule: &'static str,
    /// The place in the text where a name was used first.
    pub first_use: Option<Part>,
    /// What would mend it.
    pub hint: Option<Sentence<'a>>,
}

/// What is said of a line, in one sentence.
#[derive(Clone, Copy)]
pub(crate) enum Sentence<'a> {
    /// These words alone.
    Words(&'static str),
    /// A piece between words.
    About(&'static str, Piece<'a>, &'static str),
    /// A name, words on its table, and the earlier entry that has it.
    Repeated(&'a [u8], &'static str, usize),
}

impl Sentence<'_> {
    fn put(self, out: &mut String) -> Result<(), AllocError> {
        match self {
            Sentence::Words(words) => out.push_str(words),
            Sentence::About(before, piece, after) => {
                put(out, &[Piece::Words(before), piece, Piece::Words(after)])
            }
            Sentence::Repeated(name, table, entry) => put(
                out,
                &[
                    Piece::Word(name),
                    Piece::Words(table),
                    Piece::Number(entry as u64),
                    Piece::Words(" too"),
                ],
            ),
        }
    }

    fn text(self, alloc: Global) -> Result<String, AllocError> {
        let mut text = String::new(alloc);
        self.put(&mut text)?;
        Ok(text)
    }
}

/// What could be there instead.
#[derive(Clone, Copy)]
pub(crate) enum Expected {
    /// One of these.
    Words(&'static [&'static str]),
    /// A line of a kind that may come next.
    Line,
}

impl<'a> Finding<'a> {
    /// What is wrong with a word, and what could be there instead.
    pub(crate) fn on(
        word: Word<'a>,
        message: Sentence<'a>,
        expected: Expected,
        rule: &'static str,
    ) -> Finding<'a> {
        Finding {
            word,
            message,
            expected,
            rule,
            first_use: None,
            hint: None,
        }
    }

    /// The report on a part of the text, after these lines.
    pub(crate) fn report(
        &self,
        alloc: Global,
        before: &Before,
        code: &'static str,
        part: Part,
    ) -> Result<Report, AllocError>
        ensures error { IfOk result (λ report. report.severity ≡ Severity.Error) }
        ensures code { IfOk result (λ report. report.code.now ≡ code.now) }
        ensures place { IfOk result (λ report. report.place ≡ Place.Text part) }
    {
        let message = self.message.text(alloc)?;
        let expected = expected_words(alloc, before, self.expected)?;
        let labels = labels_on(alloc, self.first_use)?;
        let hint = hint_text(alloc, self.hint)?;
        let mut report = Report::new(alloc, Severity::Error, code, Place::Text(part), message);
        report.expected = expected;
        report.labels = labels;
        report.rule = self.rule;
        report.hint = hint;
        Ok(report)
    }
}

/// What could be there instead, in words.
fn expected_words(
    alloc: Global,
    before: &Before,
    expected: Expected,
) -> Result<Vec<&'static str>, AllocError> {
    match expected {
        Expected::Words(words) => words.to_vec(alloc),
        Expected::Line => admitted(alloc, before),
    }
}

/// The kinds of lines that may come next, in words.
fn admitted(alloc: Global, before: &Before) -> Result<Vec<&'static str>, AllocError> {
    let mut expected = Vec::new(alloc);
    for lines in kinds_of_lines() {
        if before.admits(lines.kind) {
            expected.push(lines.expected)?;
        }
    }
    Ok(expected)
}

/// The label of the place where a name was used first.
fn labels_on(alloc: Global, first_use: Option<Part>) -> Result<Vec<Label>, AllocError> {
    match first_use {
        Some(part) => Ok(vec![in alloc; first_used(part)]?),
        None => Ok(Vec::new(alloc)),
    }
}

fn first_used(part: Part) -> Label {
    Label {
        place: Place::Text(part),
        words: "first used here",
    }
}

/// What would mend it. It is empty if nothing is known.
fn hint_text(alloc: Global, hint: Option<Sentence<'_>>) -> Result<String, AllocError> {
    match hint {
        Some(hint) => hint.text(alloc),
        None => Ok(String::new(alloc)),
    }
}
