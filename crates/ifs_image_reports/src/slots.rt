//! What may be at a place of a line.

use crate::forms::LIMITS;
use crate::quoting::length_of;
use ifs_base::{Number, parse_number};

/// The most kinds that a routine takes or leaves.
const MOST_KINDS: usize = 4;

/// What a word of a line has to be.
#[derive(Clone, Copy)]
pub(crate) enum Item {
    /// This word.
    Key(&'static str),
    /// A number from a least one to a greatest one.
    Number(u64, u64),
    /// A quoted text.
    Text,
    /// A list of tests.
    Tests,
    /// A list of kinds.
    Kinds,
    /// A link state.
    LinkState,
    /// A version of the format.
    Version,
}

/// A place of a line.
#[derive(Clone, Copy)]
pub(crate) struct Slot {
    /// What the word has to be.
    pub item: Item,
    /// The same in words.
    pub expected: &'static [&'static str],
}

macro_rules! slot {
    ($item:expr, $($expected:literal),+) => {
        Slot {
            item: $item,
            expected: &[$($expected),+],
        }
    };
}

pub(crate) const INIT: Slot = slot!(Item::Key("init"), "`init`");

pub(crate) const BODY: Slot = slot!(Item::Key("body"), "`body`");

pub(crate) const TESTS: Slot = slot!(Item::Key("tests"), "`tests`");

pub(crate) const PARAMS: Slot = slot!(Item::Key("params"), "`params`");

pub(crate) const RESULTS: Slot = slot!(Item::Key("results"), "`results`");

/// A stack or frames.
pub(crate) const UP_TO_32: Slot = slot!(Item::Number(0, 32), "a number from 0 to 32");
/// Commands of an event.
pub(crate) const UP_TO_64: Slot = slot!(Item::Number(0, 64), "a number from 0 to 64");

pub(crate) const COST: Slot = slot!(Item::Number(0, 300_000), "a number from 0 to 300,000");
/// Seconds of a period.
pub(crate) const PERIOD: Slot = slot!(
    Item::Number(1, 604_800),
    "a number of seconds from 1 to 604,800"
);
/// Results of a routine in version 1.
pub(crate) const TRUTHS: Slot = slot!(Item::Number(0, 1), "`0`", "`1`");
/// An entry, a routine or a place.
pub(crate) const INDEX: Slot = slot!(Item::Number(0, 65_535), "a number from 0 to 65,535");

pub(crate) const TEXT: Slot = slot!(Item::Text, "a text in quotes");

pub(crate) const TEST_LIST: Slot = slot!(Item::Tests, "numbers with commas between them", "`-`");

pub(crate) const KINDS: Slot = slot!(
    Item::Kinds,
    "`truth`, `command` and `state` with commas between them",
    "`-`"
);

pub(crate) const LINK_STATE: Slot = slot!(Item::LinkState, "`unknown`", "`down`", "`up`");

pub(crate) const ANY_VERSION: Slot = slot!(Item::Version, "`1`", "`2`");

/// How a word fits.
#[derive(Clone, Copy, PartialEq, Eq)]
pub(crate) enum Fit {
    Good,
    /// It has another form.
    NoForm,
    /// It has the form, and is out of its range.
    OutOfRange,
}

impl Slot {
    /// How a word fits.
    pub(crate) fn fit(&self, word: &[u8]) -> Fit {
        match self.item {
            Item::Key(key) => fit_of_key(word, key),
            Item::Number(least, most) => fit_of_number(word, least, most),
            Item::Text => fit_of_text(word),
            Item::Tests => fit_of_tests(word),
            Item::Kinds => fit_of_kinds(word),
            Item::LinkState => fit_of_words(word, &["unknown", "down", "up"]),
            Item::Version => fit_of_words(word, &["1", "2"]),
        }
    }

    /// What is said of a word that has another form.
    pub(crate) fn denial(&self) -> &'static str {
        match self.item {
            Item::Key(_) => " cannot stand here",
            Item::Number(_, _) => " is no number",
            Item::Text => " is no text in quotes",
            Item::Tests => " is no list of tests",
            Item::Kinds => " is no list of kinds",
            Item::LinkState => " is no state of a link",
            Item::Version => " is no version",
        }
    }

    /// What is said of a word that is out of its range.
    pub(crate) fn excess(&self) -> &'static str {
        match self.item {
            Item::Tests => " does not ascend from 0 to 63",
            Item::Kinds => " has more than 4 kinds",
            _ => " is out of range",
        }
    }

    /// The rule that a word out of its range breaks.
    pub(crate) fn rule(&self) -> &'static str {
        match self.item {
            Item::Text => "a name or a command has from 1 to 1,024 bytes",
            Item::Tests => "a list has tests from 0 to 63 in ascending order",
            Item::Kinds => "a routine takes and leaves at most 4 kinds",
            _ => LIMITS,
        }
    }
}

fn fit_of_key(word: &[u8], key: &str) -> Fit {
    if word == key.as_bytes() {
        Fit::Good
    } else {
        Fit::NoForm
    }
}

/// How a word fits that has to be one of several.
fn fit_of_words(word: &[u8], keys: &[&str]) -> Fit {
    for key in keys {
        if word == key.as_bytes() {
            return Fit::Good;
        }
    }
    Fit::NoForm
}

fn fit_of_number(word: &[u8], least: u64, most: u64) -> Fit {
    match parse_number(word) {
        None => Fit::NoForm,
        Some(Number::Within(number)) if least <= number && number <= most => Fit::Good,
        Some(_) => Fit::OutOfRange,
    }
}

fn fit_of_text(word: &[u8]) -> Fit {
    match length_of(word) {
        Err(_) => Fit::NoForm,
        Ok(length) if 1 <= length && length <= 1_024 => Fit::Good,
        Ok(_) => Fit::OutOfRange,
    }
}

fn is_comma(byte: &u8) -> bool {
    *byte == b','
}

fn fit_of_tests(word: &[u8]) -> Fit {
    if word == b"-".as_slice() {
        return Fit::Good;
    }
    let mut fit = Fit::Good;
    let mut least = 0u64;
    for part in word.split(is_comma) {
        match parse_number(part) {
            None => return Fit::NoForm,
            Some(Number::Within(test)) if least <= test && test < 64 => least = test + 1,
            Some(_) => fit = Fit::OutOfRange,
        }
    }
    fit
}

fn fit_of_kinds(word: &[u8]) -> Fit {
    if word == b"-".as_slice() {
        return Fit::Good;
    }
    let mut count = 0usize;
    for part in word.split(is_comma) {
        if fit_of_words(part, &["truth", "command", "state"]) == Fit::NoForm {
            return Fit::NoForm;
        }
        count = count.saturating_add(1);
    }
    if count <= MOST_KINDS {
        Fit::Good
    } else {
        Fit::OutOfRange
    }
}
