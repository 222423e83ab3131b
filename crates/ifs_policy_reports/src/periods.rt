//! What would mend the period of a test.

use crate::grammar::Seen;
use crate::names::word_of;
use crate::scans::{ByteKind, is_all, length_of_front};
use crate::wording::has;
use ifs_expected_tokens::Kind;
use ifs_lex::What;
use ifs_report::Draft;

/// The most seconds of a period.
const MOST_SECONDS: u32 = 604_800;

/// Units of time, each with its seconds.
const UNITS: [(&str, u32); 22] = [
    ("s", 1),
    ("sec", 1),
    ("secs", 1),
    ("second", 1),
    ("seconds", 1),
    ("m", 60),
    ("min", 60),
    ("mins", 60),
    ("minute", 60),
    ("minutes", 60),
    ("h", 3600),
    ("hr", 3600),
    ("hrs", 3600),
    ("hour", 3600),
    ("hours", 3600),
    ("d", 86_400),
    ("day", 86_400),
    ("days", 86_400),
    ("w", 604_800),
    ("week", 604_800),
    ("weeks", 604_800),
    ("S", 1),
];

/// The seconds of a unit, if it is one.
fn seconds_of(unit: &str) -> Option<u32> {
    for (known, seconds) in &UNITS {
        if *known == unit {
            return Some(*seconds);
        }
    }
    None
}

/// Adds the hint for what is in the place of a period, or for a unit behind one.
pub(crate) fn put_period(seen: Seen<'_, '_>, draft: &mut Draft) {
    if has(seen.kinds, Kind::Number) && !has(seen.kinds, Kind::Text) {
        put_number(seen, draft);
    } else if has(seen.kinds, Kind::And) {
        put_unit(seen, draft);
    }
}

/// Adds the hint for what is in the place of a period.
fn put_number(seen: Seen<'_, '_>, draft: &mut Draft) {
    if let Some(What::Dot) = seen.policy.what(seen.index.saturating_add(1)) {
        return draft.hint("whole seconds, without a fraction: the least is `1`");
    }
    match seen.policy.what(seen.index) {
        Some(What::Quoted(text)) => put_text(text.as_str(), draft),
        Some(What::Word(word)) => put_word(word.as_str(), draft),
        _ => {}
    }
}

/// Adds the hint for a period in quotes.
fn put_text(text: &str, draft: &mut Draft) {
    if is_all(text, ByteKind::Digit) {
        draft.hint_of("leave the quotes out: `", text, "`");
    } else {
        put_word(text, draft);
    }
}

/// Adds the hint for a word in the place of a period.
fn put_word(word: &str, draft: &mut Draft) {
    let digits = length_of_front(word, ByteKind::Digit);
    match word.split_at_checked(digits) {
        Some((number, unit)) if !number.is_empty() => put_digits(number, unit, draft),
        _ => {}
    }
}

/// Adds the hint for a number that is none of seconds, or has a unit.
fn put_digits(number: &str, unit: &str, draft: &mut Draft) {
    if !unit.is_empty() {
        put_seconds(number, unit, draft);
    } else if is_all(number, ByteKind::Zero) {
        draft.hint("the least is `1`");
    } else {
        draft.hint("the most is `604800`, a week");
    }
}

/// Adds the seconds of a number with a unit.
fn put_seconds(number: &str, unit: &str, draft: &mut Draft) {
    match meant(number, unit) {
        Some(0) => draft.hint("whole seconds, without a unit: the least is `1`"),
        Some(seconds) if seconds <= MOST_SECONDS => {
            let added = write!(
                draft.report.hint,
                "whole seconds, without a unit: `{seconds}`"
            );
            draft.keep(added);
        }
        Some(_) => draft.hint("whole seconds, without a unit: the most is `604800`, a week"),
        None if unit == "ms" => draft.hint("whole seconds, without a unit: the least is `1`"),
        None => draft.hint("whole seconds, without a unit"),
    }
}

/// The seconds that a number with a unit is.
fn meant(number: &str, unit: &str) -> Option<u32> {
    let seconds = seconds_of(unit)?;
    let number = number_of(number);
    Some(number.saturating_mul(seconds))
}

/// The number that digits are.
fn number_of(digits: &str) -> u32 {
    let mut number = 0u32;
    for digit in digits.bytes() {
        number = number
            .saturating_mul(10)
            .saturating_add(u32::from(digit.saturating_sub(b'0')));
    }
    number
}

/// Adds the hint for a unit behind the number of a period.
fn put_unit(seen: Seen<'_, '_>, draft: &mut Draft) {
    let number = word_of(seen.policy.what_before(seen.index));
    let every = word_of(seen.policy.what_before(seen.index.saturating_sub(1)));
    if every != "every" || seconds_of(seen.word).is_none() {
        return;
    }
    if let Some(seconds) = meant(number, seen.word) {
        let added = write!(
            draft.report.hint,
            "whole seconds, without a unit: `every {seconds}`"
        );
        draft.keep(added);
    }
}
