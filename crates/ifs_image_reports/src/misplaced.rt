//! A2 and A3: lines that have a form, and are out of range or out of order.

use crate::before::{Before, form_of};
use crate::finding::{Expected, Finding, Sentence};
use crate::forms::{Form, Kind, LIMITS, OUT_OF_RANGE, form_named, kinds_of_lines, no_operand};
use crate::pieces::Piece;
use crate::quoting::length_of;
use crate::slots::{Fit, Item, Slot};
use crate::unformed::{alone, first_misfit, named};
use crate::words::{Front, Unread, Word};

/// The rule of the order of lines.
const ORDER: &str =
    "the order of lines is `ifsv`, `stack`, `frames`, `cost`, `commands`, `start`, `always`, `iface`, `test`, `command`, `state`, `routine`";

/// What is wrong with a line that is out of range, after these lines.
pub(crate) fn out_of_range<'a>(before: &Before, line: &'a [u8]) -> Finding<'a> {
    let front = Front::of(line);
    match form_of(&front) {
        Some(form) if form.kind == Kind::Routine => {
            beyond(
                before,
                before.routine_form(front.second.bytes),
                line,
                front.first,
            )
        }
        Some(form) => beyond(before, form, line, front.first),
        None => alone(front.first, Sentence::Words(OUT_OF_RANGE), no_operand()),
    }
}

/// What is out of range: a word of the line, or the line itself, since its first word begins one line too many.
fn beyond<'a>(before: &Before, form: &Form, line: &'a [u8], first: Word<'a>) -> Finding<'a> {
    let mut unread = Unread::after_first(line);
    match first_misfit(&mut unread, form.slots, Fit::OutOfRange) {
        Some((slot, word)) => excess(slot, word),
        None => one_too_many(before, form.kind, first),
    }
}

/// What is wrong with a word that is out of its range.
fn excess<'a>(slot: &'static Slot, word: Word<'a>) -> Finding<'a> {
    let message = match (slot.item, length_of(word.bytes)) {
        (Item::Text, Ok(0)) => Sentence::Words("the text is empty"),
        (Item::Text, Ok(length)) => Sentence::About(
            "the text has ",
            Piece::Number(length as u64),
            " bytes",
        ),
        _ => named(word, slot.excess()),
    };
    Finding::on(word, message, Expected::Words(slot.expected), slot.rule())
}

/// What is wrong with a line of a kind that has no room left.
fn one_too_many<'a>(before: &Before, kind: Kind, word: Word<'a>) -> Finding<'a> {
    let (message, rule) = limit_of(before, kind);
    Finding::on(word, Sentence::Words(message), Expected::Line, rule)
}

/// The limit that a line of this kind passes.
fn limit_of(before: &Before, kind: Kind) -> (&'static str, &'static str) {
    if before.has_room(kind) {
        return (OUT_OF_RANGE, LIMITS);
    }
    if kind == Kind::Instruction && !before.has_room_in_routine() {
        return (
            "the routine has 1,024 instructions before",
            "a routine has at most 1,024 instructions",
        );
    }
    for lines in kinds_of_lines() {
        if lines.kind == kind {
            return (lines.full, lines.limit);
        }
    }
    (OUT_OF_RANGE, LIMITS)
}

/// What is wrong with a line that is out of order, or with a text that ends too early. These lines come before.
pub(crate) fn out_of_order<'a>(before: &Before, line: &'a [u8]) -> Finding<'a> {
    let front = Front::of(line);
    if front.is_silent() {
        return ends_early(before, front.first);
    }
    let word = front.first;
    match form_of(&front) {
        Some(form) if form.is_instruction() => early_instruction(before, word),
        _ => out_of_place(word, named(word, " cannot stand here")),
    }
}

/// What is wrong with a word that is not the next one in the order of lines.
fn out_of_place<'a>(word: Word<'a>, message: Sentence<'a>) -> Finding<'a> {
    Finding::on(word, message, Expected::Line, ORDER)
}

/// What is wrong with an instruction before the first routine.
fn early_instruction<'a>(before: &Before, word: Word<'a>) -> Finding<'a> {
    let name = Piece::Word(word.bytes);
    let message = Sentence::About(
        "the instruction ",
        name,
        " cannot stand before the first routine",
    );
    Finding {
        hint: hint_on_tables(before, word.bytes),
        ..out_of_place(word, message)
    }
}

/// The form of a table's line, for an instruction that begins with the same word.
fn hint_on_tables(before: &Before, word: &[u8]) -> Option<Sentence<'static>> {
    if !before.has_front() || before.has_routine() {
        return None;
    }
    match form_named(word, false) {
        Some(form) if !form.is_instruction() => Some(Sentence::Words(form.rule)),
        _ => None,
    }
}

/// What is missing at the end of a text.
fn ends_early<'a>(before: &Before, word: Word<'a>) -> Finding<'a> {
    let message = match before.only_admitted() {
        Some(line) => Sentence::About("the text ends, and ", Piece::Words(line), " is missing"),
        None => Sentence::Words("the text ends, and a state is missing"),
    };
    out_of_place(word, message)
}
