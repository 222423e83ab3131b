//! A1: lines that have no known form.

use crate::before::{Before, form_of};
use crate::finding::{Expected, Finding, Sentence};
use crate::forms::{Form, Kind, beginnings, form_named};
use crate::pieces::Piece;
use crate::quoting::{TextFault, is_same_text, length_of};
use crate::slots::{Fit, Item, Slot};
use crate::words::{Front, Unread, Word, is_newline};
use ifs_report::Part;
use std::alloc::{AllocError, Global};
use std::str::from_utf8;
use strsim::generic_levenshtein;

/// The rule of names.
const NAMES: &str = "the names of interfaces differ, and so do the names of states";

/// The rule of escapes.
const ESCAPES: &str =
    "in quotes a backslash comes before a quote, a backslash, or `x` and two digits from 01 to 7f";

/// The rule of bytes that quotes cannot have as they are.
const CONTROLS: &str =
    "in quotes the bytes below 20 and the byte 7f are escaped, and there is no byte 00";

/// The hint on a file that is no text.
const IMAGE: &str = "this is an image: `ifsvm disasm IMAGE` prints its text";

/// The hint on a line of a file from another system.
const RETURN: &str = "the line ends with a carriage return: save the text with newlines alone";

/// The hint on words behind a line.
const COMMENT: &str = "a comment has a line of its own, which begins with `;`";

/// The most bytes of a word that is compared with other words.
const COMPARED: usize = 16;

/// What is wrong with a line that has no known form, after these lines.
pub(crate) fn unformed<'a>(
    alloc: Global,
    before: &Before,
    lines: &[u8],
    line: &'a [u8],
) -> Result<Finding<'a>, AllocError> {
    if let Err(error) = from_utf8(line) {
        return Ok(not_text(line, error.valid_up_to()));
    }
    let mut finding = unformed_text(alloc, before, lines, line)?;
    if ends_in_return(line) && finding.hint.is_none() {
        finding.hint = Some(Sentence::Words(RETURN));
    }
    Ok(finding)
}

/// Whether a line ends with a carriage return.
fn ends_in_return(line: &[u8]) -> bool {
    line.ends_with(b"\r")
}

/// The same for a line that is UTF-8.
fn unformed_text<'a>(
    alloc: Global,
    before: &Before,
    lines: &[u8],
    line: &'a [u8],
) -> Result<Finding<'a>, AllocError> {
    let front = Front::of(line);
    match wanted_form(before, &front) {
        Some(form) => Ok(misformed(lines, form, line)),
        None => no_beginning(alloc, before, front.first),
    }
}

/// What is wrong with a byte at this offset of a line, which belongs to no character.
fn not_text(line: &[u8], at: usize) -> Finding<'_> {
    let whole = Word {
        from: 0,
        bytes: line,
    };
    let word = part_of(whole, at, 1);
    let message = match word.bytes {
        [_, ..] => byte_in(word, " belongs to no character"),
        [] => Sentence::Words("a byte belongs to no character"),
    };
    let mut finding = alone(word, message, "an assembly text is UTF-8");
    if line.starts_with(b"IFSV") {
        finding.hint = Some(Sentence::Words(IMAGE));
    }
    finding
}

/// What is wrong with a word, without what could be there instead.
pub(crate) fn alone<'a>(word: Word<'a>, message: Sentence<'a>, rule: &'static str) -> Finding<'a> {
    Finding::on(word, message, Expected::Words(&[]), rule)
}

/// A word, and what is said of it.
pub(crate) fn named<'a>(word: Word<'a>, words: &'static str) -> Sentence<'a> {
    Sentence::About("", Piece::Word(word.bytes), words)
}

/// A byte, and what is said of it.
fn byte_in<'a>(word: Word<'a>, words: &'static str) -> Sentence<'a> {
    Sentence::About("byte ", Piece::Bytes(word.bytes), words)
}

/// The form that a line is meant to have. Before the first routine `test` and `state` begin lines of tables.
fn wanted_form(before: &Before, front: &Front<'_>) -> Option<&'static Form> {
    let in_code = before.has_routine() && !front.has_text();
    match form_named(front.first.bytes, in_code)? {
        form if form.kind == Kind::Routine => Some(before.routine_form(front.second.bytes)),
        form => Some(form),
    }
}

/// What is wrong with a line whose first word begins no line.
fn no_beginning<'a>(
    alloc: Global,
    before: &Before,
    word: Word<'a>,
) -> Result<Finding<'a>, AllocError> {
    let denial = if before.admits(Kind::Instruction) {
        " is no instruction"
    } else {
        " begins no line"
    };
    let hint = hint_on_beginning(alloc, before, word.bytes)?;
    let message = named(word, denial);
    let rule = "the first word of a line says what the line is";
    Ok(Finding {
        hint,
        ..Finding::on(word, message, Expected::Line, rule)
    })
}

/// What is meant by a word that begins no line.
fn hint_on_beginning(
    alloc: Global,
    before: &Before,
    word: &[u8],
) -> Result<Option<Sentence<'static>>, AllocError> {
    if word.starts_with(b"IFSV") {
        Ok(Some(Sentence::Words(IMAGE)))
    } else if word.starts_with(b"#") || word.starts_with(b"//") {
        Ok(Some(Sentence::Words("a comment begins with `;`")))
    } else if word.ends_with(b":") {
        Ok(Some(Sentence::Words("a jump names its place by a number")))
    } else {
        hint_on_name(alloc, before, word)
    }
}

/// A word that is like this one, whose letters may be capitals.
fn hint_on_name(
    alloc: Global,
    before: &Before,
    word: &[u8],
) -> Result<Option<Sentence<'static>>, AllocError> {
    if word.len() > COMPARED {
        return Ok(None);
    }
    let word = word.to_ascii_lowercase(alloc)?;
    nearest(alloc, before, word.as_slice())
}

/// The word that may begin the next line and from which the fewest edits lead to this one, at most one for two of its bytes.
fn nearest(
    alloc: Global,
    before: &Before,
    word: &[u8],
) -> Result<Option<Sentence<'static>>, AllocError> {
    let mut nearest = None;
    let mut least = word.len() / 2 + 1;
    for beginning in beginnings() {
        let edits = generic_levenshtein(alloc, word, beginning.word.as_bytes())?;
        if edits < least && before.admits(beginning.form.kind) {
            least = edits;
            nearest = Some(Sentence::About("did you mean `", Piece::Words(beginning.word), "`?"));
        }
    }
    Ok(nearest)
}

/// What is wrong with a line whose first word begins this form.
fn misformed<'a>(lines: &[u8], form: &Form, line: &'a [u8]) -> Finding<'a> {
    let mut unread = Unread::after_first(line);
    if let Some((slot, word)) = first_misfit(&mut unread, form.slots, Fit::NoForm) {
        return misfit(form, slot, word);
    }
    let word = unread.next();
    if word.bytes.is_empty() {
        repeated(lines, form, line)
    } else {
        surplus(form, word)
    }
}

/// The first word that fits like this, and what it has to be. A word that is missing has no form.
pub(crate) fn first_misfit<'a>(
    unread: &mut Unread<'a>,
    slots: &'static [Slot],
    fit: Fit,
) -> Option<(&'static Slot, Word<'a>)> {
    for slot in slots {
        let word = unread.next();
        if slot.fit(word.bytes) == fit {
            return Some((slot, word));
        }
    }
    None
}

/// What is wrong with a word that is missing or has another form.
fn misfit<'a>(form: &Form, slot: &'static Slot, word: Word<'a>) -> Finding<'a> {
    match (slot.item, length_of(word.bytes)) {
        _ if word.bytes.is_empty() => missing(form, slot, word),
        (Item::Text, Err(fault)) => misquoted(form, slot, word, fault),
        _ => denied(form, slot, word),
    }
}

fn denied<'a>(form: &Form, slot: &'static Slot, word: Word<'a>) -> Finding<'a> {
    let message = named(word, slot.denial());
    Finding::on(word, message, Expected::Words(slot.expected), form.rule)
}

/// What is wrong with a text in quotes.
fn misquoted<'a>(
    form: &Form,
    slot: &'static Slot,
    word: Word<'a>,
    fault: TextFault,
) -> Finding<'a> {
    match fault {
        TextFault::NoQuote => denied(form, slot, word),
        TextFault::Open => said(word, "the text that begins here has no closing quote", form),
        TextFault::Behind { at } => said(
            part_of(word, at, word.bytes.len()),
            "no space stands between a text and these bytes",
            form,
        ),
        TextFault::NoEscape { at } => {
            let escape = part_of(word, at, escape_len(part_of(word, at, 2).bytes));
            alone(escape, named(escape, " is no escape"), ESCAPES)
        }
        TextFault::Control { at, byte } => control(part_of(word, at, 1), byte),
    }
}

/// What is wrong with a word, in words alone.
fn said<'a>(word: Word<'a>, message: &'static str, form: &Form) -> Finding<'a> {
    alone(word, Sentence::Words(message), form.rule)
}

/// What is wrong with a byte in quotes that has to be escaped.
fn control(word: Word<'_>, byte: u8) -> Finding<'_> {
    let message = byte_in(word, " stands in quotes as it is");
    let mut finding = alone(word, message, CONTROLS);
    if byte != 0 {
        finding.hint = Some(Sentence::About("write `\\x", Piece::Bytes(word.bytes), "`"));
    }
    finding
}

/// The number of bytes that are shown of what begins with a backslash.
fn escape_len(bytes: &[u8]) -> usize {
    match bytes {
        [_, b'x'] => 4,
        [_, byte] if *byte >= 0xf0 => 5,
        [_, byte] if *byte >= 0xe0 => 4,
        [_, byte] if *byte >= 0xc0 => 3,
        _ => 2,
    }
}

/// A part of a word: at most so many of its bytes from one of them on.
fn part_of<'a>(word: Word<'a>, at: usize, most: usize) -> Word<'a> {
    let (front, rest) = word.bytes.split_at(at.min(word.bytes.len()));
    let (bytes, _) = rest.split_at(most.min(rest.len()));
    Word {
        from: word.from.saturating_add(front.len()),
        bytes,
    }
}

/// What is wrong with a line that ends too early.
fn missing<'a>(form: &Form, slot: &'static Slot, end: Word<'a>) -> Finding<'a> {
    let message = Sentence::Words("the line ends too early");
    Finding::on(end, message, Expected::Words(slot.expected), form.rule)
}

/// What is wrong with a word after the last one of a form.
fn surplus<'a>(form: &Form, word: Word<'a>) -> Finding<'a> {
    let message = named(word, " is one word too many");
    let expected = Expected::Words(&["the end of the line"]);
    let mut finding = Finding::on(word, message, expected, form.rule);
    if is_comment(word.bytes) {
        finding.hint = Some(Sentence::Words(COMMENT));
    }
    finding
}

/// Whether a word begins as a comment does, here or in other languages.
fn is_comment(word: &[u8]) -> bool {
    word.starts_with(b";") || word.starts_with(b"#") || word.starts_with(b"//")
}

/// An earlier line of a table: its entry, and its name in the text.
#[derive(Clone, Copy)]
struct Earlier {
    entry: usize,
    name: Part,
}

/// What is wrong with a line whose words have their forms: it repeats a name.
fn repeated<'a>(lines: &[u8], form: &Form, line: &'a [u8]) -> Finding<'a> {
    let Front { first, second, .. } = Front::of(line);
    let name = if second.bytes.is_empty() {
        first
    } else {
        second
    };
    match first_use(lines, form, name.bytes) {
        Some(earlier) => named_again(form, name, earlier),
        None => said(name, "the line has no known form", form),
    }
}

fn named_again<'a>(form: &Form, name: Word<'a>, earlier: Earlier) -> Finding<'a> {
    let table = if form.kind == Kind::State {
        " is the name of state "
    } else {
        " is the name of interface "
    };
    let message = Sentence::Repeated(name.bytes, table, earlier.entry);
    Finding {
        first_use: Some(earlier.name),
        ..alone(name, message, NAMES)
    }
}

/// The first of some lines that has this form, which is that of a table of names, and this name.
fn first_use(lines: &[u8], form: &Form, name: &[u8]) -> Option<Earlier> {
    if form.kind != Kind::Interface && form.kind != Kind::State {
        return None;
    }
    let mut entry = 0usize;
    let mut at = 0usize;
    for line in lines.split(is_newline) {
        let front = Front::of(line);
        let is_entry = begins(&front, form.kind);
        if is_entry && is_same_text(front.second.bytes, name) {
            return Some(Earlier {
                entry,
                name: part_from(at, front.second),
            });
        }
        entry = entry.saturating_add(usize::from(is_entry));
        at = at.saturating_add(line.len()).saturating_add(1);
    }
    None
}

/// Whether a line is of this kind.
fn begins(front: &Front<'_>, kind: Kind) -> bool {
    match form_of(front) {
        Some(form) => form.kind == kind,
        None => false,
    }
}

/// The part of a text that is a word of the line that begins at this offset.
fn part_from(at: usize, word: Word<'_>) -> Part {
    Part {
        start: at.saturating_add(word.from),
        end: at.saturating_add(word.to()),
    }
}
