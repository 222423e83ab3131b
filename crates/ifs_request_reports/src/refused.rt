//! A line that has none of the forms of requests.

use crate::fields::{Field, fields_of, first_field, split};
use crate::hints::{hint_digits, hint_interfaces, hint_near, near_word};
use crate::named_lines::say_named_line;
use crate::places::part_of;
use crate::repairs::say_plain_form;
use crate::report::Line;
use crate::words::{expect, first_words, words_behind};
use ifs_report::{Draft, Part};
use ifs_session::{RequestWord, fault_in, words_at};
use std::alloc::{AllocError, Global};

/// Says what is wrong with a line, and returns where.
pub(crate) fn say_no_request(
    alloc: Global,
    draft: &mut Draft,
    line: Line<'_, '_, '_>,
) -> Result<Part, AllocError> {
    if line.text == b"reload".as_slice() {
        draft.say("`reload` is for a daemon, and a session keeps its image");
        return Ok(part_of(line.text, 0, line.text.len()));
    }
    if let Some(part) = say_named_line(draft, line) {
        return Ok(part);
    }
    if let Some(part) = say_plain_form(alloc, draft, line.text)? {
        return Ok(part);
    }
    let fields = fields_of(alloc, line.text)?;
    if let Some(part) = say_too_much(draft, line.text, fields.as_slice()) {
        return Ok(part);
    }
    if let Some(part) = say_near(alloc, draft, line.text, fields.as_slice())? {
        return Ok(part);
    }
    if let Some(part) = say_one_wrong(alloc, draft, line, fields.as_slice())? {
        return Ok(part);
    }
    say_unknown(alloc, draft, line)
}

/// If one change makes a request of the line, says so: of its last field, at its end, or of another field. In this order, as a name
/// may have spaces, and then much could follow.
fn say_one_wrong(
    alloc: Global,
    draft: &mut Draft,
    line: Line<'_, '_, '_>,
    fields: &[Field<'_>],
) -> Result<Option<Part>, AllocError> {
    let [front @ .., last] = fields else {
        return Ok(None);
    };
    if front.is_empty() {
        return say_missing(alloc, draft, line);
    }
    if let Some(part) = say_wrong(alloc, draft, line.text, *last)? {
        return Ok(Some(part));
    }
    if let Some(part) = say_missing(alloc, draft, line)? {
        return Ok(Some(part));
    }
    say_first_wrong(alloc, draft, line.text, front)
}

/// If the first fields are a request, says that the others are too much.
fn say_too_much(draft: &mut Draft, line: &[u8], fields: &[Field<'_>]) -> Option<Part> {
    for field in fields.iter().skip(1) {
        let front = split(line, field.start.saturating_sub(1)).0;
        if fault_in(front).is_none() {
            draft.say("a request ends before this");
            draft.expect("the end of the line");
            draft.hint("leave the rest of the line out");
            return Some(part_of(line, field.start, line.len()));
        }
    }
    None
}

/// If a word that makes a request of the line is near a field, says so.
fn say_near(
    alloc: Global,
    draft: &mut Draft,
    line: &[u8],
    fields: &[Field<'_>],
) -> Result<Option<Part>, AllocError> {
    for field in fields {
        let words = words_in_place(alloc, line, *field)?;
        if let Some(near) = near_word(alloc, words.as_slice(), field.text())? {
            say_instead(draft, *field, words.as_slice());
            hint_near(draft, near);
            return Ok(Some(part_of(line, field.start, field.end())));
        }
    }
    Ok(None)
}

/// The words that make a request of a line in place of a field.
fn words_in_place(
    alloc: Global,
    line: &[u8],
    field: Field<'_>,
) -> Result<Vec<RequestWord>, AllocError> {
    words_at(
        alloc,
        split(line, field.start).0,
        split(line, field.end()).1,
    )
}

/// Says that a field cannot be where it is, and what could.
fn say_instead(draft: &mut Draft, field: Field<'_>, words: &[RequestWord]) {
    if field.text().is_empty() {
        draft.say("a word is missing here");
    } else {
        draft.say_quoted("", field.text(), " cannot stand here");
    }
    expect(draft, words);
}

/// If the line begins a request, says what is missing.
fn say_missing(
    alloc: Global,
    draft: &mut Draft,
    line: Line<'_, '_, '_>,
) -> Result<Option<Part>, AllocError> {
    if line.text.is_empty() {
        return Ok(None);
    }
    let mut front = line.text.to_vec(alloc)?;
    front.push(b' ')?;
    let words = words_behind(alloc, front.as_slice())?;
    if words.is_empty() {
        return Ok(None);
    }
    draft.say("the line ends too early");
    expect(draft, words.as_slice());
    if words.contains(&RequestWord::Name) {
        hint_interfaces(draft, line.core);
    }
    let end = line.text.len();
    Ok(Some(part_of(line.text, end, end)))
}

/// If a word makes a request of the line in place of one of these fields, says so of the first.
fn say_first_wrong(
    alloc: Global,
    draft: &mut Draft,
    line: &[u8],
    fields: &[Field<'_>],
) -> Result<Option<Part>, AllocError> {
    for field in fields {
        if let Some(part) = say_wrong(alloc, draft, line, *field)? {
            return Ok(Some(part));
        }
    }
    Ok(None)
}

/// If a word makes a request of the line in place of a field, says so.
fn say_wrong(
    alloc: Global,
    draft: &mut Draft,
    line: &[u8],
    field: Field<'_>,
) -> Result<Option<Part>, AllocError> {
    let words = words_in_place(alloc, line, field)?;
    if words.is_empty() {
        return Ok(None);
    }
    say_instead(draft, field, words.as_slice());
    if words.contains(&RequestWord::Number) {
        hint_digits(draft, field.text());
    }
    Ok(Some(part_of(line, field.start, field.end())))
}

/// Says that the line does not begin as a request does.
fn say_unknown(
    alloc: Global,
    draft: &mut Draft,
    line: Line<'_, '_, '_>,
) -> Result<Part, AllocError> {
    let first = first_field(line.text);
    let words = first_words(alloc)?;
    if line.text.is_empty() {
        draft.say("an empty line is no request");
        expect(draft, words.as_slice());
    } else {
        say_instead(draft, first, words.as_slice());
    }
    if line.takes_names {
        draft.expect("`test`");
        draft.expect("`wait`");
    }
    if let Some(near) = near_word(alloc, words.as_slice(), first.text())? {
        hint_near(draft, near);
    }
    Ok(part_of(line.text, 0, first.end()))
}
