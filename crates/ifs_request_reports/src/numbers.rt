//! Numbers that are too great, lines that are too long, and interfaces that are not there.

use crate::fields::{Field, fields_of, first_field, split};
use crate::hints::{hint_interfaces, hint_near_interface};
use crate::places::part_of;
use crate::report::Line;
use ifs_base::{Number, parse_number};
use ifs_report::{Draft, Part};
use std::alloc::{AllocError, Global};
use std::str::from_utf8;

/// The most bytes of a request line.
const MOST_BYTES: usize = 256;

/// The greatest number of a test.
const GREATEST_TEST: u64 = 65_535;

/// Says which number of a request is too great, and returns where.
pub(crate) fn say_out_of_range(
    alloc: Global,
    draft: &mut Draft,
    line: &[u8],
) -> Result<Part, AllocError> {
    let fields = fields_of(alloc, line)?;
    let fields = fields.as_slice();
    if is_test_too_great(fields) {
        draft.say("the number of a test is at most 65535");
        return Ok(part_of_field(line, fields, 1));
    }
    let index = if is_result(fields) { 2 } else { 1 };
    draft.say("a number is at most 18446744073709551615");
    Ok(part_of_field(line, fields, index))
}

fn is_result(fields: &[Field<'_>]) -> bool {
    fields
        .first()
        .is_some_and(|field| field.bytes == b"result".as_slice())
}

/// Whether these are the fields of a result whose test has too great a number.
fn is_test_too_great(fields: &[Field<'_>]) -> bool {
    let Some(test) = fields.get(1) else {
        return false;
    };
    let is_within = matches!(
        parse_number(test.bytes),
        Some(Number::Within(number)) if number <= GREATEST_TEST
    );
    is_result(fields) && !is_within
}

/// The part of a field.
fn part_of_field(line: &[u8], fields: &[Field<'_>], index: usize) -> Part {
    match fields.get(index) {
        Some(field) => part_of(line, field.start, field.end()),
        None => part_of(line, 0, line.len()),
    }
}

/// Says that a line has too many bytes, and returns where.
pub(crate) fn say_too_long(
    alloc: Global,
    draft: &mut Draft,
    line: &[u8],
) -> Result<Part, AllocError> {
    let message = format!(in alloc;
        "the line has {} bytes, and a request at most {MOST_BYTES}",
        line.len()
    )?;
    draft.say(message.as_str());
    Ok(part_of(line, MOST_BYTES, line.len()))
}

/// Says that an interface is not in the image, and returns where it is named.
pub(crate) fn say_no_interface(
    alloc: Global,
    draft: &mut Draft,
    line: Line<'_, '_, '_>,
) -> Result<Part, AllocError> {
    let name = interface_in(line.text);
    let text = from_utf8(name.bytes).unwrap_or_default();
    draft.say_quoted("the image has no interface ", text, "");
    let bare = text.trim_matches('"');
    if bare.len() < text.len() {
        draft.hint("names have no quotes here");
        if !line.takes_names {
            draft.hint("; `sim --names` takes names in quotes");
        }
    } else if !hint_near_interface(alloc, draft, line.core, text)? {
        hint_interfaces(draft, line.core);
    }
    Ok(part_of(line.text, name.start, name.end()))
}

/// The name of the interface in a request `link NAME S`.
pub(crate) fn interface_in(line: &[u8]) -> Field<'_> {
    let start = first_field(line).end().saturating_add(1);
    let rest = split(line, start).1;
    let last_space = rest.iter().rposition(|byte| *byte == b' ');
    Field {
        start,
        bytes: split(rest, last_space.unwrap_or(rest.len())).0,
    }
}
