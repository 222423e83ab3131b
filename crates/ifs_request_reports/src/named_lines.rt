//! Lines with names, which `sim --names` takes.

use crate::fields::{Field, first_field, split};
use crate::hints::hint_digits;
use crate::places::part_of;
use crate::report::Line;
use ifs_report::{Draft, Part};

/// If a line begins as one with names does, says what is wrong with it, and returns where.
pub(crate) fn say_named_line(draft: &mut Draft, line: Line<'_, '_, '_>) -> Option<Part> {
    let first = first_field(line.text);
    let is_test = first.bytes == b"test".as_slice();
    if !is_test && first.bytes != b"wait".as_slice() {
        return None;
    }
    if !line.takes_names {
        draft.say_quoted("", first.text(), " begins a line with names");
        draft.hint("`sim --names` takes such lines");
        return Some(part_of(line.text, 0, first.end()));
    }
    let rest = rest_of(line.text, first);
    if is_test {
        Some(say_test(draft, line.text, rest))
    } else {
        draft.say("this is no wait");
        draft.expect("a number of seconds, from 1 to 604800");
        hint_digits(draft, rest.text());
        Some(part_of(line.text, rest.start, rest.end()))
    }
}

/// What follows the first field and its space.
fn rest_of<'l>(line: &'l [u8], first: Field<'l>) -> Field<'l> {
    let start = first.end().saturating_add(1);
    Field {
        start,
        bytes: split(line, start).1,
    }
}

/// Says what is wrong with the line of a test, and returns where.
fn say_test(draft: &mut Draft, line: &[u8], rest: Field<'_>) -> Part {
    let text = rest.text();
    let name = text
        .strip_suffix(" pass")
        .or_else(|| text.strip_suffix(" fail"));
    match name {
        Some(name) => {
            draft.say("the image has no test with this text");
            draft.hint("the text of a test is quoted as `explain` quotes it");
            part_of(line, rest.start, rest.start.saturating_add(name.len()))
        }
        None => {
            draft.say("the line ends too early");
            draft.expect("`pass`");
            draft.expect("`fail`");
            part_of(line, line.len(), line.len())
        }
    }
}
