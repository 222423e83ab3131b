//! Definitions on the command line that no text uses.

use ifs_report::{Draft, Part, Place, Report, Severity, Source, is_near};
use std::alloc::{AllocError, Global};
use std::str::from_utf8;

/// A warning on each definition whose macro neither the text of a source uses, in quotes and comments too, nor another definition.
pub(crate) fn unused_definitions(
    alloc: Global,
    source: Source<'_>,
) -> Result<Vec<Report>, AllocError> {
    let mut reports = Vec::new(alloc);
    for (number, (name, value)) in source.definitions.iter().enumerate() {
        if !is_used(source, name) {
            reports.push(report_on(alloc, source, number, (*name, *value))?)?;
        }
    }
    Ok(reports)
}

/// Whether the text of a source or one of its definitions uses a macro.
fn is_used(source: Source<'_>, name: &str) -> bool {
    for (_, value) in source.definitions {
        if uses(value.as_bytes(), name) {
            return true;
        }
    }
    uses(source.text, name)
}

/// Whether a text has `$` and a name.
fn uses(text: &[u8], name: &str) -> bool {
    text.split(is_dollar)
        .skip(1)
        .any(|part| name_in(part) == name)
}

fn is_dollar(byte: &u8) -> bool {
    *byte == b'$'
}

/// The name of a macro that bytes begin with. It is empty if there is none.
fn name_in(bytes: &[u8]) -> &str {
    let length = bytes
        .iter()
        .take_while(|byte| byte.is_ascii_alphanumeric() || **byte == b'_')
        .count();
    from_utf8(bytes.get(..length).unwrap_or_default()).unwrap_or_default()
}

/// The warning on a definition.
fn report_on(
    alloc: Global,
    source: Source<'_>,
    number: usize,
    definition: (&str, &str),
) -> Result<Report, AllocError> {
    let (name, value) = definition;
    let mut draft = Draft::new(alloc, Severity::Warning);
    draft.code("unused");
    draft.at(Place::Definition(
        number,
        Part {
            start: 0,
            end: value.len(),
        },
    ));
    draft.say_of("the policy has no `$", name, "`");
    match near_use(alloc, source.text, name)? {
        Some(near) => draft.hint_of("did you mean `", near, "`?"),
        None => draft.hint("the definition changes nothing: leave it out"),
    }
    draft.finish()
}

/// Whether two names differ in two neighbours that change places.
fn is_swapped(one: &[u8], other: &[u8]) -> bool {
    let common = one
        .iter()
        .zip(other)
        .take_while(|(here, there)| here == there)
        .count();
    match (one.get(common..), other.get(common..)) {
        (Some([first, second, rest @ ..]), Some([third, fourth, others @ ..])) => {
            first == fourth && second == third && rest == others
        }
        _ => false,
    }
}

/// The first macro that a text uses whose name is near another one.
fn near_use<'t>(alloc: Global, text: &'t [u8], name: &str) -> Result<Option<&'t str>, AllocError> {
    for part in text.split(is_dollar).skip(1) {
        let used = name_in(part);
        if is_swapped(name.as_bytes(), used.as_bytes()) || is_near(alloc, name, used)? {
            return Ok(Some(used));
        }
    }
    Ok(None)
}
