//! What would mend a line.

use crate::words::is_general;
use ifs_core::Core;
use ifs_report::{Draft, is_near};
use ifs_session::RequestWord;
use std::alloc::{AllocError, Global};

/// The most interfaces that a hint names.
const MOST: usize = 8;

/// The first of these words that is near a text, if there is one.
pub(crate) fn near_word(
    alloc: Global,
    words: &[RequestWord],
    text: &str,
) -> Result<Option<RequestWord>, AllocError> {
    for word in words {
        if !is_general(*word) && is_near(alloc, text, word.spelling())? {
            return Ok(Some(*word));
        }
    }
    Ok(None)
}

/// Asks whether a word is meant.
pub(crate) fn hint_near(draft: &mut Draft, word: RequestWord) {
    draft.hint_of("did you mean `", word.spelling(), "`?");
}

/// If a text begins with digits, proposes them alone.
pub(crate) fn hint_digits(draft: &mut Draft, text: &str) {
    let digits = digits_of(text);
    if !digits.is_empty() {
        draft.hint_of("digits alone: `", digits, "`");
    }
}

/// The digits at the front of a text.
fn digits_of(text: &str) -> &str {
    let others = text.trim_start_matches(|character: char| character.is_ascii_digit());
    text.strip_suffix(others).unwrap_or_default()
}

/// Names the interfaces of the image.
pub(crate) fn hint_interfaces(draft: &mut Draft, core: &Core<'_>) {
    let image = core.image();
    let count = image.interfaces();
    draft.hint(if count == 0 {
        "the image has no interface"
    } else {
        "the image has"
    });
    for index in 0..count.min(MOST) {
        draft.hint_of(link(index, count), image.interface(index), "`");
    }
    if count > MOST {
        draft.hint(" and others");
    }
}

/// What precedes an entry of a list.
fn link(index: usize, count: usize) -> &'static str {
    if index == 0 {
        " `"
    } else if index.saturating_add(1) == count {
        " and `"
    } else {
        ", `"
    }
}

/// If the name of an interface is near a text, asks whether it is meant, and returns whether there is one.
pub(crate) fn hint_near_interface(
    alloc: Global,
    draft: &mut Draft,
    core: &Core<'_>,
    text: &str,
) -> Result<bool, AllocError> {
    let image = core.image();
    for index in 0..image.interfaces() {
        let name = image.interface(index);
        if is_near(alloc, text, name)? {
            draft.hint_of("did you mean `", name, "`?");
            return Ok(true);
        }
    }
    Ok(false)
}
