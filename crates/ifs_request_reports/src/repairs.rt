//! Lines that are requests if blanks or the case of letters change.

use crate::fields::split;
use crate::places::part_of;
use ifs_report::{Draft, Part};
use ifs_session::fault_in;
use std::alloc::{AllocError, Global};
use std::str::from_utf8;

/// If a line is a request with one space between its words, the first and the last of them in lower case, says so and returns where
/// it is not.
pub(crate) fn say_plain_form(
    alloc: Global,
    draft: &mut Draft,
    line: &[u8],
) -> Result<Option<Part>, AllocError> {
    let Ok(text) = from_utf8(line) else {
        return Ok(None);
    };
    let plain = plain_form(alloc, text)?;
    if plain.as_str() == text || fault_in(plain.as_bytes()).is_some() {
        return Ok(None);
    }
    let start = common_length(line, plain.as_bytes());
    let rest = split(line, start).1;
    draft.say(message_on(rest));
    draft.hint_of("write `", plain.as_str(), "`");
    Ok(Some(part_of(line, start, start.saturating_add(length_at(rest)))))
}

/// What is wrong where a line differs from its plain form.
fn message_on(rest: &[u8]) -> &'static str {
    match rest.first() {
        Some(b'\r') => "a carriage return is no part of a request",
        Some(b' ' | b'\t') => "one space separates the words of a request",
        _ => "the words of a request are in lower case",
    }
}

/// The length of the word or of the blanks that a text begins with.
fn length_at(rest: &[u8]) -> usize {
    let is_blank = rest.first().is_some_and(is_blank_byte);
    rest.iter()
        .take_while(|byte| is_blank_byte(byte) == is_blank)
        .count()
}

fn is_blank_byte(byte: &u8) -> bool {
    byte.is_ascii_whitespace()
}

/// The words of a text with a space between each two, the first and the last of them in lower case.
fn plain_form(alloc: Global, text: &str) -> Result<String, AllocError> {
    let count = text.split_ascii_whitespace().count();
    let mut plain = String::new(alloc);
    for (number, word) in text.split_ascii_whitespace().enumerate() {
        if number > 0 {
            plain.push(' ')?;
        }
        if number == 0 || number.saturating_add(1) == count {
            put_lower(&mut plain, word)?;
        } else {
            plain.push_str(word)?;
        }
    }
    Ok(plain)
}

/// Adds a word in lower case.
fn put_lower(text: &mut String, word: &str) -> Result<(), AllocError> {
    for character in word.chars() {
        text.push(character.to_ascii_lowercase())?;
    }
    Ok(())
}

/// The number of bytes that two texts have in common at their fronts.
fn common_length(one: &[u8], other: &[u8]) -> usize {
    one.iter()
        .zip(other)
        .take_while(|(here, there)| here == there)
        .count()
}
