//! Characters that begin no word and no sign.

use ifs_policy_text::TokenizedPolicy;
use ifs_policy_text::lines::{line_before, slice_of};
use ifs_report::{Draft, Part};

/// The most characters behind a place that are looked at.
const MOST_CHARACTERS: usize = 64;

/// Adds a character in words to a message: itself, or its number if it cannot be seen.
pub(crate) fn put_named(draft: &mut Draft, character: char) {
    let number = u32::from(character);
    let added = match number {
        0..=31
        | 127..=160
        | 0xad
        | 0x2000..=0x200f
        | 0x2028..=0x202f
        | 0x205f..=0x206f
        | 0x3000
        | 0xfeff => write!(draft.report.message, "U+{number:04X}"),
        _ => write!(draft.report.message, "`{character}`"),
    };
    draft.keep(added);
}

/// Adds what to write in place of a character.
pub(crate) fn put_hint_for_character(
    draft: &mut Draft,
    policy: &TokenizedPolicy<'_>,
    part: Part,
    character: char,
) {
    let known = hint_for(character);
    if !known.is_empty() {
        return draft.hint(known);
    }
    match word_around(policy.text, part) {
        Some(word) => draft.hint_of("a name with such a letter needs quotes: `\"", word, "\"`"),
        None => draft.hint("a text with such characters needs quotes"),
    }
}

/// Adds what to write in place of a character in the value of a macro.
pub(crate) fn put_hint_in_value(draft: &mut Draft, text: &str, part: Part, character: char) {
    let around = hint_around(text, part, character);
    if !around.is_empty() {
        return draft.hint(around);
    }
    match character {
        '&' | '|' | ';' | ',' | '\u{201c}' | '\u{201d}' | '\u{2018}' | '\u{2019}' | '\u{a0}' =>
            draft.hint(hint_for(character)),
        _ => draft.hint(
            "a command in a value needs quotes inside of the quotes: `NAME = '\"COMMAND\"'`",
        ),
    }
}

/// What to write in place of a character, by what is around it. It is empty if that says nothing.
pub(crate) fn hint_around(text: &str, part: Part, character: char) -> &'static str {
    let before = text.get(..part.start).unwrap_or("").trim_end();
    let rest = text.get(part.end..).unwrap_or("");
    match character {
        '-' | '+' if ends_in_every(before) => "a period is from 1 to 604800 seconds",
        ':' if rest.starts_with('=') => "a macro is defined by `=` alone: NAME = \"VALUE\"",
        _ => "",
    }
}

/// Whether the last word of a text is `every`.
fn ends_in_every(text: &str) -> bool {
    match text.strip_suffix("every") {
        Some(front) => length_of_last_word(front.get(front.len().saturating_sub(1)..).unwrap_or(""))
            == 0,
        None => false,
    }
}

/// What to write in place of a character that is known. It is empty for others.
fn hint_for(character: char) -> &'static str {
    match character {
        '\u{201c}' | '\u{201d}' | '\u{201e}' | '\u{ab}' | '\u{bb}' =>
            "this quote is typographic: write `\"`",
        '\u{2018}' | '\u{2019}' | '\u{201a}' => "this quote is typographic: write `'`",
        '\u{feff}' => "this is a byte order mark: save the text without it",
        '\u{a0}' => "this is a no-break space: write a space or a tab",
        ';' => "actions have nothing between them: leave the `;` out",
        ',' => "actions have nothing between them: leave the `,` out",
        '&' => "write `&&`",
        '|' => "write `||`",
        '$' => "a macro is used as `$NAME`, and its name begins with a letter or `_`",
        '<' | '>' => "a command with a redirection needs quotes",
        '[' | ']' => "conditions are grouped by `(` and `)`",
        '-' => "a command of several words needs quotes, and so does a name that begins with `-`",
        _ => "",
    }
}

/// The letters around a part, if there are any.
fn word_around(text: &str, part: Part) -> Option<&str> {
    let line = line_before(text, part.start)?;
    let rest = text.get(part.start..).unwrap_or("");
    let word = Part {
        start: part.start.saturating_sub(length_of_last_word(line)),
        end: part.start.saturating_add(length_of_word(rest)),
    };
    match slice_of(text, word) {
        Some(word) if !word.is_empty() => Some(word),
        _ => None,
    }
}

/// How many bytes of letters a text ends with.
fn length_of_last_word(text: &str) -> usize {
    let mut length = 0usize;
    for character in text.chars() {
        length = if is_of_word(character) {
            length.saturating_add(character.len_utf8())
        } else {
            0
        };
    }
    length
}

/// How many bytes of letters a text begins with, among its first characters.
fn length_of_word(text: &str) -> usize {
    let mut length = 0usize;
    for (number, character) in text.chars().enumerate() {
        if number == MOST_CHARACTERS || !is_of_word(character) {
            break;
        }
        length = length.saturating_add(character.len_utf8());
    }
    length
}

/// Whether a character can be in a name with letters beyond ASCII.
fn is_of_word(character: char) -> bool {
    character.is_ascii_alphanumeric()
        || matches!(character, '_' | '-')
        || u32::from(character) >= 0xc0
}
