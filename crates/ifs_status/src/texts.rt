//! Texts of a status, as they are shown.

use ifs_terminal::{Draft, Escaped, Shown, acts_on_terminal};
use std::fmt::{self, Display, Formatter, Write};

/// Adds a name. It is put between quotes if it has anything but letters, digits and `_`.
pub(crate) fn put_name(draft: &mut Draft, name: &str) {
    if is_plain(name) {
        draft.put(name);
    } else {
        put_shown(draft, "", name);
    }
}

/// Adds words and a text in quotes.
pub(crate) fn put_shown(draft: &mut Draft, words: &str, text: &str) {
    draft.put(words);
    draft.add(Shown(text));
}

/// Whether a name has only letters, digits and `_`.
fn is_plain(name: &str) -> bool {
    !name.is_empty()
        && name
            .bytes()
            .all(|byte| byte.is_ascii_alphanumeric() || byte == b'_')
}

/// Adds words on one line. What a terminal may act on is written as `\xHH`, and a newline too.
pub(crate) fn put_line(draft: &mut Draft, words: &str) {
    for (index, line) in words.split('\n').enumerate() {
        draft.put(if index == 0 { "" } else { "\\x0a" });
        draft.add(Escaped(line.as_bytes()));
    }
}

/// Adds words for Nagios on one line. They end at `|`, so it is written as `\x7c`.
pub(crate) fn put_plugin(draft: &mut Draft, words: &str) {
    for (index, part) in words.split('|').enumerate() {
        draft.put(if index == 0 { "" } else { "\\x7c" });
        put_line(draft, part);
    }
}

/// Adds the value of a label for Prometheus, without its quotes. What a terminal may act on is `\xHH` there, as in words, with the
/// backslash doubled.
pub(crate) fn put_label(draft: &mut Draft, value: &str) {
    for character in value.chars() {
        match character {
            '"' => draft.put("\\\""),
            '\\' => draft.put("\\\\"),
            '\n' => draft.put("\\n"),
            _ if acts_on_terminal(character) => put_bytes(draft, character),
            _ => draft.add(character),
        }
    }
}

/// Adds the bytes of a character in hexadecimal.
fn put_bytes(draft: &mut Draft, character: char) {
    let mut room = [0u8; 4];
    for byte in character.encode_utf8(&mut room).as_bytes() {
        draft.put("\\\\x");
        draft.add(Hexadecimal(u32::from(*byte), 2));
    }
}

/// Adds JSON. What a terminal may act on is `\uHHHH` there, which is the same text.
pub(crate) fn put_json_text(draft: &mut Draft, json: &str) {
    for character in json.chars() {
        if acts_on_terminal(character) {
            draft.put("\\u");
            draft.add(Hexadecimal(u32::from(character), 4));
        } else {
            draft.add(character);
        }
    }
}

/// A number in hexadecimal, with this many digits: 2, or else 4.
#[derive(Clone, Copy)]
struct Hexadecimal(u32, u8);

impl Display for Hexadecimal {
    fn fmt<W: Write>(&self, f: &mut Formatter<W>) -> fmt::Result {
        if self.1 == 2 {
            write!(f, "{:02x}", self.0)
        } else {
            write!(f, "{:04x}", self.0)
        }
    }
}
