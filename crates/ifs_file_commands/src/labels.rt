//! Labels of a picture in graphviz's language.

use ifs_terminal::{Draft, acts_on_terminal};

/// Adds a text to a label between `"`, so that it is shown unchanged. A newline begins a line. Each byte of any other
/// character that a terminal may act on is shown as `\xHH`.
pub(crate) fn put_label(label: &mut Draft, text: &str) {
    let mut first = true;
    for piece in text.split('&') {
        if !first {
            label.put(ampersand_before(piece));
        }
        put_piece(label, piece);
        first = false;
    }
}

/// An ampersand before this text. Before a letter or `#` it would begin an entity, so it is escaped.
fn ampersand_before(text: &str) -> &'static str {
    match text.as_bytes() {
        [byte, ..] if byte.is_ascii_alphabetic() || *byte == b'#' => "&amp;",
        _ => "&",
    }
}

/// Adds a text without ampersands.
fn put_piece(label: &mut Draft, text: &str) {
    for character in text.chars() {
        put_character(label, character);
    }
}

fn put_character(label: &mut Draft, character: char) {
    match character {
        '\n' => label.put("\\n"),
        '"' => label.put("\\\""),
        '\\' => label.put("\\\\"),
        _ if acts_on_terminal(character) => put_hexadecimal(label, character),
        _ => label.add(character),
    }
}

fn put_hexadecimal(label: &mut Draft, character: char) {
    let mut room = [0u8; 4];
    for byte in character.encode_utf8(&mut room).as_bytes() {
        label.add(&format_args!("\\\\x{byte:02x}"));
    }
}
