//! Texts in which a terminal has nothing to act on.

use crate::characters::acts_on_terminal;
use std::fmt::{self, Formatter, Write};

/// Prints a text between quotes on one line. It prints a quote as `\"` and a backslash as `\\`, and each byte of a
/// character that a terminal may act on as `\xHH`.
#[derive(Clone, Copy, Debug)]
pub struct Shown<'a>(pub &'a str);

impl fmt::Display for Shown<'_> {
    fn fmt<W: Write>(&self, f: &mut Formatter<W>) -> fmt::Result {
        f.write_char('"')?;
        for character in self.0.chars() {
            put_quoted(f, character)?;
        }
        f.write_char('"')
    }
}

/// Prints bytes without quotes. It prints each byte of a character that a terminal may act on, except for newlines, and
/// each byte that belongs to no character, as `\xHH`. It prints all other characters unchanged.
#[derive(Clone, Copy, Debug)]
pub struct Escaped<'a>(pub &'a [u8]);

impl fmt::Display for Escaped<'_> {
    fn fmt<W: Write>(&self, f: &mut Formatter<W>) -> fmt::Result {
        for chunk in self.0.utf8_chunks() {
            put_text(f, chunk.valid())?;
            put_hexadecimal(f, chunk.invalid())?;
        }
        Ok(())
    }
}

/// Writes a character between quotes.
fn put_quoted<W: Write>(f: &mut Formatter<W>, character: char) -> fmt::Result {
    match character {
        '"' | '\\' => write!(f, "\\{character}"),
        _ => put_plain(f, character),
    }
}

/// Writes a text without quotes, and its newlines as they are.
fn put_text<W: Write>(f: &mut Formatter<W>, text: &str) -> fmt::Result {
    for character in text.chars() {
        match character {
            '\n' => f.write_char(character)?,
            _ => put_plain(f, character)?,
        }
    }
    Ok(())
}

/// Writes a character, or its bytes in hexadecimal if a terminal may act on it.
fn put_plain<W: Write>(f: &mut Formatter<W>, character: char) -> fmt::Result {
    if acts_on_terminal(character) {
        let mut room = [0u8; 4];
        put_hexadecimal(f, character.encode_utf8(&mut room).as_bytes())
    } else {
        f.write_char(character)
    }
}

/// Writes bytes in hexadecimal.
fn put_hexadecimal<W: Write>(f: &mut Formatter<W>, bytes: &[u8]) -> fmt::Result {
    for byte in bytes {
        write!(f, "\\x{byte:02x}")?;
    }
    Ok(())
}
