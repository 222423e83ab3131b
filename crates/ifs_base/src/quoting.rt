//! Quoted texts, as replies print them.

use crate::words::{QuotedByte, quote_byte};
use std::fmt::{self, Formatter, Write};

/// Prints a text between quotes on one line. It prints a quote as `\"` and a backslash as `\\`. It prints the
/// bytes below 20 and the byte 7f, in hexadecimal, as `\xHH`.
#[derive(Clone, Copy, Debug)]
pub struct Quoted<'a>(pub &'a str);

impl fmt::Display for Quoted<'_> {
    fn fmt<W: Write>(&self, f: &mut Formatter<W>) -> fmt::Result {
        f.write_char('"')?;
        for character in self.0.chars() {
            put_character(f, character)?;
        }
        f.write_char('"')
    }
}

/// Writes a character as a quoted text has it.
fn put_character<W: Write>(f: &mut Formatter<W>, character: char) -> fmt::Result {
    let Ok(byte) = u8::try_from(character) else {
        return f.write_char(character);
    };
    if !byte.is_ascii() {
        return f.write_char(character);
    }
    match quote_byte(byte) {
        QuotedByte::Plain(_) => f.write_char(character),
        QuotedByte::Escaped(_) => write!(f, "\\{character}"),
        QuotedByte::Hexadecimal(_, _) => write!(f, "\\x{byte:02x}"),
    }
}
