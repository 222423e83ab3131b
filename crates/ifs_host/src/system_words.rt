//! Errors of the system in words.

use arrayvec::ArrayString;
use std::fmt::{self, Display, Formatter, Write};
use std::io;

/// The most bytes of an error with its number.
const MOST: usize = 512;

/// What precedes the number of an error.
const NUMBER: &str = " (os error ";

/// Prints an error of the system as people say it, without its number.
#[derive(Clone, Copy)]
pub struct SystemWords<'a>(pub &'a io::Error);

impl Display for SystemWords<'_> {
    fn fmt<W: Write>(&self, f: &mut Formatter<W>) -> fmt::Result {
        let mut text: ArrayString<MOST> = ArrayString::new();
        write!(text, "{}", self.0)?;
        f.write_str(without_number(text.as_str()))
    }
}

/// The words of an error before its number.
fn without_number(text: &str) -> &str {
    match text.split_once(NUMBER) {
        Some((words, _number)) => words,
        None => text,
    }
}
