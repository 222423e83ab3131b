//! Whether a value displays as a text, without a copy of what it prints.

use std::fmt::{Display, Error, Result, Write};

/// Returns whether what a value prints is this text.
pub fn displays_as<D: Display + Copy>(value: D, text: &str) -> bool {
    let mut rest = Rest { text };
    write!(rest, "{value}").is_ok() && rest.text.is_empty()
}

/// The part of a text that is still to be printed.
#[derive(Drop)]
struct Rest<'a> {
    text: &'a str,
}

impl Write for Rest<'_> {
    /// Passes over words. It fails if the text does not go on with them.
    fn write_str(&mut self, words: &str) -> Result {
        match self.text.strip_prefix(words) {
            Some(text) => {
                self.text = text;
                Ok(())
            }
            None => Err(Error),
        }
    }
}
