//! Texts that are being written.

use std::alloc::{AllocError, Global};
use std::fmt::{Display, Write};

/// A text that is being written. Once something could not be added, there is no text.
#[derive(Drop)]
pub struct Draft {
    text: String,
    has_failed: bool,
}

impl Draft {
    /// An empty text.
    pub fn new(alloc: Global) -> Draft {
        Draft {
            text: String::new(alloc),
            has_failed: false,
        }
    }

    /// The text. The only error is that something could not be added.
    pub fn into_text(self) -> Result<String, AllocError> {
        let Draft { text, has_failed } = self;
        if has_failed {
            return Err(AllocError);
        }
        Ok(text)
    }

    /// What is written so far.
    pub fn as_str(&self) -> &str {
        self.text.as_str()
    }

    /// Adds words.
    pub fn put(&mut self, words: &str) {
        self.has_failed |= self.text.push_str(words).is_err();
    }

    /// Adds what a value prints.
    pub fn add<D: Display + Copy>(&mut self, value: D) {
        self.has_failed |= write!(self.text, "{value}").is_err();
    }

    /// There is no text if there is none of another draft.
    pub fn needs(&mut self, other: &Draft) {
        self.has_failed |= other.has_failed;
    }
}
