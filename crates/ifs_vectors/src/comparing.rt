//! The trial of a case: it compares results with what is expected, and prints what differs.

use crate::cases::{Case, Section};
use crate::repeating::text_of;
use anyhow::Result;
use ifs_file_commands::Answer;
use ifs_test_images::bytes_of;
use std::alloc::Global;
use std::{io, str};

/// A case of a file, and the runtime of its trial.
#[derive(Clone, Copy)]
pub struct Trial<'a> {
    pub rt: &'a HostRuntime,
    pub file: &'a str,
    pub case: Case<'a>,
}

impl Trial<'_> {
    /// The allocator.
    pub fn alloc(self) -> Global {
        self.rt.alloc()
    }

    /// Whether something holds. If not, prints the case, the section and what is wrong.
    pub fn holds(self, word: &str, is_so: bool, what: &str) -> io::Result<bool> {
        if !is_so {
            println!(self.rt; "{}: {}: {word}: {what}", self.file, self.case.name)?;
        }
        Ok(is_so)
    }

    /// Whether a text is the expected one. If not, prints both.
    pub fn same(self, word: &str, found: &[u8], wanted: &[u8]) -> io::Result<bool> {
        let is_same = found == wanted;
        if !is_same {
            let (file, name) = (self.file, self.case.name);
            let (found, wanted) = (shown(found), shown(wanted));
            println!(self.rt; "{file}: {name}: {word}: expected {wanted:?}, found {found:?}")?;
        }
        Ok(is_same)
    }

    /// Whether an answer prints the section of a word, if the case has it. The status has to be 1 exactly if the answer is a
    /// refusal.
    pub fn expected(self, word: &str, answer: &Answer) -> io::Result<bool> {
        let text = answer.text.as_str();
        let status = u8::from(text.starts_with("refused "));
        let is_status = self.holds(word, answer.status == status, "another status")?;
        let is_text = self.is_text(word, text.as_bytes())?;
        Ok(is_status && is_text)
    }

    /// Whether a text is that of the section of a word, if the case has it.
    pub fn is_text(self, word: &str, found: &[u8]) -> io::Result<bool> {
        match self.case.section(word) {
            Some(section) => {
                let wanted = text_of(self.alloc(), section)?;
                self.same(word, found, wanted.as_slice())
            }
            None => Ok(true),
        }
    }

    /// Whether bytes are those of the section of a word, if the case has it.
    pub fn is_file(self, word: &str, found: &[u8]) -> Result<bool> {
        match self.case.section(word) {
            Some(section) => {
                let wanted = bytes_in(self.alloc(), section)?;
                Ok(self.holds(word, found == wanted.as_slice(), "other bytes")?)
            }
            None => Ok(true),
        }
    }

    /// Whether an answer with a file prints these notes and then the file's length.
    pub fn tells_length(self, word: &str, answer: &Answer, notes: &str) -> io::Result<bool> {
        match &answer.file {
            Some(file) => {
                let line = format!(in self.alloc(); "{notes}ok {} bytes\n", file.len())?;
                self.same(word, answer.text.as_bytes(), line.as_bytes())
            }
            None => Ok(true),
        }
    }
}

/// Bytes as text, or `other bytes` if they are not UTF-8.
fn shown(bytes: &[u8]) -> &str {
    str::from_utf8(bytes).unwrap_or("other bytes")
}

/// The bytes that a section has in hexadecimal digits.
pub fn bytes_in(alloc: Global, section: Section<'_>) -> Result<Vec<u8>> {
    let digits = text_of(alloc, section)?;
    hexadecimal(alloc, digits.as_slice())
}

/// The bytes that a text of hexadecimal digits spells.
pub fn hexadecimal(alloc: Global, text: &[u8]) -> Result<Vec<u8>> {
    Ok(bytes_of(alloc, str::from_utf8(text)?)?)
}
