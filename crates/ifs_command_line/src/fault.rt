//! What is wrong with words, besides what the parser finds.

use crate::words::parser;
use clap::Error;
use clap::error::ErrorKind;
use std::alloc::{AllocError, AllocFailed, Global};
use std::fmt::{self, Display, Formatter, Write};
use std::io;

/// What is wrong with words, besides what the parser finds.
#[derive(Clone, Copy)]
pub(crate) enum WordFault<'a> {
    /// An allocation failed.
    Memory,
    /// A word is no text.
    NoText,
    /// The words cannot be read.
    Unread,
    /// The first word is unknown.
    Word,
    /// Standard input would be two files.
    TwoInputs,
    /// Standard input would be the image and the requests of a session.
    ImageInput,
    /// A request to a daemon has more than one line.
    TwoLines,
    /// A daemon's facts would replace another file of its own.
    OwnFile,
    /// A word defines nothing.
    Definition(&'a str),
    /// A word says no link.
    Link(&'a str),
    /// The value of an option is no number from 1 to `most`.
    Number {
        value: &'a str,
        id: &'static str,
        name: &'static str,
        most: u64,
    },
}

impl From<AllocError> for WordFault<'_> {
    fn from(_error: AllocError) -> Self {
        WordFault::Memory
    }
}

impl<T: Drop> From<AllocFailed<T>> for WordFault<'_> {
    fn from(_error: AllocFailed<T>) -> Self {
        WordFault::Memory
    }
}

/// Why words were not read.
pub(crate) fn fault_of_read(error: &io::Error) -> WordFault<'static> {
    if error.kind() == io::ErrorKind::InvalidData {
        WordFault::NoText
    } else {
        WordFault::Unread
    }
}

impl WordFault<'_> {
    /// The kind of the parser's error.
    fn kind(self) -> ErrorKind {
        match self {
            WordFault::Memory => ErrorKind::OutOfMemory,
            WordFault::NoText => ErrorKind::InvalidValue,
            WordFault::Unread => ErrorKind::Io,
            WordFault::Word => ErrorKind::InvalidSubcommand,
            _ => ErrorKind::ValueValidation,
        }
    }

    /// The message, if it has no word of the command line.
    fn message(self) -> &'static str {
        match self {
            WordFault::NoText => "invalid UTF-8 was detected in one or more arguments",
            WordFault::Unread => "the arguments could not be read",
            WordFault::Word => "unrecognized subcommand",
            WordFault::TwoInputs =>
                "invalid value '-': only one of two files can be standard input",
            WordFault::ImageInput => {
                "invalid value '-' for '<IMAGE>': standard input has the requests; ./- is a file of that name"
            }
            WordFault::TwoLines => "invalid value for '<REQUEST>': a request is one line",
            WordFault::OwnFile => {
                "invalid value for '--facts <FILE>': it is the file of the image or of the socket"
            }
            WordFault::Memory
            | WordFault::Definition(_)
            | WordFault::Link(_)
            | WordFault::Number { .. } => "out of memory",
        }
    }
}

impl Display for WordFault<'_> {
    fn fmt<W: Write>(&self, f: &mut Formatter<W>) -> fmt::Result {
        let (word, cause) = match *self {
            WordFault::Definition(word) => (
                word,
                "-D <NAME=VALUE>': it is no macro name, '=' and a value",
            ),
            WordFault::Link(word) => (
                word,
                "--links <NAME STATE>': it is no interface, a blank and up, down or unknown",
            ),
            WordFault::Number {
                value,
                id,
                name,
                most,
            } => {
                return write!(
                    f,
                    "invalid value '{value}' for '--{id} <{name}>': it is no number from 1 to {most}"
                );
            }
            _ => return f.write_str(self.message()),
        };
        write!(f, "invalid value '{word}' for '{cause}")
    }
}

/// The parser's error on what is wrong, with the usage of the program.
pub(crate) fn error_on(alloc: Global, fault: WordFault<'_>) -> Error {
    match try_error_on(alloc, fault) {
        Ok(error) => error,
        Err(memory) => memory.into(),
    }
}

fn try_error_on(alloc: Global, fault: WordFault<'_>) -> Result<Error, AllocError> {
    let message = format!(in alloc; "{fault}")?;
    parser(alloc, &[])?.error(fault.kind(), message.as_str())
}
