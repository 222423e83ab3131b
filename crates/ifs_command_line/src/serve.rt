//! The word `serve`: its options, and what they ask for.

use crate::parts::{Part, WEEK, Word};
use crate::reading::{operand_of, seconds_of};
use crate::version::VERSION;
use crate::words::{FACTS, IMAGE_FILE, SOCKET};
use clap::ArgMatches;
use clap::builder::ValueParser;
use ifs_options::{Limits, NoteForm, Notes, Serve};

/// The option for the notes of a daemon.
const NOTES: &str = "notes";

/// The flag of a daemon whose notes begin with the number of their level.
const NOTES_PREFIX: &str = "notes-prefix";

/// The option for the form of a daemon's notes.
const NOTES_FORMAT: &str = "notes-format";

/// The option for the time limit of a command.
const COMMAND_LIMIT: &str = "command-limit";

/// The option for the time limit of a test.
const TEST_LIMIT: &str = "test-limit";

/// The word.
pub(crate) const SERVE: Word = Word {
    name: "serve",
    about: "Serve the clients of a Unix socket on an image, and run its tests and commands",
    parts: &[
        IMAGE_FILE,
        Part::Socket {
            help: "the socket's file, which is made here and removed at the end",
        },
        Part::Choice {
            id: NOTES,
            name: "WHICH",
            help: "the notes on standard error; changes: without ends of connections;{n}faults: warnings and errors{n}",
            choices: &["all", "changes", "faults", "off"],
            default: "all",
        },
        Part::Flag {
            id: NOTES_PREFIX,
            help: "begin each note with the number of its level, as <4>, for the log",
            conflicts: &[NOTES_FORMAT],
        },
        Part::Value {
            id: NOTES_FORMAT,
            name: "FORMAT",
            help: "text, or json: an object on a line",
            parser: ValueParser::Names(&["text", "json"]),
        },
        Part::Number {
            id: COMMAND_LIMIT,
            name: "SECONDS",
            help: "kill a command that runs longer",
            most: WEEK,
        },
        Part::Number {
            id: TEST_LIMIT,
            name: "SECONDS",
            help: "kill a test that a request finds to run longer; it counts as false",
            most: WEEK,
        },
        Part::Value {
            id: FACTS,
            name: "FILE",
            help: "write what the daemon knows to this file after each change",
            parser: ValueParser::NonEmptyString,
        },
    ],
};

/// What the word asks for with these operands.
pub(crate) fn serve_of<'a>(image: &'a str, operands: &ArgMatches<'a>) -> Serve<'a> {
    Serve {
        image,
        socket: operand_of(operands, SOCKET),
        notes: notes_of(operand_of(operands, NOTES)),
        form: note_form_of(operands),
        limits: Limits {
            command: seconds_of(operands, COMMAND_LIMIT),
            test: seconds_of(operands, TEST_LIMIT),
        },
        facts: operands.get_str(FACTS),
        version: VERSION,
    }
}

/// The notes that the value of the option asks for.
fn notes_of(value: &str) -> Notes {
    match value {
        "changes" => Notes::Changes,
        "faults" => Notes::Faults,
        "off" => Notes::Off,
        _ => Notes::All,
    }
}

/// How a daemon's notes are written.
fn note_form_of(operands: &ArgMatches<'_>) -> NoteForm {
    if operands.get_flag(NOTES_PREFIX) {
        NoteForm::Numbered
    } else if operand_of(operands, NOTES_FORMAT) == "json" {
        NoteForm::Json
    } else {
        NoteForm::Named
    }
}
