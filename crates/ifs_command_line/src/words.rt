//! The words of the command line, with their parts.

use crate::parts::{LAST_LINE, Part, WEEK, Word, arg_of};
use crate::serve::SERVE;
use crate::version::VERSION;
use clap::builder::ValueParser;
use clap::{Arg, Command};
use std::alloc::{AllocError, Global};

/// The operand that names the file to read.
pub(crate) const FILE: &str = "file";

/// The operand that names the image to write.
pub(crate) const IMAGE: &str = "image";

/// The operand that names a file of claims.
pub(crate) const CLAIMS: &str = "claims";

/// The operand that names the policy of a running daemon.
pub(crate) const OLD: &str = "old";

/// The operand that names another policy.
pub(crate) const NEW: &str = "new";

/// The operand that names a socket.
pub(crate) const SOCKET: &str = "socket";

/// The operand that is a request line.
pub(crate) const REQUEST: &str = "request";

/// The option for the time limit of a reply.
pub(crate) const WAIT: &str = "wait";

/// The flag of a client that does not wait for the reply.
pub(crate) const NO_WAIT: &str = "no-wait";

/// The flag of a client that checks the reply.
pub(crate) const CHECK: &str = "check";

/// The flag of a client that escapes the reply.
pub(crate) const ESCAPE: &str = "escape";

/// The flag that asks for request lines.
pub(crate) const REQUESTS: &str = "requests";

/// The flag that asks for steps that changed something.
pub(crate) const CHANGES: &str = "changes";

/// The flag that asks for lines with names.
pub(crate) const NAMES: &str = "names";

/// The flag that asks for the requests that are made.
pub(crate) const ECHO: &str = "echo";

/// The flag that asks for reports on request lines.
pub(crate) const EXPLAIN: &str = "explain";

/// The flag that asks for no reports.
pub(crate) const QUIET: &str = "quiet";

/// The flag that asks for reports in JSON.
pub(crate) const JSON: &str = "json";

/// The flag that makes a finding a failure.
pub(crate) const STRICT: &str = "strict";

/// The option for links that a daemon knows.
pub(crate) const LINKS: &str = "links";

/// The option for a daemon's file of facts.
pub(crate) const FACTS: &str = "facts";

/// The flag that asks for a line and a status for Nagios.
pub(crate) const NAGIOS: &str = "nagios";

/// The flag that asks for metrics for Prometheus.
pub(crate) const PROMETHEUS: &str = "prometheus";

/// The option for a state that is a warning for Nagios.
pub(crate) const WARN: &str = "warn";

/// The option for a state that is critical for Nagios.
pub(crate) const CRITICAL: &str = "critical";

/// The help on the program.
const ABOUT: &str =
    "Checks and compiles failover policies, and verifies and runs their images.{n}Without words it reads an image as a line of hexadecimal digits and then request lines from standard{n}input; on a terminal it prints this help.";

/// The help on a file to read.
const READ: &str = "a file of at most 16,777,216 bytes";

/// The help on a file to read, or standard input.
const READ_OR_INPUT: &str = "a file of at most 16,777,216 bytes; - is standard input";

/// The help on a file to write.
const WRITTEN: &str =
    "the file to write, whole or not at all; what is no regular file is written in place";

/// The help on the time limit of a reply.
const WAITED: &str = "end with status 3 where the reply does not come whole in this time";

/// The text to read.
const TEXT: Part = Part::Operand {
    id: FILE,
    name: "FILE",
    help: READ_OR_INPUT,
};

/// The image to read.
pub(crate) const IMAGE_FILE: Part = Part::Operand {
    id: FILE,
    name: "IMAGE",
    help: READ,
};

/// The image to read, or standard input.
const IMAGE_OR_INPUT: Part = Part::Operand {
    id: FILE,
    name: "IMAGE",
    help: READ_OR_INPUT,
};

/// The image to write.
const NEW_IMAGE: Part = Part::Operand {
    id: IMAGE,
    name: "IMAGE",
    help: WRITTEN,
};

/// Asks for no reports.
const NO_REPORTS: Part = Part::Flag {
    id: QUIET,
    help: "write no report on the file to standard error",
    conflicts: &[JSON],
};

/// Asks for reports in JSON.
const JSON_REPORTS: Part = Part::Flag {
    id: JSON,
    help: "write each report on the file as a JSON object on a line",
    conflicts: &[],
};

/// Asks for findings in JSON.
const JSON_FINDINGS: Part = Part::Flag {
    id: JSON,
    help: "print each finding as a JSON object on a line",
    conflicts: &[],
};

/// Asks for answers in JSON.
const JSON_ANSWERS: Part = Part::Flag {
    id: JSON,
    help: "print each answer as a JSON object on a line",
    conflicts: &[],
};

/// Asks for status 1 if there is a finding.
const STRICT_FINDINGS: Part = Part::Flag {
    id: STRICT,
    help: "end with status 1 if there is a warning, or a question that is not decided",
    conflicts: &[],
};

/// The words on policies.
const ON_POLICIES: &[Word] = &[
    Word {
        name: "check",
        about: "Check whether a file is a policy, with notes on what is easily misread",
        parts: &[TEXT, Part::Definitions, NO_REPORTS, JSON_REPORTS],
    },
    Word {
        name: "lint",
        about: "Print what can never happen in a policy: conditions, actions and states, and why",
        parts: &[TEXT, Part::Definitions, STRICT_FINDINGS, JSON_FINDINGS],
    },
    Word {
        name: "prove",
        about: "Print whether each claim holds of a policy after any steps, or requests that break it",
        parts: &[
            TEXT,
            Part::Operand {
                id: CLAIMS,
                name: "CLAIMS",
                help: "a file of at most 65,536 bytes, with a claim on a line; - is standard input",
            },
            Part::Definitions,
            Part::Number {
                id: REQUESTS,
                name: "LINE",
                help: "print only the requests that break the claim on this line, for sim",
                most: LAST_LINE,
            },
            JSON_ANSWERS,
        ],
    },
    Word {
        name: "compare",
        about: "Print in which states two policies lead elsewhere or run other commands",
        parts: &[
            Part::Operand {
                id: OLD,
                name: "OLD",
                help: READ_OR_INPUT,
            },
            Part::Operand {
                id: NEW,
                name: "NEW",
                help: READ_OR_INPUT,
            },
            Part::Definitions,
            Part::Values {
                id: LINKS,
                name: "NAME STATE",
                help: "print what NEW's opening runs where this link is known; may be repeated",
            },
            JSON_ANSWERS,
        ],
    },
    Word {
        name: "compile",
        about: "Compile a policy and write its image, with the notes of check",
        parts: &[TEXT, NEW_IMAGE, Part::Definitions, NO_REPORTS, JSON_REPORTS],
    },
];

/// The words on images, and on what becomes one or a picture.
const ON_IMAGES: &[Word] = &[
    Word {
        name: "verify",
        about: "Verify an image and print its stated budgets",
        parts: &[IMAGE_OR_INPUT, NO_REPORTS, JSON_REPORTS],
    },
    Word {
        name: "disasm",
        about: "Print the assembly text of an image",
        parts: &[IMAGE_OR_INPUT, NO_REPORTS, JSON_REPORTS],
    },
    Word {
        name: "asm",
        about: "Write the image that assembly text spells, which is not verified",
        parts: &[TEXT, NEW_IMAGE, NO_REPORTS, JSON_REPORTS],
    },
    Word {
        name: "upgrade",
        about: "Write the image of version 2 that says what an image says, which is not verified",
        parts: &[
            IMAGE_OR_INPUT,
            Part::Operand {
                id: IMAGE,
                name: "OUT",
                help: WRITTEN,
            },
            NO_REPORTS,
            JSON_REPORTS,
        ],
    },
    Word {
        name: "graph",
        about: "Print the states of a policy as a picture, in the language of graphviz",
        parts: &[TEXT, Part::Definitions, NO_REPORTS, JSON_REPORTS],
    },
    Word {
        name: "sim",
        about: "Answer the request lines of standard input on an image",
        parts: &[
            IMAGE_FILE,
            Part::Flag {
                id: NAMES,
                help: "also take lines with names, as test \"ping -c 1 h\" fail, and wait SECONDS",
                conflicts: &[],
            },
            Part::Echo,
            Part::Flag {
                id: EXPLAIN,
                help: "report why a line is refused, as it is done on a terminal",
                conflicts: &[],
            },
            NO_REPORTS,
            JSON_REPORTS,
        ],
    },
];

/// The words on daemons.
const ON_DAEMONS: &[Word] = &[
    SERVE,
    Word {
        name: "send",
        about: "Send a request line to the daemon of a Unix socket, and print what comes back",
        parts: &[
            Part::Socket {
                help: "the socket's file",
            },
            Part::Operand {
                id: REQUEST,
                name: "REQUEST",
                help: "a request line, as one word",
            },
            Part::Number {
                id: WAIT,
                name: "SECONDS",
                help: WAITED,
                most: WEEK,
            },
            Part::Flag {
                id: NO_WAIT,
                help: "end once the request is written",
                conflicts: &[WAIT, CHECK, ESCAPE],
            },
            Part::Flag {
                id: CHECK,
                help: "end with status 1 where the reply says that the request was not done",
                conflicts: &[],
            },
            Part::Flag {
                id: ESCAPE,
                help: "print what a terminal may act on as \\xHH",
                conflicts: &[],
            },
        ],
    },
    Word {
        name: "explain",
        about: "Print the state of a socket's daemon and what it did, with the names of its image",
        parts: &[
            IMAGE_FILE,
            Part::Socket {
                help: "the socket's file",
            },
            Part::Flag {
                id: REQUESTS,
                help: "print the request lines of these steps",
                conflicts: &[CHANGES],
            },
            Part::Flag {
                id: CHANGES,
                help: "leave out steps that changed nothing and queued no command",
                conflicts: &[],
            },
            Part::Value {
                id: FACTS,
                name: "FILE",
                help: "the file that serve --facts writes: print the time of each step by it",
                parser: ValueParser::NonEmptyString,
            },
            Part::Number {
                id: WAIT,
                name: "SECONDS",
                help: WAITED,
                most: WEEK,
            },
        ],
    },
    Word {
        name: "status",
        about: "Print the state of a daemon, since when and why, by the file that serve --facts writes",
        parts: &[
            Part::FactsOperand,
            Part::Flag {
                id: JSON,
                help: "print the facts as JSON",
                conflicts: &[NAGIOS, PROMETHEUS],
            },
            Part::Flag {
                id: NAGIOS,
                help: "print a line for Nagios, and end with its status, from 0 to 3",
                conflicts: &[PROMETHEUS],
            },
            Part::Flag {
                id: PROMETHEUS,
                help: "print metrics for Prometheus",
                conflicts: &[],
            },
            Part::Values {
                id: WARN,
                name: "STATE",
                help: "a state that is a warning for Nagios; may be repeated",
            },
            Part::Values {
                id: CRITICAL,
                name: "STATE",
                help: "a state that is critical for Nagios; may be repeated",
            },
        ],
    },
];

/// The words on policies, in the order of the help.
fn on_policies() -> &'static [Word] {
    ON_POLICIES
}

/// The words on images, in the order of the help.
fn on_images() -> &'static [Word] {
    ON_IMAGES
}

/// The words on daemons, in the order of the help.
fn on_daemons() -> &'static [Word] {
    ON_DAEMONS
}

/// The command line for the parser. If it begins with a word, that one alone has its parts.
pub(crate) fn parser<'a>(alloc: Global, given: &[String]) -> Result<Command<'a>, AllocError> {
    let first = first_word(given);
    let mut commands = Vec::new(alloc);
    for words in [on_policies(), on_images(), on_daemons()] {
        put_words(&mut commands, alloc, words, first)?;
    }
    Command::new(alloc, "ifsvm")
        .version(VERSION)
        .about(ABOUT)
        .subcommands(commands)
}

/// The word behind the program's name, if it is one.
fn first_word(given: &[String]) -> Option<&'static str> {
    let first = given.get(1)?.as_str();
    for words in [on_policies(), on_images(), on_daemons()] {
        if let Some(name) = name_in(words, first) {
            return Some(name);
        }
    }
    None
}

/// The parts of a word, by its name.
pub(crate) fn parts_of(name: &str) -> &'static [Part] {
    for words in [on_policies(), on_images(), on_daemons()] {
        if let Some(word) = word_in(words, name) {
            return word.parts;
        }
    }
    &[]
}

/// The name of the word that has it.
fn name_in(words: &'static [Word], name: &str) -> Option<&'static str> {
    word_in(words, name).map(|word| word.name)
}

/// The word that has a name.
fn word_in(words: &'static [Word], name: &str) -> Option<Word> {
    for word in words {
        if word.name == name {
            return Some(*word);
        }
    }
    None
}

/// Puts words for the parser.
fn put_words<'a>(
    commands: &mut Vec<Command<'a>>,
    alloc: Global,
    words: &'static [Word],
    first: Option<&str>,
) -> Result<(), AllocError> {
    for word in words {
        commands.push(command_of(alloc, *word, first)?)?;
    }
    Ok(())
}

/// A word for the parser, without its parts if the command line begins with another one.
fn command_of<'a>(
    alloc: Global,
    word: Word,
    first: Option<&str>,
) -> Result<Command<'a>, AllocError> {
    let parts = match first {
        Some(name) if name != word.name => &[],
        _ => word.parts,
    };
    let args = args_of(alloc, parts)?;
    Command::new(alloc, word.name).about(word.about).args(args)
}

/// Parts for the parser.
fn args_of<'a>(alloc: Global, parts: &'static [Part]) -> Result<Vec<Arg<'a>>, AllocError> {
    let mut args = Vec::new(alloc);
    for part in parts {
        args.push(arg_of(alloc, *part)?)?;
    }
    Ok(args)
}
