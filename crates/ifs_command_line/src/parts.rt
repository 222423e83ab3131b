//! Parts of the command line after its word: operands, options and flags.

use crate::words::{ECHO, FILE, NAMES, SOCKET};
use clap::builder::ValueParser;
use clap::{Arg, ArgAction};
use std::alloc::{AllocError, Global};

/// The most seconds of a time limit: a week.
pub(crate) const WEEK: u64 = 604_800;

/// The greatest number of a line of claims.
pub(crate) const LAST_LINE: u64 = 65_536;

/// The name of a definition in the help.
pub(crate) const DEFINITION: &str = "NAME=VALUE";

/// Where the unit of the daemon has its facts.
const FACTS_FILE: &str = "/run/ifsvm/facts";

/// A word of the command line.
#[derive(Clone, Copy)]
pub(crate) struct Word {
    pub(crate) name: &'static str,
    /// Its help.
    pub(crate) about: &'static str,
    /// What may follow it.
    pub(crate) parts: &'static [Part],
}

/// A part of the command line, with its id and its help.
#[derive(Clone, Copy)]
pub(crate) enum Part {
    /// A required operand, with its name in the help.
    Operand {
        id: &'static str,
        name: &'static str,
        help: &'static str,
    },
    /// The operand that names a socket. It must not be empty.
    Socket {
        help: &'static str,
    },
    /// A flag, and the options that it excludes.
    Flag {
        id: &'static str,
        help: &'static str,
        conflicts: &'static [&'static str],
    },
    /// An option with a value, which has a name in the help.
    Value {
        id: &'static str,
        name: &'static str,
        help: &'static str,
        parser: ValueParser<'static>,
    },
    /// An option with a number from 1 to `most`.
    Number {
        id: &'static str,
        name: &'static str,
        help: &'static str,
        most: u64,
    },
    /// An option with a value, which may be repeated.
    Values {
        id: &'static str,
        name: &'static str,
        help: &'static str,
    },
    /// An option with a value that is one of these names. It has one of them if it is left out.
    Choice {
        id: &'static str,
        name: &'static str,
        help: &'static str,
        choices: &'static [&'static str],
        default: &'static str,
    },
    /// The flag that asks for the requests that lines with names stand for.
    Echo,
    /// Definitions of macros.
    Definitions,
    /// The operand that names a daemon's file of facts, which may be left out.
    FactsOperand,
}

/// A part, as the parser of command lines has it.
pub(crate) fn arg_of<'a>(alloc: Global, part: Part) -> Result<Arg<'a>, AllocError> {
    match part {
        Part::Operand { id, name, help } => Ok(operand(alloc, id, name, help)),
        Part::Socket { help } => {
            Ok(operand(alloc, SOCKET, "SOCKET", help).value_parser(ValueParser::NonEmptyString))
        }
        Part::Flag {
            id,
            help,
            conflicts,
        } => flag(alloc, id, help, conflicts),
        Part::Value {
            id,
            name,
            help,
            parser,
        } => Ok(option(alloc, id, name, help).value_parser(parser)),
        // its value is looked at once it is read, for a message that has the range
        Part::Number { id, name, help, .. } => {
            Ok(option(alloc, id, name, help).value_parser(ValueParser::NonEmptyString))
        }
        Part::Values { id, name, help } => {
            Ok(option(alloc, id, name, help).action(ArgAction::Append))
        }
        Part::Choice {
            id,
            name,
            help,
            choices,
            default,
        } => Ok(
            option(alloc, id, name, help)
                .value_parser(ValueParser::Names(choices))
                .default_value(default),
        ),
        Part::Echo => echo(alloc),
        Part::Definitions => Ok(definitions(alloc)),
        Part::FactsOperand => Ok(facts_operand(alloc)),
    }
}

fn operand<'a>(alloc: Global, id: &'a str, name: &'a str, help: &'a str) -> Arg<'a> {
    Arg::new(alloc, id)
        .value_name(name)
        .help(help)
        .required(true)
}

fn option<'a>(alloc: Global, id: &'a str, name: &'a str, help: &'a str) -> Arg<'a> {
    Arg::new(alloc, id).long(id).value_name(name).help(help)
}

fn flag<'a>(
    alloc: Global,
    id: &'a str,
    help: &'a str,
    conflicts: &[&'a str],
) -> Result<Arg<'a>, AllocError> {
    Arg::new(alloc, id)
        .long(id)
        .help(help)
        .action(ArgAction::SetTrue)
        .conflicts_with_all(conflicts)
}

fn echo<'a>(alloc: Global) -> Result<Arg<'a>, AllocError> {
    Arg::new(alloc, ECHO)
        .long(ECHO)
        .help("print each request that is made, after >")
        .action(ArgAction::SetTrue)
        .requires_arg(NAMES)
}

fn definitions<'a>(alloc: Global) -> Arg<'a> {
    Arg::new(alloc, DEFINITION)
        .short('D')
        .value_name(DEFINITION)
        .help("define a macro in place of the file's; of one name the first holds")
        .action(ArgAction::Append)
}

fn facts_operand<'a>(alloc: Global) -> Arg<'a> {
    Arg::new(alloc, FILE)
        .value_name("FILE")
        .help("the file that serve --facts writes")
        .default_value(FACTS_FILE)
}
