//! Reading the words of a command line.

use crate::command::{Command, Explain, Manner, Prove, Request, Send};
use crate::definitions::definition_of;
use crate::fault::{WordFault, error_on, fault_of_read};
use crate::links::link_of;
use crate::parts::{DEFINITION, Part};
use crate::serve::serve_of;
use crate::words::{
    CHANGES, CHECK, CLAIMS, CRITICAL, ECHO, ESCAPE, EXPLAIN, FACTS, FILE, IMAGE, JSON, LINKS,
    NAGIOS, NAMES, NEW, NO_WAIT, OLD, PROMETHEUS, QUIET, REQUEST, REQUESTS, SOCKET, STRICT, WAIT,
    WARN, parser, parts_of,
};
use clap::{ArgMatches, Error};
use ifs_base::LinkState;
use ifs_options::{Explained, Lines, Reports, Serve, StatusForm, Task};
use std::alloc::Global;
use std::rt::Env;
use std::time::Duration;
use std::{env, io};

/// Why the program ends at its command line.
#[derive(Drop)]
pub enum CommandLineExit {
    /// They ask for help or the version, which was printed on standard output.
    Printed,
    /// A write to standard output failed.
    Output(io::Error),
    /// They are wrong, or an allocation failed. A message was written to standard error.
    Wrong,
}

/// Reads the words of the command line, with the program's name as the first. If they cannot be read, a message goes to
/// standard error.
pub fn read_words<R: Env + Print + Eprint + Alloc<A = Global>>(
    rt: &R,
) -> Result<Vec<String>, CommandLineExit> {
    match words_of(rt) {
        Ok(words) => Ok(words),
        Err(error) => Err(print(rt, &error)),
    }
}

/// Returns what these words ask for. If they ask for help or the version, prints that on standard output. If they are wrong,
/// a message goes to standard error.
pub fn parse<'a, R: Print + Eprint + Alloc<A = Global>>(
    rt: &R,
    words: &'a [String],
) -> Result<Request<'a>, CommandLineExit> {
    match parsed(rt.alloc(), words) {
        Ok(request) => Ok(request),
        Err(error) => Err(print(rt, &error)),
    }
}

/// Prints a message of the parser.
fn print<R: Print + Eprint>(rt: &R, error: &Error) -> CommandLineExit {
    let printed = error.print(rt);
    if error.use_stderr() {
        // if standard error fails too, only the status is left
        return CommandLineExit::Wrong;
    }
    match printed {
        Ok(()) => CommandLineExit::Printed,
        Err(cause) => CommandLineExit::Output(cause),
    }
}

fn words_of<R: Env + Alloc<A = Global>>(rt: &R) -> Result<Vec<String>, Error> {
    match env::args(rt) {
        Ok(words) => Ok(words.collect(rt.alloc())?),
        Err(error) => Err(error_on(rt.alloc(), fault_of_read(&error))),
    }
}

fn parsed<'a>(alloc: Global, words: &'a [String]) -> Result<Request<'a>, Error> {
    let matches = parser(alloc, words)?.try_get_matches_from(words)?;
    request_of(alloc, &matches)
}

/// What parsed words ask for.
fn request_of<'a>(alloc: Global, matches: &ArgMatches<'a>) -> Result<Request<'a>, Error> {
    let mut request = Request {
        command: Command::Session,
        definitions: Vec::new(alloc),
        links: Vec::new(alloc),
        reports: Reports::Text,
        warn: Vec::new(alloc),
        critical: Vec::new(alloc),
    };
    match request.put(matches) {
        Ok(()) => Ok(request),
        Err(fault) => Err(error_on(alloc, fault)),
    }
}

impl<'a> Request<'a> {
    /// Puts what parsed words ask for.
    fn put(&mut self, matches: &ArgMatches<'a>) -> Result<(), WordFault<'a>> {
        let Some((word, operands)) = matches.subcommand() else {
            return Ok(());
        };
        for part in parts_of(word) {
            check_number(*part, operands)?;
        }
        self.command = command_with(word, operands)?;
        self.reports = reports_of(operands);
        put_definitions(&mut self.definitions, operands)?;
        put_links(&mut self.links, operands)?;
        self.warn.extend_from_slice(values_of(operands, WARN))?;
        self.critical
            .extend_from_slice(values_of(operands, CRITICAL))?;
        Ok(())
    }
}

/// Fails if the value of an option has to be a number in its range, and is none.
fn check_number<'a>(part: Part, operands: &ArgMatches<'a>) -> Result<(), WordFault<'a>> {
    let Part::Number { id, name, most, .. } = part else {
        return Ok(());
    };
    let Some(value) = operands.get_str(id) else {
        return Ok(());
    };
    match value.parse::<u64>() {
        Ok(number) if 1 <= number && number <= most => Ok(()),
        _ => Err(WordFault::Number {
            value,
            id,
            name,
            most,
        }),
    }
}

/// What a word asks for with these operands.
fn command_with<'a>(word: &str, operands: &ArgMatches<'a>) -> Result<Command<'a>, WordFault<'a>> {
    let Some(command) = command_of(word, operands) else {
        return Err(WordFault::Word);
    };
    match fault_in(command) {
        Some(fault) => Err(fault),
        None => Ok(command),
    }
}

/// What a word asks for with these operands. It is `None` if the word is unknown.
fn command_of<'a>(word: &str, operands: &ArgMatches<'a>) -> Option<Command<'a>> {
    let file = operand_of(operands, FILE);
    Some(match word {
        "lint" => Command::Lint {
            file,
            is_strict: operands.get_flag(STRICT),
        },
        "prove" => Command::Prove(Prove {
            file,
            claims: operand_of(operands, CLAIMS),
            requests: operands.get_one::<u64>(REQUESTS),
        }),
        "compare" => Command::Compare {
            old: operand_of(operands, OLD),
            new: operand_of(operands, NEW),
        },
        "sim" => Command::Sim {
            image: file,
            lines: lines_of(operands),
        },
        "serve" => Command::Serve(serve_of(file, operands)),
        "send" => Command::Send(send_of(operands)),
        "explain" => Command::Explain(explain_of(file, operands)),
        "status" => Command::Status {
            file,
            form: status_form_of(operands),
        },
        _ => Command::OnFile {
            task: task_of(word)?,
            file,
            image: operands.get_str(IMAGE),
        },
    })
}

/// The task of a word on a file.
fn task_of(word: &str) -> Option<Task> {
    Some(match word {
        "check" => Task::Check,
        "compile" => Task::Compile,
        "verify" => Task::Verify,
        "disasm" => Task::Disasm,
        "asm" => Task::Asm,
        "upgrade" => Task::Upgrade,
        "graph" => Task::Graph,
        _ => return None,
    })
}

fn send_of<'a>(operands: &ArgMatches<'a>) -> Send<'a> {
    Send {
        socket: operand_of(operands, SOCKET),
        request: operand_of(operands, REQUEST),
        manner: manner_of(operands),
    }
}

fn explain_of<'a>(image: &'a str, operands: &ArgMatches<'a>) -> Explain<'a> {
    Explain {
        image,
        socket: operand_of(operands, SOCKET),
        explained: explained_of(operands),
        facts: operands.get_str(FACTS),
        limit: seconds_of(operands, WAIT),
    }
}

/// What is printed of a daemon's steps.
fn explained_of(operands: &ArgMatches<'_>) -> Explained {
    if operands.get_flag(REQUESTS) {
        Explained::Requests
    } else if operands.get_flag(CHANGES) {
        Explained::Changes
    } else {
        Explained::Steps
    }
}

/// How a daemon's facts are printed.
fn status_form_of(operands: &ArgMatches<'_>) -> StatusForm {
    if operands.get_flag(JSON) {
        StatusForm::Json
    } else if operands.get_flag(NAGIOS) {
        StatusForm::Nagios
    } else if operands.get_flag(PROMETHEUS) {
        StatusForm::Prometheus
    } else {
        StatusForm::Words
    }
}

/// Which lines a session takes.
fn lines_of(operands: &ArgMatches<'_>) -> Lines {
    Lines {
        takes_names: operands.get_flag(NAMES),
        is_echoed: operands.get_flag(ECHO),
        is_explained: operands.get_flag(EXPLAIN),
    }
}

/// What a client does after its request is written.
fn manner_of(operands: &ArgMatches<'_>) -> Manner {
    if operands.get_flag(NO_WAIT) {
        Manner::NoWait
    } else {
        Manner::Wait {
            limit: seconds_of(operands, WAIT),
            check: operands.get_flag(CHECK),
            escape: operands.get_flag(ESCAPE),
        }
    }
}

/// The reports that the flags of a word ask for.
fn reports_of(operands: &ArgMatches<'_>) -> Reports {
    if operands.get_flag(QUIET) {
        Reports::Quiet
    } else if operands.get_flag(JSON) {
        Reports::Json
    } else {
        Reports::Text
    }
}

/// The time limit of an option.
pub(crate) fn seconds_of(operands: &ArgMatches<'_>, id: &str) -> Option<Duration> {
    operands.get_one::<u64>(id).map(Duration::from_secs)
}

/// The values of an option that may be repeated, in order.
fn values_of<'m, 'a>(operands: &'m ArgMatches<'a>, id: &str) -> &'m [&'a str] {
    operands.get_strs(id).unwrap_or_default()
}

/// The value of an operand.
pub(crate) fn operand_of<'a>(operands: &ArgMatches<'a>, id: &str) -> &'a str {
    operands.get_str(id).unwrap_or_default()
}

/// What is wrong with what is asked for, if anything is.
fn fault_in<'a>(command: Command<'_>) -> Option<WordFault<'a>> {
    match command {
        Command::Prove(Prove { file, claims, .. }) if are_inputs(file, claims) => {
            Some(WordFault::TwoInputs)
        }
        Command::Compare { old, new } if are_inputs(old, new) => Some(WordFault::TwoInputs),
        Command::Sim { image: "-", .. } => Some(WordFault::ImageInput),
        Command::Send(Send { request, .. }) if request.contains('\n') => Some(WordFault::TwoLines),
        Command::Serve(serve) if replaces_its_own(serve) => Some(WordFault::OwnFile),
        _ => None,
    }
}

/// Whether both of two files are standard input.
fn are_inputs(one: &str, other: &str) -> bool {
    one == "-" && other == "-"
}

/// Whether a daemon's file of facts is its image or its socket.
fn replaces_its_own(serve: Serve<'_>) -> bool {
    match serve.facts {
        Some(facts) => facts == serve.image || facts == serve.socket,
        None => false,
    }
}

/// Puts the definitions of the command line. It fails if a word defines nothing.
fn put_definitions<'a>(
    definitions: &mut Vec<(&'a str, &'a str)>,
    operands: &ArgMatches<'a>,
) -> Result<(), WordFault<'a>> {
    for word in values_of(operands, DEFINITION) {
        let Some(definition) = definition_of(word) else {
            return Err(WordFault::Definition(word));
        };
        definitions.push(definition)?;
    }
    Ok(())
}

/// Puts the links of the command line. It fails if a word says none.
fn put_links<'a>(
    links: &mut Vec<(&'a str, LinkState)>,
    operands: &ArgMatches<'a>,
) -> Result<(), WordFault<'a>> {
    for word in values_of(operands, LINKS) {
        let Some(link) = link_of(word) else {
            return Err(WordFault::Link(word));
        };
        links.push(link)?;
    }
    Ok(())
}
