//! `ifsvm`: checks, draws and compiles failover policies, and verifies, prints and runs their images.
//!
//! Without words it reads an image as a line of hexadecimal digits and then request lines from standard input, and writes
//! the replies to standard output; on a terminal it prints the help. Exit statuses: 0 done, 1 refused input, 2 wrong command line. Status 3 is a file, stream
//! or socket that failed, a file that is too large, no reply, or a shell that does not run. Status 4 is a question of `prove` or
//! `compare` that is not decided. `status --nagios` has the statuses of Nagios.
#![tactic(auto)]

mod analyses;
mod daemons;
mod jobs;
mod outcome;
mod status;
mod times;

use analyses::{Pair, compare, lint, prove};
use ifs_command_line::{Command, CommandLineExit, Request, parse, read_words};
use ifs_host::facts_helper::{file_to_keep, keep_facts};
use ifs_host::failure::Failure;
use ifs_host::standard_streams::{NULL, open_closed};
use ifs_host::{serving, sessions};
use jobs::{Beside, Job};
use outcome::Outcome;
use std::alloc::Global;
use std::io::IsTerminal;
use std::process::ExitCode;

/// The word that asks for the help.
const HELP: &str = "--help";

fn main(rt: HostRuntime) -> ExitCode {
    if let Err(error) = open_closed(&rt) {
        return Failure::of_system(NULL, error).report(&rt);
    }
    match asked_words(&rt) {
        Ok(words) => run_words(&rt, words.as_slice()),
        Err(exit) => status_of(&rt, exit),
    }
}

/// The words of the command line. Without words a person who types at a terminal gets the help.
fn asked_words(rt: &HostRuntime) -> Result<Vec<String>, CommandLineExit> {
    let mut words = read_words(rt)?;
    if words.len() == 1 && rt.stdin().is_terminal() {
        add_help(rt.alloc(), &mut words);
    }
    Ok(words)
}

/// Adds the word that asks for the help. Without memory for it, a session begins.
fn add_help(alloc: Global, words: &mut Vec<String>) {
    if let Ok(word) = String::from_str(alloc, HELP) {
        let _added = words.push(word);
    }
}

/// Does what these words ask for, and returns the exit status. A daemon starts its helper by other words.
fn run_words(rt: &HostRuntime, words: &[String]) -> ExitCode {
    match file_to_keep(words) {
        Some(path) => keep(rt, path),
        None => run_parsed(rt, words),
    }
}

/// Keeps the facts of a daemon in a file. The daemon notices if that fails.
fn keep(rt: &HostRuntime, path: &str) -> ExitCode {
    match keep_facts(rt, path) {
        Ok(()) => ExitCode::SUCCESS,
        Err(_error) => ExitCode::FAILURE,
    }
}

/// Does what the words of a user ask for, and returns the exit status.
fn run_parsed(rt: &HostRuntime, words: &[String]) -> ExitCode {
    match parse(rt, words) {
        Ok(request) => run_request(rt, &request),
        Err(exit) => status_of(rt, exit),
    }
}

/// Does what a request asks for, and returns the exit status.
fn run_request(rt: &HostRuntime, request: &Request<'_>) -> ExitCode {
    let beside = Beside {
        definitions: request.definitions.as_slice(),
        reports: request.reports,
    };
    match run_command(rt, request, beside) {
        Ok(outcome) => outcome.status(),
        Err(failure) => failure.report(rt),
    }
}

/// The exit status if the program ends at its command line.
fn status_of(rt: &HostRuntime, exit: CommandLineExit) -> ExitCode {
    match exit {
        CommandLineExit::Printed => ExitCode::SUCCESS,
        CommandLineExit::Wrong => Failure::CommandLine.report(rt),
        CommandLineExit::Output(error) => Failure::Output(error).report(rt),
    }
}

/// Runs the command of a request.
fn run_command<'a>(
    rt: &HostRuntime,
    request: &'a Request<'a>,
    beside: Beside<'_>,
) -> Result<Outcome, Failure<'a>> {
    match request.command {
        Command::OnFile { task, file, image } => Job { task, file, image }.run(rt, beside)?,
        Command::Lint { file, is_strict } => return lint(rt, file, is_strict, beside),
        Command::Prove(asked) => return prove(rt, asked, beside),
        Command::Compare { old, new } => {
            let links = request.links.as_slice();
            return compare(rt, Pair { old, new, links }, beside);
        }
        Command::Session => sessions::by_hexadecimal(rt)?,
        Command::Sim { image, lines } => sessions::on_file(rt, image, lines, beside.reports)?,
        Command::Serve(options) => serving::serve(rt, options)?,
        Command::Send(asked) => daemons::send(rt, asked)?,
        Command::Explain(asked) => daemons::explain(rt, asked)?,
        Command::Status { file, form } => return status::status(rt, file, form, request),
    }
    Ok(Outcome::Decided)
}
