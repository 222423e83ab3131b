//! Analyses of policies: `lint`, `prove` and `compare`.

use crate::jobs::{Beside, Job};
use crate::outcome::Outcome;
use ifs_base::{FaultPlace, FaultText, LinkState};
use ifs_command_line::Prove;
use ifs_host::failure::Failure;
use ifs_host::files::FileFault;
use ifs_host::reporting::{is_coloured, write_report};
use ifs_host::standard_output::StandardOutput;
use ifs_options::{Reports, Task};
use ifs_report::{Place, Report, Source, json, position};
use ifs_reporting::{
    Analysis, CompiledFile, Conclusion, Form, compile_policy, differences_between, findings_on,
    link_of_neither, reports_in_json, verdicts_on,
};
use ifs_terminal::Escaped;
use std::alloc::AllocError;
use std::io::{IsTerminal, Write};

/// The code of a failed allocation.
const OUT_OF_MEMORY: &str = "P0";

/// The JSON object for a failed allocation.
const NO_MEMORY: &str =
    "{\"file\":\"\",\"severity\":\"error\",\"code\":\"P0\",\"message\":\"memory ran out\",\"expected\":[],\"related\":[]}\n";

/// Prints the findings on the policy of a file, each on a line, and how many questions were asked. For a file that is no policy, the
/// same is printed as by `check`. With `is_strict` a warning, or a question that is not decided, is a refusal.
pub fn lint<'a>(
    rt: &HostRuntime,
    file: &'a str,
    is_strict: bool,
    beside: Beside<'_>,
) -> Result<Outcome, Failure<'a>> {
    let job = Job::reading(Task::Check, file);
    let input = read(rt, job, beside.reports)?;
    let source = beside.source(file, input.as_slice());
    match findings_on(rt.alloc(), source, form_of(rt, beside.reports)) {
        Ok(Some(analysis)) => {
            print(rt, &analysis)?;
            if is_strict {
                outcome_of(analysis.conclusion)
            } else {
                Ok(Outcome::Decided)
            }
        }
        Ok(None) => Err(refuse(rt, job, input.as_slice(), beside)),
        Err(AllocError) => Err(out_of_memory(rt, beside.reports)),
    }
}

/// Reads the bytes of a file. If an allocation fails, prints what says so.
fn read<'a>(rt: &HostRuntime, job: Job<'a>, reports: Reports) -> Result<Vec<u8>, Failure<'a>> {
    match job.bytes(rt) {
        Ok(input) => Ok(input),
        Err(FileFault::Memory) => Err(out_of_memory(rt, reports)),
        Err(fault) => Err(Failure::File {
            path: job.name(),
            fault,
        }),
    }
}

/// Prints the refusal of a policy: the line of its word and then the report on it, or the report alone as a JSON object.
fn refuse<'a>(rt: &HostRuntime, job: Job<'a>, input: &[u8], beside: Beside<'_>) -> Failure<'a> {
    if beside.reports != Reports::Json {
        return job.refuse(rt, input, beside);
    }
    match reports_in_json(rt.alloc(), job.task, beside.source(job.file, input)) {
        Ok(objects) => refused_with(rt, objects.as_str()),
        Err(AllocError) => out_of_memory(rt, beside.reports),
    }
}

/// The failure after the objects of a refusal are printed.
fn refused_with<'a>(rt: &HostRuntime, objects: &str) -> Failure<'a> {
    match StandardOutput::new(rt).write_all(objects.as_bytes()) {
        Ok(()) => Failure::Refused,
        Err(error) => Failure::Output(error),
    }
}

/// The failure after the line that says that memory ran out, or the JSON object.
fn out_of_memory<'a>(rt: &HostRuntime, reports: Reports) -> Failure<'a> {
    match reports {
        Reports::Json => refused_with(rt, NO_MEMORY),
        Reports::Text | Reports::Quiet => Failure::out_of_memory(rt, OUT_OF_MEMORY),
    }
}

/// Prints a line for each claim of a file on a policy. With the number of a line, prints only the request lines that break the
/// claim there. Of a file that does not compile, the same is printed as by `compile`.
pub fn prove<'a>(
    rt: &HostRuntime,
    asked: Prove<'a>,
    beside: Beside<'_>,
) -> Result<Outcome, Failure<'a>> {
    let job = Job::reading(Task::Compile, asked.file);
    let input = read(rt, job, beside.reports)?;
    match compile_policy(rt.alloc(), beside.source(asked.file, input.as_slice())) {
        Ok(Some(compiled)) => prove_claims(rt, asked, beside, &compiled),
        Ok(None) => Err(refuse(rt, job, input.as_slice(), beside)),
        Err(AllocError) => Err(out_of_memory(rt, beside.reports)),
    }
}

/// Reads the claims, and prints the verdicts on them.
fn prove_claims<'a>(
    rt: &HostRuntime,
    asked: Prove<'a>,
    beside: Beside<'_>,
    compiled: &CompiledFile<'_>,
) -> Result<Outcome, Failure<'a>> {
    let job = Job::reading(Task::Compile, asked.claims);
    let input = read(rt, job, beside.reports)?;
    let source = beside.source(asked.claims, input.as_slice());
    let form = form_of(rt, beside.reports);
    match verdicts_on(rt.alloc(), compiled, source, asked.requests, form) {
        Ok(Ok(analysis)) if analysis.conclusion == Conclusion::NoClaim => {
            Err(refuse_line(rt, asked.requests.unwrap_or(0)))
        }
        Ok(Ok(analysis)) => {
            print(rt, &analysis)?;
            outcome_of(analysis.conclusion)
        }
        Ok(Err(report)) => Err(refuse_claims(rt, &report, source, beside.reports)),
        Err(AllocError) => Err(out_of_memory(rt, beside.reports)),
    }
}

/// The failure after a message that no claim is on the line that was asked for.
fn refuse_line<'a>(rt: &HostRuntime, line: u64) -> Failure<'a> {
    // if standard error fails too, only the status is left
    let _written = eprintln!(rt;
        "error: invalid value '{line}' for '--requests <LINE>': no claim is on this line"
    );
    Failure::CommandLine
}

/// Prints the line of a refused file of claims, and then writes the report on it.
fn refuse_claims<'a>(
    rt: &HostRuntime,
    report: &Report,
    source: Source<'_>,
    reports: Reports,
) -> Failure<'a> {
    let place = match report.place {
        Place::Text(part) => FaultPlace::Line(position(source.text, part.start).line as u64),
        Place::Definition(..) => FaultPlace::Line(0),
        Place::File => FaultPlace::Nowhere,
    };
    let code = report.code;
    if reports == Reports::Json {
        return refuse_in_json(rt, report, source);
    }
    let failure = Failure::of_refusal(rt, FaultText { code, place });
    if let Failure::Refused = failure {
        write_report(rt, reports, report, source);
    }
    failure
}

/// Prints the report on refused claims as a JSON object.
fn refuse_in_json<'a>(rt: &HostRuntime, report: &Report, source: Source<'_>) -> Failure<'a> {
    match json(rt.alloc(), report, source) {
        Ok(object) => refused_with(rt, object.as_str()),
        Err(AllocError) => out_of_memory(rt, Reports::Json),
    }
}

/// Two files, and the links that a daemon knows.
#[derive(Clone, Copy)]
pub struct Pair<'a> {
    pub old: &'a str,
    pub new: &'a str,
    pub links: &'a [(&'a str, LinkState)],
}

/// Prints each difference between the policies of two files on a line, with request lines that show it. With links it also prints
/// the commands that the opening of the new policy runs. Of a file that does not compile, the same is printed as by `compile`.
pub fn compare<'a>(
    rt: &HostRuntime,
    asked: Pair<'a>,
    beside: Beside<'_>,
) -> Result<Outcome, Failure<'a>> {
    let old_job = Job::reading(Task::Compile, asked.old);
    let new_job = Job::reading(Task::Compile, asked.new);
    let old_input = read(rt, old_job, beside.reports)?;
    let new_input = read(rt, new_job, beside.reports)?;
    let (old_input, new_input) = (old_input.as_slice(), new_input.as_slice());
    let old = compile_policy(rt.alloc(), beside.source(asked.old, old_input));
    let new = compile_policy(rt.alloc(), beside.source(asked.new, new_input));
    match (old, new) {
        (Ok(Some(old)), Ok(Some(new))) => compare_policies(rt, asked, beside, &old, &new),
        (Ok(None), _) => Err(refuse(rt, old_job, old_input, beside)),
        (Ok(Some(_old)), Ok(None)) => Err(refuse(rt, new_job, new_input, beside)),
        _ => Err(out_of_memory(rt, beside.reports)),
    }
}

/// Prints the differences between two policies.
fn compare_policies<'a>(
    rt: &HostRuntime,
    asked: Pair<'_>,
    beside: Beside<'_>,
    old: &CompiledFile<'_>,
    new: &CompiledFile<'_>,
) -> Result<Outcome, Failure<'a>> {
    if let Some(name) = link_of_neither(old, new, asked.links) {
        return Err(refuse_link(rt, name));
    }
    let form = form_of(rt, beside.reports);
    match differences_between(rt.alloc(), old, new, asked.links, form) {
        Ok(analysis) => {
            print(rt, &analysis)?;
            outcome_of(analysis.conclusion)
        }
        Err(AllocError) => Err(out_of_memory(rt, beside.reports)),
    }
}

/// The failure after a message that neither policy names the interface of a link.
fn refuse_link<'a>(rt: &HostRuntime, name: &str) -> Failure<'a> {
    // if standard error fails too, only the status is left
    let _written = eprintln!(rt;
        "error: invalid value for '--links <NAME STATE>': neither policy names the interface '{}'",
        Escaped(name.as_bytes())
    );
    Failure::CommandLine
}

/// The form in which an analysis is printed: at a terminal with lines of the file, unless only the answer is wanted.
fn form_of(rt: &HostRuntime, reports: Reports) -> Form {
    match reports {
        Reports::Json => Form::Json,
        Reports::Text if rt.stdout().is_terminal() => Form::Excerpts {
            is_coloured: is_coloured(rt, true),
        },
        Reports::Text | Reports::Quiet => Form::Text,
    }
}

/// Prints an analysis.
fn print<'a>(rt: &HostRuntime, analysis: &Analysis) -> Result<(), Failure<'a>> {
    let mut output = StandardOutput::new(rt);
    output.write_all(analysis.lines.as_bytes())?;
    output.write_all(analysis.counts.as_bytes())?;
    Ok(())
}

/// How a word ends whose status says what was found.
fn outcome_of<'a>(conclusion: Conclusion) -> Result<Outcome, Failure<'a>> {
    match conclusion {
        Conclusion::Good => Ok(Outcome::Decided),
        Conclusion::Defect => Err(Failure::Refused),
        Conclusion::Undecided => Ok(Outcome::Undecided),
        Conclusion::NoClaim => Err(Failure::CommandLine),
    }
}
