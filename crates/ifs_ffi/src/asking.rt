//! Questions whose replies are lines of JSON.

ghost use Rattle.std.specs.Prelude.{◌≡◌, ◌≢◌, ◌≤◌, ◌<◌, length};
ghost use Rattle.ifs_ffi.specs.Definitions.{AreDefinitions};

use crate::buffers::fill;
use crate::definitions::definitions_of;
use crate::status::{GOOD, OUT_OF_MEMORY, REFUSED};
use ifs_base::LinkState;
use ifs_options::Task;
use ifs_report::{Source, json};
use ifs_reporting::{
    Form, compile_policy, differences_between, findings_on, reports_in_json, verdicts_on,
};
use std::alloc::{AllocError, Global};

/// The name of an input in reports.
const INPUT: &str = "input";

/// The name of the claims in reports.
const CLAIMS: &str = "claims";

/// The name of the new policy in differences.
const NEW: &str = "new";

/// What is asked of an input.
#[derive(Clone, Copy)]
pub(crate) enum Question<'a> {
    /// The reports of a task.
    Reports(Task),
    /// The findings on a policy.
    Findings,
    /// The verdicts on claims on a policy.
    Verdicts {
        claims: &'a [u8],
    },
    /// What differs between a policy and a new one, and what the opening of the new one runs if these links are known.
    Differences {
        new_policy: &'a [u8],
        links: &'a [(&'a str, LinkState)],
    },
}

/// The reply to a question.
#[derive(Drop)]
enum Reply {
    /// Its lines.
    Lines(String),
    /// An input is refused. The lines are the report on it.
    Refused(String),
}

/// Writes the reply to a question on an input to the front of a buffer, sets `size` to its length, and returns the status.
pub(crate) fn write_reply(
    alloc: Global,
    question: Question<'_>,
    input: &[u8],
    definitions: &[u8],
    buffer: &mut [u8],
    size: &mut usize,
) -> u32
    ensures status { (result ≤ 5) × (result ≢ 4) }
    ensures fits { result ≤ 1 → size.new ≤ length buffer.new }
    ensures short { result ≡ 3 → length buffer.new < size.new }
    ensures no_definitions { result ≡ 5 → ¬ AreDefinitions definitions.now }
{
    let defs = match definitions_of(alloc, definitions) {
        Ok(defs) => defs,
        Err(fault) => return fault.status(),
    };
    let source = Source {
        name: INPUT,
        text: input,
        lines_before: 0,
        definitions: defs.as_slice(),
    };
    match reply_to(alloc, question, source) {
        Ok(Reply::Lines(lines)) => fill(lines.as_bytes(), buffer, size),
        Ok(Reply::Refused(lines)) => {
            let status = fill(lines.as_bytes(), buffer, size);
            if status == GOOD { REFUSED } else { status }
        }
        Err(AllocError) => OUT_OF_MEMORY,
    }
}

/// The reply to a question on an input.
fn reply_to(
    alloc: Global,
    question: Question<'_>,
    source: Source<'_>,
) -> Result<Reply, AllocError> {
    match question {
        Question::Reports(task) => Ok(Reply::Lines(reports_in_json(alloc, task, source)?)),
        Question::Findings => findings(alloc, source),
        Question::Verdicts { claims } => {
            let claims = Source {
                name: CLAIMS,
                text: claims,
                lines_before: 0,
                definitions: source.definitions,
            };
            verdicts(alloc, source, claims)
        }
        Question::Differences { new_policy, links } => {
            let new = Source {
                name: NEW,
                text: new_policy,
                lines_before: 0,
                definitions: source.definitions,
            };
            differences(alloc, source, new, links)
        }
    }
}

/// The findings on a policy.
fn findings(alloc: Global, source: Source<'_>) -> Result<Reply, AllocError> {
    match findings_on(alloc, source, Form::Json)? {
        Some(analysis) => Ok(Reply::Lines(analysis.lines)),
        None => refused(alloc, Task::Check, source),
    }
}

/// The verdicts on claims on a policy.
fn verdicts(alloc: Global, source: Source<'_>, claims: Source<'_>) -> Result<Reply, AllocError> {
    let Some(compiled) = compile_policy(alloc, source)? else {
        return refused(alloc, Task::Compile, source);
    };
    match verdicts_on(alloc, &compiled, claims, None, Form::Json)? {
        Ok(analysis) => Ok(Reply::Lines(analysis.lines)),
        Err(report) => Ok(Reply::Refused(json(alloc, &report, claims)?)),
    }
}

/// What differs between two policies, and how much.
fn differences(
    alloc: Global,
    old: Source<'_>,
    new: Source<'_>,
    links: &[(&str, LinkState)],
) -> Result<Reply, AllocError> {
    let Some(old_policy) = compile_policy(alloc, old)? else {
        return refused(alloc, Task::Compile, old);
    };
    let Some(new_policy) = compile_policy(alloc, new)? else {
        return refused(alloc, Task::Compile, new);
    };
    let analysis = differences_between(alloc, &old_policy, &new_policy, links, Form::Json)?;
    Ok(Reply::Lines(analysis.into_text()?))
}

/// The reply to a policy that a task refuses.
fn refused(alloc: Global, task: Task, source: Source<'_>) -> Result<Reply, AllocError> {
    Ok(Reply::Refused(reports_in_json(alloc, task, source)?))
}
