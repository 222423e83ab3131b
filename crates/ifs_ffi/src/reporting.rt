//! Functions whose results are lines of JSON.

ghost use Rattle.std.specs.Prelude.{◌≡◌, ◌≢◌, ◌≤◌, ◌<◌, length};
ghost use Rattle.ifs_options.specs.declared.task.Task.{Task};
ghost use Rattle.ifs_ffi.specs.Definitions.{AreDefinitions};
ghost use Rattle.ifs_ffi.specs.Words.{number_of};

use crate::asking::{Question, write_reply};
use crate::links::links_of;
use crate::status::NO_WORD;
use crate::words::task_of;
use std::alloc::Global;

/// Gives the reports of a word on an input: what is wrong with it or looks wrong in it, where, and what would mend it. They are
/// JSON objects, one on a line. The words and the statuses are those of `ifs_page_answer`, except that 0 says that the reports
/// are written, whether or not the input is valid. `size` is set to the length of the reports.
#[unsafe(no_mangle)]
pub extern "C" fn ifs_page_reports(
    alloc: Global,
    word: u32,
    input: &[u8],
    definitions: &[u8],
    reports: &mut [u8],
    size: &mut usize,
) -> u32
    ensures status { result ≤ 5 }
    ensures fits { result ≡ 0 → size.new ≤ length reports.new }
    ensures short { result ≡ 3 → length reports.new < size.new }
    ensures no_word { result ≡ 4 → (task : Task) → number_of task ≢ word }
    ensures no_definitions { result ≡ 5 → ¬ AreDefinitions definitions.now }
{
    let Some(task) = task_of(word) else {
        return NO_WORD;
    };
    let question = Question::Reports(task);
    write_reply(alloc, question, input, definitions, reports, size)
}

/// Gives the findings of `lint` on a policy, as JSON objects, one on a line.
///
/// Statuses: 0 the findings are written, 1 the input is no policy, 2 an allocation failed, 3 the buffer is too short, 5 the
/// definitions are not `NAME=VALUE`, each with a NUL behind it. `size` is set to the length of the findings.
#[unsafe(no_mangle)]
pub extern "C" fn ifs_page_findings(
    alloc: Global,
    input: &[u8],
    definitions: &[u8],
    findings: &mut [u8],
    size: &mut usize,
) -> u32
    ensures status { result ≤ 5 }
    ensures fits { result ≡ 0 → size.new ≤ length findings.new }
    ensures short { result ≡ 3 → length findings.new < size.new }
    ensures no_definitions { result ≡ 5 → ¬ AreDefinitions definitions.now }
{
    let question = Question::Findings;
    write_reply(alloc, question, input, definitions, findings, size)
}

/// Gives the verdicts of `prove` on claims on a policy, as JSON objects, one on a line.
///
/// Statuses: 0 the verdicts are written, 1 the policy does not compile, or the claims are refused, and then the report on them is
/// written, 2 an allocation failed, 3 the buffer is too short, 5 the definitions are not `NAME=VALUE`, each with a NUL behind it.
/// `size` is set to the length of the verdicts.
#[unsafe(no_mangle)]
pub extern "C" fn ifs_page_verdicts(
    alloc: Global,
    input: &[u8],
    claims: &[u8],
    definitions: &[u8],
    verdicts: &mut [u8],
    size: &mut usize,
) -> u32
    ensures status { result ≤ 5 }
    ensures fits { result ≤ 1 → size.new ≤ length verdicts.new }
    ensures short { result ≡ 3 → length verdicts.new < size.new }
    ensures no_definitions { result ≡ 5 → ¬ AreDefinitions definitions.now }
{
    let question = Question::Verdicts { claims };
    write_reply(alloc, question, input, definitions, verdicts, size)
}

/// Gives what `compare` prints of two policies, as JSON objects, one on a line: the differences, then the commands that the opening
/// of the new policy runs if there are links, and then how many differences there are.
///
/// Statuses: 0 the differences are written, 1 a policy does not compile, 2 an allocation failed, 3 the buffer is too short, 5 the
/// definitions are not `NAME=VALUE`, each with a NUL behind it, 7 the links are not `NAME STATE`, each with a NUL behind it. `size`
/// is set to the length of the differences.
#[unsafe(no_mangle)]
pub extern "C" fn ifs_page_differences(
    alloc: Global,
    old_policy: &[u8],
    new_policy: &[u8],
    definitions: &[u8],
    links: &[u8],
    differences: &mut [u8],
    size: &mut usize,
) -> u32
    ensures status { result ≤ 7 }
    ensures fits { result ≤ 1 → size.new ≤ length differences.new }
    ensures short { result ≡ 3 → length differences.new < size.new }
    ensures no_definitions { result ≡ 5 → ¬ AreDefinitions definitions.now }
{
    let links = match links_of(alloc, links) {
        Ok(links) => links,
        Err(status) => return status,
    };
    let question = Question::Differences {
        new_policy,
        links: links.as_slice(),
    };
    write_reply(alloc, question, old_policy, definitions, differences, size)
}
