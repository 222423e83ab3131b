//! The largest inputs. Only an allocation can fail for them. The text has as many tokens, definitions and entries of each table as
//! there may be. The image has full tables.

use crate::checks::{holds, same};
use crate::policies::counted;
use crate::trees::parsed;
use ifs_file_commands::{Answer, answer};
use ifs_lex::tokens;
use ifs_options::Task;
use ifs_policy::{Counts, policy_of};
use ifs_test_images::{
    LARGEST_BYTES, LARGEST_COMPILED, definitions_in, largest_definitions, largest_listing,
    largest_policy,
};
use std::alloc::Global;
use std::process::Abort;
use std::test::Fail;

/// The number of tokens of a text.
fn tokens_in(alloc: Global, text: &str, defs: &[(&str, &str)]) -> Result<usize, Fail> {
    Ok(tokens(alloc, text, defs)?.len())
}

/// The number of items of a text's tree.
fn items_in(alloc: Global, text: &str, defs: &[(&str, &str)]) -> Result<usize, Fail> {
    Ok(parsed(alloc, text, defs)??.items().len())
}

/// The numbers of entries of a text's tables, by one call.
fn counts_in(alloc: Global, text: &str, defs: &[(&str, &str)]) -> Result<Counts, Fail> {
    Ok(policy_of(alloc, text, defs)?.policy.counts())
}

/// Asserts that each table is full.
fn check_counts(rt: &impl Abort, counts: Counts) {
    same(rt, counts.interfaces, 64);
    same(rt, counts.tests, 64);
    same(rt, counts.commands, 1_024);
    same(rt, counts.states, 256);
}

/// Asserts that an answer is good and prints this.
fn check_printed(rt: &impl Abort, answer: &Answer, wanted: &str) {
    let is_wanted = answer.text.as_str() == wanted;
    holds(rt, is_wanted);
    same(rt, answer.status, 0);
}

/// The file of an answer.
fn file_of(answer: Answer) -> Option<Vec<u8>> {
    let Answer {
        status: _status,
        text: _text,
        file,
        fault: _fault,
    } = answer;
    file
}

/// The bytes that a text of assembly spells. There have to be `count`.
fn assembled(rt: &impl Abort, alloc: Global, text: &str, count: usize) -> Result<Vec<u8>, Fail> {
    let answer = answer(alloc, Task::Asm, text.as_bytes(), &[])?;
    let line = format!(in alloc; "ok {count} bytes\n")?;
    check_printed(rt, &answer, line.as_str());
    let bytes = file_of(answer).ok_or("an image")?;
    same(rt, bytes.len(), count);
    Ok(bytes)
}

/// What a word prints of an image.
fn check_image(
    rt: &impl Abort,
    alloc: Global,
    task: Task,
    bytes: &[u8],
    wanted: &str,
) -> Result<(), Fail> {
    let answer = answer(alloc, task, bytes, &[])?;
    check_printed(rt, &answer, wanted);
    Ok(())
}

#[test]
fn the_largest_image(rt: HostRuntime) -> Result<(), Fail> {
    let text = largest_listing(rt.alloc())?;
    let bytes = assembled(&rt, rt.alloc(), text.as_str(), LARGEST_BYTES)?;
    let budgets = "ok stack 32 frames 32 cost 300000 commands 64\n";
    check_image(
        &rt,
        rt.alloc(),
        Task::Disasm,
        bytes.as_slice(),
        text.as_str(),
    )?;
    check_image(&rt, rt.alloc(), Task::Verify, bytes.as_slice(), budgets)
}

/// What `check` and `compile` print of a text, and how long its image is.
fn check_answers(
    rt: &impl Abort,
    alloc: Global,
    text: &[u8],
    defs: &[(&str, &str)],
) -> Result<(), Fail> {
    let checked = answer(alloc, Task::Check, text, defs)?;
    let counts = "ok 64 interfaces 64 tests 1024 commands 256 states\n";
    check_printed(rt, &checked, counts);
    let compiled = answer(alloc, Task::Compile, text, defs)?;
    let line = format!(in alloc; "ok {LARGEST_COMPILED} bytes\n")?;
    check_printed(rt, &compiled, line.as_str());
    let image = file_of(compiled).ok_or("an image")?;
    same(rt, image.len(), LARGEST_COMPILED);
    Ok(())
}

fn check_text(
    rt: &impl Abort,
    alloc: Global,
    text: &str,
    defs: &[(&str, &str)],
) -> Result<(), Fail> {
    same(rt, text.len(), 1_048_576);
    same(rt, defs.len(), 256);
    // the last token is the end
    same(rt, tokens_in(alloc, text, defs)?, 16_385);
    same(rt, items_in(alloc, text, defs)?, 416);
    check_counts(rt, counted(alloc, text, defs)??);
    check_counts(rt, counts_in(alloc, text, defs)?);
    check_answers(rt, alloc, text.as_bytes(), defs)
}

#[test]
fn the_largest_text(rt: HostRuntime) -> Result<(), Fail> {
    let text = largest_policy(rt.alloc())?;
    let lines = largest_definitions(rt.alloc())?;
    let defs = definitions_in(rt.alloc(), lines.as_str())?;
    check_text(&rt, rt.alloc(), text.as_str(), defs.as_slice())
}
