//! Expectations of policies and assembly texts, and what holds for each.

use crate::comparing::Trial;
use crate::given::Given;
use crate::images::check_made;
use anyhow::Result;
use ifs_file_commands::{Answer, answer};
use ifs_options::Task;
use ifs_test_images::definitions_in;
use std::{io, str};

/// Whether a policy, its image and the session on it are as expected.
pub fn is_policy(trial: Trial<'_>, given: &Given) -> Result<bool> {
    let lines = str::from_utf8(given.definitions.as_slice())?;
    let definitions = definitions_in(trial.alloc(), lines)?;
    is_source(trial, given.text.as_slice(), definitions.as_slice())
}

/// The same of a policy's text with its definitions.
fn is_source(trial: Trial<'_>, text: &[u8], definitions: &[(&str, &str)]) -> Result<bool> {
    let checked = answer(trial.alloc(), Task::Check, text, definitions)?;
    let pictured = answer(trial.alloc(), Task::Graph, text, definitions)?;
    let compiled = answer(trial.alloc(), Task::Compile, text, definitions)?;
    are_told(trial, &checked, &pictured, &compiled)
}

/// Whether the answers of `check`, `graph` and `compile` on a policy are as expected.
fn are_told(
    trial: Trial<'_>,
    checked: &Answer,
    pictured: &Answer,
    compiled: &Answer,
) -> Result<bool> {
    let is_checked = trial.expected("check", checked)?;
    let is_pictured = is_pictured(trial, checked, pictured)?;
    let is_compiled = is_compiled(trial, checked, compiled)?;
    Ok(is_checked && is_pictured && is_compiled)
}

/// Whether a picture is as expected. If `check` refuses the policy, `graph` prints the same line.
fn is_pictured(trial: Trial<'_>, checked: &Answer, pictured: &Answer) -> io::Result<bool> {
    let is_told = trial.expected("graph", pictured)?;
    let agrees = checked.status == 0 || is_same(trial, "graph", checked, pictured)?;
    Ok(is_told && agrees)
}

/// Whether what is compiled is as expected. If `check` refuses the policy, `compile` prints the same line. If not, it prints the
/// notes first.
fn is_compiled(trial: Trial<'_>, checked: &Answer, compiled: &Answer) -> Result<bool> {
    let is_told = check_made(trial, "compile", compiled)?;
    let agrees = if checked.status == 0 {
        is_made(trial, "compile", compiled, notes_in(checked.text.as_str()))?
    } else {
        is_same(trial, "compile", checked, compiled)?
    };
    Ok(is_told && agrees)
}

/// Whether the answer of a word has the text of `check`.
fn is_same(trial: Trial<'_>, word: &str, checked: &Answer, answer: &Answer) -> io::Result<bool> {
    trial.same(word, answer.text.as_bytes(), checked.text.as_bytes())
}

/// The notes that `check` prints of a policy: all before its last line.
fn notes_in(lines: &str) -> &str {
    match lines.find("ok ") {
        Some(end) => &lines[..end],
        None => "",
    }
}

/// Whether an assembly text and its image are as expected.
pub fn is_assembly(trial: Trial<'_>, given: &Given) -> Result<bool> {
    let assembled = answer(trial.alloc(), Task::Asm, given.text.as_slice(), &[])?;
    is_assembled(trial, &assembled)
}

/// Whether what is assembled is as expected.
fn is_assembled(trial: Trial<'_>, assembled: &Answer) -> Result<bool> {
    let is_told = check_made(trial, "asm", assembled)?;
    let is_made = is_made(trial, "asm", assembled, "")?;
    Ok(is_told && is_made)
}

/// Whether a word makes an image, and prints these notes and then its length. If not, the case has to expect its refusal.
fn is_made(trial: Trial<'_>, word: &str, made: &Answer, notes: &str) -> io::Result<bool> {
    let is_so = made.file.is_some() || trial.case.has_section(word);
    let is_so = trial.holds(word, is_so, "no image")?;
    let is_told = trial.tells_length(word, made, notes)?;
    Ok(is_so && is_told)
}
