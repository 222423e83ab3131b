//! The answers of `check` and `graph`.

ghost use Rattle.std.specs.Prelude.{◌≡◌, ◌≢◌, ◌≤◌, ◌++◌, ◌⊎◌, None, Some, string_bytes, IfOk, IfErr};
ghost use Rattle.std.specs.Str.{IsUtf8};
ghost use Rattle.ifs_file_commands.specs.Answers.{ArePolicy, IsNoText, Tells, TellsNoText, TellsPolicy};
ghost use Rattle.ifs_file_commands.specs.Faults.{no_text_words};
ghost use Rattle.ifs_policy.specs.FaultWords.{policy_fault_words};
ghost use Rattle.ifs_policy.specs.Texts.{IsTextRefused};
ghost use Rattle.ifs_file_commands.specs.declared.checking.Shown.TheVariants.{Counts};
ghost use Rattle.ifs_file_commands.specs.Lines.{note_lines, counts_line};
ghost use Rattle.ifs_lex.specs.Expansion.{defined_by};

use crate::graphing::picture_of;
use crate::lines::{of_notes, put_counts};
use crate::task::Answer;
use ifs_gen::CompileFault;
use ifs_policy::{PolicyFault, PolicyText, policy_of};
use std::alloc::{AllocError, Global};
use std::fmt::{self, Display, Formatter, Write};
use std::str::from_utf8;

/// P1: the line, from 1, of the first byte that is not UTF-8.
#[derive(Clone, Copy)]
pub struct NotText {
    pub line: usize,
}

impl Display for NotText {
    ghost output = { λ fault. Some (no_text_words fault.line) };

    fn fmt<W: Write>(&self, f: &mut Formatter<W>) -> fmt::Result {
        let line = self.line;
        write!(f, "P1 line {line}")
    }
}

/// The text of these bytes, or the line of the first byte that is not UTF-8.
#[tactic(auto, using(crate::proofs::Texts::not_utf8))]
pub fn text_of(bytes: &[u8]) -> Result<&str, NotText>
    ensures text { IfOk result (λ text. (text.now ≡ bytes.now) × IsUtf8 bytes.now) }
    ensures none { IfErr result (λ _. ¬ IsUtf8 bytes.now) }
    ensures line { IfErr result (λ fault. IsNoText bytes.now fault.line) }
{
    match from_utf8(bytes) {
        Ok(text) => Ok(text),
        Err(error) => {
            let (good, _rest) = bytes.split_at(error.valid_up_to());
            let newlines = good.iter().filter(|byte| **byte == b'\n').count();
            Err(NotText { line: 1 + newlines })
        }
    }
}

/// What is printed of a policy.
#[derive(Clone, Copy)]
pub enum Shown {
    /// Its notes, and the numbers of its names.
    Counts,
    /// Its states, as a picture in the language of graphviz.
    Picture,
}

/// The answer of `check` and of `graph`: what is printed of a policy, or why the bytes are not a policy.
#[tactic(auto, using(crate::proofs::Texts::no_policy))]
pub fn show(
    alloc: Global,
    shown: Shown,
    bytes: &[u8],
    defs: &[(&str, &str)],
) -> Result<Answer, AllocError>
    ensures status { IfOk result (λ answer. answer.status ≤ 1) }
    ensures good { IfOk result (λ answer. answer.status ≡ 0 → ArePolicy bytes.now (defined_by defs.now)) }
    ensures refused { IfOk result (λ answer. answer.status ≢ 0 → ¬ ArePolicy bytes.now (defined_by defs.now)) }
    ensures counts { shown ≡ Counts → IfOk result (λ answer. answer.status ≡ 0 → TellsPolicy bytes.now (defined_by defs.now) (string_bytes answer.text)) }
    ensures told { IfOk result (λ answer. answer.status ≢ 0 → TellsNoText bytes.now (string_bytes answer.text)
        ⊎ Tells policy_fault_words (IsTextRefused bytes.now (defined_by defs.now)) (string_bytes answer.text)) }
    ensures file { IfOk result (λ answer. answer.file ≡ None) }
{
    let text = match text_of(bytes) {
        Ok(text) => text,
        Err(fault) => return Answer::refused(alloc, fault),
    };
    match policy_of(alloc, text, defs) {
        Ok(found) => answered(alloc, shown, text, defs, found),
        Err(PolicyFault::Memory) => Err(AllocError),
        Err(fault) => Answer::refused_policy(alloc, CompileFault::Text(fault)),
    }
}

/// The answer to a policy.
fn answered(
    alloc: Global,
    shown: Shown,
    text: &str,
    defs: &[(&str, &str)],
    found: PolicyText,
) -> Result<Answer, AllocError>
    ensures good { IfOk result (λ answer. (answer.status ≡ 0) × (answer.file ≡ None)) }
    ensures counts { shown ≡ Counts → IfOk result (λ answer. string_bytes answer.text ≡ note_lines found.tree.notes ++ counts_line found.policy.tables) }
{
    Answer::printed(shown_text(alloc, shown, text, defs, &found))
}

/// What is printed of a policy.
fn shown_text(
    alloc: Global,
    shown: Shown,
    text: &str,
    defs: &[(&str, &str)],
    found: &PolicyText,
) -> Result<String, AllocError>
    ensures { shown ≡ Counts → IfOk result (λ lines. string_bytes lines ≡ note_lines found.now.tree.notes ++ counts_line found.now.policy.tables) }
{
    match shown {
        Shown::Counts => counts_of(alloc, found),
        Shown::Picture => picture_of(alloc, text, defs, &found.policy),
    }
}

/// The notes on a policy and the numbers of its names.
fn counts_of(alloc: Global, found: &PolicyText) -> Result<String, AllocError>
    ensures { IfOk result (λ lines. string_bytes lines ≡ note_lines found.now.tree.notes ++ counts_line found.now.policy.tables) }
{
    let mut lines = of_notes(alloc, found.tree.notes())?;
    put_counts(&mut lines, &found.policy)?;
    Ok(lines)
}
