//! The answer of `compile`.

ghost use Rattle.std.specs.Prelude.{◌≡◌, ◌≢◌, ◌≤◌, ◌++◌, ◌⊎◌, length, None, Some, Ok, option_map, string_bytes};
ghost use Rattle.std.specs.Prelude.{IsSomeAnd, IfOk};
ghost use Rattle.ifs_gen.specs.Compiled.{IsCompiled, IsCompileRefusal};
ghost use Rattle.ifs_gen.specs.declared.compile_fault.CompileFault.TheVariants.{Memory};
ghost use Rattle.ifs_file_commands.specs.Answers.{AreCompiled, Tells, TellsCompiled, TellsNoText};
ghost use Rattle.ifs_gen.specs.FaultWords.{compile_fault_words};
ghost use Rattle.ifs_file_commands.specs.Lines.{note_lines, size_line};
ghost use Rattle.ifs_lex.specs.Expansion.{defined_by};

use crate::checking::text_of;
use crate::lines::{of_notes, put_size};
use crate::task::Answer;
use ifs_gen::{CompileFault, CompiledText, compile_with_notes};
use ifs_parse::Tree;
use std::alloc::{AllocError, Global};

/// The answer of `compile`: the notes on a policy and the length of its image, which is the file.
pub fn compile(alloc: Global, bytes: &[u8], defs: &[(&str, &str)]) -> Result<Answer, AllocError>
    ensures status { IfOk result (λ answer. answer.status ≤ 1) }
    ensures good { IfOk result (λ answer. answer.status ≡ 0 → AreCompiled bytes.now (defined_by defs.now)) }
    ensures refused { IfOk result (λ answer. answer.status ≢ 0 → ¬ AreCompiled bytes.now (defined_by defs.now)) }
    ensures file { IfOk result (λ answer. answer.status ≡ 0
        → IsSomeAnd (option_map (λ file. file.items) answer.file) (IsCompiled bytes.now (defined_by defs.now))) }
    ensures text { IfOk result (λ answer. answer.status ≡ 0
        → IsSomeAnd (option_map (λ file. file.items) answer.file) (λ file. TellsCompiled bytes.now (defined_by defs.now) (string_bytes answer.text) (length file))) }
    ensures told { IfOk result (λ answer. answer.status ≢ 0 → TellsNoText bytes.now (string_bytes answer.text)
        ⊎ Tells compile_fault_words (λ fault. (fault ≢ Memory) × IsCompileRefusal bytes.now (defined_by defs.now) fault) (string_bytes answer.text)) }
    ensures no_file { IfOk result (λ answer. answer.status ≢ 0 → answer.file ≡ None) }
{
    let text = match text_of(bytes) {
        Ok(text) => text,
        Err(fault) => return Answer::refused(alloc, fault),
    };
    match compile_with_notes(alloc, text, defs) {
        Ok(CompiledText { tree, bytes }) => { written(lines_of(alloc, &tree, bytes.len()), bytes) }
        Err(CompileFault::Memory) => Err(AllocError),
        Err(fault) => Answer::refused_policy(alloc, fault),
    }
}

/// The answer with these lines, if their allocation did not fail, and this image.
fn written(lines: Result<String, AllocError>, image: Vec<u8>) -> Result<Answer, AllocError>
    ensures { IfOk result (λ answer. (answer.status ≡ 0) × (Ok answer.text ≡ lines) × (answer.file ≡ Some image)) }
{
    Ok(Answer::good(lines?, Some(image)))
}

/// The lines of the notes on a policy, and of an image of this size in bytes.
fn lines_of(alloc: Global, tree: &Tree, size: usize) -> Result<String, AllocError>
    ensures { IfOk result (λ lines. string_bytes lines ≡ note_lines tree.now.notes ++ size_line size) }
{
    let mut lines = of_notes(alloc, tree.notes())?;
    put_size(&mut lines, size)?;
    Ok(lines)
}
