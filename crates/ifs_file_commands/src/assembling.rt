//! The answer of `asm`.

ghost use Rattle.std.specs.Prelude.{◌≡◌, ◌≢◌, ◌≤◌, ◌⊎◌, length, None, option_map, string_bytes, IsSomeAnd, IfOk};
ghost use Rattle.ifs_file_commands.specs.Answers.{AreAssembly, IsAssembled, Tells, TellsNoLine};
ghost use Rattle.ifs_asm.specs.Refused.{IsAssemblyRefused};
ghost use Rattle.ifs_asm.specs.declared.fault.AsmFault.TheVariants.{Unknown};
ghost use Rattle.ifs_asm.specs.FaultWords.{asm_fault_words};
ghost use Rattle.ifs_file_commands.specs.Lines.{size_line};

use crate::checking::{NotText, text_of};
use crate::task::Answer;
use ifs_asm::{AsmFault, assemble};
use std::alloc::{AllocError, Global};

/// The answer of `asm`: the length of the image that a text spells, which is the file. It is not verified.
pub fn asm(alloc: Global, bytes: &[u8]) -> Result<Answer, AllocError>
    ensures status { IfOk result (λ answer. answer.status ≤ 1) }
    ensures good { IfOk result (λ answer. answer.status ≡ 0 → AreAssembly bytes.now) }
    ensures refused { IfOk result (λ answer. answer.status ≢ 0 → ¬ AreAssembly bytes.now) }
    ensures file { IfOk result (λ answer. answer.status ≡ 0 → IsSomeAnd (option_map (λ file. file.items) answer.file) (IsAssembled bytes.now)) }
    ensures text { IfOk result (λ answer. answer.status ≡ 0 → IsSomeAnd (option_map (λ file. file.items) answer.file) (λ file. string_bytes answer.text ≡ size_line (length file))) }
    ensures told { IfOk result (λ answer. answer.status ≢ 0 → TellsNoLine bytes.now (string_bytes answer.text) ⊎ Tells asm_fault_words (IsAssemblyRefused bytes.now) (string_bytes answer.text)) }
    ensures no_file { IfOk result (λ answer. answer.status ≢ 0 → answer.file ≡ None) }
{
    let text = match text_of(bytes) {
        Ok(text) => text,
        Err(fault) => return Answer::refused(alloc, unknown(fault)),
    };
    match assemble(alloc, text) {
        Ok(image) => Answer::written(alloc, &image),
        Err(AsmFault::Memory) => Err(AllocError),
        Err(fault) => Answer::refused(alloc, fault),
    }
}

/// A line with a byte that is not UTF-8 has an unknown form.
fn unknown(fault: NotText) -> AsmFault
    ensures { result ≡ Unknown fault.line }
{
    AsmFault::Unknown {
        line: fault.line as u64,
    }
}
