//! The answer of each task.

ghost use Rattle.std.specs.Prelude.{◌≡◌, ◌≢◌, ◌≤◌, None, option_map, string_bytes, IfOk};
ghost use Rattle.ifs_file_commands.specs.Answers.{AreAccepted, AreGood, IsGiven, IsPrinted, IsRefusedBy, Tells, TellsBudgets};
ghost use Rattle.ifs_verify.specs.FaultWords.{verify_fault_words};
ghost use Rattle.ifs_verify.specs.Refused.{IsRefusal};
ghost use Rattle.ifs_verify.specs.declared.fault.VerifyFault.TheVariants.{OutOfMemory};
ghost use Rattle.ifs_lex.specs.Expansion.{defined_by};

use crate::assembling::asm;
use crate::checking::{Shown, show};
use crate::compiling::compile;
use crate::lines::of_budgets;
use crate::reading::{Made, make};
use crate::task::Answer;
use ifs_options::Task;
use ifs_verify::{VerifyFault, verify};
use std::alloc::{AllocError, Global};

/// The answer to a task on these bytes, with these definitions beside a policy. The only error is a failed allocation.
pub fn answer(
    alloc: Global,
    task: Task,
    input: &[u8],
    defs: &[(&str, &str)],
) -> Result<Answer, AllocError>
    // The status is 0 or 1.
    ensures status { IfOk result (λ answer. answer.status ≤ 1) }
    // The status is 0 exactly if the bytes are valid for the task.
    ensures good { IfOk result (λ answer. answer.status ≡ 0 → AreGood task input.now (defined_by defs.now)) }
    ensures refused { IfOk result (λ answer. answer.status ≢ 0 → ¬ AreGood task input.now (defined_by defs.now)) }
    // The text for valid bytes is their budgets, counts, notes, length, or assembly text. A picture may be any text.
    ensures text { IfOk result (λ answer. answer.status ≡ 0 → IsPrinted task input.now (defined_by defs.now) (option_map (λ file. file.items) answer.file) (string_bytes answer.text)) }
    // The text for invalid bytes is a fault that they have.
    ensures told { IfOk result (λ answer. answer.status ≢ 0 → IsRefusedBy task input.now (defined_by defs.now) (string_bytes answer.text)) }
    // The file is the one that the task makes. There is none for invalid bytes.
    ensures file { IfOk result (λ answer. answer.status ≡ 0 → IsGiven task input.now (defined_by defs.now) (option_map (λ file. file.items) answer.file)) }
    ensures no_file { IfOk result (λ answer. answer.status ≢ 0 → answer.file ≡ None) }
{
    match task {
        Task::Check => show(alloc, Shown::Counts, input, defs),
        Task::Compile => compile(alloc, input, defs),
        Task::Verify => verified(alloc, input),
        Task::Disasm => make(alloc, Made::Listing, input),
        Task::Asm => asm(alloc, input),
        Task::Upgrade => make(alloc, Made::Upgrade, input),
        Task::Graph => show(alloc, Shown::Picture, input, defs),
    }
}

/// The answer of `verify`: the budgets that an image states.
fn verified(alloc: Global, image: &[u8]) -> Result<Answer, AllocError>
    ensures status { IfOk result (λ answer. answer.status ≤ 1) }
    ensures good { IfOk result (λ answer. answer.status ≡ 0 → AreAccepted image.now) }
    ensures refused { IfOk result (λ answer. answer.status ≢ 0 → ¬ AreAccepted image.now) }
    ensures text { IfOk result (λ answer. answer.status ≡ 0 → TellsBudgets image.now (string_bytes answer.text)) }
    ensures told { IfOk result (λ answer. answer.status ≢ 0 → Tells verify_fault_words (λ fault. (fault ≢ OutOfMemory) × IsRefusal image.now fault) (string_bytes answer.text)) }
    ensures file { IfOk result (λ answer. answer.file ≡ None) }
{
    match verify(alloc, image) {
        Ok(verified) => Answer::printed(of_budgets(alloc, verified.budgets())),
        Err(VerifyFault::OutOfMemory) => Err(AllocError),
        Err(fault) => Answer::refused(alloc, fault),
    }
}
