//! Answers to tasks on the bytes of a file.

ghost use Rattle.std.specs.Prelude.{◌≡◌, None, Some, Ok, length, option_map, string_bytes, IfOk, IfSome, IsSomeAnd};
ghost use Rattle.ifs_gen.specs.FaultWords.{compile_fault_words};
ghost use Rattle.ifs_image.specs.Spelling.{Spells};
ghost use Rattle.ifs_file_commands.specs.Faults.{memory_words};
ghost use Rattle.ifs_file_commands.specs.Lines.{refusal_line, size_line};

use crate::lines::of_size;
use ifs_gen::CompileFault;
use ifs_image::{Image, write};
use ifs_options::Task;
use std::alloc::{AllocError, Global};
use std::fmt::Display;

/// The code of a failed allocation in a task.
pub fn memory_code(task: Task) -> &'static str
    ensures { result.now ≡ memory_words task }
{
    match task {
        Task::Check | Task::Compile | Task::Graph => "P0",
        Task::Verify => "V0",
        Task::Disasm | Task::Upgrade => "I0",
        Task::Asm => "A0",
    }
}

/// The exit status, the text to print, and the file to write.
#[derive(Drop)]
pub struct Answer {
    pub status: u8,
    pub text: String,
    pub file: Option<Vec<u8>>,
    /// Why the text of a policy is refused, if it is.
    pub fault: Option<CompileFault>,
}

impl Answer {
    /// The answer to valid bytes: its text and its file.
    pub(crate) fn good(text: String, file: Option<Vec<u8>>) -> Answer
        ensures status { result.status ≡ 0 }
        ensures text { result.text ≡ text }
        ensures file { result.file ≡ file }
    {
        Answer {
            status: 0,
            text,
            file,
            fault: None,
        }
    }

    /// The answer to valid bytes with this text and no file. It fails if making the text did.
    pub(crate) fn printed(text: Result<String, AllocError>) -> Result<Answer, AllocError>
        ensures { IfOk result (λ answer. (answer.status ≡ 0) × (Ok answer.text ≡ text) × (answer.file ≡ None)) }
    {
        Ok(Answer::good(text?, None))
    }

    /// The answer with the bytes of an image as its file. Its text is their number.
    pub(crate) fn written(alloc: Global, image: &Image) -> Result<Answer, AllocError>
        ensures status { IfOk result (λ answer. answer.status ≡ 0) }
        ensures file { IfOk result (λ answer. IsSomeAnd (option_map (λ file. file.items) answer.file) (λ file. Spells file image.now)) }
        ensures text { IfOk result (λ answer. IsSomeAnd (option_map (λ file. file.items) answer.file) (λ file. string_bytes answer.text ≡ size_line (length file))) }
    {
        let file = write(alloc, image)?;
        let line = of_size(alloc, file.len())?;
        Ok(Answer::good(line, Some(file)))
    }

    /// The answer to invalid bytes: one line with the fault.
    pub(crate) fn refused<F: Display + Drop>(alloc: Global, fault: F) -> Result<Answer, AllocError>
        ensures status { IfOk result (λ answer. answer.status ≡ 1) }
        ensures text { IfSome (F.output fault) (λ words. IfOk result (λ answer. string_bytes answer.text ≡ refusal_line words)) }
        ensures file { IfOk result (λ answer. answer.file ≡ None) }
    {
        Ok(Answer {
            status: 1,
            text: format!(in alloc; "refused {fault}\n")?,
            file: None,
            fault: None,
        })
    }

    /// The same to the text of a policy. The answer keeps the fault.
    pub(crate) fn refused_policy(alloc: Global, fault: CompileFault) -> Result<Answer, AllocError>
        ensures status { IfOk result (λ answer. answer.status ≡ 1) }
        ensures text { IfOk result (λ answer. string_bytes answer.text ≡ refusal_line (compile_fault_words fault)) }
        ensures file { IfOk result (λ answer. answer.file ≡ None) }
        ensures fault { IfOk result (λ answer. answer.fault ≡ Some fault) }
    {
        let mut answer = Answer::refused(alloc, fault)?;
        answer.fault = Some(fault);
        Ok(answer)
    }
}
