//! The answers of `disasm` and `upgrade`, which read an image.

ghost use Rattle.std.specs.Prelude.{◌≡◌, ◌≢◌, ◌≤◌, None, Err, option_map, string_bytes, IfOk};
ghost use Rattle.ifs_file_commands.specs.Answers.{AreImage, IsMade, Tells};
ghost use Rattle.ifs_image.specs.Reading.{image_of};
ghost use Rattle.ifs_image.specs.FaultWords.{image_fault_words};

use crate::task::Answer;
use ifs_asm::disassemble;
use ifs_image::{ImageFault, read, upgrade};
use std::alloc::{AllocError, Global};

/// What is made of an image.
#[derive(Clone, Copy, PartialEq, Eq)]
pub enum Made {
    /// Its canonical assembly text.
    Listing,
    /// The image of version 2 with the same content, as a file.
    Upgrade,
}

/// The answer of `disasm` and of `upgrade`: what is made of an image, accepted or not, or why the bytes are not an image.
pub fn make(alloc: Global, made: Made, bytes: &[u8]) -> Result<Answer, AllocError>
    ensures status { IfOk result (λ answer. answer.status ≤ 1) }
    ensures good { IfOk result (λ answer. answer.status ≡ 0 → AreImage bytes.now) }
    ensures refused { IfOk result (λ answer. answer.status ≢ 0 → ¬ AreImage bytes.now) }
    ensures made { IfOk result (λ answer. answer.status ≡ 0 → IsMade made bytes.now (option_map (λ file. file.items) answer.file) (string_bytes answer.text)) }
    ensures told { IfOk result (λ answer. answer.status ≢ 0 → Tells image_fault_words (λ fault. image_of bytes.now ≡ Err fault) (string_bytes answer.text)) }
    ensures no_file { IfOk result (λ answer. answer.status ≢ 0 → answer.file ≡ None) }
{
    match read(alloc, bytes) {
        Ok(image) => match made {
            Made::Listing => Answer::printed(disassemble(alloc, &image)),
            Made::Upgrade => Answer::written(alloc, &upgrade(image)),
        },
        Err(ImageFault::Memory) => Err(AllocError),
        Err(fault) => Answer::refused(alloc, fault),
    }
}
