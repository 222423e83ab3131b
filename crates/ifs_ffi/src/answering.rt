//! The answer to a task on bytes.

ghost use Rattle.std.specs.Prelude.{◌≡◌, ◌≢◌, ◌≤◌, ◌<◌, ◌⊎◌, length, take};
ghost use Rattle.ifs_options.specs.declared.task.Task.{Task};
ghost use Rattle.ifs_ffi.specs.Answers.{IsAnswered, IsRefused};
ghost use Rattle.ifs_ffi.specs.Definitions.{AreDefinitions};
ghost use Rattle.ifs_ffi.specs.Words.{number_of};

use crate::buffers::{Lengths, fill_answer};
use crate::definitions::definitions_of;
use crate::status::{NO_WORD, OUT_OF_MEMORY};
use crate::words::task_of;
use ifs_file_commands::answer;
use std::alloc::{AllocError, Global};

/// Gives the answer of a word to an input, with definitions beside a policy. The words are 0 `check`, 1 `compile`, 2 `verify`,
/// 3 `disasm`, 4 `asm`, 5 `upgrade` and 6 `graph`. The text is what the word prints, and the file is the image that it writes.
///
/// Statuses: 0 the input is valid, 1 it is refused, 2 an allocation failed, 3 a buffer is too short, 4 no word has this number,
/// 5 the definitions are not `NAME=VALUE`, each with a NUL behind it. With the statuses 2, 4 and 5 nothing is written.
#[unsafe(no_mangle)]
pub extern "C" fn ifs_page_answer(
    alloc: Global,
    word: u32,
    input: &[u8],
    definitions: &[u8],
    text: &mut [u8],
    file: &mut [u8],
    lengths: &mut Lengths,
) -> u32
    ensures status { result ≤ 5 }
    // The input is valid for the word, and the results are what the word gives.
    ensures good { result ≡ 0 → IsAnswered word input.now definitions.now (take lengths.new.text text.new) (take lengths.new.file file.new) }
    // The input is invalid for the word, and the text is a fault that it has.
    ensures refused { result ≡ 1 → IsRefused word input.now definitions.now (take lengths.new.text text.new) }
    ensures text_fits { result ≤ 1 → lengths.new.text ≤ length text.new }
    ensures file_fits { result ≤ 1 → lengths.new.file ≤ length file.new }
    ensures short { result ≡ 3 → (length text.new < lengths.new.text) ⊎ (length file.new < lengths.new.file) }
    ensures no_word { result ≡ 4 → (task : Task) → number_of task ≢ word }
    // The definitions are none only if they have another form, or are not UTF-8.
    ensures no_definitions { result ≡ 5 → ¬ AreDefinitions definitions.now }
{
    let Some(task) = task_of(word) else {
        return NO_WORD;
    };
    let defs = match definitions_of(alloc, definitions) {
        Ok(defs) => defs,
        Err(fault) => return fault.status(),
    };
    match answer(alloc, task, input, defs.as_slice()) {
        Ok(answer) => fill_answer(&answer, text, file, lengths),
        Err(AllocError) => OUT_OF_MEMORY,
    }
}
