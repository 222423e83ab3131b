//! Results in the buffers of a caller.

ghost use Rattle.std.specs.Prelude.{◌≡◌, ◌≢◌, ◌≤◌, ◌<◌, ◌⊎◌, length, take, option_map, string_bytes};
ghost use Rattle.std.specs.Bool.{OnTrue, OnFalse};
ghost use Rattle.ifs_ffi.specs.Answers.{bytes_of};

use crate::status::{GOOD, SHORT};
use ifs_file_commands::Answer;

/// The lengths of the results of a call, in bytes.
#[repr(C)]
#[derive(Clone, Copy)]
pub struct Lengths {
    /// The length of the text.
    pub text: usize,
    /// The length of the file. It is 0 if there is none.
    pub file: usize,
}

/// Writes bytes to the front of a buffer, and returns whether they fit.
fn put(bytes: &[u8], buffer: &mut [u8]) -> bool
    ensures put { OnTrue result (take (length bytes.now) buffer.new ≡ bytes.now) }
    ensures fits { OnTrue result (length bytes.now ≤ length buffer.new) }
    ensures short { OnFalse result (length buffer.new < length bytes.now) }
{
    match buffer.split_at_mut_checked(bytes.len()) {
        Some((front, _rest)) => {
            front.copy_from_slice(bytes);
            true
        }
        None => false,
    }
}

/// Writes bytes to the front of a buffer, sets `size` to their length, and returns the status.
pub(crate) fn fill(bytes: &[u8], buffer: &mut [u8], size: &mut usize) -> u32
    ensures size_is { size.new ≡ length bytes.now }
    ensures status { (result ≡ 0) ⊎ (result ≡ 3) }
    ensures put { result ≡ 0 → take size.new buffer.new ≡ bytes.now }
    ensures fits { result ≡ 0 → size.new ≤ length buffer.new }
    ensures short { result ≡ 3 → length buffer.new < size.new }
{
    *size = bytes.len();
    if put(bytes, buffer) { GOOD } else { SHORT }
}

/// Writes the text and the file of an answer to the fronts of two buffers, sets their lengths, and returns the status.
pub(crate) fn fill_answer(
    answer: &Answer,
    text: &mut [u8],
    file: &mut [u8],
    lengths: &mut Lengths,
) -> u32
    ensures status { (result ≡ answer.now.status) ⊎ (result ≡ 3) }
    ensures text { result ≢ 3 → take lengths.new.text text.new ≡ string_bytes answer.now.text }
    ensures file { result ≢ 3 → take lengths.new.file file.new ≡ bytes_of (option_map (λ file. file.items) answer.now.file) }
    ensures text_fits { result ≢ 3 → lengths.new.text ≤ length text.new }
    ensures file_fits { result ≢ 3 → lengths.new.file ≤ length file.new }
    ensures short { result ≡ 3 → answer.now.status ≢ 3 → (length text.new < lengths.new.text) ⊎ (length file.new < lengths.new.file) }
{
    let made = file_of(answer);
    lengths.text = answer.text.len();
    lengths.file = made.len();
    let has_text = put(answer.text.as_bytes(), text);
    let has_file = put(made, file);
    if has_text && has_file {
        u32::from(answer.status)
    } else {
        SHORT
    }
}

/// The bytes of the file of an answer. There are none without a file.
fn file_of(answer: &Answer) -> &[u8]
    ensures { result.now ≡ bytes_of (option_map (λ file. file.items) answer.now.file) }
{
    match &answer.file {
        Some(file) => file.as_slice(),
        None => &[],
    }
}
