//! Bytes of hexadecimal text.

ghost use Rattle.std.specs.Prelude.{◌≡◌, ◌⊎◌, Ok, Err, IfOk, IfErr, filter};
ghost use Rattle.hex.specs.Hex.{decode_of};
ghost use Rattle.hex.specs.declared.error.FromHexError.TheVariants.{OutOfMemory};
ghost use Rattle.ifs_test_images.specs.Blanks.{is_no_blank};

use hex::FromHexError;
use std::alloc::{AllocError, Global};

/// The digits of a text, without its spaces and newlines.
pub fn digits_of(alloc: Global, text: &str) -> Result<Vec<u8>, AllocError>
    ensures { IfOk result (λ digits. digits.items ≡ filter is_no_blank text.now) }
{
    text.as_bytes()
        .iter()
        .copied()
        .filter(|byte| *byte != b' ' && *byte != b'\n')
        .collect(alloc)
}

/// The bytes that a text spells, two digits each. Spaces and newlines do not count.
pub fn bytes_of(alloc: Global, text: &str) -> Result<Vec<u8>, FromHexError>
    ensures spelled { IfOk result (λ bytes. decode_of (filter is_no_blank text.now) ≡ Ok bytes.items) }
    ensures refused { IfErr result
        (λ e. (e ≡ OutOfMemory) ⊎ (decode_of (filter is_no_blank text.now) ≡ Err e)) }
{
    hex::decode(alloc, digits_of(alloc, text)?)
}
