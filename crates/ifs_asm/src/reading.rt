//! Text to image, line by line.

ghost use Rattle.std.specs.Prelude.{◌≡◌, ◌≢◌, ◌<◌, ◌==◌, ◌∷◌, Some, None, MatchResult, IfOk, IfErr, length};
ghost use Rattle.std.specs.List.{position};
ghost use Rattle.ifs_image.specs.declared.parts.ImageParts.{ImageParts};
ghost use Rattle.ifs_asm.specs.declared.fault.AsmFault.TheVariants.{Memory};
ghost use Rattle.ifs_asm.specs.declared.fault.LineFault.TheVariants as faults;
ghost use Rattle.ifs_asm.specs.Refused.{IsAssemblyRefused, text_lines};
ghost use Rattle.ifs_asm.specs.Spellings.{TextSpells};
ghost use Rattle.ifs_asm.specs.inner.Building.{built_by, line_in, spoken_line};
ghost use Rattle.ifs_asm.specs.inner.Reading.{Blames};

use crate::building::Building;
use crate::fault::{AsmFault, LineFault};
use crate::forms::form_of;
use crate::words::{is_silent, words_of};
use ifs_image::Image;
use memchr::memchr;
use std::alloc::Global;

/// Returns the image that a text spells. It keeps nothing after a fault.
///
/// A1 to A3 name the first line with a fault. Lines are counted from 1. If a part is missing at the end, the fault names
/// the number of lines plus 1. A0 means that an allocation failed, and may replace any other result.
pub fn assemble(alloc: Global, text: &str) -> Result<Image, AsmFault>
    ensures spelled { IfOk result (λ image. TextSpells text.now image) }
    ensures refused { IfErr result (λ fault. fault ≢ Memory → (image : ImageParts) → TextSpells text.now image → ⊥) }
    ensures told { IfErr result (λ fault. fault ≢ Memory → IsAssemblyRefused text.now fault) }
{
    let mut building = Building::new(alloc);
    let mut left = text.as_bytes();
    let mut line = 1u64;
    while !left.is_empty() {
        let (bytes, rest) = split_line(left);
        if let Err(fault) = take_line(alloc, &mut building, bytes) {
            return Err(fault.at(line));
        }
        line += 1;
        left = rest;
    }
    let parts = building.finish()?;
    if parts.states.is_empty() {
        Err(AsmFault::OutOfOrder { line })
    } else {
        Ok(Image::new(parts))
    }
}

/// Splits a text into its first line, without the newline, and the rest.
fn split_line(text: &[u8]) -> (&[u8], &[u8])
    requires { 0 < length text.now }
    ensures cut { text_lines text.now ≡ result.0.now ∷ text_lines result.1.now }
    ensures shorter { length result.1.now < length text.now }
{
    match newline(text) {
        Some(place) => (&text[..place], &text[place + 1..]),
        None => (text, &[]),
    }
}

/// The place of the first newline.
fn newline(text: &[u8]) -> Option<usize>
    ensures { result ≡ position (λ byte. byte == 10) text.now }
{
    memchr(b'\n', text)
}

/// Reads a line. An empty line or a comment changes nothing.
fn take_line(alloc: Global, building: &mut Building, line: &[u8]) -> Result<(), LineFault>
    ensures taken { MatchResult result
        (λ _. built_by building.old (spoken_line line.now) ≡ Some building.new)
        (λ fault. fault ≢ faults.Memory → built_by building.old (spoken_line line.now) ≡ None) }
    ensures blamed { IfErr result (λ fault. Blames building.old (line_in line.now) fault) }
{
    if is_silent(line) {
        return Ok(());
    }
    let words = words_of(line);
    let Some(form) = form_of(alloc, words.as_slice())? else {
        return Err(LineFault::Unknown);
    };
    building.take(form)
}
