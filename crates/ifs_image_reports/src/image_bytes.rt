//! Reports on bytes that spell no image.

ghost use Rattle.std.specs.Prelude.{◌≡◌, IfOk};
ghost use Rattle.ifs_image.specs.FaultWords.{image_fault_words};
ghost use Rattle.ifs_report.specs.Codes.{first_word};

use crate::causes::cause_of;
use crate::field::Role;
use crate::pieces::{Piece, put};
use crate::refusal::refusal;
use crate::walk::{Found, first_same, found_at};
use ifs_image::ImageFault;
use ifs_report::{Place, Report, Severity};
use std::alloc::{AllocError, Global};
use std::str::from_utf8;

/// The report on bytes that spell no image. Its place is the file. The message begins with the offset of the field, as
/// `byte 39: the length of the name of state 0 is 0`. The only error is a failed allocation.
pub fn of_image(alloc: Global, image: &[u8], fault: ImageFault) -> Result<Report, AllocError>
    ensures error { IfOk result (λ report. report.severity ≡ Severity.Error) }
    ensures code { IfOk result (λ report. report.code.now ≡ first_word (image_fault_words fault)) }
    ensures place { IfOk result (λ report. report.place ≡ Place.File) }
{
    let found = match offset_of(fault) {
        Some(at) => found_at(image, at),
        None => None,
    };
    let message = message_of(alloc, image, fault, found)?;
    let hint = String::from_str(alloc, hint_of(image, fault))?;
    let mut report = refusal(alloc, code_of(fault), message, rule_of(fault, found));
    report.hint = hint;
    Ok(report)
}

/// The code of a fault.
pub(crate) fn code_of(fault: ImageFault) -> &'static str
    ensures { result.now ≡ first_word (image_fault_words fault) }
{
    match fault {
        ImageFault::Truncated { .. } => "I1",
        ImageFault::WrongMagic { .. } => "I2",
        ImageFault::WrongVersion { .. } => "I3",
        ImageFault::OutOfLimit { .. } => "I4",
        ImageFault::BadText { .. } => "I5",
        ImageFault::RepeatedName { .. } => "I6",
        ImageFault::Trailing { .. } => "I7",
        ImageFault::NoInstruction { .. } => "I8",
        ImageFault::Memory => "I0",
    }
}

/// The offset of the field of a fault.
fn offset_of(fault: ImageFault) -> Option<usize> {
    match fault {
        ImageFault::Truncated { at }
        | ImageFault::WrongMagic { at }
        | ImageFault::WrongVersion { at }
        | ImageFault::OutOfLimit { at }
        | ImageFault::BadText { at }
        | ImageFault::RepeatedName { at }
        | ImageFault::Trailing { at }
        | ImageFault::NoInstruction { at } => Some(at),
        ImageFault::Memory => None,
    }
}

/// What is wrong, if no field is known.
fn general(fault: ImageFault) -> &'static str {
    cause_of(code_of(fault)).general
}

/// The rule that the field breaks. If its number is outside its limits, it is those.
fn rule_of(fault: ImageFault, found: Option<Found<'_>>) -> &'static str {
    match (fault, found) {
        (ImageFault::OutOfLimit { .. }, Some(found)) => found.field.row.limit,
        _ => cause_of(code_of(fault)).rule,
    }
}

/// What would mend it: bytes that do not begin as an image does may be a text. It is empty for other bytes.
fn hint_of(image: &[u8], fault: ImageFault) -> &'static str {
    match fault {
        ImageFault::WrongMagic { .. } => hint_on_text(image),
        _ => "",
    }
}

fn hint_on_text(file: &[u8]) -> &'static str {
    if file.starts_with(b"ifsv") {
        "this is an assembly text: `ifsvm asm FILE IMAGE` writes its image"
    } else if from_utf8(file).is_ok() {
        "this is a text: if it is a policy, `ifsvm compile FILE IMAGE` writes its image"
    } else {
        ""
    }
}

fn message_of(
    alloc: Global,
    image: &[u8],
    fault: ImageFault,
    found: Option<Found<'_>>,
) -> Result<String, AllocError> {
    let mut message = String::new(alloc);
    put_message(&mut message, image, fault, found)?;
    Ok(message)
}

/// Adds the offset, and what is wrong there.
fn put_message(
    out: &mut String,
    image: &[u8],
    fault: ImageFault,
    found: Option<Found<'_>>,
) -> Result<(), AllocError> {
    if let Some(at) = offset_of(fault) {
        put(
            out,
            &[
                Piece::Words("byte "),
                Piece::Number(at as u64),
                Piece::Words(": "),
            ],
        )?;
    }
    match found {
        Some(found) => put_found(out, image, fault, found),
        None => out.push_str(general(fault)),
    }
}

/// Adds what is wrong with a field.
fn put_found(
    out: &mut String,
    image: &[u8],
    fault: ImageFault,
    found: Found<'_>,
) -> Result<(), AllocError> {
    match fault {
        ImageFault::Truncated { .. } => put_truncated(out, found),
        ImageFault::WrongMagic { .. } | ImageFault::NoInstruction { .. } => put_bytes(out, found),
        ImageFault::WrongVersion { .. } => put_version(out, found),
        ImageFault::OutOfLimit { .. } => put_number(out, found),
        ImageFault::BadText { .. } => put_text(out, found),
        ImageFault::RepeatedName { .. } => put_repeated(out, image, found),
        ImageFault::Trailing { at } => put_trailing(out, image.len().saturating_sub(at)),
        ImageFault::Memory => out.push_str(general(fault)),
    }
}

fn put_truncated(out: &mut String, found: Found<'_>) -> Result<(), AllocError> {
    let words = if found.bytes.is_empty() {
        "the image ends before "
    } else {
        "the image ends within "
    };
    put(out, &[Piece::Words(words), Piece::Field(found.field)])
}

fn put_version(out: &mut String, found: Found<'_>) -> Result<(), AllocError> {
    let version = number_in(found.bytes);
    put(out, &[Piece::Words("version "), Piece::Number(version)])
}

fn put_number(out: &mut String, found: Found<'_>) -> Result<(), AllocError> {
    let number = number_in(found.bytes);
    put(
        out,
        &[
            Piece::Field(found.field),
            Piece::Words(" is "),
            Piece::Number(number),
        ],
    )
}

fn put_trailing(out: &mut String, more: usize) -> Result<(), AllocError> {
    put(
        out,
        &[
            Piece::Words("after the last routine "),
            Piece::There(more, "more byte"),
        ],
    )
}

/// The number that bytes spell, the high one first. Of more than eight bytes it is that of the last eight.
fn number_in(bytes: &[u8]) -> u64 {
    let mut number = 0u64;
    for byte in bytes {
        number = number << 8 | u64::from(*byte);
    }
    number
}

/// Adds the bytes of the magic or of an instruction, and which of them is wrong.
fn put_bytes(out: &mut String, found: Found<'_>) -> Result<(), AllocError> {
    put(
        out,
        &[
            Piece::Field(found.field),
            Piece::Words(" is "),
            Piece::Bytes(found.bytes),
        ],
    )?;
    match found.field.row.role {
        Role::Instruction => put_wrong_byte(out, found.bytes),
        _ => Ok(()),
    }
}

/// Adds which byte of an instruction is wrong.
fn put_wrong_byte(out: &mut String, bytes: &[u8]) -> Result<(), AllocError> {
    let [code, state, _, _] = bytes else {
        return Ok(());
    };
    if *code > 0x12 {
        put_byte(out, ", and ", *code, " is no code")
    } else if *code == 3 {
        put_byte(out, ", and ", *state, " is no link state")
    } else if *state != 0 {
        put_byte(out, ", and code ", *code, " has no link state")
    } else {
        put_byte(out, ", and code ", *code, " has no operand")
    }
}

/// Adds a byte between words.
fn put_byte(
    out: &mut String,
    before: &'static str,
    byte: u8,
    after: &'static str,
) -> Result<(), AllocError> {
    write!(out, "{before}{byte:02x}{after}")
}

/// Adds what is wrong with the length of a text, or with the text.
fn put_text(out: &mut String, found: Found<'_>) -> Result<(), AllocError> {
    let Role::Text = found.field.row.role else {
        return put_number(out, found);
    };
    let (words, place) = match from_utf8(found.bytes) {
        Ok(text) => (" has a NUL at byte ", first_nul(text.as_bytes())),
        Err(error) => (" is not UTF-8 at byte ", error.valid_up_to()),
    };
    let at = found.at.saturating_add(place);
    put(
        out,
        &[
            Piece::Field(found.field),
            Piece::Words(words),
            Piece::Number(at as u64),
        ],
    )
}

/// The place of the first NUL, or the number of bytes if there is none.
fn first_nul(bytes: &[u8]) -> usize {
    for (place, byte) in bytes.iter().enumerate() {
        if *byte == 0 {
            return place;
        }
    }
    bytes.len()
}

/// Adds a name, and the earlier entry that has it.
fn put_repeated(out: &mut String, image: &[u8], found: Found<'_>) -> Result<(), AllocError> {
    match (found.field.row.role, from_utf8(found.bytes)) {
        (Role::Text, Ok(name)) => {
            let earlier = first_same(image, found.field.row, found.bytes);
            put_name(out, found, name, earlier)
        }
        _ => put_number(out, found),
    }
}

fn put_name(
    out: &mut String,
    found: Found<'_>,
    name: &str,
    earlier: Option<Found<'_>>,
) -> Result<(), AllocError> {
    put(
        out,
        &[
            Piece::Field(found.field),
            Piece::Words(" is "),
            Piece::Name(name),
        ],
    )?;
    match earlier {
        Some(earlier) => put(
            out,
            &[Piece::Words(", and so is "), Piece::Field(earlier.field)],
        ),
        None => Ok(()),
    }
}
