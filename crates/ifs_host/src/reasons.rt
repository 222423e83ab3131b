//! Why a reload is refused, in words on one line.

use crate::reloading::{FileRead, RELOADS, ReloadFault};
use ifs_core::CarryCause;
use ifs_image_reports::of_verification;
use ifs_report::Report;
use ifs_terminal::Escaped;
use ifs_verify::VerifyFault;
use std::alloc::{AllocError, Global};
use std::fmt::{self, Display, Formatter, Write};

/// Why a reload is refused, in words.
#[derive(Drop)]
pub enum Reason<'a> {
    /// The words of a fault that has no other cause.
    Plain(&'static str),
    /// There were too many reloads.
    TooMany,
    /// What is wrong with the file.
    File(&'a FileRead),
    /// What is wrong with the image.
    Image(Report),
}

/// The reason of a refused reload. It fails only if memory runs out.
#[inline(never)]
pub fn reason_of(
    alloc: Global,
    fault: ReloadFault,
    read: &FileRead,
) -> Result<Reason<'_>, AllocError> {
    let words = match fault {
        ReloadFault::TooMany => return Ok(Reason::TooMany),
        ReloadFault::File => return Ok(Reason::File(read)),
        ReloadFault::Image(VerifyFault::OutOfMemory) => "memory ran out for the new image",
        ReloadFault::Image(fault) => {
            return Ok(Reason::Image(of_verification(alloc, bytes_of(read), fault)?));
        }
        ReloadFault::Carry(CarryCause::Memory) => "memory ran out for what the daemon knows",
        ReloadFault::Carry(CarryCause::Queued) => "a command waits in the queue",
    };
    Ok(Reason::Plain(words))
}

/// The bytes that were read.
fn bytes_of(read: &FileRead) -> &[u8] {
    match read {
        FileRead::Bytes(bytes) => bytes.as_slice(),
        FileRead::Skipped | FileRead::Fault(_) => &[],
    }
}

impl Display for Reason<'_> {
    fn fmt<W: Write>(&self, f: &mut Formatter<W>) -> fmt::Result {
        match self {
            Reason::Plain(words) => f.write_str(words),
            Reason::TooMany => write!(f, "there were {RELOADS} reloads since the start"),
            Reason::File(FileRead::Fault(fault)) => write!(f, "{fault}"),
            Reason::File(FileRead::Skipped | FileRead::Bytes(_)) => f.write_str(
                "the file is not read",
            ),
            Reason::Image(report) => {
                put_line(f, report.message.as_str())?;
                put_rule(f, report.rule)
            }
        }
    }
}

/// Writes the rule that an image breaks, if there is one.
fn put_rule<W: Write>(f: &mut Formatter<W>, rule: &str) -> fmt::Result {
    if rule.is_empty() {
        Ok(())
    } else {
        write!(f, "; rule: {rule}")
    }
}

/// Writes a text on one line, without what a terminal acts on.
fn put_line<W: Write>(f: &mut Formatter<W>, text: &str) -> fmt::Result {
    let mut is_first = true;
    for part in text.split('\n') {
        if !is_first {
            f.write_str("\\x0a")?;
        }
        write!(f, "{}", Escaped(part.as_bytes()))?;
        is_first = false;
    }
    Ok(())
}
