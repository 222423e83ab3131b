//! The answers of both checkers on bytes, and what holds for accepted bytes.

use crate::mismatch::Mismatch;
use crate::slow::judge;
use crate::steps::check_steps;
use ifs_image::{Image, read, write};
use ifs_verify::{VerifyFault, verify};
use std::alloc::Global;
use std::fmt;

/// A checker's answer on bytes.
#[derive(Clone, Copy, PartialEq, Eq)]
pub enum Verdict {
    /// They are accepted.
    Accepted,
    /// They are refused.
    Refused(VerifyFault),
}

impl fmt::Display for Verdict {
    fn fmt<W: fmt::Write>(&self, f: &mut fmt::Formatter<W>) -> fmt::Result {
        match self {
            Verdict::Accepted => write!(f, "ok"),
            Verdict::Refused(fault) => write!(f, "refused {fault}"),
        }
    }
}

/// The verifier's answer.
pub fn verified(alloc: Global, bytes: &[u8]) -> Verdict {
    match verify(alloc, bytes) {
        Ok(_) => Verdict::Accepted,
        Err(fault) => Verdict::Refused(fault),
    }
}

/// The slow checker's answer.
pub fn judged(alloc: Global, bytes: &[u8]) -> Verdict {
    match judge(alloc, bytes) {
        Ok(()) => Verdict::Accepted,
        Err(fault) => Verdict::Refused(fault),
    }
}

/// Whether bytes are accepted. The verifier has to give the slow checker's answer, and neither may run out of memory. Accepted
/// bytes have to pass `check_accepted`.
pub fn compare(alloc: Global, bytes: &[u8], slow: Verdict) -> Result<bool, Mismatch> {
    agree(slow, slow, verified(alloc, bytes))?;
    if slow != Verdict::Accepted {
        return Ok(false);
    }
    check_accepted(alloc, bytes)?;
    Ok(true)
}

/// Checks that both checkers refuse bytes with this fault.
pub fn refuse(alloc: Global, bytes: &[u8], fault: VerifyFault) -> Result<bool, Mismatch> {
    let wanted = Verdict::Refused(fault);
    agree(wanted, judged(alloc, bytes), verified(alloc, bytes))?;
    Ok(false)
}

/// Checks that both answers are the wanted one, and that it is no failed allocation.
fn agree(wanted: Verdict, slow: Verdict, verifier: Verdict) -> Result<(), Mismatch> {
    if slow == wanted
        && verifier == wanted
        && wanted != Verdict::Refused(VerifyFault::OutOfMemory)
    {
        return Ok(());
    }
    Err(Mismatch::Answers {
        wanted,
        slow,
        verifier,
    })
}

/// Checks that accepted bytes are written as they were read, and that no event exceeds the stated budgets.
fn check_accepted(alloc: Global, bytes: &[u8]) -> Result<(), Mismatch> {
    match read(alloc, bytes) {
        Ok(image) => check_image(alloc, bytes, &image),
        Err(_) => Err(Mismatch::Written),
    }
}

/// The same for the image of these bytes.
fn check_image(alloc: Global, bytes: &[u8], image: &Image) -> Result<(), Mismatch> {
    if !is_written(alloc, bytes, image) {
        return Err(Mismatch::Written);
    }
    check_steps(alloc, bytes, image.parts().budgets)
}

/// Whether an image is written as these bytes.
fn is_written(alloc: Global, bytes: &[u8], image: &Image) -> bool {
    match write(alloc, image) {
        Ok(written) => written.as_slice() == bytes,
        Err(_) => false,
    }
}
