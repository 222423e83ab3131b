//! Expectations of images, and what holds for each image.

use crate::comparing::Trial;
use crate::rules::expects_image;
use crate::sessions::is_session;
use crate::verdict::{compare, judged};
use anyhow::Result;
use ifs_file_commands::{Answer, answer};
use ifs_options::Task;
use std::alloc::{AllocError, Global};
use std::io;

/// The most bytes of an image that the slow checker judges.
const JUDGED_BYTES: usize = 4_096;

/// Whether the answer of a word that makes an image, and the image, are as expected.
pub fn check_made(trial: Trial<'_>, word: &str, made: &Answer) -> Result<bool> {
    let is_told = trial.expected(word, made)?;
    let is_so = match &made.file {
        Some(image) => is_made(trial, image.as_slice())?,
        None => trial.holds("image", !expects_image(trial.case), "no image")?,
    };
    Ok(is_told && is_so)
}

/// Whether an image that was made has the expected bytes, and is as expected.
fn is_made(trial: Trial<'_>, image: &[u8]) -> Result<bool> {
    let is_same = trial.is_file("image", image)?;
    Ok(is_image(trial, image)? && is_same)
}

/// Whether an image and the session on it are as expected.
pub fn is_image(trial: Trial<'_>, image: &[u8]) -> Result<bool> {
    let are_told = are_told(trial, image)?;
    let is_judged = is_judged(trial, image)?;
    let is_session = is_session(trial, image)?;
    Ok(are_told && is_judged && is_session)
}

/// Whether the slow checker agrees with the verifier on an image, and an accepted image keeps its promises. An image that is too
/// long for the slow checker passes.
fn is_judged(trial: Trial<'_>, image: &[u8]) -> io::Result<bool> {
    if image.len() > JUDGED_BYTES {
        return Ok(true);
    }
    match compare(trial.alloc(), image, judged(trial.alloc(), image)) {
        Ok(_) => Ok(true),
        Err(mismatch) => {
            println!(trial.rt; "{}: {}: verify: {mismatch}", trial.file, trial.case.name)?;
            Ok(false)
        }
    }
}

/// Whether the answers of `verify`, `disasm` and `upgrade` on an image are as expected.
fn are_told(trial: Trial<'_>, image: &[u8]) -> Result<bool> {
    let verified = answer(trial.alloc(), Task::Verify, image, &[])?;
    let is_verified = trial.expected("verify", &verified)?;
    let is_listed = is_listed(trial, image, verified.text.as_str())?;
    let is_upgraded = is_upgraded(trial, image, verified.text.as_str())?;
    Ok(is_verified && is_listed && is_upgraded)
}

/// Whether the lines of `verify` refuse bytes that are no image. All words print the same line then.
fn is_no_image(lines: &str) -> bool {
    lines.starts_with("refused I")
}

/// Whether the answer of `disasm` is as expected, by the lines of `verify`.
fn is_listed(trial: Trial<'_>, image: &[u8], lines: &str) -> Result<bool> {
    let listed = answer(trial.alloc(), Task::Disasm, image, &[])?;
    let is_told = trial.expected("disasm", &listed)?;
    let is_so = is_listing(trial, image, listed.text.as_str(), lines)?;
    Ok(is_told && is_so)
}

/// Whether the code in a listing is as expected. The listing of an image spells the same image.
fn is_listing(trial: Trial<'_>, image: &[u8], listing: &str, lines: &str) -> io::Result<bool> {
    let is_code = trial.is_text("code", code_in(listing).as_bytes())?;
    let is_again = if is_no_image(lines) {
        trial.same("disasm", listing.as_bytes(), lines.as_bytes())?
    } else {
        let is_spelled = makes(trial.alloc(), Task::Asm, listing.as_bytes(), image)?;
        trial.holds("disasm", is_spelled, "a text of another image")?
    };
    Ok(is_code && is_again)
}

/// The part of a listing from its first `routine` line on.
fn code_in(listing: &str) -> &str {
    match listing.find("\nroutine ") {
        Some(end) => listing[end..].trim_start(),
        None => "",
    }
}

/// Whether a task makes this file of these bytes.
fn makes(alloc: Global, task: Task, bytes: &[u8], file: &[u8]) -> Result<bool, AllocError> {
    let made = answer(alloc, task, bytes, &[])?;
    Ok(match &made.file {
        Some(made) => made.as_slice() == file,
        None => false,
    })
}

/// Whether the answer of `upgrade` is as expected, by the lines of `verify`. It prints the length of the upgrade.
fn is_upgraded(trial: Trial<'_>, image: &[u8], lines: &str) -> Result<bool> {
    let upgraded = answer(trial.alloc(), Task::Upgrade, image, &[])?;
    let is_told = trial.tells_length("upgrade", &upgraded, "")?;
    let is_so = match &upgraded.file {
        Some(file) if !is_no_image(lines) => is_upgrade(trial, file.as_slice(), lines)?,
        _ => is_no_upgrade(trial, upgraded.text.as_str(), lines)?,
    };
    Ok(is_told && is_so)
}

/// Whether an upgrade has the expected bytes and is its own upgrade, and `verify` prints the same lines of it.
fn is_upgrade(trial: Trial<'_>, upgrade: &[u8], lines: &str) -> Result<bool> {
    let is_same = trial.is_file("upgrade", upgrade)?;
    let is_own = makes(trial.alloc(), Task::Upgrade, upgrade, upgrade)?;
    let is_own = trial.holds("upgrade", is_own, "another upgrade of the upgrade")?;
    let is_told = is_verified(trial, upgrade, lines)?;
    Ok(is_same && is_own && is_told)
}

/// Whether `verify` prints these lines for an upgrade.
fn is_verified(trial: Trial<'_>, upgrade: &[u8], lines: &str) -> io::Result<bool> {
    let verified = answer(trial.alloc(), Task::Verify, upgrade, &[])?;
    trial.same("upgrade", verified.text.as_bytes(), lines.as_bytes())
}

/// Whether bytes without an upgrade are no image, and none is expected. `upgrade` prints the line of `verify`.
fn is_no_upgrade(trial: Trial<'_>, text: &str, lines: &str) -> io::Result<bool> {
    let is_so = is_no_image(lines) && !trial.case.has_section("upgrade");
    let is_so = trial.holds("upgrade", is_so, "no upgrade")?;
    let is_told = trial.same("upgrade", text.as_bytes(), lines.as_bytes())?;
    Ok(is_so && is_told)
}
