//! Changes the bytes of some images, and compares the verifier with a slow checker. The two share only the reader of images and the
//! names of faults.
//!
//! It cuts each image before each byte, and adds a byte. Both checkers have to refuse the result at the known place. Then it sets
//! each byte to each other value. The verifier has to give the slow checker's answer, with its check and its place.

mod changes;
mod fields;
mod tally;

use crate::cases::case_named;
use crate::comparing::bytes_in;
use anyhow::{Context, Result};
use std::fs;
use tally::Tally;

/// The file and the case of each image.
const IMAGES: [(&str, &str); 10] = [
    ("sessions.txt", "smallest_image"),
    ("sessions.txt", "first_run"),
    ("sessions.txt", "first_policy"),
    ("sessions.txt", "last_wish"),
    ("sessions.txt", "macros"),
    ("sessions.txt", "held_back"),
    ("sessions.txt", "stale"),
    ("sessions.txt", "shared_condition"),
    ("version_two.txt", "call_in_a_call"),
    ("version_two.txt", "four_kinds"),
];

/// Tries the changes of all images, and returns the number of wrong answers.
pub fn try_images(rt: &HostRuntime) -> Result<u64> {
    let mut total = Tally::default();
    for (file, name) in IMAGES {
        let mut image = image_of(rt, file, name)?;
        total = total.and(try_image(rt, name, image.as_mut_slice())?);
    }
    println!(rt; "changes: {}, {} accepted", total.tried, total.accepted)?;
    Ok(total.wrong)
}

/// The image that a case has in hexadecimal digits.
fn image_of(rt: &HostRuntime, file: &str, name: &str) -> Result<Vec<u8>> {
    let text = fs::read_to_string(rt, file)?;
    let case = case_named(text.as_str(), name).context("no such case")?;
    let section = case.section("image").context("no image")?;
    bytes_in(rt.alloc(), section)
}

/// Tries each change of an image, and prints how many there were.
fn try_image(rt: &HostRuntime, name: &str, bytes: &mut [u8]) -> Result<Tally> {
    let cuts = changes::try_cuts(rt, name, bytes)?;
    let longer = changes::try_longer(rt, name, bytes)?;
    let values = changes::try_bytes(rt, name, bytes)?;
    println!(rt;
        "{name}: {} bytes, {} cuts, {} longer, {} values, {} accepted",
        bytes.len(),
        cuts.tried,
        longer.tried,
        values.tried,
        values.accepted
    )?;
    Ok(cuts.and(longer).and(values))
}
