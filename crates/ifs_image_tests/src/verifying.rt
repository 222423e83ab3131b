//! Images that the verifier accepts, and the texts of its faults.

use crate::checks::{holds, same};
use crate::largest::bytes_in;
use ifs_test_images::{bytes_of, images, largest_listing};
use ifs_verify::{Verified, verify};
use std::process::Abort;
use std::test::Fail;

mod texts;

/// Only an allocation can fail for the largest image.
#[test]
fn accepts_the_largest_image(rt: HostRuntime) -> Result<(), Fail> {
    let text = largest_listing(rt.alloc())?;
    let bytes = bytes_in(rt.alloc(), text.as_str())?;
    holds(&rt, verify(rt.alloc(), bytes.as_slice()).is_ok());
    Ok(())
}

fn check_borrowed(rt: &impl Abort, verified: &Verified<'_>) {
    let image = verified.image();
    same(rt, image.budgets(), verified.budgets());
    same(rt, image.routines(), 2);
}

/// The image is borrowed whole.
#[test]
fn borrows_the_image(rt: HostRuntime) -> Result<(), Fail> {
    let bytes = bytes_of(rt.alloc(), images::FIRST_RUN)?;
    let verified = verify(rt.alloc(), bytes.as_slice())?;
    check_borrowed(&rt, &verified);
    Ok(())
}
