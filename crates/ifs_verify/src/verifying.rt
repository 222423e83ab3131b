//! All checks, each over the whole image before the next one.

ghost use Rattle.std.specs.Prelude.{◌≡◌, ◌≢◌, Err, IfOk, IfErr, OnOk};
ghost use Rattle.ifs_image.specs.declared.fault.ImageFault.{ImageFault};
ghost use Rattle.ifs_image.specs.declared.parts.ImageParts.{ImageParts};
ghost use Rattle.ifs_image.specs.Reading.{cursor, head_at};
ghost use Rattle.ifs_image.specs.Spelling.{Spells};
ghost use Rattle.ifs_verify.specs.declared.fault.VerifyFault.TheVariants.{NoImage, OutOfMemory};
ghost use Rattle.ifs_verify.specs.Accepted.{IsAccepted};
ghost use Rattle.ifs_verify.specs.inner.Passes.{IsSized, IsImageRefused};
ghost use Rattle.ifs_verify.specs.Refused.{IsRefusal};

use crate::bounds::check_bounds;
use crate::budgets::check_budgets;
use crate::fault::VerifyFault;
use crate::reach::check_reached;
use crate::rules::{all_keep, check_calls, check_ends, check_handlers, check_indexes, check_jumps};
use crate::stacks::check_stacks;
use crate::verified::Verified;
use ifs_image::{ImageView, view};
use std::alloc::Global;

/// Returns the image that the bytes spell if it is accepted: it may run on a machine without trap checks. The image
/// is in place, in the bytes.
///
/// Otherwise it reports a check that fails, with its place. Tests show that this is the first one, in this order:
/// indexes and masks (V2), handlers (V14), jumps (V3), ends (V4), calls (V8), places reached (V5), stacks (V6, V7,
/// V9, V10), bounds of each routine (V10 to V13), stated budgets (V10 to V13). V1 reports that the bytes spell no
/// image. V0 reports a failed allocation; a fault of a field before the tables is reported even then.
pub fn verify<'a>(alloc: Global, bytes: &'a [u8]) -> Result<Verified<'a>, VerifyFault>
    // The bytes spell the image, and it is accepted.
    ensures spelled { IfOk result (λ image. Spells bytes.now image) }
    ensures accepted { IfOk result (λ image. IsAccepted image) }
    // It rejects only bytes that are not accepted, unless an allocation fails,
    ensures not_accepted { IfErr result (λ fault. fault ≢ OutOfMemory → (image : ImageParts) → Spells bytes.now image → ¬ IsAccepted image) }
    // and the named check fails: in reading, or at its place in the image that the bytes spell.
    ensures refused { IfErr result (IsRefusal bytes.now) }
    // A fault of a field before the tables is reported even if an allocation fails.
    ensures at_once { (fault : ImageFault) → head_at (cursor 0 bytes.now) ≡ Err fault → result ≡ Err (NoImage fault) }
{
    let image = view(alloc, bytes)?;
    match check(alloc, &image) {
        Ok(()) => Ok(Verified::new(image)),
        Err(fault) => Err(fault),
    }
}

/// Makes all checks on an image.
fn check(alloc: Global, image: &ImageView<'_>) -> Result<(), VerifyFault>
    requires { IsSized image.now }
    ensures accepted { OnOk result (IsAccepted image.now) }
    ensures refused { IfErr result (IsImageRefused image.now) }
{
    let plain = all_keep(image);
    check_indexes(image, plain)?;
    check_handlers(image)?;
    check_jumps(image, plain)?;
    check_ends(image)?;
    check_calls(image, plain)?;
    check_reached(alloc, image)?;
    let heights = check_stacks(alloc, image)?;
    let bounds = check_bounds(alloc, image, &heights)?;
    check_budgets(image, &heights, &bounds)?;
    Ok(())
}
