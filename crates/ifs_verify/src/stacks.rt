//! The stacks of all routines.

ghost use Rattle.std.specs.Prelude.{length, IfOk, IfErr};
ghost use Rattle.ifs_verify.specs.inner.Passes.{PlainRulesHold, IsImageRefused, LeastHeights};

use crate::fault::VerifyFault;
use crate::heights::height_of;
use crate::typing::no_lists;
use ifs_image::ImageView;
use std::alloc::Global;

/// V6, V7, V9, and V10 at an instruction: each routine has a typing. Returns the heights of the routines.
pub fn check_stacks(alloc: Global, image: &ImageView<'_>) -> Result<Vec<u32>, VerifyFault>
    requires { PlainRulesHold image.now }
    ensures found { IfOk result (λ heights. LeastHeights image.now heights.items (length image.now.routines)) }
    ensures refused { IfErr result (IsImageRefused image.now) }
{
    let mut heights: Vec<u32> = Vec::new(alloc);
    let mut brought = no_lists(alloc, image)?;
    for routine in 0..image.routines() {
        let height = height_of(image, routine, heights.as_slice(), &mut brought)?;
        heights.push(height)?;
    }
    Ok(heights)
}
