//! The image of a policy.

ghost use Rattle.std.specs.Prelude.{IfNone, IfOk, IfSome};
ghost use Rattle.ifs_play.specs.Compiling.{ExceedsALimit, IsImageOf};

use ifs_gen::{GenFault, generate};
use ifs_image::{Budgets, write};
use ifs_policy::Policy;
use std::alloc::{AllocError, Global};

/// The image of a policy.
#[derive(Drop)]
pub struct PolicyImage {
    pub bytes: Vec<u8>,
    /// The stated limits of one event.
    pub budgets: Budgets,
}

/// The image of a policy. None if its code exceeds a limit.
pub fn image_of(alloc: Global, policy: &Policy) -> Result<Option<PolicyImage>, AllocError>
    ensures some { IfOk result (λ found. IfSome found (λ image. IsImageOf policy.now image.bytes.items image.budgets)) }
    ensures none { IfOk result (λ found. IfNone found (ExceedsALimit policy.now)) }
{
    let image = match generate(alloc, policy) {
        Ok(image) => image,
        Err(GenFault::Memory) => return Err(AllocError),
        Err(_fault) => return Ok(None),
    };
    let budgets = image.parts().budgets;
    let bytes = write(alloc, &image)?;
    Ok(Some(PolicyImage { bytes, budgets }))
}
