//! Cores that are opened on the image of a policy.

ghost use Rattle.std.specs.Prelude.{◌≡◌, [], IfOk, IfSome};
ghost use Rattle.ifs_core.specs.Carrying.{known_by};
ghost use Rattle.ifs_core.specs.Gateway.{nothing_known};
ghost use Rattle.ifs_gen.specs.Compiled.{IsWritten};
ghost use Rattle.ifs_gen.specs.PolicyImage.{image_of as image_by};
ghost use Rattle.ifs_gen.specs.Trees.{Policy as PolicyOfCore};
ghost use Rattle.ifs_policy.specs.Fits.{PolicyFits};
ghost use Rattle.ifs_play.specs.Made.{HasMade};

use crate::moves::number_of;
use crate::requests::has_request;
use ifs_base::{IfaceId, LinkState};
use ifs_core::{Carried, Core, Reply, Step};
use ifs_image::laws::one_image;
use ifs_verify::{Verified, VerifyFault, verify};
use std::alloc::{AllocError, Global};

/// The most commands of a queue.
pub const PLACES: usize = 64;

/// An accepted image. None if it is not accepted.
fn accepted(alloc: Global, image: &[u8]) -> Result<Option<Verified<'_>>, AllocError>
    ensures { (policy : PolicyOfCore) → IsWritten policy image.now → IfOk result (λ found. IfSome found (λ verified. verified ≡ image_by policy)) }
{
    one_image();
    match verify(alloc, image) {
        Ok(verified) => Ok(Some(verified)),
        Err(VerifyFault::OutOfMemory) => Err(AllocError),
        Err(_fault) => Ok(None),
    }
}

/// Opens an image with nothing known. None if it is not accepted.
pub fn open(alloc: Global, image: &[u8]) -> Result<Option<Core<'_>>, AllocError>
    ensures { (policy : PolicyOfCore) → PolicyFits policy → IsWritten policy image.now
        → IfOk result (λ found. IfSome found (HasMade policy (nothing_known (image_by policy)) [])) }
{
    let found = accepted(alloc, image)?;
    let Some(verified) = found else {
        return Ok(None);
    };
    match Core::open(alloc, verified) {
        Ok(core) => {
            // The accepted image has a behaviour.
            core.image();
            Ok(Some(core))
        }
        Err(_fault) => Err(AllocError),
    }
}

/// Opens an image with what was carried from another core. None if it is not accepted.
pub fn open_knowing(
    alloc: Global,
    image: &[u8],
    carried: Carried,
) -> Result<Option<Core<'_>>, AllocError>
    ensures { (policy : PolicyOfCore) → PolicyFits policy → IsWritten policy image.now
        → IfOk result (λ found. IfSome found (HasMade policy (known_by carried (image_by policy)) [])) }
{
    let found = accepted(alloc, image)?;
    let Some(verified) = found else {
        return Ok(None);
    };
    let core = Core::open_with(verified, carried);
    // The accepted image has a behaviour.
    core.image();
    Ok(Some(core))
}

/// What is carried from a core on an image whose links have these states. None if the image is not accepted.
pub fn carried_with(
    alloc: Global,
    image: &[u8],
    links: &[LinkState],
) -> Result<Option<Carried>, AllocError> {
    match open(alloc, image)? {
        Some(core) => {
            let mut core = core;
            set_links(&mut core, links);
            match core.carry(alloc) {
                Ok(carried) => Ok(Some(carried)),
                Err(_fault) => Err(AllocError),
            }
        }
        None => Ok(None),
    }
}

/// A core that is just opened, where these links are known if there are any.
pub fn opened_knowing<'i>(
    alloc: Global,
    image: &'i [u8],
    links: &[LinkState],
) -> Result<Option<Core<'i>>, AllocError> {
    if links.is_empty() {
        return open(alloc, image);
    }
    match carried_with(alloc, image, links)? {
        Some(carried) => open_knowing(alloc, image, carried),
        None => Ok(None),
    }
}

/// Sets the links of a core that requests can report, and takes all its commands.
fn set_links(core: &mut Core<'_>, links: &[LinkState]) {
    take_all(core);
    for (number, link) in links.iter().enumerate() {
        let interface = IfaceId(number_of(number));
        if has_request(core, interface, *link) {
            core.step(Step::Link(interface, *link));
            take_all(core);
        }
    }
}

/// Takes all commands of the queue.
fn take_all(core: &mut Core<'_>) {
    for _ in 0..PLACES {
        if !matches!(core.step(Step::Take), Reply::Taken(_)) {
            break;
        }
    }
}
