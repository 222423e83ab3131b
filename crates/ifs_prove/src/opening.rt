//! Cores that are opened on the image of a policy and break a claim.

ghost use Rattle.std.specs.Prelude.{IfOk};
ghost use Rattle.std.specs.Bool.{OnTrue};
ghost use Rattle.ifs_core.specs.Carrying.{known_by};
ghost use Rattle.ifs_core.specs.Gateway.{nothing_known};
ghost use Rattle.ifs_gen.specs.Compiled.{IsWritten};
ghost use Rattle.ifs_gen.specs.PolicyImage.{image_of as image_by};
ghost use Rattle.ifs_prove.specs.Breaking.{IsBrokenBy};

use crate::replaying::breaks_on;
use crate::trial::Trial;
use ifs_claim_parse::Claim;
use ifs_core::Carried;
use ifs_play::{open, open_knowing};
use ifs_policy::Policy;
use std::alloc::{AllocError, Global};

/// Whether a core that is opened with nothing known breaks a claim by a trial.
pub(crate) fn breaks(
    alloc: Global,
    policy: &Policy,
    image: &[u8],
    claim: &Claim,
    trial: &Trial,
) -> Result<bool, AllocError>
    ensures { IsWritten policy.now image.now
        → IfOk result (λ broken. OnTrue broken (IsBrokenBy policy.now (nothing_known (image_by policy.now)) trial.now.begun.items trial.now.ending claim.now)) }
{
    let _counts = policy.counts();
    match open(alloc, image)? {
        Some(core) => {
            let mut core = core;
            let broken = breaks_on(&mut core, policy, claim, trial);
            Ok(broken)
        }
        None => Ok(false),
    }
}

/// The same of a core that is opened with what was carried from another one.
pub(crate) fn breaks_knowing(
    alloc: Global,
    policy: &Policy,
    image: &[u8],
    carried: Carried,
    claim: &Claim,
    trial: &Trial,
) -> Result<bool, AllocError>
    ensures { IsWritten policy.now image.now
        → IfOk result (λ broken. OnTrue broken (IsBrokenBy policy.now (known_by carried (image_by policy.now)) trial.now.begun.items trial.now.ending claim.now)) }
{
    let _counts = policy.counts();
    match open_knowing(alloc, image, carried)? {
        Some(core) => {
            let mut core = core;
            let broken = breaks_on(&mut core, policy, claim, trial);
            Ok(broken)
        }
        None => Ok(false),
    }
}
