//! Laws about claims.

ghost use Rattle.ifs_prove.specs.Breaking.{NoneIsBoth};
ghost use Rattle.ifs_prove.specs.Claiming.{ClaimsHoldOfCores};

use ifs_claims::laws::{changes_carry_over, claims_carry_over};

/// A claim that holds of a policy holds of each core that is opened on its image.
pub fn claims_hold_of_cores()
    ensures { ClaimsHoldOfCores }
{
    claims_carry_over();
    changes_carry_over();
}

/// No claim holds of a policy and is broken by steps.
pub fn none_is_both()
    ensures { NoneIsBoth }
{}
