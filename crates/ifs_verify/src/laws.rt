//! Laws of acceptance: each is the contract of an empty function.

ghost use Rattle.ifs_verify.specs.Laws.{HasOneTyping, RefusedAreNotAccepted, UpgradeKeepsAcceptance};
ghost use Rattle.ifs_verify.specs.Worked.{CallsAreWorked};

use ifs_image::laws::one_image;

/// A routine has at most one typing: the kinds at a place do not depend on the way to it.
pub fn one_typing()
    ensures { HasOneTyping }
{}

/// Bytes of a refusal are not accepted, unless the fault is a failed allocation: reading fails with the fault, or
/// a check fails in the image that the bytes spell.
pub fn refused_are_not_accepted()
    ensures { RefusedAreNotAccepted }
{
    one_image();
}

/// An image and its upgrade to version 2 are accepted alike, with the same least budgets.
pub fn upgrade_keeps_acceptance()
    ensures { UpgradeKeepsAcceptance }
{}

/// A routine takes two truths and has four at most. One that calls it with three on the stack has five at most.
pub fn calls_are_worked()
    ensures { CallsAreWorked }
{}
