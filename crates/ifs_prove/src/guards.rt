//! What is asked behind `while`, as the search for facts asks it.

ghost use Rattle.std.specs.Prelude.{◌≡◌};
ghost use Rattle.ifs_prove.specs.Claiming.{guard_in};
ghost use Rattle.ifs_solver.specs.Asking.{guard_of};

use ifs_claim_parse::{Premise, Values};
use ifs_solver::Guard;

/// The guard that a premise says.
pub(crate) fn guard_of(premise: &Premise) -> Guard<'_>
    ensures { guard_of result ≡ guard_in premise.now }
{
    let condition = &premise.condition;
    match premise.values {
        Values::Any => Guard::True(condition),
        Values::Known => Guard::Known(condition),
        Values::Unknown => Guard::Unknown(condition),
    }
}
