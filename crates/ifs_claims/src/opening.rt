//! Facts at openings.

ghost use Rattle.std.specs.Prelude.{◌≡◌, IfOk};
ghost use Rattle.ifs_solver.specs.FactSets.{fact_set_of};
ghost use Rattle.ifs_claims.specs.inner.Opening.{opening_fact_set};

use crate::asked_sets::NO_VALUE;
use ifs_solver::{Domain, FactSet, Scope};
use std::alloc::{AllocError, Global};

/// The set of the facts at openings: no test has a value.
pub(crate) fn opening_set(alloc: Global, scope: Scope) -> Result<FactSet, AllocError>
    ensures { IfOk result (λ set. fact_set_of set ≡ opening_fact_set scope) }
{
    let links = vec![in alloc; Domain::ANY; scope.links]?;
    let tests = vec![in alloc; NO_VALUE; scope.tests]?;
    Ok(FactSet { links, tests })
}
