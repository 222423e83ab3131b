//! Single facts of a range.

ghost use Rattle.std.specs.Prelude.{◌≡◌, IfOk, map};
ghost use Rattle.ifs_solver.specs.FactSets.{fact_set_of};
ghost use Rattle.ifs_compare.specs.inner.Points.{narrowed, point_in};

use ifs_base::LinkState;
use ifs_solver::{Domain, FactSet};
use std::alloc::{AllocError, Global};

/// Some facts of a range: this value where it may be, else down, up or unknown.
pub(crate) fn point_of(
    alloc: Global,
    range: &FactSet,
    first: LinkState,
) -> Result<FactSet, AllocError>
    ensures { IfOk result (λ point. fact_set_of point ≡ point_in first (fact_set_of range.now)) }
{
    let links = values_in(alloc, range.links.as_slice(), first)?;
    let tests = values_in(alloc, range.tests.as_slice(), first)?;
    Ok(FactSet { links, tests })
}

/// One value of each of some choices.
fn values_in(alloc: Global, choices: &[Domain], first: LinkState) -> Result<Vec<Domain>, AllocError>
    ensures { IfOk result (λ values. values.items ≡ map (narrowed first) choices.now) }
{
    let mut values = Vec::new(alloc);
    for choice in choices {
        values.push(value_in(*choice, first))?;
    }
    Ok(values)
}

/// One value of a choice.
fn value_in(choice: Domain, first: LinkState) -> Domain
    ensures { result ≡ narrowed first choice }
{
    if choice.allows(first) {
        choice.only(first)
    } else if choice.down {
        choice.only(LinkState::Down)
    } else if choice.up {
        choice.only(LinkState::Up)
    } else {
        choice.only(LinkState::Unknown)
    }
}
