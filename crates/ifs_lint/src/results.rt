//! The results of tests in a world.

ghost use Rattle.std.specs.Prelude.{◌≡◌, List, Some, slice_get};
ghost use Rattle.std.specs.Bool.{OnTrue};
ghost use Rattle.ifs_base.specs.declared.op.LinkState.{LinkState};
ghost use Rattle.ifs_claims.specs.Changes.{AllKeepTo, KeepsTo};
ghost use Rattle.ifs_lint.specs.inner.Results.{AreResults, IsResult};

use ifs_base::TestId;
use ifs_core::{Core, Step};

/// Whether each value that one of the first tests of a core has is its result.
pub(crate) fn agrees(core: &Core<'_>, results: &[bool], count: u16) -> bool
    ensures { OnTrue result (AreResults core.now.state.position.facts.tests results.now count) }
{
    for test in 0..count {
        if !agrees_at(core, results, TestId(test)) {
            return false;
        }
    }
    true
}

/// Whether the value of a test, if it has one, is its result.
fn agrees_at(core: &Core<'_>, results: &[bool], test: TestId) -> bool
    ensures { OnTrue result (IsResult core.now.state.position.facts.tests results.now test.0) }
{
    match core.test_value(test) {
        Some(Some(value)) => is_result(results, test, value),
        _ => true,
    }
}

/// Whether a value is the result of a test.
fn is_result(results: &[bool], test: TestId, value: bool) -> bool
    ensures { OnTrue result (slice_get results.now test.0 ≡ Some value) }
{
    match results.get(usize::from(test.0)) {
        Some(result) => is_same(*result, value),
        None => false,
    }
}

/// Whether two values are the same.
fn is_same(one: bool, other: bool) -> bool
    ensures { OnTrue result (one ≡ other) }
{
    if one { other } else { !other }
}

/// Whether steps report of each test its result, and of no link anything.
pub(crate) fn keep(results: &[bool], steps: &[Step]) -> bool
    ensures { (links : List LinkState) → OnTrue result (AllKeepTo (record { links = links; results = results.now }) steps.now) }
{
    for step in steps {
        if !keeps(results, *step) {
            return false;
        }
    }
    true
}

/// Whether a step reports of a test its result, and of no link anything.
fn keeps(results: &[bool], step: Step) -> bool
    ensures { (links : List LinkState) → OnTrue result (KeepsTo (record { links = links; results = results.now }) step) }
{
    match step {
        Step::Link(_, _) => false,
        Step::Finished(test, _, value) => is_result(results, test, value),
        Step::Tick(_) | Step::Take => true,
    }
}
