//! Conditions with places for names.

ghost use Rattle.std.specs.Prelude.{◌≡◌, IfOk};
ghost use Rattle.ifs_policy.specs.Fits.{SingleFits, sizes_of};
ghost use Rattle.ifs_policy.specs.Resolution.{place_single};
ghost use Rattle.ifs_policy.specs.Tables.{test_of};
ghost use Rattle.ifs_claim_parse.specs.inner.Placing.{IsPlacedIn, IsPlacedSingle};

use crate::fault::{LineFault, Why, Wrong};
use crate::names::{interface_named, test_named};
use ifs_parse::{Condition, Name, Period, Test};
use ifs_policy::{ExternalTest, LeafMap, Single, Tables, replace_leaves};
use std::alloc::{AllocError, Global};

/// The fault at a name. The tokens of its condition have the numbers from 1 on, and those of the fault are from 0.
fn wrong_at(name: &Name, why: Why) -> LineFault {
    LineFault::Wrong(Wrong {
        index: name.place.number.saturating_sub(1),
        why,
    })
}

/// The test of a command and a period.
fn test_of(command: &Name, period: Period) -> Result<ExternalTest, AllocError>
    ensures { IfOk result (λ test. test ≡ test_of command.now period) }
{
    Ok(ExternalTest {
        command: command.text.clone()?,
        period,
    })
}

/// A single test, with the place of its interface or of the test.
fn place_single(tables: &Tables, test: &Test) -> Result<Single, LineFault>
    ensures { IfOk result (λ single. IsPlacedSingle tables.now test.now single) }
{
    match test {
        Test::Link(name, state) => match interface_named(tables, &name.text) {
            Some(interface) => Ok(Single::LinkIs(interface, *state)),
            None => Err(wrong_at(name, Why::Interface)),
        },
        Test::External(command, period) => {
            let entry = test_of(command, *period)?;
            match test_named(tables, &entry) {
                Some(number) => Ok(Single::TestIs(number)),
                None => Err(wrong_at(command, Why::Test)),
            }
        }
    }
}

/// Places in the tables of a policy for the names in tests.
#[derive(Clone, Copy)]
struct PlaceMap<'a> {
    tables: &'a Tables,
}

impl LeafMap<Test> for PlaceMap<'_> {
    type Fault = LineFault;

    ghost can = { λ it. Unit {0} };

    ghost image = { λ it. place_single it.tables.now };

    ghost fits = { λ it. SingleFits (sizes_of it.tables.now) };

    fn single(&self, test: &Test) -> Result<Single, LineFault> {
        let single = place_single(self.tables, test)?;
        Ok(single)
    }
}

/// A condition with places for names. A fault has the number of a token of the condition, from 0.
pub fn place_condition(
    alloc: Global,
    tables: &Tables,
    condition: &Condition<Test>,
) -> Result<Condition<Single>, LineFault>
    ensures { IfOk result (λ placed. IsPlacedIn tables.now condition.now placed) }
{
    let placed = replace_leaves(alloc, &PlaceMap { tables }, condition)?;
    Ok(placed)
}
