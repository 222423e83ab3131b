//! The answers to whether a claim would be broken.

ghost use Rattle.std.specs.Prelude.{◌≡◌};
ghost use Rattle.ifs_solver.specs.Budgets.{IsSpent, IsUsedUp};

use ifs_solver::{Budget, Extent};

/// The answer to whether some facts break a claim. If it is not decided, then as much of the given budget is gone as one question may
/// look at, or nothing is left. No more is left than was given.
pub(crate) fn within(breaking: Extent, given: Budget, budget: &mut Budget) -> Extent
    ensures told { result ≡ breaking }
    ensures undecided { result ≡ Extent.Undecided → IsUsedUp given budget.new }
    ensures spent { IsSpent given budget.new }
{
    budget.each = given.each;
    budget.left = budget.left.min(given.left);
    if let Extent::Undecided = breaking {
        use_up(given, budget);
    }
    breaking
}

/// Takes from a budget what one question may look at, unless as much is gone already.
fn use_up(given: Budget, budget: &mut Budget)
    ensures used { IsUsedUp given budget.new }
    ensures spent { IsSpent budget.old budget.new }
{
    let most = given.left.saturating_sub(given.each);
    budget.left = budget.left.min(most);
}
