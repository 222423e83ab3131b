//! Searches for facts that meet constraints.

ghost use Rattle.std.specs.Prelude.{◌≡◌, ◌≤◌, ◌+◌, ◌-◌, Some, IfOk, min};
ghost use Rattle.ifs_solver.specs.Budgets.{IsSpent};
ghost use Rattle.ifs_solver.specs.Asking.{either, meets_all, IsExtentAmong, IsExtentOf, IsSearched, is_somewhere};
ghost use Rattle.ifs_solver.specs.FactSets.{domain_at, fact_set_of, HasDomain, HasFacts, Within};
ghost use Rattle.ifs_solver.specs.inner.Searching.{IsPartSearched};

use crate::constraints::Constraint;
use crate::domains::{Branch, Domain};
use crate::fact_sets::{FactSet, Scope};
use crate::judging::judge_all;
use crate::verdicts::Verdict;
use std::alloc::{AllocError, Global};

/// Whether some facts meet constraints, break a claim, or show a difference.
#[derive(Clone, Copy, Debug, PartialEq, Eq)]
pub enum Extent {
    /// Some facts do.
    Somewhere,
    /// No facts do.
    Nowhere,
    /// The budget ran out.
    Undecided,
}

impl Extent {
    /// Whether some facts do.
    pub fn is_somewhere(self) -> bool
        ensures { result ≡ is_somewhere self }
    {
        matches!(self, Extent::Somewhere)
    }
}

/// Of two answers: whether some facts meet these constraints or those.
pub fn either(before: Extent, more: Extent) -> Extent
    ensures { result ≡ either before more }
{
    match (before, more) {
        (Extent::Somewhere, _) => Extent::Somewhere,
        (Extent::Nowhere, _) => more,
        (Extent::Undecided, Extent::Somewhere) => Extent::Somewhere,
        _ => Extent::Undecided,
    }
}

/// What a search found, and what is left of its budget.
#[derive(Clone, Copy)]
pub struct Search {
    pub extent: Extent,
    /// A number of situations.
    pub left: u32,
}

/// Searches a set for facts that meet all constraints. If there are any, the set becomes a part of it that has facts,
/// and all of these meet them. Otherwise the set stays. A search looks at `budget` situations at most, and is undecided only
/// if they are not enough. The set has facts. Does not allocate.
#[cycle(find)]
pub fn find(constraints: &[Constraint<'_>], set: &mut FactSet, budget: u32) -> Search
    requires { HasFacts (fact_set_of set.old) }
    ensures extent { IsSearched (meets_all constraints.now) (fact_set_of set.old) (fact_set_of set.new) result.extent }
    ensures left { result.left ≤ budget }
    ensures undecided { result.extent ≡ Extent.Undecided → result.left ≡ 0 }
{
    if budget == 0 {
        return Search {
            extent: Extent::Undecided,
            left: 0,
        };
    }
    let left = budget - 1;
    match judge_all(set, constraints) {
        Verdict::Known(true) => Search {
            extent: Extent::Somewhere,
            left,
        },
        Verdict::Known(false) => Search {
            extent: Extent::Nowhere,
            left,
        },
        Verdict::Open(branch) => split(constraints, set, branch, left),
    }
}

/// Searches both parts of a set: that with the value that is asked for, and that with all others.
#[cycle(find)]
fn split(constraints: &[Constraint<'_>], set: &mut FactSet, branch: Branch, budget: u32) -> Search
    requires facts { HasFacts (fact_set_of set.old) }
    requires domain { HasDomain branch (fact_set_of set.old) }
    ensures extent { IsSearched (meets_all constraints.now) (fact_set_of set.old) (fact_set_of set.new) result.extent }
    ensures left { result.left ≤ budget }
    ensures undecided { result.extent ≡ Extent.Undecided → result.left ≡ 0 }
{
    let Some(domain) = set.domain(branch) else {
        return Search {
            extent: Extent::Undecided,
            left: budget,
        };
    };
    let value = branch.value();
    let part = domain.only(value);
    let first = find_part(constraints, set, branch, domain, part, budget);
    if first.extent.is_somewhere() {
        return first;
    }
    let rest = domain.without(value);
    let second = find_part(constraints, set, branch, domain, rest, first.left);
    Search {
        extent: either(first.extent, second.extent),
        left: second.left,
    }
}

/// Searches the part of a set with another domain at a place, and puts the domain back unless something is found.
#[cycle(find)]
fn find_part(
    constraints: &[Constraint<'_>],
    set: &mut FactSet,
    branch: Branch,
    domain: Domain,
    part: Domain,
    budget: u32,
) -> Search
    requires facts { HasFacts (fact_set_of set.old) }
    requires domain { domain_at branch (fact_set_of set.old) ≡ Some domain }
    ensures extent { IsPartSearched (meets_all constraints.now) branch part (fact_set_of set.old) (fact_set_of set.new) result.extent }
    ensures left { result.left ≤ budget }
    ensures undecided { result.extent ≡ Extent.Undecided → result.left ≡ 0 }
{
    if !part.has_one() {
        return Search {
            extent: Extent::Nowhere,
            left: budget,
        };
    }
    set.put(branch, part);
    let search = find(constraints, set, budget);
    if !search.extent.is_somewhere() {
        set.put(branch, domain);
    }
    search
}

/// The situations that questions may look at, and how many questions there were.
#[derive(Clone, Copy)]
pub struct Budget {
    /// The greatest number of situations of one question.
    pub each: u32,
    /// The number of situations that are left for all questions.
    pub left: u32,
    /// The number of questions so far.
    pub questions: u32,
    /// How many of them are not decided.
    pub undecided: u32,
}

impl Budget {
    /// The budget for the questions on one policy: 20,000 situations a question, and 500,000 together.
    pub const POLICY: Budget = Budget {
        each: 20_000,
        left: 500_000,
        questions: 0,
        undecided: 0,
    };

    /// The budget, or a share of it if it has more than so many situations.
    pub fn within(self, most: u32) -> Budget
        ensures { result.left ≡ min self.left most }
    {
        let left = self.left.min(most);
        Budget {
            each: share_of(self, left),
            left,
            ..self
        }
    }

    /// Counts a question that was given a number of situations, with what a search has left of them.
    pub fn count(&mut self, given: u32, search: Search)
        ensures left { self.new.left ≡ self.old.left - (given - search.left) }
        ensures each { self.new.each ≡ self.old.each }
    {
        self.left = self.left.saturating_sub(given.saturating_sub(search.left));
        self.questions = self.questions.saturating_add(1);
        if matches!(search.extent, Extent::Undecided) {
            self.undecided = self.undecided.saturating_add(1);
        }
    }
}

/// What a question may look at, where so many situations are left in place of those of a budget.
fn share_of(budget: Budget, left: u32) -> u32 {
    let share = u64::from(budget.each)
        .saturating_mul(u64::from(left))
        .checked_div(u64::from(budget.left))
        .unwrap_or(0);
    u32::try_from(share).unwrap_or(u32::MAX)
}

/// Whether some facts of so many links and tests meet all constraints. Returns an error if an allocation fails.
pub fn ask(
    alloc: Global,
    scope: Scope,
    constraints: &[Constraint<'_>],
    budget: &mut Budget,
) -> Result<Extent, AllocError>
    ensures extent { IfOk result (λ extent. IsExtentOf scope (meets_all constraints.now) extent) }
    // It is undecided only if it has looked at as many situations as it may.
    ensures undecided { IfOk result (λ extent. extent ≡ Extent.Undecided → budget.new.left ≡ budget.old.left - min budget.old.each budget.old.left) }
    ensures spent { IsSpent budget.old budget.new }
    ensures most { budget.old.left ≤ budget.new.left + budget.old.each }
{
    let mut set = FactSet::full(alloc, scope)?;
    let given = budget.each.min(budget.left);
    let search = find(constraints, &mut set, given);
    budget.count(given, search);
    Ok(search.extent)
}

/// Whether some facts within a set meet all constraints. The set has facts. Returns an error if an allocation fails.
pub fn ask_in(
    alloc: Global,
    set: &FactSet,
    constraints: &[Constraint<'_>],
    budget: &mut Budget,
) -> Result<Extent, AllocError>
    requires { HasFacts (fact_set_of set.now) }
    ensures extent { IfOk result (λ extent. IsExtentAmong (Within (fact_set_of set.now)) (meets_all constraints.now) extent) }
    // It is undecided only if it has looked at as many situations as it may.
    ensures undecided { IfOk result (λ extent. extent ≡ Extent.Undecided → budget.new.left ≡ budget.old.left - min budget.old.each budget.old.left) }
    ensures spent { IsSpent budget.old budget.new }
    ensures most { budget.old.left ≤ budget.new.left + budget.old.each }
{
    let mut part = set.copied(alloc)?;
    let given = budget.each.min(budget.left);
    let search = find(constraints, &mut part, given);
    budget.count(given, search);
    Ok(search.extent)
}
