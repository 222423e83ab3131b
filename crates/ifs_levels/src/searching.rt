//! A search for all that may come of a moment.

ghost use Rattle.std.specs.Prelude.{◌≡◌, ◌⊎◌, IfOk, IfSome, None, OnOk, Some};
ghost use Rattle.ifs_solver.specs.Budgets.{IsSpent, IsUsedUp};
ghost use Rattle.ifs_solver.specs.FactSets.{domain_at, fact_set_of, HasFacts};
ghost use Rattle.ifs_levels.specs.Outcomes.{AreOutcomesOf, IsUnasked};
ghost use Rattle.ifs_levels.specs.inner.Courses.{Adds, AddsPart, AreAllOfCourse, IsCompleted, what_is_left};

use crate::courses::{Course, Evaluated, evaluate, have_no_tests};
use crate::moments::{Moment, Outcome};
use ifs_policy::Policy;
use ifs_solver::{Branch, Budget, Domain, Extent, FactSet, Scope, Search};
use std::alloc::{AllocError, Global};

/// All that may come of a moment of a policy, each under some facts. None if the budget ran out, if there is no such state, or
/// if an `init` has an external test, which no policy text can have. Returns an error if an allocation fails.
pub fn outcomes(
    alloc: Global,
    policy: &Policy,
    moment: Moment,
    budget: &mut Budget,
) -> Result<Option<Vec<Outcome>>, AllocError>
    ensures found { IfOk result (λ found. IfSome found (λ outcomes. AreOutcomesOf policy.now moment outcomes.items)) }
    ensures undecided { IfOk result (λ found. found ≡ None → IsUsedUp budget.old budget.new ⊎ IsUnasked policy.now moment) }
    ensures spent { OnOk result (IsSpent budget.old budget.new) }
{
    if !have_no_tests(policy.states()) {
        return Ok(None);
    }
    let Some(course) = Course::of(policy, moment) else {
        return Ok(None);
    };
    let found = outcomes_of(alloc, Scope::of(policy), course, budget)?;
    Ok(found)
}

/// All that may come of a course under facts of so many links and tests. None if the budget ran out.
fn outcomes_of(
    alloc: Global,
    scope: Scope,
    course: Course<'_>,
    budget: &mut Budget,
) -> Result<Option<Vec<Outcome>>, AllocError>
    ensures all { IfOk result (λ found. IfSome found (λ outcomes. AreAllOfCourse scope course.entry outcomes.items)) }
    ensures undecided { IfOk result (λ found. found ≡ None → IsUsedUp budget.old budget.new) }
    ensures spent { OnOk result (IsSpent budget.old budget.new) }
{
    let mut set = FactSet::full(alloc, scope)?;
    let mut found = Vec::new(alloc);
    let given = budget.each.min(budget.left);
    let left = add_outcomes(alloc, course, &mut set, given, &mut found)?;
    budget.count(given, search_of(left));
    Ok(completed(left, found))
}

/// What was found, unless the budget ran out.
fn completed(left: Option<u32>, found: Vec<Outcome>) -> Option<Vec<Outcome>>
    ensures all { IfSome result (λ outcomes. IsCompleted left found.items outcomes.items) }
    ensures none { result ≡ None → left ≡ None }
{
    match left {
        None => None,
        Some(_) => Some(found),
    }
}

/// What a search has left of its budget: nothing if it ran out.
fn search_of(left: Option<u32>) -> Search
    ensures { result.left ≡ what_is_left left }
{
    match left {
        None => Search {
            extent: Extent::Undecided,
            left: 0,
        },
        Some(left) => Search {
            extent: Extent::Somewhere,
            left,
        },
    }
}

/// Adds all that may come of a course within a set, which has facts, and stays. Returns what is left of the budget. None if it ran out.
#[cycle(add_outcomes)]
fn add_outcomes(
    alloc: Global,
    course: Course<'_>,
    set: &mut FactSet,
    budget: u32,
    found: &mut Vec<Outcome>,
) -> Result<Option<u32>, AllocError>
    requires { HasFacts (fact_set_of set.old) }
    ensures { IfOk result (λ left. Adds course.entry (fact_set_of set.old) (fact_set_of set.new) budget found.old.items found.new.items left) }
{
    if budget == 0 {
        return Ok(None);
    }
    let left = budget - 1;
    match evaluate(alloc, course, set)? {
        Evaluated::Known(outcome) => {
            found.push(outcome)?;
            Ok(Some(left))
        }
        Evaluated::Open(branch) => {
            let after = split(alloc, course, set, branch, left, found)?;
            Ok(after)
        }
    }
}

/// Adds those of both parts of a set: that with the value that is asked for, and that with all others.
#[cycle(add_outcomes)]
fn split(
    alloc: Global,
    course: Course<'_>,
    set: &mut FactSet,
    branch: Branch,
    budget: u32,
    found: &mut Vec<Outcome>,
) -> Result<Option<u32>, AllocError>
    requires { HasFacts (fact_set_of set.old) }
    ensures { IfOk result (λ left. Adds course.entry (fact_set_of set.old) (fact_set_of set.new) budget found.old.items found.new.items left) }
{
    let Some(domain) = set.domain(branch) else {
        return Ok(None);
    };
    let value = branch.value();
    let asked = domain.only(value);
    let first = add_part(alloc, course, set, branch, domain, asked, budget, found)?;
    match first {
        None => Ok(None),
        Some(left) => {
            let rest = domain.without(value);
            let second = add_part(alloc, course, set, branch, domain, rest, left, found)?;
            Ok(second)
        }
    }
}

/// Adds those of the part of a set with another domain at a place, and puts the domain back.
#[cycle(add_outcomes)]
fn add_part(
    alloc: Global,
    course: Course<'_>,
    set: &mut FactSet,
    branch: Branch,
    domain: Domain,
    part: Domain,
    budget: u32,
    found: &mut Vec<Outcome>,
) -> Result<Option<u32>, AllocError>
    requires facts { HasFacts (fact_set_of set.old) }
    requires domain { domain_at branch (fact_set_of set.old) ≡ Some domain }
    ensures { IfOk result (λ left. AddsPart course.entry branch part (fact_set_of set.old) (fact_set_of set.new) budget found.old.items found.new.items left) }
{
    if !part.has_one() {
        return Ok(Some(budget));
    }
    set.put(branch, part);
    let left = add_outcomes(alloc, course, set, budget, found)?;
    set.put(branch, domain);
    Ok(left)
}
