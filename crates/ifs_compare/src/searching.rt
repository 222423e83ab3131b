//! A search for facts under which two handlers differ.

ghost use Rattle.std.specs.Prelude.{◌≡◌, ◌≤◌, Some, IfOk};
ghost use Rattle.ifs_solver.specs.FactSets.{domain_at, fact_set_of, value_of, without, HasDomain, HasFacts};
ghost use Rattle.ifs_compare.specs.inner.Comparing.{middle_yield, AgreeWherever, HasMiddles, IsCompared, IsHeldBy, IsHeldOf, IsLook, IsLookBetween};
ghost use Rattle.ifs_compare.specs.inner.Comparing.{IsPartCompared, IsSeen};
ghost use Rattle.ifs_solver.specs.Reaching.{yield_by};

use crate::looking::{Look, look_of};
use crate::middles::Middles;
use crate::points::point_of;
use ifs_base::LinkState;
use ifs_solver::{
    Branch, Domain, Extent, FactSet, Handler, Verdict, either, judge_held, reached_by,
};
use std::alloc::{AllocError, Global};

/// The two handlers that are compared.
#[derive(Clone, Copy)]
pub(crate) struct Pair<'a> {
    pub old: Handler<'a>,
    pub new: Handler<'a>,
    /// Where these reach the same, so do their blocks.
    pub middles: Middles<'a>,
}

/// Whether bodies are held back within a range.
#[derive(Clone, Copy)]
enum Held {
    /// Both are.
    Both,
    /// Neither is.
    Neither,
    /// One of them is.
    One,
    /// It depends on this fact.
    Open(Branch),
}

/// What is seen of two handlers within a range.
#[derive(Clone, Copy)]
enum Seen {
    /// They yield the same under all facts.
    Same,
    /// They differ under some facts.
    Different,
    /// It depends on this fact.
    Open(Branch),
}

/// What a search found, and what is left of its budget.
#[derive(Clone, Copy)]
pub(crate) struct Search {
    /// Whether the handlers differ under some facts.
    pub finding: Extent,
    /// A number of situations.
    pub left: u32,
}

/// What a search without a budget finds.
const NOTHING_LEFT: Search = Search {
    finding: Extent::Undecided,
    left: 0,
};

/// Whether two bodies are held back, by what is known of each.
fn held_by(old: Verdict, new: Verdict) -> Held
    ensures { IsHeldBy old new result }
{
    match (old, new) {
        (Verdict::Open(ask), _) | (_, Verdict::Open(ask)) => Held::Open(ask),
        (Verdict::Known(true), Verdict::Known(true)) => Held::Both,
        (Verdict::Known(false), Verdict::Known(false)) => Held::Neither,
        _ => Held::One,
    }
}

/// Whether two handlers are held back within a range.
fn held_of(pair: Pair<'_>, range: &FactSet) -> Held
    ensures { IsHeldOf (fact_set_of range.now) pair.entry.old pair.entry.new result }
{
    match (pair.old, pair.new) {
        (Handler::Body(old), Handler::Body(new)) => held_by(
            judge_held(range, Verdict::Known(false), old),
            judge_held(range, Verdict::Known(false), new),
        ),
        (Handler::Init(_), Handler::Init(_)) => Held::Neither,
        _ => Held::One,
    }
}

/// What is seen of the middles of two handlers within a range.
fn look_between(alloc: Global, pair: Pair<'_>, range: &FactSet) -> Result<Look, AllocError>
    ensures { IfOk result (λ look. IsLookBetween (fact_set_of range.now) pair.entry.middles.old.now pair.entry.middles.new.now look) }
{
    let old = reached_by(alloc, range, pair.middles.old)?;
    let new = reached_by(alloc, range, pair.middles.new)?;
    Ok(look_of(&old, &new))
}

/// What is seen of the yields of two handlers within a range.
fn look_whole(alloc: Global, pair: Pair<'_>, range: &FactSet) -> Result<Look, AllocError>
    ensures { IfOk result (λ look. IsLook (fact_set_of range.now) (yield_by pair.entry.old) (yield_by pair.entry.new) look) }
{
    let old = pair.old.yielded(alloc, range)?;
    let new = pair.new.yielded(alloc, range)?;
    Ok(look_of(&old, &new))
}

/// What is seen of two handlers within a range by their yields.
fn see_whole(alloc: Global, pair: Pair<'_>, range: &FactSet) -> Result<Seen, AllocError>
    requires { HasFacts (fact_set_of range.now) }
    ensures { IfOk result (λ seen. IsSeen (fact_set_of range.now) (yield_by pair.entry.old) (yield_by pair.entry.new) seen) }
{
    match look_whole(alloc, pair, range)? {
        Look::Same => Ok(Seen::Same),
        Look::Different => Ok(Seen::Different),
        Look::Apart(ask) => {
            let seen = see_apart(alloc, pair, range, ask)?;
            Ok(seen)
        }
        Look::Open(ask) => Ok(Seen::Open(ask)),
    }
}

/// The same if their commands differ before something depends on a fact. They differ then, and single facts show it.
fn see_apart(
    alloc: Global,
    pair: Pair<'_>,
    range: &FactSet,
    ask: Branch,
) -> Result<Seen, AllocError>
    requires facts { HasFacts (fact_set_of range.now) }
    requires choice { HasDomain ask (fact_set_of range.now) }
    ensures { IfOk result (λ seen. IsSeen (fact_set_of range.now) (yield_by pair.entry.old) (yield_by pair.entry.new) seen) }
{
    let point = point_of(alloc, range, LinkState::Down)?;
    match look_whole(alloc, pair, &point)? {
        Look::Different => Ok(Seen::Different),
        _ => Ok(Seen::Open(ask)),
    }
}

/// What is seen of two handlers within a range in which neither is held back. Where their middles differ, what comes behind
/// them may still undo the difference.
fn see_free(alloc: Global, pair: Pair<'_>, range: &FactSet) -> Result<Seen, AllocError>
    requires facts { HasFacts (fact_set_of range.now) }
    requires same { AgreeWherever (fact_set_of range.now) (middle_yield pair.middles.old.now) (middle_yield pair.middles.new.now) (yield_by pair.old) (yield_by pair.new) }
    ensures { IfOk result (λ seen. IsSeen (fact_set_of range.now) (yield_by pair.entry.old) (yield_by pair.entry.new) seen) }
{
    match look_between(alloc, pair, range)? {
        Look::Same => Ok(Seen::Same),
        Look::Open(ask) => Ok(Seen::Open(ask)),
        _ => {
            let seen = see_whole(alloc, pair, range)?;
            Ok(seen)
        }
    }
}

/// What is seen of two handlers within a range.
fn see(alloc: Global, pair: Pair<'_>, range: &FactSet) -> Result<Seen, AllocError>
    requires middles { HasMiddles pair.old pair.new pair.middles.old.now pair.middles.new.now }
    requires facts { HasFacts (fact_set_of range.now) }
    ensures { IfOk result (λ seen. IsSeen (fact_set_of range.now) (yield_by pair.entry.old) (yield_by pair.entry.new) seen) }
{
    match held_of(pair, range) {
        Held::Both => Ok(Seen::Same),
        Held::Neither => {
            let seen = see_free(alloc, pair, range)?;
            Ok(seen)
        }
        Held::One => {
            let seen = see_whole(alloc, pair, range)?;
            Ok(seen)
        }
        Held::Open(ask) => Ok(Seen::Open(ask)),
    }
}

/// Searches a range for facts under which two handlers differ. If there are any, the range becomes a part of it that has some.
/// Otherwise the range stays. A search looks at `budget` situations at most, and is undecided only if they are not enough.
#[cycle(search_range)]
pub(crate) fn search_range(
    alloc: Global,
    pair: Pair<'_>,
    range: &mut FactSet,
    budget: u32,
) -> Result<Search, AllocError>
    requires middles { HasMiddles pair.old pair.new pair.middles.old.now pair.middles.new.now }
    requires facts { HasFacts (fact_set_of range.old) }
    ensures compared { IfOk result (λ it. IsCompared (yield_by pair.entry.old) (yield_by pair.entry.new) (fact_set_of range.old) (fact_set_of range.new) it.finding) }
    ensures left { IfOk result (λ it. it.left ≤ budget) }
    ensures undecided { IfOk result (λ it. it.finding ≡ Extent.Undecided → it.left ≡ 0) }
{
    if budget == 0 {
        return Ok(NOTHING_LEFT);
    }
    let left = budget - 1;
    match see(alloc, pair, range)? {
        Seen::Same => Ok(Search {
            finding: Extent::Nowhere,
            left,
        }),
        Seen::Different => Ok(Search {
            finding: Extent::Somewhere,
            left,
        }),
        Seen::Open(ask) => {
            let found = split(alloc, pair, range, ask, left)?;
            Ok(found)
        }
    }
}

/// Searches both parts of a range: that with the value that is asked for, and that with all others.
#[cycle(search_range)]
fn split(
    alloc: Global,
    pair: Pair<'_>,
    range: &mut FactSet,
    ask: Branch,
    budget: u32,
) -> Result<Search, AllocError>
    requires middles { HasMiddles pair.old pair.new pair.middles.old.now pair.middles.new.now }
    requires facts { HasFacts (fact_set_of range.old) }
    requires choice { HasDomain ask (fact_set_of range.old) }
    ensures compared { IfOk result (λ it. IsCompared (yield_by pair.entry.old) (yield_by pair.entry.new) (fact_set_of range.old) (fact_set_of range.new) it.finding) }
    ensures left { IfOk result (λ it. it.left ≤ budget) }
    ensures undecided { IfOk result (λ it. it.finding ≡ Extent.Undecided → it.left ≡ 0) }
{
    let Some(choice) = range.domain(ask) else {
        return Ok(Search {
            finding: Extent::Undecided,
            left: budget,
        });
    };
    let asked = choice.only(ask.value());
    let first = search_part(alloc, pair, range, ask, choice, asked, budget)?;
    if first.finding.is_somewhere() {
        return Ok(first);
    }
    let others = other_values(choice, ask);
    let second = search_part(alloc, pair, range, ask, choice, others, first.left)?;
    Ok(Search {
        finding: either(first.finding, second.finding),
        left: second.left,
    })
}

/// The values of a choice but the one that is asked for.
fn other_values(choice: Domain, ask: Branch) -> Domain
    ensures { result ≡ without (value_of ask) choice }
{
    choice.without(ask.value())
}

/// Searches the part of a range with another choice at a place, and puts the choice back unless a difference is found.
#[cycle(search_range)]
fn search_part(
    alloc: Global,
    pair: Pair<'_>,
    range: &mut FactSet,
    ask: Branch,
    choice: Domain,
    part: Domain,
    budget: u32,
) -> Result<Search, AllocError>
    requires middles { HasMiddles pair.old pair.new pair.middles.old.now pair.middles.new.now }
    requires facts { HasFacts (fact_set_of range.old) }
    requires choice { domain_at ask (fact_set_of range.old) ≡ Some choice }
    ensures compared { IfOk result (λ it. IsPartCompared (yield_by pair.entry.old) (yield_by pair.entry.new) ask part (fact_set_of range.old) (fact_set_of range.new) it.finding) }
    ensures left { IfOk result (λ it. it.left ≤ budget) }
    ensures undecided { IfOk result (λ it. it.finding ≡ Extent.Undecided → it.left ≡ 0) }
{
    if !part.has_one() {
        return Ok(Search {
            finding: Extent::Nowhere,
            left: budget,
        });
    }
    range.put(ask, part);
    let found = search_range(alloc, pair, range, budget)?;
    if !found.finding.is_somewhere() {
        range.put(ask, choice);
    }
    Ok(found)
}
