//! What is said of two handlers.

ghost use Rattle.std.specs.Bool.{OnTrue};
ghost use Rattle.std.specs.Prelude.{◌≡◌, ◌⊎◌, true, IfOk, IfSome, OnOk};
ghost use Rattle.ifs_solver.specs.FactSets.{fact_set_of};
ghost use Rattle.ifs_compare.specs.inner.Comparing.{is_same, is_undecided, AgreeAlways, HasMiddles, IsAnswer, IsDifference, IsEvaluationAnswer};
ghost use Rattle.ifs_compare.specs.Spent.{IsReduced, IsSpent, IsUsedUp};
ghost use Rattle.ifs_compare.specs.inner.Comparing.{IsSame, IsWithin};
ghost use Rattle.ifs_solver.specs.Reaching.{yield_by};

use crate::effort::Effort;
use crate::identity::same_block;
use crate::middles::{Middles, middles_of};
use crate::searching::{Pair, search_range};
use ifs_solver::{Bodies, Extent, FactSet, Handler, Scope};
use std::alloc::{AllocError, Global};

/// What is said of two handlers.
#[derive(Drop)]
pub(crate) enum Answer {
    /// They yield the same under all facts.
    Same,
    /// They differ under some facts of this range.
    Different(FactSet),
    /// The budget ran out.
    Undecided,
}

impl Answer {
    /// Whether they yield the same.
    pub fn is_same(&self) -> bool
        ensures { result ≡ is_same self.now }
    {
        matches!(self, Answer::Same)
    }

    /// Whether the budget ran out.
    pub fn is_undecided(&self) -> bool
        ensures { result ≡ is_undecided self.now }
    {
        matches!(self, Answer::Undecided)
    }

    /// The same answer. Returns an error if an allocation fails.
    pub fn copied(&self, alloc: Global) -> Result<Answer, AllocError>
        ensures { IfOk result (λ copy. IsSame self.now copy) }
    {
        Ok(match self {
            Answer::Same => Answer::Same,
            Answer::Different(range) => Answer::Different(range.copied(alloc)?),
            Answer::Undecided => Answer::Undecided,
        })
    }
}

/// Whether two handlers are the same, statement by statement.
fn same_handlers(old: Handler<'_>, new: Handler<'_>) -> bool
    ensures { OnTrue result (AgreeAlways (yield_by old.entry) (yield_by new.entry)) }
{
    match (old, new) {
        (Handler::Init(one), Handler::Init(other)) => same_block(one, other),
        (Handler::Body(one), Handler::Body(other)) => same_block(one, other),
        _ => false,
    }
}

/// Two handlers with the middles of their blocks.
fn pair_of<'a>(old: Handler<'a>, new: Handler<'a>) -> Pair<'a>
    ensures old { result.old ≡ old.entry }
    ensures new { result.new ≡ new.entry }
    ensures middles { HasMiddles old.entry new.entry result.middles.old.now result.middles.new.now }
{
    Pair {
        old,
        new,
        middles: middles_of(old.statements(), new.statements()),
    }
}

/// Two handlers with their whole blocks.
fn whole_pair<'a>(old: Handler<'a>, new: Handler<'a>) -> Pair<'a>
    ensures old { result.old ≡ old.entry }
    ensures new { result.new ≡ new.entry }
    ensures middles { HasMiddles old.entry new.entry result.middles.old.now result.middles.new.now }
{
    Pair {
        old,
        new,
        middles: Middles {
            old: old.statements(),
            new: new.statements(),
        },
    }
}

/// Compares two handlers under all facts. Returns an error if an allocation fails.
pub(crate) fn compare_handlers<'a>(
    alloc: Global,
    scope: Scope,
    old: Handler<'a>,
    new: Handler<'a>,
    effort: &mut Effort,
) -> Result<Answer, AllocError>
    ensures answer { IfOk result (λ answer. IsAnswer scope (yield_by old.entry) (yield_by new.entry) answer) }
    ensures spent { IfOk result (λ answer. IsSpent effort.old effort.new (is_undecided answer)) }
{
    if same_handlers(old, new) {
        return Ok(Answer::Same);
    }
    let answer = compare_pair(alloc, scope, pair_of(old, new), effort)?;
    Ok(answer)
}

/// Compares evaluations in a state, whose bodies are not known to be the same one by one. `first` is what is said of one body.
/// Returns an error if an allocation fails.
pub(crate) fn compare_evaluations<'a>(
    alloc: Global,
    scope: Scope,
    old: Bodies<'a>,
    new: Bodies<'a>,
    first: Answer,
    effort: &mut Effort,
) -> Result<Answer, AllocError>
    requires state { old.state ≡ new.state }
    requires first { IsWithin scope first }
    ensures answer { IfOk result (λ answer. IsEvaluationAnswer scope old.entry.state old.entry.always.now new.entry.always.now old.entry.own.now new.entry.own.now answer) }
    ensures reduced { OnOk result (IsReduced effort.old effort.new) }
    ensures undecided { IfOk result (λ answer. is_undecided answer ≡ true → (is_undecided first ≡ true) ⊎ IsUsedUp effort.old effort.new) }
{
    if first.is_undecided() {
        return Ok(Answer::Undecided);
    }
    let pair = whole_pair(Handler::Evaluation(old), Handler::Evaluation(new));
    match differing_in(alloc, scope, pair, first, effort)? {
        Some(range) => Ok(Answer::Different(range)),
        None => {
            let answer = compare_pair(alloc, scope, pair, effort)?;
            Ok(answer)
        }
    }
}

/// Facts under which two evaluations differ, among those under which one of their bodies does.
fn differing_in(
    alloc: Global,
    scope: Scope,
    pair: Pair<'_>,
    first: Answer,
    effort: &mut Effort,
) -> Result<Option<FactSet>, AllocError>
    requires middles { HasMiddles pair.old pair.new pair.middles.old.now pair.middles.new.now }
    requires first { IsWithin scope first }
    ensures found { IfOk result (λ found. IfSome found (λ range. IsDifference scope (fact_set_of range) (yield_by pair.entry.old) (yield_by pair.entry.new))) }
    ensures reduced { OnOk result (IsReduced effort.old effort.new) }
{
    let Answer::Different(range) = first else {
        return Ok(None);
    };
    let mut range = range;
    let given = effort.each.min(effort.left);
    let found = search_range(alloc, pair, &mut range, given)?;
    effort.spend(given, found.left);
    Ok(if found.finding.is_somewhere() {
        Some(range)
    } else {
        None
    })
}

/// Compares two handlers with their middles.
fn compare_pair(
    alloc: Global,
    scope: Scope,
    pair: Pair<'_>,
    effort: &mut Effort,
) -> Result<Answer, AllocError>
    requires { HasMiddles pair.old pair.new pair.middles.old.now pair.middles.new.now }
    ensures answer { IfOk result (λ answer. IsAnswer scope (yield_by pair.entry.old) (yield_by pair.entry.new) answer) }
    ensures spent { IfOk result (λ answer. IsSpent effort.old effort.new (is_undecided answer)) }
{
    let mut range = FactSet::full(alloc, scope)?;
    let given = effort.each.min(effort.left);
    let found = search_range(alloc, pair, &mut range, given)?;
    effort.spend(given, found.left);
    Ok(match found.finding {
        Extent::Nowhere => Answer::Same,
        Extent::Somewhere => Answer::Different(range),
        Extent::Undecided => Answer::Undecided,
    })
}
