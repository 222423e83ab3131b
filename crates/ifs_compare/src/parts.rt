//! What is said of the parts of two policies.

ghost use Rattle.std.specs.Bool.{OnFalse, OnTrue};
ghost use Rattle.std.specs.Prelude.{◌≡◌, ◌≢◌, ◌⊎◌, ◌&&◌, ◌||◌, ◌<◌, ◌^◌, true, IfOk, length};
ghost use Rattle.ifs_gen.specs.PlainSizes.{mask_of_part};
ghost use Rattle.ifs_policy.specs.Meaning.{body_yield};
ghost use Rattle.ifs_compare.specs.Differing.{HaveOtherTests};
ghost use Rattle.ifs_compare.specs.inner.Comparing.{is_alike, is_judged_open, is_open, is_part_alike, is_part_open, is_undecided};
ghost use Rattle.ifs_compare.specs.inner.Comparing.{AreJudged, AreSidesAlike, IsAnswer, IsEvaluationAnswer, IsJudged, IsNumberedAnswer, IsPartAnswer};
ghost use Rattle.ifs_compare.specs.inner.Comparing.{IsSpentAfter, IsStateAnswer, IsWithin, SidesDiffer};
ghost use Rattle.ifs_compare.specs.Spent.{IsSpent};

use crate::answering::{Answer, compare_evaluations, compare_handlers};
use crate::effort::Effort;
use crate::sides::Sides;
use ifs_base::{StateId, TestId};
use ifs_policy::{Handlers, mentions};
use ifs_solver::{Bodies, Handler, Scope};
use std::alloc::{AllocError, Global};

/// What is said of two parts.
#[derive(Drop)]
pub(crate) struct PartAnswer {
    /// Whether the inits have the same commands.
    pub init: Answer,
    /// Whether the bodies have the same commands and wishes. If not, evaluations may still do the same.
    pub body: Answer,
    /// Whether the same tests are active.
    pub active: bool,
}

impl PartAnswer {
    /// Whether they do the same apart from evaluations.
    fn is_part_alike(&self) -> bool
        ensures { result ≡ is_part_alike self.now }
    {
        self.init.is_same() && self.active
    }
}

/// What is said of a state.
#[derive(Drop)]
pub(crate) struct StateAnswer {
    pub part: PartAnswer,
    /// Whether evaluations run the same commands and lead to the same state.
    pub evaluation: Answer,
}

impl StateAnswer {
    /// Whether the state does the same.
    pub fn is_alike(&self) -> bool
        ensures { result ≡ is_alike self.now }
    {
        self.evaluation.is_same() && self.part.is_part_alike()
    }
}

/// What is said of states, in order.
#[derive(Drop)]
pub(crate) struct StateAnswers {
    pub answers: Vec<StateAnswer>,
    /// Whether all do the same.
    pub alike: bool,
}

/// What is said of two policies.
#[derive(Drop)]
pub(crate) struct Judged {
    pub always: PartAnswer,
    pub states: Vec<StateAnswer>,
    /// Whether they do the same.
    pub alike: bool,
}

/// Both are so.
fn both(one: bool, other: bool) -> bool
    ensures { result ≡ (one && other) }
{
    one && other
}

/// Whether two numbers are those of the same state.
pub(crate) fn same_state(one: StateId, other: StateId) -> bool
    ensures same { OnTrue result (one ≡ other) }
    ensures apart { OnFalse result (one ≢ other) }
{
    one.0 == other.0
}

/// Whether there are as many parts of states.
fn same_length(old: &[Handlers], new: &[Handlers]) -> bool
    ensures same { OnTrue result (length old.now ≡ length new.now) }
    ensures apart { OnFalse result (length old.now ≢ length new.now) }
{
    old.len() == new.len()
}

/// Whether two parts mention the same of the tests in their bodies.
fn same_active(scope: Scope, old: &Handlers, new: &Handlers) -> bool
    requires { scope.tests < 2 ^ 16 }
    ensures same { OnTrue result (mask_of_part scope.tests old.now ≡ mask_of_part scope.tests new.now) }
    ensures apart { OnFalse result (HaveOtherTests scope old.now new.now) }
{
    for index in 0..scope.tests {
        let test = TestId(index as u16);
        if mentions(test, &old.body) != mentions(test, &new.body) {
            return false;
        }
    }
    true
}

/// Compares two parts, one handler after the other. Returns an error if an allocation fails.
fn judge_part<'a>(
    alloc: Global,
    scope: Scope,
    old: &'a Handlers,
    new: &'a Handlers,
    effort: &mut Effort,
) -> Result<PartAnswer, AllocError>
    requires { scope.tests < 2 ^ 16 }
    ensures answer { IfOk result (λ answer. IsPartAnswer scope old.now new.now answer) }
    ensures spent { IfOk result (λ answer. IsSpent effort.old effort.new (is_part_open answer)) }
{
    let (one, other) = (Handler::Init(&old.init), Handler::Init(&new.init));
    let init = compare_handlers(alloc, scope, one, other, effort)?;
    let (one, other) = (Handler::Body(&old.body), Handler::Body(&new.body));
    let body = compare_handlers(alloc, scope, one, other, effort)?;
    let active = same_active(scope, old, new);
    Ok(PartAnswer { init, body, active })
}

/// A state of two policies.
#[derive(Clone, Copy)]
struct StatePair<'a> {
    state: StateId,
    old_always: &'a Handlers,
    new_always: &'a Handlers,
    old: &'a Handlers,
    new: &'a Handlers,
}

impl<'a> StatePair<'a> {
    /// The bodies of evaluations in the old policy.
    fn old_bodies(self) -> Bodies<'a>
        ensures state { result.state ≡ self.entry.state }
        ensures always { result.always.now ≡ self.entry.old_always.now.body }
        ensures own { result.own.now ≡ self.entry.old.now.body }
    {
        Bodies {
            state: self.state,
            always: &self.old_always.body,
            own: &self.old.body,
        }
    }

    /// The same in the new one.
    fn new_bodies(self) -> Bodies<'a>
        ensures state { result.state ≡ self.entry.state }
        ensures always { result.always.now ≡ self.entry.new_always.now.body }
        ensures own { result.own.now ≡ self.entry.new.now.body }
    {
        Bodies {
            state: self.state,
            always: &self.new_always.body,
            own: &self.new.body,
        }
    }
}

/// Compares a state. What is said of the bodies outside any state is known. Returns an error if an allocation fails.
fn judge_state(
    alloc: Global,
    scope: Scope,
    pair: StatePair<'_>,
    always: &Answer,
    effort: &mut Effort,
) -> Result<StateAnswer, AllocError>
    requires tests { scope.tests < 2 ^ 16 }
    requires outside { IsAnswer scope (λ facts. body_yield facts pair.old_always.now.body) (λ facts. body_yield facts pair.new_always.now.body) always.now }
    ensures answer { IfOk result (λ answer. IsStateAnswer scope pair.entry.state pair.entry.old_always.now pair.entry.new_always.now pair.entry.old.now pair.entry.new.now answer) }
    ensures spent { IfOk result (λ answer. IsSpentAfter (is_undecided always.now) effort.old effort.new (is_open answer)) }
{
    let part = judge_part(alloc, scope, pair.old, pair.new, effort)?;
    let evaluation = judge_evaluation(alloc, scope, pair, always, &part.body, effort)?;
    Ok(StateAnswer { part, evaluation })
}

/// Compares evaluations in a state. If the bodies are the same one by one, so are these.
fn judge_evaluation(
    alloc: Global,
    scope: Scope,
    pair: StatePair<'_>,
    always: &Answer,
    body: &Answer,
    effort: &mut Effort,
) -> Result<Answer, AllocError>
    requires outside { IsAnswer scope (λ facts. body_yield facts pair.old_always.now.body) (λ facts. body_yield facts pair.new_always.now.body) always.now }
    requires inside { IsAnswer scope (λ facts. body_yield facts pair.old.now.body) (λ facts. body_yield facts pair.new.now.body) body.now }
    ensures answer { IfOk result (λ answer. IsEvaluationAnswer scope pair.entry.state pair.entry.old_always.now.body pair.entry.new_always.now.body pair.entry.old.now.body pair.entry.new.now.body answer) }
    ensures spent { IfOk result (λ answer. IsSpentAfter (is_undecided always.now || is_undecided body.now) effort.old effort.new (is_undecided answer)) }
{
    if body.is_same() && always.is_same() {
        return Ok(Answer::Same);
    }
    let first = differing(alloc, scope, always, body)?;
    let (old, new) = (pair.old_bodies(), pair.new_bodies());
    let answer = compare_evaluations(alloc, scope, old, new, first, effort)?;
    Ok(answer)
}

/// What is said of the body of a state, or if it is the same, of the bodies outside any state.
fn differing(
    alloc: Global,
    scope: Scope,
    always: &Answer,
    body: &Answer,
) -> Result<Answer, AllocError>
    requires outside { IsWithin scope always.now }
    requires inside { IsWithin scope body.now }
    ensures within { IfOk result (λ first. IsWithin scope first) }
    ensures undecided { IfOk result (λ first. is_undecided first ≡ true → (is_undecided always.now || is_undecided body.now) ≡ true) }
{
    if body.is_same() {
        let first = always.copied(alloc)?;
        Ok(first)
    } else {
        let first = body.copied(alloc)?;
        Ok(first)
    }
}

/// Compares the state with this number. There are fewer states than numbers.
fn judge_numbered(
    alloc: Global,
    scope: Scope,
    sides: Sides<'_>,
    index: usize,
    always: &Answer,
    effort: &mut Effort,
) -> Result<StateAnswer, AllocError>
    requires tests { scope.tests < 2 ^ 16 }
    requires numbers { length sides.new.states.now < 2 ^ 16 }
    requires old { index < length sides.old.states.now }
    requires new { index < length sides.new.states.now }
    requires always { IsAnswer scope (λ facts. body_yield facts sides.old.always.now.body) (λ facts. body_yield facts sides.new.always.now.body) always.now }
    ensures answer { IfOk result (λ answer. IsNumberedAnswer scope sides.entry index answer) }
    ensures spent { IfOk result (λ answer. IsSpentAfter (is_undecided always.now) effort.old effort.new (is_open answer)) }
{
    let pair = StatePair {
        state: StateId(index as u16),
        old_always: sides.old.always,
        new_always: sides.new.always,
        old: &sides.old.states[index],
        new: &sides.new.states[index],
    };
    let answer = judge_state(alloc, scope, pair, always, effort)?;
    Ok(answer)
}

/// Compares the states, in order. Those that only one policy has are left out, and then they are not alike.
fn judge_states(
    alloc: Global,
    scope: Scope,
    sides: Sides<'_>,
    always: &Answer,
    effort: &mut Effort,
) -> Result<StateAnswers, AllocError>
    requires tests { scope.tests < 2 ^ 16 }
    requires numbers { length sides.new.states.now < 2 ^ 16 }
    requires outside { IsAnswer scope (λ facts. body_yield facts sides.old.always.now.body) (λ facts. body_yield facts sides.new.always.now.body) always.now }
    ensures judged { IfOk result (λ it. AreJudged scope sides.entry (is_undecided always.now) effort.old effort.new it) }
{
    let mut answers = Vec::new(alloc);
    let mut alike = true;
    let count = sides.old.states.len().min(sides.new.states.len());
    for index in 0..count {
        let answer = judge_numbered(alloc, scope, sides, index, always, effort)?;
        alike = both(alike, answer.is_alike());
        answers.push(answer)?;
    }
    let alike = both(alike, same_length(sides.old.states, sides.new.states));
    Ok(StateAnswers { answers, alike })
}

/// Whether two policies begin in the same state.
fn same_initial(sides: Sides<'_>) -> bool
    ensures same { OnTrue result (sides.entry.old.initial ≡ sides.entry.new.initial) }
    ensures apart { OnFalse result (sides.entry.old.initial ≢ sides.entry.new.initial) }
{
    same_state(sides.old.initial, sides.new.initial)
}

/// Compares the parts outside any state. Returns an error if an allocation fails.
fn judge_always(
    alloc: Global,
    scope: Scope,
    sides: Sides<'_>,
    effort: &mut Effort,
) -> Result<PartAnswer, AllocError>
    requires { scope.tests < 2 ^ 16 }
    ensures answer { IfOk result (λ answer. IsPartAnswer scope sides.entry.old.always.now sides.entry.new.always.now answer) }
    ensures spent { IfOk result (λ answer. IsSpent effort.old effort.new (is_part_open answer)) }
{
    let answer = judge_part(alloc, scope, sides.old.always, sides.new.always, effort)?;
    Ok(answer)
}

/// Compares two policies over the same tables. Returns an error if an allocation fails.
pub(crate) fn judge_sides(
    alloc: Global,
    scope: Scope,
    sides: Sides<'_>,
    effort: &mut Effort,
) -> Result<Judged, AllocError>
    requires tests { scope.tests < 2 ^ 16 }
    requires numbers { length sides.new.states.now < 2 ^ 16 }
    ensures alike { IfOk result (λ it. OnTrue it.alike (AreSidesAlike scope sides.entry.old.initial sides.entry.new.initial sides.entry.old.always.now sides.entry.new.always.now sides.entry.old.states.now sides.entry.new.states.now)) }
    ensures judged { IfOk result (λ it. IsJudged scope sides.entry it) }
    // If they are not known to do the same, something is not decided, or they do something else.
    ensures apart { IfOk result (λ it. OnFalse it.alike ((is_judged_open it ≡ true) ⊎ SidesDiffer scope sides.entry)) }
    // Something is not decided only if the situations are used up.
    ensures spent { IfOk result (λ it. IsSpent effort.old effort.new (is_judged_open it)) }
{
    let always = judge_always(alloc, scope, sides, effort)?;
    let states = judge_states(alloc, scope, sides, &always.body, effort)?;
    let initial = same_initial(sides);
    let alike = both(initial, both(always.is_part_alike(), states.alike));
    Ok(Judged {
        always,
        states: states.answers,
        alike,
    })
}
