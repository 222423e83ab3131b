//! Which states evaluations lead to, and which they leave.

ghost use Rattle.std.specs.Prelude.{◌≡◌, [], slice_get, slice_set, true, false, Any, Some, IfOk, MatchBool, OnOk};
ghost use Rattle.ifs_gen.specs.Trees.{Policy as PolicyOfTree};
ghost use Rattle.ifs_policy.specs.Fits.{PolicyFits};
ghost use Rattle.ifs_solver.specs.Asking.{IsExtentOf};
ghost use Rattle.ifs_solver.specs.Budgets.{IsSpent, IsUsedUp};
ghost use Rattle.ifs_solver.specs.Situations.{AreStateAnswers, LeavesOpen};
ghost use Rattle.ifs_solver.specs.inner.Paying.{IsPaid};
ghost use Rattle.ifs_solver.specs.inner.Touring.{ahead, where_wished, HasAskedOnly, HasNoted, IsAskedIn, IsPaidIn, IsToured, Looks, Runs, Visits};
ghost use Rattle.ifs_solver.specs.inner.Touring.{Pays, PaysAll, PaysEntry, Says, SaysAll, SaysEntry};

use crate::constraints::{Aim, Constraint};
use crate::fact_sets::Scope;
use crate::searching::{Budget, Extent, ask, either};
use ifs_base::{Items, StateId};
use ifs_policy::{Handlers, Policy, PolicyBlock};
use std::alloc::{AllocError, Global};

/// What is said of a state.
#[derive(Clone, Copy, Debug, PartialEq, Eq)]
pub struct StateAnswer {
    /// `Somewhere` if evaluations lead to it from the initial state, each under some facts. `Nowhere` if no steps enter it.
    pub entered: Extent,
    /// `Somewhere` if an evaluation in it leads to another state under some facts, `Nowhere` if none does.
    pub left: Extent,
}

/// A tour of the states that evaluations lead to.
#[derive(Drop)]
pub(crate) struct Tour<'a> {
    alloc: Global,
    scope: Scope,
    /// The body outside any state.
    always: &'a PolicyBlock,
    states: &'a [Handlers],
    /// The number of states.
    count: u16,
    /// The states that evaluations lead to, by index.
    entered: Vec<bool>,
    /// Those of them that are still to be visited.
    pending: Vec<StateId>,
    /// Whether all questions were decided.
    is_decided: bool,
    budget: Budget,
}

impl<'a> Tour<'a> {
    /// A tour that begins at the initial state. Returns an error if an allocation fails.
    fn start(alloc: Global, policy: &'a Policy, budget: Budget) -> Result<Tour<'a>, AllocError>
        ensures toured { IfOk result (IsToured policy.now budget) }
        ensures fits { PolicyFits policy.now }
    {
        let initial = policy.initial();
        let count = policy.counts().states;
        let mut entered = vec![in alloc; false; usize::from(count)]?;
        mark(&mut entered, usize::from(initial.0));
        let mut pending = Vec::new(alloc);
        pending.push(initial)?;
        Ok(Tour {
            alloc,
            scope: Scope::of(policy),
            always: &policy.always().body,
            states: policy.states(),
            count,
            entered,
            pending,
            is_decided: true,
            budget,
        })
    }

    /// Visits all states that evaluations lead to. Each is pending once.
    fn run(&mut self) -> Result<(), AllocError>
        ensures runs { OnOk result (Runs self.old self.new) }
        ensures done { OnOk result (self.new.pending.items ≡ []) }
    {
        while let Some(state) = self.pending.pop() {
            self.visit(state)?;
        }
        Ok(())
    }

    /// Looks from a state to all others.
    fn visit(&mut self, state: StateId) -> Result<(), AllocError>
        ensures visits { OnOk result (Visits state self.old self.new) }
        ensures ahead { OnOk result (ahead self.new ≡ ahead self.old) }
    {
        for next in 0..self.count {
            self.look(state, StateId(next))?;
        }
        Ok(())
    }

    /// Looks whether some facts lead from a state to another one, and marks it if they do.
    fn look(&mut self, state: StateId, next: StateId) -> Result<(), AllocError>
        ensures looks { OnOk result (Looks state next self.old self.new) }
        ensures ahead { OnOk result (ahead self.new ≡ ahead self.old) }
    {
        if self.is_unmarked(next) {
            let extent = self.ask(state, Aim::To(next))?;
            self.note(next, extent)?;
        }
        Ok(())
    }

    /// Whether a state is marked.
    fn is_marked(&self, state: StateId) -> bool
        ensures { MatchBool result (slice_get self.now.entered.items state.0 ≡ Some true) (slice_get self.now.entered.items state.0 ≡ Some true → ⊥) }
    {
        has_mark(self.entered.as_slice(), usize::from(state.0), true)
    }

    /// Whether all was decided and nothing is pending.
    fn is_done(&self) -> bool
        ensures { MatchBool result ((self.now.is_decided ≡ true) × (self.now.pending.items ≡ [])) (self.now.pending.items ≡ [] → self.now.is_decided ≡ false) }
    {
        self.is_decided && self.pending.is_empty()
    }

    /// Whether a state is there and is not marked.
    fn is_unmarked(&self, state: StateId) -> bool
        ensures { MatchBool result (slice_get self.now.entered.items state.0 ≡ Some false) (slice_get self.now.entered.items state.0 ≡ Some false → ⊥) }
    {
        has_mark(self.entered.as_slice(), usize::from(state.0), false)
    }

    /// Notes whether some facts lead to a state that is not marked.
    fn note(&mut self, next: StateId, extent: Extent) -> Result<(), AllocError>
        ensures { OnOk result (HasNoted next extent self.old self.new) }
    {
        match extent {
            Extent::Somewhere => {
                mark(&mut self.entered, usize::from(next.0));
                self.pending.push(next)?;
            }
            Extent::Nowhere => {}
            Extent::Undecided => self.is_decided = false,
        }
        Ok(())
    }

    /// Whether some facts in a state wish for one that is aimed at. Not decided if there is no such state.
    fn ask(&mut self, state: StateId, aim: Aim) -> Result<Extent, AllocError>
        ensures wished { IfOk result (λ extent. IsAskedIn self.old.scope self.old.always.now self.old.states.now state aim extent) }
        ensures asked { OnOk result (HasAskedOnly self.old self.new) }
        ensures paid { IfOk result (IsPaidIn self.old.states.now state self.old.budget self.new.budget) }
    {
        match self.states.get(usize::from(state.0)) {
            Some(part) => {
                let extent = ask_wish(
                    self.alloc,
                    self.scope,
                    self.always,
                    &part.body,
                    aim,
                    &mut self.budget,
                )?;
                Ok(extent)
            }
            None => Ok(Extent::Undecided),
        }
    }

    /// The answers for all states, in order.
    fn answers(&mut self) -> Result<Vec<StateAnswer>, AllocError>
        ensures says { IfOk result (λ answers. SaysAll self.old answers.items) }
        ensures asked { OnOk result (HasAskedOnly self.old self.new) }
        ensures paid { IfOk result (λ answers. PaysAll self.old self.new answers.items) }
    {
        let mut answers = Vec::new(self.alloc);
        for state in 0..self.count {
            let answer = self.answer(StateId(state))?;
            answers.push(answer)?;
        }
        Ok(answers)
    }

    /// The answer for a state.
    fn answer(&mut self, state: StateId) -> Result<StateAnswer, AllocError>
        ensures says { IfOk result (λ answer. Says state self.old answer) }
        ensures asked { OnOk result (HasAskedOnly self.old self.new) }
        ensures paid { IfOk result (λ answer. Pays state self.old self.new answer) }
    {
        let entered = self.entry(state);
        let left = self.ask(state, Aim::Off(state))?;
        Ok(StateAnswer { entered, left })
    }

    /// Whether a state is entered. Not decided if a question was not, or if there is no such state.
    fn entry(&self, state: StateId) -> Extent
        ensures says { SaysEntry state self.now result }
        ensures paid { PaysEntry state self.now result }
    {
        if self.is_marked(state) {
            Extent::Somewhere
        } else if self.is_unmarked(state) && self.is_done() {
            Extent::Nowhere
        } else {
            Extent::Undecided
        }
    }
}

/// Whether there is a member, which is this mark.
fn has_mark(marks: &[bool], index: usize, mark: bool) -> bool
    ensures { MatchBool result (slice_get marks.now index ≡ Some mark) (slice_get marks.now index ≡ Some mark → ⊥) }
{
    index < marks.len() && marks[index] == mark
}

/// Marks a member, if there is one.
fn mark(marks: &mut Vec<bool>, index: usize)
    ensures { marks.new.items ≡ slice_set marks.old.items index true }
{
    if index < marks.len() {
        marks[index] = true;
    }
}

/// Whether under some facts an evaluation of these bodies wishes for a state that is aimed at.
fn ask_wish(
    alloc: Global,
    scope: Scope,
    always: &PolicyBlock,
    own: &PolicyBlock,
    aim: Aim,
    budget: &mut Budget,
) -> Result<Extent, AllocError>
    ensures extent { IfOk result (λ extent. IsExtentOf scope (where_wished always.now own.now aim) extent) }
    ensures paid { IfOk result (IsPaid budget.old budget.new) }
{
    let by_own = ask(
        alloc,
        scope,
        &[Constraint::Free(own), Constraint::Aims(own, aim)],
        budget,
    )?;
    if by_own.is_somewhere() {
        return Ok(by_own);
    }
    let constraints = [
        Constraint::Silent(own),
        Constraint::Free(always),
        Constraint::Aims(always, aim),
    ];
    let by_always = ask(alloc, scope, &constraints, budget)?;
    Ok(either(by_own, by_always))
}

/// Judges the states of a policy: whether each is entered, and whether it is left. The answers are in the order of the
/// states. Returns an error if an allocation fails.
pub fn judge_states(
    alloc: Global,
    policy: &Policy,
    budget: &mut Budget,
) -> Result<Items<StateAnswer>, AllocError>
    ensures answers { IfOk result (λ answers. AreStateAnswers policy.now answers) }
    // An answer leaves something open only if the budget is used up.
    ensures undecided { IfOk result (λ answers. Any LeavesOpen answers → IsUsedUp budget.old budget.new) }
    ensures spent { IsSpent budget.old budget.new }
{
    let mut tour = Tour::start(alloc, policy, *budget)?;
    tour.run()?;
    let answers = tour.answers()?;
    *budget = tour.budget;
    Ok(Items::new(answers))
}
