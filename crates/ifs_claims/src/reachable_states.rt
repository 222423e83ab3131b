//! A policy with what is said of its states.

ghost use Rattle.std.specs.Bool.{OnTrue};
ghost use Rattle.std.specs.Prelude.{◌≡◌, IfNone, IfOk, IfSome};

use crate::asked_sets::asked_sets;
use ifs_base::{Items, StateId};
use ifs_policy::{Handlers, Policy, PolicyBlock};
use ifs_solver::{Budget, Extent, FactSet, Scope, StateAnswer, judge_states};
use std::alloc::{AllocError, Global};
use std::marker::Model;

/// The bodies of an evaluation: that outside any state, and that of the current state. The scope is that of their policy.
#[derive(Clone, Copy)]
pub(crate) struct Bodies<'a> {
    pub alloc: Global,
    pub scope: Scope,
    pub always: &'a PolicyBlock,
    pub own: &'a PolicyBlock,
    /// The facts in which only tests have a value that one of them asks for.
    pub set: &'a FactSet,
}

/// A policy that knows of each of its states whether steps enter it. Clauses see the policy.
#[derive(Drop)]
pub struct ReachableStates<'a> {
    alloc: Global,
    policy: &'a Policy,
    /// The answers of `judge_states`.
    states: Items<StateAnswer>,
    /// For each state, the facts in which only tests have a value that are asked for there.
    sets: Vec<FactSet>,
}

impl<'a> Model for ReachableStates<'a> {
    ghost use Rattle.ifs_policy.specs.declared.policy.PolicyParts.{PolicyParts};
    ghost use Rattle.ifs_claims.specs.inner.AskedSets.{AreAskedSets};
    ghost use Rattle.ifs_solver.specs.Situations.{AreStateAnswers};
    ghost use Rattle.std.specs.Coded.{codes};
    ghost use Rattle.ifs_policy.specs.contracts.policy.Handlers as handlers;

    ghost Value = { PolicyParts };

    ghost coded = { Prim.hlevel (codes, handlers.the_row.coded) };

    ghost view = { λ a. a.policy.now };

    ghost invariant = { λ a. AreStateAnswers a.policy.now a.states × AreAskedSets a.policy.now a.policy.now.states a.sets.items };
}

impl<'a> ReachableStates<'a> {
    ghost use Rattle.std.specs.Prelude.{length, slice_get, Some};
    ghost use Rattle.ifs_policy.specs.Fits.{PolicyFits};
    ghost use Rattle.ifs_solver.specs.FactSets.{fact_set_of, scope_of};
    ghost use Rattle.ifs_solver.specs.Situations.{IsEntryOf, IsNeverEntered};
    ghost use Rattle.ifs_claims.specs.inner.AskedSets.{asked_fact_set};
    ghost use Rattle.ifs_claims.specs.Told.{IsMissing};
    ghost use Rattle.ifs_claims.specs.inner.Stays.{AreBodiesIn};

    /// A policy whose states are judged. Returns an error if an allocation fails.
    pub fn of(
        alloc: Global,
        policy: &'a Policy,
        budget: &mut Budget,
    ) -> Result<ReachableStates<'a>, AllocError>
        ensures { IfOk result (λ reachable. reachable ≡ policy.now) }
    {
        let states = judge_states(alloc, policy, budget)?;
        let sets = asked_sets(alloc, policy)?;
        Ok(ReachableStates {
            alloc,
            policy,
            states,
            sets,
        })
    }

    /// The policy.
    pub fn policy(&self) -> &Policy
        ensures { result.now ≡ self.now }
    {
        self.policy
    }

    /// What questions on the policy allocate with.
    pub(crate) fn alloc(&self) -> Global {
        self.alloc
    }

    /// The number of states.
    pub(crate) fn count(&self) -> u16
        ensures count { result ≡ length self.now.tables.states }
        ensures fits { PolicyFits self.now }
    {
        self.policy.counts().states
    }

    /// The links and tests of the policy.
    pub(crate) fn scope(&self) -> Scope
        ensures { result ≡ scope_of self.now }
    {
        Scope::of(self.policy)
    }

    /// The initial state.
    pub(crate) fn initial(&self) -> StateId
        ensures { result ≡ self.now.initial }
    {
        self.policy.initial()
    }

    /// The part outside any state.
    pub(crate) fn always(&self) -> &Handlers
        ensures { result.now ≡ self.now.always }
    {
        self.policy.always()
    }

    /// The parts of the states.
    pub(crate) fn parts(&self) -> &[Handlers]
        ensures { result.now ≡ self.now.states }
    {
        self.policy.states()
    }

    /// The part of a state. None if there is no such state.
    pub(crate) fn part(&self, state: StateId) -> Option<&Handlers>
        ensures there { IfSome result (λ part. slice_get self.now.states state.0 ≡ Some part.now) }
        ensures none { IfNone result (IsMissing self.now state) }
    {
        self.policy.handlers(state)
    }

    /// The bodies of an evaluation in a state. None if there is no such state.
    pub(crate) fn bodies(&self, state: StateId) -> Option<Bodies<'_>>
        ensures there { IfSome result (λ bodies. AreBodiesIn self.now state bodies.always.now bodies.own.now) }
        ensures scope { IfSome result (λ bodies. bodies.scope ≡ scope_of self.now) }
        ensures set { IfSome result (λ bodies. fact_set_of bodies.set.now ≡ asked_fact_set (scope_of self.now) bodies.always.now bodies.own.now) }
        ensures none { IfNone result (IsMissing self.now state) }
    {
        let Some(part) = self.part(state) else {
            return None;
        };
        match self.sets.as_slice().get(usize::from(state.0)) {
            Some(set) => Some(Bodies {
                alloc: self.alloc,
                scope: Scope::of(self.policy),
                always: &self.policy.always().body,
                own: &part.body,
                set,
            }),
            None => None,
        }
    }

    /// Whether steps enter a state. Undecided if there is no such state.
    pub(crate) fn extent(&self, state: StateId) -> Extent
        ensures { IsEntryOf self.now state result }
    {
        match self.states.as_slice().get(usize::from(state.0)) {
            Some(answer) => answer.entered,
            None => Extent::Undecided,
        }
    }

    /// Whether no steps enter a state. Returns false if that is not decided, or if there is no such state.
    pub(crate) fn is_never(&self, state: StateId) -> bool
        ensures { OnTrue result (IsNeverEntered self.now state) }
    {
        matches!(self.extent(state), Extent::Nowhere)
    }
}
