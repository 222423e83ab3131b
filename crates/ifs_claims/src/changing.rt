//! How often the state changes while no fact does.

ghost use Rattle.std.specs.Prelude.{◌≡◌, IfOk, OnOk, slice_get};
ghost use Rattle.ifs_parse.specs.Views.{block_of};
ghost use Rattle.ifs_policy.specs.Fits.{PolicyFits};
ghost use Rattle.ifs_solver.specs.Budgets.{IsSpent, IsUsedUp};
ghost use Rattle.ifs_claims.specs.Changes.{IsToldOfChanges};
ghost use Rattle.ifs_claims.specs.inner.Going.{where_always, where_each, where_goes, where_over, where_own, where_unless, IsSame, IsSearchIn};
ghost use Rattle.ifs_claims.specs.inner.Going.{where_always_if, where_leaves, where_own_if, where_starts};
ghost use Rattle.ifs_claims.specs.inner.Setting.{marks_of};
ghost use Rattle.ifs_claims.specs.inner.Widening.{Widens};

use crate::asking::ask_also;
use crate::beginning::Leaving;
use crate::reachable_states::ReachableStates;
use crate::setting::{is_marked, mark, sets};
use crate::sharing::shares;
use crate::told::within;
use ifs_base::StateId;
use ifs_policy::{Handlers, PolicyBlock};
use ifs_solver::{Aim, Budget, Constraint, Extent, PolicyStatement, Scope, ask, either};
use std::alloc::{AllocError, Global};

/// A search for facts under which one change of the state follows another.
#[derive(Drop)]
pub(crate) struct Goings<'a> {
    alloc: Global,
    scope: Scope,
    /// The body outside any state.
    always: &'a PolicyBlock,
    states: &'a [Handlers],
    /// The number of states that are looked at.
    count: u16,
    /// What the changes so far demand.
    context: Vec<Constraint<'a>>,
    pub(crate) budget: Budget,
}

impl<'a> Goings<'a> {
    /// Whether some facts pass the earlier test, or let a state be left so often.
    #[cycle(go)]
    pub(crate) fn go(
        &mut self,
        before: Extent,
        left: u32,
        state: StateId,
    ) -> Result<Extent, AllocError>
        ensures goes { IfOk result (λ after. Widens self.old.scope (where_goes self.old left state) before after) }
        ensures stays { OnOk result (IsSame self.old self.new) }
    {
        if left == 0 {
            let context = self.context.as_slice();
            let after = ask_also(self.alloc, self.scope, before, context, &mut self.budget)?;
            return Ok(after);
        }
        let marks = self.marks(state)?;
        let mut extent = before;
        for next in 0..self.count {
            if is_marked(marks.as_slice(), next) {
                extent = self.each(extent, left - 1, state, next)?;
            }
        }
        Ok(extent)
    }

    /// For each state, whether the body of a state sets it, or that outside any state. Evaluations lead to no other ones.
    fn marks(&self, state: StateId) -> Result<Vec<bool>, AllocError>
        ensures { IfOk result (λ marks. marks.items ≡ marks_of self.now.count self.now.always.now (slice_get self.now.states.now state.0)) }
    {
        let mut marks = vec![in self.alloc; false; usize::from(self.count)]?;
        mark(&mut marks, self.always);
        if let Some(part) = self.states.get(usize::from(state.0)) {
            mark(&mut marks, &part.body);
        }
        Ok(marks)
    }

    /// The same by a change to this state, with so many after it.
    #[cycle(go)]
    pub(crate) fn each(
        &mut self,
        before: Extent,
        left: u32,
        state: StateId,
        next: u16,
    ) -> Result<Extent, AllocError>
        ensures goes { IfOk result (λ after. Widens self.old.scope (where_each self.old left state next) before after) }
        ensures stays { OnOk result (IsSame self.old self.new) }
    {
        if next == state.0 {
            return Ok(before);
        }
        let by_own = self.own(before, left, state, next)?;
        let after = self.by_always(by_own, left, state, next)?;
        Ok(after)
    }

    /// The same by the body of a state.
    #[cycle(go)]
    fn own(
        &mut self,
        before: Extent,
        left: u32,
        state: StateId,
        next: u16,
    ) -> Result<Extent, AllocError>
        ensures goes { IfOk result (λ after. Widens self.old.scope (where_own self.old left state next) before after) }
        ensures stays { OnOk result (IsSame self.old self.new) }
    {
        let states = self.states;
        match states.get(usize::from(state.0)) {
            Some(part) => {
                let after = self.over(before, left, &part.body, next)?;
                Ok(after)
            }
            None => Ok(before),
        }
    }

    /// The same by the body outside any state, while that of the state is silent. Without tests of its own that one is not held
    /// back, so it is silent only if it wishes for none.
    #[cycle(go)]
    fn by_always(
        &mut self,
        before: Extent,
        left: u32,
        state: StateId,
        next: u16,
    ) -> Result<Extent, AllocError>
        ensures goes { IfOk result (λ after. Widens self.old.scope (where_always self.old left state next) before after) }
        ensures stays { OnOk result (IsSame self.old self.new) }
    {
        let states = self.states;
        let always = self.always;
        if !sets(always, StateId(next)) {
            return Ok(before);
        }
        match states.get(usize::from(state.0)) {
            Some(part) => {
                if shares(&part.body, always) {
                    let after = self.unless(before, left, part.body.statements(), next)?;
                    Ok(after)
                } else {
                    let after = self.over(before, left, always, next)?;
                    Ok(after)
                }
            }
            None => {
                let after = self.over(before, left, always, next)?;
                Ok(after)
            }
        }
    }

    /// The same by the body outside any state, unless these statements wish for a state.
    #[cycle(go)]
    fn unless(
        &mut self,
        before: Extent,
        left: u32,
        statements: &'a [PolicyStatement],
        next: u16,
    ) -> Result<Extent, AllocError>
        ensures goes { IfOk result (λ after. Widens self.old.scope (where_unless self.old left (block_of statements.now) next) before after) }
        ensures stays { OnOk result (IsSame self.old self.new) }
    {
        self.context.push(Constraint::NoWish(statements))?;
        let always = self.always;
        let after = self.over(before, left, always, next)?;
        self.context.pop();
        Ok(after)
    }

    /// The same by this body, if it sets the state. Looks no further if something was found, or was not decided.
    #[cycle(go)]
    pub(crate) fn over(
        &mut self,
        before: Extent,
        left: u32,
        body: &'a PolicyBlock,
        next: u16,
    ) -> Result<Extent, AllocError>
        ensures goes { IfOk result (λ after. Widens self.old.scope (where_over self.old left body.now next) before after) }
        ensures stays { OnOk result (IsSame self.old self.new) }
    {
        if !matches!(before, Extent::Nowhere) {
            return Ok(before);
        }
        let state = StateId(next);
        if !sets(body, state) {
            return Ok(before);
        }
        self.context.push(Constraint::Aims(body, Aim::To(state)))?;
        let after = self.on(before, left, state)?;
        self.context.pop();
        Ok(after)
    }

    /// The same from this state, unless no facts meet the constraints so far.
    #[cycle(go)]
    fn on(&mut self, before: Extent, left: u32, state: StateId) -> Result<Extent, AllocError>
        ensures goes { IfOk result (λ after. Widens self.old.scope (where_goes self.old left state) before after) }
        ensures stays { OnOk result (IsSame self.old self.new) }
    {
        let context = self.context.as_slice();
        let met = ask(self.alloc, self.scope, context, &mut self.budget)?;
        if let Extent::Nowhere = met {
            return Ok(before);
        }
        let after = self.go(before, left, state)?;
        Ok(after)
    }

    /// Whether some facts pass the earlier test, or let a state be left and so many changes follow. The first change is by the
    /// body of the state if `own` is true, or by the body outside any state if `held` is true.
    pub(crate) fn start(
        &mut self,
        before: Extent,
        left: u32,
        state: StateId,
        own: bool,
        held: bool,
    ) -> Result<Extent, AllocError>
        ensures goes { IfOk result (λ after. Widens self.old.scope (where_starts own held self.old left state self.old.count) before after) }
        ensures stays { OnOk result (IsSame self.old self.new) }
    {
        let mut extent = before;
        for next in 0..self.count {
            extent = self.start_to(extent, left, state, next, own, held)?;
        }
        Ok(extent)
    }

    /// The same where the first change is to this state.
    fn start_to(
        &mut self,
        before: Extent,
        left: u32,
        state: StateId,
        next: u16,
        own: bool,
        held: bool,
    ) -> Result<Extent, AllocError>
        ensures goes { IfOk result (λ after. Widens self.old.scope (where_leaves own held self.old left state next) before after) }
        ensures stays { OnOk result (IsSame self.old self.new) }
    {
        if next == state.0 {
            return Ok(before);
        }
        let by_own = self.own_if(before, left, state, next, own)?;
        let after = self.by_always_if(by_own, left, state, next, held)?;
        Ok(after)
    }

    /// The same by the body of the state, if `own` is true.
    fn own_if(
        &mut self,
        before: Extent,
        left: u32,
        state: StateId,
        next: u16,
        own: bool,
    ) -> Result<Extent, AllocError>
        ensures goes { IfOk result (λ after. Widens self.old.scope (where_own_if own self.old left state next) before after) }
        ensures stays { OnOk result (IsSame self.old self.new) }
    {
        if !own {
            return Ok(before);
        }
        let after = self.own(before, left, state, next)?;
        Ok(after)
    }

    /// The same by the body outside any state, if `held` is true.
    fn by_always_if(
        &mut self,
        before: Extent,
        left: u32,
        state: StateId,
        next: u16,
        held: bool,
    ) -> Result<Extent, AllocError>
        ensures goes { IfOk result (λ after. Widens self.old.scope (where_always_if held self.old left state next) before after) }
        ensures stays { OnOk result (IsSame self.old self.new) }
    {
        if !held {
            return Ok(before);
        }
        let after = self.by_always(before, left, state, next)?;
        Ok(after)
    }
}

/// A search that demands nothing so far.
pub(crate) fn search<'a>(reachable: &'a ReachableStates<'_>, budget: Budget) -> Goings<'a>
    ensures is { IsSearchIn reachable.now result }
    ensures fits { PolicyFits reachable.now }
{
    Goings {
        alloc: reachable.alloc(),
        scope: reachable.scope(),
        always: &reachable.always().body,
        states: reachable.parts(),
        count: reachable.count(),
        context: Vec::new(reachable.alloc()),
        budget,
    }
}

/// Whether the state never changes more often than this while no fact does. It is counted from wherever steps lead to, over
/// further steps that report of each link the state that it has, and of each test one result. Undecided if the budget ran
/// out. Returns an error if an allocation fails.
///
/// Facts that let it change more often than there are states let it change for ever, so no longer paths are looked at.
pub fn rests_within(
    reachable: &ReachableStates<'_>,
    most: u16,
    budget: &mut Budget,
) -> Result<Extent, AllocError>
    ensures told { IfOk result (λ told. IsToldOfChanges reachable.now most told) }
    ensures undecided { IfOk result (λ told. told ≡ Extent.Undecided → IsUsedUp budget.old budget.new) }
    ensures spent { OnOk result (IsSpent budget.old budget.new) }
{
    let count = reachable.count();
    if most <= count {
        let few = rests_within_few(reachable, most, budget)?;
        return Ok(few);
    }
    let told = rests_within_few(reachable, count, budget)?;
    Ok(told)
}

/// The same, by paths of one change more.
fn rests_within_few(
    reachable: &ReachableStates<'_>,
    most: u16,
    budget: &mut Budget,
) -> Result<Extent, AllocError>
    ensures told { IfOk result (λ told. IsToldOfChanges reachable.now most told) }
    ensures undecided { IfOk result (λ told. told ≡ Extent.Undecided → IsUsedUp budget.old budget.new) }
    ensures spent { OnOk result (IsSpent budget.old budget.new) }
{
    let given = *budget;
    let count = reachable.count();
    let mut extent = Extent::Nowhere;
    for index in 0..count {
        if let Extent::Somewhere = extent {
            return Ok(within(Extent::Somewhere, given, budget));
        }
        let leaving = Leaving {
            reachable,
            most,
            state: StateId(index),
        };
        let more = leaving.ask_going(budget)?;
        extent = either(extent, more);
    }
    Ok(within(extent, given, budget))
}
