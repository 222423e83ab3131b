//! Where changes of the state may begin, while no fact changes. In the initial state they may. Another state was entered by an
//! evaluation that saw the same links, and the same values of the tests outside of states. Where nothing is owed, an evaluation
//! led nowhere, so the body that leads away first was held back then.

ghost use Rattle.std.specs.Bool.{OnFalse, OnTrue};
ghost use Rattle.std.specs.Prelude.{◌≡◌, IfOk, slice_get};
ghost use Rattle.ifs_solver.specs.Asking.{IsExtentOf};
ghost use Rattle.ifs_solver.specs.FactSets.{scope_of};
ghost use Rattle.ifs_claims.specs.inner.Changing.{may_wait, may_wait_in, where_far, where_led_far, where_wished_far, AreNotLed, CoversTests, IsNeverHeld, IsNotLed, IsNotLedHeld, SharesTests};
ghost use Rattle.ifs_claims.specs.inner.Changing.{AreEntriesQuiet, IsEntryQuiet, IsQuietAtRest, IsStateQuietFor};

use crate::changing::search;
use crate::reachable_states::ReachableStates;
use crate::sharing::{is_untested, shares};
use ifs_base::StateId;
use ifs_gen::laws::active_are_mentioned;
use ifs_policy::PolicyBlock;
use ifs_solver::{Aim, Budget, Constraint, Extent, ask, either};
use std::alloc::AllocError;

/// A state that facts may let be left more often than this.
#[derive(Clone, Copy)]
pub(crate) struct Leaving<'a, 'b> {
    pub reachable: &'a ReachableStates<'b>,
    pub most: u16,
    pub state: StateId,
}

impl<'a, 'b> Leaving<'a, 'b> {
    /// Whether some facts let a state be left more often than this, from where it may begin. A state that is never entered is
    /// not.
    pub(crate) fn ask_going(self, budget: &mut Budget) -> Result<Extent, AllocError>
        ensures { IfOk result (λ extent. IsStateQuietFor self.entry.reachable.now self.entry.most self.entry.state extent) }
    {
        if self.reachable.is_never(self.state) {
            return Ok(Extent::Nowhere);
        }
        let count = self.reachable.count();
        let far = self.ask_far(budget)?;
        if let Extent::Nowhere = far {
            return Ok(Extent::Nowhere);
        }
        let initial = self.reachable.initial();
        if self.state.0 == initial.0 {
            return Ok(far);
        }
        let entries = self.ask_entries(far, count, budget)?;
        let rest = self.ask_rest(budget)?;
        Ok(either(entries, rest))
    }

    /// Whether some facts let a state be left more often than this.
    fn ask_far(self, budget: &mut Budget) -> Result<Extent, AllocError>
        ensures { IfOk result (λ extent. IsExtentOf (scope_of self.entry.reachable.now) (where_far self.entry.reachable.now self.entry.most self.entry.state) extent) }
    {
        let mut goings = search(self.reachable, *budget);
        let extent = goings.go(Extent::Nowhere, u32::from(self.most) + 1, self.state)?;
        *budget = goings.budget;
        Ok(extent)
    }

    /// The same where an evaluation has just led there from one of the first states. `far` is the answer wherever that state is
    /// entered.
    fn ask_entries(self, far: Extent, count: u16, budget: &mut Budget) -> Result<Extent, AllocError>
        requires { IsExtentOf (scope_of self.reachable.now) (where_far self.reachable.now self.most self.state) far }
        ensures { IfOk result (λ extent. AreEntriesQuiet self.entry.reachable.now self.entry.most self.entry.state count extent) }
    {
        let mut extent = Extent::Nowhere;
        for index in 0..count {
            if let Extent::Somewhere = extent {
                return Ok(Extent::Somewhere);
            }
            let previous = StateId(index);
            let more = self.ask_entry(far, previous, budget)?;
            extent = either(extent, more);
        }
        Ok(extent)
    }

    /// The same from one state.
    fn ask_entry(
        self,
        far: Extent,
        previous: StateId,
        budget: &mut Budget,
    ) -> Result<Extent, AllocError>
        requires { IsExtentOf (scope_of self.reachable.now) (where_far self.reachable.now self.most self.state) far }
        ensures { IfOk result (λ extent. IsEntryQuiet self.entry.reachable.now self.entry.most self.entry.state previous extent) }
    {
        if previous.0 == self.state.0 {
            return Ok(Extent::Nowhere);
        }
        if self.reachable.is_never(previous) {
            return Ok(Extent::Nowhere);
        }
        active_are_mentioned();
        if is_sharing(self.reachable, previous) {
            let shared = self.ask_shared(previous, budget)?;
            return Ok(shared);
        }
        let extent = self.ask_unshared(far, previous, budget)?;
        Ok(extent)
    }

    /// Whether the facts that let a state be left so often may have led there from another one, whose body has no tests of its
    /// own.
    fn ask_shared(self, previous: StateId, budget: &mut Budget) -> Result<Extent, AllocError>
        ensures { IfOk result (λ extent. IsExtentOf (scope_of self.entry.reachable.now) (where_led_far self.entry.reachable.now self.entry.most self.entry.state previous) extent) }
    {
        let mut goings = search(self.reachable, *budget);
        let extent = goings.each(
            Extent::Nowhere,
            u32::from(self.most) + 1,
            previous,
            self.state.0,
        )?;
        *budget = goings.budget;
        Ok(extent)
    }

    /// The same where that body has such tests, which may have had other values then.
    fn ask_unshared(
        self,
        far: Extent,
        previous: StateId,
        budget: &mut Budget,
    ) -> Result<Extent, AllocError>
        requires { IsExtentOf (scope_of self.reachable.now) (where_far self.reachable.now self.most self.state) far }
        ensures { IfOk result (λ extent. IsEntryQuiet self.entry.reachable.now self.entry.most self.entry.state previous extent) }
    {
        let led = self.is_led(previous, budget)?;
        if led {
            return Ok(far);
        }
        active_are_mentioned();
        let extent = self.ask_always(budget)?;
        Ok(extent)
    }

    /// Whether the body outside any state wishes for a state under facts that let it be left so often.
    fn ask_always(self, budget: &mut Budget) -> Result<Extent, AllocError>
        ensures { IfOk result (λ extent. IsExtentOf (scope_of self.entry.reachable.now) (where_wished_far self.entry.reachable.now self.entry.most self.entry.state) extent) }
    {
        let mut goings = search(self.reachable, *budget);
        let extent = goings.over(
            Extent::Nowhere,
            u32::from(self.most) + 1,
            &self.reachable.always().body,
            self.state.0,
        )?;
        *budget = goings.budget;
        Ok(extent)
    }

    /// Whether the body of a state may wish for another one, the state in question. Returns true if that is not decided.
    fn is_led(self, previous: StateId, budget: &mut Budget) -> Result<bool, AllocError>
        ensures { IfOk result (λ led. OnFalse led (IsNotLed self.entry.reachable.now self.entry.state previous)) }
    {
        if previous.0 == self.state.0 {
            return Ok(false);
        }
        if self.reachable.is_never(previous) {
            return Ok(false);
        }
        let Some(part) = self.reachable.part(previous) else {
            return Ok(true);
        };
        let constraints = [Constraint::Aims(&part.body, Aim::To(self.state))];
        let extent = ask(
            self.reachable.alloc(),
            self.reachable.scope(),
            &constraints,
            budget,
        )?;
        match extent {
            Extent::Nowhere => Ok(false),
            _ => Ok(true),
        }
    }

    /// The same while the body outside any state is held back. It is not while a body is evaluated that asks for all of its
    /// tests.
    fn is_led_held(self, previous: StateId, budget: &mut Budget) -> Result<bool, AllocError>
        ensures { IfOk result (λ led. OnFalse led (IsNotLedHeld self.entry.reachable.now self.entry.state previous)) }
    {
        if is_covering(self.reachable, previous) {
            return Ok(false);
        }
        let led = self.is_led(previous, budget)?;
        Ok(led)
    }

    /// The same of the bodies of the first states.
    fn is_led_by_any(self, count: u16, budget: &mut Budget) -> Result<bool, AllocError>
        ensures { IfOk result (λ led. OnFalse led (AreNotLed self.entry.reachable.now self.entry.state count)) }
    {
        for index in 0..count {
            let previous = StateId(index);
            let led = self.is_led_held(previous, budget)?;
            if led {
                return Ok(true);
            }
        }
        Ok(false)
    }

    /// Whether the body outside any state may be held back in a state. Once each of its tests has a value, they keep one. So it
    /// may be in the initial state, and where the body of another state leads before that.
    fn may_be_held(self, budget: &mut Budget) -> Result<bool, AllocError>
        ensures { IfOk result (λ held. OnFalse held (IsNeverHeld self.entry.reachable.now self.entry.state)) }
    {
        if is_untested(&self.reachable.always().body) {
            return Ok(false);
        }
        let initial = self.reachable.initial();
        if self.state.0 == initial.0 {
            return Ok(true);
        }
        let count = self.reachable.count();
        active_are_mentioned();
        let held = self.is_led_by_any(count, budget)?;
        Ok(held)
    }

    /// Whether some facts let a state be left more often than this, where nothing was owed. An evaluation then led nowhere, so
    /// one of the bodies was held back, and only that one leads away first.
    fn ask_rest(self, budget: &mut Budget) -> Result<Extent, AllocError>
        ensures { IfOk result (λ extent. IsQuietAtRest self.entry.reachable.now self.entry.most self.entry.state extent) }
    {
        let held = self.may_be_held(budget)?;
        let own = may_wait_in(self.reachable, held, self.state);
        let mut goings = search(self.reachable, *budget);
        let extent = goings.start(Extent::Nowhere, u32::from(self.most), self.state, own, held)?;
        *budget = goings.budget;
        Ok(extent)
    }
}

/// Whether the body of a state asks for no external test but those that the body outside any state asks for too.
fn is_sharing(reachable: &ReachableStates<'_>, state: StateId) -> bool
    ensures { OnTrue result (SharesTests reachable.now state) }
{
    match reachable.part(state) {
        Some(part) => shares(&part.body, &reachable.always().body),
        None => false,
    }
}

/// Whether the body of a state asks for each external test of the body outside any state.
fn is_covering(reachable: &ReachableStates<'_>, state: StateId) -> bool
    ensures { OnTrue result (CoversTests reachable.now state) }
{
    match reachable.part(state) {
        Some(part) => shares(&reachable.always().body, &part.body),
        None => false,
    }
}

/// Whether the body of a state may be held back where nothing is owed: it asks for a test, of its own if the body outside any
/// state is never held back there.
fn may_wait(held: bool, always: &PolicyBlock, body: &PolicyBlock) -> bool
    ensures { result ≡ may_wait held always.now body.now }
{
    if held {
        !is_untested(body)
    } else {
        !shares(body, always)
    }
}

/// The same by the number of the state. Returns false if there is no such state.
fn may_wait_in(reachable: &ReachableStates<'_>, held: bool, state: StateId) -> bool
    ensures { result ≡ may_wait_in held reachable.now.always.body (slice_get reachable.now.states state.0) }
{
    let parts = reachable.parts();
    match parts.get(usize::from(state.0)) {
        Some(part) => may_wait(held, &reachable.always().body, &part.body),
        None => false,
    }
}
