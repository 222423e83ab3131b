//! Questions that several lists of constraints make together.

ghost use Rattle.std.specs.Prelude.{IfOk};
ghost use Rattle.ifs_solver.specs.Asking.{guard_of, meets_all, IsExtentAmong, IsExtentOf};
ghost use Rattle.ifs_solver.specs.FactSets.{fact_set_of, HasFacts, Within};
ghost use Rattle.ifs_claims.specs.inner.Stays.{where_hit, where_moving, where_resting, where_settled};
ghost use Rattle.ifs_claims.specs.inner.Widening.{Widens, WidensAmong};

use crate::reachable_states::Bodies;
use ifs_base::StateId;
use ifs_solver::{Aim, Budget, Constraint, Extent, FactSet, Guard, Scope, ask, ask_in, either};
use std::alloc::{AllocError, Global};

/// Whether some facts pass the earlier test, or meet these constraints. Asks only if none pass it so far.
pub(crate) fn ask_also(
    alloc: Global,
    scope: Scope,
    before: Extent,
    constraints: &[Constraint<'_>],
    budget: &mut Budget,
) -> Result<Extent, AllocError>
    ensures { IfOk result (λ after. Widens scope (meets_all constraints.now) before after) }
{
    if matches!(before, Extent::Somewhere) {
        return Ok(before);
    }
    let more = ask(alloc, scope, constraints, budget)?;
    Ok(either(before, more))
}

/// The same of the facts within a set. Undecided if there are none.
pub(crate) fn ask_also_in(
    alloc: Global,
    set: &FactSet,
    before: Extent,
    constraints: &[Constraint<'_>],
    budget: &mut Budget,
) -> Result<Extent, AllocError>
    ensures { IfOk result (λ after. WidensAmong (Within (fact_set_of set.now)) (meets_all constraints.now) before after) }
{
    if matches!(before, Extent::Somewhere) {
        return Ok(before);
    }
    if !set.has_facts() {
        return Ok(either(before, Extent::Undecided));
    }
    let more = ask_in(alloc, set, constraints, budget)?;
    Ok(either(before, more))
}

impl Bodies<'_> {
    /// The same of the facts of these bodies.
    fn also(
        self,
        before: Extent,
        constraints: &[Constraint<'_>],
        budget: &mut Budget,
    ) -> Result<Extent, AllocError>
        ensures { IfOk result (λ after. Widens self.entry.scope (meets_all constraints.now) before after) }
    {
        let after = ask_also(self.alloc, self.scope, before, constraints, budget)?;
        Ok(after)
    }

    /// Whether some facts in their state meet these constraints.
    fn ask(self, constraints: &[Constraint<'_>], budget: &mut Budget) -> Result<Extent, AllocError>
        requires { HasFacts (fact_set_of self.set.now) }
        ensures { IfOk result (IsExtentAmong (Within (fact_set_of self.entry.set.now)) (meets_all constraints.now)) }
    {
        let extent = ask_in(self.alloc, self.set, constraints, budget)?;
        Ok(extent)
    }

    /// Whether some facts in their state pass the earlier test, or meet these constraints. Asks only if none pass it so far.
    fn ask_more(
        self,
        before: Extent,
        constraints: &[Constraint<'_>],
        budget: &mut Budget,
    ) -> Result<Extent, AllocError>
        requires { HasFacts (fact_set_of self.set.now) }
        ensures { IfOk result (λ after. WidensAmong (Within (fact_set_of self.entry.set.now)) (meets_all constraints.now) before after) }
    {
        if matches!(before, Extent::Somewhere) {
            return Ok(before);
        }
        let more = self.ask(constraints, budget)?;
        Ok(either(before, more))
    }
}

/// Whether under some facts in their state the bodies lead from it to no other one, while a guard is met.
pub(crate) fn ask_resting(
    bodies: Bodies<'_>,
    state: StateId,
    guard: Guard<'_>,
    budget: &mut Budget,
) -> Result<Extent, AllocError>
    requires { HasFacts (fact_set_of bodies.set.now) }
    ensures { IfOk result (IsExtentAmong (Within (fact_set_of bodies.entry.set.now)) (where_resting bodies.entry.always.now bodies.entry.own.now state (guard_of guard.entry))) }
{
    let (always, own) = (bodies.always, bodies.own);
    let is_met = Constraint::Met(guard);
    let own_stays = [
        Constraint::Free(own),
        Constraint::Aims(own, Aim::To(state)),
        is_met,
    ];
    let by_own = bodies.ask(&own_stays, budget)?;
    let always_stays = [
        Constraint::Silent(own),
        Constraint::Free(always),
        Constraint::Aims(always, Aim::To(state)),
        is_met,
    ];
    let by_either = bodies.ask_more(by_own, &always_stays, budget)?;
    let none_wishes = [Constraint::Silent(own), Constraint::Silent(always), is_met];
    let by_all = bodies.ask_more(by_either, &none_wishes, budget)?;
    Ok(by_all)
}

/// The same, while neither body is held back.
pub(crate) fn ask_settled(
    bodies: Bodies<'_>,
    state: StateId,
    guard: Guard<'_>,
    budget: &mut Budget,
) -> Result<Extent, AllocError>
    requires { HasFacts (fact_set_of bodies.set.now) }
    ensures { IfOk result (IsExtentAmong (Within (fact_set_of bodies.entry.set.now)) (where_settled bodies.entry.always.now bodies.entry.own.now state (guard_of guard.entry))) }
{
    let (always, own) = (bodies.always, bodies.own);
    let is_met = Constraint::Met(guard);
    let own_stays = [
        Constraint::Free(own),
        Constraint::Free(always),
        Constraint::Aims(own, Aim::To(state)),
        is_met,
    ];
    let by_own = bodies.ask(&own_stays, budget)?;
    let always_stays = [
        Constraint::Free(own),
        Constraint::Free(always),
        Constraint::Silent(own),
        Constraint::Aims(always, Aim::To(state)),
        is_met,
    ];
    let by_either = bodies.ask_more(by_own, &always_stays, budget)?;
    let none_wishes = [
        Constraint::Free(own),
        Constraint::Free(always),
        Constraint::Silent(own),
        Constraint::Silent(always),
        is_met,
    ];
    let by_all = bodies.ask_more(by_either, &none_wishes, budget)?;
    Ok(by_all)
}

/// Whether under some facts the last wish of the bodies is for a state that is aimed at.
pub(crate) fn ask_wish(
    bodies: Bodies<'_>,
    aim: Aim,
    budget: &mut Budget,
) -> Result<Extent, AllocError>
    ensures { IfOk result (λ extent. IsExtentOf bodies.entry.scope (where_hit bodies.entry.always.now bodies.entry.own.now aim) extent) }
{
    let (always, own) = (bodies.always, bodies.own);
    let own_wishes = [Constraint::Free(own), Constraint::Aims(own, aim)];
    let by_own = ask(bodies.alloc, bodies.scope, &own_wishes, budget)?;
    let always_wishes = [
        Constraint::Silent(own),
        Constraint::Free(always),
        Constraint::Aims(always, aim),
    ];
    let by_either = bodies.also(by_own, &always_wishes, budget)?;
    Ok(by_either)
}

/// The same for one state under facts in theirs, while a guard is met.
pub(crate) fn ask_moving(
    bodies: Bodies<'_>,
    next: StateId,
    guard: Guard<'_>,
    budget: &mut Budget,
) -> Result<Extent, AllocError>
    requires { HasFacts (fact_set_of bodies.set.now) }
    ensures { IfOk result (IsExtentAmong (Within (fact_set_of bodies.entry.set.now)) (where_moving bodies.entry.always.now bodies.entry.own.now next (guard_of guard.entry))) }
{
    let (always, own) = (bodies.always, bodies.own);
    let is_met = Constraint::Met(guard);
    let own_wishes = [
        Constraint::Free(own),
        Constraint::Aims(own, Aim::To(next)),
        is_met,
    ];
    let by_own = bodies.ask(&own_wishes, budget)?;
    let always_wishes = [
        Constraint::Silent(own),
        Constraint::Free(always),
        Constraint::Aims(always, Aim::To(next)),
        is_met,
    ];
    let by_either = bodies.ask_more(by_own, &always_wishes, budget)?;
    Ok(by_either)
}
