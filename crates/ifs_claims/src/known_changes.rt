//! What is known of how often the state changes, for all claims on one policy.
//!
//! A search for one number answers others too: a policy that never changes its state more often than 3 times never does so more often
//! than 5 times. The first claim asks for the greatest number of changes, by halves, with a quarter of the budget.

ghost use Rattle.std.specs.Prelude.{◌≡◌, ◌≤◌, ◌⊎◌, false, length, true, IfNone, IfOk, IfSome, OnOk};
ghost use Rattle.ifs_claims.specs.Changes.{AreKnown, IsToldOfChanges, WouldChange};
ghost use Rattle.ifs_solver.specs.Budgets.{IsSpent, IsUsedUp};
ghost use Rattle.ifs_claims.specs.Known.{AreAllKnown, IsHalvedFirst, IsKnown};
ghost use Rattle.ifs_claims.specs.inner.Known.{HasLearned, IsHalvedOf, IsMiddle, IsNoneBetween};
ghost use Rattle.ifs_gen.specs.Trees.{Policy};

use crate::changing::rests_within;
use crate::reachable_states::ReachableStates;
use ifs_solver::{Budget, Extent};
use std::alloc::AllocError;

/// What is known of how often the state of a policy changes while no link and no result of a test does.
#[derive(Clone, Copy)]
pub struct KnownChanges {
    /// It never changes more often than this.
    pub never_more: Option<u16>,
    /// Some facts let it change more often than this.
    pub more: Option<u16>,
    /// Whether the greatest number of changes was looked for.
    pub is_halved: bool,
}

impl KnownChanges {
    /// Nothing is known.
    pub fn nothing() -> KnownChanges
        ensures known { (policy : Policy) → AreKnown policy result }
        ensures halved { result.is_halved ≡ false }
    {
        KnownChanges {
            never_more: None,
            more: None,
            is_halved: false,
        }
    }

    /// Whether the state never changes more often than this, as [`rests_within`] answers. Keeps what the search finds. Returns an
    /// error if an allocation fails.
    pub fn rests_within(
        &mut self,
        reachable: &ReachableStates<'_>,
        most: u16,
        budget: &mut Budget,
    ) -> Result<Extent, AllocError>
        requires { AreKnown reachable.now self.old }
        ensures told { IfOk result (λ told. IsToldOfChanges reachable.now most told) }
        ensures undecided { IfOk result (λ told. told ≡ Extent.Undecided → IsUsedUp budget.old budget.new) }
        ensures known { AreKnown reachable.now self.new }
        ensures halved { OnOk result (IsHalvedFirst self.old self.new budget.old budget.new) }
        ensures spent { OnOk result (IsSpent budget.old budget.new) }
    {
        self.halve(reachable, budget)?;
        let told = self.told(most);
        if let Extent::Undecided = told {
            let found = self.learn(reachable, most, budget)?;
            return Ok(found);
        }
        Ok(told)
    }

    /// What is known of a number.
    fn told(self, most: u16) -> Extent
        ensures told { (policy : Policy) → AreKnown policy self → IsToldOfChanges policy most result }
        ensures unknown { result ≡ Extent.Undecided → IsKnown self most → ⊥ }
    {
        if let Some(least) = self.never_more
            && least <= most
        {
            return Extent::Nowhere;
        }
        if let Some(greatest) = self.more
            && most <= greatest
        {
            return Extent::Somewhere;
        }
        Extent::Undecided
    }

    /// Searches for a number, and keeps the answer.
    fn learn(
        &mut self,
        reachable: &ReachableStates<'_>,
        most: u16,
        budget: &mut Budget,
    ) -> Result<Extent, AllocError>
        requires { AreKnown reachable.now self.old }
        ensures told { IfOk result (λ told. IsToldOfChanges reachable.now most told) }
        ensures undecided { IfOk result (λ told. told ≡ Extent.Undecided → IsUsedUp budget.old budget.new) }
        ensures known { AreKnown reachable.now self.new }
        ensures learned { IfOk result (λ told. HasLearned (length reachable.now.states) most told self.old self.new) }
        ensures spent { OnOk result (IsSpent budget.old budget.new) }
    {
        let told = rests_within(reachable, most, budget)?;
        match told {
            Extent::Nowhere => self.never_more = Some(most),
            Extent::Somewhere => self.more = Some(furthest(reachable, most)),
            Extent::Undecided => {}
        }
        Ok(told)
    }

    /// Looks for the greatest number of changes, once and with a quarter of the budget.
    fn halve(
        &mut self,
        reachable: &ReachableStates<'_>,
        budget: &mut Budget,
    ) -> Result<(), AllocError>
        requires { AreKnown reachable.now self.old }
        ensures known { AreKnown reachable.now self.new }
        ensures spent { IsSpent budget.old budget.new }
        ensures halved { OnOk result (IsHalvedOf self.old self.new budget.old budget.new) }
    {
        if self.is_halved {
            return Ok(());
        }
        self.is_halved = true;
        let given = budget.left / 4;
        let mut share = Budget {
            left: given,
            ..*budget
        };
        self.search(reachable, &mut share)?;
        budget.left = budget.left.saturating_sub(given.saturating_sub(share.left));
        Ok(())
    }

    /// Searches by halves until each number is known, or the budget is used up.
    fn search(
        &mut self,
        reachable: &ReachableStates<'_>,
        share: &mut Budget,
    ) -> Result<(), AllocError>
        requires { AreKnown reachable.now self.old }
        ensures known { AreKnown reachable.now self.new }
        ensures all { OnOk result (AreAllKnown self.new ⊎ IsUsedUp share.old share.new) }
        ensures halved { OnOk result (self.new.is_halved ≡ self.old.is_halved) }
    {
        if let Extent::Undecided = self.learn(reachable, reachable.count(), share)? {
            return Ok(());
        }
        while let Some(number) = self.between() {
            if let Extent::Undecided = self.learn(reachable, number, share)? {
                return Ok(());
            }
        }
        Ok(())
    }

    /// The middle of the unknown numbers. None if there are none, or no end to them.
    fn between(self) -> Option<u16>
        ensures middle { IfSome result (IsMiddle self) }
        ensures none { IfNone result (IsNoneBetween self) }
    {
        let least = match self.more {
            Some(more) => more.checked_add(1)?,
            None => 0,
        };
        let most = self.never_more?;
        if least < most {
            Some(least + (most - least) / 2)
        } else {
            None
        }
    }
}

/// The greatest number that is known to be exceeded, where this one is: without end, if there are not more states.
fn furthest(reachable: &ReachableStates<'_>, most: u16) -> u16
    ensures exceeded { WouldChange reachable.now most → WouldChange reachable.now result }
    ensures end { length reachable.now.states ≤ most → result ≡ 65535 }
    ensures least { most ≤ result }
{
    if most < reachable.count() {
        most
    } else {
        u16::MAX
    }
}
