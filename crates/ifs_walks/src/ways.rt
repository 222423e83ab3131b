//! Facts that a walk over a core is for, and the facts under which a state leads to another one.

ghost use Rattle.std.specs.Prelude.{IfOk, IfSome};
ghost use Rattle.ifs_solver.specs.FactSets.{fact_set_of};
ghost use Rattle.ifs_walks.specs.Demands.{AllMeet};

use ifs_base::StateId;
use ifs_parse::Condition;
use ifs_policy::{Policy, PolicyBlock, Single};
use ifs_solver::{Aim, Budget, Constraint, Extent, FactSet, Guard, Scope, find, put_targets};
use std::alloc::{AllocError, Global};

/// A state, and facts that are wanted there.
#[derive(Drop)]
pub struct Target {
    pub state: StateId,
    pub facts: FactSet,
    /// The state that these facts lead to, if they do.
    pub next: Option<StateId>,
}

impl Target {
    /// The initial state, with any facts.
    pub fn anywhere(alloc: Global, policy: &Policy) -> Result<Target, AllocError> {
        Ok(Target {
            state: policy.initial(),
            facts: FactSet::full(alloc, Scope::of(policy))?,
            next: None,
        })
    }
}

/// A search for targets. Once an allocation has failed, nothing that it found counts.
#[derive(Drop)]
pub struct Ways<'a> {
    alloc: Global,
    scope: Scope,
    pub policy: &'a Policy,
    pub budget: Budget,
    /// The demands of a way from one state to another.
    pub demands: Vec<Constraint<'a>>,
    found: Vec<Target>,
    has_failed: bool,
}

impl<'a> Ways<'a> {
    /// A search that has found none.
    pub fn new(alloc: Global, policy: &'a Policy, budget: Budget) -> Ways<'a> {
        Ways {
            alloc,
            scope: Scope::of(policy),
            policy,
            budget,
            demands: Vec::new(alloc),
            found: Vec::new(alloc),
            has_failed: false,
        }
    }

    /// What was found, and how many situations are left. Returns an error if an allocation failed.
    pub fn into_found(self) -> Result<(Vec<Target>, u32), AllocError> {
        let Ways {
            alloc: _alloc,
            scope: _scope,
            policy: _policy,
            budget,
            demands: _demands,
            found,
            has_failed,
        } = self;
        if has_failed {
            return Err(AllocError);
        }
        Ok((found, budget.left))
    }

    /// Adds a demand.
    pub fn demand(&mut self, demand: Constraint<'a>) {
        self.has_failed |= self.demands.push(demand).is_err();
    }

    /// Adds demands.
    pub fn demand_all(&mut self, demands: &[Constraint<'a>]) {
        self.has_failed |= self.demands.extend_from_slice(demands).is_err();
    }

    /// Takes these demands and no others.
    pub fn demand_only(&mut self, demands: &[Constraint<'a>]) {
        self.demands.clear();
        self.demand_all(demands);
    }

    /// Adds the demand that a condition is true.
    pub fn demand_truth(&mut self, condition: &'a Condition<Single>) {
        self.demand(Constraint::Truth(condition, true));
    }

    /// Facts that meet the demands, if the budget allows to find some.
    fn facts(&mut self) -> Option<FactSet> {
        match facts_of(
            self.alloc,
            self.scope,
            self.demands.as_slice(),
            &mut self.budget,
        ) {
            Ok(facts) => facts,
            Err(AllocError) => {
                self.has_failed = true;
                None
            }
        }
    }

    /// Whether some facts meet the demands.
    pub fn has_facts(&mut self) -> bool {
        self.facts().is_some()
    }

    /// Adds a target, if some facts meet the demands. Returns whether they do.
    pub fn add(&mut self, state: StateId, next: Option<StateId>) -> bool {
        match self.facts() {
            Some(facts) => {
                let target = Target { state, facts, next };
                self.has_failed |= self.found.push(target).is_err();
                true
            }
            None => false,
        }
    }

    /// Adds a target, if some facts meet these demands and a guard.
    pub fn add_while(
        &mut self,
        state: StateId,
        next: Option<StateId>,
        demands: &[Constraint<'a>],
        guard: Option<Guard<'a>>,
    ) {
        self.demand_only(demands);
        if let Some(guard) = guard {
            self.demand(Constraint::Met(guard));
        }
        self.add(state, next);
    }

    /// Adds a target, if some facts meet these demands and those.
    pub fn add_both(&mut self, state: StateId, these: &[Constraint<'a>], those: &[Constraint<'a>]) {
        self.demand_only(these);
        self.demand_all(those);
        self.add(state, None);
    }

    /// The states that a block sets, each once.
    pub fn targets_of(&mut self, block: &PolicyBlock) -> Vec<StateId> {
        let mut targets = Vec::new(self.alloc);
        self.has_failed |= put_targets(&mut targets, block).is_err();
        targets
    }

    /// Adds the ways from each state to others.
    pub fn put_all(&mut self) {
        for number in 0..self.policy.counts().states {
            self.ways_from(StateId(number));
        }
    }

    /// Adds the ways from a state to others.
    fn ways_from(&mut self, state: StateId) {
        let policy = self.policy;
        if let Some(part) = policy.handlers(state) {
            self.ways_by(state, &part.body);
            self.ways_by(state, &policy.always().body);
        }
    }

    /// Adds the ways from a state to others that a body sets.
    fn ways_by(&mut self, state: StateId, body: &PolicyBlock) {
        for next in &self.targets_of(body) {
            self.way(state, *next, None);
        }
    }

    /// Adds the ways from a state to another one, while a guard is met.
    pub fn way(&mut self, state: StateId, next: StateId, guard: Option<Guard<'a>>) {
        let policy = self.policy;
        let Some(part) = policy.handlers(state) else {
            return;
        };
        if state.0 == next.0 {
            return;
        }
        let (always, own) = (&policy.always().body, &part.body);
        let to = Aim::To(next);
        let by_own = [Constraint::Free(own), Constraint::Aims(own, to)];
        self.add_while(state, Some(next), &by_own, guard);
        let by_always = [
            Constraint::Silent(own),
            Constraint::Free(always),
            Constraint::Aims(always, to),
        ];
        self.add_while(state, Some(next), &by_always, guard);
    }
}

/// A set of facts that all meet some demands, if the budget allows to find one.
fn facts_of(
    alloc: Global,
    scope: Scope,
    demands: &[Constraint<'_>],
    budget: &mut Budget,
) -> Result<Option<FactSet>, AllocError>
    ensures { IfOk result (λ found. IfSome found (λ set. AllMeet demands.now (fact_set_of set))) }
{
    let mut range = FactSet::full(alloc, scope)?;
    let given = budget.each.min(budget.left);
    let search = find(demands, &mut range, given);
    let used = given.saturating_sub(search.left);
    let each = u32::try_from(demands.len()).unwrap_or(u32::MAX);
    budget.left = budget.left.saturating_sub(used.saturating_mul(each));
    match search.extent {
        Extent::Somewhere => Ok(Some(range)),
        Extent::Nowhere | Extent::Undecided => Ok(None),
    }
}
