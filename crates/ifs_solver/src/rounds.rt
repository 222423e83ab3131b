//! Rounds: states that hand over to each other in one world. No clause speaks of them, so a caller makes their steps on a
//! core before it reports one.

use crate::constraints::{Aim, Constraint};
use crate::fact_sets::{FactSet, Scope};
use crate::searching::{Budget, find};
use ifs_base::StateId;
use ifs_parse::Statement;
use ifs_policy::{Handlers, Policy, PolicyBlock};
use std::alloc::{AllocError, Global};
use std::mem::replace;

/// A way through states that ends where it began, and a set of worlds in which a policy goes it. A world is a link state
/// for each interface and a result for each test.
#[derive(Drop)]
pub struct Round {
    /// From the first state to the same one.
    pub states: Vec<StateId>,
    pub worlds: FactSet,
}

/// The body that leads from a state to the next one.
#[derive(Clone, Copy)]
enum Way {
    /// That of the state.
    Own,
    /// That outside any state.
    Always,
}

/// A search for the rounds of a policy, from one state after the other.
pub struct Rounds<'a> {
    alloc: Global,
    scope: Scope,
    always: &'a PolicyBlock,
    states: &'a [Handlers],
    count: u16,
    /// The states that the body outside any state sets.
    always_targets: Vec<StateId>,
    /// For each state, those that its body sets.
    targets: Vec<Vec<StateId>>,
    /// For each state, whether no further round is looked for there: none is, or one was found.
    is_over: Vec<bool>,
    /// The states of each round that is not looked for.
    avoided: Vec<Vec<StateId>>,
    /// The worlds that led to the last state of the path.
    worlds: FactSet,
    /// What leads along the path.
    constraints: Vec<Constraint<'a>>,
    path: Vec<StateId>,
    budget: Budget,
}

impl Drop for Rounds<'_> {
    fn drop(self) {
        let Rounds {
            alloc: _alloc,
            scope: _scope,
            always: _always,
            states: _states,
            count: _count,
            always_targets: _always_targets,
            targets: _targets,
            is_over: _is_over,
            avoided: _avoided,
            worlds: _worlds,
            constraints: _constraints,
            path: _path,
            budget: _budget,
        } = self;
    }
}

impl<'a> Rounds<'a> {
    /// A search that has not begun. Returns an error if an allocation fails.
    pub fn new(alloc: Global, policy: &'a Policy) -> Result<Rounds<'a>, AllocError> {
        let scope = Scope::of(policy);
        let mut targets = Vec::new(alloc);
        let mut is_over = Vec::new(alloc);
        for part in policy.states() {
            targets.push(targets_of(alloc, &part.body)?)?;
            is_over.push(false)?;
        }
        Ok(Rounds {
            alloc,
            scope,
            always: &policy.always().body,
            states: policy.states(),
            count: policy.counts().states,
            always_targets: targets_of(alloc, &policy.always().body)?,
            targets,
            is_over,
            avoided: Vec::new(alloc),
            worlds: FactSet::worlds(alloc, scope)?,
            constraints: Vec::new(alloc),
            path: Vec::new(alloc),
            budget: Budget::POLICY,
        })
    }

    /// Searches for a round that begins at a state, with no state at which the search is over. Each test has a value. None if there
    /// is none, or if the budget ran out. The search is then over there, or at all states of the round: it stands for those that
    /// share a state with it. Returns an error if an allocation fails.
    pub fn round_at(
        &mut self,
        state: StateId,
        budget: &mut Budget,
    ) -> Result<Option<Round>, AllocError> {
        if self.is_over(state) {
            return Ok(None);
        }
        self.constraints.clear();
        self.worlds = FactSet::worlds(self.alloc, self.scope)?;
        self.path.clear();
        self.path.push(state)?;
        self.budget = *budget;
        let is_found = self.go_on(self.count)?;
        *budget = self.budget;
        self.end(state);
        if is_found { self.found() } else { Ok(None) }
    }

    /// The round along the path.
    fn found(&mut self) -> Result<Option<Round>, AllocError> {
        let states = replace(&mut self.path, Vec::new(self.alloc));
        let worlds = replace(&mut self.worlds, FactSet::worlds(self.alloc, self.scope)?);
        for state in &states {
            self.end(*state);
        }
        Ok(Some(Round { states, worlds }))
    }

    /// Looks for no round of exactly these states, which are named once each. Returns an error if an allocation fails.
    pub fn avoid(&mut self, states: Vec<StateId>) -> Result<(), AllocError> {
        self.avoided.push(states)?;
        Ok(())
    }

    /// Whether no round of these states, which are named once each, is looked for.
    pub fn avoids(&self, round: &[StateId]) -> bool {
        for states in &self.avoided {
            if has_same(states.as_slice(), round) {
                return true;
            }
        }
        false
    }

    /// Whether no further round is looked for at a state.
    fn is_over(&self, state: StateId) -> bool {
        match self.is_over.get(usize::from(state.0)) {
            Some(is_over) => *is_over,
            None => true,
        }
    }

    /// Ends the search at a state.
    fn end(&mut self, state: StateId) {
        if let Some(is_over) = self.is_over.get_mut(usize::from(state.0)) {
            *is_over = true;
        }
    }

    /// Goes on from the last state of the path, by so many further states at most. Whether the path came back.
    #[cycle(go_on)]
    fn go_on(&mut self, moves: u16) -> Result<bool, AllocError> {
        if self.go_by(Way::Own, moves)? {
            return Ok(true);
        }
        self.go_by(Way::Always, moves)
    }

    /// Goes on by a body.
    #[cycle(go_on)]
    fn go_by(&mut self, way: Way, moves: u16) -> Result<bool, AllocError> {
        for index in 0..self.count {
            let Some(next) = self.target(way, usize::from(index)) else {
                return Ok(false);
            };
            if self.move_by(way, next, moves)? {
                return Ok(true);
            }
        }
        Ok(false)
    }

    /// Goes on to a state by a body, if some worlds lead there.
    #[cycle(go_on)]
    fn move_by(&mut self, way: Way, next: StateId, moves: u16) -> Result<bool, AllocError> {
        let depth = self.constraints.len();
        if self.lead(way, next)? {
            if self.meets_all(depth)? {
                if self.arrive(next, moves)? {
                    return Ok(true);
                }
            }
        }
        self.constraints.truncate(depth);
        Ok(false)
    }

    /// Arrives at a state, and goes on unless the path came back.
    #[cycle(go_on)]
    fn arrive(&mut self, next: StateId, moves: u16) -> Result<bool, AllocError> {
        let comes_back = self.path.first().copied() == Some(next);
        let is_passed = self.path.contains(&next) || self.is_over(next);
        if is_passed && (!comes_back || self.avoids(self.path.as_slice())) {
            return Ok(false);
        }
        self.path.push(next)?;
        if comes_back {
            return Ok(true);
        }
        if moves > 0 {
            if self.go_on(moves - 1)? {
                return Ok(true);
            }
        }
        self.path.pop();
        Ok(false)
    }

    /// A state that a body sets, by its number among them. The body is that of the last state of the path, or the one outside
    /// any state.
    fn target(&self, way: Way, index: usize) -> Option<StateId> {
        let state = self.path.last()?;
        let targets = match way {
            Way::Own => self.targets.get(usize::from(state.0))?,
            Way::Always => &self.always_targets,
        };
        targets.get(index).copied()
    }

    /// Demands that a body leads from the last state to another one. Returns false if it is the same state.
    fn lead(&mut self, way: Way, next: StateId) -> Result<bool, AllocError> {
        let Some(state) = self.path.last().copied() else {
            return Ok(false);
        };
        let Some(part) = self.states.get(usize::from(state.0)) else {
            return Ok(false);
        };
        if state.0 == next.0 {
            return Ok(false);
        }
        match way {
            Way::Own => self
                .constraints
                .push(Constraint::Aims(&part.body, Aim::To(next)))?,
            Way::Always => {
                self.constraints.push(Constraint::Silent(&part.body))?;
                self.constraints
                    .push(Constraint::Aims(self.always, Aim::To(next)))?;
            }
        }
        Ok(true)
    }

    /// Whether some worlds meet all constraints. They are kept. Those so far meet all but the newest, so they are looked at first.
    fn meets_all(&mut self, depth: usize) -> Result<bool, AllocError> {
        let worlds = self.worlds.copied(self.alloc)?;
        if self.meets_from(depth, worlds) {
            return Ok(true);
        }
        let worlds = FactSet::worlds(self.alloc, self.scope)?;
        Ok(self.meets_from(0, worlds))
    }

    /// Whether some of these worlds meet the constraints from one on. They are kept. A situation costs as much as there are
    /// constraints.
    fn meets_from(&mut self, depth: usize, worlds: FactSet) -> bool {
        let mut worlds = worlds;
        let constraints = self.constraints.get(depth..).unwrap_or(&[]);
        let cost = u32::try_from(constraints.len()).unwrap_or(u32::MAX).max(1);
        let given = self
            .budget
            .each
            .min(self.budget.left.checked_div(cost).unwrap_or(0));
        if !worlds.has_facts() {
            return false;
        }
        let search = find(constraints, &mut worlds, given);
        self.budget.count(given, search);
        let further = given.saturating_sub(search.left).saturating_mul(cost - 1);
        self.budget.left = self.budget.left.saturating_sub(further);
        let is_found = search.extent.is_somewhere();
        if is_found {
            self.worlds = worlds;
        }
        is_found
    }
}

/// Whether two lists have the same states, each once.
fn has_same(states: &[StateId], others: &[StateId]) -> bool {
    if states.len() != others.len() {
        return false;
    }
    for state in others {
        if !states.contains(state) {
            return false;
        }
    }
    true
}

/// The states that a block sets, each once.
fn targets_of(alloc: Global, block: &PolicyBlock) -> Result<Vec<StateId>, AllocError> {
    let mut targets = Vec::new(alloc);
    put_targets(&mut targets, block)?;
    Ok(targets)
}

/// Adds the states that a block sets, unless they are there. Returns an error if an allocation fails.
pub fn put_targets(targets: &mut Vec<StateId>, block: &PolicyBlock) -> Result<(), AllocError> {
    for statement in block.statements() {
        match statement {
            Statement::Run(_) => {}
            Statement::SetState(state) => {
                if !targets.contains(state) {
                    targets.push(*state)?;
                }
            }
            Statement::If(_, inner) => put_targets(targets, inner)?,
        }
    }
    Ok(())
}
