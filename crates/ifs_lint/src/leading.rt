//! Which `set-state` leads from one state of a round to the next, and which facts that needs.

use crate::marks::{is_chain, joins};
use ifs_base::{IfaceId, LinkState, StateId, TestId};
use ifs_parse::{Condition, Node, Statement};
use ifs_play::{number_of, situations_of};
use ifs_policy::{Handlers, Policy, PolicyBlock, Single};
use ifs_solver::{
    Aim, Branch, Budget, Constraint, Domain, Extent, FactSet, PolicyStatement, Verdict, ask_in,
    judge,
};
use std::alloc::{AllocError, Global};

/// How many places the search for facts that a round does not need may pass.
const PASSED: usize = 1_000_000;

/// The situations that this search may look at where a condition is neither true nor false in all worlds.
const SITUATIONS: Budget = Budget {
    each: 500,
    left: 20_000,
    questions: 0,
    undecided: 0,
};

/// A `set-state` that is reached: the number of its place, and the state that it sets.
#[derive(Clone, Copy)]
struct Wish {
    place: usize,
    state: StateId,
}

/// The places of a policy, with the number of the first one of each body.
#[derive(Drop)]
pub(crate) struct Leads<'p> {
    alloc: Global,
    always: &'p PolicyBlock,
    states: &'p [Handlers],
    /// That of the body outside any state.
    always_place: usize,
    /// For each state that of its body.
    places: Vec<usize>,
    /// How many places there are, and how many of them in the body outside any state.
    count: usize,
    outside: usize,
    /// How many places may still be passed.
    left: usize,
    /// The situations that may still be looked at.
    budget: Budget,
}

impl<'p> Leads<'p> {
    /// Counts the places of a policy. Returns an error if an allocation fails.
    pub fn of(alloc: Global, policy: &'p Policy) -> Result<Leads<'p>, AllocError> {
        let always = policy.always();
        let always_place = places_in(&always.init);
        let outside = places_in(&always.body);
        let mut count = always_place.saturating_add(outside);
        let mut places = Vec::new(alloc);
        for part in policy.states() {
            let place = count.saturating_add(places_in(&part.init));
            places.push(place)?;
            count = place.saturating_add(places_in(&part.body));
        }
        Ok(Leads {
            alloc,
            always: &always.body,
            states: policy.states(),
            always_place,
            places,
            count,
            outside,
            left: PASSED,
            budget: SITUATIONS.within(situations_of(policy, PASSED)),
        })
    }

    /// The place of the `set-state` that leads from a state to the next one in each of these worlds. That of the state's body counts
    /// before one outside of states, unless a test without a value holds that body back.
    fn lead(&self, worlds: &FactSet, state: StateId, next: StateId) -> Option<usize> {
        let number = usize::from(state.0);
        let part = self.states.get(number)?;
        let own = wish_of(worlds, &part.body, *self.places.get(number)?)?;
        match own {
            Some(wish) if wish.state == next => Some(wish.place),
            _ => match wish_of(worlds, self.always, self.always_place)? {
                Some(wish) if wish.state == next => Some(wish.place),
                _ => None,
            },
        }
    }

    /// The places of the `set-state`s by which the states of a round lead to each other in each of these worlds, where they are known.
    pub fn leads(
        &self,
        alloc: Global,
        worlds: &FactSet,
        round: &[StateId],
    ) -> Result<Vec<usize>, AllocError> {
        let mut places = Vec::new(alloc);
        for (index, state) in round.iter().enumerate() {
            if let Some(next) = after(round, index) {
                if let Some(place) = self.lead(worlds, *state, next) {
                    places.push(place)?;
                }
            }
        }
        Ok(places)
    }

    /// Whether in each of these worlds the states lead to each other, the last one to the first.
    fn is_round(&mut self, worlds: &FactSet, round: &[StateId]) -> Result<bool, AllocError> {
        // the body outside any state is passed for each state, and that of each state once
        let outside = self.outside.saturating_mul(round.len());
        self.left = self.left.saturating_sub(self.count.saturating_add(outside));
        for (index, state) in round.iter().enumerate() {
            let Some(next) = after(round, index) else {
                return Ok(false);
            };
            if self.lead(worlds, *state, next).is_none()
                && !self.always_leads(worlds, *state, next)?
            {
                return Ok(false);
            }
        }
        Ok(true)
    }

    /// Whether a state leads to the next one in each of these worlds, in which each test has a value: no world is found in which it
    /// leads elsewhere, or nowhere.
    fn always_leads(
        &mut self,
        worlds: &FactSet,
        state: StateId,
        next: StateId,
    ) -> Result<bool, AllocError> {
        let Some(part) = self.states.get(usize::from(state.0)) else {
            return Ok(false);
        };
        let (own, always) = (&part.body, self.always);
        let elsewhere = Aim::Off(next);
        let by_own = [Constraint::Aims(own, elsewhere)];
        let by_always = [Constraint::Silent(own), Constraint::Aims(always, elsewhere)];
        let by_none = [Constraint::Silent(own), Constraint::Silent(always)];
        Ok(
            self.is_nowhere(worlds, &by_own)?
                && self.is_nowhere(worlds, &by_always)?
                && self.is_nowhere(worlds, &by_none)?,
        )
    }

    /// Whether none of these worlds meet constraints. It is not said if the situations are used up.
    fn is_nowhere(
        &mut self,
        worlds: &FactSet,
        constraints: &[Constraint<'_>],
    ) -> Result<bool, AllocError> {
        if !worlds.has_facts() {
            return Ok(false);
        }
        let extent = ask_in(self.alloc, worlds, constraints, &mut self.budget)?;
        Ok(matches!(extent, Extent::Nowhere))
    }

    /// The worlds of a round, with every value of a fact that it does not need.
    pub fn widened(&mut self, worlds: FactSet, round: &[StateId]) -> Result<FactSet, AllocError> {
        let mut worlds = worlds;
        for number in 0..worlds.links.len() {
            let link = Branch::Link(IfaceId(number_of(number)), LinkState::Unknown);
            self.widen(&mut worlds, round, link, Domain::ANY)?;
        }
        for number in 0..worlds.tests.len() {
            let test = Branch::Test(TestId(number_of(number)), LinkState::Unknown);
            self.widen(&mut worlds, round, test, Domain::RESULT)?;
        }
        Ok(worlds)
    }

    /// Gives a fact every value, unless the round needs those that it has.
    fn widen(
        &mut self,
        worlds: &mut FactSet,
        round: &[StateId],
        fact: Branch,
        every: Domain,
    ) -> Result<(), AllocError> {
        let Some(needed) = worlds.domain(fact) else {
            return Ok(());
        };
        if self.left == 0 {
            return Ok(());
        }
        worlds.put(fact, every);
        if !self.is_round(worlds, round)? {
            worlds.put(fact, needed);
        }
        Ok(())
    }
}

/// The state of a round behind the one with an index. The first one is behind the last.
fn after(round: &[StateId], index: usize) -> Option<StateId> {
    round
        .get(index.saturating_add(1))
        .or(round.first())
        .copied()
}

/// In which worlds of a range statements are reached.
#[derive(Clone, Copy)]
enum Reach {
    /// In none.
    Never,
    /// In some, if at all.
    Sometimes,
    /// In each.
    Always,
}

/// A walk over a body in some worlds, from one place to the next.
#[derive(Drop)]
struct Walk<'w> {
    worlds: &'w FactSet,
    place: usize,
    /// The last `set-state` so far that is reached in each world.
    last: Option<Wish>,
    /// Whether a later one is reached in some worlds.
    is_open: bool,
}

/// The last `set-state` that a body reaches in each of these worlds, if it reaches one. None if that depends on the world. The first
/// place of the body has this number.
fn wish_of(worlds: &FactSet, body: &PolicyBlock, place: usize) -> Option<Option<Wish>> {
    let mut walk = Walk {
        worlds,
        place,
        last: None,
        is_open: false,
    };
    walk.block(body, Reach::Always);
    let Walk { last, is_open, .. } = walk;
    if is_open { None } else { Some(last) }
}

impl Walk<'_> {
    /// Passes so many places.
    fn pass(&mut self, count: usize) {
        self.place = self.place.saturating_add(count);
    }

    /// Goes over a block.
    #[cycle(block)]
    fn block(&mut self, block: &PolicyBlock, reach: Reach) {
        for statement in block.statements() {
            self.statement(statement, reach);
        }
    }

    /// Goes over a statement.
    #[cycle(block)]
    fn statement(&mut self, statement: &PolicyStatement, reach: Reach) {
        match statement {
            Statement::Run(_) => self.pass(1),
            Statement::SetState(state) => {
                self.wish(*state, reach);
                self.pass(1);
            }
            Statement::If(condition, inner) => {
                self.pass(operands_in(condition).saturating_add(1));
                let inside = self.inside(condition, reach);
                self.block(inner, inside);
            }
        }
    }

    /// Goes over a `set-state`.
    fn wish(&mut self, state: StateId, reach: Reach) {
        match reach {
            Reach::Never => {}
            Reach::Sometimes => self.is_open = true,
            Reach::Always => {
                self.last = Some(Wish {
                    place: self.place,
                    state,
                });
                self.is_open = false;
            }
        }
    }

    /// In which worlds the block under a condition is reached.
    fn inside(&self, condition: &Condition<Single>, reach: Reach) -> Reach {
        match judge(self.worlds, condition) {
            Verdict::Known(false) => Reach::Never,
            Verdict::Known(true) => reach,
            Verdict::Open(_) => match reach {
                Reach::Never => Reach::Never,
                Reach::Sometimes | Reach::Always => Reach::Sometimes,
            },
        }
    }
}

/// How many places a block has.
fn places_in(block: &PolicyBlock) -> usize {
    let mut count = 0usize;
    for statement in block.statements() {
        count = count.saturating_add(match statement {
            Statement::Run(_) | Statement::SetState(_) => 1,
            Statement::If(condition, inner) => operands_in(condition)
                .saturating_add(places_in(inner))
                .saturating_add(1),
        });
    }
    count
}

/// How many places the operands in a condition have. Several first operands of a chain have no place of their own.
fn operands_in(condition: &Condition<Single>) -> usize {
    let node = condition.node();
    match node {
        Node::Leaf(_) => 0,
        Node::Not(operand) => operands_in(operand),
        Node::All(first, second, rest) | Node::Any(first, second, rest) => {
            let own = if is_chain(joins(node), first) { 1 } else { 2 };
            let mut count = operands_in(first)
                .saturating_add(operands_in(second))
                .saturating_add(own);
            for operand in rest {
                count = count.saturating_add(operands_in(operand)).saturating_add(1);
            }
            count
        }
    }
}
