//! Request lines after which two policies differ.

use crate::choosing::Witness;
use crate::core_pair::CorePair;
use crate::effort::Effort;
use crate::evaluating::Moment;
use crate::guiding::Guides;
use crate::sides::Stage;
use ifs_base::{IfaceId, LinkState, StateId, TestId};
use ifs_core::Step;
use ifs_play::{Allowance, Move, Random, Replay, Shown, number_of, requests_of, shortened};
use ifs_solver::FactSet;
use std::alloc::{AllocError, Global};

/// The most moves of all walks together.
const MOVES: u32 = 200_000;

/// The most instructions of all moves together.
const INSTRUCTIONS: u32 = 60_000_000;

/// How often a walk is tried for one difference.
const WALKS: u64 = 60;

/// The most moves of a walk.
const LENGTH: usize = 60;

/// Walks of two policies, side by side.
#[derive(Drop)]
pub(crate) struct Walks<'a> {
    stage: Stage<'a>,
    allowance: Allowance,
}

impl<'a> Walks<'a> {
    /// Walks of the policies of a stage.
    pub fn new(stage: &Stage<'a>) -> Walks<'a> {
        let left = MOVES.min(INSTRUCTIONS / stage.cost().max(1));
        Walks {
            stage: *stage,
            allowance: Allowance {
                left: left as usize,
            },
        }
    }

    /// Request lines after which the two policies differ, or nothing if none were found.
    pub fn requests(
        &mut self,
        effort: &mut Effort,
        witness: &Witness,
    ) -> Result<String, AllocError> {
        let found = match witness.moment {
            Moment::Opening => self.opening()?,
            Moment::In(state) => self.walked_to(effort, state, witness)?,
        };
        self.requests_in(found)
    }

    /// The same of any difference: in a state, if there is one.
    pub fn any_requests(
        &mut self,
        effort: &mut Effort,
        state: Option<StateId>,
    ) -> Result<String, AllocError> {
        let guides = self.guides_to(effort, state)?;
        let found = self.walked(&guides, Goal { state, told: None })?;
        self.requests_in(found)
    }

    /// The request lines of some steps of the old policy, or nothing if there are none.
    fn requests_in(&self, found: Option<Vec<Step>>) -> Result<String, AllocError> {
        let stage = &self.stage;
        match found {
            Some(steps) => requests_of(stage.alloc, stage.old.policy(), steps.as_slice()),
            None => Ok(String::new(stage.alloc)),
        }
    }

    /// What leads to a state, if there is one, whatever the facts are there.
    fn guides_to(&self, effort: &mut Effort, state: Option<StateId>) -> Result<Guides, AllocError> {
        let stage = &self.stage;
        match state {
            Some(state) => {
                let all = FactSet::full(stage.alloc, stage.scope)?;
                Guides::to(stage, effort, state, &all)
            }
            None => Ok(Guides::none(stage.alloc)),
        }
    }

    /// Steps that take the commands of the openings, if these differ.
    fn opening(&self) -> Result<Option<Vec<Step>>, AllocError> {
        match CorePair::open(&self.stage)? {
            Some(pair) => {
                let mut pair = pair;
                let differ = pair.take_apart()?;
                Ok(pair.into_steps_if(differ))
            }
            None => Ok(None),
        }
    }

    /// The request lines of steps that show what is looked for, without those that are not needed.
    fn fewest(&mut self, goal: Goal<'_>, steps: Vec<Step>) -> Result<Vec<Step>, AllocError> {
        let mut kept = steps;
        for _ in 0..LENGTH {
            let count = kept.len();
            kept = self.fewer(goal, kept)?;
            if kept.len() == count {
                break;
            }
        }
        Ok(kept)
    }

    /// Leaves out each step without which the others still show what is looked for. Begins with the last one.
    fn fewer(&mut self, goal: Goal<'_>, steps: Vec<Step>) -> Result<Vec<Step>, AllocError> {
        let mut kept = steps;
        for place in (0..kept.len()).rev() {
            let others = without(self.stage.alloc, kept.as_slice(), place)?;
            if self.is_shown_by(goal, others.as_slice())? {
                kept = others;
            }
        }
        Ok(kept)
    }

    /// Whether steps of the old policy show what is looked for.
    fn is_shown_by(&mut self, goal: Goal<'_>, steps: &[Step]) -> Result<bool, AllocError> {
        if !self.allowance.take(steps.len().saturating_add(1)) {
            return Ok(false);
        }
        match CorePair::open(&self.stage)? {
            Some(pair) => {
                let mut pair = pair;
                replay(&self.stage, goal, &mut pair, steps)
            }
            None => Ok(false),
        }
    }

    /// The steps of a walk towards a state and facts. The policies differ there as the witness says.
    fn walked_to(
        &mut self,
        effort: &mut Effort,
        state: StateId,
        witness: &Witness,
    ) -> Result<Option<Vec<Step>>, AllocError> {
        let guides = Guides::to(&self.stage, effort, state, &witness.point)?;
        let goal = Goal {
            state: Some(state),
            told: Some(witness),
        };
        self.walked(&guides, goal)
    }

    /// The steps of a walk by chance, after which the policies differ as is wanted.
    fn walked(&mut self, guides: &Guides, goal: Goal<'_>) -> Result<Option<Vec<Step>>, AllocError> {
        for number in 0..WALKS {
            if !self.allowance.take(LENGTH) {
                break;
            }
            if let Some(shown) = self.walk(guides, goal, &mut Random::new(number))? {
                return self.shortened(goal, shown);
            }
        }
        Ok(None)
    }

    /// The same without moves that are not needed.
    fn shortened(
        &mut self,
        goal: Goal<'_>,
        shown: Shown<Vec<Step>>,
    ) -> Result<Option<Vec<Step>>, AllocError> {
        let alloc = self.stage.alloc;
        let Shown {
            moves: _moves,
            found,
        } = shortened(alloc, self, &goal, shown)?;
        let steps = self.fewest(goal, found)?;
        Ok(Some(steps))
    }

    /// Moves by chance after which the policies differ, with the steps.
    fn walk(
        &self,
        guides: &Guides,
        goal: Goal<'_>,
        random: &mut Random,
    ) -> Result<Option<Shown<Vec<Step>>>, AllocError> {
        match CorePair::open(&self.stage)? {
            Some(pair) => {
                let mut pair = pair;
                let moves = walk_by(&self.stage, guides, goal, random, &mut pair)?;
                Ok(shown_by(moves, pair))
            }
            None => Ok(None),
        }
    }

    /// The steps of moves after which the policies differ, if they do.
    fn played(&self, goal: Goal<'_>, moves: &[Move]) -> Result<Option<Vec<Step>>, AllocError> {
        match CorePair::open(&self.stage)? {
            Some(pair) => {
                let mut pair = pair;
                let differ = play(&self.stage, goal, &mut pair, moves)?;
                Ok(pair.into_steps_if(differ))
            }
            None => Ok(None),
        }
    }
}

/// What a walk looks for: policies that differ, in this state if there is one, and as a witness says if there is one.
#[derive(Clone, Copy)]
struct Goal<'w> {
    state: Option<StateId>,
    told: Option<&'w Witness>,
}

impl<'w> Replay<Goal<'w>> for Walks<'_> {
    type Found = Vec<Step>;

    fn replay(&mut self, goal: &Goal<'w>, moves: &[Move]) -> Result<Option<Vec<Step>>, AllocError> {
        let cost = moves.len().saturating_add(1);
        if !self.allowance.take(cost) {
            return Ok(None);
        }
        self.played(*goal, moves)
    }
}

/// Moves with the steps of the cores that made them, if there are any.
fn shown_by(moves: Option<Vec<Move>>, pair: CorePair<'_>) -> Option<Shown<Vec<Step>>> {
    let found = pair.into_steps();
    match moves {
        Some(moves) => Some(Shown { moves, found }),
        None => None,
    }
}

/// Steps without one of them.
fn without(alloc: Global, steps: &[Step], place: usize) -> Result<Vec<Step>, AllocError> {
    let mut fewer = Vec::new(alloc);
    for (index, step) in steps.iter().enumerate() {
        if index != place {
            fewer.push(*step)?;
        }
    }
    Ok(fewer)
}

/// Makes steps. Returns whether the policies first differ in the last event, as is wanted, and replies show it.
fn replay(
    stage: &Stage<'_>,
    goal: Goal<'_>,
    pair: &mut CorePair<'_>,
    steps: &[Step],
) -> Result<bool, AllocError> {
    let mut differ = false;
    let mut shown = false;
    for step in steps {
        let before = pair.state();
        let replies = pair.make_step(stage, *step)?;
        if differ {
            if !matches!(step, Step::Take) {
                return Ok(false);
            }
            shown = shown || replies.differ();
        } else if replies.differ() {
            if !is_meant(stage, goal, before, pair) {
                return Ok(false);
            }
            differ = true;
            shown = replies.are_apart();
        }
    }
    Ok(shown)
}

/// Makes moves. Returns whether the policies differ after one of them, which is the last one then.
fn play(
    stage: &Stage<'_>,
    goal: Goal<'_>,
    pair: &mut CorePair<'_>,
    moves: &[Move],
) -> Result<bool, AllocError> {
    for happens in moves {
        let before = pair.state();
        if pair.make(stage, *happens)? {
            return Ok(is_meant(stage, goal, before, pair));
        }
    }
    Ok(false)
}

/// Whether the difference that two cores have just made in a state is the one that is looked for.
fn is_meant(stage: &Stage<'_>, goal: Goal<'_>, state: StateId, pair: &CorePair<'_>) -> bool {
    if goal.state.is_some_and(|wanted| wanted.0 != state.0) {
        return false;
    }
    match goal.told {
        Some(witness) => pair.shows(stage, witness, state),
        None => true,
    }
}

/// Moves by chance after which the policies differ, if they do.
fn walk_by(
    stage: &Stage<'_>,
    guides: &Guides,
    goal: Goal<'_>,
    random: &mut Random,
    pair: &mut CorePair<'_>,
) -> Result<Option<Vec<Move>>, AllocError> {
    let mut moves = Vec::new(stage.alloc);
    for _ in 0..LENGTH {
        let before = pair.state();
        let happens = move_by(stage, guides.at(before), random, pair);
        moves.push(happens)?;
        if pair.make(stage, happens)? {
            return Ok(if is_meant(stage, goal, before, pair) {
                Some(moves)
            } else {
                None
            });
        }
    }
    Ok(None)
}

/// Some move, mostly towards the facts that are aimed at.
fn move_by(
    stage: &Stage<'_>,
    aim: Option<&FactSet>,
    random: &mut Random,
    pair: &CorePair<'_>,
) -> Move {
    let links = stage.scope.links;
    let runs = pair.runs();
    let kind = random.below(10);
    if kind < 4 && links > 0 {
        let index = random.below(links);
        return Move::Link(IfaceId(number_of(index)), link_by(aim, random, index));
    }
    match runs.get(random.below(runs.len().max(1))) {
        Some(start) if kind < 8 && ends(aim, random, start.test) => {
            Move::End(start.test, value_by(aim, random, start.test))
        }
        _ => Move::Wait(if kind == 9 { 60 } else { 1 }),
    }
}

/// Whether a run is to end: mostly not, if the test is to have no value.
fn ends(aim: Option<&FactSet>, random: &mut Random, test: TestId) -> bool {
    let has_value = match aim {
        Some(point) => match point.tests.get(usize::from(test.0)) {
            Some(choice) => choice.down || choice.up,
            None => true,
        },
        None => true,
    };
    has_value || random.below(6) == 0
}

/// Some state of a link.
fn link_by(aim: Option<&FactSet>, random: &mut Random, index: usize) -> LinkState {
    let turn = random.below(12);
    match (turn, aim) {
        (0, _) => LinkState::Unknown,
        (1, _) => LinkState::Down,
        (2, _) => LinkState::Up,
        (_, Some(point)) => match point.links.get(index) {
            Some(choice) => choice.first(),
            None => LinkState::Unknown,
        },
        (_, None) => if turn < 7 {
            LinkState::Down
        } else {
            LinkState::Up
        },
    }
}

/// Some value of a test.
fn value_by(aim: Option<&FactSet>, random: &mut Random, test: TestId) -> bool {
    let turn = random.below(12);
    match (turn, aim) {
        (0, _) => false,
        (1, _) => true,
        (_, Some(point)) => match point.tests.get(usize::from(test.0)) {
            Some(choice) => choice.up,
            None => false,
        },
        (_, None) => turn < 7,
    }
}
