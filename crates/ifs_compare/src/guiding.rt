//! Facts that lead from state to state towards one of them.

use crate::effort::Effort;
use crate::entering::{part_of, parts_of};
use crate::points::point_of;
use crate::sides::Stage;
use ifs_base::{LinkState, StateId};
use ifs_play::number_of;
use ifs_solver::{Aim, Constraint, FactSet};
use std::alloc::{AllocError, Global};

/// The most searches for facts that lead from one state to another.
const MOST_SEARCHES: usize = 1_000;

/// For each state the facts to aim at there, if any are known.
#[derive(Drop)]
pub(crate) struct Guides {
    points: Vec<Option<FactSet>>,
    /// How many searches may still be made.
    left: usize,
}

impl Guides {
    /// No facts to aim at.
    pub fn none(alloc: Global) -> Guides {
        Guides {
            points: Vec::new(alloc),
            left: 0,
        }
    }

    /// The facts that lead to a state, and there to these facts.
    pub fn to(
        stage: &Stage<'_>,
        effort: &mut Effort,
        state: StateId,
        point: &FactSet,
    ) -> Result<Guides, AllocError> {
        let mut points = Vec::new(stage.alloc);
        for index in 0..stage.states() {
            let is_target = number_of(index) == state.0;
            points.push(if is_target {
                Some(point.copied(stage.alloc)?)
            } else {
                None
            })?;
        }
        let mut guides = Guides {
            points,
            left: MOST_SEARCHES,
        };
        guides.spread(stage, effort)?;
        Ok(guides)
    }

    /// The facts to aim at in a state.
    pub fn at(&self, state: StateId) -> Option<&FactSet> {
        match self.points.get(usize::from(state.0)) {
            Some(Some(point)) => Some(point),
            _ => None,
        }
    }

    /// Finds facts for states from which others are reached, until no more are found.
    fn spread(&mut self, stage: &Stage<'_>, effort: &mut Effort) -> Result<(), AllocError> {
        for _ in 0..self.points.len() {
            if !self.spread_once(stage, effort)? {
                return Ok(());
            }
        }
        Ok(())
    }

    /// Looks at each state once. Returns whether facts were found for one.
    fn spread_once(&mut self, stage: &Stage<'_>, effort: &mut Effort) -> Result<bool, AllocError> {
        let mut found = false;
        for index in 0..self.points.len() {
            let state = StateId(number_of(index));
            if self.at(state).is_none() {
                let point = self.way_from(stage, effort, state)?;
                if point.is_some() && index < self.points.len() {
                    self.points[index] = point;
                    found = true;
                }
            }
        }
        Ok(found)
    }

    /// Facts that lead from a state to one that has facts already.
    fn way_from(
        &mut self,
        stage: &Stage<'_>,
        effort: &mut Effort,
        state: StateId,
    ) -> Result<Option<FactSet>, AllocError> {
        for index in 0..self.points.len() {
            let next = StateId(number_of(index));
            if self.left > 0 && next.0 != state.0 && self.at(next).is_some() {
                self.left -= 1;
                let way = way(stage, effort, state, next)?;
                if way.is_some() {
                    return Ok(way);
                }
            }
        }
        Ok(None)
    }
}

/// Facts under which the old policy leads from one state to another.
fn way(
    stage: &Stage<'_>,
    effort: &mut Effort,
    state: StateId,
    next: StateId,
) -> Result<Option<FactSet>, AllocError> {
    let Some((old, _new)) = parts_of(stage, state) else {
        return Ok(None);
    };
    let all = FactSet::full(stage.alloc, stage.scope)?;
    let aim = Aim::To(next);
    let by_own = [
        Constraint::Free(&old.body),
        Constraint::Aims(&old.body, aim),
    ];
    if let Some(part) = part_of(stage, effort, &all, &by_own)? {
        return Ok(Some(point_of(stage.alloc, &part, LinkState::Down)?));
    }
    let always = &stage.sides.old.always.body;
    let by_always = [
        Constraint::Silent(&old.body),
        Constraint::Free(always),
        Constraint::Aims(always, aim),
    ];
    match part_of(stage, effort, &all, &by_always)? {
        Some(part) => Ok(Some(point_of(stage.alloc, &part, LinkState::Down)?)),
        None => Ok(None),
    }
}
