//! Rounds of states that hand over to each other for ever in one world, each made on a core before it is reported.

ghost use Rattle.std.specs.Prelude.{◌≡◌, IfOk, OnOk};
ghost use Rattle.ifs_gen.specs.Trees.{Policy as PolicyOfCore};
ghost use Rattle.ifs_lint.specs.Rounds.{IsRound};
ghost use Rattle.ifs_lint.specs.inner.Going.{AreRounds, IsCompiled};

use crate::going::{Compiled, Trial, round_of};
use crate::leading::Leads;
use crate::meant::{Remark, states_named};
use crate::worlds::World;
use ifs_base::{IfaceId, LinkState, StateId};
use ifs_play::{
    Allowance, Move, Random, Replay, Shown, Simulation, make_step, number_of, open, requests_of,
    shortened, situations_of, some_move,
};
use ifs_policy::Policy;
use ifs_solver::{Budget, Extent, FactSet, Round, Rounds, StateAnswer};
use ifs_walks::{Route, Visits};
use std::alloc::{AllocError, Global};

/// The situations that the search for rounds may look at.
const ROUNDS: Budget = Budget {
    each: 2_000,
    left: 50_000,
    questions: 0,
    undecided: 0,
};

/// How many parts of conditions and blocks that search may look at.
const PARTS: usize = 3_000_000;

/// The most moves of all cores together.
const PLAYED: usize = 100_000;

/// How often a way from the opening to a round is looked for.
const WALKS: u64 = 40;

/// The most moves of such a way.
const MOVES: usize = 60;

/// A round that a core made.
pub(crate) struct Flap {
    /// Its states, from the one that is defined first.
    pub states: Vec<StateId>,
    /// The worlds in which the policy goes the round.
    pub worlds: FactSet,
    /// The places of the `set-state`s that lead from one of its states to the next, where they are known.
    pub leads: Vec<usize>,
    /// Request lines from the opening on, after which the round was made twice.
    pub requests: String,
}

impl Drop for Flap {
    fn drop(self) {
        let Flap {
            states: _states,
            worlds: _worlds,
            leads: _leads,
            requests: _requests,
        } = self;
    }
}

/// The rounds of a policy. Each state that is entered is a question: whether a round begins there.
#[derive(Drop)]
pub(crate) struct Flaps {
    pub found: Vec<Flap>,
    /// How many questions were asked.
    pub asked: usize,
    /// How many of them are not decided.
    pub undecided: usize,
}

impl Flaps {
    /// Makes a round on a core. It may be another one that shares a state with it, unless it is left out. Then the question is not
    /// decided, since the round stands for all through its states.
    fn replay(
        &mut self,
        stage: &mut Stage<'_, '_>,
        compiled: Compiled<'_, '_>,
        rounds: &Rounds<'_>,
        round: Round,
    ) -> Result<(), AllocError>
        requires compiled { IsCompiled compiled }
        requires found { AreRounds compiled.policy.now self.old.found.items }
        ensures { OnOk result (AreRounds compiled.entry.policy.now self.new.found.items) }
    {
        let round = stage.widened(round)?;
        match stage.made(&round)? {
            Some(made) if !rounds.avoids(made.trial.states.as_slice()) => {
                self.keep_made(stage, compiled, made, round)
            }
            _ => {
                self.leave();
                Ok(())
            }
        }
    }

    /// Keeps a round that was made for another one, if a core goes it once more.
    fn keep_made(
        &mut self,
        stage: &mut Stage<'_, '_>,
        compiled: Compiled<'_, '_>,
        made: Made,
        wanted: Round,
    ) -> Result<(), AllocError>
        requires compiled { IsCompiled compiled }
        requires found { AreRounds compiled.policy.now self.old.found.items }
        ensures { OnOk result (AreRounds compiled.entry.policy.now self.new.found.items) }
    {
        let Made {
            trial,
            world,
            requests,
        } = made;
        match round_of(stage.alloc, compiled, &trial)? {
            Some(states) => {
                let worlds = self.worlds_of(states.as_slice(), world, wanted);
                self.keep(stage, states, worlds, requests)
            }
            None => {
                self.leave();
                Ok(())
            }
        }
    }

    /// The worlds of a round that was made in one world: those of the wanted round, if it has its states.
    fn worlds_of(&mut self, states: &[StateId], world: FactSet, wanted: Round) -> FactSet
        ensures { self.new.found ≡ self.old.found }
    {
        if is_along(states, wanted.states.as_slice()) {
            return into_worlds(wanted);
        }
        self.leave();
        world
    }

    /// Counts a question that is not decided.
    fn leave(&mut self)
        ensures { self.new.found ≡ self.old.found }
    {
        self.undecided = self.undecided.saturating_add(1);
    }

    /// Counts a question that may be not decided.
    fn leave_if(&mut self, is_open: bool)
        ensures { self.new.found ≡ self.old.found }
    {
        self.undecided = self.undecided.saturating_add(usize::from(is_open));
    }

    /// Counts a question.
    fn ask(&mut self)
        ensures { self.new.found ≡ self.old.found }
    {
        self.asked = self.asked.saturating_add(1);
    }

    /// Keeps a round in these worlds, unless one with its states is known.
    fn keep(
        &mut self,
        stage: &mut Stage<'_, '_>,
        states: Vec<StateId>,
        worlds: FactSet,
        requests: String,
    ) -> Result<(), AllocError>
        ensures { (policy : PolicyOfCore) → IsRound policy states.items → AreRounds policy self.old.found.items
            → OnOk result (AreRounds policy self.new.found.items) }
    {
        if is_known(self.found.as_slice(), states.as_slice()) {
            return Ok(());
        }
        let worlds = stage.leads.widened(worlds, states.as_slice())?;
        let leads = stage.leads.leads(stage.alloc, &worlds, states.as_slice())?;
        self.found.push(Flap {
            states,
            worlds,
            leads,
            requests,
        })?;
        Ok(())
    }
}

/// The worlds of a round. It ends.
fn into_worlds(round: Round) -> FactSet {
    let Round {
        states: _path,
        worlds,
    } = round;
    worlds
}

/// A policy with its image.
#[derive(Drop)]
struct Stage<'p, 'i> {
    alloc: Global,
    policy: &'p Policy,
    leads: Leads<'p>,
    visits: &'i Visits<'p, 'i>,
    /// How many seconds a core is looked at in a world.
    seconds: usize,
    allowance: Allowance,
}

/// What a core did: the steps of a round, the world in which it went it, and the request lines.
#[derive(Drop)]
struct Made {
    trial: Trial,
    world: FactSet,
    requests: String,
}

/// What a core is to do: a round through one of these states in a world.
#[derive(Clone, Copy)]
struct Goal<'a> {
    world: &'a World,
    states: &'a [StateId],
}

impl<'a> Replay<Goal<'a>> for Stage<'_, '_> {
    type Found = Made;

    fn replay(&mut self, goal: &Goal<'a>, moves: &[Move]) -> Result<Option<Made>, AllocError> {
        let cost = moves.len().saturating_add(self.seconds);
        if !self.allowance.take(cost) {
            return Ok(None);
        }
        match Simulation::open(self.alloc, self.visits.image())? {
            Some(simulation) => {
                let mut simulation = simulation;
                let made = self.made_after(&mut simulation, moves, goal);
                simulation.end();
                made
            }
            None => Ok(None),
        }
    }
}

impl Stage<'_, '_> {
    /// A round in all worlds that differ from its own in facts that it does not need.
    fn widened(&mut self, round: Round) -> Result<Round, AllocError> {
        let Round { states, worlds } = round;
        let once = states.get(1..).unwrap_or(&[]);
        let worlds = self.leads.widened(worlds, once)?;
        Ok(Round { states, worlds })
    }

    /// A round of a range of worlds, made on a core with as few moves before it as were found.
    fn made(&mut self, round: &Round) -> Result<Option<Made>, AllocError> {
        let world = World::of(self.alloc, self.policy, &round.worlds)?;
        let goal = Goal {
            world: &world,
            states: round.states.as_slice(),
        };
        match round.states.first() {
            Some(first) => self.made_in(&goal, *first),
            None => Ok(None),
        }
    }

    /// The round that begins at a state, made at once, after a second, after one change of a link, on the way by which the state was
    /// entered first, or after a walk.
    fn made_in(&mut self, goal: &Goal<'_>, first: StateId) -> Result<Option<Made>, AllocError> {
        let made = self.replay(goal, &[])?;
        if made.is_some() {
            return Ok(made);
        }
        let made = self.replay(goal, &[Move::Wait(1)])?;
        if made.is_some() {
            return Ok(made);
        }
        let made = self.made_by_link(goal)?;
        if made.is_some() {
            return Ok(made);
        }
        let made = self.made_by_visit(goal, first)?;
        if made.is_some() {
            return Ok(made);
        }
        for number in 0..WALKS {
            if self.allowance.left < self.seconds {
                break;
            }
            let made = self.made_by_walk(number, goal, first)?;
            if made.is_some() {
                return Ok(made);
            }
        }
        Ok(None)
    }

    /// The round after one change of a link, if a core makes it then.
    fn made_by_link(&mut self, goal: &Goal<'_>) -> Result<Option<Made>, AllocError> {
        for number in 0..self.policy.counts().interfaces {
            for state in [LinkState::Down, LinkState::Up] {
                let made = self.replay(goal, &[Move::Link(IfaceId(number), state)])?;
                if made.is_some() {
                    return Ok(made);
                }
            }
        }
        Ok(None)
    }

    /// The round on the route by which a state was entered first, if a core makes it then.
    fn made_by_visit(
        &mut self,
        goal: &Goal<'_>,
        first: StateId,
    ) -> Result<Option<Made>, AllocError> {
        let Some(route) = self.visits.route_to(first)? else {
            return Ok(None);
        };
        let Route { links, moves } = route;
        if !links.is_empty() {
            return Ok(None);
        }
        self.made_by_moves(goal, moves)
    }

    /// The round after the walk of this number, if a core makes it then.
    fn made_by_walk(
        &mut self,
        number: u64,
        goal: &Goal<'_>,
        first: StateId,
    ) -> Result<Option<Made>, AllocError> {
        let moves = self.walk(&mut Random::new(number), first)?;
        self.made_by_moves(goal, moves)
    }

    /// The round after as few of these moves as it needs, if a core makes it after all.
    fn made_by_moves(
        &mut self,
        goal: &Goal<'_>,
        moves: Vec<Move>,
    ) -> Result<Option<Made>, AllocError> {
        match self.replay(goal, moves.as_slice())? {
            Some(found) => {
                let alloc = self.alloc;
                let Shown {
                    moves: _moves,
                    found,
                } = shortened(alloc, self, goal, Shown { moves, found })?;
                Ok(Some(found))
            }
            None => Ok(None),
        }
    }

    /// The round that a core makes after some moves, if it is one for the goal.
    fn made_after(
        &self,
        simulation: &mut Simulation<'_>,
        moves: &[Move],
        goal: &Goal<'_>,
    ) -> Result<Option<Made>, AllocError> {
        for happens in moves {
            simulation.make(*happens)?;
        }
        match goal.world.round_of(simulation, self.seconds)? {
            Some(length) => self.made_last(simulation, length, goal),
            None => Ok(None),
        }
    }

    /// The round of so many states that a core made last, if it is one for the goal.
    fn made_last(
        &self,
        simulation: &Simulation<'_>,
        length: usize,
        goal: &Goal<'_>,
    ) -> Result<Option<Made>, AllocError> {
        let entered = simulation.entered();
        let start = entered.len().saturating_sub(length);
        let round = entered.get(start..).unwrap_or(entered);
        if !shares_state(round, goal.states) {
            return Ok(None);
        }
        Ok(Some(Made {
            trial: self.trial(simulation, round, goal.world)?,
            world: goal.world.facts(self.alloc, simulation)?,
            requests: requests_of(self.alloc, self.policy, simulation.steps())?,
        }))
    }

    /// The steps of a core that went a round twice at the end.
    fn trial(
        &self,
        simulation: &Simulation<'_>,
        round: &[StateId],
        world: &World,
    ) -> Result<Trial, AllocError> {
        let (alloc, steps) = (self.alloc, simulation.steps());
        let changes = round.len().saturating_mul(2);
        let count = self.steps_before(simulation, changes)?;
        let (begun, further) = steps.split_at_checked(count).unwrap_or((steps, &[]));
        Ok(Trial {
            begun: Vec::from_slice(alloc, begun)?,
            steps: Vec::from_slice(alloc, further)?,
            results: Vec::from_slice(alloc, world.results())?,
            states: Vec::from_slice(alloc, round)?,
        })
    }

    /// How many steps a core made before the state last changed so often.
    fn steps_before(
        &self,
        simulation: &Simulation<'_>,
        changes: usize,
    ) -> Result<usize, AllocError> {
        let steps = simulation.steps();
        let before = simulation.entered().len().saturating_sub(changes);
        let Some(core) = open(self.alloc, self.visits.image())? else {
            return Ok(steps.len());
        };
        let mut core = core;
        // the initial state
        let mut entered = 1usize;
        for (number, step) in steps.iter().enumerate() {
            let state = core.state();
            make_step(&mut core, *step);
            if core.state() != state {
                entered = entered.saturating_add(1);
            }
            if entered > before {
                return Ok(number);
            }
        }
        Ok(steps.len())
    }

    /// Moves by chance from the opening to a state, or as many as a way may have.
    fn walk(&self, random: &mut Random, state: StateId) -> Result<Vec<Move>, AllocError> {
        match Simulation::open(self.alloc, self.visits.image())? {
            Some(simulation) => {
                let mut simulation = simulation;
                let moves = self.walk_by(&mut simulation, random, state);
                simulation.end();
                moves
            }
            None => Ok(Vec::new(self.alloc)),
        }
    }

    /// The same moves of a core.
    fn walk_by(
        &self,
        simulation: &mut Simulation<'_>,
        random: &mut Random,
        state: StateId,
    ) -> Result<Vec<Move>, AllocError> {
        let links = usize::from(self.policy.counts().interfaces);
        let mut moves = Vec::new(self.alloc);
        for _ in 0..MOVES {
            if simulation.state() == state {
                break;
            }
            let happens = some_move(random, links, simulation.runs());
            simulation.make(happens)?;
            moves.push(happens)?;
        }
        Ok(moves)
    }
}

/// Whether a round has the states of a path. A path ends with its first state.
fn is_along(round: &[StateId], path: &[StateId]) -> bool {
    if round.len().saturating_add(1) != path.len() {
        return false;
    }
    for state in path {
        if !round.contains(state) {
            return false;
        }
    }
    true
}

/// Whether two lists have a state in common.
fn shares_state(states: &[StateId], others: &[StateId]) -> bool {
    for state in states {
        if others.contains(state) {
            return true;
        }
    }
    false
}

/// Whether a round was found that has these states.
fn is_known(found: &[Flap], states: &[StateId]) -> bool {
    for flap in found {
        if flap.states.as_slice() == states {
            return true;
        }
    }
    false
}

/// Looks for rounds from each state that is entered, without those that are meant. `visits` are those of a core.
pub(crate) fn flaps_of(
    alloc: Global,
    compiled: Compiled<'_, '_>,
    visits: &Visits<'_, '_>,
    states: &[StateAnswer],
    remarks: &[Remark<'_>],
) -> Result<Flaps, AllocError>
    requires { IsCompiled compiled }
    ensures { IfOk result (λ flaps. AreRounds compiled.entry.policy.now flaps.found.items) }
{
    let policy = compiled.policy;
    let mut stage = Stage {
        alloc,
        policy,
        leads: Leads::of(alloc, policy)?,
        visits,
        seconds: states.len().saturating_mul(4).saturating_add(8).min(1024),
        allowance: Allowance { left: PLAYED },
    };
    let mut flaps = Flaps {
        found: Vec::new(alloc),
        asked: 0,
        undecided: 0,
    };
    let mut rounds = Rounds::new(alloc, policy)?;
    avoid_meant(alloc, policy, remarks, &mut rounds)?;
    look_at_all(&mut stage, compiled, &mut rounds, states, &mut flaps)?;
    Ok(flaps)
}

/// Leaves out the rounds that comments name.
fn avoid_meant(
    alloc: Global,
    policy: &Policy,
    remarks: &[Remark<'_>],
    rounds: &mut Rounds<'_>,
) -> Result<(), AllocError> {
    for remark in remarks {
        if let Some(names) = &remark.states {
            if let Some(states) = states_named(alloc, policy, names.as_slice())? {
                rounds.avoid(states)?;
            }
        }
    }
    Ok(())
}

/// Looks for a round from each state that is entered.
fn look_at_all(
    stage: &mut Stage<'_, '_>,
    compiled: Compiled<'_, '_>,
    rounds: &mut Rounds<'_>,
    states: &[StateAnswer],
    flaps: &mut Flaps,
) -> Result<(), AllocError>
    requires compiled { IsCompiled compiled }
    requires found { AreRounds compiled.policy.now flaps.old.found.items }
    ensures { OnOk result (AreRounds compiled.entry.policy.now flaps.new.found.items) }
{
    let mut budget = ROUNDS.within(situations_of(stage.policy, PARTS));
    for (number, answer) in states.iter().enumerate() {
        let state = StateId(number_of(number));
        if answer.entered == Extent::Somewhere {
            look(stage, compiled, rounds, state, &mut budget, flaps)?;
        }
    }
    Ok(())
}

/// Looks for a round from a state.
fn look(
    stage: &mut Stage<'_, '_>,
    compiled: Compiled<'_, '_>,
    rounds: &mut Rounds<'_>,
    state: StateId,
    budget: &mut Budget,
    flaps: &mut Flaps,
) -> Result<(), AllocError>
    requires compiled { IsCompiled compiled }
    requires found { AreRounds compiled.policy.now flaps.old.found.items }
    ensures { OnOk result (AreRounds compiled.entry.policy.now flaps.new.found.items) }
{
    let before = budget.undecided;
    flaps.ask();
    match rounds.round_at(state, budget)? {
        Some(round) => flaps.replay(stage, compiled, rounds, round),
        None => {
            flaps.leave_if(budget.undecided != before);
            Ok(())
        }
    }
}
