//! What handlers reach under all facts within a set.

ghost use Rattle.std.specs.Prelude.{◌≡◌, IfOk};
ghost use Rattle.ifs_base.specs.Effects.{nothing_yet};
ghost use Rattle.ifs_parse.specs.Trees.{Done, IfThen};
ghost use Rattle.ifs_parse.specs.Views.{block_of, statement_then};
ghost use Rattle.ifs_core.specs.Event.{change_of};
ghost use Rattle.ifs_solver.specs.FactSets.{fact_set_of};
ghost use Rattle.ifs_solver.specs.Reaching.{block_in, effects_of, AreReached, IsBodyReached, IsReached, IsYielded};
ghost use Rattle.ifs_solver.specs.inner.Reaching.{AreBodiesReached, IsEvaluationReached, IsReachedAfter};

use crate::constraints::PolicyStatement;
use crate::domains::Branch;
use crate::fact_sets::FactSet;
use crate::judging::{judge, judge_held};
use crate::verdicts::Verdict;
use ifs_base::{CommandId, StateId};
use ifs_parse::{Condition, Statement};
use ifs_policy::{PolicyBlock, Single};
use std::alloc::{AllocError, Global};

/// The commands that are reached, in order, and the last wish for a state.
#[derive(Drop)]
pub struct Reached {
    pub commands: Vec<CommandId>,
    pub wish: Option<StateId>,
}

/// A handler of a part, or the bodies of an evaluation.
#[derive(Clone, Copy)]
pub enum Handler<'a> {
    /// An `init`, which is never held back.
    Init(&'a PolicyBlock),
    /// A body, which is held back while a test that it mentions has no value.
    Body(&'a PolicyBlock),
    /// The bodies of an evaluation. A wish for the state itself is none.
    Evaluation(Bodies<'a>),
}

/// The bodies of an evaluation in a state.
#[derive(Clone, Copy)]
pub struct Bodies<'a> {
    pub state: StateId,
    /// The one outside any state, which comes first.
    pub always: &'a PolicyBlock,
    /// The state's own.
    pub own: &'a PolicyBlock,
}

impl Reached {
    /// Nothing so far. Does not allocate.
    pub fn new(alloc: Global) -> Reached
        ensures { effects_of result ≡ nothing_yet }
    {
        Reached {
            commands: Vec::new(alloc),
            wish: None,
        }
    }
}

/// Adds what a block reaches. Returns the fact that decides what comes next, if that differs within the set. Returns an
/// error if an allocation fails.
#[cycle(reach)]
pub fn reach(
    set: &FactSet,
    block: &PolicyBlock,
    reached: &mut Reached,
) -> Result<Option<Branch>, AllocError>
    ensures { IfOk result (λ pending. IsReached (fact_set_of set.now) block.now (effects_of reached.old) (effects_of reached.new) pending) }
{
    let pending = reach_statements(set, block.statements(), reached)?;
    Ok(pending)
}

/// Adds what statements reach.
#[cycle(reach)]
fn reach_statements(
    set: &FactSet,
    statements: &[PolicyStatement],
    reached: &mut Reached,
) -> Result<Option<Branch>, AllocError>
    ensures { IfOk result (λ pending. IsReached (fact_set_of set.now) (block_of statements.now) (effects_of reached.old) (effects_of reached.new) pending) }
{
    let mut pending = None;
    for statement in statements {
        pending = reach_after(set, pending, statement, reached)?;
    }
    Ok(pending)
}

/// Adds what a statement reaches, unless something was open before it.
#[cycle(reach)]
fn reach_after(
    set: &FactSet,
    before: Option<Branch>,
    statement: &PolicyStatement,
    reached: &mut Reached,
) -> Result<Option<Branch>, AllocError>
    ensures { IfOk result (λ pending. IsReachedAfter (fact_set_of set.now) before statement.now (effects_of reached.old) (effects_of reached.new) pending) }
{
    match before {
        Some(branch) => Ok(Some(branch)),
        None => {
            let pending = reach_statement(set, statement, reached)?;
            Ok(pending)
        }
    }
}

/// Adds what a statement reaches.
#[cycle(reach)]
fn reach_statement(
    set: &FactSet,
    statement: &PolicyStatement,
    reached: &mut Reached,
) -> Result<Option<Branch>, AllocError>
    ensures { IfOk result (λ pending. IsReached (fact_set_of set.now) (statement_then statement.now Done) (effects_of reached.old) (effects_of reached.new) pending) }
{
    match statement {
        Statement::Run(command) => {
            reached.commands.push(*command)?;
            Ok(None)
        }
        Statement::SetState(state) => {
            reached.wish = Some(*state);
            Ok(None)
        }
        Statement::If(condition, inner) => {
            let pending = reach_if(set, condition, inner, reached)?;
            Ok(pending)
        }
    }
}

/// Adds what a block reaches if a condition is true.
#[cycle(reach)]
fn reach_if(
    set: &FactSet,
    condition: &Condition<Single>,
    inner: &PolicyBlock,
    reached: &mut Reached,
) -> Result<Option<Branch>, AllocError>
    ensures { IfOk result (λ pending. IsReached (fact_set_of set.now) (IfThen condition.now inner.now Done) (effects_of reached.old) (effects_of reached.new) pending) }
{
    match judge(set, condition) {
        Verdict::Known(true) => {
            let pending = reach(set, inner, reached)?;
            Ok(pending)
        }
        Verdict::Known(false) => Ok(None),
        Verdict::Open(branch) => Ok(Some(branch)),
    }
}

impl<'a> Handler<'a> {
    /// The statements of its block; of an evaluation, those of the state's own body.
    pub fn statements(self) -> &'a [PolicyStatement]
        ensures { block_in self.entry ≡ block_of result.now }
    {
        match self {
            Handler::Init(block) | Handler::Body(block) => block.statements(),
            Handler::Evaluation(bodies) => bodies.own.statements(),
        }
    }

    /// What it yields. The fact says on what that depends within the set, if it does. Returns an error if an allocation
    /// fails.
    pub fn yielded(self, alloc: Global, set: &FactSet) -> Result<Yielded, AllocError>
        ensures { IfOk result (λ it. IsYielded (fact_set_of set.now) self.entry it) }
    {
        match self {
            Handler::Init(block) => {
                let it = yielded_by_block(alloc, set, block)?;
                Ok(it)
            }
            Handler::Body(block) => {
                let it = yielded_by_body(alloc, set, block)?;
                Ok(it)
            }
            Handler::Evaluation(bodies) => {
                let it = yielded_by_evaluation(alloc, set, bodies)?;
                Ok(it)
            }
        }
    }
}

/// What a block reaches.
fn yielded_by_block(
    alloc: Global,
    set: &FactSet,
    block: &PolicyBlock,
) -> Result<Yielded, AllocError>
    ensures { IfOk result (λ it. AreReached (fact_set_of set.now) block.now it) }
{
    let mut reached = Reached::new(alloc);
    let pending = reach(set, block, &mut reached)?;
    Ok(Yielded { reached, pending })
}

/// What a body yields.
fn yielded_by_body(alloc: Global, set: &FactSet, body: &PolicyBlock) -> Result<Yielded, AllocError>
    ensures { IfOk result (λ it. IsBodyReached (fact_set_of set.now) body.now nothing_yet (effects_of it.reached) it.pending) }
{
    let mut reached = Reached::new(alloc);
    let pending = reach_body(set, body, &mut reached)?;
    Ok(Yielded { reached, pending })
}

/// What an evaluation yields.
fn yielded_by_evaluation(
    alloc: Global,
    set: &FactSet,
    bodies: Bodies<'_>,
) -> Result<Yielded, AllocError>
    ensures { IfOk result (λ it. IsEvaluationReached (fact_set_of set.now) bodies.entry.state bodies.entry.always.now bodies.entry.own.now it) }
{
    let mut reached = Reached::new(alloc);
    let pending = reach_bodies(set, bodies.always, bodies.own, &mut reached)?;
    let wish = other_than(bodies.state, reached.wish);
    Ok(with_wish(Yielded { reached, pending }, wish))
}

/// What is yielded, with another wish.
fn with_wish(yielded: Yielded, wish: Option<StateId>) -> Yielded
    ensures reached { result.reached ≡ record yielded.reached { wish = wish } }
    ensures pending { result.pending ≡ yielded.pending }
{
    let mut yielded = yielded;
    yielded.reached.wish = wish;
    yielded
}

/// The state that a wish leads to, if it is not the current one.
pub fn other_than(current: StateId, wish: Option<StateId>) -> Option<StateId>
    ensures { result ≡ change_of current wish }
{
    match wish {
        None => None,
        Some(next) => {
            if next.0 == current.0 {
                None
            } else {
                Some(next)
            }
        }
    }
}

/// What a handler yields within a set.
#[derive(Drop)]
pub struct Yielded {
    /// All of it, or as much as is known.
    pub reached: Reached,
    /// The fact on which the rest depends.
    pub pending: Option<Branch>,
}

/// What statements reach within a set. Returns an error if an allocation fails.
pub fn reached_by(
    alloc: Global,
    set: &FactSet,
    statements: &[PolicyStatement],
) -> Result<Yielded, AllocError>
    ensures { IfOk result (λ it. AreReached (fact_set_of set.now) (block_of statements.now) it) }
{
    let mut reached = Reached::new(alloc);
    let pending = reach_statements(set, statements, &mut reached)?;
    Ok(Yielded { reached, pending })
}

/// Adds what a body yields: nothing if it is held back, else what it reaches. Returns the fact that decides what comes
/// next, if that differs within the set. Returns an error if an allocation fails.
pub fn reach_body(
    set: &FactSet,
    body: &PolicyBlock,
    reached: &mut Reached,
) -> Result<Option<Branch>, AllocError>
    ensures { IfOk result (λ pending. IsBodyReached (fact_set_of set.now) body.now (effects_of reached.old) (effects_of reached.new) pending) }
{
    match judge_held(set, Verdict::Known(false), body) {
        Verdict::Known(true) => Ok(None),
        Verdict::Known(false) => {
            let pending = reach(set, body, reached)?;
            Ok(pending)
        }
        Verdict::Open(branch) => Ok(Some(branch)),
    }
}

/// Adds what the body outside any state yields, and then what the state's own does.
fn reach_bodies(
    set: &FactSet,
    always: &PolicyBlock,
    own: &PolicyBlock,
    reached: &mut Reached,
) -> Result<Option<Branch>, AllocError>
    ensures { IfOk result (λ pending. AreBodiesReached (fact_set_of set.now) always.now own.now (effects_of reached.old) (effects_of reached.new) pending) }
{
    match reach_body(set, always, reached)? {
        Some(branch) => Ok(Some(branch)),
        None => {
            let pending = reach_body(set, own, reached)?;
            Ok(pending)
        }
    }
}
