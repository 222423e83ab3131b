//! The places of a policy, in order, with what is said of each.

ghost use Rattle.std.specs.Prelude.{◌≡◌, ◌++◌, ◌∷◌, [], not, Contains, IfOk, OnOk, IfNone};
ghost use Rattle.std.specs.List.{flat_map};
ghost use Rattle.ifs_parse.specs.Views.{block_of};
ghost use Rattle.ifs_solver.specs.Asking.{meets_all, IsExtentOf};
ghost use Rattle.ifs_solver.specs.Budgets.{IsSpent, IsUsedUp};
ghost use Rattle.ifs_solver.specs.Places.{block_places, condition_places, is_chain, operand_places, own_place, or_wish, part_places, places_of};
ghost use Rattle.ifs_solver.specs.Places.{always_here, bodies_after_always, where_wishing, AreAnswers, IsAnswerOf, Command, Here, Place, Test, Wish};
ghost use Rattle.ifs_solver.specs.FactSets.{scope_of};
ghost use Rattle.ifs_solver.specs.inner.Paying.{IsPaid, IsPaidToo};
ghost use Rattle.ifs_solver.specs.inner.Walking.{and_free, chain_places, others_of, part_places_at, policy_places_at, statement_places, GoesOn, IsLastOf};
ghost use Rattle.ifs_solver.specs.declared.constraints.Constraint.TheVariants.{NoWish};
ghost use Rattle.ifs_solver.specs.inner.Walking.{Adds, HasAsked, HasComeBack, HasEntered, HasGone, HasGoneBack, HasLeft, IsHere, IsInChain, IsLater, IsStart, StaysPaid, Walked};

use crate::answers::Answer;
use crate::constraints::{Constraint, PolicyStatement};
use crate::fact_sets::Scope;
use crate::judging::joins;
use crate::searching::{Budget, Extent, ask, either};
use ifs_base::Items;
use ifs_parse::{Condition, Node, Statement};
use ifs_policy::{Handlers, Policy, PolicyBlock, Single};
use std::alloc::{AllocError, Global};

/// A walk over the places of a policy.
#[derive(Drop)]
pub(crate) struct Walk<'a> {
    alloc: Global,
    scope: Scope,
    /// The parts whose bodies may follow the one that is walked over.
    others: Option<&'a [Handlers]>,
    /// What leads to the present place.
    context: Vec<Constraint<'a>>,
    /// What makes a wish of the present block the last one of its body.
    last: Vec<Constraint<'a>>,
    budget: Budget,
    answers: Vec<Answer>,
}

impl<'a> Walk<'a> {
    /// A walk that begins.
    fn start(alloc: Global, scope: Scope, budget: Budget) -> Walk<'a>
        ensures { IsStart scope budget result }
    {
        Walk {
            alloc,
            scope,
            others: None,
            context: Vec::new(alloc),
            last: Vec::new(alloc),
            budget,
            answers: Vec::new(alloc),
        }
    }

    /// The answers of a walk, and what is left of its budget.
    fn finish(self, budget: &mut Budget) -> Items<Answer>
        ensures answers { result ≡ self.entry.answers.items }
        ensures budget { budget.new ≡ self.entry.budget }
    {
        *budget = self.budget;
        Items::new(self.answers)
    }

    /// Answers for the always part and for the states of a policy.
    fn policy(&mut self, always: &'a Handlers, states: &'a [Handlers]) -> Result<(), AllocError>
        ensures scope { OnOk result (self.new.scope ≡ self.old.scope) }
        ensures answers { OnOk result (Adds (λ here later. policy_places_at here later always.now states.now) self.old self.new) }
        ensures paid { OnOk result (StaysPaid self.old self.new) }
    {
        self.others = Some(states);
        self.part(always)?;
        self.others = None;
        self.parts(states)?;
        Ok(())
    }

    /// Whether facts that lead here meet a further constraint.
    fn ask_with(&mut self, constraint: Constraint<'a>) -> Result<Extent, AllocError>
        ensures extent { IfOk result (λ extent. IsExtentOf self.old.scope (meets_all (self.old.context.items ++ constraint.entry ∷ [])) extent) }
        ensures asked { OnOk result (HasAsked self.old self.new) }
        ensures paid { IfOk result (IsPaid self.old.budget self.new.budget) }
    {
        let extent = ask_with(
            self.alloc,
            self.scope,
            &mut self.context,
            constraint,
            &mut self.budget,
        )?;
        Ok(extent)
    }

    /// Answers for a condition or an operand.
    fn test(&mut self, condition: &'a Condition<Single>) -> Result<(), AllocError>
        ensures { OnOk result (Walked (λ here later. Test here condition.now ∷ []) self.old self.new) }
    {
        let truth = self.ask_with(Constraint::Truth(condition, true))?;
        let falsehood = self.ask_with(Constraint::Truth(condition, false))?;
        self.answers.push(Answer::of_condition(truth, falsehood))?;
        Ok(())
    }

    /// Answers for a command.
    fn command(&mut self) -> Result<(), AllocError>
        ensures { OnOk result (Walked (λ here later. Command here ∷ []) self.old self.new) }
    {
        let context = self.context.as_slice();
        let reached = ask(self.alloc, self.scope, context, &mut self.budget)?;
        self.answers.push(Answer::of_command(reached))?;
        Ok(())
    }

    /// Answers for a `set-state` that these statements follow.
    fn wish(&mut self, rest: &'a [PolicyStatement]) -> Result<(), AllocError>
        ensures { OnOk result (Walked (λ here later. Wish here (or_wish later (block_of rest.now)) (others_of self.old.others) ∷ []) self.old self.new) }
    {
        let context = self.context.as_slice();
        let reached = ask(self.alloc, self.scope, context, &mut self.budget)?;
        let last = self.ask_last(rest)?;
        self.answers.push(Answer::of_wish(reached, last))?;
        Ok(())
    }

    /// Whether a wish that is reached here, and that these statements follow, is the last one under some facts.
    fn ask_last(&mut self, rest: &'a [PolicyStatement]) -> Result<Extent, AllocError>
        ensures last { IfOk result (λ extent. IsLastOf self.old.scope ((self.old.context.items ++ self.old.last.items) ++ NoWish rest.entry ∷ []) (others_of self.old.others) extent) }
        ensures asked { OnOk result (HasAsked self.old self.new) }
        ensures paid { IfOk result (IsPaid self.old.budget self.new.budget) }
    {
        let depth = self.context.len();
        self.context.extend_from_slice(self.last.as_slice())?;
        self.context.push(Constraint::NoWish(rest))?;
        let extent = ask_last(
            self.alloc,
            self.scope,
            self.others,
            &mut self.context,
            &mut self.budget,
        )?;
        self.context.truncate(depth);
        Ok(extent)
    }

    /// Answers for a statement that these statements follow.
    #[cycle(statements)]
    fn statement(
        &mut self,
        statement: &'a PolicyStatement,
        rest: &'a [PolicyStatement],
    ) -> Result<(), AllocError>
        ensures { OnOk result (Walked (λ here later. statement_places here later (others_of self.old.others) statement.now (block_of rest.now)) self.old self.new) }
    {
        match statement {
            Statement::Run(_) => {
                self.command()?;
                Ok(())
            }
            Statement::SetState(_) => {
                self.wish(rest)?;
                Ok(())
            }
            Statement::If(condition, inner) => {
                self.test(condition)?;
                self.operands(condition)?;
                self.enter(condition, rest)?;
                self.statements(inner.statements())?;
                self.come_back();
                Ok(())
            }
        }
    }

    /// Answers for statements.
    #[cycle(statements)]
    fn statements(&mut self, statements: &'a [PolicyStatement]) -> Result<(), AllocError>
        ensures { OnOk result (Walked (λ here later. block_places here later (others_of self.old.others) (block_of statements.now)) self.old self.new) }
    {
        let mut left = statements;
        while let [statement, rest @ ..] = left {
            self.statement(statement, rest)?;
            left = rest;
        }
        Ok(())
    }

    /// Goes to the block under a condition, which these statements follow.
    fn enter(
        &mut self,
        condition: &'a Condition<Single>,
        rest: &'a [PolicyStatement],
    ) -> Result<(), AllocError>
        ensures { OnOk result (HasEntered condition.entry rest.entry self.old self.new) }
    {
        self.context.push(Constraint::Truth(condition, true))?;
        self.last.push(Constraint::NoWish(rest))?;
        Ok(())
    }

    /// Comes back from the block under a condition.
    fn come_back(&mut self)
        ensures { HasComeBack self.old self.new }
    {
        self.context.pop();
        self.last.pop();
    }

    /// Answers for a part: for its `init`, and then for its body.
    fn part(&mut self, part: &'a Handlers) -> Result<(), AllocError>
        ensures { OnOk result (Walked (λ here later. part_places_at here later (others_of self.old.others) part.now) self.old self.new) }
    {
        self.statements(part.init.statements())?;
        self.body(&part.body)?;
        Ok(())
    }

    /// Answers for a body, which is evaluated unless it is held back.
    fn body(&mut self, body: &'a PolicyBlock) -> Result<(), AllocError>
        ensures { OnOk result (Walked (λ here later. block_places (and_free here body.now) later (others_of self.old.others) body.now) self.old self.new) }
    {
        self.go_to(Constraint::Free(body))?;
        self.statements(body.statements())?;
        self.go_back();
        Ok(())
    }

    /// Goes to where one more constraint leads.
    fn go_to(&mut self, constraint: Constraint<'a>) -> Result<(), AllocError>
        ensures { OnOk result (HasGone constraint.entry self.old self.new) }
    {
        self.context.push(constraint)?;
        Ok(())
    }

    /// Goes back from there.
    fn go_back(&mut self)
        ensures { HasGoneBack self.old self.new }
    {
        self.context.pop();
    }

    /// Answers for parts.
    fn parts(&mut self, parts: &'a [Handlers]) -> Result<(), AllocError>
        ensures { OnOk result (Walked (λ here later. flat_map (part_places_at here later (others_of self.old.others)) parts.now) self.old self.new) }
    {
        for part in parts {
            self.part(part)?;
        }
        Ok(())
    }

    /// Goes back to where so many constraints lead.
    fn leave(&mut self, depth: usize)
        ensures { HasLeft depth self.old self.new }
    {
        self.context.truncate(depth);
    }

    /// Answers for an operand, unless it is several operands that have places of their own.
    fn own(&mut self, several: bool, operand: &'a Condition<Single>) -> Result<(), AllocError>
        ensures { OnOk result (Walked (λ here later. own_place several here operand.now) self.old self.new) }
    {
        if several {
            Ok(())
        } else {
            self.test(operand)?;
            Ok(())
        }
    }

    /// Answers for an operand of a chain, or for several first ones, and goes to where they do not decide.
    #[cycle(operands)]
    fn operand(
        &mut self,
        deciding: bool,
        several: bool,
        operand: &'a Condition<Single>,
    ) -> Result<(), AllocError>
        ensures { OnOk result (IsInChain deciding operand.now (λ here later. own_place several here operand.now ++ operand_places here operand.now) self.old self.new) }
    {
        self.own(several, operand)?;
        self.operands(operand)?;
        self.context.push(Constraint::Truth(operand, !deciding))?;
        Ok(())
    }

    /// Answers for the operands in a condition.
    #[cycle(operands)]
    fn operands(&mut self, condition: &'a Condition<Single>) -> Result<(), AllocError>
        ensures { OnOk result (Walked (λ here later. operand_places here condition.now) self.old self.new) }
    {
        let node = condition.node();
        match node {
            Node::Leaf(_) => Ok(()),
            Node::Not(operand) => {
                self.operands(operand)?;
                Ok(())
            }
            Node::All(first, second, rest) | Node::Any(first, second, rest) => {
                let deciding = joins(node);
                let depth = self.context.len();
                self.operand(deciding, is_chain(deciding, first), first)?;
                self.operand(deciding, false, second)?;
                for operand in rest {
                    self.operand(deciding, false, operand)?;
                }
                self.leave(depth);
                Ok(())
            }
        }
    }
}

/// Whether a condition is a chain of the operator that one operand of the value `deciding` decides.
fn is_chain(deciding: bool, condition: &Condition<Single>) -> bool
    ensures { result ≡ is_chain deciding condition.now }
{
    match condition.node() {
        Node::All(_, _, _) => !deciding,
        Node::Any(_, _, _) => deciding,
        _ => false,
    }
}

/// Whether some facts meet a further constraint.
fn ask_with<'a>(
    alloc: Global,
    scope: Scope,
    constraints: &mut Vec<Constraint<'a>>,
    constraint: Constraint<'a>,
    budget: &mut Budget,
) -> Result<Extent, AllocError>
    ensures extent { IfOk result (λ extent. IsExtentOf scope (meets_all (constraints.old.items ++ constraint.entry ∷ [])) extent) }
    ensures stays { OnOk result (constraints.new.items ≡ constraints.old.items) }
    ensures paid { IfOk result (IsPaid budget.old budget.new) }
{
    constraints.push(constraint)?;
    let extent = ask(alloc, scope, constraints.as_slice(), budget)?;
    constraints.pop();
    Ok(extent)
}

/// Whether some facts meet all constraints while one of the bodies that may follow does not wish.
fn ask_last<'a>(
    alloc: Global,
    scope: Scope,
    others: Option<&'a [Handlers]>,
    constraints: &mut Vec<Constraint<'a>>,
    budget: &mut Budget,
) -> Result<Extent, AllocError>
    ensures last { IfOk result (λ extent. IsLastOf scope constraints.old.items (others_of others.entry) extent) }
    ensures stays { OnOk result (constraints.new.items ≡ constraints.old.items) }
    ensures paid { IfOk result (IsPaid budget.old budget.new) }
{
    match others {
        None => {
            let extent = ask(alloc, scope, constraints.as_slice(), budget)?;
            Ok(extent)
        }
        Some(states) => {
            let extent = ask_before(alloc, scope, states, constraints, budget)?;
            Ok(extent)
        }
    }
}

/// Whether some facts meet all constraints while the body of one of these states does not wish.
fn ask_before<'a>(
    alloc: Global,
    scope: Scope,
    states: &'a [Handlers],
    constraints: &mut Vec<Constraint<'a>>,
    budget: &mut Budget,
) -> Result<Extent, AllocError>
    ensures last { IfOk result (λ extent. IsLastOf scope constraints.old.items (bodies_after_always states.now) extent) }
    ensures stays { OnOk result (constraints.new.items ≡ constraints.old.items) }
    ensures paid { IfOk result (IsPaid budget.old budget.new) }
{
    let mut extent = Extent::Nowhere;
    for part in states {
        extent = ask_next(alloc, scope, extent, part, constraints, budget)?;
    }
    Ok(extent)
}

/// The same before one more body, unless some facts are found already.
fn ask_next<'a>(
    alloc: Global,
    scope: Scope,
    extent: Extent,
    part: &'a Handlers,
    constraints: &mut Vec<Constraint<'a>>,
    budget: &mut Budget,
) -> Result<Extent, AllocError>
    ensures next { IfOk result (λ next. GoesOn scope constraints.old.items (where_wishing part.now.body) extent next) }
    ensures stays { OnOk result (constraints.new.items ≡ constraints.old.items) }
    ensures paid { IfOk result (IsPaidToo budget.old budget.new extent) }
{
    if extent.is_somewhere() {
        return Ok(extent);
    }
    let next = ask_with(
        alloc,
        scope,
        constraints,
        Constraint::Silent(&part.body),
        budget,
    )?;
    Ok(either(extent, next))
}

/// Judges the places of a policy: each condition of an `if` and each operand of `&&` and `||`, each `run` and each
/// `set-state`. The answers are in text order, those for the always part before those for the states, and in each part
/// those for its `init` before those for its body. Before the answers for its operands comes that for a condition, and
/// after these come those for the block under it. If the first operand of a chain is in parentheses and has the same
/// operator, its operands are those of the chain. Returns an error if an allocation fails.
pub fn judge_places(
    alloc: Global,
    policy: &Policy,
    budget: &mut Budget,
) -> Result<Items<Answer>, AllocError>
    ensures answers { IfOk result (λ answers. AreAnswers (scope_of policy.now) (places_of policy.now) answers) }
    // An answer is undecided only if the budget is used up.
    ensures undecided { IfOk result (λ answers. Contains answers Answer.Undecided → IsUsedUp budget.old budget.new) }
    ensures spent { IsSpent budget.old budget.new }
{
    let mut walk = Walk::start(alloc, Scope::of(policy), *budget);
    walk.policy(policy.always(), policy.states())?;
    Ok(walk.finish(budget))
}

/// Whether a condition is never or always true, over all facts of so many links and tests. The answer is `Never`, `Always`,
/// `Used` if it is true under some facts and false under others, or `Undecided`. Returns an error if an allocation fails.
pub fn truth_of(
    alloc: Global,
    scope: Scope,
    condition: &Condition<Single>,
    budget: &mut Budget,
) -> Result<Answer, AllocError>
    ensures answer { IfOk result (λ answer. IsAnswerOf scope (Test always_here condition.now) answer) }
    // It is undecided only if the budget is used up.
    ensures undecided { IfOk result (λ answer. answer ≡ Answer.Undecided → IsUsedUp budget.old budget.new) }
    ensures spent { IsSpent budget.old budget.new }
{
    let truth = ask(alloc, scope, &[Constraint::Truth(condition, true)], budget)?;
    let falsehood = ask(alloc, scope, &[Constraint::Truth(condition, false)], budget)?;
    Ok(Answer::of_condition(truth, falsehood))
}
