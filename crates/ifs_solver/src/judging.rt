//! What is known of conditions and blocks within a set.

ghost use Rattle.std.specs.Prelude.{◌≡◌};
ghost use Rattle.ifs_parse.specs.Views.{block_of};
ghost use Rattle.ifs_solver.specs.FactSets.{fact_set_of};
ghost use Rattle.ifs_solver.specs.Asking.{guard_of};
ghost use Rattle.ifs_solver.specs.inner.Judging.{joins, judged, judged_all, judged_branch, judged_constraint, judged_guard, judged_held};
ghost use Rattle.ifs_solver.specs.inner.Judging.{judged_held_after, judged_open};
ghost use Rattle.ifs_solver.specs.inner.Judging.{judged_open_in, judged_single, judged_wish, judged_wish_after};
ghost use Rattle.ifs_solver.specs.inner.Judging.{no_wish};
ghost use Rattle.ifs_solver.specs.FactSets.{domain_at};

use crate::constraints::{Aim, Constraint, Guard, PolicyStatement};
use crate::domains::Branch;
use crate::fact_sets::FactSet;
use crate::verdicts::{Verdict, Wish};
use ifs_base::LinkState;
use ifs_parse::{Condition, Node, Statement};
use ifs_policy::{PolicyBlock, Single};

/// Judges whether a fact is as asked. Without a place for it, this is known.
fn judge_branch(set: &FactSet, missing: bool, branch: Branch) -> Verdict
    ensures { result ≡ judged_branch missing (domain_at branch (fact_set_of set.now)) branch }
{
    match set.domain(branch) {
        None => Verdict::Known(missing),
        Some(domain) => {
            if !domain.allows(branch.value()) {
                Verdict::Known(false)
            } else if domain.without(branch.value()).has_one() {
                Verdict::Open(branch)
            } else {
                Verdict::Known(true)
            }
        }
    }
}

/// Judges whether a single test is true.
fn judge_single(set: &FactSet, single: Single) -> Verdict
    ensures { result ≡ judged_single (fact_set_of set.now) single }
{
    match single {
        Single::LinkIs(interface, state) => judge_branch(
            set,
            false,
            Branch::Link(interface, state),
        ),
        Single::TestIs(test) => judge_branch(set, false, Branch::Test(test, LinkState::Up)),
    }
}

/// Judges whether the test of a single test has no value.
fn judge_open(set: &FactSet, single: Single) -> Verdict
    ensures { result ≡ judged_open (fact_set_of set.now) single }
{
    match single {
        Single::LinkIs(_, _) => Verdict::Known(false),
        Single::TestIs(test) => judge_branch(set, true, Branch::Test(test, LinkState::Unknown)),
    }
}

/// Whether one true operand decides a node: it does for `||`.
pub(crate) fn joins(node: &Node<Single>) -> bool
    ensures { result ≡ joins node.now }
{
    matches!(node, Node::Any(_, _, _))
}

/// Judges whether a condition is true.
pub fn judge(set: &FactSet, condition: &Condition<Single>) -> Verdict
    ensures { result ≡ judged (fact_set_of set.now) condition.now }
{
    let node = condition.node();
    match node {
        Node::Leaf(single) => judge_single(set, *single),
        Node::Not(operand) => judge(set, operand).negated(),
        Node::All(first, second, rest) | Node::Any(first, second, rest) => {
            let deciding = joins(node);
            let mut verdict = judge(set, first).joined(deciding, judge(set, second));
            for operand in rest {
                verdict = verdict.joined(deciding, judge(set, operand));
            }
            verdict
        }
    }
}

/// Judges whether a test in a condition has no value.
fn judge_open_in(set: &FactSet, condition: &Condition<Single>) -> Verdict
    ensures { result ≡ judged_open_in (fact_set_of set.now) condition.now }
{
    match condition.node() {
        Node::Leaf(single) => judge_open(set, *single),
        Node::Not(operand) => judge_open_in(set, operand),
        Node::All(first, second, rest) | Node::Any(first, second, rest) => {
            let mut verdict = judge_open_in(set, first).or(judge_open_in(set, second));
            for operand in rest {
                verdict = verdict.or(judge_open_in(set, operand));
            }
            verdict
        }
    }
}

/// Judges whether a test in a block has no value, or one before it.
#[cycle(judge_held)]
pub fn judge_held(set: &FactSet, before: Verdict, block: &PolicyBlock) -> Verdict
    ensures { result ≡ judged_held (fact_set_of set.now) before block.now }
{
    let mut verdict = before;
    for statement in block.statements() {
        verdict = judge_held_after(set, verdict, statement);
    }
    verdict
}

/// Judges whether a test in a statement has no value, or one before it.
#[cycle(judge_held)]
fn judge_held_after(set: &FactSet, before: Verdict, statement: &PolicyStatement) -> Verdict
    ensures { result ≡ judged_held_after (fact_set_of set.now) before statement.now }
{
    match statement {
        Statement::Run(_) | Statement::SetState(_) => before,
        Statement::If(condition, inner) => {
            judge_held(set, before.or(judge_open_in(set, condition)), inner)
        }
    }
}

/// Judges the last wish that statements reach.
#[cycle(judge_wish)]
fn judge_wish(set: &FactSet, aim: Aim, statements: &[PolicyStatement]) -> Wish
    ensures { result ≡ judged_wish (fact_set_of set.now) aim no_wish (block_of statements.now) }
{
    let mut wish = Wish::NONE;
    for statement in statements {
        wish = judge_wish_after(set, aim, wish, statement);
    }
    wish
}

/// Judges the last wish that a statement reaches, or the one before it.
#[cycle(judge_wish)]
fn judge_wish_after(set: &FactSet, aim: Aim, before: Wish, statement: &PolicyStatement) -> Wish
    ensures { result ≡ judged_wish_after (fact_set_of set.now) aim before statement.now }
{
    match statement {
        Statement::Run(_) => before,
        Statement::SetState(state) => Wish::for_state(aim, *state),
        Statement::If(condition, inner) => {
            let wish = judge_wish(set, aim, inner.statements());
            before.then(wish.guarded(judge(set, condition)))
        }
    }
}

/// Judges whether facts meet a guard.
fn judge_guard(set: &FactSet, guard: Guard<'_>) -> Verdict
    ensures { result ≡ judged_guard (fact_set_of set.now) (guard_of guard.entry) }
{
    match guard {
        Guard::True(condition) => judge(set, condition),
        Guard::Known(condition) => {
            judge(set, condition).and(judge_open_in(set, condition).negated())
        }
        Guard::Unknown(condition) => judge_open_in(set, condition),
    }
}

/// Judges whether facts meet a constraint.
fn judge_constraint(set: &FactSet, constraint: &Constraint<'_>) -> Verdict
    ensures { result ≡ judged_constraint (fact_set_of set.now) constraint.now }
{
    match constraint {
        Constraint::Truth(condition, true) => judge(set, condition),
        Constraint::Truth(condition, false) => judge(set, condition).negated(),
        Constraint::Met(guard) => judge_guard(set, *guard),
        Constraint::Free(body) => judge_held(set, Verdict::Known(false), body).negated(),
        Constraint::NoWish(statements) => judge_wish(set, Aim::Any, statements).hit.negated(),
        Constraint::Silent(body) => {
            let held = judge_held(set, Verdict::Known(false), body);
            held.or(judge_wish(set, Aim::Any, body.statements()).hit.negated())
        }
        Constraint::Aims(body, aim) => judge_wish(set, *aim, body.statements()).hit,
    }
}

/// Judges whether facts meet all of some constraints. The last ones are judged first, and no more of them once one is met by no
/// facts: a search adds constraints at the end.
pub(crate) fn judge_all(set: &FactSet, constraints: &[Constraint<'_>]) -> Verdict
    ensures { result ≡ judged_all (fact_set_of set.now) constraints.now }
{
    match constraints {
        [] => Verdict::Known(true),
        [first, rest @ ..] => {
            let later = judge_all(set, rest);
            if let Verdict::Known(false) = later {
                return later;
            }
            judge_constraint(set, first).and(later)
        }
    }
}
