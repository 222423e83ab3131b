//! Conditions and blocks that are the same, part by part.

ghost use Rattle.std.specs.Bool.{OnTrue};
ghost use Rattle.std.specs.Prelude.{◌≡◌};

use ifs_base::LinkState;
use ifs_parse::{Condition, Node, Statement};
use ifs_policy::{PolicyBlock, Single};
use ifs_solver::PolicyStatement;

/// Whether two link states are the same.
fn same_link(one: LinkState, other: LinkState) -> bool
    ensures { OnTrue result (one ≡ other) }
{
    match (one, other) {
        (LinkState::Unknown, LinkState::Unknown) => true,
        (LinkState::Down, LinkState::Down) => true,
        (LinkState::Up, LinkState::Up) => true,
        _ => false,
    }
}

/// Whether two single tests are the same.
fn same_single(one: Single, other: Single) -> bool
    ensures { OnTrue result (one ≡ other) }
{
    match (one, other) {
        (Single::LinkIs(one, state), Single::LinkIs(other, also)) => {
            one.0 == other.0 && same_link(state, also)
        }
        (Single::TestIs(one), Single::TestIs(other)) => one.0 == other.0,
        _ => false,
    }
}

/// Whether two conditions are the same.
#[cycle(same_condition)]
fn same_condition(one: &Condition<Single>, other: &Condition<Single>) -> bool
    ensures { OnTrue result (one.now ≡ other.now) }
{
    match (one.node(), other.node()) {
        (Node::Leaf(single), Node::Leaf(also)) => same_single(*single, *also),
        (Node::Not(operand), Node::Not(also)) => same_condition(operand, also),
        (Node::All(first, second, rest), Node::All(third, fourth, others)) => {
            same_condition(first, third)
                && same_condition(second, fourth)
                && same_operands(rest.as_slice(), others.as_slice())
        }
        (Node::Any(first, second, rest), Node::Any(third, fourth, others)) => {
            same_condition(first, third)
                && same_condition(second, fourth)
                && same_operands(rest.as_slice(), others.as_slice())
        }
        _ => false,
    }
}

/// Whether two lists of operands are the same.
#[cycle(same_condition)]
fn same_operands(one: &[Condition<Single>], other: &[Condition<Single>]) -> bool
    ensures { OnTrue result (one.now ≡ other.now) }
{
    if one.len() != other.len() {
        return false;
    }
    for index in 0..one.len() {
        if !same_condition(&one[index], &other[index]) {
            return false;
        }
    }
    true
}

/// Whether two blocks are the same.
#[cycle(same_block)]
pub(crate) fn same_block(one: &PolicyBlock, other: &PolicyBlock) -> bool
    ensures { OnTrue result (one.now ≡ other.now) }
{
    same_statements(one.statements(), other.statements())
}

/// Whether two lists of statements are the same.
#[cycle(same_block)]
fn same_statements(one: &[PolicyStatement], other: &[PolicyStatement]) -> bool
    ensures { OnTrue result (one.now ≡ other.now) }
{
    if one.len() != other.len() {
        return false;
    }
    for index in 0..one.len() {
        if !same_statement(&one[index], &other[index]) {
            return false;
        }
    }
    true
}

/// Whether two statements are the same.
#[cycle(same_block)]
pub(crate) fn same_statement(one: &PolicyStatement, other: &PolicyStatement) -> bool
    ensures { OnTrue result (one.now ≡ other.now) }
{
    match (one, other) {
        (Statement::Run(command), Statement::Run(also)) => command.0 == also.0,
        (Statement::SetState(state), Statement::SetState(also)) => state.0 == also.0,
        (Statement::If(condition, inner), Statement::If(other, also)) => {
            same_condition(condition, other) && same_block(inner, also)
        }
        _ => false,
    }
}
