//! Walks over the single tests of conditions and blocks.

ghost use Rattle.std.specs.Prelude.{◌≡◌, ◌||◌};
ghost use Rattle.ifs_parse.specs.Trees.{Done};
ghost use Rattle.ifs_parse.specs.Views.{statement_then};
ghost use Rattle.ifs_policy.specs.Visits.{after_block, after_condition, has_test, is_test, mentions, mentions_in};
ghost use Rattle.ifs_policy.specs.declared.policy.Single.{Single};

use crate::policy::{PolicyBlock, Single};
use ifs_base::{CommandId, StateId, TestId};
use ifs_parse::{Condition, Node, Statement};

/// What looks at single tests, one after the other.
pub trait SingleVisitor {
    // What it is after it has looked at one more test.
    ghost after: { Self → Single → Self };

    /// Looks at a single test.
    fn visit(&mut self, single: Single)
        ensures { self.new ≡ after self.old single };
}

/// Shows a visitor the single tests of a condition, from the left.
pub fn visit_condition<V: SingleVisitor>(visitor: &mut V, condition: &Condition<Single>)
    ensures { visitor.new ≡ after_condition V.after visitor.old condition.now }
{
    match condition.node() {
        Node::Leaf(single) => visitor.visit(*single),
        Node::Not(operand) => visit_condition(visitor, operand),
        Node::All(first, second, rest) | Node::Any(first, second, rest) => {
            visit_condition(visitor, first);
            visit_condition(visitor, second);
            for operand in rest {
                visit_condition(visitor, operand);
            }
        }
    }
}

/// Shows a visitor the single tests of a block, from the top.
#[cycle(visit_block)]
pub fn visit_block<V: SingleVisitor>(visitor: &mut V, block: &PolicyBlock)
    ensures { visitor.new ≡ after_block V.after visitor.old block.now }
{
    for statement in block.statements() {
        visit_statement(visitor, statement);
    }
}

/// Shows a visitor the single tests of a statement.
#[cycle(visit_block)]
fn visit_statement<V: SingleVisitor>(
    visitor: &mut V,
    statement: &Statement<Single, CommandId, StateId>,
)
    ensures { visitor.new ≡ after_block V.after visitor.old (statement_then statement.now Done) }
{
    match statement {
        Statement::Run(_) | Statement::SetState(_) => {}
        Statement::If(condition, inner) => {
            visit_condition(visitor, condition);
            visit_block(visitor, inner);
        }
    }
}

/// A search for a test.
#[derive(Clone, Copy)]
struct Sought {
    test: TestId,
    is_found: bool,
}

impl SingleVisitor for Sought {
    ghost after = { λ s single. record { test = s.test; is_found = s.is_found || has_test (is_test s.test) single } };

    fn visit(&mut self, single: Single) {
        match single {
            Single::LinkIs(_, _) => {}
            Single::TestIs(other) => self.is_found |= other.0 == self.test.0,
        }
    }
}

/// Whether a condition mentions an external test.
pub fn mentions_in(test: TestId, condition: &Condition<Single>) -> bool
    ensures { result ≡ mentions_in test condition.now }
{
    let mut sought = Sought {
        test,
        is_found: false,
    };
    visit_condition(&mut sought, condition);
    sought.is_found
}

/// Whether a block mentions an external test.
pub fn mentions(test: TestId, block: &PolicyBlock) -> bool
    ensures { result ≡ mentions test block.now }
{
    let mut sought = Sought {
        test,
        is_found: false,
    };
    visit_block(&mut sought, block);
    sought.is_found
}
