//! How many situations of a policy may be looked at.

use ifs_parse::{Condition, Node, Statement};
use ifs_policy::{Handlers, Policy, PolicyBlock, Single};

/// How many parts of conditions and blocks the questions on a policy may look at. That takes less than a second.
pub const PARTS: usize = 10_000_000;

/// How many situations of a policy may be looked at, if all together have so many parts of conditions and blocks.
pub fn situations_of(policy: &Policy, parts: usize) -> u32 {
    let situations = parts.checked_div(most_parts(policy)).unwrap_or(parts);
    u32::try_from(situations).unwrap_or(u32::MAX)
}

/// The most parts that an evaluation looks at: those of the body outside any state, and of an `init` or another body.
fn most_parts(policy: &Policy) -> usize {
    let mut most = 0usize;
    for part in policy.states() {
        most = most.max(parts_of_either(part));
    }
    let always = policy.always();
    most.saturating_add(parts_of_either(always))
}

/// The parts of an `init` or a body, whichever has more.
fn parts_of_either(part: &Handlers) -> usize {
    parts_of_block(&part.init).max(parts_of_block(&part.body))
}

/// The statements of a block, and the parts of its conditions.
fn parts_of_block(block: &PolicyBlock) -> usize {
    let mut parts = 0usize;
    for statement in block.statements() {
        let more = match statement {
            Statement::Run(_) | Statement::SetState(_) => 1,
            Statement::If(condition, inner) => {
                parts_of(condition).saturating_add(parts_of_block(inner))
            }
        };
        parts = parts.saturating_add(more);
    }
    parts
}

/// The tests and operators of a condition.
fn parts_of(condition: &Condition<Single>) -> usize {
    match condition.node() {
        Node::Leaf(_) => 1,
        Node::Not(operand) => parts_of(operand).saturating_add(1),
        Node::All(first, second, rest) | Node::Any(first, second, rest) => {
            let mut parts = parts_of(first).saturating_add(parts_of(second));
            for operand in rest {
                parts = parts.saturating_add(parts_of(operand));
            }
            parts.saturating_add(1)
        }
    }
}
