//! Conditions whose leaves are replaced.

ghost use Rattle.std.specs.Prelude.{◌≡◌, ◌++◌, ◌∷◌, [], IfOk, OnOk};
ghost use Rattle.ifs_policy.specs.Leaves.{AreReplaced, IsReplaced};
ghost use Rattle.ifs_policy.specs.declared.policy.Single.{Single as SingleTest};

use crate::policy::Single;
use ifs_parse::{Condition, Node};
use std::alloc::{AllocError, Global};

/// What makes single tests of the leaves of a condition.
pub trait LeafMap<L> {
    /// Why there is none for a leaf.
    type Fault: From<AllocError> + Drop;

    // It may be asked.
    ghost can: { Self → Type 0 };

    // The single test of a leaf.
    ghost image: { Self → L → SingleTest };

    // What is so of each single test.
    ghost fits: { Self → SingleTest → Type 0 };

    /// The single test of a leaf.
    fn single(&self, leaf: &L) -> Result<Single, Self::Fault>
        requires { can self.now }
        ensures is { IfOk result (λ single. single ≡ image self.now leaf.now) }
        ensures fit { IfOk result (λ single. fits self.now single) };
}

/// A condition with a single test for each leaf. The only errors are those of leaves, and a failed allocation.
#[cycle(replace_leaves)]
pub fn replace_leaves<L, M: LeafMap<L>>(
    alloc: Global,
    map: &M,
    condition: &Condition<L>,
) -> Result<Condition<Single>, M::Fault>
    requires { M.can map.now }
    ensures { IfOk result (λ made. IsReplaced (M.image map.now) (M.fits map.now) condition.now made) }
{
    match condition.node() {
        Node::Leaf(leaf) => {
            let single = map.single(leaf)?;
            Ok(Condition::new(Node::Leaf(single)))
        }
        Node::Not(operand) => {
            let operand = replace_leaves(alloc, map, operand)?;
            Ok(Condition::new(Node::Not(boxed(alloc, operand)?)))
        }
        Node::All(first, second, rest) => {
            let first = boxed(alloc, replace_leaves(alloc, map, first)?)?;
            let second = boxed(alloc, replace_leaves(alloc, map, second)?)?;
            let rest = replace_operands(alloc, map, rest.as_slice())?;
            Ok(Condition::new(Node::All(first, second, rest)))
        }
        Node::Any(first, second, rest) => {
            let first = boxed(alloc, replace_leaves(alloc, map, first)?)?;
            let second = boxed(alloc, replace_leaves(alloc, map, second)?)?;
            let rest = replace_operands(alloc, map, rest.as_slice())?;
            Ok(Condition::new(Node::Any(first, second, rest)))
        }
    }
}

/// The operands of a chain, with a single test for each leaf.
#[cycle(replace_leaves)]
fn replace_operands<L, M: LeafMap<L>>(
    alloc: Global,
    map: &M,
    operands: &[Condition<L>],
) -> Result<Vec<Condition<Single>>, M::Fault>
    requires { M.can map.now }
    ensures { IfOk result (λ made. AreReplaced (M.image map.now) (M.fits map.now) operands.now made.items) }
{
    let mut made = Vec::new(alloc);
    for operand in operands {
        let replaced = replace_leaves(alloc, map, operand)?;
        push(&mut made, replaced)?;
    }
    Ok(made)
}

/// A condition on the heap.
fn boxed(alloc: Global, condition: Condition<Single>) -> Result<Box<Condition<Single>>, AllocError>
    ensures { IfOk result (λ made. made.value ≡ condition) }
{
    let made = Box::new(alloc, condition)?;
    Ok(made)
}

/// Adds an operand.
fn push(operands: &mut Vec<Condition<Single>>, operand: Condition<Single>) -> Result<(), AllocError>
    ensures { OnOk result (operands.new.items ≡ operands.old.items ++ operand ∷ []) }
{
    operands.push(operand)?;
    Ok(())
}
