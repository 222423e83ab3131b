//! Conditions: leaves joined by `!`, `&&` and `||`.

ghost use Rattle.std.specs.Prelude.{◌≡◌};
ghost use Rattle.ifs_parse.specs.Trees.{condition_size};
ghost use Rattle.ifs_parse.specs.Views.{condition_of, OperandsBelow};

use std::marker::Model;

/// A condition over leaves.
#[cycle(condition)]
#[derive(Drop)]
pub struct Condition<L> {
    node: Node<L>,
}

/// The top of a condition.
#[cycle(condition)]
#[derive(Drop)]
pub enum Node<L> {
    /// A leaf.
    Leaf(L),
    /// The negation of an operand.
    Not(Box<Condition<L>>),
    /// Operands joined by `&&`: the first two, and the others in order.
    All(Box<Condition<L>>, Box<Condition<L>>, Vec<Condition<L>>),
    /// Operands joined by `||`: the first two, and the others in order.
    Any(Box<Condition<L>>, Box<Condition<L>>, Vec<Condition<L>>),
}

impl<L> Model for Condition<L> {
    ghost use Rattle.ifs_parse.specs.Trees as tree;
    ghost use Rattle.ifs_parse.specs.inner.Codes.{condition_code};

    ghost Value = { tree.Condition L };

    ghost coded = { condition_code L.code };

    ghost use Rattle.ifs_parse.specs.Views.{condition_of};

    ghost view = { λ a. condition_of a.node };

    ghost size = { tree.condition_size };

    ghost use Rattle.ifs_parse.specs.inner.Falls.{node_is_smaller};

    ghost size_decreases = { λ a h. node_is_smaller a.node };
}

impl<L> Condition<L> {
    /// Makes a condition of a node. It allocates nothing.
    pub fn new(node: Node<L>) -> Self
        ensures { result ≡ condition_of node }
    {
        Condition { node }
    }

    /// Borrows the node. Its operands are smaller than the condition.
    #[tactic(auto, using(crate::specs::inner::Falls::operands_are_below))]
    pub fn node(&self) -> &Node<L>
        ensures value { self.now ≡ condition_of result.now }
        ensures smaller { OperandsBelow (condition_size self.now) result.now }
    {
        &self.node
    }
}
