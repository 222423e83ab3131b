//! Blocks of statements.

ghost use Rattle.std.specs.Prelude.{◌≡◌};
ghost use Rattle.std.specs.List.{AllByRecursion};
ghost use Rattle.ifs_parse.specs.Trees.{block_size};
ghost use Rattle.ifs_parse.specs.Views.{block_of, InnerBelow};

use crate::condition::Condition;
use std::marker::Model;

/// Statements in order. The parameters are the leaves of conditions, the commands, and the wishes for states.
#[cycle(block)]
#[derive(Drop)]
pub struct Block<L, R, S> {
    statements: Vec<Statement<L, R, S>>,
}

/// A statement.
#[cycle(block)]
#[derive(Drop)]
pub enum Statement<L, R, S> {
    /// Runs a command.
    Run(R),
    /// Wishes for a state.
    SetState(S),
    /// Executes a block if a condition is true.
    If(Condition<L>, Block<L, R, S>),
}

impl<L, R, S> Model for Block<L, R, S> {
    ghost use Rattle.ifs_parse.specs.Trees as tree;
    ghost use Rattle.ifs_parse.specs.inner.Codes.{block_code};

    ghost Value = { tree.Block L R S };

    ghost coded = { block_code L.code R.code S.code };

    ghost use Rattle.ifs_parse.specs.Views.{block_of};

    ghost view = { λ a. block_of a.statements.items };

    ghost size = { tree.block_size };

    ghost use Rattle.ifs_parse.specs.inner.Falls.{statements_are_smaller};

    ghost size_decreases = { λ a h. statements_are_smaller a.statements.items };
}

impl<L, R, S> Block<L, R, S> {
    /// Makes a block of statements. It allocates nothing.
    pub fn new(statements: Vec<Statement<L, R, S>>) -> Self
        ensures { result ≡ block_of statements.items }
    {
        Block { statements }
    }

    /// Borrows the statements. Their blocks are smaller than this one.
    pub fn statements(&self) -> &[Statement<L, R, S>]
        ensures value { self.now ≡ block_of result.now }
        ensures smaller { AllByRecursion (InnerBelow (block_size self.now)) result.now }
    {
        self.statements.as_slice()
    }
}
