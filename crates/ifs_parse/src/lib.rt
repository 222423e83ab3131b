//! The second step from a policy text: `parse` makes the tree of its tokens.
//!
//! A policy is a list of items: `init-state`, states with their parts, and parts outside any state. A part is
//! an `init` block or a statement. The parser reads tokens from the left, with one token of look-ahead. It has
//! one method for each line of the grammar. A `||` beside a `&&` without parentheses gives a note.
//! Contract: `parse` returns the one tree that the grammar gives the tokens, with its notes, or the fault of the
//! first token that cannot go on.
#![tactic(auto)]

mod block;
mod condition;
mod conditions;
mod fault;
pub mod laws;
mod mark;
mod parser;
mod parsing;
mod period;
mod statements;
mod tree;

pub use block::{Block, Statement};
pub use condition::{Condition, Node};
pub use fault::ParseFault;
pub use parsing::parse;
pub use period::Period;
pub use tree::{Action, Actions, Item, Name, Part, Test, Tree, Wish};
