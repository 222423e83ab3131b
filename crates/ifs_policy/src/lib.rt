//! Name resolution: the policy of a tree, in which each name is the index of a table entry.
//!
//! Interfaces, tests and commands are numbered from 0 in the order of their first use in the text,
//! states in the order of their definitions.
//! Contract: `resolve` returns the policy of a tree, and `policy_of` that of a text. Otherwise they return the
//! first fault with its line.
#![tactic(auto)]

mod fault;
mod front;
pub mod laws;
mod mention;
mod names;
mod placing;
mod policy;
mod replacing;
mod resolving;
mod table;
mod tables;
mod visiting;

pub use fault::ResolveFault;
pub use front::{PolicyFault, PolicyText, policy_of};
pub use mention::{Half, Mention, Owner};
pub use names::Names;
pub use policy::{Counts, Handlers, Policy, PolicyBlock, PolicyParts, Single};
pub use replacing::{LeafMap, replace_leaves};
pub use resolving::resolve;
pub use table::Table;
pub use tables::{ExternalTest, Tables};
pub use visiting::{SingleVisitor, mentions, mentions_in, visit_block, visit_condition};
