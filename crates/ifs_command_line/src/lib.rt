//! The command line of the program: its words, and what they ask for.
//!
//! Contract: a word after `-D` defines a macro exactly if the part before its first `=` is a macro name. The rest is tested,
//! not proved.
#![tactic(auto)]

mod command;
mod definitions;
mod fault;
mod links;
mod parts;
mod reading;
mod serve;
mod version;
mod words;

pub use command::{Command, Explain, Manner, Prove, Request, Send};
pub use definitions::definition_of;
pub use links::link_of;
pub use reading::{CommandLineExit, parse, read_words};
pub use version::VERSION;
