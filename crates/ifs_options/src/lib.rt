//! What a command line can ask for, as plain values. The command line makes them, and the crates that act on them take them.
//!
//! It has no contract. It uses no other crate, so that what acts on a value is proved beside the command line.
#![tactic(auto)]

mod printing;
mod serve;
mod task;

pub use printing::{Explained, Lines, Reports, StatusForm};
pub use serve::{Limits, NoteForm, Notes, Serve};
pub use task::Task;
