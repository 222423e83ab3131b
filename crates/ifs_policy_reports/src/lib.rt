//! What is said of a policy that is refused, and of one that looks as if something else were meant.
//!
//! Contract: `refusal` reports on the fault of a text, with its code, and names a place that the line of the fault allows.
#![tactic(auto)]

mod advising;
mod changes;
mod code;
mod definitions;
mod faults;
mod files;
mod grammar;
mod hints;
mod indentation;
mod links;
mod mended;
mod mending;
mod names;
mod noting;
mod open_signs;
mod operands;
mod periods;
mod quotes;
mod repairs;
mod scans;
mod strays;
mod suspects;
mod texts;
mod token_places;
mod twins;
mod wording;

pub use advising::{Until, notes, refusal, report_of};
