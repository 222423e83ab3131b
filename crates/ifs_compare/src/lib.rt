//! What an edit of a policy changes: facts and a state in which an evaluation leads elsewhere or runs other commands, in words
//! and as request lines; or that two policies do the same for every list of steps.
//!
//! Numbers follow the order of a text, so the new policy first gets the numbers that the old one gives to its names. Then
//! their handlers are compared one by one, by a search in ranges of facts.
//! Contract: if `compare` finds no difference and leaves nothing undecided, the policies have the same names, and each handler
//! has the same commands and wish under all facts (`Alike.IsTheSame`). A law carries that over to every list of steps.
#![tactic(auto)]

mod answering;
mod answers;
mod choosing;
mod comparing;
mod core_pair;
mod effort;
mod entering;
mod evaluating;
mod exploring;
mod guiding;
mod identity;
mod joining;
pub mod laws;
mod lines;
mod looking;
mod middles;
mod names;
mod opening;
mod parts;
mod points;
mod renumbering;
mod reporting;
mod searching;
mod sides;
mod walking;
mod wording;

pub use answers::{Compared, Difference};
pub use comparing::{compare, compare_within};
pub use effort::Effort;
pub use lines::place;
pub use opening::opening_under;
