//! What `ifsvm lint` says of a policy: each answer of `ifs_solver` that names a defect, with its place in the text, what makes it
//! so, and words.
//!
//! Contract: the findings on places and states are those that right answers name. Steps from an opening go each reported
//! round twice. If nothing is said of rounds, all is decided of them and the text has no `may flap`, no round goes on in any world.
#![tactic(auto)]

mod finding;
mod flaps;
mod following;
mod going;
mod leading;
mod likeness;
mod linting;
mod marked;
mod marks;
mod meant;
mod placing;
mod reasons;
mod results;
mod wording;
mod worlds;

pub use finding::{Finding, Said};
pub use linting::{Linted, lint};
