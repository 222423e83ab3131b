//! A policy played on a core: moves outside, the steps that the core makes of them, and their request lines.
//!
//! A search for steps opens a `Simulation` on the image of a policy, draws moves from a `Random`, and looks at the core after
//! each. Of what it finds, `shortened` then leaves out the moves that are not needed.
//! Contract: a core that is opened alike and makes the steps of a simulation comes to where its core is (`Played.GoesOn`), and
//! `made` says of each core which steps lead there. What is left of some moves was made once more (`shortened`).
#![tactic(auto)]

mod allowance;
mod compiled;
mod image;
mod making;
mod moves;
mod naming;
mod opening;
mod parts;
mod random;
mod requests;
mod runs;
mod shortening;
mod simulation;

pub use allowance::Allowance;
pub use compiled::CompiledPolicy;
pub use image::{PolicyImage, image_of};
pub use making::{make_step, make_steps};
pub use moves::{LONGEST_WAIT, Move, number_of, some_move, some_state};
pub use naming::telling_period;
pub use opening::{PLACES, carried_with, open, open_knowing, opened_knowing};
pub use parts::{PARTS, situations_of};
pub use random::Random;
pub use requests::{has_request, line_fits, requests_of, word_of};
pub use runs::{end_run, is_running};
pub use shortening::{Replay, Shown, shortened};
pub use simulation::Simulation;
