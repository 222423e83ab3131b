//! Walks of a core towards facts and states.
//!
//! `Ways` looks for facts under which a state leads to another one, `Map` measures how far states are by them, and a `Walk` says what a
//! core does next to come nearer. `Visits` are the states that walks enter.
//! Contract: what `facts_of` finds meets its demands. No clause speaks of walks: a caller makes their steps on a core.
#![tactic(auto)]

mod visiting;
mod walking;
mod ways;

pub use visiting::{Route, Visits};
pub use walking::{Map, Trail, Walk, pause_of, some_value};
pub use ways::{Target, Ways};
