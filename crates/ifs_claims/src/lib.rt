//! Where a claim on a policy would be broken. Nowhere: then it holds, whatever is known at an opening and after any steps. Somewhere:
//! some facts of one evaluation would break it. Or the budget ran out.
//!
//! A question of all steps is one of a single evaluation, since facts may change at any moment. So each claim asks `ifs_solver`
//! for facts that meet constraints.
//! Contract: `Nowhere` is said of every list of steps, and `laws` carries it over to every core of the compiled image.
//! `Somewhere` comes with facts. `Undecided` costs as much of the budget as one question may look at.
#![tactic(auto)]

mod asked_sets;
mod asking;
mod beginning;
mod changing;
mod claims;
mod commands;
mod kept;
mod known_changes;
pub mod laws;
mod opening;
mod reachable_states;
mod running;
mod setting;
mod sharing;
mod told;

pub use changing::rests_within;
pub use claims::{
    never_enters, never_enters_while, never_from, never_in, never_rests, never_settles, rests_in,
};
pub use known_changes::KnownChanges;
pub use reachable_states::ReachableStates;
pub use running::never_runs;
pub use sharing::is_untested;
