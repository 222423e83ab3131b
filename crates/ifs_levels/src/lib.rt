//! Levels: what the commands of a policy add up to, as a counter that some commands raise and others lower. A policy that enters a
//! state twice may raise it twice, and one that leaves the state by another way may never lower it.
//!
//! What comes of an opening, and of an evaluation in a state, is one of a few outcomes: a state that is entered, and commands. A
//! search in sets of facts finds them all. A table of states with levels is closed if they do not lead out of it.
//! Contract: if a table is closed, it has each state and level that steps lead to, also after each reload, which begins with the
//! level that was left. `laws` says the same of every set of situations with levels, and what follows at rest and on the way.
#![tactic(auto)]

mod building;
mod courses;
pub mod laws;
mod metering;
mod moments;
mod policy_outcomes;
mod ranges;
mod rows;
mod searching;
mod table;
mod tracking;

pub use metering::{Change, level_by, only_adds};
pub use moments::{Moment, Outcome};
pub use policy_outcomes::PolicyOutcomes;
pub use ranges::{LevelRange, range_by};
pub use rows::{Row, all_lead};
pub use searching::outcomes;
pub use table::LevelTable;
pub use tracking::TrackedLevel;
