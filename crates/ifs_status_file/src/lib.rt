//! The status file of a daemon: what it believes, since when, and what it did last.
#![tactic(auto)]

pub mod daemon_status;
mod fault;
mod reading;
mod writing;

pub use fault::StatusFault;
pub use reading::{parse_json, read_status};
pub use writing::to_json;
