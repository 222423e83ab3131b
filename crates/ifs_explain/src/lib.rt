//! What a daemon did, by its replies to `status` and `trace`, with the names of its image.
//!
//! `ifs_session` reads their lines, as it writes them. What is printed of them is tested, not proved.
#![tactic(auto)]

mod comparing;
mod explaining;
mod flaps;
mod naming;
mod steps;

pub use comparing::lacks;
pub use explaining::explain;
pub use steps::Times;
