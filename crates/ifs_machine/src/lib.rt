//! The machine runs a handler of a verified image, row by row of the machine's table. It has no trap checks:
//! verified code is proved never to trap. The run is that of the table, and its cost is exact.
#![tactic(auto)]

mod decoding;
mod effects;
pub mod laws;
mod machine;
mod pile;
mod rows;
mod running;
mod value;

pub use effects::{Effects, Facts};
pub use running::run_handler;
