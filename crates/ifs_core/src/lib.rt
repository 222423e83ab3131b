//! The core: steps in, replies out.
//!
//! A core has the known facts of links and tests, the current state, whether an evaluation is owed, the
//! schedule of tests, the queue of commands and a trace. A step is a change of a link, the end of a test's
//! run, a tick, or the taking of a command. An evaluation runs the always body and then the current state's
//! body. The last wish of both leads to another state, and its init then runs in the same event.
//!
//! `carry` ends a core, and `open_with` makes the next one with its link states and run numbers.
//!
//! The opening, each reply and each next state are exactly those of the run, whose handlers run by the machine's
//! table. `laws::headline` is the law of every such run.
#![tactic(auto)]

mod carried;
mod event;
mod gateway;
pub mod laws;
mod position;
mod readers;
mod step;
mod stepping;

pub use carried::{Carried, CarryCause, CarryFault};
pub use gateway::{Core, OpenFault, TRACE};
pub use step::{Answer, Lists, Outcome, Record, Reply, Step};
