//! The schedule of external tests: each test is off, idle or running, and an idle test has a due moment.
//!
//! A schedule has a present moment and one sequence of run numbers for all tests. A tick starts each due
//! test, by index, with the next number. The end of a run counts only under the number of that run.
//! Moments and run numbers end at 2^64 - 1. The idle tests are in the order of their due moments, so a tick
//! looks at the due ones and at one more. Each call is exactly its definition, and none allocates.
#![tactic(auto)]

mod order;
mod schedule;
mod start;
mod timer;
mod timers;
mod turns;

pub use schedule::{Backwards, Schedule, Stale};
pub use start::{MAX_TESTS, Start, Started};
