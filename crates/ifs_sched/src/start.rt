//! The results of a tick.

ghost use Rattle.std.specs.Prelude.{◌≡◌};

use arrayvec::ArrayVec;
use ifs_base::{TestId, limits};

/// The greatest number of tests of a schedule, and of a policy.
pub const MAX_TESTS: usize = limits::TESTS as usize;

/// A test that starts, and the number of its run.
#[derive(Clone, Copy, Debug, PartialEq, Eq)]
pub struct Start {
    /// The test.
    pub test: TestId,
    /// The run's number, from 1 to 2^64 - 1.
    pub run: u64,
}

/// The item of an unused place of a list.
impl Default for Start {
    ghost is_default = { λ start. start ≡ record { test = record { 0 = 0 }; run = 0 } };

    fn default() -> Self {
        Start {
            test: TestId(0),
            run: 0,
        }
    }
}

/// The starts of a tick.
#[derive(Debug, Drop)]
pub struct Started {
    /// The tests that start, by index.
    pub starts: ArrayVec<Start, MAX_TESTS>,
    /// Whether a due test was left because no run number was.
    pub exhausted: bool,
}
