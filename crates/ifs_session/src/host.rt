//! Hosts, which run commands and tests.

ghost use Rattle.std.specs.Prelude.{◌≡◌, [], ◌∷◌, ℕ, Option, None};
ghost use Rattle.ifs_session.specs.Hosts.{HostLog, Adds, ran, launched, polled, RunCounts};

use ifs_base::TestId;
use ifs_core::{Core, Lists, Outcome, Step};
use thiserror::Error;

/// A command could not be run.
#[derive(Clone, Copy, Debug, PartialEq, Eq, Error)]
#[error("the host failed")]
pub struct HostFault;

/// A test for a host to start.
#[derive(Clone, Copy, Debug, PartialEq, Eq)]
pub struct Launch<T> {
    /// The test.
    pub test: TestId,
    /// The number of its run.
    pub run: u64,
    /// The text of its command.
    pub text: T,
}

/// One event at a host.
#[derive(Debug, Drop)]
pub enum HostEvent<T> {
    /// A poll, with its result.
    Polled(Option<(TestId, u64, bool)>),
    /// The start of a test.
    Started(Launch<T>),
    /// The run of a command, by its text.
    Ran(T),
}

/// Runs commands, starts tests and reports how they ended.
///
/// A host may report its log and its number of failures. It may stop reporting the log. It counts failures up to 2^64 - 1.
pub trait Host {
    // The events so far, in order, if they are known.
    ghost told: { Self → Option HostLog } = { λ _. None };

    // The number of commands that could not be run, if it is known.
    ghost faults: { Self → Option ℕ } = { λ _. None };

    /// Starts run number `run` of a test, whose command is `text`. If it cannot be started, `poll` later reports that it
    /// found false.
    fn start(&mut self, test: TestId, run: u64, text: &str)
        ensures log { Adds (launched (record { test = test; run = run; text = text.now } ∷ [])) (told self.old) (told self.new) }
        ensures counts { faults self.new ≡ faults self.old };

    /// Is shown a step of the core as soon as it is made, with its outcome and its lists: before the step's tests start and its
    /// commands run. The taking of a command is not shown: `run` has its text. It is no event of the log.
    fn observe(&mut self, _core: &Core<'_>, _step: Step, _outcome: Outcome, _lists: &Lists)
        ensures log { told self.new ≡ told self.old }
        ensures counts { faults self.new ≡ faults self.old }
    {}

    /// Returns a run of a test that has ended, with its value, once for each run. Returns `None` if no further run has ended.
    fn poll(&mut self) -> Option<(TestId, u64, bool)>
        ensures log { Adds (polled result) (told self.old) (told self.new) }
        ensures counts { faults self.new ≡ faults self.old };

    /// Runs the text of a command to its end, and returns its exit status. It fails if the text cannot be run.
    fn run(&mut self, text: &str) -> Result<i32, HostFault>
        ensures log { Adds (ran (text.now ∷ [])) (told self.old) (told self.new) }
        ensures counts { RunCounts result (faults self.old) (faults self.new) };
}
