//! Runners, which start programs for a host, wait for them, and run texts.

ghost use Rattle.std.specs.Prelude.{◌≡◌, ℕ, Option, None};
ghost use Rattle.ifs_host.specs.Runners.{RunnerLog, RunnerTells, spawned_once, asked_once, reaped_once, ran_once};
ghost use Rattle.ifs_host.specs.Runners.{test_value, reached_limit};

use ifs_core::{Core, Lists, Outcome, Step};
use thiserror::Error;

/// A program could not be started, or a text could not be run.
#[derive(Clone, Copy, Debug, PartialEq, Eq, Error)]
#[error("the runner failed")]
pub struct RunFault;

/// The status of a program that a runner started.
#[derive(Clone, Copy, PartialEq, Eq)]
pub enum ProgramStatus {
    /// It still runs.
    Runs,
    /// It has ended with success.
    Succeeded,
    /// It has ended without success.
    Failed,
    /// It has reached its limit, and its end is not known yet.
    Late,
    /// It cannot be waited for.
    Lost,
}

impl ProgramStatus {
    /// The value of a test from the status of its program. It is `None` while the program runs within its limit, and true only
    /// after success.
    pub fn value(self) -> Option<bool>
        ensures { result ≡ test_value self }
    {
        match self {
            ProgramStatus::Runs => None,
            ProgramStatus::Succeeded => Some(true),
            ProgramStatus::Failed => Some(false),
            ProgramStatus::Late => Some(false),
            ProgramStatus::Lost => Some(false),
        }
    }

    /// Whether the program has reached its limit, and its end is not known yet.
    pub fn reached_limit(self) -> bool
        ensures { result ≡ reached_limit self }
    {
        matches!(self, ProgramStatus::Late)
    }
}

/// One call of a runner, with its result.
#[derive(Drop)]
pub enum RunnerEvent<T> {
    /// The start of the program of a text, with the program's number if it was started.
    Spawned(T, Option<u64>),
    /// A look at the program of this number, with its status.
    Asked(u64, ProgramStatus),
    /// A look at the program of this number after its limit, and whether it is gone.
    Reaped(u64, bool),
    /// The run of a text to its end or to its limit, with its exit status if it could be run.
    Ran(T, Option<i32>),
}

/// Starts programs, reports their status, and runs texts.
///
/// A runner may report its log of calls, and may stop reporting it.
pub trait Runner {
    /// A program that was started.
    type Child: Drop;

    // The calls so far, in order, if they are known.
    ghost told: { Self → Option RunnerLog } = { λ _. None };

    // The number of a program.
    ghost number: { Self.Child → ℕ } = { λ _. 0 };

    /// Starts the program of a text.
    fn spawn(&mut self, text: &str) -> Result<Self::Child, RunFault>
        ensures log { RunnerTells (spawned_once number text.now result) (told self.old) (told self.new) };

    /// Is shown a step of the core as soon as it is made, as a host is. It is no call of the log.
    fn observe(&mut self, _core: &Core<'_>, _step: Step, _outcome: Outcome, _lists: &Lists)
        ensures log { told self.new ≡ told self.old }
    {}

    /// Returns the status of a program. A program that has reached its limit is killed, and is late from then on. Its status is not
    /// asked for again.
    fn try_wait(&mut self, child: &mut Self::Child) -> ProgramStatus
        ensures log { RunnerTells (asked_once (number child.old) result) (told self.old) (told self.new) }
        ensures number { number child.new ≡ number child.old };

    /// Returns whether a late program is gone: it has ended, or it cannot be waited for.
    fn reap(&mut self, child: &mut Self::Child) -> bool
        ensures log { RunnerTells (reaped_once (number child.old) result) (told self.old) (told self.new) }
        ensures number { number child.new ≡ number child.old };

    /// The descriptor of a pipe that is closed once a program and all that it started have ended, if there is one. It may be closed
    /// earlier.
    fn closing_pipe(&self, child: &Self::Child) -> Option<i32>;

    /// Runs a text to its end or to its limit, and returns its exit status.
    fn run(&mut self, text: &str) -> Result<i32, RunFault>
        ensures log { RunnerTells (ran_once text.now result) (told self.old) (told self.new) };
}
