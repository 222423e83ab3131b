//! A host over a runner. Tests are programs that the runner starts, and commands are texts that it runs.

ghost use Rattle.std.specs.Prelude.{◌≡◌, ◌<◌, ◌↔◌, [], ◌∷◌, None, IfOk, IsTrue, length};
ghost use Rattle.ifs_session.specs.Hosts.{Adds, ran, launched, polled, RunCounts};
ghost use Rattle.ifs_host.specs.Children.{none_waits, places_taken, runs_for};
ghost use Rattle.ifs_host.specs.RunnerHosts.{FindsPlace, StartsTest, Polls, RunsOnce};

use crate::children::Children;
use crate::runner::{RunFault, Runner};
use crate::watching::Watched;
use ifs_base::TestId;
use ifs_core::{Core, Lists, Outcome, Step};
use ifs_sched::Start;
use ifs_session::{Host, HostFault};
use std::alloc::{AllocError, Global};
use std::marker::Model;

/// Runs at most 256 tests at once. If there is no place for a test, or its program cannot be started, it ends with false. A test
/// that reaches its limit ends with false too, and its program holds its place until it is gone.
pub struct RunnerHost<Q: Runner> {
    pub(crate) runner: Q,
    children: Children<Q>,
}

impl<Q: Runner + Drop> Drop for RunnerHost<Q> {
    fn drop(self) {
        let RunnerHost {
            runner: _runner,
            children: _children,
        } = self;
    }
}

impl<Q: Runner> Model for RunnerHost<Q> {
    ghost use Rattle.ifs_host.specs.RunnerHosts.{HostState};

    ghost Value = { HostState };

    ghost view = { λ h. record { waiting = h.children; told = Q.told h.runner } };
}

impl<Q: Runner> RunnerHost<Q> {
    /// A host over a runner, without tests.
    pub fn over(alloc: Global, runner: Q) -> Result<Self, AllocError>
    where
        Q: Drop,
        ensures { IfOk result (λ host. host ≡ record { waiting = none_waits; told = Q.told runner }) }
    {
        Ok(RunnerHost {
            runner,
            children: Children::new(alloc)?,
        })
    }

    /// Whether a program runs for this test, within its limit.
    pub fn is_running(&self, test: TestId) -> bool
        ensures { result ≡ runs_for test self.now.waiting.running }
    {
        self.children.is_running(test)
    }

    /// Whether a test runs within its limit.
    pub fn has_running(&self) -> bool
        ensures { IsTrue result ↔ (0 < length self.now.waiting.running) }
    {
        self.children.has_running()
    }

    /// Whether a test that could not be started waits for its end to be reported.
    pub fn has_failed(&self) -> bool
        ensures { IsTrue result ↔ (0 < length self.now.waiting.failed) }
    {
        self.children.has_failed()
    }

    /// Adds the pipes of the tests that run within their limits to those that are watched, while there is room.
    pub fn watch(&self, watched: &mut Watched) {
        self.children.watch(&self.runner, watched);
    }

    /// Starts the program of a test.
    fn spawn(&mut self, start: Start, text: &str)
        requires { places_taken self.old.waiting < 256 }
        ensures { FindsPlace start text.now self.old self.new }
    {
        match self.runner.spawn(text) {
            Ok(child) => self.children.run(start, child),
            Err(RunFault) => self.children.fail(start),
        }
    }
}

impl<Q: Runner> Host for RunnerHost<Q> {
    fn start(&mut self, test: TestId, run: u64, text: &str)
        ensures log { Adds (launched (record { test = test; run = run; text = text.now } ∷ [])) None None }
        ensures begins { StartsTest (record { test = test; run = run }) text.now self.old self.new }
    {
        let start = Start { test, run };
        if self.children.has_place() {
            self.spawn(start, text);
        } else {
            self.children.fail(start);
        }
    }

    fn observe(&mut self, core: &Core<'_>, step: Step, outcome: Outcome, lists: &Lists) {
        self.runner.observe(core, step, outcome, lists);
    }

    fn poll(&mut self) -> Option<(TestId, u64, bool)>
        ensures log { Adds (polled result) None None }
        ensures ends { Polls result self.old self.new }
    {
        let (start, value) = self.children.remove_ended(&mut self.runner)?;
        Some((start.test, start.run, value))
    }

    fn run(&mut self, text: &str) -> Result<i32, HostFault>
        ensures log { Adds (ran (text.now ∷ [])) None None }
        ensures counts { RunCounts result None None }
        ensures runs { RunsOnce text.now result self.old self.new }
    {
        match self.runner.run(text) {
            Ok(status) => Ok(status),
            Err(RunFault) => Err(HostFault),
        }
    }
}
