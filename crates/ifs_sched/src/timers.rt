//! The timers of all tests, and the entries of the idle ones in order.

ghost use Rattle.std.specs.Prelude.{◌≡◌, ◌<◌, ◌≤◌, ◌^◌, ◌==◌, length, map, if◌then◌else◌, slice_get};
ghost use Rattle.ifs_sched.specs.Schedule.{entered_test, map_by_index, run_as_number, runs_under};
ghost use Rattle.ifs_sched.specs.Timer.{ended, inactive};
ghost use Rattle.ifs_sched.specs.Idle.{AreIdle, IsNextDue};
ghost use Rattle.ifs_sched.specs.inner.Due.{IsTicked};

use crate::order::{due_count, put, put_all, set_of, settle};
use crate::start::{MAX_TESTS, Start};
use crate::timer::{Status, Timer};
use crate::turns::{enter_all, start_due};
use arrayvec::ArrayVec;
use ifs_base::TestId;
use std::marker::Model;

/// The timers of up to 64 tests, by index, and the entries of the idle ones.
#[derive(Debug)]
pub struct Timers {
    tests: ArrayVec<Timer, MAX_TESTS>,
    idle: ArrayVec<(u64, TestId), MAX_TESTS>,
}

impl Drop for Timers {
    fn drop(self) {
        let Timers {
            tests: _tests,
            idle: _idle,
        } = self;
    }
}

impl Model for Timers {
    ghost use Rattle.std.specs.Prelude.{◌≤◌, List, length};
    ghost use Rattle.ifs_sched.specs.declared.timer.Timer.{Timer};
    ghost use Rattle.ifs_sched.specs.Idle.{AreIdle};

    ghost Value = { List Timer };

    ghost view = { λ a. a.tests.items };

    ghost invariant = { λ a. (length a.tests.items ≤ 64) × AreIdle a.tests.items a.idle.items };
}

impl Timers {
    /// The timers of tests with these periods, in seconds, all of them off.
    pub fn new(periods: &[u32]) -> Timers
        requires { length periods.now ≤ MAX_TESTS }
        ensures { result ≡ map inactive periods.now }
    {
        let mut tests = ArrayVec::new();
        for period in periods {
            tests.push(Timer {
                period: *period,
                status: Status::Off,
            });
        }
        Timers {
            tests,
            idle: ArrayVec::new(),
        }
    }

    /// Makes the entry of a state at a moment, by the always set and the state's own set.
    pub fn enter(&mut self, always: u64, own: u64, now: u64)
        ensures { self.new ≡ map_by_index (entered_test always own now) self.old }
    {
        enter_all(self.tests.as_mut_slice(), always, own, now);
        put_all(self.tests.as_slice(), &mut self.idle);
    }

    /// Starts each due test, by index, with the next run number while there is one. Puts the starts into the
    /// list, and returns whether a test was left because no number was.
    pub fn start(
        &mut self,
        now: u64,
        next_run: &mut Option<u64>,
        starts: &mut ArrayVec<Start, MAX_TESTS>,
    ) -> bool
        requires number { run_as_number next_run.old ≤ 2 ^ 64 }
        ensures { IsTicked now (run_as_number next_run.old) self.old self.new starts.new.items result (run_as_number next_run.new) }
    {
        let tests = self.tests.as_mut_slice();
        let count = due_count(self.idle.as_slice(), now);
        let due = set_of(&self.idle.as_slice()[..count]);
        let exhausted = start_due(tests, due, now, next_run, starts);
        settle(&mut self.idle, self.tests.as_slice(), count, exhausted);
        exhausted
    }

    /// Ends the run of a test if it runs under this number, and returns whether it did.
    pub fn finish(&mut self, test: TestId, run: u64) -> bool
        ensures value { result ≡ runs_under run (slice_get self.old test.0) }
        ensures after { self.new
            ≡ map_by_index (λ t timer. if t == test.0 then ended run timer else timer) self.old }
    {
        let Some(timer) = self.tests.get_mut(usize::from(test.0)) else {
            return false;
        };
        let Some(due) = timer.finish(run) else {
            return false;
        };
        put(&mut self.idle, due, test);
        true
    }

    /// The timers, by index.
    pub fn as_slice(&self) -> &[Timer]
        ensures value { result.now ≡ self.now }
        ensures fits { length result.now ≤ MAX_TESTS }
    {
        self.tests.as_slice()
    }

    /// The entries of the idle tests, by due moment and then by index.
    pub fn idle(&self) -> &[(u64, TestId)]
        ensures { AreIdle self.now result.now }
    {
        self.idle.as_slice()
    }

    /// The least due moment of the idle tests.
    pub fn next_due(&self) -> Option<u64>
        ensures { IsNextDue self.now result }
    {
        match self.idle.as_slice() {
            [(due, _), ..] => Some(*due),
            [] => None,
        }
    }
}
