//! The schedule: entries of states, ticks, and ends of runs.

ghost use Rattle.std.specs.Prelude.{◌≡◌, ◌<◌, ◌≤◌, ◌↔◌, ◌+◌, IsTrue, IsOk, IsErr, IfOk, OnOk, OnErr, All, length, map};
ghost use Rattle.std.specs.List.{range_with_len};
ghost use Rattle.ifs_sched.specs.Schedule.{all_off, entered, finished, is_exhausted, is_running};
ghost use Rattle.ifs_sched.specs.Schedule.{run_as_number, run_from, running_count, starts as starts_at, ticked};
ghost use Rattle.ifs_sched.specs.Idle.{AreIdle, IsNextDue};

use crate::start::{MAX_TESTS, Start, Started};
use crate::timers::Timers;
use arrayvec::ArrayVec;
use ifs_base::TestId;
use std::marker::Model;
use thiserror::Error;

/// The moment of a tick is before the present moment.
#[derive(Clone, Copy, Debug, PartialEq, Eq, Error)]
#[error("the moment is before the present one")]
pub struct Backwards;

/// The test does not run under that number, or is not in the schedule.
#[derive(Clone, Copy, Debug, PartialEq, Eq, Error)]
#[error("nothing runs under that number")]
pub struct Stale;

/// The moments and runs of up to 64 tests.
#[derive(Debug)]
pub struct Schedule {
    present: u64,
    next_run: Option<u64>,
    timers: Timers,
}

impl Drop for Schedule {
    fn drop(self) {
        let Schedule {
            present: _present,
            next_run: _next_run,
            timers: _timers,
        } = self;
    }
}

impl Model for Schedule {
    ghost use Rattle.std.specs.Prelude.{◌≤◌, ◌^◌};
    ghost use Rattle.ifs_sched.specs.Schedule.{Timetable, run_as_number};

    ghost Value = { Timetable };

    ghost view = { λ a. record { present = a.present; next_run = run_as_number a.next_run; tests = a.timers } };

    ghost invariant = { λ a. (1 ≤ run_as_number a.next_run) × (run_as_number a.next_run ≤ 2 ^ 64) };
}

/// The first run number; `None` for 0, if none is left.
fn numbered_from(first_run: u64) -> Option<u64>
    ensures { run_as_number result ≡ run_from first_run }
{
    if first_run == 0 {
        None
    } else {
        Some(first_run)
    }
}

impl Schedule {
    /// A schedule at moment 0 of tests with these periods, in seconds, all of them off. The first start
    /// gets the number `first_run`. If it is 0, no number is left and nothing starts.
    #[tactic(auto, unfolding(crate::specs::Schedule::all_off))]
    pub fn new(periods: ArrayVec<u32, MAX_TESTS>, first_run: u64) -> Schedule
        ensures value { result ≡ all_off periods.items first_run }
        ensures same_number { length result.tests ≡ length periods.items }
    {
        Schedule {
            present: 0,
            next_run: numbered_from(first_run),
            timers: Timers::new(periods.as_slice()),
        }
    }

    /// Enters a state at a moment, by the always set and the state's own set of tests. Bit t of a mask is
    /// test t; bits of no test are ignored. An always test that is off becomes due, and any other always
    /// test stays as it is. Each other test of the state becomes due, and its run is forgotten. All other
    /// tests are off.
    #[tactic(auto, using(crate::proofs::ByIndex::as_many_by_index), unfolding(crate::specs::Schedule::entered))]
    pub fn enter(&mut self, always: u64, tests: u64, now: u64)
        ensures after { self.new ≡ entered always tests now self.old }
        ensures same_number { length self.new.tests ≡ length self.old.tests }
    {
        self.timers.enter(always, tests, now);
    }

    /// Makes a moment the present one, and starts each idle test whose due moment has come. Such a test is
    /// due again a period later. `Backwards` if the moment is before the present one; nothing changes then.
    pub fn tick(&mut self, now: u64) -> Result<Started, Backwards>
        ensures backwards { IsErr result ↔ (now < self.old.present) }
        ensures ok { OnOk result (self.new ≡ ticked now self.old) }
        ensures starts { IfOk result (λ started. started.starts.items ≡ starts_at now self.old) }
        ensures exhausted { IfOk result (λ started. started.exhausted ≡ is_exhausted now self.old) }
        // The numbers are in one sequence, over all ticks.
        ensures numbered { IfOk result (λ started. map (λ start. start.run) started.starts.items
            ≡ range_with_len self.old.next_run (length started.starts.items)) }
        ensures next_run { IfOk result
            (λ started. self.new.next_run ≡ self.old.next_run + length started.starts.items) }
        ensures in_schedule { IfOk result
            (λ started. All (λ start. start.test.0 < length self.old.tests) started.starts.items) }
        ensures same_number { length self.new.tests ≡ length self.old.tests }
        ensures err { OnErr result (self.new ≡ self.old) }
    {
        let mut starts = ArrayVec::new();
        let exhausted = self.tick_into(now, &mut starts)?;
        Ok(Started { starts, exhausted })
    }

    /// Makes the same tick, and puts the starts into a borrowed list, which loses its old items. Returns
    /// whether a due test was left because no run number was.
    ///
    /// `Backwards` if the moment is before the present one; neither the schedule nor the list changes then.
    #[tactic(auto, using(crate::proofs::ByIndex::as_many_by_index, crate::proofs::Starts::starts_within), unfolding(crate::specs::Schedule::ticked, crate::specs::Schedule::starts, crate::specs::Schedule::is_exhausted))]
    pub fn tick_into(
        &mut self,
        now: u64,
        starts: &mut ArrayVec<Start, MAX_TESTS>,
    ) -> Result<bool, Backwards>
        ensures backwards { IsErr result ↔ (now < self.old.present) }
        ensures ok { OnOk result (self.new ≡ ticked now self.old) }
        ensures starts { OnOk result (starts.new.items ≡ starts_at now self.old) }
        ensures exhausted { IfOk result (λ exhausted. exhausted ≡ is_exhausted now self.old) }
        // The numbers are in one sequence, over all ticks.
        ensures numbered { OnOk result (map (λ start. start.run) starts.new.items
            ≡ range_with_len self.old.next_run (length starts.new.items)) }
        ensures next_run { OnOk result
            (self.new.next_run ≡ self.old.next_run + length starts.new.items) }
        ensures in_schedule { OnOk result
            (All (λ start. start.test.0 < length self.old.tests) starts.new.items) }
        ensures same_number { length self.new.tests ≡ length self.old.tests }
        ensures err { OnErr result (self.new ≡ self.old) }
        ensures err_starts { OnErr result (starts.new ≡ starts.old) }
    {
        if now < self.present {
            return Err(Backwards);
        }
        self.present = now;
        Ok(self.timers.start(now, &mut self.next_run, starts))
    }

    /// Ends a run: the test is idle, with the due moment that it has, which may be before the present moment.
    /// `Stale` if there is no such test or it does not run under that number; nothing changes then.
    #[tactic(auto, using(crate::proofs::ByIndex::as_many_by_index), unfolding(crate::specs::Schedule::is_running, crate::specs::Schedule::finished))]
    pub fn finish(&mut self, test: TestId, run: u64) -> Result<(), Stale>
        ensures ok { IsOk result ↔ IsTrue (is_running test.0 run self.old) }
        ensures after { self.new ≡ finished test.0 run self.old }
        ensures same_number { length self.new.tests ≡ length self.old.tests }
        ensures err { OnErr result (self.new ≡ self.old) }
    {
        if !self.timers.finish(test, run) {
            return Err(Stale);
        }
        Ok(())
    }

    /// The present moment: that of the last tick, 0 before the first one.
    pub fn now(&self) -> u64
        ensures { result ≡ self.now.present }
    {
        self.present
    }

    /// The number of the next run, with which a new schedule can go on; 0 if none is left.
    pub fn next_run(&self) -> u64
        ensures { run_from result ≡ self.now.next_run }
    {
        self.next_run.unwrap_or(0)
    }

    /// The number of running tests.
    #[tactic(auto, unfolding(crate::specs::Schedule::running_count))]
    pub fn running(&self) -> u16
        ensures { result ≡ running_count self.now }
    {
        self.timers
            .as_slice()
            .iter()
            .filter(|timer| timer.is_running())
            .count() as u16
    }

    /// Whether there is such a test, and it runs under that number.
    #[tactic(auto, unfolding(crate::specs::Schedule::is_running))]
    pub fn is_running(&self, test: TestId, run: u64) -> bool
        ensures { result ≡ is_running test.0 run self.now }
    {
        self.timers
            .as_slice()
            .get(usize::from(test.0))
            .is_some_and(|timer| timer.runs_under(run))
    }

    /// The idle tests with their due moments, each once, by moment and then by index.
    pub fn idle(&self) -> &[(u64, TestId)]
        ensures { AreIdle self.now.tests result.now }
    {
        self.timers.idle()
    }

    /// The least due moment of the idle tests; `None` if no test is idle. It may be before the present moment, as
    /// after a late `finish`. The next tick at or after it starts its test, if a run number is left.
    pub fn next_due(&self) -> Option<u64>
        ensures { IsNextDue self.now.tests result }
    {
        self.timers.next_due()
    }
}
