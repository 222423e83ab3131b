//! Entries of states and ticks, test by test.

ghost use Rattle.std.specs.Prelude.{◌≡◌, ◌<◌, ◌≤◌, ◌^◌, length};
ghost use Rattle.ifs_sched.specs.inner.Due.{IsDueSet, IsTicked};
ghost use Rattle.ifs_sched.specs.Schedule.{entered_test, has_test as is_in_mask, map_by_index, run_as_number};

use crate::start::{MAX_TESTS, Start};
use crate::timer::Timer;
use arrayvec::ArrayVec;
use ifs_base::TestId;

/// Makes the entry of a state at a moment, for each test, by the always set and the state's own set.
pub fn enter_all(tests: &mut [Timer], always: u64, own: u64, now: u64)
    requires { length tests.old ≤ MAX_TESTS }
    ensures { tests.new ≡ map_by_index (entered_test always own now) tests.old }
{
    for (index, timer) in tests.iter_mut().enumerate() {
        timer.enter(has_test(always, index), has_test(own, index), now);
    }
}

/// Starts each test of the mask `due`, by index, with the next run number while there is one. Puts the starts
/// into the list, and returns whether a test was left because no number was.
pub fn start_due(
    tests: &mut [Timer],
    due: u64,
    now: u64,
    next_run: &mut Option<u64>,
    starts: &mut ArrayVec<Start, MAX_TESTS>,
) -> bool
    requires room { length tests.old ≤ MAX_TESTS }
    requires due { IsDueSet now tests.old due }
    requires number { run_as_number next_run.old ≤ 2 ^ 64 }
    ensures { IsTicked now (run_as_number next_run.old) tests.old tests.new starts.new.items result (run_as_number next_run.new) }
{
    starts.clear();
    let mut exhausted = false;
    let mut left = due;
    while left != 0 {
        let index = left.trailing_zeros() as usize;
        left &= !(1 << index);
        match *next_run {
            Some(run) => {
                tests[index].start(now, run);
                starts.push(Start {
                    test: TestId(index as u16),
                    run,
                });
                *next_run = run.checked_add(1);
            }
            None => exhausted = true,
        }
    }
    exhausted
}

/// Whether a mask has the bit of a test.
fn has_test(mask: u64, index: usize) -> bool
    requires { index < MAX_TESTS }
    ensures { result ≡ is_in_mask mask index }
{
    mask >> index & 1 == 1
}
