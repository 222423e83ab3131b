//! Schedules as lists of calls with their expected answers.

use crate::checks::{holds, holds_in, same, same_in};
use arrayvec::ArrayVec;
use ifs_base::TestId;
use ifs_sched::{Backwards, Schedule, Stale, Start};
use std::fmt::{self, Display, Formatter, Write};
use std::process::Abort;

/// The last moment, and the last run number.
const LAST: u64 = 18446744073709551615;

/// A call, and its answer.
#[derive(Clone, Copy)]
enum Call {
    /// A new schedule: what the calls on it are about, the periods of its tests, and the number of its first run.
    New(&'static str, &'static [u32], u64),
    /// An entry with an always set, a state's set and a moment.
    Enter(u64, u64, u64),
    /// A tick, the tests that it starts with their run numbers, and whether a due one was left.
    Tick(u64, &'static [(u16, u64)], bool),
    /// A tick that is refused.
    Backwards(u64),
    /// The end of a run.
    Finish(u16, u64),
    /// The end of a run that is refused.
    Stale(u16, u64),
    /// The present moment, and how many tests run.
    Reads(u64, u16),
    /// The number of the next run.
    NextRun(u64),
}

use Call::{Enter, Finish, New, NextRun, Reads, Tick};

/// A call, and the idle tests after it with their due moments, in order.
type Played = (Call, &'static [(u64, u16)]);

/// What the calls on a schedule are about, and which of them is made.
#[derive(Clone, Copy)]
struct Place {
    about: &'static str,
    call: u32,
}

impl Place {
    /// The place of a call that comes next.
    fn next(self, call: Call) -> Place {
        match call {
            New(about, _, _) => Place { about, call: 0 },
            _ => Place {
                about: self.about,
                call: self.call.saturating_add(1),
            },
        }
    }
}

impl Display for Place {
    fn fmt<W: Write>(&self, f: &mut Formatter<W>) -> fmt::Result {
        write!(f, "{}, call {}", self.about, self.call)
    }
}

/// Makes the calls, one after the other. The first one makes a schedule.
fn play(rt: &impl Abort, calls: &[Played]) {
    let mut place = Place { about: "", call: 0 };
    let mut schedule = Schedule::new(ArrayVec::new(), 1);
    for (call, idle) in calls {
        place = place.next(*call);
        make(rt, place, &mut schedule, *call);
        assert_idle(rt, place, &schedule, idle);
    }
}

fn make(rt: &impl Abort, place: Place, schedule: &mut Schedule, call: Call) {
    match call {
        New(_, periods, first_run) => *schedule = fresh(rt, periods, first_run),
        Enter(always, tests, now) => schedule.enter(always, tests, now),
        Tick(now, starts, exhausted) => tick(rt, place, schedule, (now, starts, exhausted)),
        Call::Backwards(now) => {
            holds_in(rt, place, matches!(schedule.tick(now), Err(Backwards)));
        }
        Finish(test, run) => finish(rt, place, schedule, (TestId(test), run), Ok(())),
        Call::Stale(test, run) => finish(rt, place, schedule, (TestId(test), run), Err(Stale)),
        Reads(now, running) => {
            same_in(rt, place, schedule.now(), now);
            same_in(rt, place, schedule.running(), running);
        }
        NextRun(run) => same_in(rt, place, schedule.next_run(), run),
    }
}

/// A schedule of tests with these periods.
fn fresh(rt: &impl Abort, periods: &[u32], first_run: u64) -> Schedule {
    let mut table = ArrayVec::new();
    holds(rt, table.try_extend_from_slice(periods).is_ok());
    Schedule::new(table, first_run)
}

/// Asserts that these are the idle tests, and that the next moment is the first one's.
fn assert_idle(rt: &impl Abort, place: Place, schedule: &Schedule, entries: &[(u64, u16)]) {
    let next_due = entries.first().map(|entry| entry.0);
    same_in(rt, place, schedule.next_due(), next_due);
    same_in(rt, place, schedule.idle().len(), entries.len());
    for ((due, test), (wanted_due, wanted_test)) in schedule.idle().iter().zip(entries) {
        same_in(rt, place, *due, *wanted_due);
        same_in(rt, place, *test, TestId(*wanted_test));
    }
}

/// Makes a tick, and asserts that it starts these tests.
fn tick(
    rt: &impl Abort,
    place: Place,
    schedule: &mut Schedule,
    (now, starts, exhausted): (u64, &[(u16, u64)], bool),
) {
    match schedule.tick(now) {
        Ok(started) => {
            same_in(rt, place, started.exhausted, exhausted);
            assert_starts(rt, place, started.starts.as_slice(), starts);
        }
        Err(fault) => panic!(rt; "{place}: {fault}"),
    }
    for (test, run) in starts {
        holds_in(rt, place, schedule.is_running(TestId(*test), *run));
    }
}

/// Ends a run, and asserts that it does not run afterwards.
fn finish(
    rt: &impl Abort,
    place: Place,
    schedule: &mut Schedule,
    (test, run): (TestId, u64),
    wanted: Result<(), Stale>,
) {
    same_in(rt, place, schedule.finish(test, run), wanted);
    holds_in(rt, place, !schedule.is_running(test, run));
}

fn assert_starts<N: Display + Copy>(
    rt: &impl Abort,
    place: N,
    starts: &[Start],
    wanted: &[(u16, u64)],
) {
    same_in(rt, place, starts.len(), wanted.len());
    for (start, (test, run)) in starts.iter().zip(wanted) {
        same_in(rt, place, start.test, TestId(*test));
        same_in(rt, place, start.run, *run);
    }
}

/// Entries, ticks and ends of runs.
const TURNS: [Played; 50] = [
    // The second tick at the last moment starts the test again: due moments stop there.
    (New("ticks", &[10], 1), &[]),
    (Enter(0, 1, 0), &[(0, 0)]),
    (Tick(5, &[(0, 1)], false), &[]),
    (Tick(5, &[], false), &[]),
    (Call::Backwards(4), &[]),
    (Reads(5, 1), &[]),
    (Finish(0, 1), &[(15, 0)]),
    (Tick(LAST, &[(0, 2)], false), &[]),
    (Finish(0, 2), &[(LAST, 0)]),
    (Tick(LAST, &[(0, 3)], false), &[]),
    (Reads(LAST, 1), &[]),
    (New("macros", &[10], 1), &[]),
    (Enter(0, 1, 0), &[(0, 0)]),
    (Tick(0, &[(0, 1)], false), &[]),
    (Finish(0, 1), &[(10, 0)]),
    (Tick(9, &[], false), &[(10, 0)]),
    (Tick(10, &[(0, 2)], false), &[]),
    (Finish(0, 2), &[(20, 0)]),
    (New("stale", &[5], 1), &[]),
    (Enter(0, 0, 0), &[]),
    (Enter(0, 1, 0), &[(0, 0)]),
    (Tick(7, &[(0, 1)], false), &[]),
    (Enter(0, 0, 7), &[]),
    (Enter(0, 1, 7), &[(7, 0)]),
    (Tick(8, &[(0, 2)], false), &[]),
    (Call::Stale(0, 1), &[]),
    (Finish(0, 2), &[(13, 0)]),
    (Enter(0, 0, 8), &[]),
    (Enter(0, 1, 8), &[(8, 0)]),
    (Tick(8, &[(0, 3)], false), &[]),
    (Call::Stale(1, 3), &[]),
    // Test 0 is of the always part, and test 1 of the state. The bits of other tests do not count.
    (New("entered again while running", &[5, 5], 1), &[]),
    (
        Enter(0xfffffffffffffffd, 0xfffffffffffffffe, 0),
        &[(0, 0), (0, 1)],
    ),
    (Tick(0, &[(0, 1), (1, 2)], false), &[]),
    (Reads(0, 2), &[]),
    (Enter(1, 2, 0), &[(0, 1)]),
    (Reads(0, 1), &[(0, 1)]),
    (Call::Stale(1, 2), &[(0, 1)]),
    (Tick(0, &[(1, 3)], false), &[]),
    (Finish(0, 1), &[(5, 0)]),
    (Finish(1, 3), &[(5, 0), (5, 1)]),
    (Tick(5, &[(0, 4), (1, 5)], false), &[]),
    // An entry leaves an idle test of the always part with its moment, among those that become due now.
    (New("entry among idle tests", &[4, 4, 9], 1), &[]),
    (Enter(2, 5, 0), &[(0, 0), (0, 1), (0, 2)]),
    (Tick(6, &[(0, 1), (1, 2), (2, 3)], false), &[]),
    (Finish(1, 2), &[(10, 1)]),
    (Finish(2, 3), &[(10, 1), (15, 2)]),
    (Tick(7, &[], false), &[(10, 1), (15, 2)]),
    (Enter(2, 5, 7), &[(7, 0), (7, 2), (10, 1)]),
    (Enter(2, 0, 7), &[(10, 1)]),
];

#[test]
fn turns(rt: HostRuntime) {
    play(&rt, &TURNS);
}

/// In which order tests are idle, and start.
const ORDERS: [Played; 32] = [
    // If two tests are due at one moment, the lower index comes first, whichever ended first.
    (New("held back", &[5, 5], 1), &[]),
    (Enter(0, 3, 0), &[(0, 0), (0, 1)]),
    (Tick(100, &[(0, 1), (1, 2)], false), &[]),
    (Finish(1, 2), &[(105, 1)]),
    (Finish(0, 1), &[(105, 0), (105, 1)]),
    (Call::Stale(7, 1), &[(105, 0), (105, 1)]),
    (New("three periods", &[5, 3, 4], 1), &[]),
    (Enter(0, 7, 0), &[(0, 0), (0, 1), (0, 2)]),
    (Tick(0, &[(0, 1), (1, 2), (2, 3)], false), &[]),
    (Finish(0, 1), &[(5, 0)]),
    (Finish(1, 2), &[(3, 1), (5, 0)]),
    (Finish(2, 3), &[(3, 1), (4, 2), (5, 0)]),
    (Tick(4, &[(1, 4), (2, 5)], false), &[(5, 0)]),
    // Tests that are due at one moment start by index, in whatever order they were put back. Tests that are due at several moments
    // start by index too.
    (New("starts by index", &[9, 9, 9, 2], 1), &[]),
    (Enter(0, 15, 0), &[(0, 0), (0, 1), (0, 2), (0, 3)]),
    (Tick(0, &[(0, 1), (1, 2), (2, 3), (3, 4)], false), &[]),
    (Finish(2, 3), &[(9, 2)]),
    (Finish(3, 4), &[(2, 3), (9, 2)]),
    (Finish(0, 1), &[(2, 3), (9, 0), (9, 2)]),
    (Finish(1, 2), &[(2, 3), (9, 0), (9, 1), (9, 2)]),
    (Tick(8, &[(3, 5)], false), &[(9, 0), (9, 1), (9, 2)]),
    (Finish(3, 5), &[(9, 0), (9, 1), (9, 2), (10, 3)]),
    (Tick(1000, &[(0, 6), (1, 7), (2, 8), (3, 9)], false), &[]),
    // A result puts a test back between two others, before them and after them.
    (New("put back in between", &[5, 7, 6, 4, 8], 1), &[]),
    (Enter(0, 31, 0), &[(0, 0), (0, 1), (0, 2), (0, 3), (0, 4)]),
    (
        Tick(0, &[(0, 1), (1, 2), (2, 3), (3, 4), (4, 5)], false),
        &[],
    ),
    (Finish(1, 2), &[(7, 1)]),
    (Finish(0, 1), &[(5, 0), (7, 1)]),
    (Finish(2, 3), &[(5, 0), (6, 2), (7, 1)]),
    (Finish(3, 4), &[(4, 3), (5, 0), (6, 2), (7, 1)]),
    (Finish(4, 5), &[(4, 3), (5, 0), (6, 2), (7, 1), (8, 4)]),
    (Tick(6, &[(0, 6), (2, 7), (3, 8)], false), &[(7, 1), (8, 4)]),
];

#[test]
fn orders(rt: HostRuntime) {
    play(&rt, &ORDERS);
}

/// The last moment, and the last run numbers.
const ENDS: [Played; 53] = [
    (New("the last run number", &[604800], LAST), &[]),
    (Enter(0, 1, 0), &[(0, 0)]),
    (Tick(0, &[(0, LAST)], false), &[]),
    (Finish(0, LAST), &[(604800, 0)]),
    (Tick(604799, &[], false), &[(604800, 0)]),
    (Tick(604800, &[], true), &[(604800, 0)]),
    (Reads(604800, 0), &[(604800, 0)]),
    // A test becomes due at the last moment, before another that is due there already.
    (New("due at the last moment", &[10, 604800], 1), &[]),
    (Enter(0, 3, 0), &[(0, 0), (0, 1)]),
    (Tick(LAST - 10, &[(0, 1), (1, 2)], false), &[]),
    (Finish(1, 2), &[(LAST, 1)]),
    (Finish(0, 1), &[(LAST, 0), (LAST, 1)]),
    (Tick(LAST - 1, &[], false), &[(LAST, 0), (LAST, 1)]),
    (Tick(LAST, &[(0, 3), (1, 4)], false), &[]),
    (Finish(0, 3), &[(LAST, 0)]),
    // If there is no number left, the due tests of higher indexes stay in order.
    (New("left without a number", &[3, 2, 1], LAST - 3), &[]),
    (Enter(0, 7, 0), &[(0, 0), (0, 1), (0, 2)]),
    (
        Tick(0, &[(0, LAST - 3), (1, LAST - 2), (2, LAST - 1)], false),
        &[],
    ),
    (Finish(0, LAST - 3), &[(3, 0)]),
    (Finish(1, LAST - 2), &[(2, 1), (3, 0)]),
    (Finish(2, LAST - 1), &[(1, 2), (2, 1), (3, 0)]),
    (Tick(3, &[(0, LAST)], true), &[(1, 2), (2, 1)]),
    (Finish(0, LAST), &[(1, 2), (2, 1), (6, 0)]),
    (Tick(6, &[], true), &[(1, 2), (2, 1), (6, 0)]),
    // A schedule continues the run numbers of another.
    (New("numbers go on", &[10, 20], 7), &[]),
    (NextRun(7), &[]),
    (Enter(1, 2, 0), &[(0, 0), (0, 1)]),
    (NextRun(7), &[(0, 0), (0, 1)]),
    (Tick(0, &[(0, 7), (1, 8)], false), &[]),
    (NextRun(9), &[]),
    (Call::Stale(0, 6), &[]),
    (Finish(0, 7), &[(10, 0)]),
    (Tick(10, &[(0, 9)], false), &[]),
    (NextRun(10), &[]),
    // The last number is given out, and none is left.
    (New("the last number goes on", &[10, 20], LAST), &[]),
    (NextRun(LAST), &[]),
    (Enter(3, 0, 0), &[(0, 0), (0, 1)]),
    (Tick(0, &[(0, LAST)], true), &[(0, 1)]),
    (NextRun(0), &[(0, 1)]),
    (Finish(0, LAST), &[(0, 1), (10, 0)]),
    (Tick(10, &[], true), &[(0, 1), (10, 0)]),
    (NextRun(0), &[(0, 1), (10, 0)]),
    // A schedule without a number starts nothing, and reports that if a test is due.
    (New("no number is left", &[10, 20], 0), &[]),
    (NextRun(0), &[]),
    (Tick(0, &[], false), &[]),
    (Enter(1, 2, 5), &[(5, 0), (5, 1)]),
    (Tick(4, &[], false), &[(5, 0), (5, 1)]),
    (Tick(5, &[], true), &[(5, 0), (5, 1)]),
    (Reads(5, 0), &[(5, 0), (5, 1)]),
    (Call::Stale(0, 0), &[(5, 0), (5, 1)]),
    (NextRun(0), &[(5, 0), (5, 1)]),
    (Enter(0, 0, 6), &[]),
    (Tick(9, &[], false), &[]),
];

#[test]
fn ends(rt: HostRuntime) {
    play(&rt, &ENDS);
}

/// Two ticks fill the same list. It then has the starts of the later one alone.
#[test]
fn starts_in_a_lent_list(rt: HostRuntime) {
    let mut periods = ArrayVec::new();
    periods.push(10);
    let mut schedule = Schedule::new(periods, 1);
    schedule.enter(0, 1, 0);
    let mut starts = ArrayVec::new();
    same(&rt, schedule.tick_into(5, &mut starts), Ok(false));
    assert_starts(&rt, "a start", starts.as_slice(), &[(0, 1)]);
    same(&rt, schedule.tick_into(4, &mut starts), Err(Backwards));
    assert_starts(&rt, "backwards", starts.as_slice(), &[(0, 1)]);
    same(&rt, schedule.tick_into(6, &mut starts), Ok(false));
    assert_starts(&rt, "no start", starts.as_slice(), &[]);
}

/// All 64 tests due at once start by index.
#[test]
fn all_due_at_once(rt: HostRuntime) {
    let mut periods = ArrayVec::new();
    for period in 1..65 {
        holds(&rt, periods.try_push(65 - period).is_ok());
    }
    let mut schedule = Schedule::new(periods, 1);
    schedule.enter(0, u64::MAX, 0);
    same(&rt, schedule.next_due(), Some(0));
    assert_all_start(&rt, &mut schedule, 0, 1);
    for test in 0..64 {
        same(
            &rt,
            schedule.finish(TestId(test), u64::from(test) + 1),
            Ok(()),
        );
    }
    assert_idle_backwards(&rt, &schedule);
    assert_all_start(&rt, &mut schedule, 64, 65);
}

/// Makes a tick, and asserts that it starts all 64 tests, with numbers from one on.
fn assert_all_start(rt: &impl Abort, schedule: &mut Schedule, now: u64, first: u64) {
    let mut starts = ArrayVec::new();
    same(rt, schedule.tick_into(now, &mut starts), Ok(false));
    same(rt, starts.len(), 64);
    for (index, start) in starts.iter().enumerate() {
        same(rt, usize::from(start.test.0), index);
        same(rt, start.run, first.saturating_add(index as u64));
    }
    same(rt, schedule.next_due(), None);
}

/// Asserts that all 64 tests are idle. The last one is due at moment 1, and each one before it a moment later.
fn assert_idle_backwards(rt: &impl Abort, schedule: &Schedule) {
    same(rt, schedule.idle().len(), 64);
    for (place, (due, test)) in schedule.idle().iter().enumerate() {
        same(rt, *due, (place as u64).saturating_add(1));
        same(rt, usize::from(test.0), 63_usize.saturating_sub(place));
    }
}
