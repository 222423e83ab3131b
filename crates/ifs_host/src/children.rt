//! Starts of tests whose ends have not been reported, and programs that are past their limits.

ghost use Rattle.std.specs.Prelude.{◌≡◌, ◌<◌, ◌≤◌, ◌+◌, ◌↔◌, List, [], ◌∷◌, ◌++◌, length, map, IsTrue, IfOk, IfSome, MatchOption};
ghost use Rattle.ifs_sched.specs.declared.start.Start.{Start};
ghost use Rattle.std.specs.Vec.{vec_capacity};
ghost use Rattle.ifs_host.specs.Runners.{RunnerTells};
ghost use Rattle.ifs_host.specs.Children.{Waiting, none_waits, places_taken, with_running, with_failed, of_others, latest};
ghost use Rattle.ifs_host.specs.Children.{Program, runs_for, all_run, if_stays, IsFirstEnded, FindsNone, Ends};
ghost use Rattle.ifs_host.specs.inner.Looking.{IsFound, Takes, LooksAtFirst, AreReaped};

use crate::runner::{ProgramStatus, Runner};
use crate::watching::Watched;
use arrayvec::ArrayVec;
use ifs_base::TestId;
use ifs_sched::Start;
use std::alloc::{AllocError, Global};
use std::marker::Model;

/// The most programs that run at once.
pub const PLACES: usize = 256;

/// A program that was started for a test.
#[derive(Drop)]
struct Running<Q: Runner> {
    start: Start,
    child: Q::Child,
}

/// The first program that has a value.
#[derive(Clone, Copy)]
struct EndedProgram {
    /// Its index among those that run.
    index: usize,
    status: ProgramStatus,
    value: bool,
}

/// The starts that wait: programs that were started for tests, and starts that failed, each in order. Also the programs of tests
/// that are false since they reached their limits. They hold their places until they are gone.
pub struct Children<Q: Runner> {
    running: Vec<Running<Q>>,
    late: Vec<Running<Q>>,
    failed: ArrayVec<Start, 64>,
}

impl<Q: Runner> Drop for Children<Q> {
    fn drop(self) {
        let Children {
            running: _running,
            late: _late,
            failed: _failed,
        } = self;
    }
}

impl<Q: Runner> Model for Children<Q> {
    ghost use Rattle.std.specs.Prelude.{◌≤◌, ◌+◌, map, length};
    ghost use Rattle.std.specs.Vec.{vec_capacity};
    ghost use Rattle.ifs_host.specs.Children.{Waiting};

    ghost Value = { Waiting };

    ghost view = { λ c. record { running = map (λ it. (it.start, Q.number it.child)) c.running.items; late = map (λ it. (it.start, Q.number it.child)) c.late.items; failed = c.failed.items } };

    ghost invariant = { λ c. (256 ≤ vec_capacity c.running) × (256 ≤ vec_capacity c.late) × (length c.running.items + length c.late.items ≤ 256) };
}

impl<Q: Runner> Children<Q> {
    /// Without starts, and with room for every program.
    pub fn new(alloc: Global) -> Result<Self, AllocError>
        ensures { IfOk result (λ children. children ≡ none_waits) }
    {
        Ok(Children {
            running: Vec::with_capacity(alloc, PLACES)?,
            late: Vec::with_capacity(alloc, PLACES)?,
            failed: ArrayVec::new(),
        })
    }

    /// Whether another program may run.
    pub fn has_place(&self) -> bool
        ensures { IsTrue result ↔ (places_taken self.now < 256) }
    {
        self.running.len() + self.late.len() < PLACES
    }

    /// Whether a program runs for this test, within its limit.
    pub fn is_running(&self, test: TestId) -> bool
        ensures { result ≡ runs_for test self.now.running }
    {
        is_among(self.running.as_slice(), test)
    }

    /// Whether a program runs within its limit.
    pub fn has_running(&self) -> bool
        ensures { IsTrue result ↔ (0 < length self.now.running) }
    {
        !self.running.is_empty()
    }

    /// Whether a start that failed waits.
    pub fn has_failed(&self) -> bool
        ensures { IsTrue result ↔ (0 < length self.now.failed) }
    {
        !self.failed.is_empty()
    }

    /// Adds the pipes of the programs that run within their limits to those that are watched, while there is room.
    pub fn watch(&self, runner: &Q, watched: &mut Watched) {
        for it in self.running.as_slice() {
            if let Some(pipe) = runner.closing_pipe(&it.child) {
                watched.add(pipe);
            }
        }
    }

    /// Adds a start whose program runs.
    pub fn run(&mut self, start: Start, child: Q::Child)
        requires { places_taken self.old < 256 }
        ensures { self.new ≡ with_running (start, Q.number child) self.old }
    {
        let Ok(()) = self.running.push(Running { start, child }) else {
            unreachable!()
        };
    }

    /// Adds a start that failed. An earlier failed start of the same test goes, and of the others the latest 63 stay.
    pub fn fail(&mut self, start: Start)
        ensures { self.new ≡ with_failed start self.old }
    {
        forget(&mut self.failed, start);
        make_room(&mut self.failed);
        self.failed.push(start);
    }

    /// Removes a start that has ended, and returns it with its value. It is the first that failed, or else the first whose
    /// program has ended or reached its limit. If there is none, lets go of the programs past their limits that are gone.
    pub fn remove_ended(&mut self, runner: &mut Q) -> Option<(Start, bool)>
        ensures { Ends result self.old self.new (Q.told runner.old) (Q.told runner.new) }
    {
        if self.failed.is_empty() {
            take_ended(runner, &mut self.running, &mut self.late)
        } else {
            Some((self.failed.remove(0), false))
        }
    }
}

/// Whether a program of this test is among these.
fn is_among<Q: Runner>(running: &[Running<Q>], test: TestId) -> bool
    ensures { result ≡ runs_for test (map {B = Program} (λ it. (it.start, Q.number it.child)) running.now) }
{
    let mut left = running;
    while let [first, rest @ ..] = left {
        if first.start.test.0 == test.0 {
            return true;
        }
        left = rest;
    }
    false
}

/// Removes the starts of the same test.
fn forget(failed: &mut ArrayVec<Start, 64>, start: Start)
    ensures { failed.new.items ≡ of_others start failed.old.items }
{
    failed.retain(|earlier| earlier.test.0 != start.test.0);
}

/// Removes the first start if there is no room for another one.
fn make_room(failed: &mut ArrayVec<Start, 64>)
    ensures latest { failed.new.items ≡ latest failed.old.items }
    ensures room { length failed.new.items < 64 }
{
    if failed.is_full() {
        failed.remove(0);
    }
}

/// Takes the first program that has a value out of those that run, and returns its start and value. If there is none, lets go
/// of the late programs that are gone.
fn take_ended<Q: Runner>(
    runner: &mut Q,
    running: &mut Vec<Running<Q>>,
    late: &mut Vec<Running<Q>>,
) -> Option<(Start, bool)>
    requires room { 256 ≤ vec_capacity late.old }
    requires places { length running.old.items + length late.old.items ≤ 256 }
    ensures ends { MatchOption result
        (FindsNone
        (map {B = Program} (λ it. (it.start, Q.number it.child)) running.old.items) (map {B = Program} (λ it. (it.start, Q.number it.child)) late.old.items)
        (map {B = Program} (λ it. (it.start, Q.number it.child)) running.new.items) (map {B = Program} (λ it. (it.start, Q.number it.child)) late.new.items)
        (Q.told runner.old) (Q.told runner.new))
        (λ it. IsFirstEnded it
        (map {B = Program} (λ it. (it.start, Q.number it.child)) running.old.items) (map {B = Program} (λ it. (it.start, Q.number it.child)) late.old.items)
        (map {B = Program} (λ it. (it.start, Q.number it.child)) running.new.items) (map {B = Program} (λ it. (it.start, Q.number it.child)) late.new.items)
        (Q.told runner.old) (Q.told runner.new)) }
    ensures capacity { vec_capacity running.new ≡ vec_capacity running.old }
    ensures room { vec_capacity late.old ≤ vec_capacity late.new }
    ensures places { length running.new.items + length late.new.items ≤ length running.old.items + length late.old.items }
{
    match first_ended(runner, running) {
        Some(found) => Some(take_found(running, late, found)),
        None => {
            reap(runner, late);
            None
        }
    }
}

/// Takes the program that was found out of those that run, and returns its start and value. If it reached its limit, it is the
/// last of the late programs.
fn take_found<Q: Runner>(
    running: &mut Vec<Running<Q>>,
    late: &mut Vec<Running<Q>>,
    found: EndedProgram,
) -> (Start, bool)
    requires inside { found.index < length running.old.items }
    requires room { length late.old.items < vec_capacity late.old }
    ensures takes { Takes found.index found.status result.0
        (map {B = Program} (λ it. (it.start, Q.number it.child)) running.old.items) (map {B = Program} (λ it. (it.start, Q.number it.child)) late.old.items)
        (map {B = Program} (λ it. (it.start, Q.number it.child)) running.new.items) (map {B = Program} (λ it. (it.start, Q.number it.child)) late.new.items) }
    ensures value { result.1 ≡ found.value }
    ensures capacity { vec_capacity running.new ≡ vec_capacity running.old }
    ensures room { vec_capacity late.old ≤ vec_capacity late.new }
    ensures places { length running.new.items + length late.new.items ≤ length running.old.items + length late.old.items }
{
    let it = running.remove(found.index);
    let start = it.start;
    keep_if(late, it, found.status.reached_limit());
    (start, found.value)
}

/// Adds a program at the end if it is to stay, and else lets it go.
fn keep_if<Q: Runner>(kept: &mut Vec<Running<Q>>, program: Running<Q>, stays: bool)
    requires { length kept.old.items < vec_capacity kept.old }
    ensures items { map {B = Program} (λ it. (it.start, Q.number it.child)) kept.new.items
        ≡ map {B = Program} (λ it. (it.start, Q.number it.child)) kept.old.items ++ if_stays stays (program.start, Q.number program.child) }
    ensures capacity { vec_capacity kept.old ≤ vec_capacity kept.new }
    ensures count { length kept.new.items ≤ length kept.old.items + 1 }
{
    if !stays {
        return;
    }
    let Ok(()) = kept.push(program) else {
        unreachable!()
    };
}

/// Looks at each late program in order, and lets go of those that are gone.
fn reap<Q: Runner>(runner: &mut Q, late: &mut Vec<Running<Q>>)
    requires { length late.old.items ≤ vec_capacity late.old }
    ensures reaped { AreReaped (map {B = Program} (λ it. (it.start, Q.number it.child)) late.old.items) (map {B = Program} (λ it. (it.start, Q.number it.child)) late.new.items)
        (Q.told runner.old) (Q.told runner.new) }
    ensures capacity { vec_capacity late.old ≤ vec_capacity late.new }
    ensures count { length late.new.items ≤ length late.old.items }
{
    for _looked in 0..late.len() {
        look_at_first(runner, late);
    }
}

/// Looks at the first late program. It is the last then, or let go if it is gone.
fn look_at_first<Q: Runner>(runner: &mut Q, late: &mut Vec<Running<Q>>)
    requires some { 0 < length late.old.items }
    requires room { length late.old.items ≤ vec_capacity late.old }
    ensures looks { LooksAtFirst (map {B = Program} (λ it. (it.start, Q.number it.child)) late.old.items) (map {B = Program} (λ it. (it.start, Q.number it.child)) late.new.items)
        (Q.told runner.old) (Q.told runner.new) }
    ensures capacity { vec_capacity late.old ≤ vec_capacity late.new }
    ensures count { length late.new.items ≤ length late.old.items }
{
    let mut first = late.remove(0);
    let gone = runner.reap(&mut first.child);
    keep_if(late, first, !gone);
}

/// Finds the first program that has a value.
fn first_ended<Q: Runner>(runner: &mut Q, running: &mut Vec<Running<Q>>) -> Option<EndedProgram>
    ensures same { map {B = Program} (λ it. (it.start, Q.number it.child)) running.new.items ≡ map {B = Program} (λ it. (it.start, Q.number it.child)) running.old.items }
    ensures ends { MatchOption result
        (RunnerTells (all_run (map {B = Program} (λ it. (it.start, Q.number it.child)) running.old.items)) (Q.told runner.old) (Q.told runner.new))
        (λ it. IsFound it.index it.status it.value (map {B = Program} (λ it. (it.start, Q.number it.child)) running.old.items) (Q.told runner.old) (Q.told runner.new)) }
    ensures inside { IfSome result (λ it. it.index < length running.new.items) }
    ensures count { length running.new.items ≡ length running.old.items }
    ensures capacity { vec_capacity running.new ≡ vec_capacity running.old }
{
    first_ended_of(runner, running.as_mut_slice())
}

/// Finds the first of these programs that has a value: it has ended, has reached its limit, or cannot be waited for.
fn first_ended_of<Q: Runner>(runner: &mut Q, running: &mut [Running<Q>]) -> Option<EndedProgram>
    ensures same { map {B = Program} (λ it. (it.start, Q.number it.child)) running.new ≡ map {B = Program} (λ it. (it.start, Q.number it.child)) running.old }
    ensures ends { MatchOption result
        (RunnerTells (all_run (map {B = Program} (λ it. (it.start, Q.number it.child)) running.old)) (Q.told runner.old) (Q.told runner.new))
        (λ it. IsFound it.index it.status it.value (map {B = Program} (λ it. (it.start, Q.number it.child)) running.old) (Q.told runner.old) (Q.told runner.new)) }
    ensures inside { IfSome result (λ it. it.index < length running.new) }
{
    for (index, it) in running.iter_mut().enumerate() {
        let status = runner.try_wait(&mut it.child);
        if let Some(value) = status.value() {
            return Some(EndedProgram {
                index,
                status,
                value,
            });
        }
    }
    None
}
