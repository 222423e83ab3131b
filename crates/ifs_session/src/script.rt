//! A host in memory, for tests. It returns results from a script, and logs its events.

ghost use Rattle.std.specs.Prelude.{◌≡◌, ◌+◌, ◌<◌, ◌≤◌, ◌∷◌, [], length, drop, true, None, Some, IfSome, IsSome, OnOk};
ghost use Rattle.ifs_session.specs.Hosts.{Happening, Adds, ran, launched, polled, RunCounts};
ghost use Rattle.ifs_session.specs.Script.{told_whole, next_ending, next_status};

use crate::host::{Host, HostEvent, HostFault, Launch};
use arrayvec::ArrayVec;
use ifs_base::{TestId, limits};
use std::alloc::{AllocError, Allocator, Global};
use std::marker::Model;

/// The most bytes of a text in the log.
const TEXT: usize = limits::TEXT as usize;

/// The text of a command.
#[derive(Debug, Drop)]
pub struct HostText {
    bytes: ArrayVec<u8, TEXT>,
}

impl Model for HostText {
    ghost use Rattle.std.specs.Prelude.{List, ℕ};

    ghost Value = { List ℕ };

    ghost view = { λ t. t.bytes.items };
}

impl HostText {
    /// A copy of a text. It is `None` if the text has more than 1,024 bytes.
    fn of(text: &str) -> Option<Self>
        ensures copies { IfSome result (λ copy. copy ≡ text.now) }
        ensures fits { length text.now ≤ 1024 → IsSome result }
    {
        let mut bytes = ArrayVec::new();
        match bytes.try_extend_from_slice(text.as_bytes()) {
            Ok(()) => Some(HostText { bytes }),
            Err(_) => None,
        }
    }

    /// The bytes of the text.
    pub fn as_bytes(&self) -> &[u8]
        ensures { result.now ≡ self.now }
    {
        self.bytes.as_slice()
    }
}

/// A host that starts and runs nothing. Its polls and runs return results from a script. It reports its log of events as
/// long as the log is complete.
pub struct ScriptHost<A: Allocator = Global> {
    endings: Vec<Option<(TestId, u64, bool)>>,
    next_ending: usize,
    statuses: Vec<Result<i32, HostFault>>,
    next_status: usize,
    events: Vec<HostEvent<HostText>, A>,
    whole: bool,
    faults: u64,
}

impl<A: Allocator> Drop for ScriptHost<A> {
    fn drop(self) {
        let ScriptHost {
            endings: _endings,
            next_ending: _next_ending,
            statuses: _statuses,
            next_status: _next_status,
            events: _events,
            whole: _whole,
            faults: _faults,
        } = self;
    }
}

impl<A: Allocator> Model for ScriptHost<A> {
    ghost use Rattle.std.specs.Prelude.{drop, vec_capacity};
    ghost use Rattle.ifs_session.specs.Script.{Script};

    ghost Value = { Script };

    ghost view = { λ h. record {
      endings = drop h.next_ending h.endings.items;
      statuses = drop h.next_status h.statuses.items;
      log = h.events.items;
      room = vec_capacity h.events;
      whole = h.whole;
      faults = h.faults;
    } };
}

impl<A: Allocator> ScriptHost<A> {
    /// A host with these results of polls and of runs. Its log allocates from `alloc`, but not here.
    pub fn new(
        alloc: A,
        endings: Vec<Option<(TestId, u64, bool)>>,
        statuses: Vec<Result<i32, HostFault>>,
    ) -> Self
        ensures { result ≡ record { endings = endings.items; statuses = statuses.items; log = []; room = 0; whole = true; faults = 0 } }
    {
        ScriptHost {
            endings,
            next_ending: 0,
            statuses,
            next_status: 0,
            events: Vec::new(alloc),
            whole: true,
            faults: 0,
        }
    }

    /// Reserves memory for `notes` more events of the log.
    pub fn reserve(&mut self, notes: usize) -> Result<(), AllocError>
        ensures room { OnOk result (length self.new.log + notes ≤ self.new.room) }
        ensures same { self.new ≡ record { endings = self.old.endings; statuses = self.old.statuses; log = self.old.log; room = self.new.room; whole = self.old.whole; faults = self.old.faults } }
    {
        self.events.reserve(notes)
    }

    /// Whether the log is complete. It is false from the first event whose allocation failed or whose text has more than
    /// 1,024 bytes.
    pub fn whole(&self) -> bool
        ensures { result ≡ self.now.whole }
    {
        self.whole
    }

    /// The events of the log, in order.
    pub fn events(&self) -> &[HostEvent<HostText>]
        ensures { result.now ≡ self.now.log }
    {
        self.events.as_slice()
    }

    /// Adds an event to the log.
    fn note(&mut self, event: HostEvent<HostText>)
        ensures log { Adds (event ∷ []) (told_whole self.old.whole self.old.log) (told_whole self.new.whole self.new.log) }
        ensures tells { length self.old.log < self.old.room → self.new.whole ≡ self.old.whole }
        ensures room { self.old.room ≤ self.new.room }
        ensures grows { length self.new.log ≤ length self.old.log + 1 }
        ensures endings { self.new.endings ≡ self.old.endings }
        ensures statuses { self.new.statuses ≡ self.old.statuses }
        ensures faults { self.new.faults ≡ self.old.faults }
    {
        let noted = self.events.push(event).is_ok();
        self.whole = self.whole && noted;
    }

    /// The next status of the script, or 0 after its last.
    fn next_run(&mut self) -> Result<i32, HostFault>
        ensures next { result ≡ next_status self.old.statuses }
        ensures statuses { self.new.statuses ≡ drop 1 self.old.statuses }
        ensures counts { RunCounts result (Some self.old.faults) (Some self.new.faults) }
        ensures log { self.new.log ≡ self.old.log }
        ensures room { self.new.room ≡ self.old.room }
        ensures endings { self.new.endings ≡ self.old.endings }
        ensures whole { self.new.whole ≡ self.old.whole }
    {
        let Some(status) = self.statuses.as_slice().get(self.next_status) else {
            return Ok(0);
        };
        let status = *status;
        self.next_status += 1;
        if let Err(HostFault) = status {
            self.faults = self.faults.saturating_add(1);
        }
        status
    }
}

impl<A: Allocator> Host for ScriptHost<A> {
    ghost told = { λ h. told_whole h.whole h.log };

    ghost faults = { λ h. Some h.faults };

    fn start(&mut self, test: TestId, run: u64, text: &str)
        ensures log { Adds (launched (record { test = test; run = run; text = text.now } ∷ [])) (told_whole self.old.whole self.old.log) (told_whole self.new.whole self.new.log) }
        ensures counts { Some self.new.faults ≡ Some self.old.faults }
        ensures endings { self.new.endings ≡ self.old.endings }
        ensures statuses { self.new.statuses ≡ self.old.statuses }
        // With room for one more event the log stays complete.
        ensures tells { length text.now ≤ 1024 → length self.old.log < self.old.room → self.new.whole ≡ self.old.whole }
        ensures room { self.old.room ≤ self.new.room }
        ensures grows { length self.new.log ≤ length self.old.log + 1 }
    {
        match HostText::of(text) {
            Some(text) => self.note(HostEvent::Started(Launch { test, run, text })),
            None => self.whole = false,
        }
    }

    /// The next result of the script, or `None` after its last.
    fn poll(&mut self) -> Option<(TestId, u64, bool)>
        ensures log { Adds (polled result) (told_whole self.old.whole self.old.log) (told_whole self.new.whole self.new.log) }
        ensures counts { Some self.new.faults ≡ Some self.old.faults }
        ensures next { result ≡ next_ending self.old.endings }
        ensures endings { self.new.endings ≡ drop 1 self.old.endings }
        ensures statuses { self.new.statuses ≡ self.old.statuses }
        // With room for one more event the log stays complete.
        ensures tells { length self.old.log < self.old.room → self.new.whole ≡ self.old.whole }
        ensures room { self.old.room ≤ self.new.room }
        ensures grows { length self.new.log ≤ length self.old.log + 1 }
    {
        let answer = match self.endings.as_slice().get(self.next_ending) {
            None => None,
            Some(answer) => {
                self.next_ending += 1;
                *answer
            }
        };
        self.note(HostEvent::Polled(answer));
        answer
    }

    /// The next status of the script, or 0 after its last.
    fn run(&mut self, text: &str) -> Result<i32, HostFault>
        ensures log { Adds (ran (text.now ∷ [])) (told_whole self.old.whole self.old.log) (told_whole self.new.whole self.new.log) }
        ensures counts { RunCounts result (Some self.old.faults) (Some self.new.faults) }
        ensures next { result ≡ next_status self.old.statuses }
        ensures statuses { self.new.statuses ≡ drop 1 self.old.statuses }
        ensures endings { self.new.endings ≡ self.old.endings }
        // With room for one more event the log stays complete.
        ensures tells { length text.now ≤ 1024 → length self.old.log < self.old.room → self.new.whole ≡ self.old.whole }
        ensures room { self.old.room ≤ self.new.room }
        ensures grows { length self.new.log ≤ length self.old.log + 1 }
    {
        match HostText::of(text) {
            Some(text) => self.note(HostEvent::Ran(text)),
            None => self.whole = false,
        }
        self.next_run()
    }
}
