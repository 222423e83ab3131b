//! The status file of a daemon.

use crate::event::Event;
use crate::facts_keeper::{FactsKeeper, KeepFault, Waiting};
use crate::notes::NoteLog;
use crate::status_recorder::{Clocks, StatusRecorder, Unwritten};
use crate::uptime::uptime;
use log::warn;
use std::alloc::AllocError;
use std::cell::{Cell, RefCell};
use std::fs;
use std::time::{SystemTime, UNIX_EPOCH};

/// A daemon's status, and its file, which a helper replaces whole. It is borrowed by what runs commands, too. No command waits
/// for the file to be written.
///
/// If the status cannot be written, or memory runs out, a note says so, once until it is written again.
#[derive(Drop)]
pub struct StatusFile<'a, 'm> {
    rt: HostRuntime,
    notes: &'a NoteLog,
    keeper: RefCell<FactsKeeper>,
    recorder: RefCell<StatusRecorder<'m>>,
    /// Whether a fault was noted, and the status has not been written since.
    is_faulty: Cell<bool>,
}

impl<'a, 'm> StatusFile<'a, 'm> {
    /// The file at this path, for a daemon of this version that is started now. Nothing is written yet.
    pub fn new(
        rt: HostRuntime,
        notes: &'a NoteLog,
        path: &str,
        version: &'m str,
    ) -> Result<StatusFile<'a, 'm>, AllocError> {
        let keeper = FactsKeeper::new(rt, path)?;
        let recorder = StatusRecorder::new(
            rt.alloc(),
            version,
            read_clocks(&rt, unix_seconds(&rt)),
        )?;
        Ok(StatusFile {
            rt,
            notes,
            keeper: RefCell::new(keeper),
            recorder: RefCell::new(recorder),
            is_faulty: Cell::new(false),
        })
    }

    /// Records an event, and writes the status if something changed and it is complete. If only ticks came, it writes it once a
    /// second.
    pub fn record(&self, event: Event<'_, 'm>) {
        let (Ok(mut recorder), Ok(mut keeper)) = (
            self.recorder.try_borrow_mut(),
            self.keeper.try_borrow_mut(),
        ) else {
            return;
        };
        let (recorder, keeper) = (&mut *recorder, &mut *keeper);
        let clock = unix_seconds(&self.rt);
        if let Event::ConnectionOpened = event {
            let clocks = self.clocks_at(recorder, clock);
            return recorder.begin_connection(clocks);
        }
        if recorder.record(event, clock).is_err() {
            self.note(keeper, &KeepFault::from(AllocError));
        } else if event.completes_status() && is_due(recorder, clock) {
            self.write(keeper, recorder, clock, waiting_after(event));
        }
    }

    /// Has the status written, or notes why it is not written.
    fn write(
        &self,
        keeper: &mut FactsKeeper,
        recorder: &mut StatusRecorder<'m>,
        clock: u64,
        waiting: Waiting,
    ) {
        let clocks = self.clocks_at(recorder, clock);
        match replace(keeper, recorder, clocks, waiting) {
            Ok(()) if waiting == Waiting::Never => {}
            Ok(()) => self.is_faulty.set(false),
            Err(fault) => {
                recorder.mark_unwritten();
                self.note(keeper, &fault);
            }
        }
    }

    /// The time at this second of the system's clock. The seconds since the system's start are asked for once in a second.
    fn clocks_at(&self, recorder: &StatusRecorder<'m>, clock: u64) -> Clocks {
        let known = recorder.clocks();
        if known.clock == clock {
            known
        } else {
            read_clocks(&self.rt, clock)
        }
    }

    /// Notes that memory ran out for what happened, unless a fault was noted since the status was written.
    pub fn note_no_memory(&self) {
        let Ok(mut keeper) = self.keeper.try_borrow_mut() else {
            return;
        };
        self.note(&mut *keeper, &KeepFault::from(AllocError));
    }

    /// Notes why the status is not written, unless that was noted since it was.
    fn note(&self, keeper: &FactsKeeper, fault: &KeepFault) {
        if self.is_faulty.replace(true) {
            return;
        }
        warn!(self.notes; "facts {}: {fault}", keeper.path());
    }

    /// Removes the file, if it was written and no other daemon keeps it. It may stay if the system refuses that, or is slow.
    pub fn remove(&self) {
        if let Ok(mut keeper) = self.keeper.try_borrow_mut() {
            keeper.remove();
        }
    }
}

/// How long the status file may hold up the daemon after an event. A command that is about to run does not wait for it.
fn waiting_after(event: Event<'_, '_>) -> Waiting {
    match event {
        Event::CommandStarted(_) => Waiting::Never,
        _ => Waiting::Briefly,
    }
}

/// Has the file replaced by one with the status. If anything fails, the old one stays.
fn replace(
    keeper: &mut FactsKeeper,
    recorder: &mut StatusRecorder<'_>,
    clocks: Clocks,
    waiting: Waiting,
) -> Result<(), KeepFault> {
    // what failed before would fail again now
    if let Err(KeepFault::Late) = keeper.settle(waiting) {
        return Err(KeepFault::Late);
    }
    let mut order = recorder.json_at(clocks)?;
    order.push('\n')?;
    keeper.give(order.as_str())?;
    recorder.mark_written();
    match waiting {
        Waiting::Never => Ok(()),
        Waiting::Briefly => keeper.settle(waiting),
    }
}

/// Records an event, if there is a status file.
pub(crate) fn record<'m>(status_file: Option<&StatusFile<'_, 'm>>, event: Event<'_, 'm>) {
    if let Some(status_file) = status_file {
        status_file.record(event);
    }
}

/// Whether the status is to be written at this time of the system's clock.
fn is_due(recorder: &StatusRecorder<'_>, clock: u64) -> bool {
    match recorder.unwritten() {
        Unwritten::Nothing => false,
        Unwritten::Quiet => recorder.written() != clock,
        Unwritten::Change => true,
    }
}

/// The length of the file at a path. It is 0 if the system does not say it.
pub(crate) fn length_of(rt: &HostRuntime, path: &str) -> u64 {
    match fs::metadata(rt, path) {
        Ok(found) => found.len(),
        Err(_unknown) => 0,
    }
}

/// The time by both clocks of the system, at this second of the first.
fn read_clocks(rt: &HostRuntime, clock: u64) -> Clocks {
    Clocks {
        clock,
        uptime: uptime(rt),
    }
}

/// The seconds of the system's clock since 1970. It is 0 if the clock does not work.
fn unix_seconds(rt: &HostRuntime) -> u64 {
    let Ok(now) = SystemTime::now(rt) else {
        return 0;
    };
    match now.duration_since(UNIX_EPOCH) {
        Ok(since) => since.as_secs(),
        Err(_before) => 0,
    }
}
