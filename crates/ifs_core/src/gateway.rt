//! A core and its opening.

use crate::carried::{Carried, CarryCause, CarryFault, known_links, links_by_name};
use crate::event::{open_position, run_inits, unknown_links};
use crate::position::Position;
use crate::step::Record;
use arrayvec::ArrayVec;
use circular_buffer::HeapCircularBuffer;
use ifs_base::{CommandId, LinkState};
use ifs_verify::Verified;
use std::alloc::{AllocError, Global};
use std::marker::Model;
use thiserror::Error;

/// The number of records that the trace keeps.
pub const TRACE: usize = 256;

/// A gateway: an accepted image, and the state of its run.
#[derive(Debug)]
pub struct Core<'a> {
    pub(crate) verified: Verified<'a>,
    pub(crate) position: Position,
    pub(crate) queue: ArrayVec<CommandId, 64>,
    pub(crate) trace: HeapCircularBuffer<Record>,
}

impl<'a> Drop for Core<'a> {
    fn drop(self) {
        let Core {
            verified: _verified,
            position: _position,
            queue: _queue,
            trace: _trace,
        } = self;
    }
}

impl<'a> Model for Core<'a> {
    ghost use Rattle.ifs_core.specs.Gateway.{OpenCore};

    ghost Value = { OpenCore };

    ghost use Rattle.ifs_core.specs.inner.Opened.{core_of, IsConsistent};

    ghost view = { core_of };

    ghost invariant = { IsConsistent };
}

/// The allocation of the trace failed. The image is returned.
#[derive(Debug, Drop, Error)]
#[error("V0")]
pub struct OpenFault<'a> {
    pub verified: Verified<'a>,
}

impl<'a> Core<'a> {
    ghost use Rattle.std.specs.Prelude.{◌≡◌, [], IfOk, IfErr, OnOk, length};
    ghost use Rattle.circular_buffer.specs.Buffer.{buffer};
    ghost use Rattle.ifs_core.specs.Carrying.{CannotCarry, IsCarriedFrom, known_by};
    ghost use Rattle.ifs_core.specs.Event.{Behaviour};
    ghost use Rattle.ifs_core.specs.Machine.{IsBehaviour};
    ghost use Rattle.ifs_core.specs.Gateway.{nothing_known, opened};
    ghost use Rattle.ifs_core.specs.Headline.{OpeningKeeps};

    /// Opens an image at moment 0: all links are unknown, and no test has a value. The always init and the initial
    /// state's init run. Their commands are queued, and their wishes are dropped.
    ///
    /// Only the trace is allocated. `OpenFault` has the image if that fails.
    pub fn open(alloc: Global, verified: Verified<'a>) -> Result<Core<'a>, OpenFault<'a>>
        ensures image { IfOk result (λ core. core.image ≡ verified.entry) }
        ensures state { IfOk result (λ core. (b : Behaviour) → IsBehaviour verified.entry b → core.state ≡ opened b verified.entry (nothing_known verified.entry)) }
        ensures fault { IfErr result (λ fault. fault.verified ≡ verified.entry) }
        ensures kept { IfOk result (λ core. OpeningKeeps verified.entry (nothing_known verified.entry) core.state) }
    {
        match HeapCircularBuffer::with_capacity(alloc, TRACE) {
            Err(_) => Err(OpenFault { verified }),
            Ok(trace) => {
                let links = unknown_links(verified.image());
                let core = Core::started(verified, links, 1, trace);
                // The image is accepted, so its opening keeps the headline.
                core.image();
                Ok(core)
            }
        }
    }

    /// Opens an image with what `carry` kept of another core. An interface has the link state that was carried under
    /// its name, and is unknown if none was; link states of other names are dropped. Run numbers go on. All else is as
    /// in `open`: it is moment 0, no test has a value, the inits run and their commands are queued, and the trace is
    /// empty.
    ///
    /// It allocates nothing, and cannot fail.
    pub fn open_with(next: Verified<'a>, carried: Carried) -> Core<'a>
        ensures image { result.image ≡ next.entry }
        ensures state { (b : Behaviour) → IsBehaviour next.entry b → result.state ≡ opened b next.entry (known_by carried next.entry) }
        ensures kept { OpeningKeeps next.entry (known_by carried next.entry) result.state }
    {
        let links = links_by_name(next.image(), carried.links());
        let first_run = carried.next_run();
        let core = Core::started(next, links, first_run, carried.into_trace());
        // The image is accepted, so its opening keeps the headline.
        core.image();
        core
    }

    /// Ends the core, and keeps what the next one needs: the known link states by the names of their interfaces, the
    /// number of the next run, and the memory of the trace.
    ///
    /// L1 if a command waits in the queue, which is checked first; L0 if the allocation of the names fails. The fault
    /// has the core, unchanged.
    pub fn carry(self, alloc: Global) -> Result<Carried, CarryFault<'a>>
        ensures carried { IfOk result (λ carried. IsCarriedFrom self.entry carried) }
        ensures queue { OnOk result (self.entry.state.queue ≡ []) }
        ensures fault { IfErr result (λ fault. fault.core ≡ self.entry) }
        ensures cause { IfErr result (λ fault. CannotCarry self.entry.state.queue fault.cause) }
    {
        if !self.queue.is_empty() {
            return Err(CarryFault {
                core: self,
                cause: CarryCause::Queued,
            });
        }
        match known_links(
            alloc,
            self.verified.image(),
            self.position.facts.links.as_slice(),
        ) {
            Err(AllocError) => Err(CarryFault {
                core: self,
                cause: CarryCause::Memory,
            }),
            Ok(links) => {
                let next_run = self.position.schedule.next_run();
                let Core {
                    verified: _verified,
                    position: _position,
                    queue: _queue,
                    trace,
                } = self;
                Ok(Carried::new(links, next_run, trace))
            }
        }
    }

    /// Opens an image with these link states, this first run number and this empty trace.
    fn started(
        verified: Verified<'a>,
        links: ArrayVec<LinkState, 64>,
        first_run: u64,
        trace: HeapCircularBuffer<Record>,
    ) -> Core<'a>
        requires trace { trace ≡ buffer [] TRACE }
        requires links { length links.items ≡ length verified.interfaces }
        ensures image { result.image ≡ verified.entry }
        ensures state { (b : Behaviour) → IsBehaviour verified.entry b → result.state ≡ opened b verified.entry (record { links = links.items; first_run = first_run }) }
    {
        let position = open_position(&verified, links, first_run);
        let queue = run_inits(&verified, &position);
        Core {
            verified,
            position,
            queue,
            trace,
        }
    }
}
