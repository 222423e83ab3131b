//! Calls of a reload: `Core::carry` and `take_over`.

use crate::allocations::{Code, Turn, code_of, no_memory};
use crate::images::Images;
use crate::readings::{has_readings, opened, readings};
use bumpalo::Bump;
use ifs_base::{IfaceId, LinkState};
use ifs_core::{Carried, CarryFault, Core, Step};
use ifs_host::reloading::{ReloadRefused, take_over};
use ifs_verify::verify;
use std::alloc::Global;

/// A core on the image of these bytes. It knows each of its links, and its queue is empty.
fn knowing(alloc: Global, bytes: &[u8]) -> Result<Core<'_>, Code> {
    let mut core = opened(alloc, bytes)?;
    for index in 0..64 {
        take_all(&mut core);
        core.step(Step::Link(IfaceId(index), LinkState::Up));
    }
    take_all(&mut core);
    Ok(core)
}

/// Takes the waiting commands.
fn take_all(core: &mut Core<'_>) {
    for _ in 0..core.queue_len() {
        core.step(Step::Take);
    }
}

/// The readings of a core that is opened with what another one carried. If the carrying fails, the returned core has to be
/// unchanged.
pub fn carried(images: &Images, turn: Turn) -> Result<Vec<u8>, Code> {
    let bytes = images.bytes();
    let core = knowing(turn.alloc(), bytes)?;
    match turn.ended(core.carry(turn.begun())) {
        Ok(carried) => opened_with(turn.alloc(), bytes, carried),
        Err(CarryFault { core, cause }) => Err(code_of_kept(
            turn.alloc(),
            &core,
            bytes,
            code_of(cause),
        )),
    }
}

/// The readings of a core that is opened with what another one carried.
fn opened_with(alloc: Global, bytes: &[u8], carried: Carried) -> Result<Vec<u8>, Code> {
    let next = verify(alloc, bytes).map_err(code_of)?;
    readings(alloc, &Core::open_with(next, carried))
}

/// The code of a failure. If the core has changed, a code that says so.
fn code_of_kept(alloc: Global, core: &Core<'_>, bytes: &[u8], code: Code) -> Code {
    if has_readings(alloc, core, readings_before(alloc, bytes)) {
        code
    } else {
        code_of("a core that has changed")
    }
}

/// The readings of the core that `knowing` returns.
fn readings_before(alloc: Global, bytes: &[u8]) -> Result<Vec<u8>, Code> {
    readings(alloc, &knowing(alloc, bytes)?)
}

/// The readings of the core after a reload with the image of the same bytes. If the reload fails, the returned core has to be
/// unchanged.
pub fn reloaded(images: &Images, turn: Turn) -> Result<Vec<u8>, Code> {
    let bytes = images.bytes();
    // the arena gets its room first: if a large allocation fails, it makes a smaller one and reports nothing
    let room = bytes.len().saturating_mul(4).saturating_add(4_096);
    let kept = Bump::try_with_capacity(turn.alloc(), room).map_err(no_memory)?;
    let first = kept.try_alloc_slice_copy(bytes).map_err(no_memory)?;
    let core = knowing(turn.alloc(), first)?;
    match turn.ended(take_over(turn.begun(), &kept, bytes, core)) {
        Ok(next) => readings(turn.alloc(), &next),
        Err(ReloadRefused { core, fault }) => Err(code_of_kept(
            turn.alloc(),
            &core,
            bytes,
            code_of(fault),
        )),
    }
}
