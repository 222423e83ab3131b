//! Cores that open with what another core carried.

use super::{bytes_in, check_row, opened};
use crate::checks::same;
use ifs_base::CommandId;
use ifs_core::{Carried, CarryCause, CarryFault, Core};
use ifs_test_images::reloads::{Reload, reloads, with_a_command};
use ifs_verify::verify;
use std::alloc::{AllocError, Global};
use std::process::Abort;
use std::test::Fail;

/// What a core carries.
fn carried(rt: &impl Abort, alloc: Global, core: Core<'_>) -> Carried {
    match core.carry(alloc) {
        Ok(carried) => carried,
        Err(CarryFault { core: _, cause }) => panic!(rt; "not carried: {cause}"),
    }
}

/// What the core of the first image carries after its session.
fn carried_after(rt: &impl Abort, alloc: Global, reload: &Reload) -> Result<Carried, AllocError> {
    let image = bytes_in(rt, alloc, reload.before.image);
    let mut core = opened(rt, alloc, image.as_slice());
    check_row(rt, alloc, &mut core, &reload.before)?;
    Ok(carried(rt, alloc, core))
}

/// Asserts the replies of the core that opens with what was carried.
fn check_after(
    rt: &impl Abort,
    alloc: Global,
    reload: &Reload,
    carried: Carried,
) -> Result<(), AllocError> {
    let image = bytes_in(rt, alloc, reload.after.image);
    match verify(alloc, image.as_slice()) {
        Err(fault) => panic!(rt; "not accepted: {fault}"),
        Ok(next) => {
            let mut core = Core::open_with(next, carried);
            check_row(rt, alloc, &mut core, &reload.after)
        }
    }
}

#[test]
fn images_that_take_over(rt: HostRuntime) -> Result<(), Fail> {
    for reload in reloads() {
        let carried = carried_after(&rt, rt.alloc(), &reload)?;
        check_after(&rt, rt.alloc(), &reload, carried)?;
    }
    Ok(())
}

/// Asserts that a core with a command in its queue comes back as it was.
fn check_kept(rt: &impl Abort, alloc: Global, core: Core<'_>) {
    match core.carry(alloc) {
        Ok(_) => panic!(rt; "a command was dropped"),
        Err(CarryFault { core, cause }) => {
            same(rt, cause, CarryCause::Queued);
            same(rt, core.queue_len(), 1);
            same(rt, core.queued_at(0), Some(CommandId(0)));
            same(rt, core.queued_at(1), None);
            same(rt, core.trace_len(), 1);
        }
    }
}

#[test]
fn a_waiting_command_is_kept(rt: HostRuntime) -> Result<(), Fail> {
    let row = with_a_command();
    let image = bytes_in(&rt, rt.alloc(), row.image);
    let mut core = opened(&rt, rt.alloc(), image.as_slice());
    check_row(&rt, rt.alloc(), &mut core, &row)?;
    check_kept(&rt, rt.alloc(), core);
    Ok(())
}

/// The codes of the refusals.
#[test]
fn codes_of_causes(rt: HostRuntime) -> Result<(), Fail> {
    for (cause, code) in [(CarryCause::Memory, "L0"), (CarryCause::Queued, "L1")] {
        let told = format!(in rt.alloc(); "{cause}")?;
        same(&rt, told.as_str(), code);
    }
    Ok(())
}
