//! A core on the largest image. Only an allocation can fail.

use crate::checks::{holds, same};
use ifs_asm::assemble;
use ifs_base::{IfaceId, LinkState, StateId};
use ifs_core::{Core, Reply, Step};
use ifs_image::{Image, write};
use ifs_test_images::{LARGEST_BYTES, largest_listing};
use ifs_verify::{Verified, verify};
use std::alloc::Global;
use std::process::Abort;
use std::test::Fail;

fn written(alloc: Global, image: &Image) -> Result<Vec<u8>, Fail> {
    Ok(write(alloc, image)?)
}

/// The bytes of the image that a text spells.
pub(crate) fn bytes_in(alloc: Global, text: &str) -> Result<Vec<u8>, Fail> {
    let image = assemble(alloc, text)?;
    written(alloc, &image)
}

fn opened<'a>(alloc: Global, verified: Verified<'a>) -> Result<Core<'a>, Fail> {
    match Core::open(alloc, verified) {
        Ok(core) => Ok(core),
        Err(_) => Err(Fail::from("no core")),
    }
}

/// Asserts that its last state is the initial one, and that its last interface can change.
fn check_core(rt: &impl Abort, core: &mut Core<'_>) {
    same(rt, core.state(), StateId(255));
    let reply = core.step(Step::Link(IfaceId(63), LinkState::Up));
    holds(
        rt,
        matches!(
            reply,
            Reply::Done {
                state: StateId(255),
                ..
            }
        ),
    );
    same(rt, core.link(IfaceId(63)), Some(LinkState::Up));
}

fn check_opened(rt: &impl Abort, alloc: Global, bytes: &[u8]) -> Result<(), Fail> {
    let verified = verify(alloc, bytes)?;
    let mut core = opened(alloc, verified)?;
    check_core(rt, &mut core);
    Ok(())
}

#[test]
fn opens_the_largest_image(rt: HostRuntime) -> Result<(), Fail> {
    let text = largest_listing(rt.alloc())?;
    let bytes = bytes_in(rt.alloc(), text.as_str())?;
    same(&rt, bytes.len(), LARGEST_BYTES);
    check_opened(&rt, rt.alloc(), bytes.as_slice())
}
