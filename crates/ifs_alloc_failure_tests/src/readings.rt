//! What a core's readers return.

use crate::allocations::{Code, code_of, no_memory};
use ifs_base::{IfaceId, TestId};
use ifs_core::{Core, OpenFault, Step};
use ifs_verify::verify;
use std::alloc::{AllocError, Global};

/// A core on the image of these bytes.
pub fn opened<'a>(alloc: Global, image: &'a [u8]) -> Result<Core<'a>, Code> {
    match Core::open(alloc, verify(alloc, image).map_err(code_of)?) {
        Ok(core) => Ok(core),
        Err(OpenFault { verified: _ }) => Err(code_of("V0")),
    }
}

/// The readings of a core on the image of these bytes, after these steps.
pub fn readings_after(alloc: Global, image: &[u8], steps: &[Step]) -> Result<Vec<u8>, Code> {
    let mut core = opened(alloc, image)?;
    for step in steps {
        core.step(*step);
    }
    readings(alloc, &core)
}

/// Whether a core has these readings.
pub fn has_readings(alloc: Global, core: &Core<'_>, wanted: Result<Vec<u8>, Code>) -> bool {
    match (readings(alloc, core), wanted) {
        (Ok(found), Ok(wanted)) => found.as_slice() == wanted.as_slice(),
        _ => false,
    }
}

/// The readings of a core: all that its readers return.
pub fn readings(alloc: Global, core: &Core<'_>) -> Result<Vec<u8>, Code> {
    text_of(alloc, core).map_err(no_memory)
}

fn text_of(alloc: Global, core: &Core<'_>) -> Result<Vec<u8>, AllocError> {
    let mut text = String::new(alloc);
    let (state, owed, queued) = (core.state(), core.owed(), core.queue_len());
    let (running, now) = (core.running(), core.now());
    write!(text, "{state:?} {owed} {queued} {running} {now}\n")?;
    put_facts(&mut text, core)?;
    put_trace(&mut text, core)?;
    Ok(text.into_bytes())
}

fn put_facts(text: &mut String, core: &Core<'_>) -> Result<(), AllocError> {
    for index in 0..65 {
        let link = core.link(IfaceId(index));
        let value = core.test_value(TestId(index));
        write!(text, "{link:?} {value:?}\n")?;
    }
    Ok(())
}

fn put_trace(text: &mut String, core: &Core<'_>) -> Result<(), AllocError> {
    for index in 0..core.trace_len() {
        let record = core.trace_at(index);
        write!(text, "{record:?}\n")?;
    }
    Ok(())
}
