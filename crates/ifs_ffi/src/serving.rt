//! Sessions on an image.

ghost use Rattle.std.specs.Prelude.{◌≡◌, ◌≢◌, ◌≤◌, ◌<◌, length, take, IfOk, IfErr};
ghost use Rattle.ifs_file_commands.specs.Answers.{AreAccepted};
ghost use Rattle.ifs_core.specs.Event.{Behaviour};
ghost use Rattle.ifs_core.specs.Machine.{IsBehaviour};
ghost use Rattle.ifs_ffi.specs.declared.serving.OpenFault.TheVariants as opening;
ghost use Rattle.ifs_ffi.specs.Sessions.{IsSession, Talks};
ghost use Rattle.ifs_session.specs.Runs.{OpensImage};

use crate::buffers::fill;
use crate::status::{OUT_OF_MEMORY, REFUSED, TOO_LONG};
use ifs_core::Core;
use ifs_session::{MemoryIn, MemoryOut, SessionFault, simulate};
use ifs_verify::{VerifyFault, verify};
use std::alloc::Global;

/// Why an image is not opened.
#[derive(Clone, Copy)]
enum OpenFault {
    /// The verifier rejects it.
    Refused,
    /// An allocation failed.
    Memory,
}

/// Opens an image, serves request lines as `sim` does, and gives the replies. The requests go on to the end, or to `stop`.
///
/// Statuses: 0 all lines are served, 1 the image is refused, 2 an allocation failed, 3 the buffer is too short, 6 the requests have
/// more than 16,777,216 bytes. `size` is set to the length of the replies. With the statuses 1, 2 and 6 nothing is written.
#[unsafe(no_mangle)]
pub extern "C" fn ifs_page_session(
    alloc: Global,
    image: &[u8],
    requests: &[u8],
    replies: &mut [u8],
    size: &mut usize,
) -> u32
    ensures status { result ≤ 6 }
    // The image is accepted, and the replies are those of a session from its opening on.
    ensures served { result ≡ 0 → IsSession image.now requests.now (take size.new replies.new) }
    ensures refused { result ≡ 1 → ¬ AreAccepted image.now }
    ensures fits { result ≡ 0 → size.new ≤ length replies.new }
    ensures short { result ≡ 3 → length replies.new < size.new }
{
    match opened(alloc, image) {
        Ok(mut core) => talk(alloc, &mut core, requests, replies, size),
        Err(OpenFault::Refused) => REFUSED,
        Err(OpenFault::Memory) => OUT_OF_MEMORY,
    }
}

/// Opens the image that bytes spell.
fn opened<'a>(alloc: Global, image: &'a [u8]) -> Result<Core<'a>, OpenFault>
    ensures opens { IfOk result (OpensImage image.now) }
    ensures refused { IfErr result (λ fault. fault ≡ opening.Refused → ¬ AreAccepted image.now) }
{
    match verify(alloc, image) {
        Ok(verified) => match Core::open(alloc, verified) {
            Ok(core) => Ok(core),
            Err(_) => Err(OpenFault::Memory),
        },
        Err(VerifyFault::OutOfMemory) => Err(OpenFault::Memory),
        Err(_) => Err(OpenFault::Refused),
    }
}

/// Serves request lines on a core, and gives the replies.
fn talk(
    alloc: Global,
    core: &mut Core<'_>,
    requests: &[u8],
    replies: &mut [u8],
    size: &mut usize,
) -> u32
    ensures status { (result ≤ 6) × (result ≢ 1) }
    ensures served { result ≡ 0 → Talks core.old requests.now (take size.new replies.new) }
    ensures fits { result ≡ 0 → size.new ≤ length replies.new }
    ensures short { result ≡ 3 → length replies.new < size.new }
{
    let mut reader = MemoryIn::new(requests);
    let mut writer = MemoryOut::new(alloc);
    match simulate(core, &mut reader, &mut writer) {
        Ok(_summary) => fill(writer.written(), replies, size),
        Err(SessionFault::TooMuchInput) => TOO_LONG,
        Err(SessionFault::ReadFailed | SessionFault::WriteFailed) => OUT_OF_MEMORY,
    }
}
