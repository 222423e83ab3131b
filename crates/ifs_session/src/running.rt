//! Runs of an image that is the first line of the input.

ghost use Rattle.std.specs.Prelude.{◌≡◌, Ok};
ghost use Rattle.ifs_session.specs.inner.Opening.{ImageGives, LineGives};
ghost use Rattle.ifs_session.specs.Device.{Feed};
ghost use Rattle.ifs_session.specs.Hexadecimal.{HexGives};
ghost use Rattle.ifs_session.specs.Runs.{RunGives};

use crate::device::{ByteIn, ByteOut};
use crate::fault::{RunFault, SessionFault};
use crate::hexadecimal::{HexFault, hex_line};
use crate::refusal::{Refusal, refuse};
use crate::session::{Summary, simulate};
use ifs_base::Items;
use ifs_core::Core;
use ifs_verify::verify;
use std::alloc::Global;

/// Why the first line cannot be read as bytes.
#[derive(Clone, Copy, PartialEq, Eq)]
pub(crate) enum Unopened {
    /// The line is refused.
    Refused(Refusal),
    /// A read failed.
    NotRead,
}

/// Runs the image of the first line of the input, and then serves request lines as `simulate` does. The first line is an
/// even number of at most 131,072 lower-case hexadecimal digits. It does not count toward the bytes of requests.
///
/// An invalid first line is refused at its first invalid byte, and nothing after that byte is read. An image that the
/// verifier rejects is refused too. If an allocation for the image fails, it is refused as well. A refusal writes its
/// line. If that write fails, the fault is S2.
pub fn run_hex<R: ByteIn, W: ByteOut>(
    alloc: Global,
    reader: &mut R,
    writer: &mut W,
) -> Result<Summary, RunFault>
    ensures { RunGives result
        (record {
          feed = record { left = R.left reader.old; faults = R.faults reader.old };
          sink = record { written = W.written writer.old; held = W.held writer.old; faults = W.faults writer.old };
        })
        (record {
          feed = record { left = R.left reader.new; faults = R.faults reader.new };
          sink = record { written = W.written writer.new; held = W.held writer.new; faults = W.faults writer.new };
        }) }
{
    match bytes_of_line(alloc, reader) {
        Err(Unopened::Refused(refusal)) => {
            let told = refuse(writer, refusal);
            Err(told)
        }
        Err(Unopened::NotRead) => Err(RunFault::Session(SessionFault::ReadFailed)),
        Ok(bytes) => run_image(alloc, bytes.as_slice(), reader, writer),
    }
}

/// The bytes that the first line spells.
fn bytes_of_line<R: ByteIn>(alloc: Global, reader: &mut R) -> Result<Items<u8>, Unopened>
    ensures { LineGives result
        (record { left = R.left reader.old; faults = R.faults reader.old })
        (record { left = R.left reader.new; faults = R.faults reader.new }) }
{
    match hex_line(alloc, reader) {
        Ok(bytes) => Ok(bytes),
        Err(HexFault::Broken) => Err(Unopened::Refused(Refusal::Broken)),
        Err(HexFault::Memory) => Err(Unopened::Refused(Refusal::Memory)),
        Err(HexFault::NotRead) => Err(Unopened::NotRead),
    }
}

/// Runs the image that bytes spell on the request lines after the first line.
fn run_image<R: ByteIn, W: ByteOut>(
    alloc: Global,
    bytes: &[u8],
    reader: &mut R,
    writer: &mut W,
) -> Result<Summary, RunFault>
    ensures { (before : Feed) → HexGives (Ok bytes.now) before (record { left = R.left reader.old; faults = R.faults reader.old })
        → RunGives result
        (record {
          feed = before;
          sink = record { written = W.written writer.old; held = W.held writer.old; faults = W.faults writer.old };
        })
        (record {
          feed = record { left = R.left reader.new; faults = R.faults reader.new };
          sink = record { written = W.written writer.new; held = W.held writer.new; faults = W.faults writer.new };
        }) }
{
    match open_image(alloc, bytes) {
        Err(refusal) => {
            let told = refuse(writer, refusal);
            Err(told)
        }
        Ok(mut core) => match simulate(&mut core, reader, writer) {
            Ok(summary) => Ok(summary),
            Err(fault) => Err(RunFault::Session(fault)),
        },
    }
}

/// Opens the image that bytes spell.
fn open_image<'a>(alloc: Global, bytes: &'a [u8]) -> Result<Core<'a>, Refusal>
    ensures { ImageGives bytes.now result }
{
    match verify(alloc, bytes) {
        Err(fault) => Err(Refusal::NotAccepted(fault)),
        Ok(verified) => match Core::open(alloc, verified) {
            Ok(core) => Ok(core),
            Err(_) => Err(Refusal::Memory),
        },
    }
}
