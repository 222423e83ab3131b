//! Lines of refusals, written in pieces without allocation.

ghost use Rattle.std.specs.Prelude.{◌≡◌, IfErr, OnOk};
ghost use Rattle.ifs_session.specs.Device.{PutGives, HoldsNothing};
ghost use Rattle.ifs_base.specs.FaultTexts.{fault_words, place_words};
ghost use Rattle.ifs_session.specs.Runs.{refusal_words, refused_line};
ghost use Rattle.ifs_session.specs.inner.Opening.{RefuseGives};

use crate::device::{ByteOut, DeviceFault};
use crate::fault::{RunFault, SessionFault};
use crate::words::put_numbered;
use ifs_base::{FaultPlace, FaultText};
use ifs_verify::VerifyFault;

/// Why the image of the first line is refused.
#[derive(Clone, Copy, PartialEq, Eq)]
pub(crate) enum Refusal {
    /// The line is invalid.
    Broken,
    /// The verifier rejects the image.
    NotAccepted(VerifyFault),
    /// An allocation for the image or for the core failed.
    Memory,
}

impl Refusal {
    /// The words of the refusal.
    fn text(self) -> FaultText
        ensures { fault_words result ≡ refusal_words self }
    {
        let code = match self {
            Refusal::Broken => "X1",
            Refusal::NotAccepted(fault) => return fault.text(),
            Refusal::Memory => "V0",
        };
        FaultText {
            code,
            place: FaultPlace::Nowhere,
        }
    }
}

/// Writes and flushes the line of a refusal, and returns its fault. If the write fails, that is the fault.
pub(crate) fn refuse<W: ByteOut>(writer: &mut W, refusal: Refusal) -> RunFault
    ensures { RefuseGives refusal result
        (record { written = W.written writer.old; held = W.held writer.old; faults = W.faults writer.old })
        (record { written = W.written writer.new; held = W.held writer.new; faults = W.faults writer.new }) }
{
    let Ok(()) = put_refused(writer, refusal.text()) else {
        return RunFault::Session(SessionFault::WriteFailed);
    };
    match refusal {
        Refusal::Broken => RunFault::X1,
        Refusal::NotAccepted(fault) => RunFault::Verify(fault),
        Refusal::Memory => RunFault::Memory,
    }
}

/// Writes and flushes the line of a refusal: `refused` and the fault.
///
/// It fails with `SessionFault::WriteFailed` if a write fails. Any part of the line may have gone out then.
pub fn write_refused<W: ByteOut>(fault: FaultText, writer: &mut W) -> Result<(), SessionFault>
    ensures puts { PutGives result (refused_line (fault_words fault)) (W.written writer.old) (W.written writer.new) (W.faults writer.old) (W.faults writer.new) }
    ensures out { OnOk result (HoldsNothing (W.held writer.new)) }
    ensures fault { IfErr result (λ fault. fault ≡ SessionFault.WriteFailed) }
{
    match put_refused(writer, fault) {
        Ok(()) => Ok(()),
        Err(_) => Err(SessionFault::WriteFailed),
    }
}

/// Writes and flushes the line of a refusal.
#[tactic(auto, using(crate::proofs::Known::written_laws))]
fn put_refused<W: ByteOut>(out: &mut W, fault: FaultText) -> Result<(), DeviceFault>
    ensures puts { PutGives result (refused_line (fault_words fault)) (W.written out.old) (W.written out.new) (W.faults out.old) (W.faults out.new) }
    ensures out { OnOk result (HoldsNothing (W.held out.new)) }
{
    out.put(b"refused ")?;
    put_fault_text(out, fault)?;
    out.put(b"\n")?;
    out.flush()?;
    Ok(())
}

/// Writes the code and the place of a fault.
#[tactic(auto, using(crate::proofs::Known::written_laws))]
fn put_fault_text<W: ByteOut>(out: &mut W, fault: FaultText) -> Result<(), DeviceFault>
    ensures { PutGives result (fault_words fault) (W.written out.old) (W.written out.new) (W.faults out.old) (W.faults out.new) }
{
    out.put(fault.code.as_bytes())?;
    put_place(out, fault.place)?;
    Ok(())
}

/// Writes the place of a fault, after its code.
#[tactic(auto, using(crate::proofs::Known::written_laws))]
fn put_place<W: ByteOut>(out: &mut W, place: FaultPlace) -> Result<(), DeviceFault>
    ensures { PutGives result (place_words place) (W.written out.old) (W.written out.new) (W.faults out.old) (W.faults out.new) }
{
    match place {
        FaultPlace::Nowhere => Ok(()),
        FaultPlace::Line(line) => put_numbered(out, b" line ", line),
        FaultPlace::Byte(at) => put_numbered(out, b" byte ", at),
        FaultPlace::Routine(routine) => put_numbered(out, b" routine ", u64::from(routine.0)),
        FaultPlace::Head => out.put(b" head"),
        FaultPlace::State(state) => put_numbered(out, b" state ", u64::from(state.0)),
        FaultPlace::Instruction(routine, place) => {
            put_numbered(out, b" routine ", u64::from(routine.0))?;
            put_numbered(out, b" place ", u64::from(place))?;
            Ok(())
        }
    }
}
