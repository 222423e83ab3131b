//! Readers and writers of bytes.

ghost use Rattle.std.specs.Prelude.{List, [], ℕ, Option, None, OnOk};
ghost use Rattle.ifs_session.specs.Device.{NextGives, ReadyGives, AreAtHand, MaySkip, SkipGives, PutGives};
ghost use Rattle.ifs_session.specs.Device.{HoldsNothing};

use thiserror::Error;

/// A read or a write failed.
#[derive(Clone, Copy, Debug, PartialEq, Eq, Error)]
#[error("the device failed")]
pub struct DeviceFault;

/// A reader of bytes, one at a time.
///
/// A reader may report the bytes that are left, the bytes that can be read without waiting, and its number of failures.
/// It counts failures up to 2^64 - 1.
pub trait ByteIn {
    // The bytes that are left, if they are known.
    ghost left: { Self → Option (List ℕ) } = { λ _. None };

    // The bytes that can be read without waiting, if they are known.
    ghost ready: { Self → Option (List ℕ) } = { λ _. None };

    // The number of reads that failed, if it is known.
    ghost faults: { Self → Option ℕ } = { λ _. None };

    /// Returns the next byte, or `None` at the end of input. A failure loses no byte.
    fn next(&mut self) -> Result<Option<u8>, DeviceFault>
        ensures gives { NextGives result (left self.old) (left self.new) (faults self.old) (faults self.new) }
        ensures at_once { ReadyGives result (ready self.old) (ready self.new) };

    /// Returns the bytes at hand: the first of those that can be read without waiting. Returns none if the reader does not
    /// report them.
    fn peek(&self) -> &[u8]
        ensures { AreAtHand result.now (ready self.now) }
    {
        &[]
    }

    /// Skips `count` bytes that can be read without waiting.
    fn skip(&mut self, count: usize)
        requires { MaySkip count (ready self.old) }
        ensures { SkipGives count (ready self.old) (ready self.new) (left self.old) (left self.new) (faults self.old) (faults self.new) }
    {
        for _ in 0..count {
            let _byte = self.next();
        }
    }
}

/// A writer of bytes.
///
/// A writer may report the bytes written, the bytes that it holds back, and its number of failures. It counts failures up
/// to 2^64 - 1.
pub trait ByteOut {
    // The bytes that were written, if they are known.
    ghost written: { Self → Option (List ℕ) } = { λ _. None };

    // The bytes that were written and are held back, if they are known.
    ghost held: { Self → Option (List ℕ) } = { λ _. None };

    // The number of writes that failed, if it is known.
    ghost faults: { Self → Option ℕ } = { λ _. None };

    /// Writes bytes, which the writer may hold back. After a failure any number of them may have gone out.
    fn put(&mut self, bytes: &[u8]) -> Result<(), DeviceFault>
        ensures { PutGives result bytes.now (written self.old) (written self.new) (faults self.old) (faults self.new) };

    /// Sends out the bytes that are held back.
    fn flush(&mut self) -> Result<(), DeviceFault>
        ensures puts { PutGives result [] (written self.old) (written self.new) (faults self.old) (faults self.new) }
        ensures out { OnOk result (HoldsNothing (held self.new)) };
}
