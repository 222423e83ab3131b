//! Devices over readers and writers of std.

ghost use Rattle.std.specs.Prelude.{◌≡◌, ℕ, ◌≤◌, [], ◌∷◌, length, None, Some, MatchOption, IfOk, OnOk, OnErr};
ghost use Rattle.std.specs.Io.KnownBytes.{Keeps, IsAtEnd, ReadConsumes};
ghost use Rattle.ifs_session.specs.Device.{NextGives};

use crate::device::{ByteIn, ByteOut, DeviceFault};
use std::io::{ErrorKind, Read, Write};

/// The most bytes of one read.
const BUFFER: usize = 65_536;

/// The most tries of a read that is interrupted.
const TRIES: u32 = 1000;

/// A reader of bytes over a reader of std, with a buffer of 65,536 bytes. The bytes in its buffer can be read without
/// waiting. It reports the bytes that are left if the reader of std does.
#[derive(Debug, Drop)]
pub struct FromRead<R> {
    reader: R,
    buffer: [u8; BUFFER],
    start: usize,
    end: usize,
    ghost within: { (start ≤ end) × (end ≤ 65536) },
}

impl<R: Read> FromRead<R> {
    ghost use Rattle.ifs_session.specs.Buffer.{buffered, left_over};

    /// A reader over `reader`, with an empty buffer.
    pub fn new(reader: R) -> Self
        ensures buffer { buffered result ≡ [] }
        ensures left { left_over R.remaining result ≡ R.remaining reader }
    {
        FromRead {
            reader,
            buffer: [0; BUFFER],
            start: 0,
            end: 0,
        }
    }

    /// The bytes in the buffer.
    fn buffered(&self) -> &[u8]
        ensures { result.now ≡ buffered self.now }
    {
        &self.buffer[self.start..self.end]
    }

    /// Removes the first byte of the buffer, if there is one.
    fn pop(&mut self) -> Option<u8>
        ensures gives { MatchOption result ((buffered self.old ≡ []) × (buffered self.new ≡ [])) (λ byte. buffered self.old ≡ byte ∷ buffered self.new) }
        ensures reader { self.new.reader ≡ self.old.reader }
    {
        if self.start == self.end {
            return None;
        }
        let byte = self.buffer[self.start];
        self.start += 1;
        Some(byte)
    }

    /// Fills the empty buffer, and returns its first byte. It is a function of its own to keep `next` short.
    #[cold]
    #[inline(never)]
    fn refilled(&mut self) -> Result<Option<u8>, DeviceFault>
        requires { buffered self.old ≡ [] }
        ensures { NextGives result (left_over R.remaining self.old) (left_over R.remaining self.new) None None }
    {
        self.fill()?;
        Ok(self.pop())
    }

    /// Fills the empty buffer by one read.
    fn fill(&mut self) -> Result<(), DeviceFault>
        requires { buffered self.old ≡ [] }
        ensures kept { Keeps (left_over R.remaining self.old) (left_over R.remaining self.new) }
        ensures end { OnOk result (buffered self.new ≡ [] → IsAtEnd (left_over R.remaining self.new)) }
        ensures failed { OnErr result (buffered self.new ≡ []) }
    {
        let count = read_some(&mut self.reader, &mut self.buffer)?;
        self.start = 0;
        self.end = count;
        Ok(())
    }
}

/// Reads into a buffer. A read that is interrupted is tried again, up to 1,000 times in all.
fn read_some<R: Read>(reader: &mut R, buffer: &mut [u8; BUFFER]) -> Result<usize, DeviceFault>
    ensures within { IfOk result (λ count. count ≤ BUFFER) }
    ensures bytes { ReadConsumes (R.remaining reader.old) (R.remaining reader.new) result buffer.new }
    ensures length { length buffer.new ≡ BUFFER }
{
    for _ in 0..TRIES {
        match reader.read(buffer) {
            Ok(count) => return Ok(count),
            Err(error) if error.kind() == ErrorKind::Interrupted => {}
            Err(_) => return Err(DeviceFault),
        }
    }
    Err(DeviceFault)
}

impl<R: Read> ByteIn for FromRead<R> {
    ghost use Rattle.ifs_session.specs.Buffer.{buffered, left_over};

    ghost left = { left_over R.remaining };

    ghost ready = { λ r. Some (buffered r) };

    fn next(&mut self) -> Result<Option<u8>, DeviceFault> {
        if let Some(byte) = self.pop() {
            return Ok(Some(byte));
        }
        self.refilled()
    }

    fn peek(&self) -> &[u8] {
        self.buffered()
    }

    fn skip(&mut self, count: usize) {
        self.start += count;
    }
}

/// A writer of bytes over a writer of std. It has no buffer, and reports nothing.
#[derive(Debug, Drop)]
pub struct ToWrite<W> {
    writer: W,
}

impl<W: Write> ToWrite<W> {
    /// A writer over `writer`.
    pub fn new(writer: W) -> Self {
        ToWrite { writer }
    }
}

impl<W: Write> ByteOut for ToWrite<W> {
    fn put(&mut self, bytes: &[u8]) -> Result<(), DeviceFault> {
        self.writer.write_all(bytes).map_err(|_| DeviceFault)
    }

    fn flush(&mut self) -> Result<(), DeviceFault> {
        self.writer.flush().map_err(|_| DeviceFault)
    }
}
