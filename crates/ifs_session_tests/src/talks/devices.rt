//! Devices: what readers and writers pass on, and when replies go out.

ghost use Rattle.std.specs.Prelude.{Some};

use super::{BROKEN, first_replies, input_of, row_input};
use crate::checks::{holds, holds_in, same, same_in};
use crate::pieces::{NEVER, Pieces};
use ifs_session::{
    ByteIn, ByteOut, DeviceFault, FromRead, RunFault, SessionFault, ToWrite, run_hex,
};
use ifs_test_images::sessions;
use std::alloc::{AllocError, Global};
use std::cell::Cell;
use std::io::{self, ErrorKind, Write};
use std::process::Abort;
use std::test::Fail;

/// `count` bytes. No two neighbours are the same, nor two at the distance of a buffer.
fn pattern(alloc: Global, count: u32) -> Result<Vec<u8>, AllocError> {
    let mut bytes = Vec::new(alloc);
    for index in 0..count {
        bytes.push((index % 251) as u8)?;
    }
    Ok(bytes)
}

/// How many bytes a read gives at most, which read fails and how, and how often the reader fails.
const READERS: [(&str, usize, u32, ErrorKind, u32); 6] = [
    ("whole buffers", 65_536, NEVER, ErrorKind::Other, 0),
    (
        "a byte less than a buffer",
        65_535,
        NEVER,
        ErrorKind::Other,
        0,
    ),
    ("single bytes", 1, NEVER, ErrorKind::Other, 0),
    (
        "interrupted between buffers",
        65_536,
        1,
        ErrorKind::Interrupted,
        0,
    ),
    ("failing at once", 65_536, 0, ErrorKind::Other, 1),
    ("failing between buffers", 65_536, 2, ErrorKind::Other, 1),
];

/// Asserts that a reader gives these bytes in order, and then the end. Returns how often it fails.
fn failures_of(rt: &impl Abort, name: &str, input: &mut FromRead<Pieces<'_>>, bytes: &[u8]) -> u32 {
    let mut failed: u32 = 0;
    for byte in bytes {
        let mut next = input.next();
        if next == Err(DeviceFault) {
            failed = failed.saturating_add(1);
            next = input.next();
        }
        same_in(rt, name, next, Ok(Some(*byte)));
    }
    same_in(rt, name, input.next(), Ok(None));
    same_in(rt, name, input.next(), Ok(None));
    failed
}

/// Each byte comes in order over several buffers. A failed read is reported once, and is not the end of input.
#[test]
fn bytes_over_several_buffers(rt: HostRuntime) -> Result<(), Fail> {
    let bytes = pattern(rt.alloc(), 150_000)?;
    for (name, most, fails_at, kind, failures) in READERS {
        let mut input = FromRead::new(Pieces {
            left: bytes.as_slice(),
            most,
            reads: 0,
            fails_at,
            kind,
            interrupted: false,
        });
        let failed = failures_of(&rt, name, &mut input, bytes.as_slice());
        same_in(&rt, name, failed, failures);
    }
    Ok(())
}

/// The bytes at hand are those of the buffer, and the ones that are taken are not given again.
#[test]
fn bytes_at_hand(rt: HostRuntime) -> Result<(), Fail> {
    let mut input = FromRead::new(b"abcdef".as_slice());
    holds(&rt, input.peek().is_empty());
    same(&rt, input.next(), Ok(Some(b'a')));
    same(&rt, input.peek(), b"bcdef".as_slice());
    if input.peek().len() >= 2 {
        input.skip(2);
    }
    same(&rt, input.next(), Ok(Some(b'd')));
    same(&rt, input.peek(), b"ef".as_slice());
    Ok(())
}

/// A reader that takes no bytes at once takes them one by one.
#[test]
fn bytes_taken_one_by_one(rt: HostRuntime) -> Result<(), Fail> {
    let shown = Cell::new(0);
    let mut input = Waiting {
        ready: b"abc",
        later: b"",
        lengths: &[],
        shown: &shown,
        late: 0,
    };
    if input.peek().len() >= 2 {
        input.skip(2);
    }
    same(&rt, input.next(), Ok(Some(b'c')));
    Ok(())
}

/// A writer of std that takes at most seven bytes at each write. It keeps them, and a 0 for each flush. It fails if `fails` is set.
#[derive(Drop)]
struct Log {
    bytes: Vec<u8>,
    fails: bool,
}

impl Write for Log {
    fn write(&mut self, bytes: &[u8]) -> io::Result<usize> {
        if self.fails {
            return Err(io::Error::from(ErrorKind::Other));
        }
        let count = bytes.len().min(7);
        self.bytes.extend_from_slice(&bytes[..count])?;
        Ok(count)
    }

    fn flush(&mut self) -> io::Result<()> {
        if self.fails {
            return Err(io::Error::from(ErrorKind::Other));
        }
        self.bytes.push(0)?;
        Ok(())
    }
}

/// Each byte goes out in order, and a flush is passed on after it.
#[test]
fn writes_and_flushes(rt: HostRuntime) -> Result<(), Fail> {
    let bytes = pattern(rt.alloc(), 200)?;
    let mut log = Log {
        bytes: Vec::new(rt.alloc()),
        fails: false,
    };
    let mut output = ToWrite::new(&mut log);
    same(&rt, output.put(bytes.as_slice()), Ok(()));
    same(&rt, output.flush(), Ok(()));
    same(&rt, log.bytes.strip_suffix(&[0]), Some(bytes.as_slice()));
    Ok(())
}

/// A failed write or flush is reported.
#[test]
fn failing_writes(rt: HostRuntime) {
    let mut log = Log {
        bytes: Vec::new(rt.alloc()),
        fails: true,
    };
    let mut output = ToWrite::new(&mut log);
    same(&rt, output.put(b"x"), Err(DeviceFault));
    same(&rt, output.flush(), Err(DeviceFault));
}

/// A session over the devices of std. A failed read is S1, after the replies to the lines before it.
#[test]
fn a_failed_read_ends_the_session(rt: HostRuntime) -> Result<(), Fail> {
    let row = sessions::first_run();
    let bytes = row_input(rt.alloc(), row)?;
    let mut log = Vec::new(rt.alloc());
    let answer = run_hex(
        rt.alloc(),
        &mut FromRead::new(Pieces {
            left: bytes.as_slice(),
            most: bytes.len().saturating_sub(row.requests.len() / 2),
            reads: 0,
            fails_at: 1,
            kind: ErrorKind::Other,
            interrupted: false,
        }),
        &mut ToWrite::new(&mut log),
    );
    same(
        &rt,
        answer,
        Err(RunFault::Session(SessionFault::ReadFailed)),
    );
    same(
        &rt,
        log.as_slice(),
        first_replies(rt.alloc(), row, 1)?.as_bytes(),
    );
    Ok(())
}

/// A writer that holds back all that it is given until it is flushed. It shows how much it holds.
#[derive(Drop)]
struct Holding<'a> {
    gone: Vec<u8>,
    held: Vec<u8>,
    shown: &'a Cell<usize>,
    flushes: u32,
}

impl<'a> Holding<'a> {
    fn new(alloc: Global, shown: &'a Cell<usize>) -> Self {
        Holding {
            gone: Vec::new(alloc),
            held: Vec::new(alloc),
            shown,
            flushes: 0,
        }
    }
}

impl ByteOut for Holding<'_> {
    fn put(&mut self, bytes: &[u8]) -> Result<(), DeviceFault> {
        self.held.extend_from_slice(bytes).map_err(|_| DeviceFault)?;
        self.shown.set(self.held.len());
        Ok(())
    }

    fn flush(&mut self) -> Result<(), DeviceFault> {
        let held = self.held.as_slice();
        self.gone.extend_from_slice(held).map_err(|_| DeviceFault)?;
        self.held.clear();
        self.shown.set(0);
        self.flushes = self.flushes.saturating_add(1);
        Ok(())
    }
}

/// Asserts that these lines have gone out, and that nothing is held back.
fn check_gone(rt: &impl Abort, output: &Holding<'_>, lines: &str, name: &str) {
    same_in(rt, name, output.gone.as_slice(), lines.as_bytes());
    holds_in(rt, name, output.held.is_empty());
}

/// A reader whose bytes come in pieces of these lengths, and then the rest. It waits for each piece. It counts the waits at which
/// the writer holds something back.
#[derive(Drop)]
struct Waiting<'a> {
    ready: &'a [u8],
    later: &'a [u8],
    lengths: &'a [usize],
    shown: &'a Cell<usize>,
    late: u32,
}

impl Waiting<'_> {
    /// Waits for the next piece, and gives its first byte.
    fn wait(&mut self) -> Option<u8> {
        if self.shown.get() > 0 {
            self.late = self.late.saturating_add(1);
        }
        let length = match self.lengths {
            [] => self.later.len(),
            [length, others @ ..] => {
                self.lengths = others;
                self.later.len().min(*length)
            }
        };
        self.ready = &self.later[..length];
        self.later = &self.later[length..];
        let [byte, ready @ ..] = self.ready else {
            return None;
        };
        self.ready = ready;
        Some(*byte)
    }
}

impl ByteIn for Waiting<'_> {
    ghost ready = { λ s. Some s.ready.now };

    fn next(&mut self) -> Result<Option<u8>, DeviceFault> {
        match self.ready {
            [] => Ok(self.wait()),
            [byte, rest @ ..] => {
                self.ready = rest;
                Ok(Some(*byte))
            }
        }
    }

    fn peek(&self) -> &[u8] {
        self.ready
    }
}

/// How the requests of a row come after its image, in pieces of these lengths and the rest, and how
/// often the writer is flushed.
const COMINGS: [(&str, &[usize], u32); 3] = [
    ("one by one", &[14, 14, 5, 5, 5], 6),
    ("all at once", &[], 2),
    ("cut within lines", &[16, 16, 8], 5),
];

/// Asserts how the replies to a row's requests go out, if the requests come so after the line of its image.
fn check_coming(rt: &impl Abort, alloc: Global, image: &[u8], coming: (&str, &[usize], u32)) {
    let row = sessions::first_run();
    let (name, lengths, flushes) = coming;
    let shown = Cell::new(0);
    let mut input = Waiting {
        ready: image,
        later: row.requests.as_bytes(),
        lengths,
        shown: &shown,
        late: 0,
    };
    let mut output = Holding::new(alloc, &shown);
    let answer = run_hex(alloc, &mut input, &mut output);
    holds_in(rt, name, answer.is_ok());
    same_in(rt, name, input.late, 0);
    same_in(rt, name, output.flushes, flushes);
    check_gone(rt, &output, row.replies, name);
}

/// No reply is held back while a session waits for a byte, nor at the end. Lines that are ready are served without a flush between
/// them.
#[test]
fn replies_go_out_before_a_wait(rt: HostRuntime) -> Result<(), Fail> {
    let image = input_of(rt.alloc(), sessions::first_run().image, "")?;
    for coming in COMINGS {
        check_coming(&rt, rt.alloc(), image.as_slice(), coming);
    }
    Ok(())
}

/// The line of a refusal has gone out.
#[test]
fn refusals_go_out(rt: HostRuntime) {
    for (line, refusal) in BROKEN {
        let shown = Cell::new(0);
        let mut input = FromRead::new(line.as_bytes());
        let mut output = Holding::new(rt.alloc(), &shown);
        let answer = run_hex(rt.alloc(), &mut input, &mut output);
        holds_in(&rt, line, answer.is_err());
        check_gone(&rt, &output, refusal, line);
    }
}
