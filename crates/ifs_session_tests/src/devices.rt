//! Files over readers that give little at once, are interrupted, and fail.

use crate::checks::{holds, holds_in, same};
use crate::pieces::{NEVER, Pieces};
use ifs_host::files::{FileFault, read_whole};
use ifs_test_images::bytes_of;
use ifs_test_images::images::SMALLEST_IMAGE;
use std::alloc::Global;
use std::io::{self, ErrorKind, Read};
use std::test::Fail;

/// A reader that gives three bytes at most, and is interrupted before each read that gives some. It fails at this read.
fn slow(bytes: &[u8], fails_at: u32) -> Pieces<'_> {
    Pieces {
        left: bytes,
        most: 3,
        reads: 0,
        fails_at,
        kind: ErrorKind::ConnectionReset,
        interrupted: true,
    }
}

/// A file that comes in pieces has every byte.
#[test]
fn files_in_pieces(rt: HostRuntime) -> Result<(), Fail> {
    let bytes = bytes_of(rt.alloc(), SMALLEST_IMAGE)?;
    let Ok(taken) = read_whole(rt.alloc(), slow(bytes.as_slice(), NEVER)) else {
        return Err(Fail::from("a file in pieces"));
    };
    same(&rt, taken.as_slice(), bytes.as_slice());
    Ok(())
}

/// A failed read ends the file with its fault, whatever was read before it. It is not tried again.
#[test]
fn files_cut_off(rt: HostRuntime) {
    for fails_at in 0..12 {
        let fault = read_whole(rt.alloc(), slow(b"sixteen bytes ..", fails_at)).err();
        holds_in(
            &rt,
            fails_at,
            fault.is_some_and(|fault| matches!(fault, FileFault::System(_))),
        );
    }
}

/// A reader whose reads all fail with this error.
#[derive(Drop)]
struct Failing {
    kind: ErrorKind,
}

impl Read for Failing {
    fn read(&mut self, _buffer: &mut [u8]) -> io::Result<usize> {
        Err(io::Error::from(self.kind))
    }
}

/// A file has every byte of its reader.
#[test]
fn whole_files(rt: HostRuntime) -> Result<(), Fail> {
    let Ok(short) = read_whole(rt.alloc(), b"IFSV".as_slice()) else {
        return Err(Fail::from("a short file"));
    };
    same(&rt, short.as_slice(), b"IFSV".as_slice());
    Ok(())
}

/// A file may have bytes up to the limit, and one more is refused.
#[test]
fn longest_files(rt: HostRuntime) {
    let longest = read_whole(rt.alloc(), io::repeat(b'x').take(16_777_216));
    holds(&rt, longest.is_ok_and(|bytes| bytes.len() == 16_777_216));
    let longer = read_whole(rt.alloc(), io::repeat(b'x').take(16_777_217));
    holds(
        &rt,
        longer.is_err_and(|fault| matches!(fault, FileFault::TooLarge)),
    );
}

/// The fault of a reader whose reads all fail with this error.
fn fault_of(alloc: Global, kind: ErrorKind) -> Option<FileFault> {
    read_whole(alloc, Failing { kind }).err()
}

/// The fault of a failed read is the system's own. A failed allocation has another one.
#[test]
fn failing_files(rt: HostRuntime) {
    let closed = fault_of(rt.alloc(), ErrorKind::BrokenPipe);
    holds(
        &rt,
        closed.is_some_and(|fault| matches!(fault, FileFault::System(_))),
    );
    let starved = fault_of(rt.alloc(), ErrorKind::OutOfMemory);
    holds(
        &rt,
        starved.is_some_and(|fault| matches!(fault, FileFault::Memory)),
    );
}
