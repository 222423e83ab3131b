//! Sessions as bytes in and bytes out, on the worked rows.

mod devices;
mod order;
mod reloads;
mod serving;

use crate::checks::{holds, holds_in, same, same_in};
use ifs_session::{
    ByteIn, DeviceFault, FromRead, MemoryIn, MemoryOut, RequestFault, RunFault, SessionFault,
    Summary, ToWrite, run_hex,
};
use ifs_test_images::{Row, digits_of, images, sessions};
use linked_list_allocator::LocalHeap;
use std::alloc::{AllocError, Global};
use std::fmt::Display;
use std::io::{self, ErrorKind, Read};
use std::process::Abort;
use std::test::Fail;

/// The bytes of an image's line and of the requests after it.
fn input_of(alloc: Global, image: &str, requests: &str) -> Result<Vec<u8>, AllocError> {
    let mut input = digits_of(alloc, image)?;
    input.extend_from_slice(b"\n")?;
    input.extend_from_slice(requests.as_bytes())?;
    Ok(input)
}

/// The summary and the output of a run on these bytes. Its lines are read byte by byte.
fn run_bytewise(alloc: Global, input: &[u8]) -> Result<(Summary, Vec<u8>), Fail> {
    let mut output = MemoryOut::new(alloc);
    let summary = run_hex(alloc, &mut MemoryIn::new(input), &mut output)?;
    let mut written = Vec::new(alloc);
    written.extend_from_slice(output.written())?;
    Ok((summary, written))
}

/// The same over devices of std, with whole lines borrowed from the buffer.
fn run_buffered(alloc: Global, input: &[u8]) -> Result<(Summary, Vec<u8>), Fail> {
    let mut written = Vec::new(alloc);
    let summary = run_hex(
        alloc,
        &mut FromRead::new(input),
        &mut ToWrite::new(&mut written),
    )?;
    Ok((summary, written))
}

fn check_stopped_talk(rt: &impl Abort, (summary, written): (Summary, Vec<u8>)) {
    let row = sessions::first_run();
    same(rt, written.as_slice(), row.replies.as_bytes());
    same(rt, summary.stopped, row.requests.ends_with("stop\n"));
}

/// The first run has its replies, whether its lines are read byte by byte or borrowed.
#[test]
fn first_run(rt: HostRuntime) -> Result<(), Fail> {
    let input = row_input(rt.alloc(), sessions::first_run())?;
    check_stopped_talk(&rt, run_bytewise(rt.alloc(), input.as_slice())?);
    check_stopped_talk(&rt, run_buffered(rt.alloc(), input.as_slice())?);
    Ok(())
}

/// An image and requests after `stop`.
fn stopping(alloc: Global) -> Result<Vec<u8>, AllocError> {
    input_of(
        alloc,
        images::FIRST_RUN,
        "link carp0 up\nwhat\nstop\ntake\n",
    )
}

fn check_stopped(rt: &impl Abort, summary: Summary, left: &[u8]) {
    let expected = Summary {
        requests: 3,
        steps: 1,
        stopped: true,
    };
    same(rt, summary, expected);
    same(rt, left, b"take\n".as_slice());
}

fn summary_of(alloc: Global, input: &mut impl ByteIn) -> Result<Summary, Fail> {
    let mut output = MemoryOut::new(alloc);
    Ok(run_hex(alloc, input, &mut output)?)
}

/// A session reads nothing after `stop`, whether its lines are read byte by byte or borrowed.
#[test]
fn what_follows_stop_is_left(rt: HostRuntime) -> Result<(), Fail> {
    let bytes = stopping(rt.alloc())?;
    let mut input = MemoryIn::new(bytes.as_slice());
    let summary = summary_of(rt.alloc(), &mut input)?;
    check_stopped(&rt, summary, input.left());
    let mut buffered = FromRead::new(bytes.as_slice());
    let summary = summary_of(rt.alloc(), &mut buffered)?;
    check_stopped(&rt, summary, buffered.peek());
    Ok(())
}

/// The bytes of a row's image and requests.
fn row_input(alloc: Global, row: Row) -> Result<Vec<u8>, AllocError> {
    input_of(alloc, row.image, row.requests)
}

/// The replies to the first `count` requests of a row. Each has one line.
fn first_replies(alloc: Global, row: Row, count: usize) -> Result<String, AllocError> {
    let mut replies = String::new(alloc);
    for reply in row.replies.lines().take(count) {
        replies.push_str(reply)?;
        replies.push_str("\n")?;
    }
    Ok(replies)
}

/// Whether a run reports that the read after `calls` calls fails, and has written these replies.
fn breaks_reading(alloc: Global, bytes: &[u8], calls: u64, replies: &str) -> bool {
    let mut output = MemoryOut::new(alloc);
    let answer = run_hex(
        alloc,
        &mut MemoryIn::failing_after(bytes, calls),
        &mut output,
    );
    answer == Err(RunFault::Session(SessionFault::ReadFailed))
        && output.written() == replies.as_bytes()
}

/// Each read fails in turn. The replies to the lines that were complete by then have been written.
#[test]
fn each_read_fails_in_turn(rt: HostRuntime) -> Result<(), Fail> {
    let bytes = row_input(rt.alloc(), sessions::first_run())?;
    let mut lines: usize = 0;
    for (calls, byte) in bytes.iter().enumerate() {
        let replies = first_replies(rt.alloc(), sessions::first_run(), lines.saturating_sub(1))?;
        let is_so = breaks_reading(rt.alloc(), bytes.as_slice(), calls as u64, replies.as_str());
        holds_in(&rt, calls, is_so);
        if *byte == b'\n' {
            lines = lines.saturating_add(1);
        }
    }
    Ok(())
}

/// Asserts the result of a run whose write after `calls` calls fails. Returns whether there was such a write.
fn check_cut(
    rt: &impl Abort,
    answer: Result<Summary, RunFault>,
    written: &[u8],
    calls: u64,
) -> bool {
    let replies = sessions::first_run().replies;
    holds_in(rt, calls, replies.as_bytes().starts_with(written));
    if answer.is_ok() {
        return false;
    }
    let fault = RunFault::Session(SessionFault::WriteFailed);
    same_in(rt, calls, answer, Err(fault));
    true
}

/// Each write fails in turn. The output is a prefix of the replies.
#[test]
fn each_write_fails_in_turn(rt: HostRuntime) -> Result<(), Fail> {
    let bytes = row_input(rt.alloc(), sessions::first_run())?;
    for calls in 0..100 {
        let mut input = MemoryIn::new(bytes.as_slice());
        let mut output = MemoryOut::failing_after(rt.alloc(), calls);
        let answer = run_hex(rt.alloc(), &mut input, &mut output);
        if !check_cut(&rt, answer, output.written(), calls) {
            holds_in(&rt, calls, calls > 5);
            return Ok(());
        }
    }
    holds_in(&rt, "some call is past the last", false);
    Ok(())
}

/// Asserts that the first reply was written and not all of them.
fn check_first_written(rt: &impl Abort, alloc: Global, written: &[u8]) -> Result<(), AllocError> {
    let first = first_replies(alloc, sessions::first_run(), 1)?;
    let all = sessions::first_run().replies;
    holds(rt, written.starts_with(first.as_bytes()));
    holds(rt, all.as_bytes().starts_with(written));
    holds(rt, written.len() < all.len());
    Ok(())
}

/// A heap has room for the first reply and not for all. Its failed allocation is a failed write.
#[test]
fn growth_refused(rt: HostRuntime) -> Result<(), Fail> {
    let heap = LocalHeap::new(rt.alloc(), 64)?;
    let bytes = row_input(rt.alloc(), sessions::first_run())?;
    let mut input = MemoryIn::new(bytes.as_slice());
    let mut output = MemoryOut::new(&heap);
    let answer = run_hex(rt.alloc(), &mut input, &mut output);
    same(
        &rt,
        answer,
        Err(RunFault::Session(SessionFault::WriteFailed)),
    );
    check_first_written(&rt, rt.alloc(), output.written())?;
    Ok(())
}

/// Lines that break their rule or end with the input, and what is written.
const BROKEN: [(&str, &str); 7] = [
    ("494\n", "refused X1\n"),
    ("", "refused I1 byte 0\n"),
    ("\n", "refused I1 byte 0\n"),
    ("4", "refused X1\n"),
    ("4A\n", "refused X1\n"),
    ("49\r\n", "refused X1\n"),
    ("49465356", "refused I1 byte 4\n"),
];

/// Whether a line is refused and this is written, if it is read byte by byte and if it is borrowed.
fn is_refused(alloc: Global, line: &[u8], answer: &str) -> bool {
    let mut input = MemoryIn::new(line);
    let mut output = MemoryOut::new(alloc);
    let bytewise = run_hex(alloc, &mut input, &mut output).is_err();
    let mut buffered = FromRead::new(line);
    let mut other = MemoryOut::new(alloc);
    let lent = run_hex(alloc, &mut buffered, &mut other).is_err();
    bytewise
        && lent
        && output.written() == answer.as_bytes()
        && other.written() == answer.as_bytes()
        && input.left() == buffered.peek()
}

#[test]
fn refused(rt: HostRuntime) {
    for (line, answer) in BROKEN {
        holds_in(&rt, line, is_refused(rt.alloc(), line.as_bytes(), answer));
    }
}

#[test]
fn a_digit_too_many(rt: HostRuntime) -> Result<(), Fail> {
    let line = vec![in rt.alloc(); b'0'; 131_074]?;
    let mut input = MemoryIn::new(line.as_slice());
    let mut output = MemoryOut::new(rt.alloc());
    holds(&rt, run_hex(rt.alloc(), &mut input, &mut output).is_err());
    same(&rt, output.written(), b"refused X1\n".as_slice());
    same(&rt, input.left().len(), 1);
    Ok(())
}

/// A reader that gives a line and then never ends the next.
#[derive(Drop)]
struct Endless<'a> {
    line: &'a [u8],
    read: usize,
}

impl ByteIn for Endless<'_> {
    fn next(&mut self) -> Result<Option<u8>, DeviceFault> {
        self.read = self.read.saturating_add(1);
        match self.line {
            [] => Ok(Some(b'x')),
            [byte, rest @ ..] => {
                self.line = rest;
                Ok(Some(*byte))
            }
        }
    }
}

fn check_too_much(rt: &impl Abort, answer: Result<Summary, RunFault>) {
    let fault = RunFault::Session(SessionFault::TooMuchInput);
    same(rt, answer, Err(fault));
}

#[test]
fn too_much_input(rt: HostRuntime) -> Result<(), Fail> {
    let line = input_of(rt.alloc(), images::FIRST_RUN, "")?;
    let mut input = Endless {
        line: line.as_slice(),
        read: 0,
    };
    let mut output = MemoryOut::new(rt.alloc());
    let answer = run_hex(rt.alloc(), &mut input, &mut output);
    check_too_much(&rt, answer);
    same(&rt, input.read, line.len() + 16_777_217);
    holds(&rt, output.written().is_empty());
    Ok(())
}

/// A reader of std whose every 32,768th byte is a newline.
#[derive(Drop)]
struct LongLines {
    at: usize,
}

impl Read for LongLines {
    fn read(&mut self, buffer: &mut [u8]) -> io::Result<usize> {
        for byte in buffer.iter_mut() {
            self.at = self.at.saturating_add(1);
            *byte = if self.at % 32_768 == 0 { b'\n' } else { b'x' };
        }
        Ok(buffer.len())
    }
}

/// A session with borrowed lines reads the last byte that it may read, and ends at the next one.
#[test]
fn too_many_long_lines(rt: HostRuntime) -> Result<(), Fail> {
    let line = input_of(rt.alloc(), images::FIRST_RUN, "")?;
    let mut input = FromRead::new(line.as_slice().chain(LongLines { at: 0 }));
    let mut output = MemoryOut::new(rt.alloc());
    let answer = run_hex(rt.alloc(), &mut input, &mut output);
    check_too_much(&rt, answer);
    same(&rt, output.written().len(), 512 * "fault C2\n".len());
    Ok(())
}

/// A reader that is interrupted `times` times. After that it gives the byte `x` at each read.
#[derive(Drop)]
struct Interrupted {
    times: u32,
}

impl Read for Interrupted {
    fn read(&mut self, buffer: &mut [u8]) -> io::Result<usize> {
        if let Some(times) = self.times.checked_sub(1) {
            self.times = times;
            return Err(io::Error::from(ErrorKind::Interrupted));
        }
        let Some(first) = buffer.first_mut() else {
            return Ok(0);
        };
        *first = b'x';
        Ok(1)
    }
}

/// An interrupted read is tried 1,000 times in all, and nothing is lost.
#[test]
fn interrupted_reads(rt: HostRuntime) {
    let mut patient = FromRead::new(Interrupted { times: 999 });
    same(&rt, patient.next(), Ok(Some(b'x')));
    let mut tired = FromRead::new(Interrupted { times: 1000 });
    same(&rt, tired.next(), Err(DeviceFault));
    same(&rt, tired.next(), Ok(Some(b'x')));
}

/// Asserts that a fault's text is this code.
fn check_code<T: Display>(
    rt: &impl Abort,
    alloc: Global,
    fault: &T,
    code: &str,
) -> Result<(), Fail> {
    let text = fault.to_string(alloc)?;
    same(rt, text.as_str(), code);
    Ok(())
}

#[test]
fn texts_of_faults(rt: HostRuntime) -> Result<(), Fail> {
    check_code(&rt, rt.alloc(), &SessionFault::ReadFailed, "S1")?;
    check_code(
        &rt,
        rt.alloc(),
        &RunFault::Session(SessionFault::TooMuchInput),
        "S3",
    )?;
    check_code(&rt, rt.alloc(), &RunFault::X1, "X1")?;
    check_code(&rt, rt.alloc(), &RunFault::Memory, "V0")?;
    check_code(&rt, rt.alloc(), &RequestFault::TooLong, "C2")?;
    Ok(())
}
