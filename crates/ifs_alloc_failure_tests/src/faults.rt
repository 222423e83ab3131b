//! Sessions in which each read, write or run fails in turn, or the input is cut or endless.

use crate::allocations::{Code, code_of, no_memory};
use crate::failure::Failure;
use crate::readings::{opened, readings, readings_after};
use crate::talks::{
    REPLIES, REQUESTS, SERVED, SERVED_ENDS, SERVED_REPLIES, SERVED_STEPS, STEPS, first, head,
    is_cut_session, is_served_session, lines_of,
};
use ifs_core::Core;
use ifs_session::{
    ByteIn, ByteOut, DeviceFault, End, HostFault, MemoryIn, MemoryOut, ScriptHost, Served,
    SessionFault, Summary, serve_one, simulate,
};
use std::alloc::{AllocError, Global};

/// More reads, writes and runs than a session has.
const MANY: usize = 100;

/// Which sessions are tried. N is the number of a session, from 0 on.
#[derive(Clone, Copy)]
pub enum Trial {
    /// `simulate` fails at the read after N reads.
    Reads,
    /// `simulate` fails at the write after N writes.
    Writes,
    /// The same with `serve_one`.
    ServedReads,
    ServedWrites,
    /// The host fails at the run after N runs.
    Runs,
    /// The input ends after N bytes.
    Cuts,
    /// The input does not end.
    Endless,
}

/// All trials, with their names in the output.
pub const TRIALS: [(Trial, &str); 7] = [
    (Trial::Reads, "simulate, reads that failed"),
    (Trial::Writes, "simulate, writes that failed"),
    (Trial::ServedReads, "serve_one, reads that failed"),
    (Trial::ServedWrites, "serve_one, writes that failed"),
    (Trial::Runs, "serve_one, runs that failed"),
    (Trial::Cuts, "simulate, inputs that were cut"),
    (Trial::Endless, "simulate, inputs without end"),
];

/// How one session of a trial went.
#[derive(Clone, Copy, PartialEq, Eq)]
enum Went {
    /// Something failed, and the session kept its promises.
    Failed,
    /// Nothing failed, and the session kept its promises.
    Whole,
    /// It broke a promise.
    Wrong,
}

/// Makes the sessions of a trial on the image of the first run, until nothing fails. Returns how many sessions had a failure.
pub fn tried(alloc: Global, image: &[u8], trial: Trial) -> Result<usize, Failure> {
    for number in 0..MANY {
        match nth_session(alloc, image, trial, number)? {
            Went::Failed => {}
            Went::Whole => return Ok(number),
            Went::Wrong => return Err(Failure::Session(number)),
        }
    }
    Err(Failure::Session(MANY))
}

fn nth_session(alloc: Global, image: &[u8], trial: Trial, number: usize) -> Result<Went, Code> {
    match trial {
        Trial::Reads => read_fails(alloc, image, number),
        Trial::Writes => write_fails(alloc, image, number),
        Trial::ServedReads => served_read_fails(alloc, image, number),
        Trial::ServedWrites => served_write_fails(alloc, image, number),
        Trial::Runs => run_fails(alloc, image, number),
        Trial::Cuts => cut(alloc, image, number),
        Trial::Endless if number == 0 => endless(alloc, image),
        Trial::Endless => Ok(Went::Whole),
    }
}

/// How a session went, by whether something failed and whether it kept its promises.
fn failed_or_whole(failed: bool, as_promised: bool) -> Went {
    match (as_promised, failed) {
        (false, _) => Went::Wrong,
        (true, true) => Went::Failed,
        (true, false) => Went::Whole,
    }
}

/// A finished session.
#[derive(Drop)]
struct Session {
    answer: Result<Summary, SessionFault>,
    /// What the core's readers return afterwards.
    readings: Vec<u8>,
}

impl Session {
    /// Makes a session on a core of its own.
    fn new<R: ByteIn>(
        alloc: Global,
        image: &[u8],
        reader: &mut R,
        writer: &mut MemoryOut<Global>,
    ) -> Result<Self, Code> {
        let mut core = opened(alloc, image)?;
        let answer = simulate(&mut core, reader, writer);
        Ok(Session {
            answer,
            readings: readings(alloc, &core)?,
        })
    }

    /// Whether the core is as after the first `count` steps.
    fn has_readings_after(&self, alloc: Global, image: &[u8], count: usize) -> Result<bool, Code> {
        let after = readings_after(alloc, image, first(&STEPS, count))?;
        Ok(after.as_slice() == self.readings.as_slice())
    }
}

/// Exactly the lines that were complete before the failed read have a reply.
fn read_fails(alloc: Global, image: &[u8], calls: usize) -> Result<Went, Code> {
    let mut reader = MemoryIn::failing_after(REQUESTS, calls as u64);
    let mut writer = MemoryOut::new(alloc);
    let session = Session::new(alloc, image, &mut reader, &mut writer)?;
    let lines = lines_of(REQUESTS.get(..calls).unwrap_or(REQUESTS));
    let failed = session.answer == Err(SessionFault::ReadFailed);
    let answered = writer.written() == head(REPLIES, lines);
    let is_after = session.has_readings_after(alloc, image, lines)?;
    let right = failed == (calls < REQUESTS.len()) && (failed || session.answer.is_ok());
    Ok(failed_or_whole(failed, answered && is_after && right))
}

/// The output is a prefix of the replies, and the core is as after the steps of some of the lines.
fn write_fails(alloc: Global, image: &[u8], calls: usize) -> Result<Went, Code> {
    let mut reader = MemoryIn::new(REQUESTS);
    let mut writer = MemoryOut::failing_after(alloc, calls as u64);
    let session = Session::new(alloc, image, &mut reader, &mut writer)?;
    let failed = session.answer == Err(SessionFault::WriteFailed);
    let is_cut = is_cut_session(alloc, image, session.readings.as_slice(), writer.written())?;
    let whole = session.answer.is_ok() && writer.written() == REPLIES;
    Ok(failed_or_whole(failed, is_cut && (failed || whole)))
}

/// A finished connection.
#[derive(Clone, Copy)]
struct Talk {
    end: End,
    /// How many steps were made.
    steps: usize,
    /// Whether the steps begin those of the lines, the core is as after them, and the output is a prefix of the replies.
    is_right: bool,
}

impl Talk {
    /// Serves a client on a core of its own, over a host whose runs have these statuses.
    fn new<R: ByteIn>(
        alloc: Global,
        image: &[u8],
        statuses: Vec<Result<i32, HostFault>>,
        reader: &mut R,
        writer: &mut MemoryOut<Global>,
    ) -> Result<Self, Code> {
        let mut core = opened(alloc, image)?;
        let mut host = ScriptHost::new(alloc, Vec::new(alloc), statuses);
        let served = serve_one(&mut core, &mut host, reader, writer);
        Talk::of(alloc, image, &core, &served, writer.written())
    }

    /// The connection that left this core and wrote these bytes.
    fn of(
        alloc: Global,
        image: &[u8],
        core: &Core<'_>,
        served: &Served,
        written: &[u8],
    ) -> Result<Self, Code> {
        let reading = readings(alloc, core)?;
        Ok(Talk {
            end: served.end,
            steps: served.steps.len(),
            is_right: is_served_session(alloc, image, served, reading.as_slice(), written)?,
        })
    }

    /// Whether every line was served.
    fn is_whole(self) -> bool {
        self.end == End::Stop && self.steps == SERVED_STEPS.len()
    }
}

/// Exactly the lines that were complete before the failed read are served.
fn served_read_fails(alloc: Global, image: &[u8], calls: usize) -> Result<Went, Code> {
    let mut reader = MemoryIn::failing_after(SERVED, calls as u64);
    let mut writer = MemoryOut::new(alloc);
    let talk = Talk::new(alloc, image, Vec::new(alloc), &mut reader, &mut writer)?;
    let lines = lines_of(SERVED.get(..calls).unwrap_or(SERVED));
    let failed = talk.end == End::Fault(SessionFault::ReadFailed);
    let answered = writer.written() == head(SERVED_REPLIES, lines);
    let made = SERVED_ENDS.get(lines) == Some(&talk.steps);
    let right = failed == (calls < SERVED.len()) && (failed || talk.is_whole());
    Ok(failed_or_whole(failed, talk.is_right && answered && made && right))
}

/// The output is a prefix of the replies, and the core is as after the reported steps.
fn served_write_fails(alloc: Global, image: &[u8], calls: usize) -> Result<Went, Code> {
    let mut reader = MemoryIn::new(SERVED);
    let mut writer = MemoryOut::failing_after(alloc, calls as u64);
    let talk = Talk::new(alloc, image, Vec::new(alloc), &mut reader, &mut writer)?;
    let failed = talk.end == End::Fault(SessionFault::WriteFailed);
    let whole = talk.is_whole() && writer.written() == SERVED_REPLIES;
    Ok(failed_or_whole(failed, talk.is_right && (failed || whole)))
}

/// A failed run changes neither the steps nor the replies.
fn run_fails(alloc: Global, image: &[u8], calls: usize) -> Result<Went, Code> {
    let statuses = failing_after(alloc, calls).map_err(no_memory)?;
    let mut reader = MemoryIn::new(SERVED);
    let mut writer = MemoryOut::new(alloc);
    let talk = Talk::new(alloc, image, statuses, &mut reader, &mut writer)?;
    let whole = talk.is_whole() && writer.written() == SERVED_REPLIES;
    let runs = SERVED_STEPS
        .iter()
        .filter(|step| **step == ifs_core::Step::Take);
    Ok(failed_or_whole(calls < runs.count(), talk.is_right && whole))
}

/// The statuses of runs: `calls` that end with 1, and then one that fails.
fn failing_after(alloc: Global, calls: usize) -> Result<Vec<Result<i32, HostFault>>, AllocError> {
    let mut statuses = vec![in alloc; Ok(1); calls]?;
    statuses.push(Err(HostFault))?;
    Ok(statuses)
}

/// The rest after the last newline is a line too. If only its newline is missing, it is a request. If more is missing, it is none.
fn cut(alloc: Global, image: &[u8], bytes: usize) -> Result<Went, Code> {
    let given = REQUESTS.get(..bytes).unwrap_or(REQUESTS);
    let mut writer = MemoryOut::new(alloc);
    let session = Session::new(alloc, image, &mut MemoryIn::new(given), &mut writer)?;
    let ends = given.is_empty() || given.ends_with(b"\n");
    let misses_newline = REQUESTS.get(bytes) == Some(&b'\n');
    let whole = lines_of(given).saturating_add(usize::from(misses_newline && !ends));
    let rest: &[u8] = if ends || misses_newline {
        b""
    } else {
        b"fault C1\n"
    };
    let answered = is_joined(writer.written(), head(REPLIES, whole), rest);
    let is_after = session.has_readings_after(alloc, image, whole)?;
    let right = answered && is_after && session.answer.is_ok();
    Ok(failed_or_whole(bytes < REQUESTS.len(), right))
}

/// Whether bytes are these two parts, one after the other.
fn is_joined(bytes: &[u8], front: &[u8], back: &[u8]) -> bool {
    bytes.strip_prefix(front) == Some(back)
}

/// A reader that gives one line, and then another one again and again. It counts its reads.
#[derive(Drop)]
struct Again<'a> {
    line: &'a [u8],
    again: &'a [u8],
    given: u32,
}

impl ByteIn for Again<'_> {
    fn next(&mut self) -> Result<Option<u8>, DeviceFault> {
        self.given = self.given.saturating_add(1);
        if self.line.is_empty() {
            self.line = self.again;
        }
        match self.line {
            [] => Ok(None),
            [byte, rest @ ..] => {
                self.line = rest;
                Ok(Some(*byte))
            }
        }
    }
}

/// A line about an unknown interface: 257 bytes with its newline.
const LONG_LINE: &[u8] =
    b"link xxxxxxxxxxxxxxxxxxxxxxxxxxxxxxxxxxxxxxxxxxxxxxxxxxxxxxxxxxxxxxxxxxxxxxxxxxxxxxxxxxxxxxxxxxxxxxxxxxxxxxxxxxxxxxxxxxxxxxxxxxxxxxxxxxxxxxxxxxxxxxxxxxxxxxxxxxxxxxxxxxxxxxxxxxxxxxxxxxxxxxxxxxxxxxxxxxxxxxxxxxxxxxxxxxxxxxxxxxxxxxxxxxxxxxxxxxxxxxxxxxxxxxxx up\n";

/// How many of these lines are complete within 16,777,216 bytes, after a line of 14 bytes.
const WHOLE: usize = 65_280;

/// Byte 16,777,217 ends the session within a line, which gets no reply.
fn endless(alloc: Global, image: &[u8]) -> Result<Went, Code> {
    let mut reader = Again {
        line: head(REQUESTS, 1),
        again: LONG_LINE,
        given: 0,
    };
    let mut writer = MemoryOut::new(alloc);
    let session = Session::new(alloc, image, &mut reader, &mut writer)?;
    let failed = session.answer == Err(SessionFault::TooMuchInput) && reader.given == 16_777_217;
    let answered = is_first_and_faults(writer.written());
    let is_after = session.has_readings_after(alloc, image, 1)?;
    Ok(failed_or_whole(true, failed && answered && is_after))
}

/// Whether the output is the first reply, and then `fault C4` for each complete line.
fn is_first_and_faults(written: &[u8]) -> bool {
    let Some(faults) = written.strip_prefix(head(REPLIES, 1)) else {
        return false;
    };
    lines_of(faults) == WHOLE
        && faults
            .chunks(9)
            .all(|line| line == b"fault C4\n".as_slice())
}
