//! Calls on sessions: their own allocations, and those of their writers.

use crate::allocations::{Code, Turn, code_of, no_memory};
use crate::answers::followed;
use crate::calls::tried;
use crate::failure::Failure;
use crate::policies::text_of;
use crate::readings::{opened, readings};
use crate::talks::{REQUESTS, SERVED, is_cut_session, is_served_session};
use arrayvec::ArrayVec;
use ifs_core::Core;
use ifs_session::{
    ByteOut, DeviceFault, End, MemoryIn, MemoryOut, RunFault, ScriptHost, Served, SessionFault,
    Summary, run_hex, serve_one, simulate,
};
use ifs_test_images::images::FIRST_RUN;
use std::alloc::{AllocError, Global};

/// The requests after the line of the policy's image.
const LINES: &str = "tick 7\ntake\nlink carp0 up\nstatus\ntake\ntrace\nwhat\nstop\n";

/// The line of a session that runs out of memory.
const REFUSED: &[u8] = b"refused V0\n";

/// How many notes a host has room for.
const NOTES: usize = 64;

/// The inputs of the calls.
#[derive(Drop)]
pub struct Sessions {
    /// The policy's image as a line of digits, and requests after it.
    input: Vec<u8>,
    /// The image of the first run.
    image: Vec<u8>,
}

impl Sessions {
    /// The input of a session on the image of these bytes, and the image of the first run.
    pub fn new(alloc: Global, bytes: &[u8]) -> Result<Self, Code> {
        let image = ifs_test_images::bytes_of(alloc, FIRST_RUN).map_err(code_of)?;
        let input = input_of(alloc, bytes).map_err(no_memory)?;
        Ok(Sessions { input, image })
    }

    /// The image of the first run.
    pub fn image(&self) -> &[u8] {
        self.image.as_slice()
    }

    /// Tries each call.
    pub fn try_calls(&self, rt: &HostRuntime) -> Result<(), Failure> {
        tried(rt, self, "run_hex", &["V0"], run_to_place)?;
        tried(
            rt,
            self,
            "run_hex to a MemoryOut",
            &["V0", "S2"],
            run_to_memory,
        )?;
        tried(rt, self, "MemoryOut::put", &["DeviceFault"], put)?;
        tried(rt, self, "simulate to a MemoryOut", &["S2"], simulated)?;
        tried(rt, self, "serve_one to a MemoryOut", &["S2"], served)?;
        tried(rt, self, "ScriptHost::reserve", &["AllocError"], reserved)
    }
}

/// The line of an image, and requests after it.
fn input_of(alloc: Global, bytes: &[u8]) -> Result<Vec<u8>, AllocError> {
    let mut input = String::new(alloc);
    for byte in bytes {
        write!(input, "{byte:02x}")?;
    }
    write!(input, "\n{LINES}")?;
    Ok(input.into_bytes())
}

/// A writer into an array of its own. It allocates nothing.
#[derive(Drop)]
struct Place {
    bytes: ArrayVec<u8, 4096>,
}

impl ByteOut for Place {
    fn put(&mut self, bytes: &[u8]) -> Result<(), DeviceFault> {
        match self.bytes.try_extend_from_slice(bytes) {
            Ok(()) => Ok(()),
            Err(_full) => Err(DeviceFault),
        }
    }

    fn flush(&mut self) -> Result<(), DeviceFault> {
        Ok(())
    }
}

fn run_to_place(sessions: &Sessions, turn: Turn) -> Result<Vec<u8>, Code> {
    let mut writer = Place {
        bytes: ArrayVec::new(),
    };
    let mut reader = MemoryIn::new(sessions.input.as_slice());
    let answer = turn.ended(run_hex(turn.begun(), &mut reader, &mut writer));
    bytes_of_run(turn.alloc(), answer, writer.bytes.as_slice())
}

fn run_to_memory(sessions: &Sessions, turn: Turn) -> Result<Vec<u8>, Code> {
    let mut writer = MemoryOut::new(turn.alloc());
    let mut reader = MemoryIn::new(sessions.input.as_slice());
    let answer = turn.ended(run_hex(turn.begun(), &mut reader, &mut writer));
    bytes_of_run(turn.alloc(), answer, writer.written())
}

/// The bytes of a run: its answer and its output. A refused run writes one line. After a failed write there is no such line.
fn bytes_of_run(
    alloc: Global,
    answer: Result<Summary, RunFault>,
    written: &[u8],
) -> Result<Vec<u8>, Code> {
    match answer {
        Ok(summary) => followed(text_of(alloc, &summary)?, written),
        Err(RunFault::Session(fault)) if !written.starts_with(b"refused") => Err(code_of(fault)),
        Err(fault) if written == REFUSED => Err(code_of(fault)),
        Err(_) => Err(code_of("a refusal with other lines")),
    }
}

/// The second of two writes runs out of memory. It writes nothing then. When it is made again, it writes everything.
fn put(sessions: &Sessions, turn: Turn) -> Result<Vec<u8>, Code> {
    let bytes = sessions.image();
    let mut writer = MemoryOut::new(turn.begun());
    turn.ended(());
    if writer.put(REFUSED).is_err() {
        return Err(code_of("the first write failed"));
    }
    turn.begun();
    match turn.ended(writer.put(bytes)) {
        Ok(()) => copied(turn.alloc(), writer.written()),
        Err(DeviceFault) if writer.written() != REFUSED => Err(code_of("bytes were written")),
        Err(DeviceFault) => Err(code_of_put(&mut writer, bytes)),
    }
}

/// The code of a failed write. It says so if the same write then fails again.
fn code_of_put(writer: &mut MemoryOut<Global>, bytes: &[u8]) -> Code {
    match writer.put(bytes) {
        Ok(()) if writer.written().ends_with(bytes) => code_of("DeviceFault"),
        _ => code_of("DeviceFault, and again"),
    }
}

fn copied(alloc: Global, bytes: &[u8]) -> Result<Vec<u8>, Code> {
    followed(Vec::new(alloc), bytes)
}

/// After a failed write the core is as after some of the lines, and the output is a prefix of the replies.
fn simulated(sessions: &Sessions, turn: Turn) -> Result<Vec<u8>, Code> {
    let image = sessions.image();
    let mut core = opened(turn.alloc(), image)?;
    let mut reader = MemoryIn::new(REQUESTS);
    let mut writer = MemoryOut::new(turn.begun());
    let answer = turn.ended(simulate(&mut core, &mut reader, &mut writer));
    session_came_to(turn.alloc(), image, &core, answer, writer.written())
}

/// The result of a session that left this core and wrote these bytes.
fn session_came_to(
    alloc: Global,
    image: &[u8],
    core: &Core<'_>,
    answer: Result<Summary, SessionFault>,
    written: &[u8],
) -> Result<Vec<u8>, Code> {
    let reading = readings(alloc, core)?;
    match answer {
        Ok(_summary) => followed(reading, written),
        Err(fault) if is_cut_session(alloc, image, reading.as_slice(), written)? => {
            Err(code_of(fault))
        }
        Err(_) => Err(code_of("steps or replies of no lines")),
    }
}

/// After a failed write the steps are those of some of the lines, and the core is as after them.
fn served(sessions: &Sessions, turn: Turn) -> Result<Vec<u8>, Code> {
    let image = sessions.image();
    let mut host = ScriptHost::new(turn.alloc(), Vec::new(turn.alloc()), Vec::new(turn.alloc()));
    host.reserve(NOTES).map_err(no_memory)?;
    let mut core = opened(turn.alloc(), image)?;
    let mut reader = MemoryIn::new(SERVED);
    let mut writer = MemoryOut::new(turn.begun());
    let served = turn.ended(serve_one(&mut core, &mut host, &mut reader, &mut writer));
    service_came_to(turn.alloc(), image, &core, &served, writer.written())
}

/// The result of a connection that left this core and wrote these bytes.
fn service_came_to(
    alloc: Global,
    image: &[u8],
    core: &Core<'_>,
    served: &Served,
    written: &[u8],
) -> Result<Vec<u8>, Code> {
    let reading = readings(alloc, core)?;
    if !is_served_session(alloc, image, served, reading.as_slice(), written)? {
        return Err(code_of("steps or replies of no lines"));
    }
    match served.end {
        End::Fault(fault) => Err(code_of(fault)),
        _ => followed(reading, written),
    }
}

fn reserved(_sessions: &Sessions, turn: Turn) -> Result<Vec<u8>, Code> {
    let mut host = ScriptHost::new(turn.begun(), Vec::new(turn.alloc()), Vec::new(turn.alloc()));
    let reserved = turn.ended(host.reserve(NOTES));
    reserved.map_err(no_memory)?;
    text_of(turn.alloc(), &host.whole())
}
