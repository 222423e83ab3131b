//! Calls of `answer` for each word on files, and of `read_whole`, which reads a file.

use crate::allocations::{Code, Turn, code_of, no_memory};
use crate::calls::tried;
use crate::failure::Failure;
use crate::images::Images;
use crate::policies::{definitions, text};
use ifs_file_commands::{Answer, answer};
use ifs_host::files::{FileFault, read_whole};
use ifs_options::Task;

/// A task on the bytes of a file.
#[derive(Clone, Copy)]
struct Asked<'a> {
    task: Task,
    input: &'a [u8],
}

/// Tries each call on the policy's text, its image and its assembly text.
pub fn try_calls(rt: &HostRuntime, images: &Images) -> Result<(), Failure> {
    let (policy, image) = (text().as_bytes(), images.bytes());
    for (name, task, input) in [
        ("answer on check", Task::Check, policy),
        ("answer on compile", Task::Compile, policy),
        ("answer on verify", Task::Verify, image),
        ("answer on disasm", Task::Disasm, image),
        ("answer on asm", Task::Asm, images.listing()),
        ("answer on upgrade", Task::Upgrade, image),
        ("answer on graph", Task::Graph, policy),
    ] {
        tried(rt, &Asked { task, input }, name, &["AllocError"], answered)?;
    }
    tried(rt, images, "files::read_whole", &["Memory"], whole_file)
}

fn answered(asked: &Asked<'_>, turn: Turn) -> Result<Vec<u8>, Code> {
    let Asked { task, input } = *asked;
    let answer = turn.ended(answer(turn.begun(), task, input, definitions()));
    let Answer {
        status,
        text,
        file,
        fault: _fault,
    } = answer.map_err(no_memory)?;
    let mut bytes = text.into_bytes();
    bytes
        .push(status)
        .map_err(|_error| code_of("no memory for the bytes"))?;
    match file {
        None => Ok(bytes),
        Some(file) => followed(bytes, file.as_slice()),
    }
}

/// Bytes with others after them.
pub fn followed(mut bytes: Vec<u8>, more: &[u8]) -> Result<Vec<u8>, Code> {
    match bytes.extend_from_slice(more) {
        Ok(()) => Ok(bytes),
        Err(_) => Err(code_of("no memory for the bytes")),
    }
}

fn whole_file(images: &Images, turn: Turn) -> Result<Vec<u8>, Code> {
    match turn.ended(read_whole(turn.begun(), images.bytes())) {
        Ok(read) => Ok(read),
        Err(FileFault::Memory) => Err(code_of("Memory")),
        Err(fault) => Err(code_of(fault)),
    }
}
