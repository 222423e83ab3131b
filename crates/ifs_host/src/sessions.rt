//! Sessions on standard input and output.

use crate::failure::Failure;
use crate::files::read_file;
use crate::named_lines::line_by_line;
use crate::reporting::{image_source, refuse_image};
use crate::standard_output::StandardOutput;
use ifs_core::Core;
use ifs_options::{Lines, Reports};
use ifs_session::{FromRead, RunFault, ToWrite, run_hex, simulate};
use ifs_verify::{VerifyFault, verify};
use std::alloc::Global;
use std::io::{BufWriter, IsTerminal};

/// The most bytes of replies that are held back until input is waited for.
const HELD: usize = 65_536;

/// The code of a failed allocation.
const MEMORY: &str = "V0";

/// Runs a session whose first line is the image. It is no part of its caller, whose stack is to be small.
#[inline(never)]
pub fn by_hexadecimal<'a>(rt: &HostRuntime) -> Result<(), Failure<'a>> {
    let Ok(writer) = BufWriter::with_capacity(rt.alloc(), HELD, StandardOutput::new(rt)) else {
        return Err(Failure::out_of_memory(rt, MEMORY));
    };
    let mut input = FromRead::new(rt.reader());
    let mut output = ToWrite::new(writer);
    match run_hex(rt.alloc(), &mut input, &mut output) {
        Ok(_summary) => Ok(()),
        Err(RunFault::Session(fault)) => Err(Failure::Session(fault)),
        Err(_refused) => Err(Failure::Refused),
    }
}

/// Runs a session on the image of a file. If it is refused, writes a report.
pub fn on_file<'a>(
    rt: &HostRuntime,
    path: &'a str,
    lines: Lines,
    reports: Reports,
) -> Result<(), Failure<'a>> {
    let image = image_at(rt, path)?;
    on_image(rt, path, image.as_slice(), lines, reports)
}

/// Runs a session on the image of a file, which has these bytes.
fn on_image<'a>(
    rt: &HostRuntime,
    path: &'a str,
    image: &[u8],
    lines: Lines,
    reports: Reports,
) -> Result<(), Failure<'a>> {
    let mut core = core_on(rt, path, image, reports)?;
    let lines = Lines {
        is_explained: is_explained(rt, lines, reports),
        ..lines
    };
    if !lines.takes_names && !lines.is_explained {
        return simulated(rt, &mut core);
    }
    match line_by_line(rt, &mut core, lines, reports) {
        Ok(()) => Ok(()),
        Err(fault) => Err(Failure::Session(fault)),
    }
}

/// Whether a report follows the reply to a line that is refused: if it is asked for, or a person types the lines.
fn is_explained(rt: &HostRuntime, lines: Lines, reports: Reports) -> bool {
    let is_wanted = lines.is_explained || rt.stdin().is_terminal();
    is_wanted && reports != Reports::Quiet
}

/// Reads an image's file. If an allocation fails, prints the line that says so.
pub fn image_at<'a>(rt: &HostRuntime, path: &'a str) -> Result<Vec<u8>, Failure<'a>> {
    match read_file(rt, path) {
        Ok(image) => Ok(image),
        Err(fault) => Err(Failure::of_file(rt, MEMORY, path, fault)),
    }
}

/// Opens a core on the image of a file, in the place of its bytes. If they are refused, prints the line that says so, and
/// writes a report.
pub fn core_on<'a, 'p>(
    rt: &HostRuntime,
    path: &'p str,
    image: &'a [u8],
    reports: Reports,
) -> Result<Core<'a>, Failure<'p>> {
    match opened(rt.alloc(), image) {
        Ok(core) => Ok(core),
        Err(fault) => Err(refuse_image(rt, reports, image_source(path, image), fault)),
    }
}

/// Opens a core on the image of these bytes.
fn opened<'a>(alloc: Global, image: &'a [u8]) -> Result<Core<'a>, VerifyFault> {
    match Core::open(alloc, verify(alloc, image)?) {
        Ok(core) => Ok(core),
        Err(_fault) => Err(VerifyFault::OutOfMemory),
    }
}

/// Runs a session on a core. It is no part of its caller, whose stack is to be small.
#[inline(never)]
fn simulated<'a>(rt: &HostRuntime, core: &mut Core<'_>) -> Result<(), Failure<'a>> {
    let Ok(writer) = BufWriter::with_capacity(rt.alloc(), HELD, StandardOutput::new(rt)) else {
        return Err(Failure::out_of_memory(rt, MEMORY));
    };
    let mut input = FromRead::new(rt.reader());
    let mut output = ToWrite::new(writer);
    match simulate(core, &mut input, &mut output) {
        Ok(_summary) => Ok(()),
        Err(fault) => Err(Failure::Session(fault)),
    }
}
