//! Calls on an image: on its bytes, its parts and its assembly text.

use crate::allocations::{Code, Turn, code_of, no_memory};
use crate::calls::tried;
use crate::failure::Failure;
use crate::policies::{definitions, text, text_of, written};
use crate::readings::{has_readings, readings, readings_after};
use crate::reloads::{carried, reloaded};
use ifs_asm::laws::reads_back;
use ifs_asm::{assemble, disassemble};
use ifs_core::{Core, OpenFault};
use ifs_gen::compile;
use ifs_image::{Image, read, view, write};
use ifs_verify::verify;
use std::alloc::Global;

/// The inputs of the calls.
#[derive(Drop)]
pub struct Images {
    bytes: Vec<u8>,
    image: Image,
    listing: String,
}

impl Images {
    /// The image of the policy's text: its bytes, its parts and its assembly text.
    pub fn new(alloc: Global) -> Result<Self, Code> {
        let bytes = compile(alloc, text(), definitions()).map_err(code_of)?;
        let image = read(alloc, bytes.as_slice()).map_err(code_of)?;
        let listing = disassemble(alloc, &image).map_err(no_memory)?;
        Ok(Images {
            bytes,
            image,
            listing,
        })
    }

    /// The bytes of the image that the text compiles to.
    pub fn bytes(&self) -> &[u8] {
        self.bytes.as_slice()
    }

    /// The assembly text.
    pub fn listing(&self) -> &[u8] {
        self.listing.as_bytes()
    }

    /// Tries each call.
    pub fn try_calls(&self, rt: &HostRuntime) -> Result<(), Failure> {
        tried(rt, self, "ifs_image::view", &["I0"], made_view)?;
        tried(rt, self, "ifs_image::read", &["I0"], made_image)?;
        tried(rt, self, "ifs_image::write", &["AllocError"], made_bytes)?;
        tried(rt, self, "ifs_verify::verify", &["V0"], made_verified)?;
        tried(rt, self, "ifs_core::Core::open", &["OpenFault"], core_of)?;
        tried(rt, self, "ifs_core::Core::carry", &["L0"], carried)?;
        tried(rt, self, "take_over", &["V0", "L0"], reloaded)?;
        tried(rt, self, "ifs_asm::disassemble", &["AllocError"], listed)?;
        tried(rt, self, "ifs_asm::assemble", &["A0"], assembled)?;
        tried(rt, self, "ifs_asm::laws::reads_back", &["A0"], read_back)
    }
}

fn made_view(images: &Images, turn: Turn) -> Result<Vec<u8>, Code> {
    let image = turn.ended(view(turn.begun(), images.bytes()));
    text_of(turn.alloc(), &image.map_err(code_of)?)
}

fn made_image(images: &Images, turn: Turn) -> Result<Vec<u8>, Code> {
    let image = turn.ended(read(turn.begun(), images.bytes()));
    written(turn.alloc(), &image.map_err(code_of)?)
}

fn made_bytes(images: &Images, turn: Turn) -> Result<Vec<u8>, Code> {
    turn.ended(write(turn.begun(), &images.image))
        .map_err(no_memory)
}

fn made_verified(images: &Images, turn: Turn) -> Result<Vec<u8>, Code> {
    let verified = turn.ended(verify(turn.begun(), images.bytes()));
    text_of(turn.alloc(), &verified.map_err(code_of)?)
}

/// If the opening fails, the returned image has to open as usual.
fn core_of(images: &Images, turn: Turn) -> Result<Vec<u8>, Code> {
    let bytes = images.bytes();
    let verified = verify(turn.alloc(), bytes).map_err(code_of)?;
    match turn.ended(Core::open(turn.begun(), verified)) {
        Ok(core) => readings(turn.alloc(), &core),
        Err(fault) => Err(code_of_fault(turn.alloc(), fault, bytes)),
    }
}

/// The code of a failed opening. It says so if the returned image does not open as usual.
fn code_of_fault<'a>(alloc: Global, fault: OpenFault<'a>, bytes: &'a [u8]) -> Code {
    let OpenFault { verified } = fault;
    match Core::open(alloc, verified) {
        Ok(core) => code_of_opened(has_readings(alloc, &core, readings_after(alloc, bytes, &[]))),
        Err(OpenFault { verified: _ }) => code_of_opened(false),
    }
}

fn code_of_opened(as_usual: bool) -> Code {
    code_of(if as_usual {
        "OpenFault"
    } else {
        "OpenFault whose image does not open as usual"
    })
}

fn listed(images: &Images, turn: Turn) -> Result<Vec<u8>, Code> {
    let text = turn.ended(disassemble(turn.begun(), &images.image));
    Ok(text.map_err(no_memory)?.into_bytes())
}

fn assembled(images: &Images, turn: Turn) -> Result<Vec<u8>, Code> {
    let image = turn.ended(assemble(turn.begun(), images.listing.as_str()));
    written(turn.alloc(), &image.map_err(code_of)?)
}

fn read_back(images: &Images, turn: Turn) -> Result<Vec<u8>, Code> {
    let again = turn.ended(reads_back(turn.begun(), &images.image));
    written(turn.alloc(), &again.map_err(code_of)?)
}
