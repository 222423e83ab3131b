//! The clients of a daemon.

use crate::outcome::refused_file;
use crate::times::StepTimes;
use ifs_command_line::{Explain, Manner, Send};
use ifs_core::Core;
use ifs_explain::{explain as explained, lacks};
use ifs_host::failure::Failure;
use ifs_host::files::FileFault;
use ifs_host::sending::{Printing, Reading, replied, send as sent, send_and_wait};
use ifs_host::sessions::{core_on, image_at};
use ifs_host::standard_output::StandardOutput;
use ifs_options::Reports;
use std::io::{ErrorKind, Write};
use std::str::from_utf8;

/// The requests whose replies `explain` prints.
const REQUESTS: &str = "status\ntrace";

/// The most bytes of these replies.
const MOST: usize = 1_048_576;

/// Sends a request to a daemon, and prints its reply unless it does not wait.
pub fn send<'a>(rt: &HostRuntime, asked: Send<'a>) -> Result<(), Failure<'a>> {
    match asked.manner {
        Manner::NoWait => sent(rt, asked.socket, asked.request),
        Manner::Wait {
            limit,
            check,
            escape,
        } => send_and_wait(
            rt,
            asked.socket,
            asked.request,
            limit,
            Printing { check, escape },
        ),
    }
}

/// Asks the daemon of a socket for its steps, and prints them with the names of an image.
pub fn explain<'a>(rt: &HostRuntime, asked: Explain<'a>) -> Result<(), Failure<'a>> {
    let image = image_at(rt, asked.image)?;
    explain_image(rt, asked, image.as_slice())
}

fn explain_image<'a>(
    rt: &HostRuntime,
    asked: Explain<'a>,
    image: &[u8],
) -> Result<(), Failure<'a>> {
    let mut core = core_on(rt, asked.image, image, Reports::Text)?;
    let reading = Reading {
        limit: asked.limit,
        most: MOST,
    };
    let reply = replied(rt, asked.socket, REQUESTS, reading)?;
    explain_bytes(rt, asked, &mut core, reply.as_slice())
}

fn explain_bytes<'a>(
    rt: &HostRuntime,
    asked: Explain<'a>,
    core: &mut Core<'_>,
    reply: &[u8],
) -> Result<(), Failure<'a>> {
    let Ok(reply) = from_utf8(reply) else {
        return Err(Failure::File {
            path: asked.socket,
            fault: FileFault::System(ErrorKind::InvalidData.into()),
        });
    };
    match lacks(rt.alloc(), core.image(), reply) {
        Ok(None) => explain_reply(rt, asked, core, reply),
        Ok(Some(lack)) => {
            let message = format!(in rt.alloc(); "this image is not the daemon's: {lack}");
            Err(refused_file(rt, asked.image, message))
        }
        Err(_) => Err(Failure::out_of_memory(rt, "V0")),
    }
}

fn explain_reply<'a>(
    rt: &HostRuntime,
    asked: Explain<'a>,
    core: &mut Core<'_>,
    reply: &str,
) -> Result<(), Failure<'a>> {
    let what = asked.explained;
    let text = match asked.facts {
        None => explained(rt.alloc(), core, reply, what, None),
        Some(file) => {
            let times = StepTimes::read(rt, file)?;
            explained(rt.alloc(), core, reply, what, Some(times.times()))
        }
    };
    let Ok(text) = text else {
        return Err(Failure::out_of_memory(rt, "V0"));
    };
    StandardOutput::new(rt).write_all(text.as_bytes())?;
    Ok(())
}
