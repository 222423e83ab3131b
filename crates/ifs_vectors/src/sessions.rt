//! Expectations of sessions, each on a fresh core: request by request, and all requests at once.

use crate::cases::Section;
use crate::changes::count_lines;
use crate::comparing::Trial;
use crate::repeating::lines_of;
use anyhow::{Context, Result};
use ifs_core::Core;
use ifs_session::{MemoryIn, MemoryOut, SessionFault, simulate};
use ifs_verify::verify;
use std::alloc::{AllocError, Global};
use std::{io, str};

/// The mark of a request, with the newline before it.
const REQUEST: &str = "\n> ";

/// Whether a session on an image has the expected replies.
pub fn is_session(trial: Trial<'_>, image: &[u8]) -> Result<bool> {
    match trial.case.section("session") {
        Some(section) => has_replies(trial, section, image),
        None => Ok(true),
    }
}

/// Whether a session has the replies of a section.
fn has_replies(trial: Trial<'_>, section: Section<'_>, image: &[u8]) -> Result<bool> {
    let lines = lines_of(trial.alloc(), section)?;
    are_replies(trial, lines.as_slice(), image, section.has_flag("cut"))
}

/// Whether the requests in lines have the replies that follow them, one by one and all at once.
fn are_replies(trial: Trial<'_>, lines: &[u8], image: &[u8], is_cut: bool) -> Result<bool> {
    let talk = str::from_utf8(lines)?
        .strip_prefix("> ")
        .context("a session begins with a request")?;
    let one_by_one = is_one_by_one(trial, talk, image)?;
    let at_once = is_at_once(trial, talk, image, is_cut)?;
    Ok(one_by_one && at_once)
}

/// A fresh core on an image.
fn opened(alloc: Global, image: &[u8]) -> Result<Core<'_>> {
    let verified = verify(alloc, image)
        .ok()
        .context("an image that is refused")?;
    Core::open(alloc, verified).ok().context("no core")
}

/// What a core replies to requests.
fn written(
    alloc: Global,
    core: &mut Core<'_>,
    requests: &[u8],
) -> Result<MemoryOut<Global>, SessionFault> {
    let mut output = MemoryOut::new(alloc);
    let _summary = simulate(core, &mut MemoryIn::new(requests), &mut output)?;
    Ok(output)
}

/// Whether each request has its replies.
fn is_one_by_one(trial: Trial<'_>, talk: &str, image: &[u8]) -> Result<bool> {
    let mut core = opened(trial.alloc(), image)?;
    are_turns(trial, &mut core, talk)
}

/// Whether a core gives each request its replies.
fn are_turns(trial: Trial<'_>, core: &mut Core<'_>, talk: &str) -> Result<bool> {
    let mut is_so = true;
    for piece in talk.split(REQUEST) {
        let (request, replies) = piece.split_once('\n').unwrap_or((piece, ""));
        is_so = is_turn(trial, core, request, replies)? && is_so;
    }
    Ok(is_so)
}

/// Whether a request has these replies.
fn is_turn(trial: Trial<'_>, core: &mut Core<'_>, request: &str, replies: &str) -> Result<bool> {
    let line = format!(in trial.alloc(); "{request}\n")?;
    let output = written(trial.alloc(), core, line.as_bytes())?;
    Ok(is_reply(trial, output.written(), replies)?)
}

/// Whether these replies were written. The last one may lack its newline.
fn is_reply(trial: Trial<'_>, written: &[u8], replies: &str) -> io::Result<bool> {
    let is_counted = is_counted(replies);
    let is_counted = trial.holds("session", is_counted, "another number of replies")?;
    let written = written.strip_suffix(b"\n").unwrap_or(written);
    let is_same = trial.same("session", written, bare(replies).as_bytes())?;
    Ok(is_counted && is_same)
}

/// A text without its last newline.
fn bare(text: &str) -> &str {
    text.strip_suffix('\n').unwrap_or(text)
}

/// Whether the replies are one line, or `trace N` and N lines.
fn is_counted(replies: &str) -> bool {
    let replies = bare(replies);
    let (first, _rest) = replies.split_once('\n').unwrap_or((replies, ""));
    let more = match first.strip_prefix("trace ") {
        Some(count) => count.parse::<usize>().unwrap_or(0),
        None => 0,
    };
    !first.is_empty() && count_lines(replies) == more.saturating_add(1)
}

/// Whether all requests at once have all replies.
fn is_at_once(trial: Trial<'_>, talk: &str, image: &[u8], is_cut: bool) -> Result<bool> {
    let requests = requests_of(trial.alloc(), talk, is_cut)?;
    let output = written_at_once(trial.alloc(), image, requests.as_bytes())?;
    Ok(are_all(trial, talk, output.written())?)
}

/// What a fresh core on an image replies to requests.
fn written_at_once(alloc: Global, image: &[u8], requests: &[u8]) -> Result<MemoryOut<Global>> {
    let mut core = opened(alloc, image)?;
    Ok(written(alloc, &mut core, requests)?)
}

/// Whether all replies were written.
fn are_all(trial: Trial<'_>, talk: &str, written: &[u8]) -> io::Result<bool> {
    let replies = replies_of(trial.alloc(), talk)?;
    trial.same("session", written, replies.as_bytes())
}

/// The requests, a line each; the last has no newline if it is cut.
fn requests_of(alloc: Global, talk: &str, is_cut: bool) -> Result<String, AllocError> {
    let mut requests = String::new(alloc);
    let mut is_first = true;
    for piece in talk.split(REQUEST) {
        if !is_first {
            requests.push_str("\n")?;
        }
        is_first = false;
        let (request, _replies) = piece.split_once('\n').unwrap_or((piece, ""));
        requests.push_str(request)?;
    }
    if !is_cut {
        requests.push_str("\n")?;
    }
    Ok(requests)
}

/// The replies.
fn replies_of(alloc: Global, talk: &str) -> Result<String, AllocError> {
    let mut replies = String::new(alloc);
    for piece in talk.split(REQUEST) {
        let (_request, lines) = piece.split_once('\n').unwrap_or((piece, ""));
        replies.push_str(bare(lines))?;
        replies.push_str("\n")?;
    }
    Ok(replies)
}
