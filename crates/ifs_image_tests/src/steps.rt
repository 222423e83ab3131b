//! Steps on a core, as values, and what its readers return.

use crate::checks::{holds, holds_in, same, same_in};
use ifs_base::{CommandId, IfaceId, LinkState, StateId, TestId};
use ifs_core::{Answer, Core, Record, Reply, Step};
use ifs_sched::Start;
use ifs_test_images::{Row, bytes_of, images};
use ifs_verify::verify;
use std::alloc::{AllocError, Global};
use std::process::Abort;
use std::test::Fail;

mod due;
mod lent;
mod reload;

/// The bytes of an image in hexadecimal.
fn bytes_in(rt: &impl Abort, alloc: Global, image: &str) -> Vec<u8> {
    bytes_of(alloc, image).expect(rt, "no bytes")
}

/// Opens an image.
fn opened<'a>(rt: &impl Abort, alloc: Global, image: &'a [u8]) -> Core<'a> {
    match verify(alloc, image) {
        Err(fault) => panic!(rt; "not accepted: {fault}"),
        Ok(verified) => Core::open(alloc, verified).expect(rt, "not opened"),
    }
}

/// The link state of a word.
fn link_of(word: &str) -> Option<LinkState> {
    match word {
        "unknown" => Some(LinkState::Unknown),
        "down" => Some(LinkState::Down),
        "up" => Some(LinkState::Up),
        _ => None,
    }
}

/// The step that a request line asks for, if it asks for one.
fn step_of(core: &Core<'_>, line: &str) -> Option<Step> {
    let mut words = line.split_whitespace();
    match words.next()? {
        "link" => {
            let interface = core.iface_of(words.next()?.as_bytes())?;
            Some(Step::Link(interface, link_of(words.next()?)?))
        }
        "result" => {
            let test = TestId(words.next()?.parse().ok()?);
            let run = words.next()?.parse().ok()?;
            Some(Step::Finished(test, run, words.next()? == "ok"))
        }
        "tick" => Some(Step::Tick(words.next()?.parse().ok()?)),
        "take" => Some(Step::Take),
        _ => None,
    }
}

/// Commands as a reply line has them.
fn commands_text(alloc: Global, commands: &[CommandId]) -> Result<String, AllocError> {
    let mut text = String::new(alloc);
    for command in commands {
        let comma = if text.is_empty() { "" } else { "," };
        let more = format!(in alloc; "{comma}{}", command.0)?;
        text.push_str(more.as_str())?;
    }
    if text.is_empty() {
        text.push_str("-")?;
    }
    Ok(text)
}

/// Tests that start, as a reply line has them.
fn starts_text(alloc: Global, starts: &[Start]) -> Result<String, AllocError> {
    let mut text = String::new(alloc);
    for start in starts {
        let comma = if text.is_empty() { "" } else { "," };
        let more = format!(in alloc; "{comma}{}:{}", start.test.0, start.run)?;
        text.push_str(more.as_str())?;
    }
    if text.is_empty() {
        text.push_str("-")?;
    }
    Ok(text)
}

/// The event of a reply line.
fn event_text(
    alloc: Global,
    core: &Core<'_>,
    state: StateId,
    cost: u32,
    queued: &[CommandId],
) -> Result<String, AllocError> {
    let name = core.state_name(state).unwrap_or("");
    let queue = commands_text(alloc, queued)?;
    format!(in alloc; "\"{name}\" cost {cost} queue {queue}")
}

/// A reply as a line.
fn reply_text(alloc: Global, core: &Core<'_>, reply: &Reply) -> Result<String, AllocError> {
    match reply {
        Reply::Done {
            state,
            queued,
            cost,
        } => {
            let event = event_text(alloc, core, *state, *cost, queued.as_slice())?;
            format!(in alloc; "done {event}")
        }
        Reply::Ticked {
            evaluated,
            state,
            queued,
            cost,
            starts,
            exhausted,
        } => {
            let started = starts_text(alloc, starts.as_slice())?;
            let last = if *exhausted { " exhausted" } else { "" };
            if !*evaluated {
                return format!(in alloc; "tick starts {started}{last}");
            }
            let event = event_text(alloc, core, *state, *cost, queued.as_slice())?;
            format!(in alloc; "tick {event} starts {started}{last}")
        }
        Reply::Taken(command) => {
            let text = core.command_text(*command).unwrap_or("");
            format!(in alloc; "taken {} \"{text}\"", command.0)
        }
        Reply::Same => format!(in alloc; "same"),
        Reply::Empty => format!(in alloc; "empty"),
        Reply::Busy => format!(in alloc; "busy"),
        Reply::Stale => format!(in alloc; "stale"),
        Reply::Backwards => format!(in alloc; "backwards"),
        Reply::NoSuch => format!(in alloc; "nosuch"),
    }
}

/// What the readers return, as the reply line to `status`.
fn status_text(alloc: Global, core: &Core<'_>) -> Result<String, AllocError> {
    let name = core.state_name(core.state()).unwrap_or("");
    let owed = if core.owed() { "yes" } else { "no" };
    let queue = core.queue_len();
    let running = core.running();
    format!(in alloc;
        "status \"{name}\" owed {owed} queue {queue} running {running} now {}",
        core.now()
    )
}

/// The reply line to a request line; none if a session replies without the core.
fn answer(alloc: Global, core: &mut Core<'_>, line: &str) -> Result<Option<String>, AllocError> {
    if line == "status" {
        return Ok(Some(status_text(alloc, core)?));
    }
    if line == "trace" {
        return Ok(Some(format!(in alloc; "trace {}", core.trace_len())?));
    }
    let Some(step) = step_of(core, line) else {
        return Ok(None);
    };
    let reply = core.step(step);
    Ok(Some(reply_text(alloc, core, &reply)?))
}

/// Whether a reply line is one that a session gives without the core.
fn is_sessions_own(line: &str) -> bool {
    line == "bye" || line.starts_with("fault ")
}

/// Asserts the replies to the requests of a row.
fn check_row(
    rt: &impl Abort,
    alloc: Global,
    core: &mut Core<'_>,
    row: &Row,
) -> Result<(), AllocError> {
    for (request, wanted) in row.requests.lines().zip(row.replies.lines()) {
        match answer(alloc, core, request)? {
            Some(told) => same_in(rt, row.name, told.as_str(), wanted),
            None => holds_in(rt, row.name, is_sessions_own(wanted)),
        }
    }
    Ok(())
}

const LINK_UP: Step = Step::Link(IfaceId(0), LinkState::Up);

fn record(step: Step, answer: Answer, queued: u16, cost: u32) -> Record {
    Record {
        step,
        answer,
        state: StateId(0),
        queued,
        cost,
    }
}

/// Asserts what the readers of links return after a step of the row *First run*.
fn check_links(rt: &impl Abort, core: &Core<'_>) {
    same(rt, core.iface_of(b"carp0"), Some(IfaceId(0)));
    same(rt, core.iface_of(b"carp1"), None);
    same(rt, core.link(IfaceId(0)), Some(LinkState::Up));
}

/// Asserts that the trace is these records.
fn check_trace(rt: &impl Abort, core: &Core<'_>, records: &[Record]) {
    same(rt, core.trace_len(), records.len());
    for (index, wanted) in records.iter().enumerate() {
        same(rt, core.trace_at(index), Some(*wanted));
    }
}

#[test]
fn readers_after_steps(rt: HostRuntime) {
    let image = bytes_in(&rt, rt.alloc(), images::FIRST_RUN);
    let mut core = opened(&rt, rt.alloc(), image.as_slice());
    for step in [LINK_UP, LINK_UP, Step::Take, Step::Take] {
        core.step(step);
    }
    check_links(&rt, &core);
    let records = [
        record(LINK_UP, Answer::Done, 1, 6),
        record(LINK_UP, Answer::Same, 0, 0),
        record(Step::Take, Answer::Taken, 0, 0),
    ];
    check_trace(&rt, &core, records.as_slice());
}

/// Asserts what the readers return for the second test of the row *Held back* before its first run.
fn check_test(rt: &impl Abort, core: &Core<'_>) {
    same(rt, core.test_text(TestId(1)), Some("t2"));
    same(rt, core.test_value(TestId(1)), Some(None));
}

#[test]
fn readers_of_tests(rt: HostRuntime) {
    let image = bytes_in(&rt, rt.alloc(), images::HELD_BACK);
    check_test(&rt, &opened(&rt, rt.alloc(), image.as_slice()));
}

/// Asserts the reply to a step that names what is not in its table.
fn check_no_such(rt: &impl Abort, core: &mut Core<'_>, step: Step) {
    let reply = core.step(step);
    holds(rt, matches!(reply, Reply::NoSuch));
}

/// An interface that is not in the table.
#[test]
fn no_such_interface(rt: HostRuntime) {
    let image = bytes_in(&rt, rt.alloc(), images::HELD_BACK);
    let mut core = opened(&rt, rt.alloc(), image.as_slice());
    check_no_such(&rt, &mut core, Step::Link(IfaceId(1), LinkState::Up));
}
