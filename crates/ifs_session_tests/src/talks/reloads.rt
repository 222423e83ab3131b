//! Connections that ask for a reload, and the line that is written after it.

use super::serving::{Talk, bytes_in, macros_talk, opened, queue_three, quiet, quiet_talk};
use crate::checks::{holds, holds_in, same, same_in};
use ifs_base::TestId;
use ifs_core::{Core, Step};
use ifs_session::{
    ByteOut, DeviceFault, End, HostEvent, MemoryIn, MemoryOut, SessionFault, write_reloaded,
};
use ifs_test_images::images;
use std::alloc::Global;
use std::process::Abort;
use std::test::Fail;

/// The requests of connections on the image of the first run, their replies, and what is left unread of the requests.
const RELOADS: [(&str, &[u8], &str, &[u8]); 5] = [
    (
        "after other lines",
        b"link carp0 up\nlink carp0 up\nreload\nstop\n",
        "done \"a\" cost 6 queue 0\nsame\n",
        b"stop\n",
    ),
    (
        "at first",
        b"reload\nlink carp0 up\n",
        "",
        b"link carp0 up\n",
    ),
    ("twice", b"reload\nreload\n", "", b"reload\n"),
    ("without a newline", b"status\nreload", STATUS, b""),
    (
        "after what is no request",
        b"take\nresult 0 1 ok\nreload\n",
        "fault C1\nfault C1\n",
        b"",
    ),
];

/// The status of the first run at its beginning.
const STATUS: &str = "status \"a\" owed yes queue 0 running 0 now 0\n";

/// Asserts that a connection ended with a reload, and this was written.
fn check_reload(rt: &impl Abort, talk: &Talk<Global>, replies: &str, name: &str) {
    same_in(rt, name, talk.served.end, End::Reload);
    holds_in(rt, name, !talk.served.stopped);
    same_in(rt, name, talk.written(), replies.as_bytes());
    same_in(rt, name, talk.waiting, 0);
}

/// The lines before a reload have their replies. The reload has none, and no line after it is read.
#[test]
fn reloads(rt: HostRuntime) {
    for (name, requests, replies, left) in RELOADS {
        let mut input = MemoryIn::new(requests);
        let talk = quiet_talk(&rt, rt.alloc(), images::FIRST_RUN, &mut input);
        check_reload(&rt, &talk, replies, name);
        same_in(&rt, name, input.left(), left);
    }
}

/// Lines that resemble `reload`, and one that is a request. The last that resembles it has 257 bytes.
const RESEMBLING: &[u8] =
    b"reload \n reload\nReload\nreload x\nreloads\nreload\r\nreloadxxxxxxxxxxxxxxxxxxxxxxxxxxxxxxxxxxxxxxxxxxxxxxxxxxxxxxxxxxxxxxxxxxxxxxxxxxxxxxxxxxxxxxxxxxxxxxxxxxxxxxxxxxxxxxxxxxxxxxxxxxxxxxxxxxxxxxxxxxxxxxxxxxxxxxxxxxxxxxxxxxxxxxxxxxxxxxxxxxxxxxxxxxxxxxxxxxxxxxxxxxxxxxxxxxxxxxxxxxxxxxxxxxxxxxxxxxxxxxxxxxxxxxxxxxx\nlink carp0 up\n";

const RESEMBLING_REPLIES: &str = "fault C1\nfault C1\nfault C1\nfault C1\nfault C1\nfault C1\n\
                                  fault C2\ndone \"a\" cost 6 queue 0\n";

fn check_resembling(rt: &impl Abort, talk: &Talk<Global>) {
    same(rt, talk.written(), RESEMBLING_REPLIES.as_bytes());
    same(rt, talk.served.end, End::Closed);
    holds(rt, !talk.served.stopped);
}

/// What resembles `reload` is no request and ends nothing. A line that is too long has a fault of its own.
#[test]
fn what_resembles_a_reload(rt: HostRuntime) {
    let mut input = MemoryIn::new(RESEMBLING);
    let talk = quiet_talk(&rt, rt.alloc(), images::FIRST_RUN, &mut input);
    check_resembling(&rt, &talk);
}

/// The test had ended before the reload. Its end is a step after it, and its command is run last.
fn check_polled_before(rt: &impl Abort, talk: &Talk<Global>) {
    check_reload(rt, talk, "tick \"a\" cost 4 queue - starts 0:1\n", "polled");
    let steps = [
        Step::Tick(0),
        Step::Finished(TestId(0), 1, false),
        Step::Take,
    ];
    same(rt, talk.served.steps.as_slice(), steps.as_slice());
    let [.., HostEvent::Ran(command), HostEvent::Polled(None)] = talk.host.events() else {
        panic!(rt; "what happens at the host last is something else")
    };
    same(rt, command.as_bytes(), b"echo d".as_slice());
}

/// The end of a test before a reload becomes a step, and its command is run.
#[test]
fn ends_of_tests_before_a_reload(rt: HostRuntime) -> Result<(), Fail> {
    let talk = macros_talk(&rt, rt.alloc(), b"tick 0\nreload\nstatus\n")?;
    check_polled_before(&rt, &talk);
    Ok(())
}

/// Whether a connection reports that its write after `calls` calls fails, and no reload.
fn is_cut(rt: &impl Abort, alloc: Global, calls: u64) -> bool {
    let talk = Talk::new(
        rt,
        alloc,
        images::FIRST_RUN,
        quiet(alloc, alloc),
        &mut MemoryIn::new(b"link carp0 up\nreload\n"),
        MemoryOut::failing_after(alloc, calls),
    );
    holds_in(rt, calls, !talk.served.stopped);
    if talk.served.end == End::Reload {
        return false;
    }
    let end = End::Fault(SessionFault::WriteFailed);
    same_in(rt, calls, talk.served.end, end);
    true
}

/// A failed write ends a connection before the line of a reload is read. After that line there is no write.
#[test]
fn each_write_before_a_reload_fails_in_turn(rt: HostRuntime) {
    for calls in 0..100 {
        if !is_cut(&rt, rt.alloc(), calls) {
            holds_in(&rt, calls, calls > 3);
            return;
        }
    }
    holds_in(&rt, "some call is past the last", false);
}

/// Asserts the line that is written after a reload.
fn check_line(rt: &impl Abort, alloc: Global, core: &Core<'_>, line: &str) {
    let mut output = MemoryOut::new(alloc);
    same(rt, write_reloaded(core, &mut output), Ok(()));
    same(rt, output.written(), line.as_bytes());
}

/// The name of the state and the length of the queue are written.
#[test]
fn lines_of_reloads(rt: HostRuntime) {
    let image = bytes_in(&rt, rt.alloc(), images::FIRST_RUN);
    let mut core = opened(&rt, rt.alloc(), image.as_slice());
    check_line(&rt, rt.alloc(), &core, "reloaded \"a\" queue 0\n");
    queue_three(&mut core);
    check_line(&rt, rt.alloc(), &core, "reloaded \"a\" queue 3\n");
}

/// One state. Its name and its init's command have bytes that are escaped in quotes.
const QUOTES: &str =
    "4946535601000100010000000500010000000000010001000400000000000100000000000000000005225c1f7f7e00036120220002000300000000000000000000010000000000000100000000000003090000000b0000000000000000000100000000";

/// The quote in a name is escaped, and the init has queued a command.
#[test]
fn a_quote_in_the_line_of_a_reload(rt: HostRuntime) {
    let image = bytes_in(&rt, rt.alloc(), QUOTES);
    let core = opened(&rt, rt.alloc(), image.as_slice());
    check_line(&rt, rt.alloc(), &core, "reloaded \"a \\\"\" queue 1\n");
}

/// Asserts the output of a writer whose write after `calls` calls fails. Returns whether there was such a write.
fn is_line_cut(rt: &impl Abort, alloc: Global, core: &Core<'_>, calls: u64) -> bool {
    let mut output = MemoryOut::failing_after(alloc, calls);
    let answer = write_reloaded(core, &mut output);
    let line = b"reloaded \"a\" queue 0\n".as_slice();
    holds_in(rt, calls, line.starts_with(output.written()));
    if answer.is_ok() {
        return false;
    }
    same_in(rt, calls, answer, Err(SessionFault::WriteFailed));
    true
}

/// Asserts the outputs of writers that fail after more and more calls, up to one that does not fail.
fn check_cut_lines(rt: &impl Abort, alloc: Global, core: &Core<'_>) {
    for calls in 0..100 {
        if !is_line_cut(rt, alloc, core, calls) {
            holds_in(rt, calls, calls > 3);
            return;
        }
    }
    holds_in(rt, "some call is past the last", false);
}

/// Each write of the line fails in turn.
#[test]
fn each_write_of_the_line_fails_in_turn(rt: HostRuntime) {
    let image = bytes_in(&rt, rt.alloc(), images::FIRST_RUN);
    let core = opened(&rt, rt.alloc(), image.as_slice());
    check_cut_lines(&rt, rt.alloc(), &core);
}

/// A writer whose flushes fail, so nothing goes out.
#[derive(Drop)]
struct Stuck;

impl ByteOut for Stuck {
    fn put(&mut self, _bytes: &[u8]) -> Result<(), DeviceFault> {
        Ok(())
    }

    fn flush(&mut self) -> Result<(), DeviceFault> {
        Err(DeviceFault)
    }
}

fn check_stuck(rt: &impl Abort, core: &Core<'_>) {
    let answer = write_reloaded(core, &mut Stuck);
    same(rt, answer, Err(SessionFault::WriteFailed));
}

/// A line that does not go out is a failed write.
#[test]
fn a_line_that_does_not_go_out(rt: HostRuntime) {
    let image = bytes_in(&rt, rt.alloc(), images::FIRST_RUN);
    let core = opened(&rt, rt.alloc(), image.as_slice());
    check_stuck(&rt, &core);
}
