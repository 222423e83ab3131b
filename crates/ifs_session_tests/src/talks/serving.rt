//! Served connections.

use super::Endless;
use crate::checks::{holds, holds_in, same, same_in};
use ifs_base::{IfaceId, LinkState, TestId};
use ifs_core::{Core, Step};
use ifs_session::{
    ByteIn, End, HostEvent, HostFault, HostText, MemoryIn, MemoryOut, ScriptHost, Served,
    SessionFault, run_queue, serve_one,
};
use ifs_test_images::{bytes_of, images};
use ifs_verify::verify;
use linked_list_allocator::LocalHeap;
use std::alloc::{AllocError, Allocator, Global};
use std::process::Abort;
use std::test::Fail;

/// The bytes of the image of these digits.
pub(super) fn bytes_in(rt: &impl Abort, alloc: Global, image: &str) -> Vec<u8> {
    bytes_of(alloc, image).expect(rt, "no bytes")
}

/// A core on an image.
pub(super) fn opened<'a>(rt: &impl Abort, alloc: Global, image: &'a [u8]) -> Core<'a> {
    match verify(alloc, image) {
        Err(fault) => panic!(rt; "not accepted: {fault}"),
        Ok(verified) => Core::open(alloc, verified).expect(rt, "not opened"),
    }
}

/// A host whose polls and runs return nothing.
pub(super) fn quiet<A: Allocator + Copy>(alloc: A, script: Global) -> ScriptHost<A> {
    ScriptHost::new(alloc, Vec::new(script), Vec::new(script))
}

/// The results of a connection. Functions that assert borrow them, so no assertion is in a function that drops them all.
#[derive(Drop)]
pub(super) struct Talk<A: Allocator + Copy> {
    /// How many commands wait after it.
    pub waiting: usize,
    pub host: ScriptHost<A>,
    output: MemoryOut<Global>,
    pub served: Served,
}

impl<A: Allocator + Copy> Talk<A> {
    /// Serves a connection of this input over this host, on the image of these digits.
    pub fn new(
        rt: &impl Abort,
        alloc: Global,
        image: &str,
        mut host: ScriptHost<A>,
        input: &mut impl ByteIn,
        mut output: MemoryOut<Global>,
    ) -> Self {
        let image = bytes_in(rt, alloc, image);
        let mut core = opened(rt, alloc, image.as_slice());
        let served = serve_one(&mut core, &mut host, input, &mut output);
        Talk {
            waiting: core.queue_len(),
            host,
            output,
            served,
        }
    }

    /// What was written.
    pub fn written(&self) -> &[u8] {
        self.output.written()
    }

    /// How many lines were written.
    fn lines(&self) -> usize {
        let newlines = self.written().iter().filter(|byte| **byte == b'\n');
        newlines.count()
    }
}

/// A connection of these requests on the image of these digits, over a quiet host.
pub(super) fn quiet_talk(
    rt: &impl Abort,
    alloc: Global,
    image: &str,
    input: &mut MemoryIn,
) -> Talk<Global> {
    let output = MemoryOut::new(alloc);
    Talk::new(rt, alloc, image, quiet(alloc, alloc), input, output)
}

/// Asserts that `count` commands were run, and that the last one has this text.
fn check_last_text(rt: &impl Abort, host: &ScriptHost<Global>, count: u32, text: &str) {
    let mut runs: u32 = 0;
    let mut last: &[u8] = &[];
    for event in host.events() {
        if let HostEvent::Ran(command) = event {
            runs = runs.saturating_add(1);
            last = command.as_bytes();
        }
    }
    same(rt, runs, count);
    same(rt, last, text.as_bytes());
}

/// The end of the only run of the row of macros.
const MACROS_ENDING: (TestId, u64, bool) = (TestId(0), 1, false);

const MACROS_REPLIES: &str = "tick \"a\" cost 4 queue - starts 0:1\n\
                              status \"a\" owed no queue 0 running 0 now 0\n\
                              bye\n";

fn check_macros(rt: &impl Abort, talk: &Talk<Global>) {
    same(rt, talk.written(), MACROS_REPLIES.as_bytes());
    let steps = [
        Step::Tick(0),
        Step::Finished(TestId(0), 1, false),
        Step::Take,
    ];
    same(rt, talk.served.steps.as_slice(), steps.as_slice());
    same(rt, talk.served.end, End::Stop);
    holds(rt, talk.served.stopped);
    check_macros_host(rt, &talk.host);
}

/// Asserts that the host was polled and returned this.
fn check_polled(rt: &impl Abort, event: &HostEvent<HostText>, wanted: Option<(TestId, u64, bool)>) {
    match event {
        HostEvent::Polled(ending) => same(rt, *ending, wanted),
        _ => holds_in(rt, "something else than a poll", false),
    }
}

/// Asserts that the host started the only test.
fn check_started(rt: &impl Abort, event: &HostEvent<HostText>) {
    match event {
        HostEvent::Started(start) => {
            same(rt, start.test, TestId(0));
            same(rt, start.run, 1);
            same(rt, start.text.as_bytes(), b"ping -q -c 1 host".as_slice());
        }
        _ => holds_in(rt, "something else than a start", false),
    }
}

/// Asserts that the host ran this text.
fn check_ran(rt: &impl Abort, event: &HostEvent<HostText>, text: &str) {
    match event {
        HostEvent::Ran(command) => same(rt, command.as_bytes(), text.as_bytes()),
        _ => holds_in(rt, "something else than a run", false),
    }
}

fn check_macros_host(rt: &impl Abort, host: &ScriptHost<Global>) {
    holds(rt, host.whole());
    let [opening, started, ended, ran, last, over] = host.events() else {
        panic!(rt; "there are six events")
    };
    check_polled(rt, opening, None);
    check_started(rt, started);
    check_polled(rt, ended, Some(MACROS_ENDING));
    check_ran(rt, ran, "echo d");
    check_polled(rt, last, None);
    check_polled(rt, over, None);
}

/// A connection of these requests on the image of macros, over a host whose second poll reports the end of the only run.
pub(super) fn macros_talk(
    rt: &impl Abort,
    alloc: Global,
    requests: &[u8],
) -> Result<Talk<Global>, Fail> {
    let endings = vec![in alloc; None, Some(MACROS_ENDING), None]?;
    let host = ScriptHost::new(alloc, endings, Vec::new(alloc));
    let mut input = MemoryIn::new(requests);
    let output = MemoryOut::new(alloc);
    Ok(Talk::new(rt, alloc, images::MACROS, host, &mut input, output))
}

/// A test starts and fails, and its command is run before the reply to `status`.
#[test]
fn macros(rt: HostRuntime) -> Result<(), Fail> {
    let talk = macros_talk(&rt, rt.alloc(), b"tick 0\nstatus\nstop\n")?;
    check_macros(&rt, &talk);
    Ok(())
}

/// The line `tick 0`, `count` times.
fn ticks(alloc: Global, count: u32) -> Result<Vec<u8>, AllocError> {
    let mut requests = Vec::new(alloc);
    for _ in 0..count {
        requests.extend_from_slice(b"tick 0\n")?;
    }
    Ok(requests)
}

fn check_full(rt: &impl Abort, talk: &Talk<Global>, left: &[u8]) {
    same(rt, talk.served.end, End::Full);
    holds(rt, !talk.served.stopped);
    same(rt, talk.served.steps.len(), 448);
    same(rt, left, b"tick 0\n".as_slice());
    same(rt, talk.lines(), 448);
}

/// Of 449 ticks 448 have a reply, and the last line is unread.
#[test]
fn full(rt: HostRuntime) -> Result<(), Fail> {
    let requests = ticks(rt.alloc(), 449)?;
    let mut input = MemoryIn::new(requests.as_slice());
    let talk = quiet_talk(&rt, rt.alloc(), images::SMALLEST_IMAGE, &mut input);
    check_full(&rt, &talk, input.left());
    Ok(())
}

const REFUSED_REPLIES: &str = "fault C1\nfault C1\nfault C1\nfault C1\nfault C4\nfault C3\n\
     done \"a\" cost 6 queue 0\n\
     trace 2\n\
     link 0 up -> done \"a\" cost 6 queue 1\n\
     take -> taken \"a\" cost 0 queue 0\n\
     fault C1\n";

fn check_refused(rt: &impl Abort, talk: &Talk<Global>) {
    same(rt, talk.written(), REFUSED_REPLIES.as_bytes());
    same(rt, talk.served.end, End::Closed);
    let steps = [Step::Link(IfaceId(0), LinkState::Up), Step::Take];
    same(rt, talk.served.steps.as_slice(), steps.as_slice());
    check_last_text(rt, &talk.host, 1, "echo m");
}

/// A client's `result` and `take` are no requests, whatever their numbers.
#[test]
fn what_hosts_do_is_no_request(rt: HostRuntime) {
    let requests =
        b"result 0 1 ok\ntake\nresult 99999 1 ok\ntakes\nlink carp1 up\ntick 99999999999999999999\nlink carp0 up\ntrace\ntake";
    let mut input = MemoryIn::new(requests);
    let talk = quiet_talk(&rt, rt.alloc(), images::FIRST_RUN, &mut input);
    check_refused(&rt, &talk);
}

/// Steps after which three commands are queued.
pub(super) fn queue_three(core: &mut Core<'_>) {
    for state in [LinkState::Up, LinkState::Down, LinkState::Up] {
        core.step(Step::Link(IfaceId(0), state));
    }
}

fn check_queue_is_run(rt: &impl Abort, core: &mut Core<'_>, host: &mut ScriptHost<Global>) {
    same(rt, core.queue_len(), 3);
    let steps = run_queue(core, host);
    same(
        rt,
        steps.as_slice(),
        [Step::Take, Step::Take, Step::Take].as_slice(),
    );
    same(rt, core.queue_len(), 0);
    check_last_text(rt, host, 3, "echo m");
}

/// Commands are taken until there is none, and their texts are run.
#[test]
fn queues_are_run(rt: HostRuntime) {
    let image = bytes_in(&rt, rt.alloc(), images::FIRST_RUN);
    let mut core = opened(&rt, rt.alloc(), image.as_slice());
    queue_three(&mut core);
    check_queue_is_run(&rt, &mut core, &mut quiet(rt.alloc(), rt.alloc()));
}

/// The requests of the row of the first run, from a client that is served. The service takes the commands.
const REQUESTS: &[u8] = b"link carp0 up\nlink carp0 up\nlink carp0 down\nlink carp0 up\nstop\n";

const REPLIES: &str =
    "done \"a\" cost 6 queue 0\nsame\ndone \"a\" cost 6 queue 0\ndone \"a\" cost 6 queue 0\nbye\n";

/// The statuses of runs: `calls` that end with 1, and then one that fails.
fn failing_run(alloc: Global, calls: u32) -> Result<Vec<Result<i32, HostFault>>, AllocError> {
    let mut statuses = Vec::new(alloc);
    for _ in 0..calls {
        statuses.push(Ok(1))?;
    }
    statuses.push(Err(HostFault))?;
    Ok(statuses)
}

fn check_stopped(rt: &impl Abort, talk: &Talk<Global>, calls: u32) {
    same_in(rt, calls, talk.written(), REPLIES.as_bytes());
    same_in(rt, calls, talk.served.end, End::Stop);
    same_in(rt, calls, talk.served.steps.len(), 7);
    check_last_text(rt, &talk.host, 3, "echo m");
}

/// Each run of the host fails in turn. The steps and the replies stay the same.
#[test]
fn each_run_fails_in_turn(rt: HostRuntime) -> Result<(), Fail> {
    for calls in 0..4 {
        let statuses = failing_run(rt.alloc(), calls)?;
        let talk = Talk::new(
            &rt,
            rt.alloc(),
            images::FIRST_RUN,
            ScriptHost::new(rt.alloc(), Vec::new(rt.alloc()), statuses),
            &mut MemoryIn::new(REQUESTS),
            MemoryOut::new(rt.alloc()),
        );
        check_stopped(&rt, &talk, calls);
    }
    Ok(())
}

fn check_broken(rt: &impl Abort, talk: &Talk<Global>, lines: usize, calls: usize) {
    let end = End::Fault(SessionFault::ReadFailed);
    same_in(rt, calls, talk.served.end, end);
    same_in(rt, calls, talk.lines(), lines);
    holds_in(rt, calls, REPLIES.as_bytes().starts_with(talk.written()));
    same_in(rt, calls, talk.waiting, 0);
}

/// Each read fails in turn. The lines that were complete by then are served, and their replies are written.
#[test]
fn each_read_fails_in_turn(rt: HostRuntime) {
    let mut lines: usize = 0;
    for (calls, byte) in REQUESTS.iter().enumerate() {
        let mut input = MemoryIn::failing_after(REQUESTS, calls as u64);
        let talk = quiet_talk(&rt, rt.alloc(), images::FIRST_RUN, &mut input);
        check_broken(&rt, &talk, lines, calls);
        if *byte == b'\n' {
            lines = lines.saturating_add(1);
        }
    }
}

/// Asserts the result of a connection whose write after `calls` calls fails. If that is the write of `bye`, the connection was
/// stopped all the same. Returns whether there was such a write.
fn check_cut(rt: &impl Abort, talk: &Talk<Global>, calls: u64) -> bool {
    holds_in(rt, calls, REPLIES.as_bytes().starts_with(talk.written()));
    same_in(rt, calls, talk.waiting, 0);
    if talk.served.end == End::Stop {
        return false;
    }
    let end = End::Fault(SessionFault::WriteFailed);
    same_in(rt, calls, talk.served.end, end);
    same_in(rt, calls, talk.served.stopped, talk.lines() == 4);
    true
}

/// Each write fails in turn. The output is a prefix of the replies.
#[test]
fn each_write_fails_in_turn(rt: HostRuntime) {
    for calls in 0..100 {
        let talk = Talk::new(
            &rt,
            rt.alloc(),
            images::FIRST_RUN,
            quiet(rt.alloc(), rt.alloc()),
            &mut MemoryIn::new(REQUESTS),
            MemoryOut::failing_after(rt.alloc(), calls),
        );
        if !check_cut(&rt, &talk, calls) {
            holds_in(&rt, calls, calls > 5);
            return;
        }
    }
    holds_in(&rt, "some call is past the last", false);
}

fn check_noted<A: Allocator + Copy>(rt: &impl Abort, talk: &Talk<A>, whole: bool) {
    same_in(rt, whole, talk.written(), REPLIES.as_bytes());
    same_in(rt, whole, talk.served.end, End::Stop);
    same(rt, talk.host.whole(), whole);
}

/// A note whose allocation fails is dropped. The replies and the end stay the same.
#[test]
fn growth_refused(rt: HostRuntime) -> Result<(), Fail> {
    for (size, whole) in [(4096, false), (65_536, true)] {
        let heap = LocalHeap::new(rt.alloc(), size)?;
        let talk = Talk::new(
            &rt,
            rt.alloc(),
            images::FIRST_RUN,
            quiet(&heap, rt.alloc()),
            &mut MemoryIn::new(REQUESTS),
            MemoryOut::new(rt.alloc()),
        );
        check_noted(&rt, &talk, whole);
    }
    Ok(())
}

fn check_too_much(rt: &impl Abort, talk: &Talk<Global>) {
    let end = End::Fault(SessionFault::TooMuchInput);
    same(rt, talk.served.end, end);
    same(
        rt,
        talk.written(),
        b"done \"a\" cost 6 queue 0\n".as_slice(),
    );
    same(rt, talk.served.steps.len(), 2);
}

/// Byte 16,777,217 of a connection ends it.
#[test]
fn too_much_input(rt: HostRuntime) {
    let mut input = Endless {
        line: b"link carp0 up\n",
        read: 0,
    };
    let talk = Talk::new(
        &rt,
        rt.alloc(),
        images::FIRST_RUN,
        quiet(rt.alloc(), rt.alloc()),
        &mut input,
        MemoryOut::new(rt.alloc()),
    );
    check_too_much(&rt, &talk);
    same(&rt, input.read, 16_777_217);
}
