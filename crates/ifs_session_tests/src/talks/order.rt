//! The order in which a served connection starts tests, runs commands and replies, over a host and a
//! writer with one log.

use super::serving::{bytes_in, opened};
use crate::checks::same;
use ifs_base::TestId;
use ifs_core::{Core, Lists, Outcome, Step};
use ifs_session::{ByteOut, DeviceFault, Host, HostFault, MemoryIn, serve_one};
use ifs_test_images::images;
use std::alloc::Global;
use std::cell::Cell;
use std::process::Abort;

/// A test is started.
const START: u64 = 1;
/// A command is run.
const RUN: u64 = 2;
/// Bytes are written. Several writes without anything between them are one.
const WRITE: u64 = 3;
/// What was written goes out.
const FLUSH: u64 = 4;
/// A step is shown to the host.
const SHOW: u64 = 5;

/// What happened, one decimal digit each.
#[derive(Drop)]
struct Order {
    digits: Cell<u64>,
}

impl Order {
    fn note(&self, digit: u64) {
        let digits = self.digits.get();
        if digit != WRITE || digits % 10 != WRITE {
            self.digits.set(digits.wrapping_mul(10).wrapping_add(digit));
        }
    }
}

/// A host whose tests end as false, each as soon as it is started.
#[derive(Drop)]
struct OrderedHost<'a> {
    order: &'a Order,
    ended: Option<(TestId, u64, bool)>,
}

impl Host for OrderedHost<'_> {
    fn start(&mut self, test: TestId, run: u64, _text: &str) {
        self.order.note(START);
        self.ended = Some((test, run, false));
    }

    fn observe(&mut self, _core: &Core<'_>, _step: Step, _outcome: Outcome, _lists: &Lists) {
        self.order.note(SHOW);
    }

    fn poll(&mut self) -> Option<(TestId, u64, bool)> {
        let ended = self.ended;
        self.ended = None;
        ended
    }

    fn run(&mut self, _text: &str) -> Result<i32, HostFault> {
        self.order.note(RUN);
        Ok(0)
    }
}

/// A writer that drops what it is given.
#[derive(Drop)]
struct OrderedOut<'a> {
    order: &'a Order,
}

impl ByteOut for OrderedOut<'_> {
    fn put(&mut self, _bytes: &[u8]) -> Result<(), DeviceFault> {
        self.order.note(WRITE);
        Ok(())
    }

    fn flush(&mut self) -> Result<(), DeviceFault> {
        self.order.note(FLUSH);
        Ok(())
    }
}

/// What happens in a connection of these requests.
fn order_of(rt: &impl Abort, alloc: Global, image: &str, requests: &[u8]) -> u64 {
    let order = Order {
        digits: Cell::new(0),
    };
    let mut host = OrderedHost {
        order: &order,
        ended: None,
    };
    let mut output = OrderedOut { order: &order };
    let image = bytes_in(rt, alloc, image);
    let mut core = opened(rt, alloc, image.as_slice());
    serve_one(
        &mut core,
        &mut host,
        &mut MemoryIn::new(requests),
        &mut output,
    );
    order.digits.get()
}

/// A step is shown to the host before its test starts and its command runs. The reply to a tick is written and goes out after the
/// test that it starts. The replies to a link and to a question go out after the commands of that link, and of the test that ended
/// before it.
#[test]
fn replies_come_after_what_they_tell_of(rt: HostRuntime) {
    let starts = order_of(&rt, rt.alloc(), images::MACROS, b"tick 0\nstatus\nstop\n");
    same(&rt, starts, 45_134_523_434);
    let runs = order_of(&rt, rt.alloc(), images::FIRST_RUN, b"link carp0 up\nstop\n");
    same(&rt, runs, 4_523_434);
}

/// After a line that asks for a reload, nothing is written and nothing goes out. The test that had ended before it runs its
/// command.
#[test]
fn nothing_is_written_after_a_reload(rt: HostRuntime) {
    let reload = order_of(&rt, rt.alloc(), images::MACROS, b"tick 0\nreload\nstatus\n");
    same(&rt, reload, 4_513_452);
}
