//! Images that are not accepted.

use super::{check_image, check_line, has_words};
use crate::checks::holds_in;
use crate::largest::bytes_in;
use ifs_base::{RoutineId, StateId};
use ifs_image_reports::of_verification;
use ifs_verify::{At, VerifyFault};
use std::alloc::Global;
use std::process::Abort;
use std::test::Fail;

/// An image with these stated budgets and this initial state, and with these lines from its states on.
macro_rules! image {
    ($stated:literal, $start:literal, $($rest:literal),+) => {
        concat!(
            "ifsv 1\n",
            $stated,
            "start ",
            $start,
            "\nalways init 0 body 0 tests -\niface \"em0\"\ncommand \"c\"\n",
            $($rest),+
        )
    };
}

/// An image whose state `a` has this body, which is routine 1.
macro_rules! with_body {
    ($body:literal) => {
        image!(
            "stack 32\nframes 32\ncost 300000\ncommands 64\n",
            "0",
            "state \"a\" init 0 body 1 tests -\nroutine results 0\nret\n",
            $body
        )
    };
}

/// The same with these stated budgets and the body `true, pop, cmd 0, queue, ret`.
macro_rules! with_budgets {
    ($stated:literal) => {
        image!(
            $stated,
            "0",
            "state \"a\" init 0 body 1 tests -\nroutine results 0\nret\nroutine results 0\ntrue\npop\ncmd 0\nqueue\nret\n"
        )
    };
}

const ROWS: &[(&str, &str)] = &[
    (
        image!(
            "stack 0\nframes 1\ncost 3\ncommands 0\n",
            "9",
            "state \"a\" init 0 body 0 tests -\nroutine results 0\nret\n"
        ),
        "V2 head: initial state 9, and there is 1 state",
    ),
    (
        image!(
            "stack 0\nframes 1\ncost 3\ncommands 0\n",
            "0",
            "state \"a\" init 0 body 7 tests -\nroutine results 0\nret\n"
        ),
        "V2 state 0 \"a\": body routine 7, and there is 1 routine",
    ),
    (
        image!(
            "stack 0\nframes 1\ncost 3\ncommands 0\n",
            "0",
            "state \"a\" init 0 body 0 tests 5\nroutine results 0\nret\n"
        ),
        "V2 state 0 \"a\": test 5, and there is no test",
    ),
    (
        with_body!("routine results 0\nlink 2 up\npop\nret\n"),
        "V2 state 0 \"a\", body routine 1, place 0: `link 2 up`, and there is 1 interface",
    ),
    (
        with_body!("routine results 0\ntrue\njf 1\nret\n"),
        "V3 state 0 \"a\", body routine 1, place 1: jump target 1 is not later",
    ),
    (
        with_body!("routine results 0\ntrue\njf 3\nret\n"),
        "V3 state 0 \"a\", body routine 1, place 1: jump target 3 is outside of the routine, which has 3 instructions",
    ),
    (
        with_body!("routine results 0\n"),
        "V4 state 0 \"a\", body routine 1, place 0: the routine does not end with `ret`",
    ),
    (
        with_body!("routine results 0\ncmd 0\nqueue\n"),
        "V4 state 0 \"a\", body routine 1, place 1: the last instruction is `queue`",
    ),
    (
        with_body!("routine results 0\nret\nret\n"),
        "V5 state 0 \"a\", body routine 1, place 1: no earlier place leads to `ret`",
    ),
    (
        with_body!("routine results 0\ncmd 0\nnot\nret\n"),
        "V6 state 0 \"a\", body routine 1, place 1: `not` does not find a truth on the stack",
    ),
    (
        with_body!("routine results 0\ntrue\njf 3\ntrue\nret\n"),
        "V7 state 0 \"a\", body routine 1, place 2: `true` leads to place 3, where another way leads with another stack",
    ),
    (
        with_body!("routine results 0\ncall 1\nret\n"),
        "V8 state 0 \"a\", body routine 1, place 0: `call 1` calls no lower routine than 1",
    ),
    (
        with_body!("routine results 0\ntrue\nret\n"),
        "V9 state 0 \"a\", body routine 1, place 1: the stack at `ret` is not empty, and the routine has no results",
    ),
    (
        with_body!("routine results 0\ncall 2\nret\nroutine results 1\nret\n"),
        "V8 state 0 \"a\", body routine 1, place 0: `call 2` calls no lower routine than 1",
    ),
    (
        with_body!("routine results 1\ntrue\nret\n"),
        "V14 state 0 \"a\": body routine 1 has parameters `-` and results `truth`",
    ),
    (
        with_budgets!("stack 0\nframes 1\ncost 8\ncommands 1\n"),
        "V10 head: the stated stack is 0, and a handler has more",
    ),
    (
        with_budgets!("stack 1\nframes 0\ncost 8\ncommands 1\n"),
        "V11 head: the stated frames are 0, and a handler has more",
    ),
    (
        with_budgets!("stack 1\nframes 1\ncost 6\ncommands 1\n"),
        "V12 head: the stated cost is 6, and an event costs more",
    ),
    (
        with_budgets!("stack 1\nframes 1\ncost 8\ncommands 0\n"),
        "V13 head: the stated commands are 0, and an event queues more",
    ),
];

fn rows() -> &'static [(&'static str, &'static str)] {
    ROWS
}

/// The message names the record, the place and what is there.
#[test]
fn names_records(rt: HostRuntime) -> Result<(), Fail> {
    for (text, wanted) in rows() {
        let bytes = bytes_in(rt.alloc(), text)?;
        check_image(&rt, rt.alloc(), bytes.as_slice(), wanted)?;
    }
    Ok(())
}

/// An image whose routine 0 is no handler, and is called by the body of state `b`.
const CALLED: &str =
    "ifsv 2\nstack 2\nframes 2\ncost 7\ncommands 1\nstart 0\nalways init 1 body 1 tests -\ncommand \"c\"\nstate \"a\" init 1 body 1 tests -\nstate \"b\" init 1 body 2 tests -\nroutine params command results -\nqueue\nret\nroutine params - results -\nret\nroutine params - results -\ncmd 0\ncall 0\nret\n";

/// Reports on places that no image comes to easily.
#[test]
fn names_bounds_and_callees(rt: HostRuntime) -> Result<(), Fail> {
    let bytes = bytes_in(rt.alloc(), CALLED)?;
    let called = At::Code(RoutineId(0), 0);
    let body = At::Code(RoutineId(2), 0);
    for (fault, wanted) in [
        (
            VerifyFault::WrongOperand(called),
            "V6 routine 0, which the body of state 1 \"b\" calls, place 0: `queue` does not find a command on the stack",
        ),
        (
            VerifyFault::WrongOperand(At::Code(RoutineId(2), 1)),
            "V6 state 1 \"b\", body routine 2, place 1: `call 0` does not find its parameters `command` on the stack",
        ),
        (
            VerifyFault::StackOver(body),
            "V10 state 1 \"b\", body routine 2: the stack has over 32 values, those of callees counted",
        ),
        (
            VerifyFault::StackOver(At::Code(RoutineId(2), 1)),
            "V10 state 1 \"b\", body routine 2, place 1: `call 0` leaves over 32 values",
        ),
        (
            VerifyFault::FramesOver(body),
            "V11 state 1 \"b\", body routine 2: there are over 32 frames, callees counted",
        ),
        (
            VerifyFault::CostOver(called),
            "V12 routine 0, which the body of state 1 \"b\" calls: the cost is over 100,000, callees counted",
        ),
        (
            VerifyFault::CommandsOver(At::Code(RoutineId(1), 0)),
            "V13 always part, init routine 1: over 64 commands are queued, callees counted",
        ),
        (
            VerifyFault::HandlerLeaves(At::Head),
            "V14 head: always body routine 1 has parameters `-` and results `-`",
        ),
    ] {
        let report = of_verification(rt.alloc(), bytes.as_slice(), fault)?;
        check_line(&rt, rt.alloc(), &report, wanted)?;
    }
    Ok(())
}

/// The faults at a place.
fn faults_at(at: At) -> [VerifyFault; 14] {
    [
        VerifyFault::NoEntry(at),
        VerifyFault::JumpTarget(at),
        VerifyFault::LeftAtEnd(at),
        VerifyFault::Unreached(at),
        VerifyFault::WrongOperand(at),
        VerifyFault::WaysDisagree(at),
        VerifyFault::CallNotLower(at),
        VerifyFault::WrongResults(at),
        VerifyFault::StackOver(at),
        VerifyFault::FramesOver(at),
        VerifyFault::CostOver(at),
        VerifyFault::CommandsOver(at),
        VerifyFault::HandlerLeaves(at),
        VerifyFault::OutOfMemory,
    ]
}

fn check_words(rt: &impl Abort, alloc: Global, bytes: &[u8], at: At) -> Result<(), Fail> {
    for fault in faults_at(at) {
        let report = of_verification(alloc, bytes, fault)?;
        holds_in(rt, fault, has_words(&report));
    }
    Ok(())
}

/// Each fault has a message and a rule, also at a place that the image does not have.
#[test]
fn each_fault_of_an_image_has_words(rt: HostRuntime) -> Result<(), Fail> {
    let bytes = bytes_in(rt.alloc(), CALLED)?;
    for at in [
        At::Head,
        At::State(StateId(1)),
        At::State(StateId(9)),
        At::Code(RoutineId(2), 1),
        At::Code(RoutineId(2), 9),
        At::Code(RoutineId(9), 0),
    ] {
        check_words(&rt, rt.alloc(), bytes.as_slice(), at)?;
        check_words(&rt, rt.alloc(), b"", at)?;
    }
    Ok(())
}
