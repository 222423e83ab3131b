//! Images that are read in place: what each reader returns, and texts that outlive their view.

use crate::checks::same;
use ifs_base::{CommandId, IfaceId, Kind, LinkState, Op, RoutineId, StateId};
use ifs_image::{Budgets, Handlers, ImageView, view};
use ifs_test_images::{bytes_of, images};
use std::alloc::Global;
use std::process::Abort;
use std::test::Fail;

/// An image with two entries in each table, all of them different.
const TWO_OF_EACH: &str = "
    49465356 01 0002 0001 00000009 0003
    0002 0002 0002 0002 0002 0001
    0001 0000 0000000000000002
    0003 656d30
    0005 6361727031
    00000005 0004 74727565
    0000003c 0005 66616c7365
    0002 7570
    0004 646f776e
    0003 6f6e65 0000 0001 0000000000000001
    0003 74776f 0001 0000 0000000000000003
    01 0002 01000000 00000000
    00 0004 03010001 09000001 0a000001 00000000
";

fn handlers(init: u16, body: u16, mask: u64) -> Handlers {
    Handlers {
        init: RoutineId(init),
        body: RoutineId(body),
        mask,
    }
}

#[test]
fn each_reader(rt: HostRuntime) -> Result<(), Fail> {
    let bytes = bytes_of(rt.alloc(), TWO_OF_EACH)?;
    let image = view(rt.alloc(), bytes.as_slice())?;
    check_two_of_each(&rt, &image)
}

/// Asserts what each reader returns for the image with two entries in each table.
fn check_two_of_each(rt: &impl Abort, image: &ImageView<'_>) -> Result<(), Fail> {
    check_head(rt, image);
    check_names(rt, image, ["em0", "carp1"], ["up", "down"]);
    check_tests(rt, image);
    check_states(rt, image);
    same(rt, image.routines(), 2);
    check_code(rt, image, 0, &[Op::Yes, Op::Ret])?;
    check_kinds(rt, image, 0, &[], &[Kind::Truth])?;
    check_kinds(rt, image, 1, &[], &[])?;
    let link = Op::Link(IfaceId(1), LinkState::Down);
    let code = [
        link,
        Op::PushCommand(CommandId(1)),
        Op::PushState(StateId(1)),
        Op::Ret,
    ];
    check_code(rt, image, 1, &code)
}

fn check_head(rt: &impl Abort, image: &ImageView<'_>) {
    let budgets = Budgets {
        stack: 2,
        frames: 1,
        cost: 9,
        commands: 3,
    };
    same(rt, image.version(), 1);
    same(rt, image.budgets(), budgets);
    same(rt, image.initial(), StateId(1));
    same(rt, image.always(), handlers(1, 0, 2));
}

fn check_names(rt: &impl Abort, image: &ImageView<'_>, interfaces: [&str; 2], commands: [&str; 2]) {
    same(rt, image.interfaces(), 2);
    same(rt, image.commands(), 2);
    for (index, name) in interfaces.iter().enumerate() {
        if index < image.interfaces() {
            same(rt, image.interface(index), *name);
        }
    }
    for (index, text) in commands.iter().enumerate() {
        if index < image.commands() {
            same(rt, image.command(index), *text);
        }
    }
}

fn check_tests(rt: &impl Abort, image: &ImageView<'_>) {
    same(rt, image.tests(), 2);
    for (index, (period, text)) in [(5, "true"), (60, "false")].iter().enumerate() {
        if index < image.tests() {
            same(rt, image.test_period(index), *period);
            same(rt, image.test_text(index), *text);
        }
    }
}

fn check_states(rt: &impl Abort, image: &ImageView<'_>) {
    same(rt, image.states(), 2);
    let states = [("one", handlers(0, 1, 1)), ("two", handlers(1, 0, 3))];
    for (index, (name, given)) in states.iter().enumerate() {
        if index < image.states() {
            same(rt, image.state_name(index), *name);
            same(rt, image.state_handlers(index), *given);
        }
    }
}

/// Asserts that a routine takes and leaves these kinds.
fn check_kinds(
    rt: &impl Abort,
    image: &ImageView<'_>,
    routine: usize,
    params: &[Kind],
    results: &[Kind],
) -> Result<(), Fail> {
    if image.routines() <= routine {
        return Err(Fail::from("a routine"));
    }
    same(rt, image.params(routine), params);
    same(rt, image.results(routine), results);
    Ok(())
}

#[test]
fn each_kind(rt: HostRuntime) -> Result<(), Fail> {
    let bytes = bytes_of(rt.alloc(), images::CALL_IN_A_CALL)?;
    let image = view(rt.alloc(), bytes.as_slice())?;
    check_each_kind(&rt, &image)
}

/// Asserts what each routine of an image of version 2 takes and leaves.
fn check_each_kind(rt: &impl Abort, image: &ImageView<'_>) -> Result<(), Fail> {
    same(rt, image.version(), 2);
    let both = [Kind::Command, Kind::Truth];
    check_kinds(rt, image, 0, &both, &both)?;
    check_kinds(rt, image, 1, &[], &[Kind::Truth, Kind::Command])?;
    check_kinds(rt, image, 2, &[Kind::StateName], &[])?;
    check_kinds(rt, image, 3, &[Kind::Command], &[])?;
    check_kinds(rt, image, 4, &[], &[])
}

/// Asserts that a routine has these instructions, by each way to ask for them.
fn check_code(
    rt: &impl Abort,
    image: &ImageView<'_>,
    routine: usize,
    expected: &[Op],
) -> Result<(), Fail> {
    if image.routines() <= routine {
        return Err(Fail::from("a routine"));
    }
    same(rt, image.code_len(routine), expected.len());
    let code = image.code(routine);
    same(rt, code.len(), expected.len());
    same(rt, code.is_empty(), expected.is_empty());
    for (place, op) in expected.iter().enumerate() {
        if place < image.code_len(routine) {
            same(rt, image.op(routine, place), *op);
            same(rt, code.again().op(place), *op);
        }
    }
    Ok(())
}

/// The last command of an image, which lives as long as its bytes.
fn last_command<'a>(alloc: Global, bytes: &'a [u8]) -> Result<&'a str, Fail> {
    let image = view(alloc, bytes)?;
    match image.commands().checked_sub(1) {
        Some(last) => Ok(image.command(last)),
        None => Err(Fail::from("a command")),
    }
}

#[test]
fn texts_outlive_their_view(rt: HostRuntime) -> Result<(), Fail> {
    let bytes = bytes_of(rt.alloc(), TWO_OF_EACH)?;
    same(&rt, last_command(rt.alloc(), bytes.as_slice())?, "down");
    Ok(())
}
