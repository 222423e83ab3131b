//! Images as values, their bytes, and images that are cut off.

use crate::checks::{holds, same, same_in};
use ifs_base::{CommandId, IfaceId, Items, Kind, LinkState, Op, RoutineId, StateId, Text};
use ifs_image::{
    Budgets, Handlers, Image, ImageFault, ImageParts, Kinds, Routine, StateSpec, read, upgrade,
    view, write,
};
use ifs_test_images::{bytes_of, images};
use std::alloc::{AllocError, Global};
use std::process::Abort;
use std::test::Fail;

/// An image in which other bytes replace `removed` bytes at an offset.
fn changed(
    alloc: Global,
    image: &[u8],
    at: usize,
    removed: usize,
    put: &[u8],
) -> Result<Vec<u8>, Fail> {
    let mut bytes = Vec::new(alloc);
    let after = at.saturating_add(removed);
    bytes.extend_from_slice(image.get(..at).ok_or("the bytes before")?)?;
    bytes.extend_from_slice(put)?;
    bytes.extend_from_slice(image.get(after..).ok_or("the bytes behind")?)?;
    Ok(bytes)
}

/// Asserts that `view` and `read` refuse bytes with this fault.
fn check_refused(rt: &impl Abort, alloc: Global, bytes: &[u8], fault: ImageFault) {
    same(rt, view(alloc, bytes).err(), Some(fault));
    same(rt, read(alloc, bytes).err(), Some(fault));
}

/// Each prefix of an image is I1 at the incomplete field, and one byte more is I7.
fn cut_off(rt: &impl Abort, alloc: Global, hex: &str) -> Result<(), Fail> {
    let image = bytes_of(alloc, hex)?;
    let mut start: usize = 0;
    for field in hex.split_whitespace() {
        let end = start.saturating_add(field.len() / 2);
        for n in start..end {
            let front = image.get(..n).ok_or("a front")?;
            check_refused(rt, alloc, front, ImageFault::Truncated { at: start });
        }
        start = end;
    }
    same(rt, start, image.len());
    one_more(rt, alloc, image.as_slice())
}

/// An image and one byte more is I7 at that byte.
fn one_more(rt: &impl Abort, alloc: Global, image: &[u8]) -> Result<(), Fail> {
    let at = image.len();
    let more = changed(alloc, image, at, 0, b"\x00")?;
    check_refused(rt, alloc, more.as_slice(), ImageFault::Trailing { at });
    Ok(())
}

#[test]
fn every_byte_cut_off(rt: HostRuntime) -> Result<(), Fail> {
    cut_off(&rt, rt.alloc(), images::SMALLEST_IMAGE)?;
    cut_off(&rt, rt.alloc(), images::FIRST_RUN)?;
    cut_off(&rt, rt.alloc(), images::FIRST_POLICY)?;
    cut_off(&rt, rt.alloc(), images::GIVEN_COMMAND)?;
    cut_off(&rt, rt.alloc(), images::CALL_IN_A_CALL)
}

/// The same for an image in hexadecimal.
fn image_changed(
    alloc: Global,
    image: &str,
    at: usize,
    removed: usize,
    hex: &str,
) -> Result<Vec<u8>, Fail> {
    let put = bytes_of(alloc, hex)?;
    let image = bytes_of(alloc, image)?;
    changed(alloc, image.as_slice(), at, removed, put.as_slice())
}

/// The smallest image of version 2, which states 65 routines. It has the first 64, with 65,535 instructions in all.
fn sixty_five_routines(alloc: Global) -> Result<Vec<u8>, Fail> {
    let smallest = images::SMALLEST_UPGRADED;
    let mut bytes = image_changed(alloc, smallest, 24, 1, "41")?;
    bytes.truncate(54);
    for _ in 0..63 {
        put_long_routine(&mut bytes, 1_024)?;
    }
    put_long_routine(&mut bytes, 1_023)?;
    Ok(bytes)
}

/// Puts a routine of version 2 with `count` instructions.
fn put_long_routine(bytes: &mut Vec<u8>, count: u16) -> Result<(), AllocError> {
    bytes.extend_from_slice(b"\x00\x00")?;
    bytes.extend_from_slice(&count.to_be_bytes())?;
    for _ in 0..count {
        bytes.extend_from_slice(&[0; 4])?;
    }
    Ok(())
}

#[test]
fn instructions_in_all_of_version_two(rt: HostRuntime) -> Result<(), Fail> {
    let mut bytes = sixty_five_routines(rt.alloc())?;
    bytes.extend_from_slice(&[0; 4])?;
    same(&rt, read(rt.alloc(), &bytes).err(), None);
    bytes.truncate(262_450);
    bytes.extend_from_slice(b"\x00\x00\x00\x01\x00\x00\x00\x00")?;
    let fault = ImageFault::OutOfLimit { at: 262_452 };
    check_refused(&rt, rt.alloc(), bytes.as_slice(), fault);
    Ok(())
}

/// The bytes of an image's upgrade.
fn upgraded_bytes(alloc: Global, bytes: &[u8]) -> Result<Vec<u8>, Fail> {
    let image = upgrade(read(alloc, bytes)?);
    Ok(write(alloc, &image)?)
}

#[test]
fn upgrade_of_the_smallest_image(rt: HostRuntime) -> Result<(), Fail> {
    let bytes = bytes_of(rt.alloc(), images::SMALLEST_IMAGE)?;
    let wanted = bytes_of(rt.alloc(), images::SMALLEST_UPGRADED)?;
    let made = upgraded_bytes(rt.alloc(), bytes.as_slice())?;
    same(&rt, made.as_slice(), wanted.as_slice());
    Ok(())
}

/// Asserts that there are `count` texts, and that all are this one.
fn check_texts(rt: &impl Abort, texts: &[Text], count: usize, wanted: &str) {
    same(rt, texts.len(), count);
    for text in texts {
        same(rt, text.as_str(), wanted);
    }
}

/// The body of the first run.
const RUN: [Op; 5] = [
    Op::Link(IfaceId(0), LinkState::Up),
    Op::Pop,
    Op::PushCommand(CommandId(0)),
    Op::Queue,
    Op::Ret,
];

/// The body of the first policy.
const POLICY: [Op; 5] = [
    Op::Link(IfaceId(0), LinkState::Up),
    Op::JumpFalse(4),
    Op::PushCommand(CommandId(0)),
    Op::Queue,
    Op::Ret,
];

/// Asserts that the image of bytes is written as the same bytes.
fn written_again(rt: &impl Abort, alloc: Global, bytes: &[u8]) -> Result<Image, Fail> {
    let image = read(alloc, bytes)?;
    let written = write(alloc, &image)?;
    same(rt, written.as_slice(), bytes);
    Ok(image)
}

/// The same for an image in hexadecimal.
fn read_and_written(rt: &impl Abort, alloc: Global, hex: &str) -> Result<Image, Fail> {
    let bytes = bytes_of(alloc, hex)?;
    written_again(rt, alloc, bytes.as_slice())
}

#[test]
fn first_run(rt: HostRuntime) -> Result<(), Fail> {
    let image = read_and_written(&rt, rt.alloc(), images::FIRST_RUN)?;
    check_first(&rt, &image, 2, 0, 1, &RUN)
}

#[test]
fn first_policy(rt: HostRuntime) -> Result<(), Fail> {
    let image = read_and_written(&rt, rt.alloc(), images::FIRST_POLICY)?;
    check_first(&rt, &image, 4, 2, 3, &POLICY)
}

/// Asserts that an image has one interface `carp0`, one command `echo m` and one state `a`. All its routines except the body are
/// `ret`.
fn check_first(
    rt: &impl Abort,
    image: &Image,
    routines: usize,
    init: u16,
    body: u16,
    last: &[Op],
) -> Result<(), Fail> {
    check_front(rt, image.parts());
    check_state(rt, image.parts(), init, body);
    check_code(rt, image.parts(), routines, usize::from(body), last);
    Ok(())
}

fn check_front(rt: &impl Abort, parts: &ImageParts) {
    let budgets = Budgets {
        stack: 1,
        frames: 1,
        cost: 7,
        commands: 1,
    };
    same(rt, parts.budgets, budgets);
    check_texts(rt, parts.interfaces.as_slice(), 1, "carp0");
    holds(rt, parts.tests.is_empty());
    check_texts(rt, parts.commands.as_slice(), 1, "echo m");
}

fn check_state(rt: &impl Abort, parts: &ImageParts, init: u16, body: u16) {
    same(rt, parts.states.len(), 1);
    for state in parts.states.as_slice() {
        same(rt, state.name.as_str(), "a");
        same(rt, state.handlers.init, RoutineId(init));
        same(rt, state.handlers.body, RoutineId(body));
    }
}

/// Asserts that there are `routines` routines, and that all except the body are `ret`.
fn check_code(rt: &impl Abort, parts: &ImageParts, routines: usize, body: usize, last: &[Op]) {
    same(rt, parts.routines.len(), routines);
    for (i, routine) in parts.routines.as_slice().iter().enumerate() {
        let code = routine.code.as_slice();
        if i == body {
            same(rt, code, last);
        } else {
            same(rt, code, [Op::Ret].as_slice());
        }
    }
}

/// The parts of the smallest image with this stack and version. Its routine takes and leaves these kinds.
fn parts_with(
    alloc: Global,
    stack: u16,
    version: u8,
    params: Kinds,
    results: Kinds,
) -> Result<ImageParts, AllocError> {
    let handlers = Handlers {
        init: RoutineId(0),
        body: RoutineId(0),
        mask: 0,
    };
    let mut states = Vec::new(alloc);
    let name = Text::new(String::from_str(alloc, "a")?);
    states.push(StateSpec { name, handlers })?;
    let mut routines = Vec::new(alloc);
    let code = Items::new([Op::Ret].to_vec(alloc)?);
    routines.push(Routine {
        params,
        results,
        code,
    })?;
    Ok(ImageParts {
        version,
        budgets: Budgets {
            stack,
            frames: 1,
            cost: 3,
            commands: 0,
        },
        initial: StateId(0),
        always: handlers,
        interfaces: Items::new(Vec::new(alloc)),
        tests: Items::new(Vec::new(alloc)),
        commands: Items::new(Vec::new(alloc)),
        states: Items::new(states),
        routines: Items::new(routines),
    })
}

/// The parts of the smallest image with this stack.
fn smallest_parts(alloc: Global, stack: u16) -> Result<ImageParts, AllocError> {
    parts_with(alloc, stack, 1, Kinds::new(), Kinds::new())
}

/// A kind `count` times.
fn kinds_of(kind: Kind, count: usize) -> Kinds {
    let mut kinds = Kinds::new();
    for _ in 0..count {
        if !kinds.is_full() {
            kinds.push(kind);
        }
    }
    kinds
}

/// The versions of the format, and numbers of no version.
const VERSIONS: [u8; 5] = [0, 1, 2, 3, 255];

/// A kind, and how often a routine takes or leaves it.
type Counted = (Kind, usize);

/// In each row: what a routine takes, what it leaves, and the versions that this fits.
const FITTING: [(Counted, Counted, &[u8]); 9] = [
    ((Kind::Truth, 0), (Kind::Truth, 0), &[1, 2]),
    ((Kind::Truth, 0), (Kind::Truth, 1), &[1, 2]),
    ((Kind::Truth, 0), (Kind::Truth, 2), &[2]),
    ((Kind::Truth, 0), (Kind::Command, 1), &[2]),
    ((Kind::Truth, 0), (Kind::StateName, 1), &[2]),
    ((Kind::Truth, 1), (Kind::Truth, 0), &[2]),
    ((Kind::Command, 1), (Kind::Truth, 1), &[2]),
    ((Kind::Truth, 4), (Kind::StateName, 4), &[2]),
    ((Kind::Command, 1), (Kind::Command, 2), &[2]),
];

/// Whether parts fit if their only routine takes and leaves this.
fn version_fits(alloc: Global, version: u8, taken: Counted, left: Counted) -> Result<bool, Fail> {
    let params = kinds_of(taken.0, taken.1);
    let results = kinds_of(left.0, left.1);
    Ok(parts_with(alloc, 0, version, params, results)?.fits())
}

/// Asserts that what a routine takes and leaves fits these versions and no other one.
fn check_versions(
    rt: &impl Abort,
    alloc: Global,
    taken: Counted,
    left: Counted,
    fitting: &[u8],
) -> Result<(), Fail> {
    for version in VERSIONS {
        let fits = version_fits(alloc, version, taken, left)?;
        let wanted = fitting.contains(&version);
        same_in(
            rt,
            format_args!("{version} {taken:?} {left:?}"),
            fits,
            wanted,
        );
    }
    Ok(())
}

#[test]
fn what_fits_a_version(rt: HostRuntime) -> Result<(), Fail> {
    for (taken, left, fitting) in FITTING {
        check_versions(&rt, rt.alloc(), taken, left, fitting)?;
    }
    Ok(())
}

/// The bytes of the parts of the smallest image.
fn made(rt: &impl Abort, alloc: Global) -> Result<Vec<u8>, Fail> {
    let parts = smallest_parts(alloc, 0)?;
    // the caller of `Image::new` has to know this, so it is asserted here
    assert!(rt; parts.fits());
    Ok(write(alloc, &Image::new(parts))?)
}

#[test]
fn smallest_image(rt: HostRuntime) -> Result<(), Fail> {
    let made = made(&rt, rt.alloc())?;
    let bytes = bytes_of(rt.alloc(), images::SMALLEST_IMAGE)?;
    same(&rt, made.as_slice(), bytes.as_slice());
    Ok(())
}

#[test]
fn a_stack_over_the_limit(rt: HostRuntime) -> Result<(), Fail> {
    let parts = smallest_parts(rt.alloc(), 33)?;
    holds(&rt, !parts.fits());
    Ok(())
}
