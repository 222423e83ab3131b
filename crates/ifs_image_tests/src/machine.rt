//! Runs of small images, compared with worked values and with the table as a slow program.

ghost use Rattle.std.specs.Prelude.{◌≤◌, length};
ghost use Rattle.ifs_image.specs.Limits.{CountsFit};
ghost use Rattle.ifs_machine.specs.Run.{AreFactsOf};
ghost use Rattle.ifs_machine.specs.Views.{facts_of};

mod plain;

use crate::checks::{same, same_in};
use crate::largest::bytes_in;
use arrayvec::ArrayVec;
use ifs_base::LinkState;
use ifs_image::{ImageParts, ImageView, read};
use ifs_machine::{Effects, Facts, laws, run_handler};
use ifs_test_images::{bytes_of, images};
use ifs_verify::{Verified, verify};
use std::alloc::{AllocError, Global};
use std::process::Abort;
use std::test::Fail;

const NEVER: [Option<bool>; 2] = [None, None];

const DOWN: [LinkState; 2] = [LinkState::Down, LinkState::Unknown];

const UP: [LinkState; 2] = [LinkState::Up, LinkState::Unknown];

/// The version and the budgets of the images of these tests.
const BUDGETS: &str = "ifsv 1
stack 32
frames 32
cost 300000
commands 64
start 0
";

/// Two interfaces, two tests and two commands.
const TABLES: &str = "iface \"a\"
iface \"b\"
test 1 \"t\"
test 1 \"u\"
command \"c\"
command \"d\"
";

/// The text of an image up to its routines. It has two states, and all its handlers are one routine.
fn front_of(alloc: Global, routine: usize) -> Result<String, AllocError> {
    let handlers = format!(in alloc; "init {routine} body {routine} tests -\n")?;
    let handlers = handlers.as_str();
    let mut text = String::from_str(alloc, BUDGETS)?;
    for words in [
        "always ",
        handlers,
        TABLES,
        "state \"a\" ",
        handlers,
        "state \"b\" ",
        handlers,
    ] {
        text.push_str(words)?;
    }
    Ok(text)
}

/// The bytes of an image of version 2. Each routine is what it takes and leaves, and its instructions. The last one is every
/// handler.
fn spelled_in_two(alloc: Global, routines: &[(&str, &str)]) -> Result<Vec<u8>, Fail> {
    let front = front_of(alloc, routines.len().saturating_sub(1))?;
    let rest = front.as_str().strip_prefix("ifsv 1\n").ok_or("a front")?;
    let text = text_in_two(alloc, rest, routines)?;
    bytes_in(alloc, text.as_str())
}

fn text_in_two(alloc: Global, rest: &str, routines: &[(&str, &str)]) -> Result<String, AllocError> {
    let mut text = String::from_str(alloc, "ifsv 2\n")?;
    text.push_str(rest)?;
    for (kinds, code) in routines {
        writeln!(text, "routine {kinds}")?;
        put_code(&mut text, code)?;
    }
    Ok(text)
}

/// The bytes of an image with these routines. The last one is every handler, and the others have one result.
fn spelled(alloc: Global, routines: &[&str]) -> Result<Vec<u8>, Fail> {
    let text = text_of(alloc, routines)?;
    bytes_in(alloc, text.as_str())
}

fn text_of(alloc: Global, routines: &[&str]) -> Result<String, AllocError> {
    let last = routines.len().saturating_sub(1);
    let mut text = front_of(alloc, last)?;
    for (index, code) in routines.iter().enumerate() {
        put_routine(&mut text, if index < last { 1 } else { 0 }, code)?;
    }
    Ok(text)
}

/// Puts the lines of a routine. Its instructions have commas between them.
fn put_routine(text: &mut String, results: u8, code: &str) -> Result<(), AllocError> {
    writeln!(text, "routine results {results}")?;
    put_code(text, code)
}

/// Puts instructions, a line each.
fn put_code(text: &mut String, code: &str) -> Result<(), AllocError> {
    for instruction in code.split(',') {
        text.push_str(instruction)?;
        text.push_str("\n")?;
    }
    Ok(())
}

/// Facts for an image. The entries of each table take the values in turn.
fn facts_for(image: &ImageView<'_>, links: [LinkState; 2], tests: [Option<bool>; 2]) -> Facts
    requires { CountsFit image.now }
    ensures { AreFactsOf image.now (facts_of result) }
{
    let mut known_links = ArrayVec::new();
    for i in 0..image.interfaces() {
        known_links.push(links[i % 2]);
    }
    let mut known_tests = ArrayVec::new();
    for i in 0..image.tests() {
        known_tests.push(tests[i % 2]);
    }
    Facts {
        links: known_links,
        tests: known_tests,
    }
}

/// The run of the always body, from an empty queue.
fn body_run(
    verified: &Verified<'_>,
    links: [LinkState; 2],
    tests: [Option<bool>; 2],
) -> (u32, Effects) {
    laws::empty_queue_has_room();
    let image = verified.image();
    let facts = facts_for(image, links, tests);
    let mut effects = Effects {
        queued: ArrayVec::new(),
        want: None,
    };
    let cost = run_handler(verified, image.always().body, &facts, &mut effects);
    (cost, effects)
}

/// The run of the always body. Asserts that the slow program makes the same run on a copy of the image.
fn compared(
    rt: &impl Abort,
    alloc: Global,
    verified: &Verified<'_>,
    parts: &ImageParts,
    (links, tests): ([LinkState; 2], [Option<bool>; 2]),
) -> Result<plain::Ending, Fail> {
    let (cost, effects) = body_run(verified, links, tests);
    let slow = plain::slow_run(alloc, parts, &links, &tests, parts.always.body.0)?;
    let mut commands = Vec::new(alloc);
    for command in effects.queued.as_slice() {
        commands.push(command.0)?;
    }
    same(rt, cost, slow.cost);
    same(rt, commands.as_slice(), slow.commands.as_slice());
    same(rt, effects.want.map(|state| state.0), slow.wish);
    Ok(slow)
}

/// The run of the always body of an image. Asserts that the slow program makes the same run.
fn ran(
    rt: &impl Abort,
    alloc: Global,
    image: &[u8],
    facts: ([LinkState; 2], [Option<bool>; 2]),
) -> Result<plain::Ending, Fail> {
    let verified = verify(alloc, image)?;
    ran_beside(rt, alloc, image, &verified, facts)
}

fn ran_beside(
    rt: &impl Abort,
    alloc: Global,
    image: &[u8],
    verified: &Verified<'_>,
    facts: ([LinkState; 2], [Option<bool>; 2]),
) -> Result<plain::Ending, Fail> {
    let copied = read(alloc, image)?;
    compared(rt, alloc, verified, copied.parts(), facts)
}

/// The run of the last of these routines, which is every handler.
fn ran_code(
    rt: &impl Abort,
    alloc: Global,
    routines: &[&str],
    facts: ([LinkState; 2], [Option<bool>; 2]),
) -> Result<plain::Ending, Fail> {
    let image = spelled(alloc, routines)?;
    ran(rt, alloc, image.as_slice(), facts)
}

/// Asserts the cost of a run, its commands and its wish.
fn check_run(rt: &impl Abort, run: &plain::Ending, want: (u32, &[u16], Option<u16>), name: &str) {
    same_in(rt, name, run.cost, want.0);
    same_in(rt, name, run.commands.as_slice(), want.1);
    same_in(rt, name, run.wish, want.2);
}

/// Asserts the cost of a handler, its commands and its wish.
fn check(
    rt: &impl Abort,
    alloc: Global,
    code: &str,
    facts: ([LinkState; 2], [Option<bool>; 2]),
    want: (u32, &[u16], Option<u16>),
) -> Result<(), Fail> {
    let run = ran_code(rt, alloc, &[code], facts)?;
    check_run(rt, &run, want, code);
    Ok(())
}

/// The same for an image in hexadecimal.
fn check_image(
    rt: &impl Abort,
    alloc: Global,
    name: &str,
    image: &str,
    cost: u32,
) -> Result<(), Fail> {
    let bytes = bytes_of(alloc, image)?;
    let run = ran(rt, alloc, bytes.as_slice(), (DOWN, NEVER))?;
    check_run(rt, &run, (cost, &[], None), name);
    Ok(())
}

/// Worked images whose every handler is one routine, and what it costs.
#[test]
fn worked_rows(rt: HostRuntime) -> Result<(), Fail> {
    for (name, image, cost) in [
        ("smallest_image", images::SMALLEST_IMAGE, 1),
        ("ways_that_meet", images::WAYS_THAT_MEET, 6),
        ("short_jump", images::SHORT_JUMP, 3),
    ] {
        check_image(&rt, rt.alloc(), name, image, cost)?;
    }
    Ok(())
}

/// A handler queues one command, whatever the link is.
#[test]
fn queues(rt: HostRuntime) -> Result<(), Fail> {
    let code = "link 0 up, pop, cmd 0, queue, ret";
    check(&rt, rt.alloc(), code, (UP, NEVER), (5, &[0], None))
}

/// Code that queues command 1. If this code leaves false, it queues command 0 before that.
fn queueing(alloc: Global, code: &str) -> Result<String, AllocError> {
    let end = code.split(',').count().saturating_add(3);
    format!(in alloc; "{code}, jt {end}, cmd 0, queue, cmd 1, queue, ret")
}

/// Asserts what the code leaves, by the commands that are queued.
fn check_truth(
    rt: &impl Abort,
    alloc: Global,
    code: &str,
    facts: ([LinkState; 2], [Option<bool>; 2]),
    truth: bool,
) -> Result<(), Fail> {
    let all = queueing(alloc, code)?;
    let run = ran_code(rt, alloc, &[all.as_str()], facts)?;
    let queued: &[u16] = if truth { &[1] } else { &[0, 1] };
    same_in(rt, code, run.commands.as_slice(), queued);
    Ok(())
}

/// Code that looks at no fact.
#[test]
fn each_truth(rt: HostRuntime) -> Result<(), Fail> {
    for (code, truth) in [
        ("true", true),
        ("false", false),
        ("true, not", false),
        ("true, false, and", false),
        ("true, false, or", true),
        ("false, dup, or", false),
    ] {
        check_truth(&rt, rt.alloc(), code, (DOWN, NEVER), truth)?;
    }
    Ok(())
}

#[test]
fn each_fact(rt: HostRuntime) -> Result<(), Fail> {
    let failed = [None, Some(false)];
    let held = [None, Some(true)];
    for (code, links, tests, truth) in [
        ("link 0 up", UP, NEVER, true),
        ("link 0 up", DOWN, NEVER, false),
        ("known 1", DOWN, NEVER, false),
        ("known 1", DOWN, failed, true),
        ("test 1", DOWN, NEVER, false),
        ("test 1", DOWN, failed, false),
        ("test 1", DOWN, held, true),
    ] {
        check_truth(&rt, rt.alloc(), code, (links, tests), truth)?;
    }
    Ok(())
}

#[test]
fn last_wish(rt: HostRuntime) -> Result<(), Fail> {
    let code = "state 1, want, state 0, dup, want, pop, ret";
    check(&rt, rt.alloc(), code, (DOWN, NEVER), (7, &[], Some(0)))
}

/// The code of routines 1 to 14. Each calls the one before it twice.
fn calls(alloc: Global) -> Result<Vec<String>, AllocError> {
    let mut codes = Vec::new(alloc);
    for k in 0..14 {
        codes.push(format!(in alloc; "call {k}, call {k}, and, ret")?)?;
    }
    Ok(codes)
}

/// Routine 0, these routines and their handler.
fn with_handler<'a>(alloc: Global, codes: &'a [String]) -> Result<Vec<&'a str>, AllocError> {
    let mut routines = Vec::new(alloc);
    routines.push("true, ret")?;
    for code in codes {
        routines.push(code.as_str())?;
    }
    routines.push("call 14, pop, ret")?;
    Ok(routines)
}

/// Routine k costs 6 * 2^k - 4, so routine 14 costs 98,300. Its handler adds `call`, `pop` and `ret`.
#[test]
fn cost_through_calls(rt: HostRuntime) -> Result<(), Fail> {
    let codes = calls(rt.alloc())?;
    let routines = with_handler(rt.alloc(), codes.as_slice())?;
    let run = ran_code(&rt, rt.alloc(), routines.as_slice(), (DOWN, NEVER))?;
    same(&rt, run.cost, 98_303);
    Ok(())
}

/// Asserts the cost of a handler, its commands and its wish in an image of version 2.
fn check_in_two(
    rt: &impl Abort,
    alloc: Global,
    name: &str,
    routines: &[(&str, &str)],
    facts: ([LinkState; 2], [Option<bool>; 2]),
    want: (u32, &[u16], Option<u16>),
) -> Result<(), Fail> {
    let image = spelled_in_two(alloc, routines)?;
    let run = ran(rt, alloc, image.as_slice(), facts)?;
    check_run(rt, &run, want, name);
    Ok(())
}

/// Values that a routine takes and leaves keep their order. A value below them stays in place.
#[test]
fn values_keep_their_order(rt: HostRuntime) -> Result<(), Fail> {
    let both = "params command,command results command,command";
    let swapped: [(&str, &str); 2] = [
        (both, "ret"),
        (
            "params - results -",
            "cmd 0, cmd 1, call 0, queue, queue, ret",
        ),
    ];
    check_in_two(
        &rt,
        rt.alloc(),
        "two commands",
        &swapped,
        (DOWN, NEVER),
        (7, &[1, 0], None),
    )?;
    let dropped: [(&str, &str); 2] = [
        ("params command,command results -", "queue, pop, ret"),
        (
            "params - results -",
            "state 1, cmd 1, cmd 0, call 0, want, ret",
        ),
    ];
    check_in_two(
        &rt,
        rt.alloc(),
        "a state below",
        &dropped,
        (DOWN, NEVER),
        (9, &[0], Some(1)),
    )?;
    let three: [(&str, &str); 3] = [
        (
            "params - results truth,command,state",
            "true, cmd 1, state 0, ret",
        ),
        (
            "params truth,command,state results -",
            "want, queue, pop, ret",
        ),
        ("params - results -", "call 0, call 1, ret"),
    ];
    check_in_two(
        &rt,
        rt.alloc(),
        "three kinds",
        &three,
        (DOWN, NEVER),
        (11, &[1], Some(0)),
    )
}

/// A call in a call. The inner callee takes a value that its caller was given, and one of its caller's own.
#[test]
fn a_call_in_a_call(rt: HostRuntime) -> Result<(), Fail> {
    let routines: [(&str, &str); 5] = [
        ("params command,truth results command,truth", "not, ret"),
        ("params - results truth,command", "true, cmd 0, ret"),
        ("params state results -", "want, ret"),
        (
            "params command results -",
            "link 0 up, call 0, jf 5, queue, jump 6, pop, ret",
        ),
        (
            "params - results -",
            "call 1, call 3, jf 5, state 0, call 2, ret",
        ),
    ];
    check_in_two(
        &rt,
        rt.alloc(),
        "a call in a call, link up",
        &routines,
        (UP, NEVER),
        (18, &[], Some(0)),
    )?;
    check_in_two(
        &rt,
        rt.alloc(),
        "a call in a call, link down",
        &routines,
        (DOWN, NEVER),
        (19, &[0], Some(0)),
    )
}

/// The instructions of the small routines, with how many of the routines the rules accept.
const SMALL: [([&str; 5], u32); 2] = [
    (["known 0", "jf 4", "pop", "cmd 1", "queue"], 206),
    (["known 0", "not", "pop", "cmd 1", "queue"], 197),
];

/// The routine of these digits in base 5, with `ret` at its end.
fn small_code(
    alloc: Global,
    ops: &[&str; 5],
    length: u32,
    digits: u32,
) -> Result<String, AllocError> {
    let mut code = String::new(alloc);
    let mut rest = digits;
    for _ in 0..length {
        code.push_str(ops[(rest % 5) as usize])?;
        code.push_str(",")?;
        rest /= 5;
    }
    code.push_str("ret")?;
    Ok(code)
}

/// Compares the runs of the always body before the first test ended, and after it ended as false.
fn compared_twice(
    rt: &impl Abort,
    alloc: Global,
    verified: &Verified<'_>,
    parts: &ImageParts,
) -> Result<(), Fail> {
    compared(rt, alloc, verified, parts, (DOWN, NEVER))?;
    compared(rt, alloc, verified, parts, (DOWN, [Some(false), None]))?;
    Ok(())
}

/// Whether a routine is accepted. If so, asserts that it runs like the slow program.
fn small(rt: &impl Abort, alloc: Global, code: &str) -> Result<bool, Fail> {
    let image = spelled(alloc, &[code])?;
    agrees(rt, alloc, image.as_slice())
}

/// Whether an image is accepted. If so, asserts that its always body runs like the slow program.
fn agrees(rt: &impl Abort, alloc: Global, image: &[u8]) -> Result<bool, Fail> {
    let Ok(verified) = verify(alloc, image) else {
        return Ok(false);
    };
    compared_with_copy(rt, alloc, image, &verified)?;
    Ok(true)
}

fn compared_with_copy(
    rt: &impl Abort,
    alloc: Global,
    image: &[u8],
    verified: &Verified<'_>,
) -> Result<(), Fail> {
    let copied = read(alloc, image)?;
    compared_twice(rt, alloc, verified, copied.parts())
}

/// How many of the `count` routines of this length are accepted.
fn smalls(
    rt: &impl Abort,
    alloc: Global,
    ops: &[&str; 5],
    length: u32,
    count: u32,
) -> Result<u32, Fail> {
    let mut accepted = 0u32;
    for digits in 0..count {
        let code = small_code(alloc, ops, length, digits)?;
        if small(rt, alloc, code.as_str())? {
            accepted = accepted.saturating_add(1);
        }
    }
    Ok(accepted)
}

/// All routines of at most six instructions before their `ret`, made of five instructions.
#[test]
fn small_routines(rt: HostRuntime) -> Result<(), Fail> {
    for (ops, wanted) in SMALL {
        let mut accepted = 0u32;
        let mut count = 1u32;
        for length in 0..7 {
            accepted = accepted.saturating_add(smalls(&rt, rt.alloc(), &ops, length, count)?);
            count = count.saturating_mul(5);
        }
        same(&rt, accepted, wanted);
    }
    Ok(())
}
