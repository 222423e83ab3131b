//! The first policy through each public call of the compiler.

use crate::checks::{same, same_in};
use ifs_base::{IfaceId, LinkState};
use ifs_core::{Core, Reply, Step};
use ifs_file_commands::{Answer, answer};
use ifs_gen::laws::replies_of_text;
use ifs_gen::{compile, compiled_core, generate};
use ifs_image::{Image, write};
use ifs_options::Task;
use ifs_policy::{Policy, policy_of};
use ifs_test_images::reloads::FIRST_POLICY;
use ifs_test_images::{bytes_of, images};
use std::alloc::Global;
use std::process::Abort;
use std::test::Fail;

/// Asserts that an image is that of the first policy.
fn check_first(rt: &impl Abort, alloc: Global, image: &[u8]) -> Result<(), Fail> {
    let expected = bytes_of(alloc, images::FIRST_POLICY)?;
    same(rt, image, expected.as_slice());
    Ok(())
}

#[test]
fn compiles(rt: HostRuntime) -> Result<(), Fail> {
    let image = compile(rt.alloc(), FIRST_POLICY, &[])?;
    check_first(&rt, rt.alloc(), image.as_slice())
}

/// The bytes of the image that is generated from a text's policy.
fn written(alloc: Global, text: &str) -> Result<Vec<u8>, Fail> {
    let found = policy_of(alloc, text, &[])?;
    generated(alloc, &found.policy)
}

fn generated(alloc: Global, policy: &Policy) -> Result<Vec<u8>, Fail> {
    let image = generate(alloc, policy)?;
    spelling(alloc, &image)
}

fn spelling(alloc: Global, image: &Image) -> Result<Vec<u8>, Fail> {
    Ok(write(alloc, image)?)
}

#[test]
fn generates(rt: HostRuntime) -> Result<(), Fail> {
    let image = written(rt.alloc(), FIRST_POLICY)?;
    check_first(&rt, rt.alloc(), image.as_slice())
}

/// Its core is in state `a`, and one event costs 7 instructions at most.
#[test]
fn opens_a_core(rt: HostRuntime) -> Result<(), Fail> {
    let mut image = Vec::new(rt.alloc());
    let core = compiled_core(rt.alloc(), FIRST_POLICY, &[], &mut image)?;
    check_core(&rt, &core);
    Ok(())
}

/// A text without a policy gets no core, and leaves the buffer for its image as it was.
#[test]
fn a_refused_text_leaves_the_buffer(rt: HostRuntime) -> Result<(), Fail> {
    let mut image = Vec::new(rt.alloc());
    image.push(b'x')?;
    let is_refused = compiled_core(rt.alloc(), "state", &[], &mut image).is_err();
    same(&rt, is_refused, true);
    same(&rt, image.as_slice(), b"x".as_slice());
    Ok(())
}

fn check_core(rt: &impl Abort, core: &Core<'_>) {
    same(rt, core.image().budgets().cost, 7);
    same(rt, core.state_name(core.state()), Some("a"));
}

/// The first report that its link is up queues its one command. The second report changes nothing.
fn check_replies(rt: &impl Abort, replies: &[Reply]) {
    let [Reply::Done { queued, cost, .. }, Reply::Same] = replies else {
        panic!(rt; "other replies")
    };
    same(rt, queued.len(), 1);
    same(rt, *cost, 6);
}

#[test]
fn replies(rt: HostRuntime) -> Result<(), Fail> {
    let up = Step::Link(IfaceId(0), LinkState::Up);
    let replies = replies_of_text(rt.alloc(), FIRST_POLICY, &[], &[up, up])?;
    check_replies(&rt, replies.as_slice());
    Ok(())
}

/// A policy with `count` conditions, at most 576. Each is in two `if`s of one state, and a state has 32 of them. The condition of a
/// number has four or more instructions that negate the link of one of 64 interfaces.
fn repeated(alloc: Global, count: u16) -> Result<String, Fail> {
    let mut policy = String::new(alloc);
    for number in 0..count {
        if number % 32 == 0 {
            write!(policy, "state s{} {{", number / 32)?;
        }
        put_twice(&mut policy, number)?;
        if number % 32 == 31 || number + 1 == count {
            policy.push_str(" } ")?;
        }
    }
    Ok(policy)
}

/// Adds two `if`s of the condition of a number.
fn put_twice(policy: &mut String, number: u16) -> Result<(), Fail> {
    for _ in 0..2 {
        policy.push_str(" if ! ! ! !")?;
        for _ in 0..number / 192 {
            policy.push_str(" !")?;
        }
        let state = ["up", "down", "unknown"][usize::from(number / 64 % 3)];
        write!(policy, " i{}.link.{state} {{ }}", number % 64)?;
    }
    Ok(())
}

/// What `compile` prints for policies with this many conditions. The first 510 are shared. The front has 39 bytes, the interfaces
/// 310 and the states 262. A routine has 3 bytes and 4 for each instruction. A shared routine has its condition's 5, 6 or 7
/// instructions and one more. The inits and bodies of 16 states and the always part have one instruction each. Each call of a
/// shared routine adds two. A condition that is not shared adds its own instructions and one more.
const LIMITS_OF_SHARED: [(u16, &str); 3] = [
    (509, "ok 24504 bytes\n"),
    (510, "ok 24555 bytes\n"),
    (511, "ok 24619 bytes\n"),
];

fn check_printed(rt: &impl Abort, answer: &Answer, count: u16, line: &str) {
    same_in(rt, count, answer.text.as_str(), line);
}

#[test]
fn limits_of_shared(rt: HostRuntime) -> Result<(), Fail> {
    for (count, line) in LIMITS_OF_SHARED {
        let policy = repeated(rt.alloc(), count)?;
        let answer = answer(rt.alloc(), Task::Compile, policy.as_str().as_bytes(), &[])?;
        check_printed(&rt, &answer, count, line);
    }
    Ok(())
}
