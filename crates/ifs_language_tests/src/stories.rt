//! What `explain` prints of a daemon's steps.

use crate::checks::same;
use ifs_explain::{Times, explain};
use ifs_gen::compiled_core;
use ifs_options::Explained;
use std::alloc::Global;
use std::process::Abort;
use std::test::Fail;

/// A policy with an interface and a test, each with a quote in its name.
const POLICY: &str =
    "state backup { if 'a \"b'.link.up && 'ping \"x\"' every 10 set-state master }\n\
    state master { if em1.link.down set-state backup }\n";

/// The reply of a daemon. Some steps change the state, and some do not. Some ticks evaluate, and some do not. Some numbers are in
/// no table, and some lines report no step.
const REPLY: &str = "status \"backup\" owed no queue 0 running 1 now 20\n\
    trace 9\n\
    link 0 up -> done \"backup\" cost 3 queue 0\n\
    tick 7 -> ticked \"backup\" cost 0 queue 0\n\
    tick 10 -> ticked \"backup\" cost 4 queue 0\n\
    result 0 1 ok -> done \"master\" cost 9 queue 2\n\
    take -> taken \"master\" cost 0 queue 0\n\
    link 2 up -> same \"master\" cost 0 queue 0\n\
    result 1 18446744073709551615 fail -> same \"master\" cost 0 queue 0\n\
    tick 20 -> ticked \"master\" cost 0 queue 0\n\
    link 1 down -> done \"backup\" cost 7 queue 0\n\
    fault C1\n\
    link -> there\n";

const STEPS: &str = "status \"backup\" owed no queue 0 running 1 now 20\n\
    trace 9\n  \
      at - link \"a \\\"b\" up -> done \"backup\" cost 3 queue 0\n  \
      at 10 tick 10 -> ticked \"backup\" cost 4 queue 0\n\
    * at 10 result \"ping \\\"x\\\"\" every 10 run 1 ok -> done \"backup\" => \"master\" cost 9 queue 2\n  \
      at 10 take -> taken \"master\" cost 0 queue 0\n  \
      at 10 link 2 up -> same \"master\" cost 0 queue 0\n  \
      at 10 result 1 run 18446744073709551615 fail -> same \"master\" cost 0 queue 0\n\
    * at 20 link \"em1\" down -> done \"master\" => \"backup\" cost 7 queue 0\n\
    fault C1\n\
    link -> there\n";

/// The same where a tick has what the clock showed.
const TIMED: &str = "4 steps came before these\n\
    status \"backup\" owed no queue 0 running 1 now 20\n\
    trace 9\n  \
      at - link \"a \\\"b\" up -> done \"backup\" cost 3 queue 0\n  \
      at 10 03:12:20 tick 10 -> ticked \"backup\" cost 4 queue 0\n\
    * at 10 03:12:20 result \"ping \\\"x\\\"\" every 10 run 1 ok -> done \"backup\" => \"master\" cost 9 queue 2\n  \
      at 10 03:12:20 take -> taken \"master\" cost 0 queue 0\n  \
      at 10 03:12:20 link 2 up -> same \"master\" cost 0 queue 0\n  \
      at 10 03:12:20 result 1 run 18446744073709551615 fail -> same \"master\" cost 0 queue 0\n\
    * at 20 link \"em1\" down -> done \"master\" => \"backup\" cost 7 queue 0\n\
    fault C1\n\
    link -> there\n";

const REQUESTS: &str = "link a \"b up\n\
    tick 7\n\
    tick 10\n\
    result 0 1 ok\n\
    take\n\
    link 2 up\n\
    result 1 18446744073709551615 fail\n\
    tick 20\n\
    link em1 down\n";

/// Asserts what `explain` prints of a reply, with the names of the policy.
fn check(
    rt: &impl Abort,
    alloc: Global,
    reply: &str,
    explained: Explained,
    times: Option<Times<'_>>,
    wanted: &str,
) -> Result<(), Fail> {
    let mut image = Vec::new(alloc);
    let mut core = compiled_core(alloc, POLICY, &[], &mut image)?;
    let told = explain(alloc, &mut core, reply, explained, times)?;
    same(rt, told.as_str(), wanted);
    Ok(())
}

fn check_steps(rt: &impl Abort, alloc: Global, reply: &str, wanted: &str) -> Result<(), Fail> {
    check(rt, alloc, reply, Explained::Steps, None, wanted)
}

#[test]
fn steps(rt: HostRuntime) -> Result<(), Fail> {
    check_steps(&rt, rt.alloc(), REPLY, STEPS)
}

#[test]
fn requests(rt: HostRuntime) -> Result<(), Fail> {
    check(&rt, rt.alloc(), REPLY, Explained::Requests, None, REQUESTS)
}

/// The facts are of the time before the last tick, after 12 steps.
#[test]
fn times(rt: HostRuntime) -> Result<(), Fail> {
    let alloc = rt.alloc();
    let mut ticks = Vec::new(alloc);
    ticks.push((9, String::from_str(alloc, "03:12:19")?))?;
    ticks.push((10, String::from_str(alloc, "03:12:20")?))?;
    let times = Times {
        steps: 12,
        is_reloaded: false,
        ticks: ticks.as_slice(),
        changes: &[],
        killed: &[],
    };
    check(&rt, alloc, REPLY, Explained::Steps, Some(times), TIMED)
}

/// The first step is marked as a change of state if the reply has all steps, and not if some were forgotten.
#[test]
fn first_step(rt: HostRuntime) -> Result<(), Fail> {
    let mut reply = String::from_str(rt.alloc(), "link 0 up -> done \"master\" cost 3 queue 0\n")?;
    let mut wanted = String::from_str(
        rt.alloc(),
        "* at - link \"a \\\"b\" up -> done \"backup\" => \"master\" cost 3 queue 0\n",
    )?;
    for _ in 1..255 {
        reply.push_str("take -> taken \"master\" cost 0 queue 0\n")?;
        wanted.push_str("  at - take -> taken \"master\" cost 0 queue 0\n")?;
    }
    check_steps(&rt, rt.alloc(), reply.as_str(), wanted.as_str())?;
    reply.push_str("take -> taken \"backup\" cost 0 queue 0\n")?;
    wanted.push_str("* at - take -> taken \"master\" => \"backup\" cost 0 queue 0\n")?;
    let forgotten = wanted
        .as_str()
        .strip_prefix("* at - link \"a \\\"b\" up -> done \"backup\" => ")
        .unwrap_or_default();
    let wanted = format!(in rt.alloc(); "  at - link \"a \\\"b\" up -> done {forgotten}")?;
    check_steps(&rt, rt.alloc(), reply.as_str(), wanted.as_str())
}

/// The name of a state ends at its last quote, whatever words it has.
#[test]
fn quoted_states(rt: HostRuntime) -> Result<(), Fail> {
    let reply = "tick 1 -> ticked \"a\\\" cost 1 queue 2\\\\\" cost 3 queue 4\n\
        tick 2 -> ticked \"b\\x1f\" cost 1 queue 0\n\
        tick 3 -> ticked \"b\\\" cost 1 queue 0\n";
    let wanted =
        "* at 1 tick 1 -> ticked \"backup\" => \"a\\\" cost 1 queue 2\\\\\" cost 3 queue 4\n\
        * at 2 tick 2 -> ticked \"a\\\" cost 1 queue 2\\\\\" => \"b\\x1f\" cost 1 queue 0\n\
        tick 3 -> ticked \"b\\\" cost 1 queue 0\n";
    check_steps(&rt, rt.alloc(), reply, wanted)
}

/// Lines that no daemon writes report no step.
#[test]
fn other_lines(rt: HostRuntime) -> Result<(), Fail> {
    let reply = "tick 18446744073709551616 -> ticked \"a\" cost 1 queue 0\n\
        link 65536 up -> done \"a\" cost 1 queue 0\n\
        link 0 off -> done \"a\" cost 1 queue 0\n\
        result 0 1 pass -> done \"a\" cost 1 queue 0\n\
        take -> took \"a\" cost 0 queue 0\n\
        take -> taken a cost 0 queue 0\n\
        take -> taken \"a\" cost 4294967296 queue 0\n\
        take -> taken \"a\" cost 0 queue 65536\n\
        take -> taken \"a\" cost 0 queue 0 \n\
        take  -> taken \"a\" cost 0 queue 0\n";
    check_steps(&rt, rt.alloc(), reply, reply)?;
    check(&rt, rt.alloc(), reply, Explained::Requests, None, "")
}
