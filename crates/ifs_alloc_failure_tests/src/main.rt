//! Refuses each allocation of each public call that allocates, in turn. It also lets each read, write and run of sessions fail in
//! turn.
//!
//! If an allocation is refused, the call has to return its own out-of-memory fault. The same call with ample memory then has to
//! return its usual answer. A preloaded library refuses the allocations (tests/programs/refuse_growth.c). Without it none is
//! refused. The program prints a line for each call. If a call breaks its promise, the program reports it on standard error and
//! ends with status 1.
#![tactic(auto)]

mod allocations;
mod answers;
mod calls;
mod failure;
mod faults;
mod findings;
mod images;
mod policies;
mod readings;
mod reloads;
mod sessions;
mod talks;

use failure::Failure;
use images::Images;
use sessions::Sessions;
use std::process::ExitCode;

fn main(rt: HostRuntime) -> ExitCode {
    match all(&rt) {
        Ok(()) => ExitCode::SUCCESS,
        Err(failure) => {
            // if standard error fails too, nothing is left to do
            let _written = eprintln!(rt; "{failure}");
            ExitCode::FAILURE
        }
    }
}

fn all(rt: &HostRuntime) -> Result<(), Failure> {
    try_policies(rt)?;
    let images = Images::new(rt.alloc())?;
    try_images(rt, &images)
}

fn try_policies(rt: &HostRuntime) -> Result<(), Failure> {
    let given = policies::policy_given(rt.alloc())?;
    policies::try_calls(rt, &given)?;
    findings::try_calls(rt)
}

fn try_images(rt: &HostRuntime, images: &Images) -> Result<(), Failure> {
    images.try_calls(rt)?;
    answers::try_calls(rt, images)?;
    let sessions = Sessions::new(rt.alloc(), images.bytes())?;
    try_sessions(rt, &sessions)
}

fn try_sessions(rt: &HostRuntime, sessions: &Sessions) -> Result<(), Failure> {
    sessions.try_calls(rt)?;
    talked(rt, sessions.image())
}

/// Makes the sessions of each trial on an image, and prints a line for each trial.
fn talked(rt: &HostRuntime, image: &[u8]) -> Result<(), Failure> {
    for (trial, name) in faults::TRIALS {
        print!(rt; "{name}: ")?;
        let failed = faults::tried(rt.alloc(), image, trial)?;
        println!(rt; "{failed}")?;
    }
    Ok(())
}
