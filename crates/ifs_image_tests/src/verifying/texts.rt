//! The texts of faults.

use crate::checks::same;
use ifs_base::{RoutineId, StateId};
use ifs_image::ImageFault;
use ifs_verify::{At, VerifyFault};
use std::test::Fail;

/// The text of each fault is its code and its place, as the program prints it.
#[test]
fn texts_of_faults(rt: HostRuntime) -> Result<(), Fail> {
    let state = At::State(StateId(255));
    let code = At::Code(RoutineId(15), 3);
    for (fault, text) in [
        (VerifyFault::NoEntry(At::Head), "V2 head"),
        (VerifyFault::NoEntry(state), "V2 state 255"),
        (VerifyFault::JumpTarget(code), "V3 routine 15 place 3"),
        (VerifyFault::LeftAtEnd(code), "V4 routine 15 place 3"),
        (VerifyFault::Unreached(code), "V5 routine 15 place 3"),
        (VerifyFault::WrongOperand(code), "V6 routine 15 place 3"),
        (VerifyFault::WaysDisagree(code), "V7 routine 15 place 3"),
        (VerifyFault::CallNotLower(code), "V8 routine 15 place 3"),
        (VerifyFault::WrongResults(code), "V9 routine 15 place 3"),
        (VerifyFault::StackOver(code), "V10 routine 15 place 3"),
        (VerifyFault::FramesOver(At::Head), "V11 head"),
        (VerifyFault::CostOver(code), "V12 routine 15 place 3"),
        (VerifyFault::CommandsOver(At::Head), "V13 head"),
        (VerifyFault::HandlerLeaves(state), "V14 state 255"),
        (VerifyFault::OutOfMemory, "V0"),
    ] {
        same(&rt, fault.to_string(rt.alloc())?.as_str(), text);
    }
    Ok(())
}

/// The same for each fault of reading.
#[test]
fn texts_of_faults_of_reading(rt: HostRuntime) -> Result<(), Fail> {
    for (fault, text) in [
        (ImageFault::Truncated { at: 4 }, "I1 byte 4"),
        (ImageFault::WrongMagic { at: 0 }, "I2 byte 0"),
        (ImageFault::WrongVersion { at: 4 }, "I3 byte 4"),
        (ImageFault::OutOfLimit { at: 17 }, "I4 byte 17"),
        (ImageFault::BadText { at: 41 }, "I5 byte 41"),
        (ImageFault::RepeatedName { at: 43 }, "I6 byte 43"),
        (ImageFault::Trailing { at: 61 }, "I7 byte 61"),
        (ImageFault::NoInstruction { at: 57 }, "I8 byte 57"),
    ] {
        let refused = VerifyFault::NoImage(fault);
        same(&rt, refused.to_string(rt.alloc())?.as_str(), text);
    }
    Ok(())
}
