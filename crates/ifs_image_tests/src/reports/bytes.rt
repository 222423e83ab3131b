//! Bytes that spell no image.

use super::{check_image, has_words};
use crate::checks::holds_in;
use ifs_image::ImageFault;
use ifs_image_reports::of_verification;
use ifs_test_images::bytes_of;
use ifs_verify::VerifyFault;
use std::alloc::Global;
use std::process::Abort;
use std::test::Fail;

/// The smallest image, with other bytes from 15 to 53.
macro_rules! with_tables {
    ($bytes:literal) => {
        concat!("49465356 01 0000 0001 00000003 0000", $bytes, "00 0001 00000000")
    };
}

/// The smallest image, with other bytes from 54 on.
macro_rules! with_routine {
    ($bytes:literal) => {
        concat!(
            "49465356 01 0000 0001 00000003 0000
            0000 0000 0000 0001 0001 0000
            0000 0000 0000000000000000
            0001 61 0000 0000 0000000000000000",
            $bytes,
        )
    };
}

const ROWS: &[(&str, &str)] = &[
    ("", "I1 byte 0: the image ends before the magic"),
    ("49465356", "I1 byte 4: the image ends before the version"),
    (
        with_routine!("00 0001 0000"),
        "I1 byte 57: the image ends within instruction 0 of routine 0",
    ),
    ("ff465356", "I2 byte 0: the magic is ff465356"),
    (
        "69667376 2031",
        "I2 byte 0: the magic is 69667376; hint: this is an assembly text: `ifsvm asm FILE IMAGE` writes its image",
    ),
    (
        "7374617465",
        "I2 byte 0: the magic is 73746174; hint: this is a text: if it is a policy, `ifsvm compile FILE IMAGE` writes its image",
    ),
    ("49465356 03", "I3 byte 4: version 3"),
    ("49465356 01 0021", "I4 byte 5: the stated stack is 33"),
    (
        "49465356 01 0000 0001 000493e1",
        "I4 byte 9: the stated cost is 300001",
    ),
    (
        with_tables!("0000 0000 0000 0000"),
        "I4 byte 21: the number of states is 0",
    ),
    (
        with_tables!("0000 0001 0000 0001 0001 0000 0000 0000 0000000000000000 00093a81 0001 78"),
        "I4 byte 39: the period of test 0 is 604801",
    ),
    (
        with_routine!("02"),
        "I4 byte 54: the number of results of routine 0 is 2",
    ),
    (
        with_routine!("00 0401"),
        "I4 byte 55: the number of instructions of routine 0 is 1025",
    ),
    (
        with_tables!("0000 0000 0000 0001 0001 0000 0000 0000 0000000000000000 0000"),
        "I5 byte 39: the length of the name of state 0 is 0",
    ),
    (
        with_tables!("0000 0000 0000 0001 0001 0000 0000 0000 0000000000000000 0002 6100"),
        "I5 byte 41: the name of state 0 has a NUL at byte 42",
    ),
    (
        with_tables!("0000 0000 0001 0001 0001 0000 0000 0000 0000000000000000 0001 ff"),
        "I5 byte 41: command 0 is not UTF-8 at byte 41",
    ),
    (
        with_tables!("0002 0000 0000 0001 0001 0000 0000 0000 0000000000000000 0001 61 0001 61"),
        "I6 byte 44: the name of interface 1 is \"a\", and so is the name of interface 0",
    ),
    (
        with_routine!("00 0001 00000000 00"),
        "I7 byte 61: after the last routine there is 1 more byte",
    ),
    (
        with_routine!("00 0002 00000000 13000000"),
        "I8 byte 61: instruction 1 of routine 0 is 13000000, and 13 is no code",
    ),
    (
        with_routine!("00 0001 00000001"),
        "I8 byte 57: instruction 0 of routine 0 is 00000001, and code 00 has no operand",
    ),
    (
        with_routine!("00 0001 03030000"),
        "I8 byte 57: instruction 0 of routine 0 is 03030000, and 03 is no link state",
    ),
];

fn rows() -> &'static [(&'static str, &'static str)] {
    ROWS
}

/// The message names the field, and what is wrong with it.
#[test]
fn names_fields(rt: HostRuntime) -> Result<(), Fail> {
    for (hex, wanted) in rows() {
        let bytes = bytes_of(rt.alloc(), hex)?;
        check_image(&rt, rt.alloc(), bytes.as_slice(), wanted)?;
    }
    Ok(())
}

/// The faults at an offset.
fn faults_at(at: usize) -> [ImageFault; 9] {
    [
        ImageFault::Truncated { at },
        ImageFault::WrongMagic { at },
        ImageFault::WrongVersion { at },
        ImageFault::OutOfLimit { at },
        ImageFault::BadText { at },
        ImageFault::RepeatedName { at },
        ImageFault::Trailing { at },
        ImageFault::NoInstruction { at },
        ImageFault::Memory,
    ]
}

fn check_words(rt: &impl Abort, alloc: Global, bytes: &[u8], at: usize) -> Result<(), Fail> {
    for fault in faults_at(at) {
        let report = of_verification(alloc, bytes, VerifyFault::NoImage(fault))?;
        holds_in(rt, fault, has_words(&report));
    }
    Ok(())
}

/// Each fault has a message and a rule, also at an offset that is not its own.
#[test]
fn each_fault_of_bytes_has_words(rt: HostRuntime) -> Result<(), Fail> {
    let bytes = bytes_of(rt.alloc(), with_routine!("00 0001 00000000"))?;
    for at in 0..70 {
        check_words(&rt, rt.alloc(), bytes.as_slice(), at)?;
    }
    Ok(())
}
