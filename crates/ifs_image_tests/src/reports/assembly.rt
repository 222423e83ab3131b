//! Assembly texts that spell no image.

use super::{check_line, has_words};
use crate::checks::holds_in;
use ifs_asm::{AsmFault, assemble};
use ifs_image_reports::of_assembly;
use std::alloc::Global;
use std::process::Abort;
use std::test::Fail;

/// The lines before the tables, which have 79 bytes, and more.
macro_rules! front {
    ($($rest:literal),+) => {
        concat!(
            "ifsv 1\nstack 0\nframes 1\ncost 3\ncommands 0\nstart 0\nalways init 0 body 0 tests -\n",
            $($rest),+
        )
    };
}

/// The same with a state and the beginning of a routine before it, 129 bytes.
macro_rules! routine {
    ($rest:literal) => {
        front!(
            "state \"a\" init 0 body 0 tests -\nroutine results 0\n",
            $rest
        )
    };
}

const ROWS: &[(&str, &str)] = &[
    (
        "stack 0\n",
        "A3 0..5 `stack` cannot stand here; expected `ifsv`",
    ),
    ("ifsv 3\n", "A1 5..6 `3` is no version; expected `1`, `2`"),
    (
        "ifsv 1\n  stak 0\n",
        "A1 9..13 `stak` begins no line; expected `stack`; hint: did you mean `stack`?",
    ),
    (
        "ifsv 1\nstack 33\n",
        "A2 13..15 `33` is out of range; expected a number from 0 to 32",
    ),
    (
        "ifsv 1\nstack x\n",
        "A1 13..14 `x` is no number; expected a number from 0 to 32",
    ),
    (
        "ifsv 1\nstack\n",
        "A1 12..12 the line ends too early; expected a number from 0 to 32",
    ),
    (
        "ifsv 1\nstack 0 ; none\n",
        "A1 15..16 `;` is one word too many; expected the end of the line; hint: a comment has a line of its own, which begins with `;`",
    ),
    (
        "ifsv 1\nframes 1\n",
        "A3 7..13 `frames` cannot stand here; expected `stack`",
    ),
    (
        "ifsv 1",
        "A3 6..6 the text ends, and `stack` is missing; expected `stack`",
    ),
    (
        front!(""),
        "A3 79..79 the text ends, and a state is missing; expected `iface`, `test`, `command`, `state`",
    ),
    (
        front!("routine results 0\n"),
        "A3 79..86 `routine` cannot stand here; expected `iface`, `test`, `command`, `state`",
    ),
    (
        front!("test 10\n"),
        "A3 79..83 the instruction `test` cannot stand before the first routine; expected `iface`, `test`, `command`, `state`; hint: a test is `test PERIOD \"command\"`",
    ),
    (
        front!("iface em0\n"),
        "A1 85..88 `em0` is no text in quotes; expected a text in quotes",
    ),
    (
        front!("iface \"em0\n"),
        "A1 85..89 the text that begins here has no closing quote",
    ),
    (front!("iface \"a\\q\"\n"), "A1 87..89 `\\q` is no escape"),
    (
        front!("iface \"em0\"\niface \"\\x65m0\"\n"),
        "A1 97..105 `\"\\x65m0\"` is the name of interface 0 too",
    ),
    (
        front!("iface \"\"\n"),
        "A2 85..87 the text is empty; expected a text in quotes",
    ),
    (
        front!("state \"a\" init 0 body 0 test -\n"),
        "A1 103..107 `test` cannot stand here; expected `tests`",
    ),
    (
        front!("state \"a\" init 0 body 0 tests 5,2\n"),
        "A2 109..112 `5,2` does not ascend from 0 to 63; expected numbers with commas between them, `-`",
    ),
    (
        front!("state \"a\" init 0 body 0 tests -\nroutine params - results -\n"),
        "A1 119..125 `params` cannot stand here; expected `results`",
    ),
    (
        routine!("jmpp 3\n"),
        "A1 129..133 `jmpp` is no instruction; expected an instruction, `routine`; hint: did you mean `jump`?",
    ),
    (
        routine!("RET\n"),
        "A1 129..132 `RET` is no instruction; expected an instruction, `routine`; hint: did you mean `ret`?",
    ),
    (
        routine!("link 0 upp\n"),
        "A1 136..139 `upp` is no state of a link; expected `unknown`, `down`, `up`",
    ),
    (
        routine!("ret\niface \"a\"\n"),
        "A3 133..138 `iface` cannot stand here; expected an instruction, `routine`",
    ),
];

fn rows() -> &'static [(&'static str, &'static str)] {
    ROWS
}

fn check_row(rt: &impl Abort, alloc: Global, text: &str, wanted: &str) -> Result<(), Fail> {
    let Err(fault) = assemble(alloc, text) else {
        holds_in(rt, wanted, false);
        return Ok(());
    };
    let report = of_assembly(alloc, text.as_bytes(), fault)?;
    check_line(rt, alloc, &report, wanted)?;
    Ok(())
}

/// The place is the word that is wrong, and the message names it.
#[test]
fn names_words(rt: HostRuntime) -> Result<(), Fail> {
    for (text, wanted) in rows() {
        check_row(&rt, rt.alloc(), text, wanted)?;
    }
    Ok(())
}

/// Bytes that are no text are refused before they are assembled.
#[test]
fn names_bytes_of_no_character(rt: HostRuntime) -> Result<(), Fail> {
    let fault = AsmFault::Unknown { line: 2 };
    let report = of_assembly(rt.alloc(), b"ifsv 1\nstack \xe4\n", fault)?;
    let wanted = "A1 13..14 byte e4 belongs to no character";
    check_line(&rt, rt.alloc(), &report, wanted)?;
    Ok(())
}

/// A full table.
#[test]
fn names_full_tables(rt: HostRuntime) -> Result<(), Fail> {
    let mut text = String::from_str(rt.alloc(), front!(""))?;
    for index in 0..65u8 {
        writeln!(text, "iface \"{index:02}\"")?;
    }
    let wanted = "A2 783..788 64 interfaces come before; expected `test`, `command`, `state`";
    check_row(&rt, rt.alloc(), text.as_str(), wanted)
}

/// Each fault has a message and a rule, also on a line that the text does not have.
#[test]
fn each_fault_of_a_text_has_words(rt: HostRuntime) -> Result<(), Fail> {
    let text = routine!("ret\n").as_bytes();
    for line in 0..20 {
        for fault in [
            AsmFault::Unknown { line },
            AsmFault::OutOfRange { line },
            AsmFault::OutOfOrder { line },
            AsmFault::Memory,
        ] {
            let report = of_assembly(rt.alloc(), text, fault)?;
            holds_in(&rt, fault, has_words(&report));
        }
    }
    Ok(())
}
