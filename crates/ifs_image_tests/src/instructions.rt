//! The table of instructions, its bytes written by hand, and bytes that spell none.

use crate::checks::{holds, same, same_in};
use ifs_base::{
    CommandId, IfaceId, Items, LinkState, Number, Op, QuotedByte, RoutineId, StateId, TestId, Text,
    decode_op, digit_value, encode_op, hex_digit, limits, parse_number, quote_byte,
};
use ifs_terminal::{Escaped, Shown, acts_on_terminal};
use std::alloc::{AllocError, Global};
use std::process::Abort;
use std::test::Fail;

/// Every instruction once, with its four bytes.
const TABLE: [(Op, [u8; 4]); 21] = [
    (Op::Ret, [0x00, 0x00, 0x00, 0x00]),
    (Op::Yes, [0x01, 0x00, 0x00, 0x00]),
    (Op::No, [0x02, 0x00, 0x00, 0x00]),
    (
        Op::Link(IfaceId(0), LinkState::Unknown),
        [0x03, 0x00, 0x00, 0x00],
    ),
    (
        Op::Link(IfaceId(1), LinkState::Down),
        [0x03, 0x01, 0x00, 0x01],
    ),
    (
        Op::Link(IfaceId(63), LinkState::Up),
        [0x03, 0x02, 0x00, 0x3f],
    ),
    (Op::Test(TestId(2)), [0x04, 0x00, 0x00, 0x02]),
    (Op::Known(TestId(63)), [0x05, 0x00, 0x00, 0x3f]),
    (Op::Negate, [0x06, 0x00, 0x00, 0x00]),
    (Op::Both, [0x07, 0x00, 0x00, 0x00]),
    (Op::Either, [0x08, 0x00, 0x00, 0x00]),
    (Op::PushCommand(CommandId(1023)), [0x09, 0x00, 0x03, 0xff]),
    (Op::PushState(StateId(256)), [0x0a, 0x00, 0x01, 0x00]),
    (Op::Queue, [0x0b, 0x00, 0x00, 0x00]),
    (Op::Want, [0x0c, 0x00, 0x00, 0x00]),
    (Op::Jump(1), [0x0d, 0x00, 0x00, 0x01]),
    (Op::JumpFalse(0x1234), [0x0e, 0x00, 0x12, 0x34]),
    (Op::JumpTrue(0xff00), [0x0f, 0x00, 0xff, 0x00]),
    (Op::Call(RoutineId(65535)), [0x10, 0x00, 0xff, 0xff]),
    (Op::Pop, [0x11, 0x00, 0x00, 0x00]),
    (Op::Dup, [0x12, 0x00, 0x00, 0x00]),
];

/// The codes of instructions without operand and without link state.
const PLAIN_CODES: [u8; 10] = [0x00, 0x01, 0x02, 0x06, 0x07, 0x08, 0x0b, 0x0c, 0x11, 0x12];

/// The codes of instructions with an operand and without link state.
const INDEXED_CODES: [u8; 8] = [0x04, 0x05, 0x09, 0x0a, 0x0d, 0x0e, 0x0f, 0x10];

#[test]
fn every_instruction(rt: HostRuntime) {
    for (op, bytes) in TABLE {
        assert_eq!(rt; encode_op(op), bytes, "{op:?}");
        assert_eq!(rt; decode_op(bytes), Some(op), "{op:?}");
    }
}

/// Asserts that a code with any of these three bytes after it spells no instruction.
fn check_none(rt: &impl Abort, code: u8, rests: &[[u8; 3]]) {
    for [one, two, three] in rests {
        let bytes = [code, *one, *two, *three];
        assert_eq!(rt; decode_op(bytes), None, "{bytes:?}");
    }
}

/// The same for several codes.
fn check_all_none(rt: &impl Abort, codes: &[u8], rests: &[[u8; 3]]) {
    for code in codes {
        check_none(rt, *code, rests);
    }
}

#[test]
fn unknown_codes(rt: HostRuntime) {
    for code in 0x13..=0xff {
        check_none(&rt, code, &[[0, 0, 0]]);
    }
}

#[test]
fn byte_one_where_there_is_none(rt: HostRuntime) {
    check_all_none(&rt, &PLAIN_CODES, &[[1, 0, 0], [255, 0, 0]]);
    check_all_none(&rt, &INDEXED_CODES, &[[1, 0, 0], [2, 1, 1]]);
}

#[test]
fn operand_where_there_is_none(rt: HostRuntime) {
    check_all_none(&rt, &PLAIN_CODES, &[[0, 0, 1], [0, 1, 0]]);
}

#[test]
fn link_states_over_two(rt: HostRuntime) {
    for state in 3..=255 {
        check_none(&rt, 0x03, &[[state, 0, 0]]);
    }
}

#[test]
fn items_give_back_what_they_hold(rt: HostRuntime) -> Result<(), Fail> {
    let items = Items::new([3u8, 5].to_vec(rt.alloc())?);
    check_items(&rt, &items);
    same(&rt, items.into_vec().as_slice(), [3u8, 5].as_slice());
    Ok(())
}

fn check_items(rt: &impl Abort, items: &Items<u8>) {
    same(rt, items.len(), 2);
    holds(rt, !items.is_empty());
    same(rt, items.as_slice(), [3u8, 5].as_slice());
}

fn text_of(alloc: Global, text: &str) -> Result<Text, AllocError> {
    Ok(Text::new(String::from_str(alloc, text)?))
}

fn check_text(rt: &impl Abort, text: &Text) {
    same(rt, text.as_str(), "carp0");
    same(rt, text.as_bytes(), b"carp0".as_slice());
}

#[test]
fn texts_give_back_what_they_hold(rt: HostRuntime) -> Result<(), Fail> {
    check_text(&rt, &text_of(rt.alloc(), "carp0")?);
    Ok(())
}

fn check_other(rt: &impl Abort, alloc: Global, text: &Text, other: &str) -> Result<(), AllocError> {
    let other = text_of(alloc, other)?;
    holds(rt, other != *text);
    Ok(())
}

fn check_copy(rt: &impl Abort, text: &Text) -> Result<(), AllocError> {
    let copy = text.clone()?;
    holds(rt, copy == *text);
    Ok(())
}

#[test]
fn texts_are_equal_where_their_bytes_are(rt: HostRuntime) -> Result<(), Fail> {
    let text = text_of(rt.alloc(), "carp0")?;
    check_copy(&rt, &text)?;
    for other in ["carp1", "carp", "carp00", "Carp0", ""] {
        check_other(&rt, rt.alloc(), &text, other)?;
    }
    Ok(())
}

/// A byte `length` times.
fn repeated(alloc: Global, byte: u8, length: usize) -> Result<Vec<u8>, AllocError> {
    let mut bytes = Vec::new(alloc);
    for _byte in 0..length {
        bytes.push(byte)?;
    }
    Ok(bytes)
}

#[test]
fn sizes_of_texts(rt: HostRuntime) -> Result<(), Fail> {
    for (length, byte, wanted) in [
        (0, b'a', false),
        (1, b'a', true),
        (1, 0, false),
        (1_024, b'a', true),
        (1_025, b'a', false),
    ] {
        let bytes = repeated(rt.alloc(), byte, length)?;
        let fits = limits::text_fits(bytes.as_slice());
        assert_eq!(rt; fits, wanted, "{length} of {byte}");
    }
    holds(&rt, !limits::text_fits(b"a\x00".as_slice()));
    Ok(())
}

#[test]
fn periods(rt: HostRuntime) {
    for (seconds, wanted) in [(0, false), (1, true), (604_800, true), (604_801, false)] {
        same_in(&rt, seconds, limits::period_fits(seconds), wanted);
    }
}

#[test]
fn bytes_of_quoted_texts(rt: HostRuntime) {
    for (byte, wanted) in [
        (b'"', QuotedByte::Escaped(b'"')),
        (b'\\', QuotedByte::Escaped(b'\\')),
        (0x00, QuotedByte::Hexadecimal(b'0', b'0')),
        (0x0a, QuotedByte::Hexadecimal(b'0', b'a')),
        (0x1f, QuotedByte::Hexadecimal(b'1', b'f')),
        (0x7f, QuotedByte::Hexadecimal(b'7', b'f')),
        (b' ', QuotedByte::Plain(b' ')),
        (b'~', QuotedByte::Plain(b'~')),
        (0x80, QuotedByte::Plain(0x80)),
        (0xff, QuotedByte::Plain(0xff)),
    ] {
        same_in(&rt, byte, quote_byte(byte), wanted);
    }
}

#[test]
fn texts_on_a_terminal(rt: HostRuntime) -> Result<(), Fail> {
    let shown = Shown("\u{1}\n\u{9f}\u{a0}\"\u{2027}\u{2028}");
    let shown = format!(in rt.alloc(); "{shown}")?;
    same(
        &rt,
        shown.as_str(),
        "\"\\x01\\x0a\\xc2\\x9f\u{a0}\\\"\u{2027}\\xe2\\x80\\xa8\"",
    );
    let escaped = Escaped(b"\x01\n\xff\\\"".as_slice());
    let escaped = format!(in rt.alloc(); "{escaped}")?;
    same(&rt, escaped.as_str(), "\\x01\n\\xff\\\"");
    Ok(())
}

/// The first and the last character of each range that a terminal may act on, and those beside them.
#[test]
fn characters_of_a_terminal(rt: HostRuntime) {
    for character in [
        '\u{0}', '\u{1f}', '\u{7f}', '\u{9f}', '\u{61c}', '\u{200e}', '\u{200f}',
    ] {
        same_in(&rt, character, acts_on_terminal(character), true);
    }
    for character in ['\u{2028}', '\u{202e}', '\u{2066}', '\u{2069}'] {
        same_in(&rt, character, acts_on_terminal(character), true);
    }
    for character in [
        ' ', '~', '\u{a0}', '\u{61b}', '\u{61d}', '\u{200d}', '\u{2010}',
    ] {
        same_in(&rt, character, acts_on_terminal(character), false);
    }
    for character in ['\u{2027}', '\u{202f}', '\u{2065}', '\u{206a}'] {
        same_in(&rt, character, acts_on_terminal(character), false);
    }
}

#[test]
fn hexadecimal_digits(rt: HostRuntime) {
    for (value, digit) in [(0, b'0'), (9, b'9'), (10, b'a'), (15, b'f')] {
        same_in(&rt, value, hex_digit(value), digit);
        same_in(&rt, digit, digit_value(digit), Some(value));
    }
    for byte in [b'/', b':', b'`', b'g', b'A', b'F', 0x00, 0xff] {
        same_in(&rt, byte, digit_value(byte), None);
    }
}

#[test]
fn decimal_numbers(rt: HostRuntime) {
    for (text, wanted) in [
        ("", None),
        ("0", Some(Number::Within(0))),
        ("007", Some(Number::Within(7))),
        ("1024", Some(Number::Within(1_024))),
        (
            "18446744073709551615",
            Some(Number::Within(18_446_744_073_709_551_615)),
        ),
        ("18446744073709551616", Some(Number::TooGreat)),
        ("99999999999999999999999", Some(Number::TooGreat)),
        ("99999999999999999999999x", None),
        ("1 2", None),
        ("+1", None),
        ("-1", None),
        ("0x1", None),
    ] {
        same_in(&rt, text, parse_number(text.as_bytes()), wanted);
    }
}
