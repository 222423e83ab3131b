//! Instructions in words: as `disasm` prints them, and what they take.

use ifs_base::{Kind, LinkState, Op, encode_op};
use std::alloc::AllocError;

/// What is said of instructions of one code.
#[derive(Clone, Copy)]
struct Words {
    name: &'static str,
    has_operand: bool,
    /// The values that it takes off the stack. It is empty if it takes none, and for `call`.
    taken: &'static str,
}

macro_rules! alone {
    ($name:literal, $taken:literal) => {
        Words {
            name: $name,
            has_operand: false,
            taken: $taken,
        }
    };
}

macro_rules! indexed {
    ($name:literal, $taken:literal) => {
        Words {
            name: $name,
            has_operand: true,
            taken: $taken,
        }
    };
}

/// The instructions, in the order of their codes.
const INSTRUCTIONS: &[Words] = &[
    alone!("ret", ""),
    alone!("true", ""),
    alone!("false", ""),
    indexed!("link", ""),
    indexed!("test", ""),
    indexed!("known", ""),
    alone!("not", "a truth"),
    alone!("and", "two truths"),
    alone!("or", "two truths"),
    indexed!("cmd", ""),
    indexed!("state", ""),
    alone!("queue", "a command"),
    alone!("want", "the name of a state"),
    indexed!("jump", ""),
    indexed!("jf", "a truth"),
    indexed!("jt", "a truth"),
    indexed!("call", ""),
    alone!("pop", "a value"),
    alone!("dup", "a value"),
];

fn instructions() -> &'static [Words] {
    INSTRUCTIONS
}

/// The words of an instruction.
fn words_of(op: Op) -> Words {
    let [code, _, _, _] = encode_op(op);
    match instructions().get(usize::from(code)) {
        Some(words) => *words,
        None => alone!("", ""),
    }
}

/// Adds an instruction between backticks, with the words of its assembly text.
pub(crate) fn put_op(out: &mut String, op: Op) -> Result<(), AllocError> {
    let words = words_of(op);
    if !words.has_operand {
        return write!(out, "`{}`", words.name);
    }
    let [_, _, high, low] = encode_op(op);
    let operand = u16::from_be_bytes([high, low]);
    write!(out, "`{} {operand}{}`", words.name, link_word(op))
}

/// The link state of an instruction on a link.
fn link_word(op: Op) -> &'static str {
    match op {
        Op::Link(_, LinkState::Unknown) => " unknown",
        Op::Link(_, LinkState::Down) => " down",
        Op::Link(_, LinkState::Up) => " up",
        _ => "",
    }
}

/// The values that an instruction other than `call` takes off the stack. It is empty if it takes none.
pub(crate) fn taken_by(op: Op) -> &'static str {
    words_of(op).taken
}

/// The place that a jump leads to.
pub(crate) fn target_of(op: Op) -> Option<u16> {
    match op {
        Op::Jump(place) | Op::JumpFalse(place) | Op::JumpTrue(place) => Some(place),
        _ => None,
    }
}

/// Adds kinds between backticks, as assembly text has them: with commas between them, the topmost last.
pub(crate) fn put_kinds(out: &mut String, kinds: &[Kind]) -> Result<(), AllocError> {
    let mut before = "`";
    for kind in kinds {
        write!(out, "{before}{}", kind_word(*kind))?;
        before = ",";
    }
    out.push_str(if kinds.is_empty() { "`-`" } else { "`" })
}

fn kind_word(kind: Kind) -> &'static str {
    match kind {
        Kind::Truth => "truth",
        Kind::Command => "command",
        Kind::StateName => "state",
    }
}
