//! Encodes and decodes instructions and kinds.

ghost use Rattle.std.specs.Prelude.{◌≡◌, ◌≢◌, Some, IfSome, IfNone};
ghost use Rattle.ifs_base.specs.declared.op.Op.{Op};
ghost use Rattle.ifs_base.specs.declared.op.Kind.{Kind};
ghost use Rattle.ifs_base.specs.Spelling.{four_bytes, code_of_link, link_of_code, spelling, op_of, HasSpelling};
ghost use Rattle.ifs_base.specs.Spelling.{code_of_kind, kind_of_code};

use crate::ids::{CommandId, IfaceId, RoutineId, StateId, TestId};
use crate::op::{Kind, LinkState, Op};

/// Returns the four bytes of an instruction: its code, its link state, and its operand with the high byte first.
/// An instruction other than `link` has link state 0. An instruction without an operand has operand 0.
pub fn encode_op(op: Op) -> [u8; 4]
    ensures { result ≡ spelling op }
{
    match op {
        Op::Ret => [0x00, 0, 0, 0],
        Op::Yes => [0x01, 0, 0, 0],
        Op::No => [0x02, 0, 0, 0],
        Op::Link(iface, state) => with_operand(0x03, link_code(state), iface.0),
        Op::Test(test) => with_operand(0x04, 0, test.0),
        Op::Known(test) => with_operand(0x05, 0, test.0),
        Op::Negate => [0x06, 0, 0, 0],
        Op::Both => [0x07, 0, 0, 0],
        Op::Either => [0x08, 0, 0, 0],
        Op::PushCommand(command) => with_operand(0x09, 0, command.0),
        Op::PushState(state) => with_operand(0x0a, 0, state.0),
        Op::Queue => [0x0b, 0, 0, 0],
        Op::Want => [0x0c, 0, 0, 0],
        Op::Jump(place) => with_operand(0x0d, 0, place),
        Op::JumpFalse(place) => with_operand(0x0e, 0, place),
        Op::JumpTrue(place) => with_operand(0x0f, 0, place),
        Op::Call(routine) => with_operand(0x10, 0, routine.0),
        Op::Pop => [0x11, 0, 0, 0],
        Op::Dup => [0x12, 0, 0, 0],
    }
}

/// Returns the instruction that four bytes spell. Returns `None` for an unknown code, for a nonzero operand of an
/// instruction without one, for a byte 1 over 2 of `link`, and for a nonzero byte 1 of any other instruction.
pub fn decode_op(bytes: [u8; 4]) -> Option<Op>
    ensures value { result ≡ op_of bytes }
    // An instruction that is found is spelled by these bytes.
    ensures found { IfSome result (λ op. bytes ≡ spelling op) }
    // An instruction that the bytes spell is found.
    ensures spelled { (op : Op) → HasSpelling op → bytes ≡ spelling op → result ≡ Some op }
    // None is found only if the bytes spell no instruction.
    ensures none { IfNone result ((op : Op) → HasSpelling op → bytes ≢ spelling op) }
{
    let [code, state, high, low] = bytes;
    let operand = u16::from_be_bytes([high, low]);
    match (code, state, operand) {
        (0x00, 0, 0) => Some(Op::Ret),
        (0x01, 0, 0) => Some(Op::Yes),
        (0x02, 0, 0) => Some(Op::No),
        (0x03, _, n) => Some(Op::Link(IfaceId(n), link_state_of(state)?)),
        (0x04, 0, n) => Some(Op::Test(TestId(n))),
        (0x05, 0, n) => Some(Op::Known(TestId(n))),
        (0x06, 0, 0) => Some(Op::Negate),
        (0x07, 0, 0) => Some(Op::Both),
        (0x08, 0, 0) => Some(Op::Either),
        (0x09, 0, n) => Some(Op::PushCommand(CommandId(n))),
        (0x0a, 0, n) => Some(Op::PushState(StateId(n))),
        (0x0b, 0, 0) => Some(Op::Queue),
        (0x0c, 0, 0) => Some(Op::Want),
        (0x0d, 0, n) => Some(Op::Jump(n)),
        (0x0e, 0, n) => Some(Op::JumpFalse(n)),
        (0x0f, 0, n) => Some(Op::JumpTrue(n)),
        (0x10, 0, n) => Some(Op::Call(RoutineId(n))),
        (0x11, 0, 0) => Some(Op::Pop),
        (0x12, 0, 0) => Some(Op::Dup),
        _ => None,
    }
}

/// Returns the byte of a kind.
pub fn encode_kind(kind: Kind) -> u8
    ensures { result ≡ code_of_kind kind }
{
    match kind {
        Kind::Truth => 0,
        Kind::Command => 1,
        Kind::StateName => 2,
    }
}

/// Returns the kind of a byte. Returns `None` for a byte over 2.
pub fn decode_kind(code: u8) -> Option<Kind>
    ensures value { result ≡ kind_of_code code }
    // A kind that is found has this byte.
    ensures found { IfSome result (λ kind. code ≡ code_of_kind kind) }
    // None is found only if no kind has this byte.
    ensures none { IfNone result ((kind : Kind) → code ≢ code_of_kind kind) }
{
    match code {
        0 => Some(Kind::Truth),
        1 => Some(Kind::Command),
        2 => Some(Kind::StateName),
        _ => None,
    }
}

fn with_operand(code: u8, state: u8, operand: u16) -> [u8; 4]
    ensures { result ≡ four_bytes code state operand }
{
    let [high, low] = operand.to_be_bytes();
    [code, state, high, low]
}

fn link_code(state: LinkState) -> u8
    ensures { result ≡ code_of_link state }
{
    match state {
        LinkState::Unknown => 0,
        LinkState::Down => 1,
        LinkState::Up => 2,
    }
}

fn link_state_of(code: u8) -> Option<LinkState>
    ensures { result ≡ link_of_code code }
{
    match code {
        0 => Some(LinkState::Unknown),
        1 => Some(LinkState::Down),
        2 => Some(LinkState::Up),
        _ => None,
    }
}
