//! Decoding of words that spell an instruction.

ghost use Rattle.std.specs.Prelude.{◌≡◌, ◌≤◌, Some};
ghost use Rattle.ifs_base.specs.Spelling.{op_of, link_of_code};
ghost use Rattle.ifs_image.specs.Lent.{IsInstruction};

use ifs_base::{CommandId, IfaceId, LinkState, Op, RoutineId, StateId, TestId};

/// The instruction that a word spells. It ignores the bytes that only decide whether the word spells one.
pub fn known_op(word: [u8; 4]) -> Op
    requires { IsInstruction word }
    ensures { op_of word ≡ Some result }
{
    let [code, state, high, low] = word;
    let operand = u16::from_be_bytes([high, low]);
    match code {
        0x00 => Op::Ret,
        0x01 => Op::Yes,
        0x02 => Op::No,
        0x03 => Op::Link(IfaceId(operand), known_link(state)),
        0x04 => Op::Test(TestId(operand)),
        0x05 => Op::Known(TestId(operand)),
        0x06 => Op::Negate,
        0x07 => Op::Both,
        0x08 => Op::Either,
        0x09 => Op::PushCommand(CommandId(operand)),
        0x0a => Op::PushState(StateId(operand)),
        0x0b => Op::Queue,
        0x0c => Op::Want,
        0x0d => Op::Jump(operand),
        0x0e => Op::JumpFalse(operand),
        0x0f => Op::JumpTrue(operand),
        0x10 => Op::Call(RoutineId(operand)),
        0x11 => Op::Pop,
        _ => Op::Dup,
    }
}

/// The link state of a code.
fn known_link(code: u8) -> LinkState
    requires { code ≤ 2 }
    ensures { link_of_code code ≡ Some result }
{
    match code {
        0 => LinkState::Unknown,
        1 => LinkState::Down,
        _ => LinkState::Up,
    }
}
