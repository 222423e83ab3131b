//! The checks that the slow checker makes, and the fault that each reports.

use ifs_base::{RoutineId, StateId};
use ifs_verify::{At, VerifyFault};

/// A check of an image that the bytes spell.
#[derive(Clone, Copy, PartialEq, Eq)]
pub enum Check {
    /// An index or a mask is within its table.
    Entry,
    /// A jump leads forward and stays in its routine.
    Jump,
    /// A routine ends with `ret`.
    End,
    /// An earlier place leads to each place but the first.
    Reached,
    /// Each operand is there and of its kind.
    Operand,
    /// All ways to a place leave the same kinds there.
    Ways,
    /// A called routine is lower in number.
    Lower,
    /// `ret` finds the routine's results.
    Results,
    /// The values on the stack.
    Stack,
    /// The frames.
    Frames,
    /// The executed instructions.
    Cost,
    /// The queued commands.
    Commands,
    /// A handler takes and leaves nothing.
    Leaves,
}

impl Check {
    /// The fault if the check fails at a place.
    pub fn at(self, at: At) -> VerifyFault {
        match self {
            Check::Entry => VerifyFault::NoEntry(at),
            Check::Jump => VerifyFault::JumpTarget(at),
            Check::End => VerifyFault::LeftAtEnd(at),
            Check::Reached => VerifyFault::Unreached(at),
            Check::Operand => VerifyFault::WrongOperand(at),
            Check::Ways => VerifyFault::WaysDisagree(at),
            Check::Lower => VerifyFault::CallNotLower(at),
            Check::Results => VerifyFault::WrongResults(at),
            Check::Stack => VerifyFault::StackOver(at),
            Check::Frames => VerifyFault::FramesOver(at),
            Check::Cost => VerifyFault::CostOver(at),
            Check::Commands => VerifyFault::CommandsOver(at),
            Check::Leaves => VerifyFault::HandlerLeaves(at),
        }
    }
}

/// A state, by its index.
pub fn state_at(index: usize) -> At {
    At::State(StateId(narrow(index)))
}

/// A place of a routine, by its index.
pub fn code_at(routine: usize, place: usize) -> At {
    At::Code(RoutineId(narrow(routine)), narrow(place))
}

/// An index of a table of an image, which has at most 65,535 entries.
fn narrow(index: usize) -> u16 {
    u16::try_from(index).unwrap_or(u16::MAX)
}
