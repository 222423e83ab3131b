//! Why an image is not accepted.

ghost use Rattle.std.specs.Prelude.{◌≡◌, ◌++◌, codes, Some};
ghost use Rattle.ifs_base.specs.FaultTexts.{fault_words, place_words};
ghost use Rattle.ifs_verify.specs.FaultWords.{at_words, verify_fault_words};
ghost use Rattle.ifs_verify.specs.declared.fault.VerifyFault.TheVariants.{OutOfMemory};

use ifs_base::{FaultPlace, FaultText, RoutineId, StateId};
use ifs_image::ImageFault;
use std::alloc::{AllocError, AllocFailed};
use std::fmt::{self, Debug, Display, Formatter, Write};
use thiserror::Error;

/// A place in an image.
#[derive(Clone, Copy, Debug, PartialEq, Eq)]
pub enum At {
    /// The head: budgets, initial state and always part.
    Head,
    /// A state.
    State(StateId),
    /// A place of a routine.
    Code(RoutineId, u16),
}

impl At {
    /// The place as it is printed after the number of a check.
    fn place(self) -> FaultPlace
        ensures { place_words result ≡ codes " " ++ at_words self }
    {
        match self {
            At::Head => FaultPlace::Head,
            At::State(state) => FaultPlace::State(state),
            At::Code(routine, place) => FaultPlace::Instruction(routine, place),
        }
    }
}

/// A check that fails, and its place.
#[derive(Clone, Copy, PartialEq, Eq, Error)]
pub enum VerifyFault {
    /// V1: the bytes spell no image.
    NoImage(ImageFault),
    /// V2: an index that is not in its table.
    NoEntry(At),
    /// V3: a jump whose target is not later, or outside its routine.
    JumpTarget(At),
    /// V4: a routine without instructions, or whose last one is not `ret`.
    LeftAtEnd(At),
    /// V5: a place that no earlier instruction leads to.
    Unreached(At),
    /// V6: an operand on the stack, or a parameter of a callee, that is missing or of the wrong kind.
    WrongOperand(At),
    /// V7: two ways to one place with different stacks.
    WaysDisagree(At),
    /// V8: a call of a routine whose number is not lower.
    CallNotLower(At),
    /// V9: a stack at `ret` that is not the routine's results.
    WrongResults(At),
    /// V10: a stack above its limit or the stated stack.
    StackOver(At),
    /// V11: frames above their limit or the stated frames.
    FramesOver(At),
    /// V12: a cost above its limit or the stated cost.
    CostOver(At),
    /// V13: commands above their limit or the stated commands.
    CommandsOver(At),
    /// V14: a handler with parameters or results.
    HandlerLeaves(At),
    /// V0: an allocation fails, in reading or in verifying.
    OutOfMemory,
}

impl VerifyFault {
    /// The words that the fault prints.
    pub fn text(self) -> FaultText
        ensures { fault_words result ≡ verify_fault_words self }
    {
        let (code, at) = match self {
            VerifyFault::NoImage(fault) => return fault.text(),
            VerifyFault::NoEntry(at) => ("V2", at),
            VerifyFault::JumpTarget(at) => ("V3", at),
            VerifyFault::LeftAtEnd(at) => ("V4", at),
            VerifyFault::Unreached(at) => ("V5", at),
            VerifyFault::WrongOperand(at) => ("V6", at),
            VerifyFault::WaysDisagree(at) => ("V7", at),
            VerifyFault::CallNotLower(at) => ("V8", at),
            VerifyFault::WrongResults(at) => ("V9", at),
            VerifyFault::StackOver(at) => ("V10", at),
            VerifyFault::FramesOver(at) => ("V11", at),
            VerifyFault::CostOver(at) => ("V12", at),
            VerifyFault::CommandsOver(at) => ("V13", at),
            VerifyFault::HandlerLeaves(at) => ("V14", at),
            VerifyFault::OutOfMemory => {
                return FaultText {
                    code: "V0",
                    place: FaultPlace::Nowhere,
                };
            }
        };
        FaultText {
            code,
            place: at.place(),
        }
    }
}

impl Display for VerifyFault {
    ghost output = { λ fault. Some (verify_fault_words fault) };

    fn fmt<W: Write>(&self, f: &mut Formatter<W>) -> fmt::Result {
        write!(f, "{}", self.text())
    }
}

/// Prints the same as `Display`.
impl Debug for VerifyFault {
    fn fmt<W: Write>(&self, f: &mut Formatter<W>) -> fmt::Result {
        Display::fmt(self, f)
    }
}

impl From<AllocError> for VerifyFault {
    ghost from_gives = { λ _ e. e ≡ OutOfMemory };

    fn from(_e: AllocError) -> VerifyFault {
        VerifyFault::OutOfMemory
    }
}

impl<T: Drop> From<AllocFailed<T>> for VerifyFault {
    ghost from_gives = { λ _ e. e ≡ OutOfMemory };

    fn from(_e: AllocFailed<T>) -> VerifyFault {
        VerifyFault::OutOfMemory
    }
}

impl From<ImageFault> for VerifyFault {
    ghost use Rattle.std.specs.Prelude.{◌≡◌};
    ghost use Rattle.ifs_verify.specs.Refused.{refusal_of};

    ghost from_gives = { λ fault e. e ≡ refusal_of fault };

    /// A failed allocation stays one; any other fault in reading says that the bytes spell no image.
    fn from(fault: ImageFault) -> VerifyFault {
        match fault {
            ImageFault::Memory => VerifyFault::OutOfMemory,
            fault => VerifyFault::NoImage(fault),
        }
    }
}
