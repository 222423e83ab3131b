//! The lines of an assembly text.

ghost use Rattle.std.specs.Prelude.{◌≡◌};
ghost use Rattle.ifs_asm.specs.Texts.{version_in, version_number};

use ifs_base::{Op, StateId, Text};
use ifs_image::{Handlers, Kinds, StateSpec, TestSpec};

/// A version of the format.
#[derive(Clone, Copy, PartialEq, Eq)]
pub enum Version {
    One,
    Two,
}

impl Version {
    /// The version with a number. Every number other than 1 gives version 2.
    pub(crate) fn of(number: u8) -> Version
        ensures { result ≡ version_in number }
    {
        if number == 1 {
            Version::One
        } else {
            Version::Two
        }
    }

    /// Its number.
    pub(crate) fn number(self) -> u8
        ensures { result ≡ version_number self }
    {
        match self {
            Version::One => 1,
            Version::Two => 2,
        }
    }
}

/// How a routine begins, in the form of its version.
#[derive(Drop)]
pub enum Head {
    /// In version 1, where a routine takes nothing: whether it leaves a truth.
    Plain(bool),
    /// In version 2: the kinds that it takes and leaves, the topmost last.
    Signature { params: Kinds, results: Kinds },
}

/// What a line says.
#[derive(Drop)]
pub enum Line {
    /// The version of the format.
    Version(Version),
    /// The stated stack.
    Stack(u16),
    /// The stated frames.
    Frames(u16),
    /// The stated cost.
    Cost(u32),
    /// The stated commands of an event.
    Commands(u16),
    /// The state in which a policy starts.
    Start(StateId),
    /// The handlers of the always part.
    Always(Handlers),
    /// An interface, by its name.
    Interface(Text),
    /// An external test.
    Test(TestSpec),
    /// A command.
    Command(Text),
    /// A state.
    State(StateSpec),
    /// The beginning of a routine; its instructions follow.
    Routine(Head),
    /// An instruction of the routine above.
    Instruction(Op),
}
