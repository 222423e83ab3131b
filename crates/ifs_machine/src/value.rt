//! Values on the stack.

ghost use Rattle.std.specs.Prelude.{◌≡◌};

use ifs_base::{CommandId, StateId};

/// A value, with its kind.
#[derive(Clone, Copy, Debug, PartialEq, Eq)]
pub enum Value {
    /// True or false.
    Truth(bool),
    /// A command of the image's table.
    Command(CommandId),
    /// A state of the image's table.
    StateName(StateId),
}

impl Value {
    ghost use Rattle.ifs_machine.specs.inner.Numbers.{number_of};

    /// Its number on the stack, without its kind.
    pub(crate) fn number(self) -> u16
        ensures { result ≡ number_of self }
    {
        match self {
            Value::Truth(truth) => u16::from(truth),
            Value::Command(command) => command.0,
            Value::StateName(state) => state.0,
        }
    }
}
