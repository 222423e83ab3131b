//! The tables of a policy.

ghost use Rattle.std.specs.Prelude.{◌≡◌, IfOk};
ghost use Rattle.ifs_policy.specs.Tables.{test_of};

use crate::table::Table;
use ifs_base::Text;
use ifs_parse::{Name, Period};
use std::alloc::AllocError;

/// An external test: a command, and the period at which it is started.
#[derive(Debug, PartialEq, Eq, Hash, Drop)]
pub struct ExternalTest {
    pub command: Text,
    pub period: Period,
}

/// The test of a command and a period.
pub fn test_of(command: &Name, period: Period) -> Result<ExternalTest, AllocError>
    ensures { IfOk result (λ test. test ≡ test_of command.now period) }
{
    Ok(ExternalTest {
        command: command.text.clone()?,
        period,
    })
}

/// The tables of a policy. Entries are numbered from 0.
#[derive(Drop)]
pub struct Tables {
    /// The names of interfaces, in the order of their first use, at most 64.
    pub interfaces: Table<Text>,
    /// External tests, in the order of their first use, at most 64.
    pub tests: Table<ExternalTest>,
    /// The texts of commands, in the order of their first use, at most 1,024.
    pub commands: Table<Text>,
    /// The names of states, in the order of their definitions, from 1 to 256.
    pub states: Table<Text>,
}
