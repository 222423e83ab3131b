//! The parts of an image.

use arrayvec::ArrayVec;
use ifs_base::{Items, Kind, Op, RoutineId, StateId, Text};

/// The stated limits of one event.
#[derive(Clone, Copy, Debug, PartialEq, Eq)]
pub struct Budgets {
    /// Values on the stack at one time, at most 32.
    pub stack: u16,
    /// Frames at one time, at most 32.
    pub frames: u16,
    /// Executed instructions, at most 300,000.
    pub cost: u32,
    /// Queued commands, at most 64.
    pub commands: u16,
}

/// The number of entries of each table.
#[derive(Clone, Copy)]
pub struct Counts {
    pub interfaces: u16,
    pub tests: u16,
    pub commands: u16,
    pub states: u16,
    pub routines: u16,
}

/// The fields before the tables.
#[derive(Clone, Copy)]
pub struct Head {
    pub version: u8,
    pub budgets: Budgets,
    pub counts: Counts,
    pub initial: StateId,
    pub always: Handlers,
}

/// The code of a part of the policy, and its tests.
#[derive(Clone, Copy, Debug, PartialEq, Eq)]
pub struct Handlers {
    /// Run when the part is entered.
    pub init: RoutineId,
    /// Run at each evaluation.
    pub body: RoutineId,
    /// The active tests: bit t is test t.
    pub mask: u64,
}

/// An external test.
#[derive(Debug, Drop)]
pub struct TestSpec {
    /// Seconds from one start to the next, from 1 to 604,800.
    pub period: u32,
    /// The command, whose exit status 0 is true.
    pub text: Text,
}

/// A state of the policy.
#[derive(Debug, Drop)]
pub struct StateSpec {
    /// Its name, which no other state has.
    pub name: Text,
    /// Its code.
    pub handlers: Handlers,
}

/// Kinds of values, at most 4, the topmost last.
pub type Kinds = ArrayVec<Kind, 4>;

/// A routine of byte code.
#[derive(Debug, Drop)]
pub struct Routine {
    /// The kinds that it takes off its caller's list, at most 4, the topmost last; none in version 1.
    pub params: Kinds,
    /// The kinds that it leaves, at most 4, the topmost last; in version 1 none, or one truth.
    pub results: Kinds,
    /// Its instructions, at most 1,024.
    pub code: Items<Op>,
}

/// All parts of an image.
#[derive(Debug, Drop)]
pub struct ImageParts {
    /// The version of the format, 1 or 2.
    pub version: u8,
    pub budgets: Budgets,
    /// The state that a policy starts in.
    pub initial: StateId,
    /// The handlers of the part outside all states.
    pub always: Handlers,
    /// The names of interfaces, at most 64, all different.
    pub interfaces: Items<Text>,
    /// At most 64.
    pub tests: Items<TestSpec>,
    /// The texts of commands, at most 1,024.
    pub commands: Items<Text>,
    /// From 1 to 256, all with different names.
    pub states: Items<StateSpec>,
    /// At most 1,024, with at most 8,192 instructions together in version 1, and 65,535 in version 2.
    pub routines: Items<Routine>,
}
