//! Indexes into the tables of an image. Each is a number from 0, of 16 bits.

/// An interface, by its index in the table of interfaces.
#[derive(Clone, Copy, Debug, Default, PartialEq, Eq)]
pub struct IfaceId(pub u16);

/// An external test, by its index in the table of tests.
#[derive(Clone, Copy, Debug, Default, PartialEq, Eq)]
pub struct TestId(pub u16);

/// A command, by its index in the table of commands.
#[derive(Clone, Copy, Debug, Default, PartialEq, Eq)]
pub struct CommandId(pub u16);

/// A state of the policy, by its index in the table of states.
#[derive(Clone, Copy, Debug, Default, PartialEq, Eq)]
pub struct StateId(pub u16);

/// A routine of the byte code, by its index in the table of routines.
#[derive(Clone, Copy, Debug, Default, PartialEq, Eq)]
pub struct RoutineId(pub u16);
