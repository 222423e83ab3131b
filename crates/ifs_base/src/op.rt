//! The instructions, and the kinds of values on the stack.

use crate::ids::{CommandId, IfaceId, RoutineId, StateId, TestId};

/// The state of an interface's link. A carp(4) interface is up as master, and down as backup.
#[derive(Clone, Copy, Debug, Default, PartialEq, Eq)]
pub enum LinkState {
    /// No report came yet. Its code is 0.
    #[default]
    Unknown,
    /// Its code is 1.
    Down,
    /// Its code is 2.
    Up,
}

/// The kind of a value on the stack.
#[derive(Clone, Copy, Debug, Default, PartialEq, Eq)]
pub enum Kind {
    /// True or false; its code is 0.
    #[default]
    Truth,
    /// A command of the image's table; its code is 1.
    Command,
    /// A state of the image's table; its code is 2.
    StateName,
}

/// An instruction.
///
/// Each variant has its code in hexadecimal, its text in assembly, the stack before and after it, and
/// what it does. The top of the stack is at the right, and `…` is what it leaves as it is. Control goes on
/// at the next place unless the line says where.
#[derive(Clone, Copy, Debug, PartialEq, Eq)]
pub enum Op {
    /// `00 ret`, `… results` → `… results`: returns to the caller, or ends a handler.
    Ret,
    /// `01 true`, `…` → `… Truth`: pushes true.
    Yes,
    /// `02 false`, `…` → `… Truth`: pushes false.
    No,
    /// `03 link n s`, `…` → `… Truth`: pushes whether interface n has link state s.
    Link(IfaceId, LinkState),
    /// `04 test n`, `…` → `… Truth`: pushes whether test n has the value true.
    Test(TestId),
    /// `05 known n`, `…` → `… Truth`: pushes whether test n has a value.
    Known(TestId),
    /// `06 not`, `… Truth` → `… Truth`: negates the top.
    Negate,
    /// `07 and`, `… Truth Truth` → `… Truth`: true if both are true.
    Both,
    /// `08 or`, `… Truth Truth` → `… Truth`: true if at least one is true.
    Either,
    /// `09 cmd n`, `…` → `… Command`: pushes command n.
    PushCommand(CommandId),
    /// `0a state n`, `…` → `… StateName`: pushes the name of state n.
    PushState(StateId),
    /// `0b queue`, `… Command` → `…`: appends the command to the commands of the event.
    Queue,
    /// `0c want`, `… StateName` → `…`: sets the wish to that state.
    Want,
    /// `0d jump n`, `…` → `…`: goes on at place n.
    Jump(u16),
    /// `0e jf n`, `… Truth` → `…`: goes on at place n if the truth is false.
    JumpFalse(u16),
    /// `0f jt n`, `… Truth` → `…`: goes on at place n if the truth is true.
    JumpTrue(u16),
    /// `10 call n`, `… parameters` → `… results`: runs routine n from its place 0.
    Call(RoutineId),
    /// `11 pop`, `… any` → `…`: drops the top.
    Pop,
    /// `12 dup`, `… any` → `… any any`: pushes the top once more.
    Dup,
}
