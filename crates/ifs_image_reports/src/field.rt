//! The fields of an image, in its order.

use std::alloc::AllocError;

/// A table of an image.
#[derive(Clone, Copy)]
pub(crate) enum Table {
    Interfaces,
    Tests,
    Commands,
    States,
    Routines,
}

/// How often fields that follow each other are there.
#[derive(Clone, Copy)]
pub(crate) enum Times {
    Once,
    /// Once for each entry of a table.
    Each(Table),
    /// Once for each routine of version 1.
    EachFirst,
    /// Once for each routine of version 2.
    EachSecond,
}

/// What a field is to those that follow it.
#[derive(Clone, Copy)]
pub(crate) enum Role {
    Plain,
    /// The version.
    Version,
    /// The number of entries of a table.
    Count(Table),
    /// The bytes of the next text, or how often the next field is there.
    Many,
    /// A text.
    Text,
    /// A kind of a routine.
    Kind,
    /// An instruction of a routine.
    Instruction,
}

/// What fields of one name have in common.
#[derive(Clone, Copy)]
pub(crate) struct Row {
    pub name: &'static str,
    /// The number of bytes, except of a text.
    pub width: usize,
    pub role: Role,
    /// Whether an image has such a field for each entry of a table.
    pub is_entry: bool,
    /// The limits of its number.
    pub limit: &'static str,
}

/// Fields that follow each other.
#[derive(Clone, Copy)]
pub(crate) struct Section {
    pub times: Times,
    pub rows: &'static [Row],
}

/// A field of an image.
#[derive(Clone, Copy)]
pub(crate) struct Field {
    pub row: &'static Row,
    /// The entry of its table, from 0.
    pub entry: u16,
    /// The kind or the instruction of its routine, from 0.
    pub place: u16,
}

/// Adds the name of a field: `NAME`, `NAME ENTRY`, or `NAME PLACE of routine ENTRY`.
pub(crate) fn put_field(out: &mut String, field: Field) -> Result<(), AllocError> {
    let name = field.row.name;
    let Field { entry, place, .. } = field;
    match field.row.role {
        Role::Kind | Role::Instruction => write!(out, "{name} {place} of routine {entry}"),
        _ if field.row.is_entry => write!(out, "{name} {entry}"),
        _ => out.push_str(name),
    }
}

/// What is said of the limits of most fields.
const WITHIN: &str = "a number is within its limits";

const KINDS: &str = "a kind is 0 (a truth), 1 (a command) or 2 (the name of a state)";

const LEAVES_FIRST: &str = "in version 1 a routine has no result, or 1";

const CODE: &str =
    "a routine has at most 1,024 instructions, and all have at most 8,192 in version 1 and 65,535 in version 2";

/// A row of a field that an image has once, or of an entry: its name, its width, its role, and its limits.
macro_rules! row {
    (once $name:literal, $width:literal, $role:expr, $limit:expr) => {
        Row {
            name: $name,
            width: $width,
            role: $role,
            is_entry: false,
            limit: $limit,
        }
    };
    (each $name:literal, $width:literal, $role:expr, $limit:expr) => {
        Row {
            name: $name,
            width: $width,
            role: $role,
            is_entry: true,
            limit: $limit,
        }
    };
}

const FRONT: &[Row] = &[
    row!(once "the magic", 4, Role::Plain, WITHIN),
    row!(once "the version", 1, Role::Version, WITHIN),
    row!(once "the stated stack", 2, Role::Plain, "the stated stack is at most 32"),
    row!(once "the stated frames", 2, Role::Plain, "the stated frames are at most 32"),
    row!(once "the stated cost", 4, Role::Plain, "the stated cost is at most 300,000"),
    row!(once "the stated commands", 2, Role::Plain, "the stated commands are at most 64"),
    row!(
        once "the number of interfaces", 2, Role::Count(Table::Interfaces),
        "an image has at most 64 interfaces"
    ),
    row!(
        once "the number of tests", 2, Role::Count(Table::Tests),
        "an image has at most 64 tests"
    ),
    row!(
        once "the number of commands", 2, Role::Count(Table::Commands),
        "an image has at most 1,024 commands"
    ),
    row!(
        once "the number of states", 2, Role::Count(Table::States),
        "an image has from 1 to 256 states"
    ),
    row!(
        once "the number of routines", 2, Role::Count(Table::Routines),
        "an image has at most 1,024 routines"
    ),
    row!(once "the initial state", 2, Role::Plain, WITHIN),
    row!(once "the init routine of the always part", 2, Role::Plain, WITHIN),
    row!(once "the body routine of the always part", 2, Role::Plain, WITHIN),
    row!(once "the test mask of the always part", 8, Role::Plain, WITHIN),
];

const INTERFACE: &[Row] = &[
    row!(each "the length of the name of interface", 2, Role::Many, WITHIN),
    row!(each "the name of interface", 0, Role::Text, WITHIN),
];

const TEST: &[Row] = &[
    row!(each "the period of test", 4, Role::Plain, "a period is from 1 to 604,800 seconds"),
    row!(each "the length of the command of test", 2, Role::Many, WITHIN),
    row!(each "the command of test", 0, Role::Text, WITHIN),
];

const COMMAND: &[Row] = &[
    row!(each "the length of command", 2, Role::Many, WITHIN),
    row!(each "command", 0, Role::Text, WITHIN),
];

const STATE: &[Row] = &[
    row!(each "the length of the name of state", 2, Role::Many, WITHIN),
    row!(each "the name of state", 0, Role::Text, WITHIN),
    row!(each "the init routine of state", 2, Role::Plain, WITHIN),
    row!(each "the body routine of state", 2, Role::Plain, WITHIN),
    row!(each "the test mask of state", 8, Role::Plain, WITHIN),
];

const FIRST_ROUTINE: &[Row] = &[
    row!(each "the number of results of routine", 1, Role::Plain, LEAVES_FIRST),
    row!(each "the number of instructions of routine", 2, Role::Many, CODE),
    row!(each "instruction", 4, Role::Instruction, WITHIN),
];

const SECOND_ROUTINE: &[Row] = &[
    row!(
        each "the number of parameters of routine", 1, Role::Many,
        "a routine has at most 4 parameters"
    ),
    row!(each "parameter", 1, Role::Kind, KINDS),
    row!(
        each "the number of results of routine", 1, Role::Many,
        "a routine has at most 4 results"
    ),
    row!(each "result", 1, Role::Kind, KINDS),
    row!(each "the number of instructions of routine", 2, Role::Many, CODE),
    row!(each "instruction", 4, Role::Instruction, WITHIN),
];

const END: &[Row] = &[row!(once "the end of the image", 0, Role::Plain, WITHIN)];

const SECTIONS: &[Section] = &[
    Section {
        times: Times::Once,
        rows: FRONT,
    },
    Section {
        times: Times::Each(Table::Interfaces),
        rows: INTERFACE,
    },
    Section {
        times: Times::Each(Table::Tests),
        rows: TEST,
    },
    Section {
        times: Times::Each(Table::Commands),
        rows: COMMAND,
    },
    Section {
        times: Times::Each(Table::States),
        rows: STATE,
    },
    Section {
        times: Times::EachFirst,
        rows: FIRST_ROUTINE,
    },
    Section {
        times: Times::EachSecond,
        rows: SECOND_ROUTINE,
    },
    Section {
        times: Times::Once,
        rows: END,
    },
];

/// The fields of an image, in its order.
pub(crate) fn sections() -> &'static [Section] {
    SECTIONS
}
