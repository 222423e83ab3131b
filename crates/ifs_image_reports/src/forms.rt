//! The forms of lines, by their first words.

use crate::slots::{
    ANY_VERSION, BODY, COST, INDEX, INIT, KINDS, LINK_STATE, PARAMS, PERIOD, RESULTS, Slot,
    TEST_LIST, TESTS, TEXT, TRUTHS, UP_TO_32, UP_TO_64,
};

/// A form of a line.
#[derive(Clone, Copy)]
pub(crate) struct Form {
    pub kind: Kind,
    /// What its words after the first one have to be.
    pub slots: &'static [Slot],
    /// The rule that its lines have this form.
    pub rule: &'static str,
}

const VERSION: &Form = &Form {
    kind: Kind::Version,
    slots: &[ANY_VERSION],
    rule: "an assembly text begins with `ifsv 1` or `ifsv 2`",
};

const STACK: &Form = &Form {
    kind: Kind::Stack,
    slots: &[UP_TO_32],
    rule: "the stated stack is `stack N`",
};

const FRAMES: &Form = &Form {
    kind: Kind::Frames,
    slots: &[UP_TO_32],
    rule: "the stated frames are `frames N`",
};

const STATED_COST: &Form = &Form {
    kind: Kind::Cost,
    slots: &[COST],
    rule: "the stated cost is `cost N`",
};

const COMMANDS: &Form = &Form {
    kind: Kind::Commands,
    slots: &[UP_TO_64],
    rule: "the stated commands are `commands N`",
};

const START: &Form = &Form {
    kind: Kind::Start,
    slots: &[INDEX],
    rule: "the initial state is `start N`",
};

const ALWAYS: &Form = &Form {
    kind: Kind::Always,
    slots: &[INIT, INDEX, BODY, INDEX, TESTS, TEST_LIST],
    rule: "the always part is `always init R body R tests LIST`",
};

const INTERFACE: &Form = &Form {
    kind: Kind::Interface,
    slots: &[TEXT],
    rule: "an interface is `iface \"name\"`",
};

const TEST: &Form = &Form {
    kind: Kind::Test,
    slots: &[PERIOD, TEXT],
    rule: "a test is `test PERIOD \"command\"`",
};

const COMMAND: &Form = &Form {
    kind: Kind::Command,
    slots: &[TEXT],
    rule: "a command is `command \"text\"`",
};

const STATE: &Form = &Form {
    kind: Kind::State,
    slots: &[TEXT, INIT, INDEX, BODY, INDEX, TESTS, TEST_LIST],
    rule: "a state is `state \"name\" init R body R tests LIST`",
};

/// The beginning of a routine in version 1.
const ROUTINE: &Form = &Form {
    kind: Kind::Routine,
    slots: &[RESULTS, TRUTHS],
    rule: "in version 1 a routine begins with `routine results N`",
};

/// The beginning of a routine in version 2.
const SIGNATURE: &Form = &Form {
    kind: Kind::Routine,
    slots: &[PARAMS, KINDS, RESULTS, KINDS],
    rule: "in version 2 a routine begins with `routine params KINDS results KINDS`",
};

/// An instruction without an operand.
const ALONE: &Form = &Form {
    kind: Kind::Instruction,
    slots: &[],
    rule: "this instruction has no operand",
};

/// An instruction with a number as its operand.
const INDEXED: &Form = &Form {
    kind: Kind::Instruction,
    slots: &[INDEX],
    rule: "this instruction has a number as its operand",
};

const LINK: &Form = &Form {
    kind: Kind::Instruction,
    slots: &[INDEX, LINK_STATE],
    rule: "the instruction on a link is `link N STATE`",
};

/// What a line is in the order of lines.
#[derive(Clone, Copy, PartialEq, Eq)]
pub(crate) enum Kind {
    Version,
    Stack,
    Frames,
    Cost,
    Commands,
    Start,
    Always,
    Interface,
    Test,
    Command,
    State,
    Instruction,
    Routine,
}

/// A first word of a line, and the form that it begins.
#[derive(Clone, Copy)]
pub(crate) struct Beginning {
    pub word: &'static str,
    pub form: &'static Form,
}

/// The first words of lines. Those of tables come before those of instructions.
const BEGINNINGS: &[Beginning] = &[
    Beginning {
        word: "ifsv",
        form: VERSION,
    },
    Beginning {
        word: "stack",
        form: STACK,
    },
    Beginning {
        word: "frames",
        form: FRAMES,
    },
    Beginning {
        word: "cost",
        form: STATED_COST,
    },
    Beginning {
        word: "commands",
        form: COMMANDS,
    },
    Beginning {
        word: "start",
        form: START,
    },
    Beginning {
        word: "always",
        form: ALWAYS,
    },
    Beginning {
        word: "iface",
        form: INTERFACE,
    },
    Beginning {
        word: "test",
        form: TEST,
    },
    Beginning {
        word: "command",
        form: COMMAND,
    },
    Beginning {
        word: "state",
        form: STATE,
    },
    Beginning {
        word: "routine",
        form: ROUTINE,
    },
    Beginning {
        word: "ret",
        form: ALONE,
    },
    Beginning {
        word: "true",
        form: ALONE,
    },
    Beginning {
        word: "false",
        form: ALONE,
    },
    Beginning {
        word: "link",
        form: LINK,
    },
    Beginning {
        word: "test",
        form: INDEXED,
    },
    Beginning {
        word: "known",
        form: INDEXED,
    },
    Beginning {
        word: "not",
        form: ALONE,
    },
    Beginning {
        word: "and",
        form: ALONE,
    },
    Beginning {
        word: "or",
        form: ALONE,
    },
    Beginning {
        word: "cmd",
        form: INDEXED,
    },
    Beginning {
        word: "state",
        form: INDEXED,
    },
    Beginning {
        word: "queue",
        form: ALONE,
    },
    Beginning {
        word: "want",
        form: ALONE,
    },
    Beginning {
        word: "jump",
        form: INDEXED,
    },
    Beginning {
        word: "jf",
        form: INDEXED,
    },
    Beginning {
        word: "jt",
        form: INDEXED,
    },
    Beginning {
        word: "call",
        form: INDEXED,
    },
    Beginning {
        word: "pop",
        form: ALONE,
    },
    Beginning {
        word: "dup",
        form: ALONE,
    },
];

/// The first words of lines.
pub(crate) fn beginnings() -> &'static [Beginning] {
    BEGINNINGS
}

/// The form that a word begins. `test` and `state` begin two: that of an instruction if `in_code`, else that of a table.
pub(crate) fn form_named(word: &[u8], in_code: bool) -> Option<&'static Form> {
    let mut found = None;
    for beginning in beginnings() {
        let other = found.is_some() && beginning.form.is_instruction() != in_code;
        if beginning.word.as_bytes() == word && !other {
            found = Some(beginning.form);
        }
    }
    found
}

impl Form {
    pub(crate) fn is_instruction(&self) -> bool {
        self.kind == Kind::Instruction
    }
}

/// The rule of instructions without an operand.
pub(crate) fn no_operand() -> &'static str {
    ALONE.rule
}

/// The beginning of a routine.
pub(crate) fn routine_form(is_second: bool) -> &'static Form {
    if is_second { SIGNATURE } else { ROUTINE }
}

/// A kind of lines.
#[derive(Clone, Copy)]
pub(crate) struct Lines {
    pub kind: Kind,
    /// Their first word, or what they are if it differs.
    pub expected: &'static str,
    /// What is wrong with one that has no room left.
    pub full: &'static str,
    /// The rule that it breaks.
    pub limit: &'static str,
}

/// A kind of lines that there is always room for.
macro_rules! once {
    ($kind:ident, $expected:literal) => {
        Lines {
            kind: Kind::$kind,
            expected: $expected,
            full: OUT_OF_RANGE,
            limit: LIMITS,
        }
    };
}

/// What is wrong with a line that is out of range, if nothing else is known of it.
pub(crate) const OUT_OF_RANGE: &str = "the line is out of range";

/// The rule on numbers.
pub(crate) const LIMITS: &str = "numbers have the limits of the image";

/// The kinds of lines, in their order. A routine's line comes after its instructions here.
const LINES: &[Lines] = &[
    once!(Version, "`ifsv`"),
    once!(Stack, "`stack`"),
    once!(Frames, "`frames`"),
    once!(Cost, "`cost`"),
    once!(Commands, "`commands`"),
    once!(Start, "`start`"),
    once!(Always, "`always`"),
    Lines {
        kind: Kind::Interface,
        expected: "`iface`",
        full: "64 interfaces come before",
        limit: "an image has at most 64 interfaces",
    },
    Lines {
        kind: Kind::Test,
        expected: "`test`",
        full: "64 tests come before",
        limit: "an image has at most 64 tests",
    },
    Lines {
        kind: Kind::Command,
        expected: "`command`",
        full: "1,024 commands come before",
        limit: "an image has at most 1,024 commands",
    },
    Lines {
        kind: Kind::State,
        expected: "`state`",
        full: "256 states come before",
        limit: "an image has at most 256 states",
    },
    Lines {
        kind: Kind::Instruction,
        expected: "an instruction",
        full: "the image has no room for another instruction",
        limit: "all routines have at most 8,192 instructions in version 1, and 65,535 in version 2",
    },
    Lines {
        kind: Kind::Routine,
        expected: "`routine`",
        full: "1,024 routines come before",
        limit: "an image has at most 1,024 routines",
    },
];

/// The kinds of lines, in their order.
pub(crate) fn kinds_of_lines() -> &'static [Lines] {
    LINES
}
