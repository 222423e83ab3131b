//! What is said of a code, whatever else is known.

/// What is said of a code.
#[derive(Clone, Copy)]
pub(crate) struct Cause {
    code: &'static str,
    /// What is wrong, if nothing is known of the place.
    pub general: &'static str,
    /// The rule that is broken.
    pub rule: &'static str,
    /// The rule that the head of an image breaks.
    pub rule_of_head: &'static str,
}

/// A code with one rule, or with another one for the head.
macro_rules! cause {
    ($code:literal, $general:literal, $rule:literal) => {
        cause!($code, $general, $rule, $rule)
    };
    ($code:literal, $general:literal, $rule:literal, $rule_of_head:literal) => {
        Cause {
            code: $code,
            general: $general,
            rule: $rule,
            rule_of_head: $rule_of_head,
        }
    };
}

const CAUSES: &[Cause] = &[
    cause!("I0", "memory ran out", "reading an image takes memory"),
    cause!(
        "I1",
        "the image ends within a field",
        "an image has each of its fields in full"
    ),
    cause!(
        "I2",
        "the magic is another one",
        "an image begins with the bytes 49465356, `IFSV`"
    ),
    cause!("I3", "there is no such version", "the version is 1 or 2"),
    cause!(
        "I4",
        "a number is outside its limits",
        "a number is within its limits"
    ),
    cause!(
        "I5",
        "a text is none, or too long",
        "a name or a command has from 1 to 1,024 bytes of UTF-8 without NUL"
    ),
    cause!(
        "I6",
        "a name is that of an earlier entry",
        "the names of interfaces differ, and so do the names of states"
    ),
    cause!(
        "I7",
        "there are more bytes after the last routine",
        "an image ends with its last routine"
    ),
    cause!(
        "I8",
        "there is no such instruction",
        "an instruction has a code from 00 to 12, and the bytes that it does not use are 0"
    ),
    cause!("V0", "memory ran out", "verifying an image takes memory"),
    cause!(
        "V2",
        "an index is not in its table",
        "each index is in its table, and each mask has only tests of the table"
    ),
    cause!(
        "V3",
        "the target of a jump is no later place of the routine",
        "a jump goes to a later place of its own routine"
    ),
    cause!(
        "V4",
        "the routine does not end with `ret`",
        "a routine has instructions, and the last one is `ret`"
    ),
    cause!(
        "V5",
        "no earlier place leads here",
        "each place other than 0 follows an earlier one"
    ),
    cause!(
        "V6",
        "an operand on the stack is missing or of another kind",
        "an instruction finds its operands on the stack, each of its kind"
    ),
    cause!(
        "V7",
        "two ways lead to one place with different stacks",
        "all ways to a place lead there with the same stack"
    ),
    cause!(
        "V8",
        "the called routine has no lower number",
        "a routine calls only routines of lower numbers"
    ),
    cause!(
        "V9",
        "the stack at `ret` is not the results of the routine",
        "at `ret` the stack has the results of the routine alone"
    ),
    cause!(
        "V10",
        "the stack has over 32 values",
        "a stack has at most 32 values, those of callees counted",
        "each handler keeps to the stated stack"
    ),
    cause!(
        "V11",
        "there are over 32 frames",
        "a routine has at most 32 frames, those of callees counted",
        "each handler keeps to the stated frames"
    ),
    cause!(
        "V12",
        "the cost is over 100,000",
        "a routine costs at most 100,000, callees counted",
        "each event keeps to the stated cost"
    ),
    cause!(
        "V13",
        "over 64 commands are queued",
        "a routine queues at most 64 commands, callees counted",
        "each event keeps to the stated commands"
    ),
    cause!(
        "V14",
        "a handler has parameters or results",
        "the routine of a handler has no parameters and no results"
    ),
];

fn causes() -> &'static [Cause] {
    CAUSES
}

/// What is said of a code.
pub(crate) fn cause_of(code: &str) -> Cause {
    for cause in causes() {
        if cause.code == code {
            return *cause;
        }
    }
    cause!("", "", "")
}
