//! Definitions on the command line.

use crate::checks::same_in;
use ifs_command_line::definition_of;

/// A word defines the name before its first `=`, if that is a macro name.
#[test]
fn definitions(rt: HostRuntime) {
    let rows = [
        ("x=a", Some(("x", "a"))),
        ("x=a=b", Some(("x", "a=b"))),
        ("if=", Some(("if", ""))),
        ("x", None),
        ("", None),
        ("=a", None),
        ("1x=a", None),
        ("a-b=c", None),
    ];
    for (word, expected) in rows {
        same_in(&rt, word, definition_of(word), expected);
    }
}
