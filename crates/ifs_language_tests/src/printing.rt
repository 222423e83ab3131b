//! Whether a value is printed as a text.

use crate::checks::same_in;
use ifs_terminal::{Shown, displays_as};

/// A value is printed as the whole of what it prints, and as no part of it.
#[test]
fn printed_texts(rt: HostRuntime) {
    let rows = [
        ("\"a\\\"b\\x01\"", true),
        ("\"a\\\"b\\x01", false),
        ("\"a\\\"b\\x01\"\"", false),
        ("\"a\\\"c\\x01\"", false),
        ("\"a\\\"", false),
        ("", false),
    ];
    for (text, expected) in rows {
        same_in(&rt, text, displays_as(Shown("a\"b\u{1}"), text), expected);
    }
}
