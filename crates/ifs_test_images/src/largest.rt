//! The largest inputs. An image has full tables, texts of 1,024 bytes and 8,192 instructions. A policy that compiles has as many
//! bytes, tokens, definitions and entries as there may be. Another image has the longest line of digits.

use std::alloc::{AllocError, Global};

/// How many bytes the largest image has.
pub const LARGEST_BYTES: usize = 1_480_767;

/// The lines before the tables.
const FRONT: &str = "ifsv 1
stack 32
frames 32
cost 300000
commands 64
start 255
always init 0 body 1 tests 0,1,2,3,63
";

/// For each table, the text before and after an entry's text, and how many entries there may be.
const TABLES: [(&str, &str, u32); 4] = [
    ("iface", "", 64),
    ("test 604800", "", 64),
    ("command", "", 1_024),
    ("state", " init 6 body 7 tests 0,1,2,3,63", 256),
];

/// The text of an accepted image that has as much as an image may have.
pub fn largest_listing(alloc: Global) -> Result<String, AllocError> {
    let mut listing = String::from_str(alloc, FRONT)?;
    let fill = repeated(alloc, "x", 1_019)?;
    for (before, after, count) in TABLES {
        put_table(&mut listing, (before, after), fill.as_str(), count)?;
    }
    for _ in 0..8 {
        put_routine(&mut listing)?;
    }
    Ok(listing)
}

/// A text `count` times.
pub fn repeated(alloc: Global, part: &str, count: u32) -> Result<String, AllocError> {
    let mut text = String::new(alloc);
    for _ in 0..count {
        text.push_str(part)?;
    }
    Ok(text)
}

/// Puts `count` entries. Each text is a number of five digits and then `fill`.
fn put_table(
    listing: &mut String,
    (before, after): (&str, &str),
    fill: &str,
    count: u32,
) -> Result<(), AllocError> {
    for number in 0..count {
        let number = u64::from(number) + 10_000;
        writeln!(listing, "{before} \"{number}{fill}\"{after}")?;
    }
    Ok(())
}

/// Puts a routine of 1,024 instructions, all of them reached.
fn put_routine(listing: &mut String) -> Result<(), AllocError> {
    listing.push_str("routine results 0\njump 1\n")?;
    for _ in 0..511 {
        listing.push_str("link 63 up\npop\n")?;
    }
    listing.push_str("ret\n")
}

/// The lines of the smallest image: between its version and its state, its state, and its routine in version 1.
pub const SMALLEST: (&str, &str, &str) = (
    "stack 0
frames 1
cost 3
commands 0
start 0
always init 0 body 0 tests -
",
    "state \"a\" init 0 body 0 tests -\n",
    "routine results 0\nret\n",
);

/// The text of an image that is accepted and has 65,536 bytes, the most that a line of digits may spell.
pub fn longest_line_listing(alloc: Global) -> Result<String, AllocError> {
    let mut listing = format!(in alloc; "ifsv 1\n{}", SMALLEST.0)?;
    let fill = repeated(alloc, "x", 1_019)?;
    put_table(&mut listing, ("command", ""), fill.as_str(), 63)?;
    let fill = repeated(alloc, "x", 830)?;
    put_table(&mut listing, ("command", ""), fill.as_str(), 1)?;
    listing.push_str(SMALLEST.1)?;
    listing.push_str(SMALLEST.2)?;
    Ok(listing)
}

/// How many bytes the image of the largest policy has.
pub const LARGEST_COMPILED: usize = 1_091_373;

/// How many bytes a policy's text may have.
const LARGEST_TEXT: usize = 1_048_576;

/// How often each line of the largest policy occurs. A number of its own replaces each `#`.
const LINES: [(u32, &str); 5] = [
    (1, "init-state s10255\n"),
    (
        64,
        "if ((((((((((((((((((((((((( ! e#.link.up ))))))))))))))))))))))))) { }\n",
    ),
    (
        64,
        "if ((((((((((((((((((((((((( t# every 604800 ))))))))))))))))))))))))) { }\n",
    ),
    (31, "set-state s10000\n"),
    (
        256,
        "state s# { init { $n# } set-state s10000 set-state s10000 set-state s10000 set-state s10000 set-state s10000
set-state s10000 set-state s10000 set-state s10000 set-state s10000 set-state s10000 }\n",
    ),
];

/// The text of a policy that compiles with [`largest_definitions`] and has as much as a policy may have: 1,048,576 bytes, 16,384
/// tokens, full tables and 8,192 instructions.
pub fn largest_policy(alloc: Global) -> Result<String, AllocError> {
    let mut text = String::new(alloc);
    for (count, line) in LINES {
        put_lines(&mut text, line, count)?;
    }
    put_newlines(&mut text)?;
    Ok(text)
}

/// Definitions for the largest policy, as many as there may be. Each is a line: a name, `=`, and four runs of commands of 1,024
/// bytes.
pub fn largest_definitions(alloc: Global) -> Result<String, AllocError> {
    let fill = repeated(alloc, "x", 1_018)?;
    let fill = fill.as_str();
    let line = format!(in alloc; "n#=run a#{fill} run b#{fill} run c#{fill} run d#{fill}\n")?;
    let mut lines = String::new(alloc);
    put_lines(&mut lines, line.as_str(), 256)?;
    Ok(lines)
}

/// The name and the value of each line, before and after its first `=`.
pub fn definitions_in(alloc: Global, lines: &str) -> Result<Vec<(&str, &str)>, AllocError> {
    let mut definitions = Vec::new(alloc);
    for definition in lines.lines().filter_map(|line| line.split_once('=')) {
        definitions.push(definition)?;
    }
    Ok(definitions)
}

/// Puts a line `count` times, with numbers of five digits.
fn put_lines(text: &mut String, line: &str, count: u32) -> Result<(), AllocError> {
    for number in 0..count {
        put_numbered(text, line, u64::from(number) + 10_000)?;
    }
    Ok(())
}

/// Puts a line with this number in place of each `#`.
fn put_numbered(text: &mut String, line: &str, number: u64) -> Result<(), AllocError> {
    for character in line.chars() {
        if character == '#' {
            write!(text, "{number}")?;
        } else {
            text.push(character)?;
        }
    }
    Ok(())
}

/// Puts newlines until a text is as long as it may be.
fn put_newlines(text: &mut String) -> Result<(), AllocError> {
    for _ in text.len()..LARGEST_TEXT {
        text.push_str("\n")?;
    }
    Ok(())
}
