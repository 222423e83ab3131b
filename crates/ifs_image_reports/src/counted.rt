//! Numbers of things, and bytes, in words.

use ifs_terminal::Escaped;
use std::alloc::AllocError;

/// The most bytes of a word that are shown.
const SHOWN: usize = 40;

/// Adds how many things of a name there are, as `there are 4 states`.
pub(crate) fn put_there(out: &mut String, count: usize, name: &str) -> Result<(), AllocError> {
    match count {
        0 => write!(out, "there is no {name}"),
        1 => write!(out, "there is 1 {name}"),
        _ => write!(out, "there are {count} {name}s"),
    }
}

/// Adds a number of things of a name, as `4 states`.
pub(crate) fn put_counted(out: &mut String, count: usize, name: &str) -> Result<(), AllocError> {
    let ending = if count == 1 { "" } else { "s" };
    write!(out, "{count} {name}{ending}")
}

/// Adds bytes in two hexadecimal digits each.
pub(crate) fn put_hexadecimal(out: &mut String, bytes: &[u8]) -> Result<(), AllocError> {
    for byte in bytes {
        write!(out, "{byte:02x}")?;
    }
    Ok(())
}

/// Adds a word of a text between backticks. Of a long one it adds the first 40 bytes at most.
pub(crate) fn put_word(out: &mut String, word: &[u8]) -> Result<(), AllocError> {
    let front = front_of(word);
    let ending = if front.len() < word.len() { ".." } else { "" };
    write!(out, "`{}{ending}`", Escaped(front))
}

/// The first bytes of a word, as many as are shown. It parts no character.
fn front_of(word: &[u8]) -> &[u8] {
    if word.len() <= SHOWN {
        return word;
    }
    let (front, rest) = word.split_at(SHOWN);
    let begun = if begins_inside(rest) {
        tail_of(front)
    } else {
        0
    };
    front.split_at(front.len().saturating_sub(begun)).0
}

/// The number of bytes of the character that these bytes end with.
fn tail_of(front: &[u8]) -> usize {
    match front {
        [.., a] if *a >= 0xc0 => 1,
        [.., a, _] if *a >= 0xc0 => 2,
        [.., a, _, _] if *a >= 0xc0 => 3,
        _ => 0,
    }
}

/// Whether bytes begin inside a character.
fn begins_inside(bytes: &[u8]) -> bool {
    match bytes {
        [byte, ..] => 0x80 <= *byte && *byte < 0xc0,
        [] => false,
    }
}
