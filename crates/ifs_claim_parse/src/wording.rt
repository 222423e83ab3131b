//! Words for what can be at a place of a condition, and lists of such words.

use crate::keyword::END;
use ifs_expected_tokens::Kind;
use std::alloc::{AllocError, Global};

/// Adds those of some words that are not empty.
pub(crate) fn put_words(
    list: &mut Vec<&'static str>,
    words: &[&'static str],
) -> Result<(), AllocError> {
    for word in words {
        if !word.is_empty() {
            list.push(word)?;
        }
    }
    Ok(())
}

/// Those of some words that are not empty.
pub(crate) fn list_of(
    alloc: Global,
    words: &[&'static str],
) -> Result<Vec<&'static str>, AllocError> {
    let mut list: Vec<&'static str> = Vec::new(alloc);
    put_words(&mut list, words)?;
    Ok(list)
}

/// A kind of token, its words, another kind, and the words where that one can be there too.
type Row = (Kind, &'static str, Kind, &'static str);

/// The kinds of tokens that a condition has, with what is wanted most first. `{` stands for the end of the line, and no condition
/// has the end of the text. Where a name can be, the words for link states are names.
const ROWS: [Row; 14] = [
    (
        Kind::Text,
        "an interface or a command in quotes",
        Kind::End,
        "",
    ),
    (
        Kind::Number,
        "a number of seconds, from 1 to 604800",
        Kind::Text,
        "",
    ),
    (Kind::Dot, "`.`", Kind::Every, "`.` behind an interface"),
    (
        Kind::Every,
        "`every`",
        Kind::Dot,
        "`every` behind a command",
    ),
    (Kind::Link, "`link`", Kind::Text, ""),
    (Kind::Up, "`up`", Kind::Text, ""),
    (Kind::Down, "`down`", Kind::Text, ""),
    (Kind::Unknown, "`unknown`", Kind::Text, ""),
    (Kind::And, "`&&`", Kind::End, ""),
    (Kind::Or, "`||`", Kind::End, ""),
    (Kind::Bang, "`!`", Kind::End, ""),
    (Kind::ParenOpen, "`(`", Kind::End, ""),
    (Kind::ParenClose, "`)`", Kind::End, ""),
    (Kind::BraceOpen, END, Kind::End, ""),
];

/// Adds what can be at a place of a condition, by the kinds of tokens.
pub(crate) fn put_kinds(list: &mut Vec<&'static str>, kinds: &[Kind]) -> Result<(), AllocError> {
    put_rows(list, kinds, &ROWS)
}

/// Adds the words of those kinds that are in a list.
fn put_rows(list: &mut Vec<&'static str>, kinds: &[Kind], rows: &[Row]) -> Result<(), AllocError> {
    for (kind, words, beside, others) in rows {
        let words = if kinds.contains(beside) {
            others
        } else {
            words
        };
        if kinds.contains(kind) && !words.is_empty() {
            list.push(words)?;
        }
    }
    Ok(())
}
