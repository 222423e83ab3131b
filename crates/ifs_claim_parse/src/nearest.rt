//! Names that are nearly another one.

use crate::keyword::{Wanted, words_of};
use ifs_base::Text;
use ifs_policy::Table;
use ifs_report::is_near;
use std::alloc::{AllocError, Global};

/// The first entry of a table that is nearly a name. It is empty if there is none.
pub(crate) fn near_entry<'t>(
    alloc: Global,
    name: &str,
    table: &'t Table<Text>,
) -> Result<&'t str, AllocError> {
    for index in 0..table.len() {
        if let Some(entry) = table.get(index)
            && is_near(alloc, name, entry.as_str())?
        {
            return Ok(entry.as_str());
        }
    }
    Ok("")
}

/// The first word that can be at a place and is nearly this one. It is empty if there is none.
pub(crate) fn near_word(
    alloc: Global,
    word: &str,
    wanted: Wanted,
) -> Result<&'static str, AllocError> {
    for words in words_of(wanted) {
        let plain = without_quotes(words);
        if is_near(alloc, word, plain)? {
            return Ok(plain);
        }
    }
    Ok("")
}

/// The word that asks for the values of tests and is nearly this one. It is empty if there is none. The longer one is first, since
/// `unkown` is nearly both.
pub(crate) fn near_values(alloc: Global, word: &str) -> Result<&'static str, AllocError> {
    for near in ["unknown", "known"] {
        if is_near(alloc, word, near)? {
            return Ok(near);
        }
    }
    Ok("")
}

/// A word without the backquotes around it. It is empty for other words.
fn without_quotes(words: &'static str) -> &'static str {
    match words.strip_prefix('`') {
        Some(rest) => rest.strip_suffix('`').unwrap_or(""),
        None => "",
    }
}
