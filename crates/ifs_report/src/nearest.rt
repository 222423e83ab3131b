//! Names that are nearly another one.

use std::alloc::{AllocError, Global};
use strsim::levenshtein;

/// The most bytes of a name that is compared.
const MOST_BYTES: usize = 64;

/// Whether one or two edits lead from one name to another, and the names have more characters than that.
pub fn is_near(alloc: Global, name: &str, other: &str) -> Result<bool, AllocError> {
    if name.len() > MOST_BYTES || other.len() > MOST_BYTES {
        return Ok(false);
    }
    let edits = levenshtein(alloc, name, other)?;
    let most = if name.len() < 5 { 1 } else { 2 };
    Ok(1 <= edits && edits <= most && edits < other.len())
}
