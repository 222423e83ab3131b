//! Claims, and where a file has them.

use crate::claim::Claim;
use ifs_report::Part;

/// A claim, and where a claims file has it.
#[derive(Drop)]
pub struct Stated {
    /// The number of its line, from 1.
    pub line: u32,
    /// Its words in the text of the claims file, as byte offsets: from the first word to the end of the last one.
    pub part: Part,
    pub claim: Claim,
}
