//! Failures of the program.

use crate::allocations::Code;
use std::io;
use thiserror::Error;

/// What a call did instead of what it promises.
#[derive(Clone, Copy, Debug, PartialEq, Eq, Error)]
pub enum Came {
    /// It answered, although the allocation was refused.
    #[error("an answer, although an allocation was refused")]
    Answer,
    /// It returned another answer than before with ample memory.
    #[error("another answer than the usual one")]
    Another,
    /// It reported that memory ran out, although no allocation was refused.
    #[error("out of memory, although no allocation was refused")]
    Want,
    /// It has more allocations than the program tries.
    #[error("there is no end of allocations")]
    Unending,
}

/// Why the program ends early.
#[derive(Debug, Drop, Error)]
pub enum Failure {
    /// A call broke its promise in the turn of an allocation.
    #[error("allocation {growth}: {came}")]
    Turn { growth: u32, came: Came },
    /// A call reported another fault in the turn of an allocation.
    #[error("allocation {growth}: reported {code}")]
    Fault { growth: u32, code: Code },
    /// A session broke its promise. The number counts the calls before the one that failed, or the bytes before the cut.
    #[error("session {0}: not as promised")]
    Session(usize),
    /// The inputs of the calls could not be made.
    #[error("nothing to begin with: {0}")]
    Given(Code),
    /// Standard output failed.
    #[error("standard output failed")]
    Output,
}

impl From<io::Error> for Failure {
    fn from(_error: io::Error) -> Failure {
        Failure::Output
    }
}

impl From<Code> for Failure {
    fn from(code: Code) -> Failure {
        Failure::Given(code)
    }
}
