//! What was tried, and with what result.

use crate::mismatch::Mismatch;
use std::{fmt, io};

/// What was done to an image's bytes.
#[derive(Clone, Copy)]
pub enum Change {
    /// All bytes from a place on were cut off.
    Cut { length: usize },
    /// The byte at a place was set to a value.
    Byte { at: usize, value: u8 },
}

impl fmt::Display for Change {
    fn fmt<W: fmt::Write>(&self, f: &mut fmt::Formatter<W>) -> fmt::Result {
        match self {
            Change::Cut { length } => write!(f, "cut before byte {length}"),
            Change::Byte { at, value } => write!(f, "byte {at} value {value}"),
        }
    }
}

/// How many byte strings were tried.
#[derive(Clone, Copy, Default)]
pub struct Tally {
    /// All of them.
    pub tried: u64,
    /// Those that are accepted.
    pub accepted: u64,
    /// Those with a wrong answer.
    pub wrong: u64,
}

impl Tally {
    /// The sum of both.
    pub fn and(self, other: Tally) -> Tally {
        Tally {
            tried: self.tried.saturating_add(other.tried),
            accepted: self.accepted.saturating_add(other.accepted),
            wrong: self.wrong.saturating_add(other.wrong),
        }
    }
}

/// Counts one byte string by whether it is accepted, and prints what is wrong with an answer.
pub fn counted(
    rt: &HostRuntime,
    name: &str,
    change: Change,
    answer: Result<bool, Mismatch>,
) -> io::Result<Tally> {
    let (accepted, wrong) = match answer {
        Ok(accepted) => (u64::from(accepted), 0),
        Err(mismatch) => {
            println!(rt; "{name}, {change}: {mismatch}")?;
            (0, 1)
        }
    };
    Ok(Tally {
        tried: 1,
        accepted,
        wrong,
    })
}
