//! What is wrong with an answer.

use crate::verdict::Verdict;
use std::fmt;

/// Two answers that differ, or an answer that breaks a promise.
#[derive(Clone, Copy)]
pub enum Mismatch {
    /// The slow checker or the verifier does not give the wanted answer.
    Answers {
        wanted: Verdict,
        slow: Verdict,
        verifier: Verdict,
    },
    /// The image that was read is written as other bytes, or not written.
    Written,
    /// The image does not open.
    NotOpened,
    /// A step exceeds the budgets that the image states. Steps count from 1, and 0 is the opening.
    Over {
        step: u64,
    },
}

impl fmt::Display for Mismatch {
    fn fmt<W: fmt::Write>(&self, f: &mut fmt::Formatter<W>) -> fmt::Result {
        match self {
            Mismatch::Answers {
                wanted,
                slow,
                verifier,
            } => {
                write!(
                    f,
                    "expected {wanted}, the slow checker says {slow}, the verifier {verifier}"
                )
            }
            Mismatch::Written => write!(f, "expected the same bytes, others are written"),
            Mismatch::NotOpened => write!(f, "expected a core, none is opened"),
            Mismatch::Over { step } => write!(f, "expected the budgets, step {step} is over them"),
        }
    }
}
