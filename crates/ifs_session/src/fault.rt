//! Faults that end a session.

use ifs_verify::VerifyFault;
use thiserror::Error;

/// A fault that ends a session before `stop` and before the end of input.
#[derive(Clone, Copy, Debug, PartialEq, Eq, Error)]
pub enum SessionFault {
    /// S1: a read failed.
    #[error("S1")]
    ReadFailed,
    /// S2: a write failed.
    #[error("S2")]
    WriteFailed,
    /// S3: byte 16,777,217 of the input was read.
    #[error("S3")]
    TooMuchInput,
}

/// A fault that ends a run whose image is the first line of its input.
#[derive(Clone, Copy, Debug, PartialEq, Eq, Error)]
pub enum RunFault {
    /// X1: the first line is not an even number of at most 131,072 lower-case hexadecimal digits.
    #[error("X1")]
    X1,
    /// The verifier rejects the image.
    #[error("{0}")]
    Verify(VerifyFault),
    /// V0: an allocation for the image or for the core failed.
    #[error("V0")]
    Memory,
    /// S1 to S3: the first line could not be read, the line of a refusal could not be written, or the session failed.
    #[error("{0}")]
    Session(SessionFault),
}
