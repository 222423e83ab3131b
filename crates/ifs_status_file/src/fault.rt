//! Why a text is no status of a daemon.

use serde_json::Error;
use std::alloc::AllocError;
use std::fmt::{self, Display, Formatter, Write};

/// Why a text is no status of a daemon.
#[derive(Clone, Copy, Drop)]
pub enum StatusFault {
    /// An allocation failed.
    Memory,
    /// The text is no JSON.
    Json(Error),
    /// The member with this name is missing, or its value is of a wrong kind.
    Member(&'static str),
}

impl From<Error> for StatusFault {
    fn from(error: Error) -> StatusFault {
        if error.is_memory() {
            StatusFault::Memory
        } else {
            StatusFault::Json(error)
        }
    }
}

impl From<AllocError> for StatusFault {
    fn from(_error: AllocError) -> StatusFault {
        StatusFault::Memory
    }
}

impl Display for StatusFault {
    fn fmt<W: Write>(&self, f: &mut Formatter<W>) -> fmt::Result {
        match self {
            StatusFault::Memory => f.write_str("no memory"),
            StatusFault::Json(error) => error.fmt(f),
            StatusFault::Member(name) => write!(f, "\"{name}\" is missing or wrong"),
        }
    }
}
