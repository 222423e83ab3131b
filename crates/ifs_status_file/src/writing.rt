//! The status of a daemon as JSON.

use crate::daemon_status::DaemonStatus;
use serde::{Serialize, Serializer};
use std::alloc::{AllocError, Global};

/// Makes the JSON object of a status, on one line without a newline. The only error is a failed allocation.
pub fn to_json(alloc: Global, status: &DaemonStatus<'_>) -> Result<String, AllocError> {
    match serde_json::to_string(alloc, status) {
        Ok(text) => Ok(text),
        Err(_memory) => Err(AllocError),
    }
}

/// Writes the members of an object. After a failure nothing more is written, and `end` returns it.
#[derive(Drop)]
pub(crate) struct Members<'s, S: Serializer> {
    /// Where the members go.
    out: &'s mut S,
    /// The failure, if there was one.
    result: Result<(), S::Error>,
}

impl<'s, S: Serializer> Members<'s, S> {
    /// Begins an object.
    pub(crate) fn begin(out: &'s mut S) -> Members<'s, S> {
        let result = out.begin_map(None);
        Members { out, result }
    }

    /// Writes a member.
    pub(crate) fn put<T: Serialize>(self, name: &str, value: &T) -> Members<'s, S> {
        let Members { out, result } = self;
        let result = match result {
            Ok(()) => put_member(out, name, value),
            Err(error) => Err(error),
        };
        Members { out, result }
    }

    /// Ends the object.
    pub(crate) fn end(self) -> Result<(), S::Error> {
        self.result?;
        self.out.end_map()
    }
}

/// Writes a member.
fn put_member<S: Serializer, T: Serialize>(
    out: &mut S,
    name: &str,
    value: &T,
) -> Result<(), S::Error> {
    out.key(name)?;
    value.serialize(out)
}
