//! The status of a daemon from JSON.

use crate::daemon_status::DaemonStatus;
use crate::fault::StatusFault;
use serde_json::Value;
use std::alloc::Global;

/// Reads JSON.
pub fn parse_json(alloc: Global, text: &[u8]) -> Result<Value, StatusFault> {
    Ok(Value::from_slice(alloc, text)?)
}

/// Reads the status that JSON has, which borrows its texts. Members that are not known are passed over.
pub fn read_status(alloc: Global, value: &Value) -> Result<DaemonStatus<'_>, StatusFault> {
    let mut reading = Reading {
        alloc,
        wrong: None,
        has_memory: true,
    };
    let status = DaemonStatus::read(value, "", &mut reading);
    match reading.fault() {
        Some(fault) => Err(fault),
        None => Ok(status),
    }
}

/// Reads members. A member that is missing or of a wrong kind has a value that means nothing.
#[derive(Drop)]
pub(crate) struct Reading<'n> {
    alloc: Global,
    /// The name of the first such member, if there is one.
    wrong: Option<&'n str>,
    /// Whether there was memory for each list.
    has_memory: bool,
}

/// What a value of JSON can be read as.
pub(crate) trait Readable<'a>: Sized {
    /// Reads a value. It belongs to the member with this name.
    fn read<'n>(value: &'a Value, name: &'n str, reading: &mut Reading<'n>) -> Self;
}

impl Reading<'static> {
    /// Why there is no status, if something was wrong.
    fn fault(&self) -> Option<StatusFault> {
        if self.has_memory {
            Some(StatusFault::Member(self.wrong?))
        } else {
            Some(StatusFault::Memory)
        }
    }
}

impl<'n> Reading<'n> {
    /// Reads a member of an object.
    pub(crate) fn member<'a, T: Readable<'a>>(&mut self, object: &'a Value, name: &'n str) -> T {
        let value = match object.get(name) {
            Some(value) => value,
            None => {
                self.note(name);
                object
            }
        };
        T::read(value, name, self)
    }

    /// Reads a member that may be missing or null.
    pub(crate) fn optional<'a, T: Readable<'a>>(
        &mut self,
        object: &'a Value,
        name: &'n str,
    ) -> Option<T> {
        match object.get(name) {
            Some(Value::Null) | None => None,
            Some(value) => Some(T::read(value, name, self)),
        }
    }

    /// Reads a member that is a list.
    pub(crate) fn list<'a, T: Readable<'a> + Drop>(
        &mut self,
        object: &'a Value,
        name: &'n str,
    ) -> Vec<T> {
        let mut list = Vec::new(self.alloc);
        for value in self.items(object, name) {
            let item = T::read(value, name, self);
            self.has_memory &= list.push(item).is_ok();
        }
        list
    }

    /// Reads a member that is a list, and is empty if it is missing or null.
    pub(crate) fn optional_list<'a, T: Readable<'a> + Drop>(
        &mut self,
        object: &'a Value,
        name: &'n str,
    ) -> Vec<T> {
        match object.get(name) {
            Some(Value::Null) | None => Vec::new(self.alloc),
            Some(_list) => self.list(object, name),
        }
    }

    /// The items of a member that is an array.
    fn items<'a>(&mut self, object: &'a Value, name: &'n str) -> &'a [Value] {
        match object.get(name) {
            Some(Value::Array(items)) => items.as_slice(),
            _ => {
                self.note(name);
                &[]
            }
        }
    }

    /// Returns a value that was read, or another one if there is none.
    fn or_note<T: Drop>(&mut self, read: Option<T>, name: &'n str, other: T) -> T {
        match read {
            Some(value) => value,
            None => {
                self.note(name);
                other
            }
        }
    }

    /// Notes that a member is wrong.
    fn note(&mut self, name: &'n str) {
        if self.wrong.is_none() {
            self.wrong = Some(name);
        }
    }
}

impl<'a> Readable<'a> for &'a str {
    fn read<'n>(value: &'a Value, name: &'n str, reading: &mut Reading<'n>) -> &'a str {
        reading.or_note(value.as_str(), name, "")
    }
}

impl<'a> Readable<'a> for u64 {
    fn read<'n>(value: &'a Value, name: &'n str, reading: &mut Reading<'n>) -> u64 {
        reading.or_note(value.as_u64(), name, 0)
    }
}

impl<'a> Readable<'a> for i32 {
    fn read<'n>(value: &'a Value, name: &'n str, reading: &mut Reading<'n>) -> i32 {
        let number = value.as_i64().unwrap_or(i64::MAX);
        reading.or_note(i32::try_from(number).ok(), name, 0)
    }
}

impl<'a> Readable<'a> for bool {
    fn read<'n>(value: &'a Value, name: &'n str, reading: &mut Reading<'n>) -> bool {
        reading.or_note(value.as_bool(), name, false)
    }
}
