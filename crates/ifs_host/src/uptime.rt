//! The clock of the system that nobody sets.

use std::alloc::Global;
use std::fs;
use std::rt::Files;
use std::str::from_utf8;

/// The file with the seconds since the system's start.
const UPTIME: &str = "/proc/uptime";

/// The whole seconds since the system's start, if the system says them. This is the moment that the script `ticks` sends.
pub fn uptime<R: Files + Alloc<A = Global>>(rt: &R) -> Option<u64> {
    let text = fs::read(rt, UPTIME).ok()?;
    whole_seconds(text.as_slice())
}

/// The whole number before the first point of a text.
fn whole_seconds(text: &[u8]) -> Option<u64> {
    let text = from_utf8(text).ok()?;
    let (seconds, _rest) = text.split_once('.')?;
    seconds.parse::<u64>().ok()
}
