//! Devices in memory. They report their bytes and failures, and can fail at a given call for tests.

ghost use Rattle.std.specs.Prelude.{◌≡◌, ◌↔◌, ◌⊎◌, ◌+◌, ◌<◌, ◌≤◌, [], length, Some, None, IsTrue, IsOk, IsErr, OnErr};
ghost use Rattle.ifs_session.specs.Memory.{counted_down};
ghost use Rattle.ifs_session.specs.Device.{NextGives, PutGives};

use crate::device::{ByteIn, ByteOut, DeviceFault};
use std::alloc::{Allocator, Global};
use std::marker::Model;

/// Counts a call down, and returns whether it fails.
fn fails_now(fails_after: &mut Option<u64>) -> bool
    ensures now { IsTrue result ↔ (fails_after.old ≡ Some 0) }
    ensures counted { fails_after.new ≡ counted_down fails_after.old }
{
    match *fails_after {
        None => false,
        Some(0) => {
            *fails_after = None;
            true
        }
        Some(calls) => {
            *fails_after = Some(calls - 1);
            false
        }
    }
}

/// A reader of bytes in memory.
#[derive(Debug, Drop)]
pub struct MemoryIn<'a> {
    left: &'a [u8],
    faults: u64,
    fails_after: Option<u64>,
}

impl<'a> Model for MemoryIn<'a> {
    ghost use Rattle.ifs_session.specs.Memory.{Input};

    ghost Value = { Input };

    ghost view = { λ r. record { left = r.left.now; faults = r.faults; fails_after = r.fails_after } };
}

impl<'a> MemoryIn<'a> {
    /// A reader of bytes that never fails.
    pub fn new(bytes: &'a [u8]) -> Self
        ensures { result ≡ record { left = bytes.entry.now; faults = 0; fails_after = None } }
    {
        MemoryIn::with(bytes, None)
    }

    /// A reader of bytes that fails once, after `calls` calls.
    pub fn failing_after(bytes: &'a [u8], calls: u64) -> Self
        ensures { result ≡ record { left = bytes.entry.now; faults = 0; fails_after = Some calls } }
    {
        MemoryIn::with(bytes, Some(calls))
    }

    fn with(left: &'a [u8], fails_after: Option<u64>) -> Self
        ensures { result ≡ record { left = left.entry.now; faults = 0; fails_after = fails_after } }
    {
        MemoryIn {
            left,
            faults: 0,
            fails_after,
        }
    }

    /// The bytes that are left.
    pub fn left(&self) -> &'a [u8]
        ensures { result.now ≡ self.now.left }
    {
        self.left
    }
}

impl ByteIn for MemoryIn<'_> {
    ghost left = { λ s. Some s.left };

    ghost faults = { λ s. Some s.faults };

    fn next(&mut self) -> Result<Option<u8>, DeviceFault>
        ensures gives { NextGives result (Some self.old.left) (Some self.new.left) (Some self.old.faults) (Some self.new.faults) }
        ensures failing { IsErr result ↔ (self.old.fails_after ≡ Some 0) }
        ensures counted { self.new.fails_after ≡ counted_down self.old.fails_after }
    {
        if fails_now(&mut self.fails_after) {
            self.faults = self.faults.saturating_add(1);
            return Err(DeviceFault);
        }
        match self.left {
            [] => Ok(None),
            [byte, rest @ ..] => {
                self.left = rest;
                Ok(Some(*byte))
            }
        }
    }
}

/// A writer of bytes into memory.
#[derive(Debug, Drop)]
pub struct MemoryOut<A: Allocator = Global> {
    written: Vec<u8, A>,
    faults: u64,
    fails_after: Option<u64>,
}

impl<A: Allocator> Model for MemoryOut<A> {
    ghost use Rattle.std.specs.Prelude.{vec_capacity};
    ghost use Rattle.ifs_session.specs.Memory.{Output};

    ghost Value = { Output };

    ghost view = { λ w. record { written = w.written.items; capacity = vec_capacity w.written; faults = w.faults; fails_after = w.fails_after } };
}

impl<A: Allocator> MemoryOut<A> {
    /// An empty writer, which fails only if an allocation from `alloc` fails.
    pub fn new(alloc: A) -> Self
        ensures { result ≡ record { written = []; capacity = 0; faults = 0; fails_after = None } }
    {
        MemoryOut::with(alloc, None)
    }

    /// An empty writer, which fails once after `calls` calls, and if an allocation from `alloc` fails.
    pub fn failing_after(alloc: A, calls: u64) -> Self
        ensures { result ≡ record { written = []; capacity = 0; faults = 0; fails_after = Some calls } }
    {
        MemoryOut::with(alloc, Some(calls))
    }

    fn with(alloc: A, fails_after: Option<u64>) -> Self
        ensures { result ≡ record { written = []; capacity = 0; faults = 0; fails_after = fails_after } }
    {
        MemoryOut {
            written: Vec::new(alloc),
            faults: 0,
            fails_after,
        }
    }

    /// The bytes that were written.
    pub fn written(&self) -> &[u8]
        ensures { result.now ≡ self.now.written }
    {
        self.written.as_slice()
    }
}

impl<A: Allocator> ByteOut for MemoryOut<A> {
    ghost written = { λ s. Some s.written };

    ghost held = { λ _. Some [] };

    ghost faults = { λ s. Some s.faults };

    /// Fails at the given call and if an allocation fails, and then writes nothing.
    fn put(&mut self, bytes: &[u8]) -> Result<(), DeviceFault>
        ensures puts { PutGives result bytes.now (Some self.old.written) (Some self.new.written) (Some self.old.faults) (Some self.new.faults) }
        ensures failing { self.old.fails_after ≡ Some 0 → IsErr result }
        ensures unchanged { OnErr result (self.new.written ≡ self.old.written) }
        ensures full { OnErr result ((self.old.fails_after ≡ Some 0) ⊎ (self.old.capacity < length self.old.written + length bytes.now)) }
        ensures capacity { self.old.capacity ≤ self.new.capacity }
        ensures counted { self.new.fails_after ≡ counted_down self.old.fails_after }
    {
        if fails_now(&mut self.fails_after) {
            self.faults = self.faults.saturating_add(1);
            return Err(DeviceFault);
        }
        if self.written.extend_from_slice(bytes).is_err() {
            self.faults = self.faults.saturating_add(1);
            return Err(DeviceFault);
        }
        Ok(())
    }

    /// Does nothing, since nothing is held back.
    fn flush(&mut self) -> Result<(), DeviceFault>
        ensures puts { PutGives result [] (Some self.old.written) (Some self.new.written) (Some self.old.faults) (Some self.new.faults) }
        ensures same { self.new ≡ self.old }
        ensures succeeds { IsOk result }
    {
        Ok(())
    }
}
