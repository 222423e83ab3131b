//! Orders to the preloaded library that refuses allocations.

use arrayvec::ArrayString;
use std::alloc::{AllocError, Global};
use std::fmt::{Display, Write};

/// A request for this many bytes is an order to the library, since no C library has as many. The order alone ends all refusals. If
/// the request is larger by N bytes, the library refuses allocation N from there on.
const ORDER: usize = 1 << 60;

/// A request larger by this many bytes asks whether the last chosen allocation was refused. If so, the library refuses the next
/// one.
const ASK: usize = 1 << 32;

/// One turn of a call. It refuses one allocation of the call.
#[derive(Clone, Copy)]
pub struct Turn {
    alloc: Global,
    /// The number of the allocation, from 1 on; 0 for none.
    growth: u32,
}

impl Turn {
    /// The turn with ample memory.
    pub fn ample(alloc: Global) -> Self {
        Turn { alloc, growth: 0 }
    }

    /// The turn that refuses this allocation.
    pub fn refusing(alloc: Global, growth: u32) -> Self {
        Turn { alloc, growth }
    }

    /// The number of the allocation.
    pub fn growth(self) -> u32 {
        self.growth
    }

    /// The allocator before and after the call.
    pub fn alloc(self) -> Global {
        self.alloc
    }

    /// The allocator for the call. The library counts allocations from here on.
    pub fn begun(self) -> Global {
        order(self.alloc, ORDER + self.growth as usize);
        self.alloc
    }

    /// Ends the count, and returns the answer of the call.
    pub fn ended<T>(self, answer: T) -> T {
        order(self.alloc, ORDER);
        answer
    }

    /// Whether the allocation was refused.
    pub fn is_met(self) -> bool {
        if self.growth == 0 {
            return false;
        }
        order(self.alloc, ORDER + ASK);
        let met = is_refused(self.alloc, 1);
        order(self.alloc, ORDER);
        met
    }
}

fn order(alloc: Global, bytes: usize) {
    let _refused = is_refused(alloc, bytes);
}

/// Whether an allocation of this many bytes fails.
fn is_refused(alloc: Global, bytes: usize) -> bool {
    let asked: Result<Vec<u8>, AllocError> = Vec::with_capacity(alloc, bytes);
    asked.is_err()
}

/// The text of a fault, up to 64 bytes.
pub type Code = ArrayString<64>;

/// The text of a fault.
pub fn code_of<F: Display + Drop>(fault: F) -> Code {
    let mut code = Code::new();
    // a text that does not fit is no out-of-memory code in any case
    let _written = write!(code, "{fault}");
    code
}

/// The code of a failed allocation, if a call reports no more.
pub fn no_memory(_refused: AllocError) -> Code {
    code_of("AllocError")
}
