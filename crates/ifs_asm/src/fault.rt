//! Why a text spells no image.

ghost use Rattle.std.specs.Prelude.{◌≡◌, Some};
ghost use Rattle.ifs_base.specs.FaultTexts.{fault_words};
ghost use Rattle.ifs_asm.specs.FaultWords.{asm_fault_words};
ghost use Rattle.ifs_asm.specs.declared.fault.AsmFault.TheVariants.{Memory};
ghost use Rattle.ifs_asm.specs.declared.fault.LineFault.TheVariants as faults;
ghost use Rattle.ifs_asm.specs.inner.Reading.{fault_at};

use ifs_base::{FaultPlace, FaultText};
use std::alloc::{AllocError, AllocFailed};
use std::fmt::{self, Debug, Display, Formatter, Write};
use thiserror::Error;

/// The first line with a fault. Lines are counted from 1. On one line A1 is to come before A2, and A2 before A3;
/// the contract of `assemble` says what of this is proved.
#[derive(Clone, Copy, PartialEq, Eq, Error)]
pub enum AsmFault {
    /// A1: the line has no known form, repeats a name of its table, or begins a routine in the form of the other version.
    Unknown { line: u64 },
    /// A2: a number is out of its range, a list does not ascend, a text has 0 or over 1,024 bytes, a routine takes or leaves
    /// over four kinds, or there is one entry too many.
    OutOfRange { line: u64 },
    /// A3: the line is out of its order, or a part is missing at the end. In the second case `line` is the number of lines
    /// plus 1.
    OutOfOrder { line: u64 },
    /// A0: an allocation failed.
    Memory,
}

impl AsmFault {
    /// The text that is printed for the fault.
    pub fn text(self) -> FaultText
        ensures { fault_words result ≡ asm_fault_words self }
    {
        let (code, line) = match self {
            AsmFault::Unknown { line } => ("A1", line),
            AsmFault::OutOfRange { line } => ("A2", line),
            AsmFault::OutOfOrder { line } => ("A3", line),
            AsmFault::Memory => {
                return FaultText {
                    code: "A0",
                    place: FaultPlace::Nowhere,
                };
            }
        };
        FaultText {
            code,
            place: FaultPlace::Line(line),
        }
    }
}

impl Display for AsmFault {
    ghost output = { λ fault. Some (asm_fault_words fault) };

    fn fmt<W: Write>(&self, f: &mut Formatter<W>) -> fmt::Result {
        write!(f, "{}", self.text())
    }
}

/// Prints the same text as `Display`.
impl Debug for AsmFault {
    fn fmt<W: Write>(&self, f: &mut Formatter<W>) -> fmt::Result {
        Display::fmt(self, f)
    }
}

impl From<AllocError> for AsmFault {
    ghost from_gives = { λ _ e. e ≡ Memory };

    fn from(_e: AllocError) -> AsmFault {
        AsmFault::Memory
    }
}

/// What is wrong with a line.
#[derive(Clone, Copy, PartialEq, Eq)]
pub(crate) enum LineFault {
    Unknown,
    OutOfRange,
    OutOfOrder,
    Memory,
}

impl LineFault {
    /// This fault at a line.
    pub(crate) fn at(self, line: u64) -> AsmFault
        ensures { result ≡ fault_at self line }
    {
        match self {
            LineFault::Unknown => AsmFault::Unknown { line },
            LineFault::OutOfRange => AsmFault::OutOfRange { line },
            LineFault::OutOfOrder => AsmFault::OutOfOrder { line },
            LineFault::Memory => AsmFault::Memory,
        }
    }
}

impl From<AllocError> for LineFault {
    ghost from_gives = { λ _ e. e ≡ faults.Memory };

    fn from(_e: AllocError) -> LineFault {
        LineFault::Memory
    }
}

impl<T: Drop> From<AllocFailed<T>> for LineFault {
    ghost from_gives = { λ _ e. e ≡ faults.Memory };

    fn from(_e: AllocFailed<T>) -> LineFault {
        LineFault::Memory
    }
}
