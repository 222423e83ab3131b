//! Why a policy has no image.

ghost use Rattle.std.specs.Prelude.{◌≡◌, Some};
ghost use Rattle.ifs_base.specs.FaultTexts.{fault_words};
ghost use Rattle.ifs_gen.specs.FaultWords.{gen_fault_words};
ghost use Rattle.ifs_gen.specs.declared.fault.GenFault.TheVariants.{Memory};

use ifs_base::{FaultPlace, FaultText, RoutineId};
use std::alloc::{AllocError, AllocFailed};
use std::fmt::{self, Debug, Display, Formatter, Write};
use thiserror::Error;

/// The first limit that the plain code of a policy exceeds. Each limit is checked over all routines before the
/// next.
#[derive(Clone, Copy, PartialEq, Eq, Error)]
pub enum GenFault {
    /// G1: a routine has over 1,024 instructions. The first such routine.
    RoutineTooLong(RoutineId),
    /// G2: all routines together have over 8,192 instructions.
    CodeTooLong,
    /// G3: a routine has over 32 values on the stack at some place. The first such routine.
    StackTooHigh(RoutineId),
    /// G4: one event, or the opening, may run over 64 commands.
    TooManyCommands,
    /// P0: an allocation failed.
    Memory,
}

impl GenFault {
    /// The code and the place, as they are printed.
    pub fn text(self) -> FaultText
        ensures { fault_words result ≡ gen_fault_words self }
    {
        let (code, place) = match self {
            GenFault::RoutineTooLong(routine) => ("G1", FaultPlace::Routine(routine)),
            GenFault::CodeTooLong => ("G2", FaultPlace::Nowhere),
            GenFault::StackTooHigh(routine) => ("G3", FaultPlace::Routine(routine)),
            GenFault::TooManyCommands => ("G4", FaultPlace::Nowhere),
            GenFault::Memory => ("P0", FaultPlace::Nowhere),
        };
        FaultText { code, place }
    }
}

impl Display for GenFault {
    ghost output = { λ fault. Some (gen_fault_words fault) };

    fn fmt<W: Write>(&self, f: &mut Formatter<W>) -> fmt::Result {
        write!(f, "{}", self.text())
    }
}

/// The same as `Display`.
impl Debug for GenFault {
    fn fmt<W: Write>(&self, f: &mut Formatter<W>) -> fmt::Result {
        Display::fmt(self, f)
    }
}

impl From<AllocError> for GenFault {
    ghost from_gives = { λ _ e. e ≡ Memory };

    fn from(_e: AllocError) -> GenFault {
        GenFault::Memory
    }
}

impl<T: Drop> From<AllocFailed<T>> for GenFault {
    ghost from_gives = { λ _ e. e ≡ Memory };

    fn from(_e: AllocFailed<T>) -> GenFault {
        GenFault::Memory
    }
}
