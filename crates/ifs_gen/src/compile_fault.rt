//! Why a text does not compile.

ghost use Rattle.std.specs.Prelude.{◌≡◌, Some};
ghost use Rattle.ifs_base.specs.FaultTexts.{fault_words};
ghost use Rattle.ifs_gen.specs.FaultWords.{compile_fault_words};
ghost use Rattle.ifs_gen.specs.Compiled.{of_code, of_policy};

use crate::fault::GenFault;
use ifs_base::{FaultPlace, FaultText};
use ifs_policy::PolicyFault;
use std::fmt::{self, Debug, Display, Formatter, Write};
use thiserror::Error;

/// Why a text does not compile: it has no policy, or the code of its policy exceeds a limit.
#[derive(Clone, Copy, PartialEq, Eq, Error)]
pub enum CompileFault {
    /// P1 to P16: the text has no policy.
    Text(PolicyFault),
    /// G1 to G4: the code of the policy exceeds a limit.
    Code(GenFault),
    /// P0: an allocation failed.
    Memory,
}

impl CompileFault {
    /// The code and the place, as they are printed.
    pub fn text(self) -> FaultText
        ensures { fault_words result ≡ compile_fault_words self }
    {
        match self {
            CompileFault::Text(fault) => fault.text(),
            CompileFault::Code(fault) => fault.text(),
            CompileFault::Memory => FaultText {
                code: "P0",
                place: FaultPlace::Nowhere,
            },
        }
    }
}

impl Display for CompileFault {
    ghost output = { λ fault. Some (compile_fault_words fault) };

    fn fmt<W: Write>(&self, f: &mut Formatter<W>) -> fmt::Result {
        write!(f, "{}", self.text())
    }
}

/// The same as `Display`.
impl Debug for CompileFault {
    fn fmt<W: Write>(&self, f: &mut Formatter<W>) -> fmt::Result {
        Display::fmt(self, f)
    }
}

impl From<PolicyFault> for CompileFault {
    ghost from_gives = { λ fault e. e ≡ of_policy fault };

    fn from(fault: PolicyFault) -> CompileFault {
        match fault {
            PolicyFault::Memory => CompileFault::Memory,
            fault => CompileFault::Text(fault),
        }
    }
}

impl From<GenFault> for CompileFault {
    ghost from_gives = { λ fault e. e ≡ of_code fault };

    fn from(fault: GenFault) -> CompileFault {
        match fault {
            GenFault::Memory => CompileFault::Memory,
            fault => CompileFault::Code(fault),
        }
    }
}
