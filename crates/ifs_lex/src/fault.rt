//! The faults of a policy's text.

ghost use Rattle.std.specs.Prelude.{◌≡◌, Some};
ghost use Rattle.ifs_base.specs.FaultTexts.{fault_words};
ghost use Rattle.ifs_lex.specs.FaultWords.{lex_fault_words};
ghost use Rattle.ifs_lex.specs.declared.fault.LexFault.TheVariants.{Memory};

use ifs_base::{FaultPlace, FaultText};
use std::alloc::{AllocError, AllocFailed};
use std::fmt::{self, Debug, Display, Formatter, Write};
use thiserror::Error;

/// The first fault from the left. `line` is its line, from 1. Faults of the definitions that are given beside the
/// text come first and have line 0.
#[derive(Clone, Copy, PartialEq, Eq, Error)]
pub enum LexFault {
    /// P1: a character that begins no lexeme.
    Stray { line: u32 },
    /// P2: a quoted text that no quote closes, at its first quote.
    Unclosed { line: u32 },
    /// P3: a use of an unknown macro.
    UnknownMacro { line: u32 },
    /// P4: a macro whose value is no list of tokens, or a given name that is no macro name. It is at the name.
    BadMacro { line: u32 },
    /// P5: the text is too long, or has too many tokens or macro names.
    OverLimit { line: u32 },
    /// P0: an allocation failed.
    Memory,
}

impl LexFault {
    /// Returns the fault's code and place, as lines print them.
    pub fn text(self) -> FaultText
        ensures { fault_words result ≡ lex_fault_words self }
    {
        let (code, line) = match self {
            LexFault::Stray { line } => ("P1", line),
            LexFault::Unclosed { line } => ("P2", line),
            LexFault::UnknownMacro { line } => ("P3", line),
            LexFault::BadMacro { line } => ("P4", line),
            LexFault::OverLimit { line } => ("P5", line),
            LexFault::Memory => {
                return FaultText {
                    code: "P0",
                    place: FaultPlace::Nowhere,
                };
            }
        };
        FaultText {
            code,
            place: FaultPlace::Line(u64::from(line)),
        }
    }
}

impl Display for LexFault {
    ghost output = { λ fault. Some (lex_fault_words fault) };

    fn fmt<W: Write>(&self, f: &mut Formatter<W>) -> fmt::Result {
        write!(f, "{}", self.text())
    }
}

/// Prints the same text as `Display`.
impl Debug for LexFault {
    fn fmt<W: Write>(&self, f: &mut Formatter<W>) -> fmt::Result {
        Display::fmt(self, f)
    }
}

impl From<AllocError> for LexFault {
    ghost from_gives = { λ _ e. e ≡ Memory };

    fn from(_e: AllocError) -> LexFault {
        LexFault::Memory
    }
}

impl<T: Drop> From<AllocFailed<T>> for LexFault {
    ghost from_gives = { λ _ e. e ≡ Memory };

    fn from(_e: AllocFailed<T>) -> LexFault {
        LexFault::Memory
    }
}
