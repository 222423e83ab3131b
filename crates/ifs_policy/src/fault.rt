//! Why a tree has no policy.

ghost use Rattle.std.specs.Prelude.{◌≡◌, Some};
ghost use Rattle.ifs_base.specs.FaultTexts.{fault_words};
ghost use Rattle.ifs_policy.specs.FaultWords.{resolve_fault_words};
ghost use Rattle.ifs_policy.specs.declared.fault.ResolveFault.TheVariants.{Memory};

use ifs_base::{FaultPlace, FaultText};
use ifs_lex::TokenPlace;
use std::alloc::{AllocError, AllocFailed};
use std::fmt::{self, Debug, Display, Formatter, Write};
use thiserror::Error;

/// Why a tree has no policy, with the place of a token. A missing state comes first, then the first broken rule,
/// then the first unknown state.
#[derive(Clone, Copy, PartialEq, Eq, Error)]
pub enum ResolveFault {
    /// P9: no state is defined. No token has this fault, and its line is 1.
    NoState { line: u32 },
    /// P10: a state is defined twice. The place is that of the second name.
    StateTwice(TokenPlace),
    /// P12: a part has a second `init`, or there is a second `init-state`. The place is that of the word.
    SecondInit(TokenPlace),
    /// P13: an `init` contains a `set-state`. The place is that of the word.
    SetStateInInit(TokenPlace),
    /// P14: an `init` contains an external test. The place is that of its command.
    TestInInit(TokenPlace),
    /// P15: the table of a new name, test or command is full. The place is that of its text.
    TableFull(TokenPlace),
    /// P16: a name or a command is empty, has over 1,024 bytes or contains a NUL. The place is its own.
    BadText(TokenPlace),
    /// P11: a state is not defined. The place is that of its name.
    UnknownState(TokenPlace),
    /// P0: an allocation failed.
    Memory,
}

impl ResolveFault {
    /// The code and the line, as they are printed.
    pub fn text(self) -> FaultText
        ensures { fault_words result ≡ resolve_fault_words self }
    {
        let (code, line) = match self {
            ResolveFault::NoState { line } => ("P9", line),
            ResolveFault::StateTwice(place) => ("P10", place.span.line),
            ResolveFault::UnknownState(place) => ("P11", place.span.line),
            ResolveFault::SecondInit(place) => ("P12", place.span.line),
            ResolveFault::SetStateInInit(place) => ("P13", place.span.line),
            ResolveFault::TestInInit(place) => ("P14", place.span.line),
            ResolveFault::TableFull(place) => ("P15", place.span.line),
            ResolveFault::BadText(place) => ("P16", place.span.line),
            ResolveFault::Memory => {
                return FaultText {
                    code: "P0",
                    place: FaultPlace::Nowhere,
                };
            }
        };
        FaultText {
            code,
            place: FaultPlace::Line(u64::from(line)),
        }
    }
}

impl Display for ResolveFault {
    ghost output = { λ fault. Some (resolve_fault_words fault) };

    fn fmt<W: Write>(&self, f: &mut Formatter<W>) -> fmt::Result {
        write!(f, "{}", self.text())
    }
}

/// The same as `Display`.
impl Debug for ResolveFault {
    fn fmt<W: Write>(&self, f: &mut Formatter<W>) -> fmt::Result {
        Display::fmt(self, f)
    }
}

impl From<AllocError> for ResolveFault {
    ghost from_gives = { λ _ e. e ≡ Memory };

    fn from(_e: AllocError) -> ResolveFault {
        ResolveFault::Memory
    }
}

impl<T: Drop> From<AllocFailed<T>> for ResolveFault {
    ghost from_gives = { λ _ e. e ≡ Memory };

    fn from(_e: AllocFailed<T>) -> ResolveFault {
        ResolveFault::Memory
    }
}
