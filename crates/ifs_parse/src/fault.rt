//! The faults of a policy's tokens.

ghost use Rattle.std.specs.Prelude.{◌≡◌, Some};
ghost use Rattle.ifs_base.specs.FaultTexts.{fault_words};
ghost use Rattle.ifs_parse.specs.FaultWords.{parse_fault_words};
ghost use Rattle.ifs_parse.specs.Grammar.{fault_place};
ghost use Rattle.ifs_parse.specs.declared.fault.ParseFault.TheVariants.{Memory};

use ifs_base::{FaultPlace, FaultText};
use ifs_lex::TokenPlace;
use std::alloc::{AllocError, AllocFailed};
use std::fmt::{self, Debug, Display, Formatter, Write};
use thiserror::Error;

/// The fault at the first token that cannot go on, with its place.
#[derive(Clone, Copy, PartialEq, Eq, Error)]
pub enum ParseFault {
    /// P6: the grammar has nothing that goes on with this token.
    Unexpected(TokenPlace),
    /// P7: a period outside 1 to 604,800 seconds.
    Period(TokenPlace),
    /// P8: the 33rd `if`, `!` or `(` that is open at the same time.
    Nesting(TokenPlace),
    /// P0: an allocation failed.
    Memory,
}

impl ParseFault {
    /// Returns the line and the number of the token. A failed allocation has none.
    pub fn place(self) -> Option<TokenPlace>
        ensures { result ≡ fault_place self }
    {
        match self {
            ParseFault::Unexpected(place)
            | ParseFault::Period(place)
            | ParseFault::Nesting(place) => Some(place),
            ParseFault::Memory => None,
        }
    }

    /// Returns the fault's code and place, as lines print them.
    pub fn text(self) -> FaultText
        ensures { fault_words result ≡ parse_fault_words self }
    {
        let (code, place) = match self {
            ParseFault::Unexpected(place) => ("P6", place),
            ParseFault::Period(place) => ("P7", place),
            ParseFault::Nesting(place) => ("P8", place),
            ParseFault::Memory => {
                return FaultText {
                    code: "P0",
                    place: FaultPlace::Nowhere,
                };
            }
        };
        FaultText {
            code,
            place: FaultPlace::Line(u64::from(place.span.line)),
        }
    }
}

impl Display for ParseFault {
    ghost output = { λ fault. Some (parse_fault_words fault) };

    fn fmt<W: Write>(&self, f: &mut Formatter<W>) -> fmt::Result {
        write!(f, "{}", self.text())
    }
}

/// Prints the same text as `Display`.
impl Debug for ParseFault {
    fn fmt<W: Write>(&self, f: &mut Formatter<W>) -> fmt::Result {
        Display::fmt(self, f)
    }
}

impl From<AllocError> for ParseFault {
    ghost from_gives = { λ _ e. e ≡ Memory };

    fn from(_e: AllocError) -> ParseFault {
        ParseFault::Memory
    }
}

impl<T: Drop> From<AllocFailed<T>> for ParseFault {
    ghost from_gives = { λ _ e. e ≡ Memory };

    fn from(_e: AllocFailed<T>) -> ParseFault {
        ParseFault::Memory
    }
}
