//! Why bytes are no image.

ghost use Rattle.std.specs.Prelude.{◌≡◌, Some};
ghost use Rattle.ifs_base.specs.FaultTexts.{fault_words};
ghost use Rattle.ifs_image.specs.FaultWords.{image_fault_words};
ghost use Rattle.ifs_image.specs.declared.fault.ImageFault.TheVariants.{Memory};

use ifs_base::{FaultPlace, FaultText};
use std::alloc::{AllocError, AllocFailed};
use std::fmt::{self, Debug, Display, Formatter, Write};
use thiserror::Error;

/// The first fault of an image's bytes. `at` is the offset of the field's first byte, from 0.
#[derive(Clone, Copy, PartialEq, Eq, Error)]
pub enum ImageFault {
    /// I1: the bytes end within a field.
    Truncated { at: usize },
    /// I2: the first four bytes are not `IFSV`.
    WrongMagic { at: usize },
    /// I3: a version other than 1 and 2.
    WrongVersion { at: usize },
    /// I4: a number outside its limits, or a byte that is no kind.
    OutOfLimit { at: usize },
    /// I5: a text of 0 or over 1,024 bytes, at its length; a text that is not UTF-8 or has a NUL, at its first byte.
    BadText { at: usize },
    /// I6: a name that an earlier state or interface has.
    RepeatedName { at: usize },
    /// I7: bytes after the last routine.
    Trailing { at: usize },
    /// I8: four bytes that spell no instruction.
    NoInstruction { at: usize },
    /// I0: an allocation fails.
    Memory,
}

impl ImageFault {
    /// The words that the fault prints.
    pub fn text(self) -> FaultText
        ensures { fault_words result ≡ image_fault_words self }
    {
        let (code, at) = match self {
            ImageFault::Truncated { at } => ("I1", at),
            ImageFault::WrongMagic { at } => ("I2", at),
            ImageFault::WrongVersion { at } => ("I3", at),
            ImageFault::OutOfLimit { at } => ("I4", at),
            ImageFault::BadText { at } => ("I5", at),
            ImageFault::RepeatedName { at } => ("I6", at),
            ImageFault::Trailing { at } => ("I7", at),
            ImageFault::NoInstruction { at } => ("I8", at),
            ImageFault::Memory => {
                return FaultText {
                    code: "I0",
                    place: FaultPlace::Nowhere,
                };
            }
        };
        FaultText {
            code,
            place: FaultPlace::Byte(at as u64),
        }
    }
}

impl Display for ImageFault {
    ghost output = { λ fault. Some (image_fault_words fault) };

    fn fmt<W: Write>(&self, f: &mut Formatter<W>) -> fmt::Result {
        write!(f, "{}", self.text())
    }
}

/// Prints the same as `Display`.
impl Debug for ImageFault {
    fn fmt<W: Write>(&self, f: &mut Formatter<W>) -> fmt::Result {
        Display::fmt(self, f)
    }
}

impl From<AllocError> for ImageFault {
    ghost from_gives = { λ _ e. e ≡ Memory };

    fn from(_e: AllocError) -> ImageFault {
        ImageFault::Memory
    }
}

impl<T: Drop> From<AllocFailed<T>> for ImageFault {
    ghost from_gives = { λ _ e. e ≡ Memory };

    fn from(_e: AllocFailed<T>) -> ImageFault {
        ImageFault::Memory
    }
}
