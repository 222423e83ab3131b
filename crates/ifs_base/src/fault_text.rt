//! How a line prints a fault.

ghost use Rattle.std.specs.Prelude.{Some};
ghost use Rattle.ifs_base.specs.FaultTexts.{place_words, fault_words};

use crate::ids::{RoutineId, StateId};
use std::fmt::{self, Display, Formatter, Write};

/// The text of a fault: its code, and then its place, as in `P6 line 3`.
#[derive(Clone, Copy)]
pub struct FaultText {
    /// The fault's code, such as `P6`.
    pub code: &'static str,
    /// Where the fault is.
    pub place: FaultPlace,
}

/// Where a fault is.
#[derive(Clone, Copy)]
pub enum FaultPlace {
    /// The fault has no place.
    Nowhere,
    /// On a line of a text, from 1. Definitions given beside the text have line 0.
    Line(u64),
    /// At a byte, by its offset.
    Byte(u64),
    /// In a routine.
    Routine(RoutineId),
    /// In an image's budgets, initial state or always part.
    Head,
    /// In a state of an image.
    State(StateId),
    /// At an instruction of a routine. Places count from 0.
    Instruction(RoutineId, u16),
}

impl Display for FaultPlace {
    ghost output = { λ place. Some (place_words place) };

    fn fmt<W: Write>(&self, f: &mut Formatter<W>) -> fmt::Result {
        match *self {
            FaultPlace::Nowhere => Ok(()),
            FaultPlace::Line(line) => write!(f, " line {line}"),
            FaultPlace::Byte(at) => write!(f, " byte {at}"),
            FaultPlace::Routine(RoutineId(routine)) => write!(f, " routine {routine}"),
            FaultPlace::Head => f.write_str(" head"),
            FaultPlace::State(StateId(state)) => write!(f, " state {state}"),
            FaultPlace::Instruction(RoutineId(routine), place) => {
                write!(f, " routine {routine} place {place}")
            }
        }
    }
}

impl Display for FaultText {
    ghost output = { λ fault. Some (fault_words fault) };

    fn fmt<W: Write>(&self, f: &mut Formatter<W>) -> fmt::Result {
        write!(f, "{}{}", self.code, self.place)
    }
}
