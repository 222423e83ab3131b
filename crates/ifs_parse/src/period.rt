//! The period of a test.

ghost use Rattle.std.specs.Prelude.{◌≡◌};
ghost use Rattle.ifs_base.specs.Sizes.{PeriodFits};

use std::marker::Model;

/// The seconds from one start of a test to the next, from 1 to 604,800. Clauses see the number.
#[derive(Clone, Copy, Debug, PartialEq, Eq, Hash)]
pub struct Period {
    seconds: u32,
}

impl Model for Period {
    ghost use Rattle.std.specs.Prelude.{ℕ};
    ghost use Rattle.ifs_base.specs.Sizes.{PeriodFits};

    ghost Value = { ℕ };

    ghost view = { λ a. a.seconds };

    ghost invariant = { λ a. PeriodFits a.seconds };

    ghost inverse = { λ n. record { seconds = n } };
}

impl Period {
    /// Makes a period of a number of seconds.
    pub fn new(seconds: u32) -> Self
        requires { PeriodFits seconds }
        ensures { result ≡ seconds }
    {
        Period { seconds }
    }

    /// Returns the number of seconds.
    pub fn seconds(self) -> u32
        ensures value { result ≡ self }
        ensures fits { PeriodFits result }
    {
        self.seconds
    }
}
