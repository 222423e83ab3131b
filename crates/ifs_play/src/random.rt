//! Numbers that look like chance.

ghost use Rattle.std.specs.Prelude.{◌≡◌, ◌<◌};

use rand_pcg::Pcg32;
use std::marker::Model;

/// The stream of the generator.
const STREAM: u64 = 721_347_520_444_481_703;

/// A generator of numbers that look like chance, the same ones each time. A number is of the high bits of its state.
#[derive(Drop)]
pub struct Random {
    generator: Pcg32,
}

impl Model for Random {
    ghost use Rattle.rand_pcg.specs.Lcg.{Lcg};

    ghost Value = { Lcg };

    ghost view = { λ random. random.generator };
}

impl Random {
    ghost use Rattle.rand_pcg.specs.Lcg.{advance};
    ghost use Rattle.rand_pcg.specs.Pcg.{multiplier_64};

    /// The generator that begins with a number.
    pub fn new(state: u64) -> Random
        ensures { result.state ≡ state }
    {
        Random {
            generator: Pcg32::from_state(state, STREAM),
        }
    }

    /// A number below a bound, which is not 0.
    pub fn below(&mut self, bound: usize) -> usize
        ensures below { 0 < bound → result < bound }
        ensures next { self.new ≡ advance 64 multiplier_64 1 self.old }
    {
        self.generator.advance(1);
        let bits = (self.generator.state() >> 33) as usize;
        if bound == 0 { 0 } else { bits % bound }
    }
}
