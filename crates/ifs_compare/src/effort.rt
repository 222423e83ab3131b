//! The situations that searches may look at.

ghost use Rattle.std.specs.Prelude.{◌≡◌, ◌-◌};

use crate::sides::cost_of;
use ifs_play::CompiledPolicy;
use ifs_solver::Budget;

/// The situations that searches may look at.
#[derive(Clone, Copy)]
pub struct Effort {
    /// The greatest number for one pair of handlers.
    pub each: u32,
    /// The number that is left for all of them.
    pub left: u32,
}

/// How many instructions searches may look at. All together take less than a second.
const MOST_LOOKED_AT: u32 = 10_000_000;

impl Effort {
    /// The effort for two policies: that of `Budget::POLICY`, or a share of it if their events may execute many instructions.
    pub fn of(old: &CompiledPolicy, new: &CompiledPolicy) -> Effort {
        Effort::within(cost_of(old, new))
    }

    /// The same for two policies whose events together may execute so many instructions.
    fn within(cost: u32) -> Effort {
        let left = Budget::POLICY.left.min(MOST_LOOKED_AT / cost.max(1));
        Effort {
            each: Budget::POLICY.each.min(left),
            left,
        }
    }

    /// Counts a search that was given a number of situations and left so many.
    pub(crate) fn spend(&mut self, given: u32, left: u32)
        ensures left { self.new.left ≡ self.old.left - (given - left) }
        ensures each { self.new.each ≡ self.old.each }
    {
        self.left = self.left.saturating_sub(given.saturating_sub(left));
    }
}
