//! What is known of the facts within a set.

ghost use Rattle.std.specs.Prelude.{◌≡◌, true, false};
ghost use Rattle.ifs_solver.specs.inner.Judging.{guarded, joined, later, negated, wish_for, no_wish};

use crate::constraints::Aim;
use crate::domains::Branch;
use ifs_base::StateId;

/// Whether something is so, within a set.
#[derive(Clone, Copy)]
pub enum Verdict {
    /// It is, or is not, for all facts.
    Known(bool),
    /// It may depend on this fact.
    Open(Branch),
}

impl Verdict {
    /// The opposite.
    pub fn negated(self) -> Verdict
        ensures { result ≡ negated self }
    {
        match self {
            Verdict::Known(value) => Verdict::Known(!value),
            Verdict::Open(branch) => Verdict::Open(branch),
        }
    }

    /// Joined with another one, by the operator that one operand of the value `deciding` decides: `||` for true, `&&`
    /// for false.
    pub fn joined(self, deciding: bool, right: Verdict) -> Verdict
        ensures { result ≡ joined deciding self right }
    {
        match (self, right) {
            (Verdict::Known(value), _) => if value == deciding { self } else { right },
            (Verdict::Open(_), Verdict::Known(value)) if value == deciding => right,
            (Verdict::Open(_), _) => self,
        }
    }

    /// Both are so.
    pub fn and(self, right: Verdict) -> Verdict
        ensures { result ≡ joined false self right }
    {
        self.joined(false, right)
    }

    /// One of them is so.
    pub fn or(self, right: Verdict) -> Verdict
        ensures { result ≡ joined true self right }
    {
        self.joined(true, right)
    }
}

/// What is known of the last wish, within a set.
#[derive(Clone, Copy)]
pub(crate) struct Wish {
    /// There is one, for a state that is aimed at.
    pub hit: Verdict,
    /// There is one, for another state.
    pub miss: Verdict,
}

impl Wish {
    /// No wish.
    pub const NONE: Wish = Wish {
        hit: Verdict::Known(false),
        miss: Verdict::Known(false),
    };

    /// A wish for a state.
    pub fn for_state(aim: Aim, state: StateId) -> Wish
        ensures { result ≡ wish_for aim state }
    {
        let hits = aim.includes(state);
        Wish {
            hit: Verdict::Known(hits),
            miss: Verdict::Known(!hits),
        }
    }

    /// A wish under a condition.
    pub fn guarded(self, condition: Verdict) -> Wish
        ensures { result ≡ guarded condition self }
    {
        Wish {
            hit: condition.and(self.hit),
            miss: condition.and(self.miss),
        }
    }

    /// The later of two wishes, or else the earlier one.
    pub fn then(self, next: Wish) -> Wish
        ensures { result ≡ later self next }
    {
        Wish {
            hit: next.hit.or(next.miss.negated().and(self.hit)),
            miss: next.miss.or(next.hit.negated().and(self.miss)),
        }
    }
}
