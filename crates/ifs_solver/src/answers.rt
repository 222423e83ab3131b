//! What is said of the places of a policy.

ghost use Rattle.std.specs.Prelude.{◌≡◌};
ghost use Rattle.ifs_solver.specs.inner.Answering.{command_answer, condition_answer, wish_answer};

use crate::searching::Extent;

/// What is said of a place: a condition, an operand, a `run` or a `set-state`.
#[derive(Clone, Copy, Debug, PartialEq, Eq)]
pub enum Answer {
    /// No facts lead to a `run` or a `set-state`.
    Unreached,
    /// No facts lead to a condition or an operand.
    Skipped,
    /// Some facts lead to a condition or an operand, and it is true under none of them.
    Never,
    /// Some facts lead to a condition or an operand, and it is true under all of them.
    Always,
    /// Some facts lead to a `set-state`, and under all of them a later one is reached.
    Overruled,
    /// There is nothing to say. Under some facts a `run` is reached, or a `set-state` is the last one. A condition or an
    /// operand is true under some of the facts that lead to it, and false under others.
    Used,
    /// The budget ran out.
    Undecided,
}

impl Answer {
    /// Of a condition, by where it is true and where it is false.
    pub(crate) fn of_condition(truth: Extent, falsehood: Extent) -> Answer
        ensures { result ≡ condition_answer truth falsehood }
    {
        match (truth, falsehood) {
            (Extent::Nowhere, Extent::Nowhere) => Answer::Skipped,
            (Extent::Nowhere, Extent::Somewhere) => Answer::Never,
            (Extent::Somewhere, Extent::Nowhere) => Answer::Always,
            (Extent::Somewhere, Extent::Somewhere) => Answer::Used,
            _ => Answer::Undecided,
        }
    }

    /// Of a `run`, by where it is reached.
    pub(crate) fn of_command(reached: Extent) -> Answer
        ensures { result ≡ command_answer reached }
    {
        match reached {
            Extent::Nowhere => Answer::Unreached,
            Extent::Somewhere => Answer::Used,
            Extent::Undecided => Answer::Undecided,
        }
    }

    /// Of a `set-state`, by where it is reached, and where it is the last one.
    pub(crate) fn of_wish(reached: Extent, last: Extent) -> Answer
        ensures { result ≡ wish_answer reached last }
    {
        match (reached, last) {
            (Extent::Nowhere, _) => Answer::Unreached,
            (Extent::Somewhere, Extent::Nowhere) => Answer::Overruled,
            (_, Extent::Somewhere) => Answer::Used,
            _ => Answer::Undecided,
        }
    }
}
