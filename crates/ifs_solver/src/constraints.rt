//! Constraints on the facts of an evaluation.

ghost use Rattle.std.specs.Prelude.{◌≡◌};
ghost use Rattle.ifs_solver.specs.Asking.{condition_of, guard_of, guard_with, is_aimed_at};

use ifs_base::{CommandId, StateId};
use ifs_parse::{Condition, Statement};
use ifs_policy::{PolicyBlock, Single};

/// A statement of a policy, with numbers of commands and states.
pub type PolicyStatement = Statement<Single, CommandId, StateId>;

/// The states that a wish is to be for.
#[derive(Clone, Copy)]
pub enum Aim {
    /// Any state.
    Any,
    /// This state.
    To(StateId),
    /// Another state than this one.
    Off(StateId),
}

impl Aim {
    /// Whether it includes a state.
    pub(crate) fn includes(self, state: StateId) -> bool
        ensures { result ≡ is_aimed_at self state }
    {
        match self {
            Aim::Any => true,
            Aim::To(other) => state.0 == other.0,
            Aim::Off(other) => state.0 != other.0,
        }
    }
}

/// What facts meet.
#[derive(Clone, Copy)]
pub enum Guard<'a> {
    /// A condition is true. A test without a value is not.
    True(&'a Condition<Single>),
    /// A condition is true, and each test in it has a value.
    Known(&'a Condition<Single>),
    /// A test in a condition has no value.
    Unknown(&'a Condition<Single>),
}

impl<'a> Guard<'a> {
    /// Its condition.
    pub fn condition(self) -> &'a Condition<Single>
        ensures { result.now ≡ condition_of (guard_of self.entry) }
    {
        match self {
            Guard::True(condition) | Guard::Known(condition) | Guard::Unknown(condition) => {
                condition
            }
        }
    }

    /// The same of another condition.
    pub fn with<'b>(self, condition: &'b Condition<Single>) -> Guard<'b>
        ensures { guard_of result ≡ guard_with condition.now (guard_of self.entry) }
    {
        match self {
            Guard::True(_) => Guard::True(condition),
            Guard::Known(_) => Guard::Known(condition),
            Guard::Unknown(_) => Guard::Unknown(condition),
        }
    }
}

/// A constraint on the facts of an evaluation.
#[derive(Clone, Copy)]
pub enum Constraint<'a> {
    /// A condition has this truth.
    Truth(&'a Condition<Single>, bool),
    /// A guard is met.
    Met(Guard<'a>),
    /// A body is not held back: each test that it mentions has a value.
    Free(&'a PolicyBlock),
    /// Statements reach no `set-state`.
    NoWish(&'a [PolicyStatement]),
    /// A body wishes for no state: it is held back, or reaches no `set-state`.
    Silent(&'a PolicyBlock),
    /// The last `set-state` that a body reaches is for one of these states. Whether it is held back is another constraint.
    Aims(&'a PolicyBlock, Aim),
}
