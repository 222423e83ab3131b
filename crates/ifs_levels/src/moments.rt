//! The moments at which handlers of a policy run, and what comes of them.

use ifs_base::{CommandId, StateId};

/// When handlers of a policy run.
#[derive(Clone, Copy, Debug, PartialEq, Eq)]
pub enum Moment {
    /// The opening: the init outside any state and that of the initial state run.
    Opening,
    /// An evaluation in a state: its body and the body outside any state run, and the init of another state that is entered.
    In(StateId),
}

/// What comes of a moment.
#[derive(Drop)]
pub struct Outcome {
    /// The commands that are queued, in order.
    pub commands: Vec<CommandId>,
    /// The state that is entered, if one is.
    pub next: Option<StateId>,
}
