//! Steps and replies.

ghost use Rattle.std.specs.Prelude.{◌≡◌, [], None};
ghost use Rattle.ifs_core.specs.Steps.{reply_of};

use arrayvec::ArrayVec;
use ifs_base::{CommandId, IfaceId, LinkState, StateId, TestId};
use ifs_machine::Effects;
use ifs_sched::{MAX_TESTS, Start};

/// A step: one event from outside.
#[derive(Clone, Copy, Debug, PartialEq, Eq)]
pub enum Step {
    /// An interface has a link state.
    Link(IfaceId, LinkState),
    /// A test's run has ended, with a value.
    Finished(TestId, u64, bool),
    /// It is this moment, in seconds.
    Tick(u64),
    /// The first command of the queue is taken.
    Take,
}

/// The item of an unused place of a list.
impl Default for Step {
    ghost use Rattle.ifs_core.specs.declared.step.Step.TheVariants.{Take};

    ghost is_default = { λ step. step ≡ Take };

    fn default() -> Self {
        Step::Take
    }
}

/// The reply to a step. The last five change nothing.
#[derive(Debug, Drop)]
pub enum Reply {
    /// A fact changed and was evaluated: the state afterwards, the queued commands, and the number of executed
    /// instructions.
    Done {
        state: StateId,
        queued: ArrayVec<CommandId, 64>,
        cost: u32,
    },
    /// No fact changed. A run that finished is over nevertheless.
    Same,
    /// The moment is now the present one. An owed evaluation was made before the due tests started; if none was owed,
    /// `queued` is empty and `cost` is 0.
    Ticked {
        evaluated: bool,
        state: StateId,
        queued: ArrayVec<CommandId, 64>,
        cost: u32,
        starts: ArrayVec<Start, 64>,
        /// Whether a due test was left because no run number was.
        exhausted: bool,
    },
    /// This command has left the queue.
    Taken(CommandId),
    /// There is no command to take.
    Empty,
    /// The step would evaluate, and the queue has fewer free places than the image's stated commands.
    Busy,
    /// The test does not run under that number.
    Stale,
    /// The moment is before the present one.
    Backwards,
    /// The index is not in its table.
    NoSuch,
}

/// A reply without its lists, which are in the borrowed `Lists` of the step.
#[derive(Clone, Copy, Debug, PartialEq, Eq)]
pub enum Outcome {
    /// As `Reply::Done`; the lists have the queued commands.
    Done {
        state: StateId,
        cost: u32,
    },
    /// As `Reply::Same`.
    Same,
    /// As `Reply::Ticked`; the lists have the queued commands and the starts.
    Ticked {
        evaluated: bool,
        state: StateId,
        cost: u32,
        exhausted: bool,
    },
    /// As `Reply::Taken`.
    Taken(CommandId),
    /// As `Reply::Empty`.
    Empty,
    /// As `Reply::Busy`.
    Busy,
    /// As `Reply::Stale`.
    Stale,
    /// As `Reply::Backwards`.
    Backwards,
    /// As `Reply::NoSuch`.
    NoSuch,
}

/// The lists of a reply, in a place that each step borrows from its caller. A list that the reply does not have is
/// unspecified.
#[derive(Debug, Drop)]
pub struct Lists {
    /// The effects of the handlers of an event: the queued commands, and the last wish.
    pub effects: Effects,
    /// The tests that a tick starts, by index.
    pub starts: ArrayVec<Start, MAX_TESTS>,
}

impl Lists {
    /// Empty lists.
    pub fn new() -> Lists
        ensures queued { result.effects.queued.items ≡ [] }
        ensures want { result.effects.want ≡ None }
        ensures starts { result.starts.items ≡ [] }
    {
        Lists {
            effects: Effects {
                queued: ArrayVec::new(),
                want: None,
            },
            starts: ArrayVec::new(),
        }
    }
}

impl Outcome {
    /// The reply of an outcome and its lists.
    pub fn with_lists(self, lists: Lists) -> Reply
        ensures { result ≡ reply_of self lists }
    {
        match self {
            Outcome::Done { state, cost } => Reply::Done {
                state,
                queued: lists.effects.queued,
                cost,
            },
            Outcome::Same => Reply::Same,
            Outcome::Ticked {
                evaluated,
                state,
                cost,
                exhausted,
            } => Reply::Ticked {
                evaluated,
                state,
                queued: lists.effects.queued,
                cost,
                starts: lists.starts,
                exhausted,
            },
            Outcome::Taken(command) => Reply::Taken(command),
            Outcome::Empty => Reply::Empty,
            Outcome::Busy => Reply::Busy,
            Outcome::Stale => Reply::Stale,
            Outcome::Backwards => Reply::Backwards,
            Outcome::NoSuch => Reply::NoSuch,
        }
    }
}

/// The name of a reply in the trace.
#[derive(Clone, Copy, Debug, PartialEq, Eq)]
pub enum Answer {
    Done,
    Same,
    Ticked,
    Taken,
}

/// A step in the trace.
#[derive(Clone, Copy, Debug, PartialEq, Eq)]
pub struct Record {
    /// The step.
    pub step: Step,
    /// The name of its reply.
    pub answer: Answer,
    /// The state afterwards.
    pub state: StateId,
    /// The number of commands that it queued; 0 if it evaluated nothing.
    pub queued: u16,
    /// The number of instructions that it executed; 0 if it evaluated nothing.
    pub cost: u32,
}
