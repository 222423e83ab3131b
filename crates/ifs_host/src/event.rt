//! What happens to a daemon, for its status file.

use crate::snapshot::Facts;
use ifs_base::StateId;
use ifs_core::{Core, Step};
use ifs_sched::Start;
use std::time::Duration;

/// What happens to a daemon.
#[derive(Clone, Copy)]
pub enum Event<'e, 'm> {
    /// A connection or a reload begins.
    ConnectionOpened,
    /// An image was opened. The commands of the opening have not run yet.
    ImageOpened {
        core: &'e Core<'m>,
        /// The length of the image.
        bytes: u64,
    },
    /// A reload was made, or was refused.
    Reloaded {
        is_refused: bool,
    },
    /// A step was made. Its commands have not run yet.
    StepMade {
        made: &'e StepMade<'e>,
        /// What led to the state, in words, if it is another one.
        cause: &'e str,
        /// The texts of the commands that wait, in order.
        queue: &'e [String],
    },
    /// A connection ended, or the commands of an opening have run.
    StepsMade {
        core: &'e Core<'m>,
        running: TestSet,
    },
    /// A command with this text begins.
    CommandStarted(&'e str),
    /// The command that runs ends.
    CommandEnded {
        /// Its exit status. There is none if it was not run.
        exit: Option<i32>,
        /// How long it ran.
        lasted: Duration,
        /// The limit in seconds at which it was killed, if it was.
        limit: Option<u64>,
    },
}

/// A step that was made, and what is so after it.
#[derive(Clone, Copy)]
pub struct StepMade<'e> {
    /// The step.
    pub step: Step,
    /// The limit in seconds at which the test was killed whose end the step is, if it was.
    pub limit: Option<u64>,
    /// The state before.
    pub before: StateId,
    /// The state after it.
    pub after: StateId,
    /// The moment.
    pub moment: u64,
    /// The links of interfaces and the values of tests.
    pub facts: &'e Facts,
    /// The tests that the state asks for, and the part outside of all states.
    pub needed: TestSet,
    /// The tests that it starts.
    pub starts: &'e [Start],
    /// The moment when a test starts next.
    pub next: Option<u64>,
}

/// A set of tests: bit 0 for test 0.
#[derive(Clone, Copy)]
pub struct TestSet(pub u64);

impl Event<'_, '_> {
    /// Whether the status is complete after it, and may be written. An event that completes it follows each other one.
    pub fn completes_status(self) -> bool {
        !matches!(
            self,
            Event::ConnectionOpened
                | Event::ImageOpened { .. }
                | Event::Reloaded { .. }
                | Event::StepMade { .. }
        )
    }
}
