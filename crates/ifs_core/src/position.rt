//! The position of a core.

use ifs_base::StateId;
use ifs_machine::Facts;
use ifs_sched::Schedule;

/// The known facts, the current state, whether an evaluation is owed, and the schedule of tests.
#[derive(Debug)]
pub struct Position {
    pub facts: Facts,
    pub current: StateId,
    pub owed: bool,
    pub schedule: Schedule,
}

impl Drop for Position {
    fn drop(self) {
        let Position {
            facts: _facts,
            current: _current,
            owed: _owed,
            schedule: _schedule,
        } = self;
    }
}
