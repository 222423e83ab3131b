//! What each step changes. It is noted and recorded as soon as the step is made, before its commands run.

use crate::event::{Event, StepMade, TestSet};
use crate::notes::{BackwardTicks, Cause, FactChange, note_change, note_state};
use crate::snapshot::{Change, Snapshot};
use crate::status_file::StatusFile;
use ifs_base::{CommandId, StateId};
use ifs_core::{Core, Lists, Outcome, Step};
use ifs_sched::Start;
use log::Log;
use std::alloc::{AllocError, Global};

/// What is known of a core after each step, and what changed last.
#[derive(Drop)]
pub struct Observer<'a, 'm> {
    alloc: Global,
    /// The status file, if there is one.
    status_file: Option<&'a StatusFile<'a, 'm>>,
    known: Snapshot,
    /// The fact that changed last.
    latest: FactChange,
    /// The limit in seconds at which the test was killed that ends next, if it was.
    killed: Option<u64>,
    backward_ticks: BackwardTicks,
}

/// No fact changed.
const NO_CHANGE: FactChange = FactChange {
    change: Change::Nothing,
    limit: None,
};

impl<'a, 'm> Observer<'a, 'm> {
    /// Knows of no core yet. What changes is recorded in the status file, if there is one.
    pub fn new(alloc: Global, status_file: Option<&'a StatusFile<'a, 'm>>) -> Observer<'a, 'm> {
        Observer {
            alloc,
            status_file,
            known: Snapshot::unknown(),
            latest: NO_CHANGE,
            killed: None,
            backward_ticks: BackwardTicks::new(),
        }
    }

    /// Begins with a core that was opened now.
    pub fn begin(&mut self, core: &Core<'_>) {
        self.known = Snapshot::of(core);
        self.latest = NO_CHANGE;
    }

    /// Knows that the test that ends next was killed at this limit in seconds.
    pub fn expect_killed(&mut self, limit: Option<u64>) {
        self.killed = limit;
    }

    /// Notes and records what a step changed. A step that was refused changed nothing, and of those a tick that goes backwards is
    /// noted.
    pub fn observe(
        &mut self,
        notes: &impl Log,
        core: &Core<'_>,
        step: Step,
        outcome: Outcome,
        lists: &Lists,
    ) {
        let limit = self.limit_of(step);
        if let (Step::Tick(moment), Outcome::Backwards) = (step, outcome) {
            self.backward_ticks.note(notes, core.now(), moment);
        }
        if !is_refused(outcome) {
            self.observe_made(notes, core, (step, limit), outcome, lists);
        }
    }

    /// Notes and records what a step changed that was made.
    fn observe_made(
        &mut self,
        notes: &impl Log,
        core: &Core<'_>,
        (step, limit): (Step, Option<u64>),
        outcome: Outcome,
        lists: &Lists,
    ) {
        let before = self.known.state;
        self.note(notes, core, step, limit);
        if let Some(status_file) = self.status_file {
            let made = StepMade {
                step,
                limit,
                before,
                after: core.state(),
                moment: core.now(),
                facts: &self.known.facts,
                needed: needed_tests(core),
                starts: starts_of(outcome, lists),
                next: core.next_due(),
            };
            if self
                .record(status_file, core, &made, queued_of(outcome, lists))
                .is_err()
            {
                status_file.note_no_memory();
            }
        }
    }

    /// The limit at which the test was killed whose end a step is, if it was.
    fn limit_of(&mut self, step: Step) -> Option<u64> {
        match step {
            Step::Finished(..) => self.killed.take(),
            Step::Link(..) | Step::Tick(_) | Step::Take => None,
        }
    }

    /// Notes what a step changed, and knows it from then on.
    fn note(&mut self, notes: &impl Log, core: &Core<'_>, step: Step, limit: Option<u64>) {
        let change = self.known.apply(step);
        if !matches!(change, Change::Nothing) {
            self.latest = FactChange { change, limit };
            note_change(notes, core, self.latest);
        }
        if core.state() != self.known.state {
            note_state(notes, core, &self.known, Cause::of(core, self.latest, step));
            self.known.enter(core, core.state());
        }
    }

    /// Records a step, and which commands it queued.
    fn record(
        &self,
        status_file: &StatusFile<'a, 'm>,
        core: &Core<'_>,
        made: &StepMade<'_>,
        queued: &[CommandId],
    ) -> Result<(), AllocError> {
        let cause = self.cause_of(core, made)?;
        let queue = self.texts_of(core, queued)?;
        status_file.record(Event::StepMade {
            made,
            cause: cause.as_str(),
            queue: queue.as_slice(),
        });
        Ok(())
    }

    /// What led to the state that a step entered, in words. They are empty if it entered none.
    fn cause_of(&self, core: &Core<'_>, made: &StepMade<'_>) -> Result<String, AllocError> {
        if made.before == made.after {
            return Ok(String::new(self.alloc));
        }
        let cause = Cause::of(core, self.latest, made.step);
        format!(in self.alloc; "{cause}")
    }

    /// The texts of commands.
    fn texts_of(&self, core: &Core<'_>, commands: &[CommandId]) -> Result<Vec<String>, AllocError> {
        let mut texts = Vec::new(self.alloc);
        for command in commands {
            let text = core.command_text(*command).unwrap_or_default();
            texts.push(String::from_str(self.alloc, text)?)?;
        }
        Ok(texts)
    }
}

/// Whether a step was refused.
fn is_refused(outcome: Outcome) -> bool {
    !matches!(
        outcome,
        Outcome::Done { .. } | Outcome::Same | Outcome::Ticked { .. }
    )
}

/// The commands that a step queued.
fn queued_of(outcome: Outcome, lists: &Lists) -> &[CommandId] {
    match outcome {
        Outcome::Done { .. } | Outcome::Ticked { .. } => lists.effects.queued.as_slice(),
        _ => &[],
    }
}

/// The tests that a step starts.
fn starts_of(outcome: Outcome, lists: &Lists) -> &[Start] {
    match outcome {
        Outcome::Ticked { .. } => lists.starts.as_slice(),
        _ => &[],
    }
}

/// The tests that the state of a core asks for, and the part outside of all states.
pub(crate) fn needed_tests(core: &Core<'_>) -> TestSet {
    TestSet(core.image().always().mask | mask_of(core, core.state()))
}

/// The tests that a state asks for.
fn mask_of(core: &Core<'_>, state: StateId) -> u64 {
    let image = core.image();
    let index = usize::from(state.0);
    if index < image.states() {
        image.state_handlers(index).mask
    } else {
        0
    }
}
