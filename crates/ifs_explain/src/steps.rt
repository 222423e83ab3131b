//! The steps of a reply, and what else is known of them.

use ifs_core::{Answer, Core, Lists, Outcome, Step};
use ifs_session::TraceLine;
use std::alloc::{AllocError, Global};

/// The most steps that a daemon reports.
pub(crate) const MOST_STEPS: usize = 256;

/// What the facts of a daemon say of its steps.
#[derive(Clone, Copy)]
pub struct Times<'a> {
    /// How many steps the daemon had made.
    pub steps: u64,
    /// Whether it took another image over.
    pub is_reloaded: bool,
    /// The moments of its latest ticks in order, each with what the clock showed.
    pub ticks: &'a [(u64, String)],
    /// Its latest changes of state in order, each with its last moment and in words.
    pub changes: &'a [(u64, String)],
    /// The numbers of its latest runs of tests that were killed at their limits, each with the limit in seconds.
    pub killed: &'a [(u64, u64)],
}

impl<'a> Times<'a> {
    /// What the clock showed at a moment, if that is known.
    pub(crate) fn clock_at(self, moment: u64) -> Option<&'a str> {
        for tick in self.ticks {
            if tick.0 == moment {
                return Some(tick.1.as_str());
            }
        }
        None
    }

    /// The limit in seconds at which a run was killed, if it was.
    pub(crate) fn limit_of(self, run: u64) -> Option<u64> {
        for killed in self.killed {
            if killed.0 == run {
                return Some(killed.1);
            }
        }
        None
    }

    /// Whether these are all steps since the opening of the daemon's only image.
    pub(crate) fn are_of_all(self, steps: &[TraceLine<'_>]) -> bool {
        !self.is_reloaded && self.earlier(steps) == 0
    }

    /// The number of steps that came before these. Ticks of theirs may be later than the facts.
    pub(crate) fn earlier(self, steps: &[TraceLine<'_>]) -> u64 {
        let last = match self.ticks.last() {
            Some(tick) => tick.0,
            None => 0,
        };
        let mut made = self.steps;
        for line in steps {
            if is_tick_after(line.step, last) {
                made = made.saturating_add(1);
            }
        }
        made.saturating_sub(steps.len() as u64)
    }
}

/// The moment of the first tick among these steps, if there is one.
pub(crate) fn first_moment(steps: &[TraceLine<'_>]) -> Option<u64> {
    for line in steps {
        if let Step::Tick(moment) = line.step {
            return Some(moment);
        }
    }
    None
}

/// Whether a step is a tick of a later moment.
fn is_tick_after(step: Step, last: u64) -> bool {
    match step {
        Step::Tick(moment) => moment > last,
        _ => false,
    }
}

/// The steps of a reply, up to the 256th.
pub(crate) fn steps_of<'r>(
    alloc: Global,
    reply: &'r str,
) -> Result<Vec<TraceLine<'r>>, AllocError> {
    let mut steps = Vec::new(alloc);
    for line in reply.lines() {
        if steps.len() == MOST_STEPS {
            break;
        }
        if let Some(step) = TraceLine::read(line.as_bytes()) {
            steps.push(step)?;
        }
    }
    Ok(steps)
}

/// Whether a step took a command.
pub(crate) fn is_taken(line: &TraceLine<'_>) -> bool {
    line.step == Step::Take && line.answer == Answer::Taken
}

/// The texts of the commands that steps took, by making them again on a core at its opening. There are none if they take another
/// number of commands there.
pub(crate) fn commands_of<'m>(
    alloc: Global,
    core: &mut Core<'m>,
    steps: &[TraceLine<'_>],
) -> Result<Vec<&'m str>, AllocError> {
    let mut lists = Lists::new();
    let mut commands = Vec::new(alloc);
    let mut taken = 0usize;
    for line in steps {
        if is_taken(line) {
            taken = taken.saturating_add(1);
        }
        if let Outcome::Taken(command) = core.step_into(line.step, &mut lists) {
            commands.push(core.command_text(command).unwrap_or_default())?;
        }
    }
    if commands.len() != taken {
        commands.clear();
    }
    Ok(commands)
}
