//! The commands that wait, the one that runs and the one that ended last, for a daemon's status.

use crate::change_log::date;
use ifs_core::Core;
use ifs_status_file::daemon_status::{EndedCommand, RunningCommand, Time};
use std::alloc::{AllocError, Global};

/// The commands that wait, the one that runs, the one that ended last, and how many there were.
#[derive(Drop)]
pub struct CommandLog {
    alloc: Global,
    /// The texts of those that wait, in order.
    waiting: Vec<String>,
    running: Option<Started>,
    last: Option<Ended>,
    /// The commands that ended.
    pub count: u64,
    /// Those of them that were not run, or whose exit status is not 0.
    pub failed: u64,
}

/// A command that began at a time of the system's clock.
#[derive(Drop)]
struct Started {
    text: String,
    since: u64,
}

/// A command that ended.
#[derive(Drop)]
struct Ended {
    text: String,
    exit: Option<i32>,
    limit: Option<u64>,
    milliseconds: u64,
    ended: Time,
}

impl CommandLog {
    /// Without a command so far.
    pub fn new(alloc: Global) -> CommandLog {
        CommandLog {
            alloc,
            waiting: Vec::new(alloc),
            running: None,
            last: None,
            count: 0,
            failed: 0,
        }
    }

    /// Records that these commands wait. Without memory for their texts none is known to wait.
    pub fn wait_for(&mut self, commands: &[String]) -> Result<(), AllocError> {
        self.waiting.clear();
        for command in commands {
            self.waiting.push(command.clone()?)?;
        }
        Ok(())
    }

    /// Records that the commands in the queue of a core wait. Without memory for their texts none is known to wait.
    pub fn wait_for_opening(&mut self, core: &Core<'_>) -> Result<(), AllocError> {
        self.waiting.clear();
        for index in 0..core.queue_len() {
            let Some(command) = core.queued_at(index) else {
                break;
            };
            let text = core.command_text(command).unwrap_or_default();
            self.waiting.push(String::from_str(self.alloc, text)?)?;
        }
        Ok(())
    }

    /// Records that a command begins at this time of the system's clock, which is the first that waits. Without memory for its
    /// text it is not known that it runs.
    pub fn start(&mut self, text: &str, since: u64) -> Result<(), AllocError> {
        if !self.waiting.is_empty() {
            self.waiting.remove(0);
        }
        self.running = None;
        let text = String::from_str(self.alloc, text)?;
        self.running = Some(Started { text, since });
        Ok(())
    }

    /// Records that the command that runs ended at this time, or was not run, and the limit in seconds at which it was killed, if
    /// it was.
    pub fn end(&mut self, exit: Option<i32>, limit: Option<u64>, milliseconds: u64, ended: Time) {
        self.count = self.count.saturating_add(1);
        if exit != Some(0) {
            self.failed = self.failed.saturating_add(1);
        }
        if let Some(
            Started {
                text,
                since: _since,
            },
        ) = self.running.take()
        {
            self.last = Some(Ended {
                text,
                exit,
                limit,
                milliseconds,
                ended,
            });
        }
    }

    /// Dates the command that ended before a first tick.
    pub fn date(&mut self, moment: u64) {
        if let Some(last) = &mut self.last {
            date(&mut last.ended, moment);
        }
    }

    /// The texts of the commands that wait, in order.
    pub fn waiting(&self) -> Result<Vec<&str>, AllocError> {
        let mut waiting = Vec::with_capacity(self.alloc, self.waiting.len())?;
        for command in &self.waiting {
            waiting.push(command.as_str())?;
        }
        Ok(waiting)
    }

    /// The command that runs.
    pub fn running(&self) -> Option<RunningCommand<'_>> {
        match &self.running {
            Some(started) => Some(RunningCommand {
                command: started.text.as_str(),
                since: started.since,
            }),
            None => None,
        }
    }

    /// The command that ended last.
    pub fn last(&self) -> Option<EndedCommand<'_>> {
        match &self.last {
            Some(ended) => Some(EndedCommand {
                command: ended.text.as_str(),
                exit: ended.exit,
                milliseconds: ended.milliseconds,
                ended: ended.ended.clock,
                moment: Some(ended.ended.moment),
                limit: ended.limit,
            }),
            None => None,
        }
    }
}
