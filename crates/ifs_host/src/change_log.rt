//! The changes of state of a daemon, for its status.

use ifs_status_file::daemon_status::{Change, Time};
use std::alloc::{AllocError, Global};

/// The most changes that are remembered.
const MOST_CHANGES: usize = 16;

/// Within so many seconds a change that comes again is counted.
const AGAIN: u64 = 60;

/// The minutes of an hour.
const MINUTES: usize = 60;

/// The seconds of a minute.
const MINUTE: u64 = 60;

/// The latest changes of state, and how many there were in the last hour. The names are those of images.
#[derive(Drop)]
pub struct ChangeLog<'m> {
    alloc: Global,
    latest: Vec<LoggedChange<'m>>,
    hour: LastHour,
}

/// A change, as often as it came within a minute of the time before.
#[derive(Drop)]
struct LoggedChange<'m> {
    first: Time,
    last: Time,
    times: u64,
    from: &'m str,
    to: &'m str,
    cause: String,
}

impl<'m> ChangeLog<'m> {
    /// Without changes so far.
    pub fn new(alloc: Global) -> Result<ChangeLog<'m>, AllocError> {
        Ok(ChangeLog {
            alloc,
            latest: Vec::with_capacity(alloc, MOST_CHANGES)?,
            hour: LastHour::new(),
        })
    }

    /// Adds a change. Without memory for its cause it is counted alone.
    pub fn add(
        &mut self,
        (from, to): (&'m str, &'m str),
        cause: &str,
        now: Time,
    ) -> Result<(), AllocError> {
        self.hour.add(now.moment);
        match self.index_of(from, to, cause, now) {
            Some(index) => self.count_again(index, now),
            None => {
                let cause = String::from_str(self.alloc, cause)?;
                self.push(LoggedChange {
                    first: now,
                    last: now,
                    times: 1,
                    from,
                    to,
                    cause,
                });
            }
        }
        Ok(())
    }

    /// Counts a change that comes again now. It is the last one then.
    fn count_again(&mut self, index: usize, now: Time) {
        if index >= self.latest.len() {
            return;
        }
        let mut change = self.latest.remove(index);
        change.last = now;
        change.times = change.times.saturating_add(1);
        self.push(change);
    }

    /// The index of a change that comes again now.
    fn index_of(&self, from: &str, to: &str, cause: &str, now: Time) -> Option<usize> {
        for (index, change) in self.latest.iter().enumerate() {
            if change.is(from, to, cause) && change.is_within(now) {
                return Some(index);
            }
        }
        None
    }

    /// Adds a change at the end. If there are 16, the first of them goes.
    fn push(&mut self, change: LoggedChange<'m>) {
        if self.latest.len() >= MOST_CHANGES {
            self.latest.remove(0);
        }
        // there is room for it
        let _pushed = self.latest.push(change);
    }

    /// Dates the changes that came before a first tick.
    pub fn date(&mut self, moment: u64) {
        self.hour.begin(moment);
        for change in &mut self.latest {
            date(&mut change.first, moment);
            date(&mut change.last, moment);
        }
    }

    /// The latest changes, in the order of the last time of each.
    pub fn latest(&self) -> Result<Vec<Change<'_>>, AllocError> {
        let mut latest = Vec::with_capacity(self.alloc, self.latest.len())?;
        for change in &self.latest {
            latest.push(change.view())?;
        }
        Ok(latest)
    }

    /// How many changes there were in the hour before a moment.
    pub fn in_hour(&mut self, moment: u64) -> u64 {
        self.hour.advance(moment);
        self.hour.count()
    }
}

impl LoggedChange<'_> {
    /// Whether it is a change between these states by this cause.
    fn is(&self, from: &str, to: &str, cause: &str) -> bool {
        self.from == from && self.to == to && self.cause.as_str() == cause
    }

    /// Whether it came within a minute before a time.
    fn is_within(&self, now: Time) -> bool {
        now.moment.saturating_sub(self.last.moment) <= AGAIN
    }

    /// What the status has of it.
    fn view(&self) -> Change<'_> {
        Change {
            first: self.first,
            last: self.last,
            times: self.times,
            from: self.from,
            to: self.to,
            cause: self.cause.as_str(),
        }
    }
}

/// How many changes there were in each minute of the last hour.
#[derive(Drop)]
struct LastHour {
    /// The present minute since moment 0.
    minute: u64,
    /// The changes of the present minute, of the one before, and so on.
    counts: [u64; MINUTES],
}

impl LastHour {
    /// Without changes so far.
    fn new() -> LastHour {
        LastHour {
            minute: 0,
            counts: [0; MINUTES],
        }
    }

    /// Counts a change at a moment.
    fn add(&mut self, moment: u64) {
        self.advance(moment);
        if let Some(count) = self.counts.first_mut() {
            *count = count.saturating_add(1);
        }
    }

    /// Begins at a moment, if it has no other. Changes from before are of its minute.
    fn begin(&mut self, moment: u64) {
        if self.minute == 0 {
            self.minute = moment / MINUTE;
        }
    }

    /// Goes on to the minute of a moment, if that is later.
    fn advance(&mut self, moment: u64) {
        let minute = moment / MINUTE;
        let passed = minute.saturating_sub(self.minute).min(MINUTES as u64);
        for _ in 0..passed {
            shift(&mut self.counts);
        }
        self.minute = self.minute.max(minute);
    }

    /// The changes of the last hour.
    fn count(&self) -> u64 {
        self.counts
            .iter()
            .fold(0, |sum: u64, count| sum.saturating_add(*count))
    }
}

/// Moves each count to the next place. The last one goes.
fn shift(counts: &mut [u64; MINUTES]) {
    let mut before = 0;
    for count in counts {
        let next = *count;
        *count = before;
        before = next;
    }
}

/// Gives a time from before a first tick the moment of that tick.
pub(crate) fn date(time: &mut Time, moment: u64) {
    if time.moment == 0 {
        time.moment = moment;
    }
}
