//! The status of a daemon as it is recorded: since when each of its facts is so, and what was counted.

ghost use Rattle.std.specs.Prelude.{◌≡◌, ◌≢◌};

use crate::change_log::{ChangeLog, date};
use crate::command_log::CommandLog;
use crate::event::{Event, StepMade, TestSet};
use crate::notes::interface_name;
use crate::observing::needed_tests;
use crate::snapshot::{Facts, MOST, Snapshot};
use ifs_base::{IfaceId, LinkState, StateId, TestId};
use ifs_core::{Core, Step};
use ifs_sched::Start;
use ifs_status_file::daemon_status::{
    Change, Counts, DaemonStatus, Image, KilledRun, Link, State, Test, Time,
};
use ifs_status_file::to_json;
use std::alloc::{AllocError, Global};
use std::mem;
use std::time::Duration;

/// The most ticks that are remembered.
const TICKS: usize = 256;

/// The most states of an image.
const STATES: usize = 256;

/// The most killed runs that are remembered.
const KILLED: usize = 16;

/// What there is to write.
#[derive(Clone, Copy, PartialEq, Eq)]
pub enum Unwritten {
    /// Nothing happened since the status was written.
    Nothing,
    /// Steps that changed nothing, such as ticks.
    Quiet,
    /// A change.
    Change,
}

/// The state, and what led to it.
#[derive(Drop)]
struct StateEntry<'m> {
    name: &'m str,
    since: Time,
    /// The name of the state before, and the cause in words. There is none after an opening.
    by: Option<(&'m str, String)>,
}

/// The seconds of the system's clock since 1970, and those since the system's start, if it says them.
#[derive(Clone, Copy)]
pub struct Clocks {
    pub clock: u64,
    pub uptime: Option<u64>,
}

/// The status of a daemon. The names are those of its image.
#[derive(Drop)]
pub struct StatusRecorder<'m> {
    alloc: Global,
    version: &'m str,
    started: u64,
    /// When the status was written last, or was to be written.
    written: u64,
    /// The time as the present connection began.
    clocks: Clocks,
    /// The seconds since the system's start at the last tick, or at the daemon's start.
    heard: Option<u64>,
    unwritten: Unwritten,
    image: Image,
    /// The names of the image's states.
    states: Vec<&'m str>,
    /// The number of the state.
    current: StateId,
    state: StateEntry<'m>,
    links: Vec<Link<'m>>,
    /// The links before the last reload.
    links_before: Vec<Link<'m>>,
    tests: Vec<Test<'m>>,
    next: Option<u64>,
    /// The moment of the daemon's first tick.
    first: Option<u64>,
    ticks: Vec<Time>,
    counts: Counts,
    changes: ChangeLog<'m>,
    killed: Vec<KilledRun>,
    commands: CommandLog,
}

impl<'m> StatusRecorder<'m> {
    /// The recorder of a daemon that was started at this time. It has no image yet.
    pub fn new(
        alloc: Global,
        version: &'m str,
        clocks: Clocks,
    ) -> Result<StatusRecorder<'m>, AllocError> {
        let states = Vec::with_capacity(alloc, STATES)?;
        let links = Vec::with_capacity(alloc, MOST)?;
        let links_before = Vec::with_capacity(alloc, MOST)?;
        let tests = Vec::with_capacity(alloc, MOST)?;
        let ticks = Vec::with_capacity(alloc, TICKS)?;
        let killed = Vec::with_capacity(alloc, KILLED)?;
        let changes = ChangeLog::new(alloc)?;
        let start = Time {
            moment: 0,
            clock: clocks.clock,
        };
        Ok(StatusRecorder {
            alloc,
            version,
            started: clocks.clock,
            written: 0,
            clocks,
            heard: clocks.uptime,
            unwritten: Unwritten::Nothing,
            image: Image {
                bytes: 0,
                read: start,
            },
            states,
            current: StateId(0),
            state: StateEntry {
                name: "",
                since: start,
                by: None,
            },
            links,
            links_before,
            tests,
            next: None,
            first: None,
            ticks,
            counts: Counts::default(),
            changes,
            killed,
            commands: CommandLog::new(alloc),
        })
    }

    /// What there is to write.
    pub fn unwritten(&self) -> Unwritten {
        self.unwritten
    }

    /// When the status was written last, or was to be written.
    pub fn written(&self) -> u64 {
        self.written
    }

    /// Marks that the status was written.
    pub fn mark_written(&mut self) {
        self.unwritten = Unwritten::Nothing;
    }

    /// Marks that the status was not written.
    pub fn mark_unwritten(&mut self) {
        self.mark_changed();
    }

    /// Marks that something changed.
    fn mark_changed(&mut self) {
        self.unwritten = Unwritten::Change;
    }

    /// Marks that steps were made which may have changed nothing.
    fn mark_quiet(&mut self) {
        if self.unwritten == Unwritten::Nothing {
            self.unwritten = Unwritten::Quiet;
        }
    }

    /// The time as the present connection began.
    pub fn clocks(&self) -> Clocks {
        self.clocks
    }

    /// Knows the time as a connection begins.
    pub fn begin_connection(&mut self, clocks: Clocks) {
        self.clocks = clocks;
    }

    /// Records an event at this time of the system's clock. The only error is a failed allocation.
    pub fn record(&mut self, event: Event<'_, 'm>, clock: u64) -> Result<(), AllocError> {
        match event {
            Event::ConnectionOpened => {}
            Event::ImageOpened { core, bytes } => return self.record_opening(core, bytes),
            Event::Reloaded { is_refused } => self.count_reload(is_refused),
            Event::StepMade { made, cause, queue } => return self.record_step(made, cause, queue),
            Event::StepsMade { core, running } => self.record_end(core, running),
            Event::CommandStarted(text) => return self.start_command(text, clock),
            Event::CommandEnded {
                exit,
                lasted,
                limit,
            } => self.end_command((exit, limit), lasted, clock),
        }
        Ok(())
    }

    /// Records that a command is taken and begins. Without memory for its text it is not known that it runs.
    fn start_command(&mut self, text: &str, clock: u64) -> Result<(), AllocError> {
        self.mark_changed();
        self.count_step();
        self.commands.start(text, clock)
    }

    /// Records that the command that runs ends, with its exit status, and the limit at which it was killed.
    fn end_command(
        &mut self,
        (exit, limit): (Option<i32>, Option<u64>),
        lasted: Duration,
        clock: u64,
    ) {
        let milliseconds = u64::try_from(lasted.as_millis()).unwrap_or(u64::MAX);
        let moment = self.moment();
        self.mark_changed();
        self.commands
            .end(exit, limit, milliseconds, Time { moment, clock });
    }

    /// The moment of the last tick. It is 0 before the first one.
    fn moment(&self) -> u64 {
        match self.ticks.last() {
            Some(tick) => tick.moment,
            None => 0,
        }
    }

    /// A moment of the present connection.
    fn time(&self, moment: u64) -> Time {
        Time {
            moment,
            clock: self.clocks.clock,
        }
    }

    /// Records a core that was opened, whose image has so many bytes. Links are so since the time before, if an interface of
    /// that name had the same link. All else begins now.
    fn record_opening(&mut self, core: &Core<'m>, bytes: u64) -> Result<(), AllocError> {
        let now = self.time(core.now());
        self.mark_changed();
        self.image = Image { bytes, read: now };
        self.current = core.state();
        self.state = StateEntry {
            name: core.state_name(core.state()).unwrap_or_default(),
            since: now,
            by: None,
        };
        self.ticks.clear();
        self.replace_states(core);
        self.replace_links(core, now);
        self.replace_tests(core, now);
        self.update_needed(needed_tests(core));
        self.commands.wait_for_opening(core)
    }

    /// Replaces the names of states by those of a core.
    fn replace_states(&mut self, core: &Core<'m>) {
        self.states.clear();
        for index in 0..STATES as u16 {
            let Some(name) = core.state_name(StateId(index)) else {
                break;
            };
            // there is room for it
            let _pushed = self.states.push(name);
        }
    }

    /// Replaces the links by those of a core.
    fn replace_links(&mut self, core: &Core<'m>, now: Time) {
        mem::swap(&mut self.links, &mut self.links_before);
        self.links.clear();
        for index in 0..MOST as u16 {
            let Some(link) = core.link(IfaceId(index)) else {
                break;
            };
            let name = interface_name(core, IfaceId(index));
            let up = is_up(link);
            let since = since_of(self.links_before.as_slice(), name, up, now);
            // there is room for it
            let _pushed = self.links.push(Link { name, up, since });
        }
    }

    /// Replaces the tests by those of a core, which have no values.
    fn replace_tests(&mut self, core: &Core<'m>, since: Time) {
        self.tests.clear();
        for index in 0..MOST as u16 {
            let Some(command) = core.test_text(TestId(index)) else {
                break;
            };
            // there is room for it
            let _pushed = self.tests.push(Test {
                command,
                every: period_of(core, index),
                needed: false,
                value: None,
                since,
                running: false,
                started: None,
                ended: None,
                limit: None,
            });
        }
    }

    /// Counts a reload that was made, or was refused.
    fn count_reload(&mut self, is_refused: bool) {
        self.mark_changed();
        self.counts.reloads = self.counts.reloads.saturating_add(1);
        if is_refused {
            self.counts.refused = self.counts.refused.saturating_add(1);
        }
    }

    /// Counts a step.
    fn count_step(&mut self) {
        self.counts.steps = self.counts.steps.saturating_add(1);
    }

    /// Records a step, and what it changed. These commands wait after it.
    fn record_step(
        &mut self,
        made: &StepMade<'_>,
        cause: &str,
        queue: &[String],
    ) -> Result<(), AllocError> {
        let now = self.time(made.moment);
        self.mark_quiet();
        self.count_step();
        match made.step {
            Step::Tick(_) => self.record_tick(now, made.starts),
            Step::Finished(test, run, _) => self.record_run(test, run, made.limit, now),
            Step::Link(_, _) | Step::Take => {}
        }
        let cause = String::from_str(self.alloc, cause);
        self.update_state(made, cause, now);
        self.update_facts(made.facts, now);
        self.update_needed(made.needed);
        self.next = made.next;
        self.commands.wait_for(queue)?;
        self.log_change(made, now)
    }

    /// Records a tick, and the tests that it starts. If there are 256 ticks, the first of them goes.
    fn record_tick(&mut self, now: Time, starts: &[Start]) {
        if self.ticks.is_empty() {
            self.date_from(now.moment);
        }
        if self.ticks.len() >= TICKS {
            self.ticks.remove(0);
        }
        // there is room for it
        let _pushed = self.ticks.push(now);
        self.heard = self.clocks.uptime;
        for start in starts {
            if let Some(test) = self.tests.get_mut(usize::from(start.test.0)) {
                test.started = Some(now);
                test.running = true;
            }
        }
    }

    /// Dates what came before the first tick after an opening by its moment.
    fn date_from(&mut self, moment: u64) {
        if self.first.is_none() {
            self.first = Some(moment);
        }
        date(&mut self.state.since, moment);
        date(&mut self.image.read, moment);
        for link in &mut self.links {
            date(&mut link.since, moment);
        }
        for test in &mut self.tests {
            date(&mut test.since, moment);
        }
        self.changes.date(moment);
        self.commands.date(moment);
    }

    /// Records the end of a test's run, and the limit at which it was killed, if it was.
    fn record_run(&mut self, test: TestId, run: u64, limit: Option<u64>, now: Time) {
        if let Some(test) = self.tests.get_mut(usize::from(test.0)) {
            test.running = false;
            test.ended = Some(now);
            test.limit = limit;
        }
        if let Some(limit) = limit {
            self.record_kill(KilledRun { run, limit });
        }
    }

    /// Records a run that was killed. If there are 16, the first of them goes.
    fn record_kill(&mut self, killed: KilledRun) {
        if self.killed.len() >= KILLED {
            self.killed.remove(0);
        }
        // there is room for it
        let _pushed = self.killed.push(killed);
    }

    /// Updates the state after a step. If it is another one, it is so from now on.
    fn update_state(&mut self, made: &StepMade<'_>, cause: Result<String, AllocError>, now: Time)
        ensures same { made.now.after ≡ made.now.before → self.new.state ≡ self.old.state }
        ensures other { made.now.after ≢ made.now.before → self.new.state.since ≡ now }
    {
        if made.after != made.before {
            self.enter_state(made.after, made.before, cause, now);
        }
    }

    /// Enters the state that a step led to. Without memory it has no cause.
    fn enter_state(
        &mut self,
        after: StateId,
        before: StateId,
        cause: Result<String, AllocError>,
        now: Time,
    )
        ensures { self.new.state.since ≡ now }
    {
        self.mark_changed();
        self.counts.changes = self.counts.changes.saturating_add(1);
        self.current = after;
        let from = self.name_of(before);
        let by = match cause {
            Ok(cause) => Some((from, cause)),
            Err(AllocError) => None,
        };
        self.state = StateEntry {
            name: self.name_of(after),
            since: now,
            by,
        };
    }

    /// The name of a state of the image.
    fn name_of(&self, state: StateId) -> &'m str {
        match self.states.get(usize::from(state.0)) {
            Some(name) => *name,
            None => "",
        }
    }

    /// Adds a change of state to the latest ones, if a step made one.
    fn log_change(&mut self, made: &StepMade<'_>, now: Time) -> Result<(), AllocError> {
        if made.after == made.before {
            return Ok(());
        }
        let names = (self.name_of(made.before), self.name_of(made.after));
        match &self.state.by {
            Some((_from, cause)) => self.changes.add(names, cause.as_str(), now),
            None => Err(AllocError),
        }
    }

    /// Updates which tests the state asks for, and the part outside of all states.
    fn update_needed(&mut self, needed: TestSet) {
        let mut needed = needed.0;
        for test in &mut self.tests {
            test.needed = needed & 1 == 1;
            needed >>= 1;
        }
    }

    /// Records the end of a connection: what is so by its core, also if memory ran out for a step.
    fn record_end(&mut self, core: &Core<'m>, running: TestSet) {
        let now = self.time(core.now());
        if core.state() != self.current {
            let before = self.current;
            self.enter_state(core.state(), before, Err(AllocError), now);
        }
        self.update_facts(&Snapshot::of(core).facts, now);
        self.update_tests(core, running);
    }

    /// Updates links and values. Each that was another one is so from now on.
    fn update_facts(&mut self, facts: &Facts, now: Time) {
        for index in 0..MOST as u16 {
            let up = is_up(facts.link(IfaceId(index)));
            let value = facts.value(TestId(index));
            let has_other_link = self.update_link(index, up, now);
            let has_other_value = self.update_value(index, value, now);
            if has_other_link || has_other_value {
                self.mark_changed();
            }
        }
    }

    /// Updates the link of this number, and returns whether it was another one.
    fn update_link(&mut self, index: u16, up: Option<bool>, now: Time) -> bool {
        match self.links.get_mut(usize::from(index)) {
            Some(link) => update(&mut link.up, &mut link.since, up, now),
            None => false,
        }
    }

    /// Updates the value of the test of this number, and returns whether it was another one.
    fn update_value(&mut self, index: u16, value: Option<bool>, now: Time) -> bool {
        match self.tests.get_mut(usize::from(index)) {
            Some(test) => update(&mut test.value, &mut test.since, value, now),
            None => false,
        }
    }

    /// Updates which tests run, and when one starts next.
    fn update_tests(&mut self, core: &Core<'_>, running: TestSet) {
        self.next = core.next_due();
        let mut running = running.0;
        for test in &mut self.tests {
            test.running = running & 1 == 1;
            running >>= 1;
        }
    }

    /// The status in JSON, as it is written now.
    pub fn json_at(&mut self, clocks: Clocks) -> Result<String, AllocError> {
        self.written = clocks.clock;
        let moment = self.moment();
        let hour = self.changes.in_hour(moment);
        let status = self.status(clocks, hour)?;
        to_json(self.alloc, &status)
    }

    /// The status now, with so many changes in the last hour. Of a connection it has the steps that were made.
    fn status(&self, clocks: Clocks, hour: u64) -> Result<DaemonStatus<'_>, AllocError> {
        let links = self.links.clone()?;
        let tests = self.tests.clone()?;
        let queue = self.commands.waiting()?;
        let changes: Vec<Change<'_>> = self.changes.latest()?;
        let killed = self.killed.clone()?;
        let states = self.states.clone()?;
        let ticks = self.ticks.clone()?;
        Ok(DaemonStatus {
            version: self.version,
            written: self.written,
            started: self.started,
            uptime: clocks.uptime,
            silent: between(self.heard, clocks.uptime),
            tick: self.ticks.last().copied(),
            first: self.first,
            image: self.image,
            state: self.state_view(),
            links,
            tests,
            next: self.next,
            queue,
            running: self.commands.running(),
            last: self.commands.last(),
            counts: Counts {
                commands: self.commands.count,
                failed: self.commands.failed,
                ..self.counts
            },
            hour: Some(hour),
            changes,
            killed,
            states,
            ticks,
        })
    }

    /// The state, with what led to it.
    fn state_view(&self) -> State<'_> {
        let (from, cause) = match &self.state.by {
            Some((from, cause)) => (Some(*from), Some(cause.as_str())),
            None => (None, None),
        };
        State {
            name: self.state.name,
            since: self.state.since,
            from,
            cause,
        }
    }
}

/// The seconds between two times, if both are known.
fn between(earlier: Option<u64>, later: Option<u64>) -> Option<u64> {
    Some(later?.saturating_sub(earlier?))
}

/// The period of a test in seconds.
fn period_of(core: &Core<'_>, test: u16) -> Option<u64> {
    let image = core.image();
    let index = usize::from(test);
    if index < image.tests() {
        Some(u64::from(image.test_period(index)))
    } else {
        None
    }
}

/// Since when the interface of this name has this link: since the time before, if it is the same one.
fn since_of(links: &[Link<'_>], name: &str, up: Option<bool>, now: Time) -> Time {
    for link in links {
        if link.name == name && link.up == up {
            return link.since;
        }
    }
    now
}

/// Updates a value. If it was another one, it is so since now. Returns whether it was.
fn update(value: &mut Option<bool>, since: &mut Time, next: Option<bool>, now: Time) -> bool {
    let was_other = *value != next;
    if was_other {
        *value = next;
        *since = now;
    }
    was_other
}

/// Whether a link is up. It is none if the link is unknown.
fn is_up(link: LinkState) -> Option<bool> {
    match link {
        LinkState::Up => Some(true),
        LinkState::Down => Some(false),
        LinkState::Unknown => None,
    }
}
