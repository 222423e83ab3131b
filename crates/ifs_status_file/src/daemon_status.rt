//! The status of a daemon, as its status file has it. Each type is followed by how its members are written and read. The members
//! of the JSON have the names of the fields.

use crate::reading::{Readable, Reading};
use crate::writing::Members;
use serde::{Described, Serialize, Serializer};
use serde_json::Value;

/// A time: the daemon's moment, and the system's clock in seconds since 1970.
#[derive(Clone, Copy, Default)]
pub struct Time {
    /// The moment of the daemon, by its last tick.
    pub moment: u64,
    /// The seconds of the system's clock since 1970-01-01 00:00:00 UTC.
    pub clock: u64,
}

impl Described for Time {}

impl Serialize for Time {
    fn serialize<S: Serializer>(&self, out: &mut S) -> Result<(), S::Error> {
        Members::begin(out)
            .put("moment", &self.moment)
            .put("clock", &self.clock)
            .end()
    }
}

impl<'a> Readable<'a> for Time {
    fn read<'n>(time: &'a Value, _name: &'n str, reading: &mut Reading<'n>) -> Time {
        Time {
            moment: reading.member(time, "moment"),
            clock: reading.member(time, "clock"),
        }
    }
}

/// The image that the daemon runs.
#[derive(Clone, Copy)]
pub struct Image {
    /// Its length in bytes.
    pub bytes: u64,
    /// When it was read.
    pub read: Time,
}

impl Described for Image {}

impl Serialize for Image {
    fn serialize<S: Serializer>(&self, out: &mut S) -> Result<(), S::Error> {
        Members::begin(out)
            .put("bytes", &self.bytes)
            .put("read", &self.read)
            .end()
    }
}

impl<'a> Readable<'a> for Image {
    fn read<'n>(image: &'a Value, _name: &'n str, reading: &mut Reading<'n>) -> Image {
        Image {
            bytes: reading.member(image, "bytes"),
            read: reading.member(image, "read"),
        }
    }
}

/// The state that the policy is in.
#[derive(Clone, Copy)]
pub struct State<'a> {
    /// Its name.
    pub name: &'a str,
    /// When it was entered.
    pub since: Time,
    /// The name of the state before. There is none after an opening.
    pub from: Option<&'a str>,
    /// What led here, in words. There is none after an opening.
    pub cause: Option<&'a str>,
}

impl Described for State<'_> {}

impl Serialize for State<'_> {
    fn serialize<S: Serializer>(&self, out: &mut S) -> Result<(), S::Error> {
        Members::begin(out)
            .put("name", &self.name)
            .put("since", &self.since)
            .put("from", &self.from)
            .put("cause", &self.cause)
            .end()
    }
}

impl<'a> Readable<'a> for State<'a> {
    fn read<'n>(state: &'a Value, _name: &'n str, reading: &mut Reading<'n>) -> State<'a> {
        State {
            name: reading.member(state, "name"),
            since: reading.member(state, "since"),
            from: reading.optional(state, "from"),
            cause: reading.optional(state, "cause"),
        }
    }
}

/// An interface and its link.
#[derive(Clone, Copy)]
pub struct Link<'a> {
    /// The interface's name.
    pub name: &'a str,
    /// Whether the link is up. It is none if the link is unknown.
    pub up: Option<bool>,
    /// Since when it is.
    pub since: Time,
}

impl Described for Link<'_> {}

impl Serialize for Link<'_> {
    fn serialize<S: Serializer>(&self, out: &mut S) -> Result<(), S::Error> {
        Members::begin(out)
            .put("name", &self.name)
            .put("up", &self.up)
            .put("since", &self.since)
            .end()
    }
}

impl<'a> Readable<'a> for Link<'a> {
    fn read<'n>(link: &'a Value, _name: &'n str, reading: &mut Reading<'n>) -> Link<'a> {
        Link {
            name: reading.member(link, "name"),
            up: reading.optional(link, "up"),
            since: reading.member(link, "since"),
        }
    }
}

/// A test of the policy.
#[derive(Clone, Copy)]
pub struct Test<'a> {
    /// Its text.
    pub command: &'a str,
    /// Its period in seconds.
    pub every: Option<u64>,
    /// Whether the state asks for it, or the part outside of all states.
    pub needed: bool,
    /// Its value. It is none if the value is unknown.
    pub value: Option<bool>,
    /// Since when it is.
    pub since: Time,
    /// Whether a run of it has not ended.
    pub running: bool,
    /// When a run was started last.
    pub started: Option<Time>,
    /// When a run ended last.
    pub ended: Option<Time>,
    /// The limit in seconds at which that run was killed, if it was.
    pub limit: Option<u64>,
}

impl Described for Test<'_> {}

impl Serialize for Test<'_> {
    fn serialize<S: Serializer>(&self, out: &mut S) -> Result<(), S::Error> {
        Members::begin(out)
            .put("command", &self.command)
            .put("every", &self.every)
            .put("needed", &self.needed)
            .put("value", &self.value)
            .put("since", &self.since)
            .put("running", &self.running)
            .put("started", &self.started)
            .put("ended", &self.ended)
            .put("limit", &self.limit)
            .end()
    }
}

impl<'a> Readable<'a> for Test<'a> {
    fn read<'n>(test: &'a Value, _name: &'n str, reading: &mut Reading<'n>) -> Test<'a> {
        Test {
            command: reading.member(test, "command"),
            every: reading.optional(test, "every"),
            needed: reading.optional(test, "needed").unwrap_or(false),
            value: reading.optional(test, "value"),
            since: reading.member(test, "since"),
            running: reading.member(test, "running"),
            started: reading.optional(test, "started"),
            ended: reading.optional(test, "ended"),
            limit: reading.optional(test, "limit"),
        }
    }
}

/// The command that ended last.
#[derive(Clone, Copy)]
pub struct EndedCommand<'a> {
    /// Its text.
    pub command: &'a str,
    /// Its exit status. There is none if it was not run.
    pub exit: Option<i32>,
    /// How long it ran, in milliseconds.
    pub milliseconds: u64,
    /// The seconds of the system's clock at its end.
    pub ended: u64,
    /// The moment at its end.
    pub moment: Option<u64>,
    /// The limit in seconds at which it was killed, if it was.
    pub limit: Option<u64>,
}

impl Described for EndedCommand<'_> {}

impl Serialize for EndedCommand<'_> {
    fn serialize<S: Serializer>(&self, out: &mut S) -> Result<(), S::Error> {
        Members::begin(out)
            .put("command", &self.command)
            .put("exit", &self.exit)
            .put("milliseconds", &self.milliseconds)
            .put("ended", &self.ended)
            .put("moment", &self.moment)
            .put("limit", &self.limit)
            .end()
    }
}

impl<'a> Readable<'a> for EndedCommand<'a> {
    fn read<'n>(command: &'a Value, _name: &'n str, reading: &mut Reading<'n>) -> EndedCommand<'a> {
        EndedCommand {
            command: reading.member(command, "command"),
            exit: reading.optional(command, "exit"),
            milliseconds: reading.member(command, "milliseconds"),
            ended: reading.member(command, "ended"),
            moment: reading.optional(command, "moment"),
            limit: reading.optional(command, "limit"),
        }
    }
}

/// The command that runs.
#[derive(Clone, Copy)]
pub struct RunningCommand<'a> {
    /// Its text.
    pub command: &'a str,
    /// The seconds of the system's clock at its start.
    pub since: u64,
}

impl Described for RunningCommand<'_> {}

impl Serialize for RunningCommand<'_> {
    fn serialize<S: Serializer>(&self, out: &mut S) -> Result<(), S::Error> {
        Members::begin(out)
            .put("command", &self.command)
            .put("since", &self.since)
            .end()
    }
}

impl<'a> Readable<'a> for RunningCommand<'a> {
    fn read<'n>(
        running: &'a Value,
        _name: &'n str,
        reading: &mut Reading<'n>,
    ) -> RunningCommand<'a> {
        RunningCommand {
            command: reading.member(running, "command"),
            since: reading.member(running, "since"),
        }
    }
}

/// Changes of state, each from one state to another by one cause. A change that comes again within a minute is counted.
#[derive(Clone, Copy)]
pub struct Change<'a> {
    /// When the first of them came.
    pub first: Time,
    /// When the last of them came.
    pub last: Time,
    /// How many there were.
    pub times: u64,
    /// The name of the state before.
    pub from: &'a str,
    /// The name of the state that was entered.
    pub to: &'a str,
    /// What led there, in words.
    pub cause: &'a str,
}

impl Described for Change<'_> {}

impl Serialize for Change<'_> {
    fn serialize<S: Serializer>(&self, out: &mut S) -> Result<(), S::Error> {
        Members::begin(out)
            .put("first", &self.first)
            .put("last", &self.last)
            .put("times", &self.times)
            .put("from", &self.from)
            .put("to", &self.to)
            .put("cause", &self.cause)
            .end()
    }
}

impl<'a> Readable<'a> for Change<'a> {
    fn read<'n>(change: &'a Value, _name: &'n str, reading: &mut Reading<'n>) -> Change<'a> {
        Change {
            first: reading.member(change, "first"),
            last: reading.member(change, "last"),
            times: reading.member(change, "times"),
            from: reading.member(change, "from"),
            to: reading.member(change, "to"),
            cause: reading.member(change, "cause"),
        }
    }
}

/// A run of a test that was killed at its limit.
#[derive(Clone, Copy)]
pub struct KilledRun {
    /// The number of the run.
    pub run: u64,
    /// The limit in seconds.
    pub limit: u64,
}

impl Described for KilledRun {}

impl Serialize for KilledRun {
    fn serialize<S: Serializer>(&self, out: &mut S) -> Result<(), S::Error> {
        Members::begin(out)
            .put("run", &self.run)
            .put("limit", &self.limit)
            .end()
    }
}

impl<'a> Readable<'a> for KilledRun {
    fn read<'n>(killed: &'a Value, _name: &'n str, reading: &mut Reading<'n>) -> KilledRun {
        KilledRun {
            run: reading.member(killed, "run"),
            limit: reading.member(killed, "limit"),
        }
    }
}

/// Counts since the daemon's start.
#[derive(Clone, Copy, Default)]
pub struct Counts {
    /// The steps that were taken.
    pub steps: u64,
    /// The changes of state.
    pub changes: u64,
    /// The commands that ran.
    pub commands: u64,
    /// The commands that were not run, or whose exit status is not 0.
    pub failed: u64,
    /// The reloads.
    pub reloads: u64,
    /// The reloads that were refused.
    pub refused: u64,
}

impl Described for Counts {}

impl Serialize for Counts {
    fn serialize<S: Serializer>(&self, out: &mut S) -> Result<(), S::Error> {
        Members::begin(out)
            .put("steps", &self.steps)
            .put("changes", &self.changes)
            .put("commands", &self.commands)
            .put("failed", &self.failed)
            .put("reloads", &self.reloads)
            .put("refused", &self.refused)
            .end()
    }
}

impl<'a> Readable<'a> for Counts {
    fn read<'n>(counts: &'a Value, _name: &'n str, reading: &mut Reading<'n>) -> Counts {
        Counts {
            steps: reading.member(counts, "steps"),
            changes: reading.member(counts, "changes"),
            commands: reading.member(counts, "commands"),
            failed: reading.member(counts, "failed"),
            reloads: reading.member(counts, "reloads"),
            refused: reading.member(counts, "refused"),
        }
    }
}

/// What a daemon believes.
pub struct DaemonStatus<'a> {
    /// The version of the daemon's program.
    pub version: &'a str,
    /// The seconds of the system's clock when this was written.
    pub written: u64,
    /// The seconds of the system's clock when the daemon was started.
    pub started: u64,
    /// The seconds since the system's start when this was written, if the system says them.
    pub uptime: Option<u64>,
    /// The seconds from the last tick, or from the daemon's start without a tick, to when this was written.
    pub silent: Option<u64>,
    /// The last tick. There is none before the first.
    pub tick: Option<Time>,
    /// The moment of the daemon's first tick.
    pub first: Option<u64>,
    /// The image.
    pub image: Image,
    /// The state.
    pub state: State<'a>,
    /// The links, in the order of the image.
    pub links: Vec<Link<'a>>,
    /// The tests, in the order of the image.
    pub tests: Vec<Test<'a>>,
    /// The moment when a test starts next.
    pub next: Option<u64>,
    /// The texts of the commands that wait, in order.
    pub queue: Vec<&'a str>,
    /// The command that runs.
    pub running: Option<RunningCommand<'a>>,
    /// The command that ended last.
    pub last: Option<EndedCommand<'a>>,
    /// Counts since the daemon's start.
    pub counts: Counts,
    /// The changes of state in the hour before the last tick.
    pub hour: Option<u64>,
    /// The latest changes of state, in the order of the last time of each.
    pub changes: Vec<Change<'a>>,
    /// The latest runs of tests that were killed at their limits, in order.
    pub killed: Vec<KilledRun>,
    /// The names of the image's states, in its order.
    pub states: Vec<&'a str>,
    /// The latest 256 ticks, in order.
    pub ticks: Vec<Time>,
}

impl Drop for DaemonStatus<'_> {
    fn drop(self) {
        let DaemonStatus {
            version: _version,
            written: _written,
            started: _started,
            uptime: _uptime,
            silent: _silent,
            tick: _tick,
            first: _first,
            image: _image,
            state: _state,
            links: _links,
            tests: _tests,
            next: _next,
            queue: _queue,
            running: _running,
            last: _last,
            counts: _counts,
            hour: _hour,
            changes: _changes,
            killed: _killed,
            states: _states,
            ticks: _ticks,
        } = self;
    }
}

impl Described for DaemonStatus<'_> {}

impl Serialize for DaemonStatus<'_> {
    fn serialize<S: Serializer>(&self, out: &mut S) -> Result<(), S::Error> {
        Members::begin(out)
            .put("version", &self.version)
            .put("written", &self.written)
            .put("started", &self.started)
            .put("uptime", &self.uptime)
            .put("silent", &self.silent)
            .put("tick", &self.tick)
            .put("first", &self.first)
            .put("image", &self.image)
            .put("state", &self.state)
            .put("links", &self.links)
            .put("tests", &self.tests)
            .put("next", &self.next)
            .put("queue", &self.queue)
            .put("running", &self.running)
            .put("last", &self.last)
            .put("counts", &self.counts)
            .put("hour", &self.hour)
            .put("changes", &self.changes)
            .put("killed", &self.killed)
            .put("states", &self.states)
            .put("ticks", &self.ticks)
            .end()
    }
}

impl<'a> Readable<'a> for DaemonStatus<'a> {
    fn read<'n>(status: &'a Value, _name: &'n str, reading: &mut Reading<'n>) -> DaemonStatus<'a> {
        DaemonStatus {
            version: reading.member(status, "version"),
            written: reading.member(status, "written"),
            started: reading.member(status, "started"),
            uptime: reading.optional(status, "uptime"),
            silent: reading.optional(status, "silent"),
            tick: reading.optional(status, "tick"),
            first: reading.optional(status, "first"),
            image: reading.member(status, "image"),
            state: reading.member(status, "state"),
            next: reading.optional(status, "next"),
            running: reading.optional(status, "running"),
            last: reading.optional(status, "last"),
            counts: reading.member(status, "counts"),
            links: reading.list(status, "links"),
            tests: reading.list(status, "tests"),
            queue: reading.list(status, "queue"),
            hour: reading.optional(status, "hour"),
            changes: reading.optional_list(status, "changes"),
            killed: reading.optional_list(status, "killed"),
            states: reading.optional_list(status, "states"),
            ticks: reading.list(status, "ticks"),
        }
    }
}
