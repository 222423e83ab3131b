//! The real host over programs that only seem to run.

use crate::checks::{same, same_in};
use ifs_base::TestId;
use ifs_host::shell::{Pipes, Shell};
use ifs_options::Limits;
use ifs_session::{Host, HostFault};
use log::sink::{Lines, Memory};
use std::alloc::{Allocator, Global};
use std::cell::Cell;
use std::io::{self, Empty, ErrorKind, PipeReader, PipeWriter, Sink};
use std::ops::Range;
use std::os::unix::process::ExitStatusExt;
use std::process::{Abort, Child, Command, ExitStatus, OpenProcess, Processes, Stdio};
use std::rt::Clock;
use std::test::Fail;
use std::time::Duration;

/// How a program ends, by its text.
#[derive(Clone, Copy, Debug, PartialEq, Eq)]
enum Fate {
    /// It has ended with these bits, as `waitpid` gives them.
    Ended(i32),
    /// It runs until it is killed.
    Runs,
    /// It runs until it is killed, and so many looks longer. The system does not end it sooner, unless it is killed twice.
    Hangs(u32),
    /// It runs for so many looks, and a signal ends it.
    Ends(u32),
    /// It runs, and may not be killed.
    Protected,
    /// It cannot be waited for.
    Lost,
}

#[derive(Drop)]
struct Actor {
    fate: Fate,
}

impl OpenProcess for Actor {
    type Stdin = Sink;

    type Stdout = Empty;

    type Stderr = Empty;

    fn id(&self) -> u32 {
        1
    }

    fn wait(&mut self) -> io::Result<ExitStatus> {
        match self.fate {
            Fate::Ended(bits) => Ok(ExitStatus::from_raw(bits)),
            _ => Err(io::Error::from(ErrorKind::NotFound)),
        }
    }

    fn try_wait(&mut self) -> io::Result<Option<ExitStatus>> {
        match self.fate {
            Fate::Ended(bits) => Ok(Some(ExitStatus::from_raw(bits))),
            Fate::Runs => Ok(None),
            Fate::Hangs(_looks) => Ok(None),
            Fate::Ends(looks) => {
                self.fate = after_a_look(looks);
                Ok(None)
            }
            Fate::Protected => Ok(None),
            Fate::Lost => Err(io::Error::from(ErrorKind::NotFound)),
        }
    }

    fn kill(&mut self) -> io::Result<()> {
        if self.fate == Fate::Protected {
            return Err(io::Error::from(ErrorKind::PermissionDenied));
        }
        self.fate = match self.fate {
            Fate::Hangs(looks) => Fate::Ends(looks),
            _ => Fate::Ended(9),
        };
        Ok(())
    }
}

/// How a program that was killed goes on after a look at it.
fn after_a_look(looks: u32) -> Fate {
    match looks.checked_sub(1) {
        None => Fate::Ended(9),
        Some(0) => Fate::Ended(9),
        Some(left) => Fate::Ends(left),
    }
}

/// Starts a program for each text that it knows, and counts how often it was asked. A second passes at each look at its clock.
#[derive(Drop)]
struct Stage {
    alloc: Global,
    asked: Cell<u32>,
    seconds: Cell<u64>,
}

impl Stage {
    fn new(alloc: Global) -> Stage {
        Stage {
            alloc,
            asked: Cell::new(0),
            seconds: Cell::new(0),
        }
    }
}

impl Clock for Stage {
    fn monotonic(&self) -> io::Result<Duration> {
        self.seconds.set(self.seconds.get().saturating_add(1));
        Ok(Duration::from_secs(self.seconds.get()))
    }

    fn since_1970(&self) -> io::Result<Duration> {
        Err(io::Error::from(ErrorKind::Unsupported))
    }
}

impl Alloc for Stage {
    type A = Global;

    fn alloc(&self) -> Global {
        self.alloc
    }
}

/// It has no descriptors for pipes, so no test is watched.
impl Pipes for Stage {
    fn pipe(&self) -> io::Result<(PipeReader, PipeWriter)> {
        Err(io::Error::from(ErrorKind::Unsupported))
    }
}

impl Processes for Stage {
    type Started = Actor;

    fn spawn<B: Allocator + Clone>(
        &self,
        command: &Command<B>,
        _stdin: &Stdio,
        _stdout: &Stdio,
        _stderr: &Stdio,
    ) -> io::Result<Child<Actor>> {
        self.asked.set(self.asked.get().saturating_add(1));
        let fate = match command.get_args().last() {
            Some("exit 0") => Fate::Ended(0),
            Some("exit 3") => Fate::Ended(3 * 256),
            Some("kill -9 $$") => Fate::Ended(9),
            Some("sleep 60") => Fate::Runs,
            Some("slow 19") => Fate::Ends(19),
            Some("slow 20") => Fate::Ends(20),
            Some("slow 60") => Fate::Ends(60),
            Some("sync") => Fate::Hangs(2),
            Some("sync /frozen") => Fate::Hangs(u32::MAX),
            Some("sudo sleep 60") => Fate::Protected,
            Some("lost") => Fate::Lost,
            // the group of each program, whose number is 1
            Some("kill -s KILL -- -1") => Fate::Ended(0),
            _ => return Err(io::Error::from(ErrorKind::NotFound)),
        };
        Ok(Child::from_parts(Actor { fate }, None, None, None))
    }
}

/// A test, the number of its run, and the text that is started.
type Started = (u16, u64, &'static str);

/// A host over programs that only seem to run, whose notes are kept.
type Staged<'a> = Shell<'a, 'a, Stage, Memory>;

/// Plays something on a host over programs that only seem to run, and returns its notes.
fn notes_of<F: FnOnce(&mut Staged<'_>, &Stage)>(
    alloc: Global,
    limits: Limits,
    play: F,
) -> Result<Lines, Fail>
    requires { F.IsAlwaysCallable play }
{
    let stage = Stage::new(alloc);
    let notes = Memory::new(alloc);
    let mut host = Shell::new(&stage, &notes, limits, None)?;
    play(&mut host, &stage);
    drop(host);
    Ok(notes.into_lines())
}

/// Starts these tests, in order.
fn start_all(host: &mut Staged<'_>, starts: &[Started]) {
    for (test, run, text) in starts {
        host.start(TestId(*test), *run, text);
    }
}

fn check_poll(rt: &impl Abort, host: &mut Staged<'_>, wanted: Option<(TestId, u64, bool)>) {
    let found = host.poll();
    same(rt, found, wanted);
}

/// Asserts that these ends are reported, in order, and then none.
fn check_polls(rt: &impl Abort, host: &mut Staged<'_>, ends: &[(u16, u64, bool)]) {
    for (test, run, value) in ends {
        check_poll(rt, host, Some((TestId(*test), *run, *value)));
    }
    check_poll(rt, host, None);
}

/// Tests that are started, and the ends that are reported. Of the tests that have ended, the one that started first is reported
/// first, and each once. A test that sleeps keeps running. A test that cannot be started is false, and comes before all that ran.
/// An earlier such run of the same test is forgotten.
const ENDS: [(&[Started], &[(u16, u64, bool)]); 2] = [
    (
        &[
            (0, 10, "sleep 60"),
            (1, 11, "exit 3"),
            (2, 12, "exit 0"),
            (3, 13, "kill -9 $$"),
            (4, 14, "lost"),
        ],
        &[
            (1, 11, false),
            (2, 12, true),
            (3, 13, false),
            (4, 14, false),
        ],
    ),
    (
        &[
            (0, 1, "exit 0"),
            (1, 2, "no program"),
            (2, 3, "no program"),
            (1, 4, "no program"),
        ],
        &[(2, 3, false), (1, 4, false), (0, 1, true)],
    ),
];

#[test]
fn ended_tests_in_order(rt: HostRuntime) -> Result<(), Fail> {
    for (starts, ends) in ENDS {
        notes_of(rt.alloc(), Limits::default(), |host, _stage| {
            start_all(host, starts);
            check_polls(&rt, host, ends);
        })?;
    }
    Ok(())
}

/// Starts `count` runs of a text, of each test in turn.
fn start_runs(host: &mut Staged<'_>, count: u64, text: &str) {
    for run in 0..count {
        host.start(TestId((run % 64) as u16), run, text);
    }
}

/// Asserts that the ends of these runs are reported, in order.
fn check_runs(rt: &impl Abort, host: &mut Staged<'_>, runs: Range<u64>, value: bool) {
    for run in runs {
        let end = (TestId((run % 64) as u16), run, value);
        same(rt, host.poll(), Some(end));
    }
}

/// At most 256 programs run at once. A test beyond them is reported as false.
#[test]
fn places(rt: HostRuntime) -> Result<(), Fail> {
    notes_of(rt.alloc(), Limits::default(), |host, _stage| {
        start_runs(host, 320, "exit 0");
        check_runs(&rt, host, 256..320, false);
        check_runs(&rt, host, 0..256, true);
        check_polls(&rt, host, &[]);
        start_all(host, &[(0, 320, "exit 0")]);
        check_polls(&rt, host, &[(0, 320, true)]);
    })?;
    Ok(())
}

/// Starts `count` tests, one run each. None can be started.
fn start_failing(host: &mut Staged<'_>, count: u16) {
    for test in 0..count {
        host.start(TestId(test), 1, "no program");
    }
}

/// Asserts that the runs of these tests are reported as false, in order.
fn check_failed(rt: &impl Abort, host: &mut Staged<'_>, tests: Range<u16>) {
    for test in tests {
        check_poll(rt, host, Some((TestId(test), 1, false)));
    }
}

/// Of the tests that could not be started, the latest 64 are reported.
#[test]
fn failed_starts(rt: HostRuntime) -> Result<(), Fail> {
    notes_of(rt.alloc(), Limits::default(), |host, _stage| {
        start_failing(host, 65);
        check_failed(&rt, host, 1..65);
        check_polls(&rt, host, &[]);
    })?;
    Ok(())
}

fn check_command(
    rt: &impl Abort,
    host: &mut Staged<'_>,
    text: &str,
    wanted: Result<i32, HostFault>,
) {
    let found = host.run(text);
    same_in(rt, text, found, wanted);
}

fn check_commands(rt: &impl Abort, host: &mut Staged<'_>) {
    for (text, wanted) in [
        ("exit 0", Ok(0)),
        ("exit 3", Ok(3)),
        ("kill -9 $$", Ok(137)),
        ("no program", Err(HostFault)),
        ("lost", Err(HostFault)),
    ] {
        check_command(rt, host, text, wanted);
    }
}

/// The host waits for a command, and returns the status of its end.
#[test]
fn commands(rt: HostRuntime) -> Result<(), Fail> {
    notes_of(rt.alloc(), Limits::default(), |host, _stage| {
        check_commands(&rt, host);
    })?;
    Ok(())
}

/// The shell gets each text once, even one that fails. A poll gives it none.
#[test]
fn each_text_once(rt: HostRuntime) -> Result<(), Fail> {
    notes_of(rt.alloc(), Limits::default(), |host, stage| {
        check_commands(&rt, host);
        same(&rt, stage.asked.get(), 5);
        start_all(host, &[(0, 1, "exit 3"), (1, 2, "no program")]);
        same(&rt, stage.asked.get(), 7);
        check_polls(&rt, host, &[(1, 2, false), (0, 1, false)]);
        same(&rt, stage.asked.get(), 7);
    })?;
    Ok(())
}

/// Asserts that these notes were written, in order.
fn check_notes(rt: &impl Abort, lines: &Lines, wanted: &[&str]) {
    let notes = lines.as_slice();
    same(rt, notes.len(), wanted.len());
    for (note, wanted) in notes.iter().zip(wanted) {
        same(rt, note.as_str(), *wanted);
    }
}

/// Each command has a note with its end and the time that it took. A test has a note if it could not be started or waited for.
#[test]
fn notes_of_ends(rt: HostRuntime) -> Result<(), Fail> {
    let notes = notes_of(rt.alloc(), Limits::default(), |host, _stage| {
        check_commands(&rt, host);
        let starts = [(0, 1, "exit 3"), (1, 2, "no program"), (2, 3, "lost")];
        start_all(host, &starts);
        check_polls(&rt, host, &[(1, 2, false), (0, 1, false), (2, 3, false)]);
    })?;
    check_notes(
        &rt,
        &notes,
        &[
            "[INFO  ifs_host::shell] command \"exit 0\": exit 0 after 1000 ms",
            "[WARN  ifs_host::shell] command \"exit 3\": exit 3 after 1000 ms",
            "[WARN  ifs_host::shell] command \"kill -9 $$\": exit 137 after 1000 ms",
            "[ERROR ifs_host::shell] command \"no program\": not run: entity not found",
            "[ERROR ifs_host::shell] command \"lost\": not run: entity not found",
            "[WARN  ifs_host::shell] test \"no program\": not started: entity not found",
            "[WARN  ifs_host::shell] test \"lost\": its end is not known: entity not found",
        ],
    );
    Ok(())
}

/// A note says that all places are taken when the last one is. It comes again only after one was free.
#[test]
fn notes_of_places(rt: HostRuntime) -> Result<(), Fail> {
    let notes = notes_of(rt.alloc(), Limits::default(), |host, _stage| {
        start_runs(host, 300, "exit 0");
        check_runs(&rt, host, 256..300, false);
        check_runs(&rt, host, 0..1, true);
        host.start(TestId(0), 300, "exit 0");
    })?;
    let full = "[WARN  ifs_host::shell] 256 tests run: no place is left for another one";
    check_notes(&rt, &notes, &[full, full]);
    Ok(())
}

/// A command or a test that runs longer than its limit is killed and noted. A test is killed at the first poll after its limit,
/// which reports it as false.
#[test]
fn limits(rt: HostRuntime) -> Result<(), Fail> {
    let limits = Limits {
        command: Some(Duration::from_secs(5)),
        test: Some(Duration::from_secs(3)),
    };
    let notes = notes_of(rt.alloc(), limits, |host, _stage| {
        check_command(&rt, host, "sleep 60", Ok(137));
        check_command(&rt, host, "exit 0", Ok(0));
        start_all(host, &[(0, 1, "sleep 60")]);
        for _early in 0..2 {
            check_poll(&rt, host, None);
        }
        check_polls(&rt, host, &[(0, 1, false)]);
    })?;
    check_notes(
        &rt,
        &notes,
        &[
            "[WARN  ifs_host::shell] command \"sleep 60\": killed at its limit of 5 s, exit 137 after 6000 ms",
            "[INFO  ifs_host::shell] command \"exit 0\": exit 0 after 1000 ms",
            "[WARN  ifs_host::shell] test \"sleep 60\": killed at its limit of 3 s",
        ],
    );
    Ok(())
}

/// A command that has run for 20 seconds is noted once, and goes on to its end or to its limit.
#[test]
fn notes_of_long_commands(rt: HostRuntime) -> Result<(), Fail> {
    for (limit, wanted) in [
        (None, &LONG_COMMANDS),
        (Some(Duration::from_secs(30)), &LONG_COMMANDS_TO_30_SECONDS),
    ] {
        let limits = Limits {
            command: limit,
            test: None,
        };
        let notes = notes_of(rt.alloc(), limits, |host, _stage| {
            for text in ["slow 19", "slow 20", "slow 60"] {
                check_command(&rt, host, text, Ok(137));
            }
        })?;
        check_notes(&rt, &notes, wanted);
    }
    Ok(())
}

const LONG_COMMANDS: [&str; 5] = [
    "[WARN  ifs_host::shell] command \"slow 19\": exit 137 after 20000 ms",
    "[WARN  ifs_host::shell] command \"slow 20\": still runs after 20 s",
    "[WARN  ifs_host::shell] command \"slow 20\": exit 137 after 21000 ms",
    "[WARN  ifs_host::shell] command \"slow 60\": still runs after 20 s",
    "[WARN  ifs_host::shell] command \"slow 60\": exit 137 after 61000 ms",
];

const LONG_COMMANDS_TO_30_SECONDS: [&str; 5] = [
    "[WARN  ifs_host::shell] command \"slow 19\": exit 137 after 20000 ms",
    "[WARN  ifs_host::shell] command \"slow 20\": still runs after 20 s",
    "[WARN  ifs_host::shell] command \"slow 20\": exit 137 after 21000 ms",
    "[WARN  ifs_host::shell] command \"slow 60\": still runs after 20 s",
    "[WARN  ifs_host::shell] command \"slow 60\": killed at its limit of 30 s, exit 137 after 31000 ms",
];

/// The limits of programs that hang.
fn one_second() -> Limits {
    Limits {
        command: Some(Duration::from_secs(1)),
        test: Some(Duration::from_secs(1)),
    }
}

/// A test that was killed at its limit and does not end is false at once. It is killed and noted once, however often it is looked
/// at then. So is one that may not be killed.
#[test]
fn tests_are_killed_once(rt: HostRuntime) -> Result<(), Fail> {
    let notes = notes_of(rt.alloc(), one_second(), |host, _stage| {
        start_all(host, &[(0, 1, "sync /frozen"), (1, 2, "sudo sleep 60")]);
        check_polls(&rt, host, &[(0, 1, false), (1, 2, false)]);
        for _later in 0..5 {
            check_poll(&rt, host, None);
        }
    })?;
    check_notes(
        &rt,
        &notes,
        &[
            "[WARN  ifs_host::shell] test \"sync /frozen\": killed at its limit of 1 s",
            "[WARN  ifs_host::shell] test \"sudo sleep 60\": not killed at its limit: permission denied",
        ],
    );
    Ok(())
}

/// A test that was killed holds its place until it has ended. Here the third look after it was killed finds that: a poll that
/// reports none looks once.
#[test]
fn places_of_killed_tests(rt: HostRuntime) -> Result<(), Fail> {
    notes_of(rt.alloc(), one_second(), |host, _stage| {
        start_runs(host, 256, "sync");
        check_runs(&rt, host, 0..256, false);
        for run in 256..260 {
            start_all(host, &[(0, run, "exit 0")]);
            check_polls(&rt, host, &[(0, run, run == 259)]);
        }
    })?;
    Ok(())
}

/// A command that does not end after it was killed is over for the host: the status is that of one that was killed. One that ends
/// a little later has ended.
#[test]
fn commands_that_do_not_end(rt: HostRuntime) -> Result<(), Fail> {
    let notes = notes_of(rt.alloc(), one_second(), |host, _stage| {
        for text in ["sync", "sync /frozen", "sudo sleep 60"] {
            check_command(&rt, host, text, Ok(137));
        }
        check_command(&rt, host, "exit 0", Ok(0));
    })?;
    check_notes(
        &rt,
        &notes,
        &[
            "[WARN  ifs_host::shell] command \"sync\": killed at its limit of 1 s, exit 137 after 2000 ms",
            "[WARN  ifs_host::shell] command \"sync /frozen\": not ended at its limit of 1 s, exit 137 after 2000 ms",
            "[WARN  ifs_host::shell] command \"sudo sleep 60\": not killed at its limit: permission denied",
            "[WARN  ifs_host::shell] command \"sudo sleep 60\": not ended at its limit of 1 s, exit 137 after 2000 ms",
            "[INFO  ifs_host::shell] command \"exit 0\": exit 0 after 1000 ms",
        ],
    );
    Ok(())
}

/// Runs a command that does not end, so often.
fn hang(host: &mut Staged<'_>, count: u32) {
    for _command in 0..count {
        let _status = host.run("sync /frozen");
    }
}

/// Of commands that do not end the latest 256 are kept. A note says so for each one that goes.
#[test]
fn most_commands_that_do_not_end(rt: HostRuntime) -> Result<(), Fail> {
    let kept = notes_of(rt.alloc(), one_second(), |host, _stage| hang(host, 256))?;
    same(&rt, kept.as_slice().len(), 256);
    let notes = notes_of(rt.alloc(), one_second(), |host, _stage| hang(host, 257))?;
    same(&rt, notes.as_slice().len(), 258);
    let forgotten = notes.as_slice().get(256).map(|note| note.as_str());
    same(
        &rt,
        forgotten,
        Some("[WARN  ifs_host::shell] 256 commands have not ended: the oldest is not waited for"),
    );
    Ok(())
}
