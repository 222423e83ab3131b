//! The daemon's host: it runs commands and tests by the shell, and notes what they did.

ghost use Rattle.std.specs.Prelude.{◌≡◌, ◌≢◌, ◌⊎◌, [], ◌∷◌, None, Some, IfOk, IfSome, IsTrue};
ghost use Rattle.std.specs.Bool.{OnTrue};
ghost use Rattle.std.specs.Process.{child_status, command_args, command_program};
ghost use Rattle.ifs_host.specs.declared.runner.ProgramStatus.TheVariants.{Late, Lost};
ghost use Rattle.ifs_host.specs.Shells.{shell, dash_c, in_own_group, in_watched_group};
ghost use Rattle.ifs_host.specs.Shells.{Agrees, shell_code, ended_code};

use crate::children::PLACES;
use crate::event::Event;
use crate::notes::OfSeconds;
use crate::observing::Observer;
use crate::runner::{ProgramStatus, RunFault, Runner};
use crate::runner_host::RunnerHost;
use crate::status_file::{StatusFile, record};
use ifs_core::{Core, Lists, Outcome, Step};
use ifs_options::Limits;
use ifs_terminal::Shown;
use log::{Level, Log, error, log, warn};
use std::alloc::{AllocError, Global};
use std::io::{PipeReader, PipeWriter};
use std::marker::Model;
use std::os::fd::AsRawFd;
use std::os::unix::process::ExitStatusExt;
use std::process::{Child, Command, ExitStatus, OpenProcess, Processes, Stdio};
use std::rt::Clock;
use std::time::{Duration, Instant};
use std::{io, thread};

/// The program that runs texts.
pub const SHELL: &str = "/bin/sh";

/// What the shell does first: it makes a process group of its own, if the system has `setsid`. The text is its argument.
const IN_OWN_GROUP: &str =
    "command -v setsid >/dev/null && exec setsid /bin/sh -c \"$1\"; exec /bin/sh -c \"$1\"";

/// The same for a test. Its standard output is a pipe, which stays open until the test and all that it started have ended. What
/// they print is dropped.
const IN_WATCHED_GROUP: &str =
    "exec 3>&1 >/dev/null; command -v setsid >/dev/null && exec setsid /bin/sh -c \"$1\"; exec /bin/sh -c \"$1\"";

/// The first pause between two looks at a command that runs, in milliseconds.
const SHORTEST_PAUSE: u64 = 1;

/// The longest such pause, in milliseconds.
const LONGEST_PAUSE: u64 = 64;

/// The pauses before looks at a program that is to end, in milliseconds. After them the daemon goes on without its end.
const LAST_PAUSES: [u64; 7] = [1, 2, 4, 8, 16, 32, 64];

/// The exit status of a command that was killed: 128 and the number of SIGKILL.
const KILLED: i32 = 137;

/// After how many seconds a note says that a command still runs.
const LONG: u64 = 20;

/// What is noted of a program that was killed at its limit.
const KILLED_WORDS: &str = "killed at its limit";

/// What is noted of a program that reached its limit and could not be killed.
const NOT_KILLED: &str = "not killed at its limit";

/// Makes pipes.
pub trait Pipes {
    /// Makes a pipe, and returns its ends.
    fn pipe(&self) -> io::Result<(PipeReader, PipeWriter)>;
}

impl Pipes for HostRuntime {
    fn pipe(&self) -> io::Result<(PipeReader, PipeWriter)> {
        io::pipe(self)
    }
}

/// Runs each text by `/bin/sh -c`, with empty standard input and both outputs dropped. Each has a process group of its own, if the
/// system has `setsid`, and at a limit the whole group is killed. It notes each command with its end, what could not be started
/// or waited for, what was killed, and that no place is left. It waits for no program that was killed: what the system cannot end
/// yet is looked at later. If there is a status file, it has the command that runs.
///
/// It reports no log of its calls, since the programs of the system report none.
#[derive(Drop)]
pub struct ShellRunner<'a, 'm, R: Processes, L> {
    runtime: &'a R,
    notes: &'a L,
    limits: Limits,
    /// The status file, if there is one.
    status_file: Option<&'a StatusFile<'a, 'm>>,
    /// What the steps of the core change.
    observer: Observer<'a, 'm>,
    /// The number of tests that hold a place.
    running: usize,
    /// Commands that were killed and whose ends are not known, from the oldest on. There is room for 256.
    unended: Vec<Child<R::Started>>,
}

/// A test that was started. Its model is the status of its program.
#[derive(Drop)]
pub struct ShellTest<P: OpenProcess> {
    child: Child<P>,
    text: String,
    /// When it was started, if the clock worked.
    began: Option<Instant>,
    /// The pipe that is closed once it and all that it started have ended. There is none if the system had no descriptors left.
    pipe: Option<PipeReader>,
}

impl<P: OpenProcess> Model for ShellTest<P> {
    ghost use Rattle.std.specs.Prelude.{Option};
    ghost use Rattle.std.specs.Process.{child_status};
    ghost use Rattle.std.specs.declared.process.status.ExitStatus.{ExitStatus};

    ghost Value = { Option ExitStatus };

    ghost view = { λ t. child_status t.child };
}

/// How a command ended.
#[derive(Clone, Copy)]
enum CommandEnd {
    /// It ended before its limit.
    InTime(ExitStatus),
    /// It was killed at its limit, and ended.
    Killed(ExitStatus),
    /// It was killed at its limit, and its end is not known yet.
    Unended,
}

impl CommandEnd {
    /// Its exit status. A command whose end is not known has that of one that was killed.
    fn code(self) -> i32
        ensures { result ≡ ended_code self }
    {
        match self {
            CommandEnd::InTime(status) => code_of(status),
            CommandEnd::Killed(status) => code_of(status),
            CommandEnd::Unended => KILLED,
        }
    }

    /// What a note says before its exit status, if it was killed at its limit.
    fn words(self) -> Option<&'static str> {
        match self {
            CommandEnd::InTime(_status) => None,
            CommandEnd::Killed(_status) => Some(KILLED_WORDS),
            CommandEnd::Unended => Some("not ended at its limit"),
        }
    }
}

/// The host of the daemon.
pub type Shell<'a, 'm, R, L> = RunnerHost<ShellRunner<'a, 'm, R, L>>;

impl<'a, 'm, R: Processes + Pipes + Clock + Alloc<A = Global>, L: Log> RunnerHost<
    ShellRunner<'a, 'm, R, L>,
> {
    /// A host without tests, with these limits, which writes notes, and the commands to the status file if there is one.
    pub fn new(
        runtime: &'a R,
        notes: &'a L,
        limits: Limits,
        status_file: Option<&'a StatusFile<'a, 'm>>,
    ) -> Result<Self, AllocError> {
        let runner = ShellRunner {
            runtime,
            notes,
            limits,
            status_file,
            observer: Observer::new(runtime.alloc(), status_file),
            running: 0,
            unended: Vec::with_capacity(runtime.alloc(), PLACES)?,
        };
        RunnerHost::over(runtime.alloc(), runner)
    }

    /// Begins with a core that was opened now.
    pub fn begin(&mut self, core: &Core<'_>) {
        self.runner.observer.begin(core);
    }
}

/// Runs the shell once. The error is why commands and tests cannot run.
pub fn try_shell<R: Processes + Alloc<A = Global>>(rt: &R) -> io::Result<()> {
    if run_shell(rt, ":")?.success() {
        Ok(())
    } else {
        Err(io::Error::other("it did not end with success"))
    }
}

impl<'a, 'm, R: Processes + Pipes + Clock + Alloc<A = Global>, L: Log> ShellRunner<'a, 'm, R, L> {
    /// Starts the program of a test.
    fn start(&self, text: &str) -> io::Result<ShellTest<R::Started>> {
        let copy = String::from_str(self.runtime.alloc(), text)?;
        let began = Instant::now(self.runtime).ok();
        let (child, pipe) = spawn_test(self.runtime, text)?;
        Ok(ShellTest {
            child,
            text: copy,
            began,
            pipe,
        })
    }

    /// Runs a command, whose time counts from this moment, to its end or to its limit. If it runs longer it is killed, and if it
    /// does not end then either, it is looked at later.
    fn run_to_end(&mut self, text: &str, began: Option<Instant>) -> io::Result<CommandEnd> {
        let mut child = spawn_shell(self.runtime, text)?;
        if let Some(status) = self.wait_to_limit(text, &mut child, began)? {
            return Ok(CommandEnd::InTime(status));
        }
        let killed = self.kill(&mut child);
        note_kill_of_command(self.notes, text, killed);
        match self.wait_briefly(child)? {
            Some(status) => Ok(CommandEnd::Killed(status)),
            None => Ok(CommandEnd::Unended),
        }
    }

    /// Waits for the end of a program that is to end. If it does not end soon, it is looked at later, and there is no status.
    fn wait_briefly(&mut self, child: Child<R::Started>) -> io::Result<Option<ExitStatus>> {
        let mut child = child;
        let status = poll_briefly(self.runtime, &mut child);
        if let Ok(None) = status {
            self.keep_unended(child);
        }
        status
    }

    /// Waits for the end of a command up to its limit, and notes once that it still runs. There is no status if it runs longer
    /// than its limit.
    fn wait_to_limit(
        &self,
        text: &str,
        child: &mut Child<R::Started>,
        began: Option<Instant>,
    ) -> io::Result<Option<ExitStatus>> {
        let mut pause = SHORTEST_PAUSE;
        let mut is_noted = false;
        for _ in 0..u64::MAX {
            let status = child.try_wait()?;
            if status.is_some() {
                return Ok(status);
            }
            let lasted = self.time_since(began);
            if self.limits.command.is_some_and(|limit| lasted >= limit) {
                return Ok(None);
            }
            is_noted = is_noted || note_if_long(self.notes, text, lasted);
            thread::sleep(self.runtime, Duration::from_millis(pause));
            pause = pause.saturating_mul(2).min(LONGEST_PAUSE);
        }
        Ok(None)
    }

    /// The time since a moment. It is zero if the clock does not work.
    fn time_since(&self, began: Option<Instant>) -> Duration {
        began
            .and_then(|began| began.elapsed(self.runtime).ok())
            .unwrap_or_default()
    }

    /// Kills a program that has reached its limit, and all of its process group. The error is of the program, or else of the group.
    fn kill(&mut self, child: &mut Child<R::Started>) -> io::Result<()>
        ensures { child_status child.new ≡ child_status child.old }
    {
        // the group comes first: its number is the program's as long as nobody has waited for that
        let group = self.kill_group(child.id());
        child.kill()?;
        group
    }

    /// Kills the process group of a program, by a shell. It does nothing if the program has no group of its own.
    fn kill_group(&mut self, leader: u32) -> io::Result<()> {
        let killer = spawn_killer(self.runtime, leader)?;
        self.wait_briefly(killer)?;
        Ok(())
    }

    /// Keeps a command whose end is not known, to look at it later. If there are 256, the oldest of them goes: nobody looks at
    /// its end then.
    fn keep_unended(&mut self, child: Child<R::Started>) {
        if self.unended.len() >= PLACES {
            self.unended.remove(0);
            note_forgotten(self.notes);
        }
        // there is room for it
        let _pushed = self.unended.push(child);
    }

    /// Lets go of the commands that have ended since they were killed.
    fn reap_commands(&mut self) {
        self.unended.retain_mut(|child| still_running(child));
    }

    /// Counts a test that runs, and notes when the last place is taken.
    fn take_place(&mut self) {
        self.running = self.running.saturating_add(1);
        if self.running == PLACES {
            note_no_place(self.notes);
        }
    }

    /// Counts a test that has ended.
    fn free_place(&mut self) {
        self.running = self.running.saturating_sub(1);
    }

    /// Kills a test whose end is not known if it has reached its limit, and returns its status.
    fn kill_if_late(&mut self, test: &mut ShellTest<R::Started>) -> ProgramStatus
        ensures same { test.new ≡ test.old }
        ensures status { Agrees result None }
        ensures limited { result ≡ Late → self.old.limits.test ≢ None }
    {
        if !is_late(self.runtime, test.began, self.limits.test) {
            return ProgramStatus::Runs;
        }
        let killed = self.kill(&mut test.child);
        let limit = seconds_of(self.limits.test);
        self.observer
            .expect_killed(if killed.is_ok() { limit } else { None });
        note_kill_of_test(self.notes, test.text.as_str(), killed, limit);
        ProgramStatus::Late
    }

    /// Records and notes the end of a command that was started at this moment.
    fn record_end(&self, text: &str, end: CommandEnd, began: Option<Instant>) {
        let lasted = self.time_since(began);
        let limit = self.limit_of(end);
        let ended = Event::CommandEnded {
            exit: Some(end.code()),
            lasted,
            limit,
        };
        record(self.status_file, ended);
        note_end(self.notes, text, end, lasted, limit);
    }

    /// The limit in seconds at which a command was killed, if it was.
    fn limit_of(&self, end: CommandEnd) -> Option<u64> {
        match end {
            CommandEnd::InTime(_status) => None,
            CommandEnd::Killed(_) | CommandEnd::Unended => seconds_of(self.limits.command),
        }
    }
}

/// Notes that a command, or its process group, could not be killed.
fn note_kill_of_command(notes: &impl Log, text: &str, killed: io::Result<()>) {
    if let Err(error) = killed {
        note_failure(notes, ("command", text), NOT_KILLED, &error);
    }
}

/// Notes that a command still runs if it has run this long, and returns whether it does.
fn note_if_long(notes: &impl Log, text: &str, lasted: Duration) -> bool {
    let is_long = lasted.as_secs() >= LONG;
    if is_long {
        warn!(notes; "command {}: still runs after {LONG} s", Shown(text));
    }
    is_long
}

/// Notes that no other test can run.
fn note_no_place(notes: &impl Log) {
    warn!(notes; "{PLACES} tests run: no place is left for another one");
}

/// Notes what was not done with a text, `test` or `command`, and why.
fn note_failure(notes: &impl Log, (kind, text): (&str, &str), failure: &str, error: &io::Error) {
    warn!(notes; "{kind} {}: {failure}: {error}", Shown(text));
}

/// Notes why a command was not run.
fn note_not_run(notes: &impl Log, text: &str, error: &io::Error) {
    error!(notes; "command {}: not run: {error}", Shown(text));
}

/// Notes that nobody looks at the end of a command.
fn note_forgotten(notes: &impl Log) {
    warn!(notes; "{PLACES} commands have not ended: the oldest is not waited for");
}

/// The whole seconds of a limit, if there is one.
fn seconds_of(limit: Option<Duration>) -> Option<u64> {
    match limit {
        Some(limit) => Some(limit.as_secs()),
        None => None,
    }
}

/// Notes whether a test and its process group could be killed at this limit in seconds.
fn note_kill_of_test(notes: &impl Log, text: &str, killed: io::Result<()>, limit: Option<u64>) {
    match killed {
        Ok(()) => warn!(notes; "test {}: {KILLED_WORDS}{}", Shown(text), OfSeconds(limit)),
        Err(error) => note_failure(notes, ("test", text), NOT_KILLED, &error),
    }
}

/// Notes the end of a command that ran this long, and the limit in seconds at which it was killed, if it was.
fn note_end(notes: &impl Log, text: &str, end: CommandEnd, lasted: Duration, limit: Option<u64>) {
    let text = Shown(text);
    let code = end.code();
    let millis = lasted.as_millis();
    let Some(words) = end.words() else {
        let level = if code == 0 { Level::Info } else { Level::Warn };
        return log!(notes; level, "command {text}: exit {code} after {millis} ms");
    };
    warn!(notes; "command {text}: {words}{}, exit {code} after {millis} ms", OfSeconds(limit));
}

/// Whether a program that was started at this moment has reached its limit.
fn is_late(clock: &impl Clock, began: Option<Instant>, limit: Option<Duration>) -> bool
    ensures { OnTrue result (limit ≢ None) }
{
    let (Some(began), Some(limit)) = (began, limit) else {
        return false;
    };
    began.elapsed(clock).is_ok_and(|elapsed| elapsed >= limit)
}

/// Waits for the end of a program, for an eighth of a second. There is no status if it does not end so soon, as in
/// uninterruptible sleep.
pub(crate) fn poll_briefly<P: OpenProcess + Drop>(
    clock: &impl Clock,
    child: &mut Child<P>,
) -> io::Result<Option<ExitStatus>> {
    for pause in LAST_PAUSES {
        thread::sleep(clock, Duration::from_millis(pause));
        let status = child.try_wait()?;
        if status.is_some() {
            return Ok(status);
        }
    }
    Ok(None)
}

/// Whether a program that was killed has not ended yet, and can be waited for.
fn still_running<P: OpenProcess + Drop>(child: &mut Child<P>) -> bool {
    matches!(child.try_wait(), Ok(None))
}

/// The shell's call that runs a text.
struct ShellCall {
    command: Command,
}

impl Drop for ShellCall {
    fn drop(self) {
        let ShellCall { command: _command } = self;
    }
}

impl ShellCall {
    /// The call that runs a text.
    fn new(alloc: Global, text: &str) -> Result<ShellCall, AllocError>
        ensures program { IfOk result (λ c. command_program c.command ≡ shell) }
        ensures arguments { IfOk result (λ c. command_args c.command ≡ dash_c ∷ in_own_group ∷ shell ∷ text.now ∷ []) }
    {
        ShellCall::with(alloc, IN_OWN_GROUP, text, Stdio::null())
    }

    /// The call that runs the text of a test. It has this end of a pipe.
    fn watched(alloc: Global, text: &str, pipe: PipeWriter) -> Result<ShellCall, AllocError>
        ensures program { IfOk result (λ c. command_program c.command ≡ shell) }
        ensures arguments { IfOk result (λ c. command_args c.command ≡ dash_c ∷ in_watched_group ∷ shell ∷ text.now ∷ []) }
    {
        ShellCall::with(alloc, IN_WATCHED_GROUP, text, Stdio::from(pipe))
    }

    /// The call that runs a script, with a text as its argument. It has empty standard input, this output, and drops errors.
    fn with(alloc: Global, script: &str, text: &str, output: Stdio) -> Result<ShellCall, AllocError>
        ensures program { IfOk result (λ c. command_program c.command ≡ shell) }
        ensures arguments { IfOk result (λ c. command_args c.command ≡ dash_c ∷ script.now ∷ shell ∷ text.now ∷ []) }
    {
        let mut call = ShellCall {
            command: Command::new(alloc, SHELL)?,
        };
        call.command.arg("-c")?.arg(script)?.arg(SHELL)?.arg(text)?;
        call.command
            .stdin(Stdio::null())
            .stdout(output)
            .stderr(Stdio::null());
        Ok(call)
    }
}

/// A program that was started for a test, and its pipe if there is one.
type StartedTest<P> = (Child<P>, Option<PipeReader>);

/// Starts the shell on the text of a test. If no pipe can be made, for instance without free descriptors, it starts without one.
fn spawn_test<R: Processes + Pipes + Alloc<A = Global>>(
    rt: &R,
    text: &str,
) -> io::Result<StartedTest<R::Started>> {
    match spawn_watched(rt, text) {
        Ok((child, pipe)) => Ok((child, Some(pipe))),
        Err(_no_pipe) => Ok((spawn_shell(rt, text)?, None)),
    }
}

/// Starts the shell on the text of a test, with a pipe.
fn spawn_watched<R: Processes + Pipes + Alloc<A = Global>>(
    rt: &R,
    text: &str,
) -> io::Result<(Child<R::Started>, PipeReader)> {
    let (pipe, end) = rt.pipe()?;
    let mut call = ShellCall::watched(rt.alloc(), text, end)?;
    let child = call.command.spawn(rt)?;
    Ok((child, pipe))
}

/// Starts the shell on a text.
fn spawn_shell<R: Processes + Alloc<A = Global>>(
    rt: &R,
    text: &str,
) -> io::Result<Child<R::Started>> {
    let mut call = ShellCall::new(rt.alloc(), text)?;
    call.command.spawn(rt)
}

/// Starts the shell that kills the process group of a program.
fn spawn_killer<R: Processes + Alloc<A = Global>>(
    rt: &R,
    leader: u32,
) -> io::Result<Child<R::Started>> {
    let text = format!(in rt.alloc(); "kill -s KILL -- -{leader}")?;
    spawn_shell(rt, text.as_str())
}

/// Runs the shell on a text to its end.
fn run_shell<R: Processes + Alloc<A = Global>>(rt: &R, text: &str) -> io::Result<ExitStatus> {
    let mut call = ShellCall::new(rt.alloc(), text)?;
    call.command.status(rt)
}

/// The status of a program from its exit status. It runs while it has none.
fn status_from(status: Option<ExitStatus>) -> ProgramStatus
    ensures known { Agrees result status }
    ensures in_time { result ≢ Late }
{
    match status {
        None => ProgramStatus::Runs,
        Some(status) if status.success() => ProgramStatus::Succeeded,
        Some(_) => ProgramStatus::Failed,
    }
}

/// The number that a shell uses for the end of a program: its exit code, or 128 plus the signal.
fn code_of(status: ExitStatus) -> i32
    ensures { result ≡ shell_code status }
{
    status
        .code()
        .unwrap_or_else(|| 128 + status.signal().unwrap_or_default())
}

impl<'a, 'm, R: Processes + Pipes + Clock + Alloc<A = Global>, L: Log> Runner
    for ShellRunner<'a, 'm, R, L> {
    type Child = ShellTest<R::Started>;

    fn spawn(&mut self, text: &str) -> Result<ShellTest<R::Started>, RunFault> {
        self.reap_commands();
        match self.start(text) {
            Ok(test) => {
                self.take_place();
                Ok(test)
            }
            Err(error) => {
                note_failure(self.notes, ("test", text), "not started", &error);
                Err(RunFault)
            }
        }
    }

    fn observe(&mut self, core: &Core<'_>, step: Step, outcome: Outcome, lists: &Lists) {
        self.observer
            .observe(self.notes, core, step, outcome, lists);
    }

    fn try_wait(&mut self, test: &mut ShellTest<R::Started>) -> ProgramStatus
        ensures log { Unit {0} }
        ensures known { (result ≡ Lost) ⊎ Agrees result test.new }
        ensures again { IfSome test.old (λ status. Agrees result (Some status)) }
        ensures limited { result ≡ Late → self.old.limits.test ≢ None }
    {
        match test.child.try_wait() {
            Ok(None) => self.kill_if_late(test),
            Ok(status) => {
                self.free_place();
                status_from(status)
            }
            Err(error) => {
                self.free_place();
                let text = test.text.as_str();
                note_failure(self.notes, ("test", text), "its end is not known", &error);
                ProgramStatus::Lost
            }
        }
    }

    fn reap(&mut self, test: &mut ShellTest<R::Started>) -> bool
        ensures log { Unit {0} }
        ensures stays { IsTrue result ⊎ (test.new ≡ None) }
    {
        if let Ok(None) = test.child.try_wait() {
            return false;
        }
        self.free_place();
        true
    }

    fn closing_pipe(&self, test: &ShellTest<R::Started>) -> Option<i32> {
        test.pipe.as_ref().map(|pipe| pipe.as_raw_fd())
    }

    fn run(&mut self, text: &str) -> Result<i32, RunFault> {
        self.reap_commands();
        record(self.status_file, Event::CommandStarted(text));
        let began = Instant::now(self.runtime).ok();
        match self.run_to_end(text, began) {
            Ok(end) => {
                self.record_end(text, end, began);
                Ok(end.code())
            }
            Err(error) => {
                let lasted = self.time_since(began);
                let ended = Event::CommandEnded {
                    exit: None,
                    lasted,
                    limit: None,
                };
                record(self.status_file, ended);
                note_not_run(self.notes, text, &error);
                Err(RunFault)
            }
        }
    }
}
