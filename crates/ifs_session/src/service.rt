//! One served connection: requests of a client, ends of tests, and commands, in one order.

ghost use Rattle.std.specs.Prelude.{◌≡◌, ◌≢◌, ◌+◌, ◌-◌, ◌<◌, ◌≤◌, [], List, All, length, None, Some, IfOk};
ghost use Rattle.std.specs.Prelude.{IfSome, IsOk, MatchResult};
ghost use Rattle.ifs_core.specs.Event.{Behaviour};
ghost use Rattle.ifs_core.specs.Machine.{IsBehaviour};
ghost use Rattle.ifs_core.specs.Gateway.{IsReplyOf};
ghost use Rattle.ifs_core.specs.Steps.{turn, reply_of, replies, after_steps};
ghost use Rattle.ifs_session.specs.Device.{HoldsNothing, PutGives};
ghost use Rattle.ifs_session.specs.Hosts.{Ending, Adds, polled};
ghost use Rattle.ifs_session.specs.Accounts.{acted, runs_ended, heard_out, step_asked};
ghost use Rattle.ifs_session.specs.Accounts.{told_line, answered};
ghost use Rattle.ifs_session.specs.Service.{ConnectionGives, leave_of};
ghost use Rattle.ifs_session.specs.Replies.{reply_line};
ghost use Rattle.ifs_session.specs.Sessions.{is_stop};
ghost use Rattle.ifs_session.specs.inner.Parsing.{told_by};
ghost use Rattle.ifs_session.specs.inner.Connections.{Carries, HasFollowed, ExchangeGives, FlushGives, end_of, stops_by};

use crate::device::{ByteIn, ByteOut, DeviceFault};
use crate::fault::SessionFault;
use crate::host::Host;
use crate::lines::next_line;
use crate::making::{Made, make};
use crate::question::put_reply_to;
use crate::queue::empty_queue;
use crate::replies::{put_fault, put_reply};
use crate::request::{Request, RequestFault};
use crate::session::INPUT;
use arrayvec::ArrayVec;
use ifs_base::TestId;
use ifs_core::{Core, Lists, Reply, Step};

/// The most steps of a connection.
pub(crate) const STEPS: usize = 512;

/// The most steps that one step needs, with the taking of all commands after it.
const PLACES_OF_STEP: usize = 65;

/// Why a connection ended.
#[derive(Clone, Copy, Debug, PartialEq, Eq)]
pub enum End {
    /// The input ended.
    Closed,
    /// The last line was `stop`.
    Stop,
    /// The last line was `reload`. Nothing was written for it. The caller reads the image again and writes the reply, as
    /// with `write_reloaded`.
    Reload,
    /// There was room for fewer than 65 more steps.
    Full,
    /// A read or a write failed, or the input was too long.
    Fault(SessionFault),
}

/// How a connection went.
#[derive(Debug, Drop)]
pub struct Served {
    /// The steps that were made, in order.
    pub steps: ArrayVec<Step, STEPS>,
    /// Why it ended.
    pub end: End,
    /// Whether the last line was `stop`, also if its reply could not be written.
    pub stopped: bool,
}

/// Serves one connection. It first empties the queue: it takes each command, and the host runs its text. Then it serves one
/// request line after another, each in these parts:
///
/// 1. It polls the host while the host reports ends of tests and there is room for at least 130 steps. Each end becomes a
///    step, after which the queue is emptied.
/// 2. It makes the step of the line, starts the step's tests at the host, and empties the queue.
/// 3. It writes the reply, which is flushed before the next line is waited for.
///
/// A client cannot take commands or report results of tests: `take` and `result` are not requests here.
///
/// The connection ends at the end of input, and with `stop` once its reply has gone out. It ends with `reload`: the host is
/// polled as before other lines, no step is made, and nothing is written. It ends after a line that leaves room for fewer
/// than 65 steps, if a read or a write fails, and if there is a byte 16,777,217. Nothing after its last line is read. A line
/// `reload` that was read always ends it with `End::Reload`: no write that could fail comes after it.
pub fn serve_one<H: Host, R: ByteIn, W: ByteOut>(
    core: &mut Core<'_>,
    host: &mut H,
    reader: &mut R,
    writer: &mut W,
) -> Served
    ensures image { core.new.image ≡ core.old.image }
    // The core has made exactly these steps, and the reply to none of them is `Busy`.
    ensures made { (b : Behaviour) → IsBehaviour core.old.image b → core.new.state ≡ after_steps b core.old.image.budgets.commands result.steps.items core.old.state }
    ensures never_busy { (b : Behaviour) → IsBehaviour core.old.image b → All (λ reply. reply ≢ Reply.Busy) (replies b core.old.image.budgets.commands result.steps.items core.old.state) }
    ensures full { result.end ≡ End.Full → 447 < length result.steps.items }
    ensures connection { (b : Behaviour) → IsBehaviour core.old.image b → ConnectionGives b result.end result.stopped result.steps.items (H.told host.old) (H.told host.new)
        (record { core = core.old; left = R.left reader.old; written = W.written writer.old; read_faults = R.faults reader.old; write_faults = W.faults writer.old })
        (record { core = core.new; left = R.left reader.new; written = W.written writer.new; read_faults = R.faults reader.new; write_faults = W.faults writer.new }) }
    ensures out { result.end ≢ End.Fault SessionFault.WriteFailed → HoldsNothing (W.held writer.new) }
{
    let mut steps = ArrayVec::new();
    let close = serve_lines(core, host, reader, writer, &mut steps);
    Served {
        steps,
        end: close.end,
        stopped: close.stopped,
    }
}

/// How a connection ended.
#[derive(Clone, Copy, PartialEq, Eq)]
pub(crate) struct Close {
    /// Why it ended.
    pub end: End,
    /// Whether the last line was `stop`.
    pub stopped: bool,
}

/// Why the next line was not served.
#[derive(Clone, Copy, PartialEq, Eq)]
pub(crate) struct Break {
    /// What failed.
    pub fault: SessionFault,
    /// Whether the line was read and was `stop`.
    pub stopped: bool,
}

/// What follows a line.
#[derive(Clone, Copy, PartialEq, Eq)]
pub(crate) enum Leave {
    /// The connection goes on, as after all lines except `stop` and `reload`.
    Stays,
    /// The connection and the service end.
    Stops,
    /// The connection ends, and the image is read again.
    Reloads,
}

impl Leave {
    /// Whether the service ends.
    fn is_stop(self) -> bool
        ensures { result ≡ stops_by self }
    {
        matches!(self, Leave::Stops)
    }
}

/// A line that was served.
#[derive(Clone, Copy, PartialEq, Eq)]
pub(crate) struct ServedLine {
    /// What follows it.
    pub leave: Leave,
    /// Whether a newline ends it. Otherwise the input ends it.
    pub is_ended: bool,
}

/// Serves the lines of a connection, and appends the steps.
fn serve_lines<H: Host, R: ByteIn, W: ByteOut>(
    core: &mut Core<'_>,
    host: &mut H,
    reader: &mut R,
    writer: &mut W,
    steps: &mut ArrayVec<Step, STEPS>,
) -> Close
    requires { steps.old.items ≡ [] }
    ensures image { core.new.image ≡ core.old.image }
    ensures full { result.end ≡ End.Full → 447 < length steps.new.items }
    ensures connection { (b : Behaviour) → IsBehaviour core.old.image b → ConnectionGives b result.end result.stopped steps.new.items (H.told host.old) (H.told host.new)
        (record { core = core.old; left = R.left reader.old; written = W.written writer.old; read_faults = R.faults reader.old; write_faults = W.faults writer.old })
        (record { core = core.new; left = R.left reader.new; written = W.written writer.new; read_faults = R.faults reader.new; write_faults = W.faults writer.new }) }
    ensures out { result.end ≢ End.Fault SessionFault.WriteFailed → HoldsNothing (W.held writer.new) }
{
    core.image();
    empty_queue(core, host, steps);
    let mut lists = Lists::new();
    let mut budget = INPUT;
    'exchanges: loop {
        let line = match next_exchange(core, host, &mut lists, steps, reader, writer, &mut budget) {
            Err(broken) => {
                return Close {
                    end: End::Fault(broken.fault),
                    stopped: broken.stopped,
                };
            }
            Ok(None) => {
                return Close {
                    end: End::Closed,
                    stopped: false,
                };
            }
            Ok(Some(line)) => line,
        };
        if let Some(end) = end_after(line, steps.len()) {
            return Close {
                end: flushed(writer, end),
                stopped: line.leave.is_stop(),
            };
        }
    }
}

/// The end after a line when `steps` steps have been made. It is `None` if the connection goes on.
fn end_after(line: ServedLine, steps: usize) -> Option<End>
    requires { steps ≤ 512 }
    ensures { result ≡ end_of line steps }
{
    match line.leave {
        Leave::Stops => Some(End::Stop),
        Leave::Reloads => Some(End::Reload),
        Leave::Stays if STEPS - steps < PLACES_OF_STEP => Some(End::Full),
        Leave::Stays if line.is_ended => None,
        Leave::Stays => Some(End::Closed),
    }
}

/// Flushes the writer and returns the end. At a reload the writer holds nothing back, and is not used.
fn flushed<W: ByteOut>(writer: &mut W, end: End) -> End
    requires { end ≡ End.Reload → HoldsNothing (W.held writer.old) }
    ensures ends { FlushGives end result (W.written writer.old) (W.written writer.new) (W.faults writer.old) (W.faults writer.new) }
    ensures out { result ≢ End.Fault SessionFault.WriteFailed → HoldsNothing (W.held writer.new) }
{
    if let End::Reload = end {
        return end;
    }
    match writer.flush() {
        Ok(()) => end,
        Err(_) => End::Fault(SessionFault::WriteFailed),
    }
}

/// Flushes the writer, reads the next line, and serves it.
fn next_exchange<H: Host, R: ByteIn, W: ByteOut>(
    core: &mut Core<'_>,
    host: &mut H,
    lists: &mut Lists,
    steps: &mut ArrayVec<Step, STEPS>,
    reader: &mut R,
    writer: &mut W,
    budget: &mut u32,
) -> Result<Option<ServedLine>, Break>
    requires { length steps.old.items + 65 ≤ 512 }
    ensures image { core.new.image ≡ core.old.image }
    ensures exchange { (b : Behaviour) → IsBehaviour core.old.image b → ExchangeGives b result
        (record { moment = record { core = core.old; left = R.left reader.old; written = W.written writer.old; read_faults = R.faults reader.old; write_faults = W.faults writer.old }; budget = budget.old; steps = steps.old.items; told = H.told host.old })
        (record { moment = record { core = core.new; left = R.left reader.new; written = W.written writer.new; read_faults = R.faults reader.new; write_faults = W.faults writer.new }; budget = budget.new; steps = steps.new.items; told = H.told host.new }) }
    ensures counts { IfOk result (λ next. IfSome next (λ _. budget.new < budget.old)) }
    ensures reloads { IfOk result (λ next. IfSome next (λ line. line.leave ≡ Leave.Reloads → HoldsNothing (W.held writer.new))) }
    ensures out { MatchResult result (λ next. next ≡ None → HoldsNothing (W.held writer.new)) (λ broken. broken.fault ≢ SessionFault.WriteFailed → HoldsNothing (W.held writer.new)) }
    ensures few { length steps.new.items ≤ 512 }
{
    let Ok(()) = writer.flush() else {
        return Err(Break {
            fault: SessionFault::WriteFailed,
            stopped: false,
        });
    };
    let line = match next_line(reader, budget) {
        Err(fault) => {
            return Err(Break {
                fault,
                stopped: false,
            });
        }
        Ok(None) => return Ok(None),
        Ok(Some(line)) => line,
    };
    apply_test_results(core, host, lists, steps);
    let asked = line.client_request();
    match answer(core, host, lists, steps, writer, asked) {
        Ok(()) => Ok(Some(ServedLine {
            leave: leave_asked(asked),
            is_ended: line.is_ended,
        })),
        Err(_) => Err(unanswered(asked)),
    }
}

/// The failure to write the reply to a line.
fn unanswered(asked: Result<Request<'_>, RequestFault>) -> Break
    ensures { result ≡ record { fault = SessionFault.WriteFailed; stopped = is_stop (told_by asked.entry) } }
{
    Break {
        fault: SessionFault::WriteFailed,
        stopped: asks_stop(asked),
    }
}

/// Applies the ends of tests that the host reports. Each becomes a step, after which the queue is emptied.
fn apply_test_results<H: Host>(
    core: &mut Core<'_>,
    host: &mut H,
    lists: &mut Lists,
    steps: &mut ArrayVec<Step, STEPS>,
)
    requires { length steps.old.items + 65 ≤ 512 }
    ensures image { core.new.image ≡ core.old.image }
    ensures room { length steps.new.items + 65 ≤ 512 }
    ensures heard { (b : Behaviour) → IsBehaviour core.old.image b → (endings : List Ending) × Carries (λ a. heard_out (runs_ended b core.old.image endings a))
        (record { state = core.old.state; steps = steps.old.items; told = H.told host.old })
        (record { state = core.new.state; steps = steps.new.items; told = H.told host.new }) }
{
    'endings: while let Some((test, run, value)) = next_ending(host, steps.len()) {
        let _made = make(core, host, lists, steps, Step::Finished(test, run, value));
    }
}

/// Polls the host if there is room for at least 130 steps after `steps`. Otherwise returns `None`.
fn next_ending<H: Host>(host: &mut H, steps: usize) -> Option<(TestId, u64, bool)>
    requires { steps ≤ 512 }
    ensures few { 512 - steps < 130 → result ≡ None }
    ensures unasked { 512 - steps < 130 → H.told host.new ≡ H.told host.old }
    ensures asked { 130 ≤ 512 - steps → Adds (polled result) (H.told host.old) (H.told host.new) }
{
    if STEPS - steps < 2 * PLACES_OF_STEP {
        return None;
    }
    host.poll()
}

/// Makes the step of a line, if it has one, and writes the reply. A reload has none.
fn answer<H: Host, W: ByteOut>(
    core: &mut Core<'_>,
    host: &mut H,
    lists: &mut Lists,
    steps: &mut ArrayVec<Step, STEPS>,
    writer: &mut W,
    asked: Result<Request<'_>, RequestFault>,
) -> Result<(), DeviceFault>
    requires { length steps.old.items + 65 ≤ 512 }
    ensures image { core.new.image ≡ core.old.image }
    ensures acts { (b : Behaviour) → IsBehaviour core.old.image b → Carries (acted b core.old.image (step_asked core.old.image (told_by asked.entry)))
        (record { state = core.old.state; steps = steps.old.items; told = H.told host.old })
        (record { state = core.new.state; steps = steps.new.items; told = H.told host.new }) }
    ensures replies { (b : Behaviour) → IsBehaviour core.old.image b
        → PutGives result (answered b core.old.image (told_by asked.entry) core.old.state) (W.written writer.old) (W.written writer.new) (W.faults writer.old) (W.faults writer.new) }
    ensures quiet { leave_of (told_by asked.entry) ≡ Leave.Reloads → IsOk result × (W.held writer.new ≡ W.held writer.old) }
    ensures few { length steps.new.items ≤ 512 }
{
    match step_of(core, asked) {
        None => tell(core, writer, asked),
        Some(step) => answer_step(core, host, lists, steps, writer, step),
    }
}

/// Makes a step, empties the queue, and then writes the reply.
fn answer_step<H: Host, W: ByteOut>(
    core: &mut Core<'_>,
    host: &mut H,
    lists: &mut Lists,
    steps: &mut ArrayVec<Step, STEPS>,
    writer: &mut W,
    step: Step,
) -> Result<(), DeviceFault>
    requires { length steps.old.items + 65 ≤ 512 }
    ensures image { core.new.image ≡ core.old.image }
    ensures acts { (b : Behaviour) → IsBehaviour core.old.image b → Carries (acted b core.old.image (Some step))
        (record { state = core.old.state; steps = steps.old.items; told = H.told host.old })
        (record { state = core.new.state; steps = steps.new.items; told = H.told host.new }) }
    ensures replies { (b : Behaviour) → IsBehaviour core.old.image b
        → PutGives result (reply_line core.old.image (turn b core.old.image.budgets.commands step core.old.state).reply) (W.written writer.old) (W.written writer.new) (W.faults writer.old) (W.faults writer.new) }
    ensures few { length steps.new.items ≤ 512 }
{
    let made = make(core, host, lists, steps, step);
    reply(core, host, lists, writer, made)
}

/// Writes the reply to a step, after the host started its tests and ran its commands.
fn reply<H: Host, W: ByteOut>(
    core: &Core<'_>,
    _host: &H,
    lists: &Lists,
    writer: &mut W,
    made: Made,
) -> Result<(), DeviceFault>
    requires follows { HasFollowed core.now.image (reply_of made.outcome lists.now) (H.told _host.now) }
    requires empty { core.now.state.queue ≡ [] }
    requires named { IsReplyOf core.now.image (reply_of made.outcome lists.now) }
    ensures { PutGives result (reply_line core.now.image (reply_of made.outcome lists.now)) (W.written writer.old) (W.written writer.new) (W.faults writer.old) (W.faults writer.new) }
{
    put_reply(writer, core, made, lists)
}

/// The step of a line, if it has one.
fn step_of(core: &Core<'_>, asked: Result<Request<'_>, RequestFault>) -> Option<Step>
    ensures { result ≡ step_asked core.now.image (told_by asked.entry) }
{
    match asked {
        Ok(Request::Link(name, link)) => {
            let interface = core.iface_of(name)?;
            Some(Step::Link(interface, link))
        }
        Ok(Request::Tick(now)) => Some(Step::Tick(now)),
        _ => None,
    }
}

/// Writes the reply to a line without a step. For a reload it writes nothing.
fn tell<W: ByteOut>(
    core: &Core<'_>,
    writer: &mut W,
    asked: Result<Request<'_>, RequestFault>,
) -> Result<(), DeviceFault>
    ensures replies { PutGives result (told_line core.now.image (told_by asked.entry) core.now.state) (W.written writer.old) (W.written writer.new) (W.faults writer.old) (W.faults writer.new) }
    ensures quiet { leave_of (told_by asked.entry) ≡ Leave.Reloads → IsOk result × (W.held writer.new ≡ W.held writer.old) }
{
    match asked {
        Ok(Request::Question(question)) => put_reply_to(writer, core, question),
        Ok(Request::Stop) => writer.put(b"bye\n"),
        Ok(Request::Reload) => Ok(()),
        Ok(Request::Link(..)) => put_fault(writer, RequestFault::NoInterface),
        Ok(Request::Tick(_) | Request::Take | Request::Result(..)) => {
            put_fault(writer, RequestFault::NoRequest)
        }
        Err(fault) => put_fault(writer, fault),
    }
}

/// What follows a line with this request.
fn leave_asked(asked: Result<Request<'_>, RequestFault>) -> Leave
    ensures { result ≡ leave_of (told_by asked.entry) }
{
    match asked {
        Ok(Request::Stop) => Leave::Stops,
        Ok(Request::Reload) => Leave::Reloads,
        _ => Leave::Stays,
    }
}

/// Whether a line is `stop`.
fn asks_stop(asked: Result<Request<'_>, RequestFault>) -> bool
    ensures { result ≡ is_stop (told_by asked.entry) }
{
    matches!(asked, Ok(Request::Stop))
}
