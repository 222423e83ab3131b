//! Sessions: request lines in, reply lines out.

ghost use Rattle.std.specs.Prelude.{◌≡◌, ◌≢◌, ◌+◌, ◌<◌, ◌^◌, None, Ok, Err, IfOk, IfSome, MatchResult};
ghost use Rattle.ifs_core.specs.Event.{Behaviour};
ghost use Rattle.ifs_core.specs.Machine.{IsBehaviour};
ghost use Rattle.ifs_session.specs.Device.{HoldsNothing};
ghost use Rattle.ifs_session.specs.Requests.{ALink};
ghost use Rattle.ifs_session.specs.inner.Parsing.{told_by};
ghost use Rattle.ifs_session.specs.Sessions.{deed, step_deed, SessionGives};
ghost use Rattle.ifs_session.specs.inner.Serving.{kind_of, with_request, ServeGives, NextServed};

use crate::device::{ByteIn, ByteOut, DeviceFault};
use crate::fault::SessionFault;
use crate::lines::{line_at_hand, next_line};
use crate::question::put_reply_to;
use crate::replies::{Answerable, put_fault, put_reply};
use crate::request::{Request, RequestFault, request_of};
use ifs_base::LinkState;
use ifs_core::{Core, Lists, Outcome, Step};

/// The most bytes of requests that a session or a connection reads.
pub(crate) const INPUT: u32 = 16_777_216;

/// How a session went that did not fail.
#[derive(Clone, Copy, Debug, PartialEq, Eq)]
pub struct Summary {
    /// How many lines were read.
    pub requests: u32,
    /// How many of them were steps.
    pub steps: u32,
    /// Whether the last line was `stop`.
    pub stopped: bool,
}

/// A step of a session. A session has no host, so nothing is done before its reply.
#[derive(Drop)]
struct WithoutHost {
    outcome: Outcome,
}

impl Answerable for WithoutHost {
    ghost outcome = { λ step. step.outcome };

    fn outcome(&self) -> Outcome
        ensures { result ≡ self.now.outcome }
    {
        self.outcome
    }
}

/// The kind of a line.
#[derive(Clone, Copy, PartialEq, Eq)]
pub(crate) enum LineKind {
    /// A step of the core.
    Step,
    /// A question, or a line that is refused.
    Other,
    /// The request `stop`.
    Stop,
}

/// A line that was served.
#[derive(Clone, Copy, PartialEq, Eq)]
pub(crate) struct Served {
    /// Its kind.
    pub kind: LineKind,
    /// Whether a newline ends it. Otherwise the input ends it.
    pub is_ended: bool,
}

/// Serves request lines until `stop` or the end of input: makes their steps and writes their replies, in order. Input after
/// `stop` is left unread. Each reply is flushed before the next line is waited for. The reply to `reload` is `fault C1`.
///
/// It fails if a read or a write fails, and if there is a byte 16,777,217. The core keeps the steps that were made. If a
/// read fails or the input is too long, the replies to the whole lines before have gone out. If a write fails, any part of
/// its reply may have gone out.
pub fn simulate<R: ByteIn, W: ByteOut>(
    core: &mut Core<'_>,
    reader: &mut R,
    writer: &mut W,
) -> Result<Summary, SessionFault>
    ensures session { (b : Behaviour) → IsBehaviour core.old.image b → SessionGives b result
        (record { core = core.old; left = R.left reader.old; written = W.written writer.old; read_faults = R.faults reader.old; write_faults = W.faults writer.old })
        (record { core = core.new; left = R.left reader.new; written = W.written writer.new; read_faults = R.faults reader.new; write_faults = W.faults writer.new }) }
    ensures out { result ≢ Err SessionFault.WriteFailed → HoldsNothing (W.held writer.new) }
{
    simulate_into(core, &mut Lists::new(), reader, writer)
}

/// Serves request lines as `simulate` does. The lists of each step are in a borrowed place, as with `Core::step_into`.
pub fn simulate_into<R: ByteIn, W: ByteOut>(
    core: &mut Core<'_>,
    lists: &mut Lists,
    reader: &mut R,
    writer: &mut W,
) -> Result<Summary, SessionFault>
    ensures session { (b : Behaviour) → IsBehaviour core.old.image b → SessionGives b result
        (record { core = core.old; left = R.left reader.old; written = W.written writer.old; read_faults = R.faults reader.old; write_faults = W.faults writer.old })
        (record { core = core.new; left = R.left reader.new; written = W.written writer.new; read_faults = R.faults reader.new; write_faults = W.faults writer.new }) }
    ensures out { result ≢ Err SessionFault.WriteFailed → HoldsNothing (W.held writer.new) }
{
    let mut summary = Summary {
        requests: 0,
        steps: 0,
        stopped: false,
    };
    let mut budget = INPUT;
    'lines: loop {
        let Some(served) = serve_next(core, lists, reader, writer, &mut budget)? else {
            return Ok(summary);
        };
        count(&mut summary, served.kind);
        if summary.stopped || !served.is_ended {
            let Ok(()) = writer.flush() else {
                return Err(SessionFault::WriteFailed);
            };
            return Ok(summary);
        }
    }
}

/// Serves the next line. Returns `None` at the end of input. A whole line at hand is served in place.
fn serve_next<R: ByteIn, W: ByteOut>(
    core: &mut Core<'_>,
    lists: &mut Lists,
    reader: &mut R,
    writer: &mut W,
    budget: &mut u32,
) -> Result<Option<Served>, SessionFault>
    ensures next { (b : Behaviour) → IsBehaviour core.old.image b → NextServed b result
        (record { core = core.old; left = R.left reader.old; written = W.written writer.old; read_faults = R.faults reader.old; write_faults = W.faults writer.old }) budget.old
        (record { core = core.new; left = R.left reader.new; written = W.written writer.new; read_faults = R.faults reader.new; write_faults = W.faults writer.new }) budget.new }
    ensures counts { IfOk result (λ next. IfSome next (λ _. budget.new < budget.old)) }
    ensures out { MatchResult result (λ next. next ≡ None → HoldsNothing (W.held writer.new)) (λ fault. fault ≢ SessionFault.WriteFailed → HoldsNothing (W.held writer.new)) }
{
    let Some(line) = line_at_hand(reader.peek(), *budget) else {
        return serve_read(core, lists, reader, writer, budget);
    };
    let length = line.len() + 1;
    let served = serve(core, lists, writer, request_of(line));
    reader.skip(length);
    *budget -= length as u32;
    match served {
        Ok(kind) => Ok(Some(Served {
            kind,
            is_ended: true,
        })),
        Err(_) => Err(SessionFault::WriteFailed),
    }
}

/// Flushes the writer, reads the next line byte by byte, and serves it. Returns `None` at the end of input.
#[cold]
#[inline(never)]
fn serve_read<R: ByteIn, W: ByteOut>(
    core: &mut Core<'_>,
    lists: &mut Lists,
    reader: &mut R,
    writer: &mut W,
    budget: &mut u32,
) -> Result<Option<Served>, SessionFault>
    ensures next { (b : Behaviour) → IsBehaviour core.old.image b → NextServed b result
        (record { core = core.old; left = R.left reader.old; written = W.written writer.old; read_faults = R.faults reader.old; write_faults = W.faults writer.old }) budget.old
        (record { core = core.new; left = R.left reader.new; written = W.written writer.new; read_faults = R.faults reader.new; write_faults = W.faults writer.new }) budget.new }
    ensures counts { IfOk result (λ next. IfSome next (λ _. budget.new < budget.old)) }
    ensures out { MatchResult result (λ next. next ≡ None → HoldsNothing (W.held writer.new)) (λ fault. fault ≢ SessionFault.WriteFailed → HoldsNothing (W.held writer.new)) }
{
    let Ok(()) = writer.flush() else {
        return Err(SessionFault::WriteFailed);
    };
    let Some(line) = next_line(reader, budget)? else {
        return Ok(None);
    };
    match serve(core, lists, writer, line.request()) {
        Ok(kind) => Ok(Some(Served {
            kind,
            is_ended: line.is_ended,
        })),
        Err(_) => Err(SessionFault::WriteFailed),
    }
}

/// Counts a line of this kind.
fn count(summary: &mut Summary, kind: LineKind)
    requires requests { summary.old.requests + 1 < 2 ^ 32 }
    requires steps { summary.old.steps + 1 < 2 ^ 32 }
    ensures { summary.new ≡ with_request kind summary.old }
{
    summary.requests += 1;
    match kind {
        LineKind::Step => summary.steps += 1,
        LineKind::Other => {}
        LineKind::Stop => summary.stopped = true,
    }
}

/// Serves the request of a line, and returns the kind of the line.
fn serve<W: ByteOut>(
    core: &mut Core<'_>,
    lists: &mut Lists,
    writer: &mut W,
    asked: Result<Request<'_>, RequestFault>,
) -> Result<LineKind, DeviceFault>
    ensures image { core.new.image ≡ core.old.image }
    ensures served { (b : Behaviour) → IsBehaviour core.old.image b
        → ServeGives (deed b core.old.image (told_by asked.entry) core.old.state) (kind_of core.old.image (told_by asked.entry)) result core.new.state
        (W.written writer.old) (W.written writer.new) (W.faults writer.old) (W.faults writer.new) }
{
    match asked {
        Err(fault) => {
            put_fault(writer, fault)?;
            Ok(LineKind::Other)
        }
        Ok(request) => serve_request(core, lists, writer, request),
    }
}

/// Serves a request, and returns the kind of its line.
fn serve_request<W: ByteOut>(
    core: &mut Core<'_>,
    lists: &mut Lists,
    writer: &mut W,
    request: Request<'_>,
) -> Result<LineKind, DeviceFault>
    ensures image { core.new.image ≡ core.old.image }
    ensures served { (b : Behaviour) → IsBehaviour core.old.image b
        → ServeGives (deed b core.old.image (told_by (Ok request.entry)) core.old.state) (kind_of core.old.image (told_by (Ok request.entry))) result core.new.state
        (W.written writer.old) (W.written writer.new) (W.faults writer.old) (W.faults writer.new) }
{
    match request {
        Request::Link(name, link) => serve_link(core, lists, writer, name, link),
        Request::Result(test, run, value) => make_step(
            core,
            lists,
            writer,
            Step::Finished(test, run, value),
        ),
        Request::Tick(now) => make_step(core, lists, writer, Step::Tick(now)),
        Request::Take => make_step(core, lists, writer, Step::Take),
        Request::Question(question) => {
            put_reply_to(writer, core, question)?;
            Ok(LineKind::Other)
        }
        Request::Stop => {
            writer.put(b"bye\n")?;
            Ok(LineKind::Stop)
        }
        Request::Reload => {
            put_fault(writer, RequestFault::NoRequest)?;
            Ok(LineKind::Other)
        }
    }
}

/// Serves the request that reports a link state.
fn serve_link<W: ByteOut>(
    core: &mut Core<'_>,
    lists: &mut Lists,
    writer: &mut W,
    name: &[u8],
    link: LinkState,
) -> Result<LineKind, DeviceFault>
    ensures image { core.new.image ≡ core.old.image }
    ensures served { (b : Behaviour) → IsBehaviour core.old.image b
        → ServeGives (deed b core.old.image (ALink name.now link) core.old.state) (kind_of core.old.image (ALink name.now link)) result core.new.state
        (W.written writer.old) (W.written writer.new) (W.faults writer.old) (W.faults writer.new) }
{
    match core.iface_of(name) {
        None => {
            put_fault(writer, RequestFault::NoInterface)?;
            Ok(LineKind::Other)
        }
        Some(interface) => make_step(core, lists, writer, Step::Link(interface, link)),
    }
}

/// Makes a step, whose lists go into `lists`, and writes its reply.
fn make_step<W: ByteOut>(
    core: &mut Core<'_>,
    lists: &mut Lists,
    writer: &mut W,
    step: Step,
) -> Result<LineKind, DeviceFault>
    ensures image { core.new.image ≡ core.old.image }
    ensures served { (b : Behaviour) → IsBehaviour core.old.image b
        → ServeGives (step_deed b core.old.image step core.old.state) LineKind.Step result core.new.state
        (W.written writer.old) (W.written writer.new) (W.faults writer.old) (W.faults writer.new) }
{
    let outcome = core.step_into(step, lists);
    put_reply(writer, core, WithoutHost { outcome }, lists)?;
    Ok(LineKind::Step)
}
