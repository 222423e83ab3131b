//! Reply lines, written in pieces without allocation.

ghost use Rattle.std.specs.Prelude.{◌≡◌, ◌<◌, decimal, map, length, IfErr, OnOk};
ghost use Rattle.std.specs.List.{flat_map};
ghost use Rattle.ifs_core.specs.Gateway.{IsListed, IsReplyOf};
ghost use Rattle.ifs_core.specs.Steps.{reply_of};
ghost use Rattle.ifs_core.specs.declared.step.Outcome.{Outcome};
ghost use Rattle.ifs_session.specs.Device.{HoldsNothing, PutGives};
ghost use Rattle.ifs_base.specs.Words.{listed, quoted};
ghost use Rattle.ifs_session.specs.Replies.{state_name, command_text, evaluation_words, start_word, starts_words};
ghost use Rattle.ifs_session.specs.Replies.{before_starts, taken_line, reply_line, status_numbers, status_line};
ghost use Rattle.ifs_session.specs.Replies.{yes_or_no, value_word, step_words, answer_word, answer_words, record_line};
ghost use Rattle.ifs_session.specs.Replies.{reloaded_line, trace_lines, fault_line};

use crate::device::{ByteOut, DeviceFault};
use crate::fault::SessionFault;
use crate::request::RequestFault;
use crate::words::{put_commands, put_number, put_numbered, put_quoted};
use ifs_base::{CommandId, StateId, link_word};
use ifs_core::{Answer, Core, Lists, Outcome, Record, Step};
use ifs_sched::Start;

/// Writes the name of a state in quotes.
fn put_state<W: ByteOut>(out: &mut W, core: &Core<'_>, state: StateId) -> Result<(), DeviceFault>
    requires { IsListed core.now.image state }
    ensures { PutGives result (quoted (state_name core.now.image state.0)) (W.written out.old) (W.written out.new) (W.faults out.old) (W.faults out.new) }
{
    let Some(name) = core.state_name(state) else {
        unreachable!()
    };
    put_quoted(out, name.as_bytes())
}

/// Writes the text of a command in quotes.
fn put_command<W: ByteOut>(
    out: &mut W,
    core: &Core<'_>,
    command: CommandId,
) -> Result<(), DeviceFault>
    requires { command.0 < length core.now.image.commands }
    ensures { PutGives result (quoted (command_text core.now.image command.0)) (W.written out.old) (W.written out.new) (W.faults out.old) (W.faults out.new) }
{
    let Some(text) = core.command_text(command) else {
        unreachable!()
    };
    put_quoted(out, text.as_bytes())
}

/// Writes the state, the cost and the queued commands of an evaluation.
#[tactic(auto, using(crate::proofs::Known::written_laws))]
fn put_evaluation<W: ByteOut>(
    out: &mut W,
    core: &Core<'_>,
    state: StateId,
    cost: u32,
    queued: &[CommandId],
) -> Result<(), DeviceFault>
    requires { IsListed core.now.image state }
    ensures { PutGives result (evaluation_words core.now.image state.0 cost queued.now) (W.written out.old) (W.written out.new) (W.faults out.old) (W.faults out.new) }
{
    put_state(out, core, state)?;
    put_numbered(out, b" cost ", u64::from(cost))?;
    out.put(b" queue ")?;
    put_commands(out, queued)?;
    Ok(())
}

/// Writes a test and the number of its run.
#[tactic(auto, using(crate::proofs::Known::written_laws))]
fn put_start<W: ByteOut>(out: &mut W, start: &Start) -> Result<(), DeviceFault>
    ensures { PutGives result (start_word start.now) (W.written out.old) (W.written out.new) (W.faults out.old) (W.faults out.new) }
{
    put_number(out, u64::from(start.test.0))?;
    put_numbered(out, b":", start.run)?;
    Ok(())
}

/// Writes the starts of a tick, separated by commas, or a dash if there are none.
#[tactic(auto, using(crate::proofs::Known::written_laws))]
fn put_start_list<W: ByteOut>(out: &mut W, starts: &[Start]) -> Result<(), DeviceFault>
    ensures { PutGives result (listed (map start_word starts.now)) (W.written out.old) (W.written out.new) (W.faults out.old) (W.faults out.new) }
{
    let Some((first, others)) = starts.split_first() else {
        return out.put(b"-");
    };
    put_start(out, first)?;
    for start in others {
        out.put(b",")?;
        put_start(out, start)?;
    }
    Ok(())
}

/// Writes the starts of a tick, and whether there was no run number left for a test that was due.
#[tactic(auto, using(crate::proofs::Known::written_laws))]
fn put_starts<W: ByteOut>(out: &mut W, starts: &[Start], exhausted: bool) -> Result<(), DeviceFault>
    ensures { PutGives result (starts_words starts.now exhausted) (W.written out.old) (W.written out.new) (W.faults out.old) (W.faults out.new) }
{
    out.put(b"starts ")?;
    put_start_list(out, starts)?;
    if exhausted {
        out.put(b" exhausted")?;
    }
    Ok(())
}

/// A step that was made, with all that has to be done before its reply is written. A reply is written from such a value alone.
pub(crate) trait Answerable: Drop {
    // What came of the step.
    ghost outcome: { Self → Outcome };

    /// What came of the step.
    fn outcome(&self) -> Outcome
        ensures { result ≡ outcome self.now };
}

/// Writes the reply line of a step.
pub(crate) fn put_reply<W: ByteOut, A: Answerable>(
    out: &mut W,
    core: &Core<'_>,
    step: A,
    lists: &Lists,
) -> Result<(), DeviceFault>
    requires { IsReplyOf core.now.image (reply_of (A.outcome step) lists.now) }
    ensures { PutGives result (reply_line core.now.image (reply_of (A.outcome step) lists.now)) (W.written out.old) (W.written out.new) (W.faults out.old) (W.faults out.new) }
{
    put_outcome(out, core, step.outcome(), lists)
}

/// Writes the reply line of an outcome, with what the lists have of it.
#[tactic(auto, using(crate::proofs::Known::written_laws))]
fn put_outcome<W: ByteOut>(
    out: &mut W,
    core: &Core<'_>,
    outcome: Outcome,
    lists: &Lists,
) -> Result<(), DeviceFault>
    requires { IsReplyOf core.now.image (reply_of outcome lists.now) }
    ensures { PutGives result (reply_line core.now.image (reply_of outcome lists.now)) (W.written out.old) (W.written out.new) (W.faults out.old) (W.faults out.new) }
{
    let queued = lists.effects.queued.as_slice();
    let ending: &[u8] = match outcome {
        Outcome::Done { state, cost } => {
            out.put(b"done ")?;
            put_evaluation(out, core, state, cost, queued)?;
            b"\n"
        }
        Outcome::Ticked {
            evaluated,
            state,
            cost,
            exhausted,
        } => {
            out.put(b"tick ")?;
            put_before_starts(out, core, evaluated, state, cost, queued)?;
            put_starts(out, lists.starts.as_slice(), exhausted)?;
            b"\n"
        }
        Outcome::Taken(command) => return put_taken(out, core, command),
        Outcome::Same => b"same\n",
        Outcome::Empty => b"empty\n",
        Outcome::Busy => b"busy\n",
        Outcome::Stale => b"stale\n",
        Outcome::Backwards => b"backwards\n",
        Outcome::NoSuch => b"nosuch\n",
    };
    out.put(ending)?;
    Ok(())
}

/// Writes the evaluation of a tick, if it made one, and a space.
#[tactic(auto, using(crate::proofs::Known::written_laws))]
fn put_before_starts<W: ByteOut>(
    out: &mut W,
    core: &Core<'_>,
    evaluated: bool,
    state: StateId,
    cost: u32,
    queued: &[CommandId],
) -> Result<(), DeviceFault>
    requires { IsListed core.now.image state }
    ensures { PutGives result (before_starts evaluated (evaluation_words core.now.image state.0 cost queued.now)) (W.written out.old) (W.written out.new) (W.faults out.old) (W.faults out.new) }
{
    if !evaluated {
        return Ok(());
    }
    put_evaluation(out, core, state, cost, queued)?;
    out.put(b" ")?;
    Ok(())
}

/// Writes the reply line of a taken command.
#[tactic(auto, using(crate::proofs::Known::written_laws))]
fn put_taken<W: ByteOut>(
    out: &mut W,
    core: &Core<'_>,
    command: CommandId,
) -> Result<(), DeviceFault>
    requires { command.0 < length core.now.image.commands }
    ensures { PutGives result (taken_line core.now.image command.0) (W.written out.old) (W.written out.new) (W.faults out.old) (W.faults out.new) }
{
    put_numbered(out, b"taken ", u64::from(command.0))?;
    out.put(b" ")?;
    put_command(out, core, command)?;
    out.put(b"\n")?;
    Ok(())
}

/// Writes the status line.
#[tactic(auto, using(crate::proofs::Known::written_laws))]
pub(crate) fn put_status<W: ByteOut>(out: &mut W, core: &Core<'_>) -> Result<(), DeviceFault>
    ensures { PutGives result (status_line core.now.image core.now.state) (W.written out.old) (W.written out.new) (W.faults out.old) (W.faults out.new) }
{
    out.put(b"status ")?;
    put_state(out, core, core.state())?;
    out.put(b" owed ")?;
    put_yes_or_no(out, core.owed())?;
    put_status_numbers(out, core)?;
    out.put(b"\n")?;
    Ok(())
}

/// Writes the numbers of the status line.
#[tactic(auto, using(crate::proofs::Known::written_laws))]
fn put_status_numbers<W: ByteOut>(out: &mut W, core: &Core<'_>) -> Result<(), DeviceFault>
    ensures { PutGives result (status_numbers core.now.state) (W.written out.old) (W.written out.new) (W.faults out.old) (W.faults out.new) }
{
    put_numbered(out, b" queue ", core.queue_len() as u64)?;
    put_numbered(out, b" running ", u64::from(core.running()))?;
    put_numbered(out, b" now ", core.now())?;
    Ok(())
}

/// Writes and flushes the reply to a `reload` that was done: `reloaded`, the name of the core's state in quotes, `queue`
/// and the number of queued commands.
///
/// It fails with `SessionFault::WriteFailed` if a write fails. Any part of the line may have gone out then.
pub fn write_reloaded<W: ByteOut>(core: &Core<'_>, writer: &mut W) -> Result<(), SessionFault>
    ensures puts { PutGives result (reloaded_line core.now.image core.now.state) (W.written writer.old) (W.written writer.new) (W.faults writer.old) (W.faults writer.new) }
    ensures out { OnOk result (HoldsNothing (W.held writer.new)) }
    ensures fault { IfErr result (λ fault. fault ≡ SessionFault.WriteFailed) }
{
    match put_reloaded(writer, core) {
        Ok(()) => Ok(()),
        Err(_) => Err(SessionFault::WriteFailed),
    }
}

/// Writes and flushes the reply to a `reload` that was done.
#[tactic(auto, using(crate::proofs::Known::written_laws))]
fn put_reloaded<W: ByteOut>(out: &mut W, core: &Core<'_>) -> Result<(), DeviceFault>
    ensures puts { PutGives result (reloaded_line core.now.image core.now.state) (W.written out.old) (W.written out.new) (W.faults out.old) (W.faults out.new) }
    ensures out { OnOk result (HoldsNothing (W.held out.new)) }
{
    out.put(b"reloaded ")?;
    put_state(out, core, core.state())?;
    put_numbered(out, b" queue ", core.queue_len() as u64)?;
    out.put(b"\n")?;
    out.flush()?;
    Ok(())
}

/// Writes a step, with the index of its interface.
#[tactic(auto, using(crate::proofs::Known::written_laws))]
fn put_step<W: ByteOut>(out: &mut W, step: Step) -> Result<(), DeviceFault>
    ensures { PutGives result (step_words step) (W.written out.old) (W.written out.new) (W.faults out.old) (W.faults out.new) }
{
    match step {
        Step::Link(interface, link) => {
            put_numbered(out, b"link ", u64::from(interface.0))?;
            out.put(b" ")?;
            out.put(link_word(link).as_bytes())?;
            Ok(())
        }
        Step::Finished(test, run, value) => {
            put_numbered(out, b"result ", u64::from(test.0))?;
            put_numbered(out, b" ", run)?;
            out.put(b" ")?;
            out.put(value_word(value).as_bytes())?;
            Ok(())
        }
        Step::Tick(now) => {
            put_numbered(out, b"tick ", now)?;
            Ok(())
        }
        Step::Take => out.put(b"take"),
    }
}

/// The word of a test's value.
pub fn value_word(value: bool) -> &'static str
    ensures { result.now ≡ value_word value }
{
    if value { "ok" } else { "fail" }
}

/// Writes whether something is so.
fn put_yes_or_no<W: ByteOut>(out: &mut W, answer: bool) -> Result<(), DeviceFault>
    ensures { PutGives result (yes_or_no answer) (W.written out.old) (W.written out.new) (W.faults out.old) (W.faults out.new) }
{
    if answer {
        out.put(b"yes")
    } else {
        out.put(b"no")
    }
}

/// The word of an answer.
pub fn answer_word(answer: Answer) -> &'static str
    ensures { result.now ≡ answer_word answer }
{
    match answer {
        Answer::Done => "done",
        Answer::Same => "same",
        Answer::Ticked => "ticked",
        Answer::Taken => "taken",
    }
}

/// Writes the line of a record of the trace.
#[tactic(auto, using(crate::proofs::Known::written_laws))]
fn put_record<W: ByteOut>(out: &mut W, core: &Core<'_>, item: &Record) -> Result<(), DeviceFault>
    requires { IsListed core.now.image item.now.state }
    ensures { PutGives result (record_line core.now.image item.now) (W.written out.old) (W.written out.new) (W.faults out.old) (W.faults out.new) }
{
    put_step(out, item.step)?;
    out.put(b" -> ")?;
    put_answer_words(out, core, item)?;
    out.put(b"\n")?;
    Ok(())
}

/// Writes the part of a record after its step.
#[tactic(auto, using(crate::proofs::Known::written_laws))]
fn put_answer_words<W: ByteOut>(
    out: &mut W,
    core: &Core<'_>,
    item: &Record,
) -> Result<(), DeviceFault>
    requires { IsListed core.now.image item.now.state }
    ensures { PutGives result (answer_words core.now.image item.now) (W.written out.old) (W.written out.new) (W.faults out.old) (W.faults out.new) }
{
    out.put(answer_word(item.answer).as_bytes())?;
    out.put(b" ")?;
    put_state(out, core, item.state)?;
    put_numbered(out, b" cost ", u64::from(item.cost))?;
    put_numbered(out, b" queue ", u64::from(item.queued))?;
    Ok(())
}

/// Writes the lines of the trace: its number of records, and each record, the oldest first.
#[tactic(auto, using(crate::proofs::Known::written_laws))]
pub(crate) fn put_trace<W: ByteOut>(out: &mut W, core: &Core<'_>) -> Result<(), DeviceFault>
    ensures { PutGives result (trace_lines core.now.image core.now.state.trace) (W.written out.old) (W.written out.new) (W.faults out.old) (W.faults out.new) }
{
    put_numbered(out, b"trace ", core.trace_len() as u64)?;
    out.put(b"\n")?;
    put_records(out, core)?;
    Ok(())
}

/// Writes the lines of the records, the oldest first.
#[tactic(auto, using(crate::proofs::Known::written_laws))]
fn put_records<W: ByteOut>(out: &mut W, core: &Core<'_>) -> Result<(), DeviceFault>
    ensures { PutGives result (flat_map (record_line core.now.image) core.now.state.trace) (W.written out.old) (W.written out.new) (W.faults out.old) (W.faults out.new) }
{
    for index in 0..core.trace_len() {
        let Some(item) = core.trace_at(index) else {
            unreachable!()
        };
        put_record(out, core, &item)?;
    }
    Ok(())
}

/// Writes the line of a fault.
#[tactic(auto, using(crate::proofs::Known::written_laws))]
pub(crate) fn put_fault<W: ByteOut>(out: &mut W, fault: RequestFault) -> Result<(), DeviceFault>
    ensures { PutGives result (fault_line fault) (W.written out.old) (W.written out.new) (W.faults out.old) (W.faults out.new) }
{
    match fault {
        RequestFault::NoRequest => out.put(b"fault C1\n"),
        RequestFault::TooLong => out.put(b"fault C2\n"),
        RequestFault::OutOfRange => out.put(b"fault C3\n"),
        RequestFault::NoInterface => out.put(b"fault C4\n"),
    }
}
