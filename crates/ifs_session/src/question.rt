//! Questions: requests that read the core and change nothing. A question is a word. Its word and its reply are here, in
//! `specs/Questions.antt`, and in the functions that write the reply.

ghost use Rattle.std.specs.Prelude.{◌≡◌};
ghost use Rattle.ifs_session.specs.Device.{PutGives};
ghost use Rattle.ifs_session.specs.Questions.{question_in, reply_to};

use crate::device::{ByteOut, DeviceFault};
use crate::replies::{put_status, put_trace};
use ifs_core::Core;

/// A question.
#[derive(Clone, Copy, PartialEq, Eq)]
pub(crate) enum Question {
    /// The state, whether an evaluation is owed, and the numbers of queued commands and of running tests.
    Status,
    /// The records of the last steps.
    Trace,
}

/// The question of a word.
pub(crate) fn question_in(word: &[u8]) -> Option<Question>
    ensures { result ≡ question_in word.now }
{
    if word == b"status".as_slice() {
        Some(Question::Status)
    } else if word == b"trace".as_slice() {
        Some(Question::Trace)
    } else {
        None
    }
}

/// Writes the reply to a question.
pub(crate) fn put_reply_to<W: ByteOut>(
    out: &mut W,
    core: &Core<'_>,
    question: Question,
) -> Result<(), DeviceFault>
    ensures { PutGives result (reply_to question core.now.image core.now.state) (W.written out.old) (W.written out.new) (W.faults out.old) (W.faults out.new) }
{
    match question {
        Question::Status => put_status(out, core),
        Question::Trace => put_trace(out, core),
    }
}
