//! Requests, and how they are parsed.

ghost use Rattle.std.specs.Prelude.{◌≡◌, ◌==◌};
ghost use Rattle.std.specs.List.{before_first, after_first, position};
ghost use Rattle.ifs_base.specs.Numbers.{number_of};
ghost use Rattle.ifs_session.specs.inner.Parsing.{told_by, result_kept};
ghost use Rattle.ifs_session.specs.Requests.{asked, short_asked, link_asked, result_asked, result_valued, word_asked};
ghost use Rattle.ifs_session.specs.Requests.{link_named, question_asked, tick_asked};

use crate::question::{Question, question_in};
use ifs_base::{LinkState, Number, TestId, parse_number};
use thiserror::Error;

/// A request.
#[derive(Clone, Copy, PartialEq, Eq)]
pub(crate) enum Request<'a> {
    /// The interface of this name has this link state.
    Link(&'a [u8], LinkState),
    /// A run of a test has ended with this value.
    Result(TestId, u64, bool),
    /// The time is this moment, in seconds.
    Tick(u64),
    /// Take the first command of the queue.
    Take,
    /// A question about the core.
    Question(Question),
    /// End the session or the service.
    Stop,
    /// Read the image again. A session does not do this.
    Reload,
}

/// Why a line is not a request that can be done.
#[derive(Clone, Copy, Debug, PartialEq, Eq, Error)]
pub enum RequestFault {
    /// C1: the line does not have the form of a request.
    #[error("C1")]
    NoRequest,
    /// C2: the line has over 256 bytes.
    #[error("C2")]
    TooLong,
    /// C3: a number is out of its range.
    #[error("C3")]
    OutOfRange,
    /// C4: the interface is not in the table.
    #[error("C4")]
    NoInterface,
}

/// The most bytes of a request line.
pub(crate) const LINE: usize = 256;

/// The request of a line.
pub(crate) fn request_of(line: &[u8]) -> Result<Request<'_>, RequestFault>
    ensures { told_by result ≡ asked line.now }
{
    if line.len() > LINE {
        return Err(RequestFault::TooLong);
    }
    parse_request(line)
}

/// The request of a line of at most 256 bytes.
pub(crate) fn parse_request(line: &[u8]) -> Result<Request<'_>, RequestFault>
    ensures { told_by result ≡ short_asked line.now }
{
    if let Some(text) = line.strip_prefix(b"link ") {
        return link_request(text);
    }
    if let Some(text) = line.strip_prefix(b"result ") {
        return result_request(text);
    }
    if let Some(text) = line.strip_prefix(b"tick ") {
        return tick_request(text);
    }
    word_request(line)
}

/// The request of a line that is a word alone.
fn word_request(word: &[u8]) -> Result<Request<'_>, RequestFault>
    ensures { told_by result ≡ word_asked word.now }
{
    if word == b"take".as_slice() {
        Ok(Request::Take)
    } else if word == b"stop".as_slice() {
        Ok(Request::Stop)
    } else if word == b"reload".as_slice() {
        Ok(Request::Reload)
    } else {
        question_request(question_in(word))
    }
}

/// The request for a question, if there is one.
fn question_request<'a>(question: Option<Question>) -> Result<Request<'a>, RequestFault>
    ensures { told_by result ≡ question_asked question }
{
    match question {
        Some(question) => Ok(Request::Question(question)),
        None => Err(RequestFault::NoRequest),
    }
}

/// The request of `link` and a text: a name, a space and a link state.
fn link_request(text: &[u8]) -> Result<Request<'_>, RequestFault>
    ensures { told_by result ≡ link_asked text.now }
{
    if let Some(name) = text.strip_suffix(b" up") {
        return named_link(name, LinkState::Up);
    }
    if let Some(name) = text.strip_suffix(b" down") {
        return named_link(name, LinkState::Down);
    }
    if let Some(name) = text.strip_suffix(b" unknown") {
        return named_link(name, LinkState::Unknown);
    }
    Err(RequestFault::NoRequest)
}

fn named_link(name: &[u8], link: LinkState) -> Result<Request<'_>, RequestFault>
    ensures { told_by result ≡ link_named name.now link }
{
    if name.is_empty() {
        return Err(RequestFault::NoRequest);
    }
    Ok(Request::Link(name, link))
}

/// The request of `result` and a text: two numbers, and `ok` or `fail`.
fn result_request(text: &[u8]) -> Result<Request<'_>, RequestFault>
    ensures { told_by result ≡ result_asked text.now }
{
    if let Some(numbers) = text.strip_suffix(b" ok") {
        return valued_result(numbers, true);
    }
    if let Some(numbers) = text.strip_suffix(b" fail") {
        return valued_result(numbers, false);
    }
    Err(RequestFault::NoRequest)
}

/// The request of `tick` and a text: a number.
fn tick_request(text: &[u8]) -> Result<Request<'_>, RequestFault>
    ensures { told_by result ≡ tick_asked (number_of text.now) }
{
    match parse_number(text) {
        None => Err(RequestFault::NoRequest),
        Some(Number::TooGreat) => Err(RequestFault::OutOfRange),
        Some(Number::Within(moment)) => Ok(Request::Tick(moment)),
    }
}

/// The request of a result with this value, from the text of its two numbers.
#[tactic(auto, using(crate::proofs::Numbers::kept_numbers))]
fn valued_result(numbers: &[u8], value: bool) -> Result<Request<'_>, RequestFault>
    ensures { told_by result ≡ result_valued numbers.now value }
{
    let (test, run) = split_at_space(numbers);
    numbered_result(parse_number(test), parse_number(run), value)
}

/// The parts of a text before and after its first space. If there is none, all of it is before.
fn split_at_space(text: &[u8]) -> (&[u8], &[u8])
    ensures before { result.0.now ≡ before_first (λ byte. byte == 32) text.now }
    ensures after { result.1.now ≡ after_first (λ byte. byte == 32) text.now }
{
    match first_space(text) {
        Some(space) => (&text[..space], &text[space + 1..]),
        None => (text, &[]),
    }
}

/// The place of the first space.
fn first_space(text: &[u8]) -> Option<usize>
    ensures { result ≡ position (λ byte. byte == 32) text.now }
{
    text.iter().position(|byte| *byte == b' ')
}

/// The request of a result, from its two numbers. A text that is no number is reported before a number out of range.
fn numbered_result<'a>(
    test: Option<Number>,
    run: Option<Number>,
    value: bool,
) -> Result<Request<'a>, RequestFault>
    ensures { told_by result ≡ result_kept test run value }
{
    let (Some(test), Some(run)) = (test, run) else {
        return Err(RequestFault::NoRequest);
    };
    let (Number::Within(test), Number::Within(run)) = (test, run) else {
        return Err(RequestFault::OutOfRange);
    };
    match u16::try_from(test) {
        Ok(test) => Ok(Request::Result(TestId(test), run, value)),
        Err(_) => Err(RequestFault::OutOfRange),
    }
}
