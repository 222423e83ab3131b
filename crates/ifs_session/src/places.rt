//! Places of a request line: which words make a request of it.

ghost use Rattle.std.specs.Prelude.{◌≡◌, ◌<◌, ◌++◌, ◌∷◌, [], None, cond, filter, length, IfOk, IfSome, OnOk};
ghost use Rattle.ifs_session.specs.Places.{fault_in, fits, is_request, request_words, spelling, words_at};
ghost use Rattle.ifs_session.specs.Requests.{asked};
ghost use Rattle.ifs_session.specs.inner.Parsing.{told_by};

use crate::request::{LINE, Request, RequestFault, request_of};
use arrayvec::ArrayVec;
use std::alloc::{AllocError, Global};

/// A word of request lines. `Name` stands for the name of an interface, and `Number` for a number.
#[derive(Clone, Copy, Debug, PartialEq, Eq)]
pub enum RequestWord {
    /// `link`
    Link,
    /// `result`
    Result,
    /// `tick`
    Tick,
    /// `take`
    Take,
    /// `status`
    Status,
    /// `trace`
    Trace,
    /// `stop`
    Stop,
    /// `up`
    Up,
    /// `down`
    Down,
    /// `unknown`
    Unknown,
    /// `ok`
    Good,
    /// `fail`
    Fail,
    /// A name, as `x`.
    Name,
    /// A number, as `0`.
    Number,
}

impl RequestWord {
    /// The word in a line.
    pub fn spelling(self) -> &'static str
        ensures { result.now ≡ spelling self }
    {
        match self {
            RequestWord::Link => "link",
            RequestWord::Result => "result",
            RequestWord::Tick => "tick",
            RequestWord::Take => "take",
            RequestWord::Status => "status",
            RequestWord::Trace => "trace",
            RequestWord::Stop => "stop",
            RequestWord::Up => "up",
            RequestWord::Down => "down",
            RequestWord::Unknown => "unknown",
            RequestWord::Good => "ok",
            RequestWord::Fail => "fail",
            RequestWord::Name => "x",
            RequestWord::Number => "0",
        }
    }
}

/// All words, in the order in which a report names them.
const WORDS: [RequestWord; 14] = [
    RequestWord::Link,
    RequestWord::Result,
    RequestWord::Tick,
    RequestWord::Take,
    RequestWord::Status,
    RequestWord::Trace,
    RequestWord::Stop,
    RequestWord::Up,
    RequestWord::Down,
    RequestWord::Unknown,
    RequestWord::Good,
    RequestWord::Fail,
    RequestWord::Name,
    RequestWord::Number,
];

/// All words.
fn all_words() -> [RequestWord; 14]
    ensures { result ≡ request_words }
{
    WORDS
}

/// Why a line is no request, without its newline. It is `None` if it is one, whether or not the interface that it names is in the
/// table of an image.
pub fn fault_in(line: &[u8]) -> Option<RequestFault>
    ensures { result ≡ fault_in (asked line.now) }
{
    fault_of(request_of(line))
}

/// The fault of a line, if it has one.
#[tactic(auto, using(crate::proofs::Placing::no_fault))]
fn fault_of(parsed: Result<Request<'_>, RequestFault>) -> Option<RequestFault>
    ensures { result ≡ fault_in (told_by parsed.entry) }
{
    match parsed {
        Ok(_request) => None,
        Err(fault) => Some(fault),
    }
}

/// The words that make a request of a line, each between what is before it and what is after it. The only error is a failed
/// allocation.
pub fn words_at(alloc: Global, before: &[u8], after: &[u8]) -> Result<Vec<RequestWord>, AllocError>
    // A word is among them exactly if the line with it is a request.
    ensures { IfOk result (λ words. words.items ≡ words_at before.now after.now) }
{
    let words = all_words();
    words_among(alloc, words.as_slice(), before, after)
}

/// Those of some words that make a request of a line.
#[tactic(auto, using(crate::proofs::Placing::one_more))]
fn words_among(
    alloc: Global,
    words: &[RequestWord],
    before: &[u8],
    after: &[u8],
) -> Result<Vec<RequestWord>, AllocError>
    ensures { IfOk result (λ found. found.items ≡ filter (fits before.now after.now) words.now) }
{
    let mut found = Vec::new(alloc);
    for word in words {
        put_fitting(&mut found, before, after, *word)?;
    }
    Ok(found)
}

/// Adds a word if it makes a request of a line.
fn put_fitting(
    found: &mut Vec<RequestWord>,
    before: &[u8],
    after: &[u8],
    word: RequestWord,
) -> Result<(), AllocError>
    ensures { OnOk result (found.new.items ≡ found.old.items ++ cond (fits before.now after.now word) (word ∷ []) []) }
{
    if fits(before, after, word) {
        found.push(word)?;
    }
    Ok(())
}

/// Whether a word makes a request of a line.
#[tactic(auto, using(crate::proofs::Placing::too_long))]
fn fits(before: &[u8], after: &[u8], word: RequestWord) -> bool
    ensures { result ≡ fits before.now after.now word }
{
    match joined(before, word.spelling().as_bytes(), after) {
        Some(line) => is_request(request_of(line.as_slice())),
        None => false,
    }
}

/// Whether a line is a request.
#[tactic(auto, using(crate::proofs::Placing::is_one))]
fn is_request(parsed: Result<Request<'_>, RequestFault>) -> bool
    ensures { result ≡ is_request (told_by parsed.entry) }
{
    match parsed {
        Ok(_request) => true,
        Err(_fault) => false,
    }
}

/// A line of these parts. It is `None` if it has over 256 bytes.
fn joined(before: &[u8], word: &[u8], after: &[u8]) -> Option<ArrayVec<u8, LINE>>
    ensures line { IfSome result (λ line. line.items ≡ before.now ++ word.now ++ after.now) }
    ensures longer { result ≡ None → 256 < length (before.now ++ word.now ++ after.now) }
{
    let mut line = ArrayVec::new();
    line.try_extend_from_slice(before).ok()?;
    line.try_extend_from_slice(word).ok()?;
    line.try_extend_from_slice(after).ok()?;
    Some(line)
}
