//! Lines of input.

ghost use Rattle.std.specs.Prelude.{◌≡◌, ◌==◌, IfSome, option_map};
ghost use Rattle.std.specs.List.{position};
ghost use Rattle.ifs_session.specs.Accounts.{asks_of_hosts};
ghost use Rattle.ifs_session.specs.inner.Reading.{LineGives, StandsFirst, first_line};

use crate::device::ByteIn;
use crate::fault::SessionFault;
use crate::request::{LINE, Request, RequestFault, parse_request};
use arrayvec::ArrayVec;

/// A line of input, without its newline.
#[derive(Drop)]
pub(crate) struct Line {
    /// Its first 256 bytes.
    pub kept: ArrayVec<u8, LINE>,
    /// Whether it has more bytes.
    pub is_longer: bool,
    /// Whether a newline ends it. Otherwise the input ends it.
    pub is_ended: bool,
}

impl Line {
    ghost use Rattle.ifs_session.specs.inner.Parsing.{told_by};
    ghost use Rattle.ifs_session.specs.inner.Serving.{kept_asked};
    ghost use Rattle.ifs_session.specs.inner.Connections.{kept_client_asked};

    /// The request of the line, or its fault.
    pub fn request(&self) -> Result<Request<'_>, RequestFault>
        ensures { told_by result ≡ kept_asked self.now }
    {
        if self.is_longer {
            return Err(RequestFault::TooLong);
        }
        parse_request(self.kept.as_slice())
    }

    /// The request of a client's line, or its fault. A client has no requests `take` and `result`.
    pub fn client_request(&self) -> Result<Request<'_>, RequestFault>
        ensures { told_by result ≡ kept_client_asked self.now }
    {
        if self.is_longer {
            return Err(RequestFault::TooLong);
        }
        let text = self.kept.as_slice();
        if is_of_hosts(text) {
            return Err(RequestFault::NoRequest);
        }
        parse_request(text)
    }
}

/// Whether a line asks for an action of the host: `result` or `take`.
fn is_of_hosts(line: &[u8]) -> bool
    ensures { result ≡ asks_of_hosts line.now }
{
    match line.strip_prefix(b"result ") {
        Some(_) => true,
        None => line == b"take".as_slice(),
    }
}

/// The first line of the bytes, without its newline. It is `None` if there is no newline, or if the line has more than
/// `most` bytes with its newline.
pub(crate) fn line_at_hand(bytes: &[u8], most: u32) -> Option<&[u8]>
    ensures exact { option_map (λ line. line.now) result ≡ first_line most bytes.now }
    ensures first { IfSome result (λ line. StandsFirst line.now most bytes.now) }
{
    let end = newline(bytes)?;
    if end < most as usize {
        Some(&bytes[..end])
    } else {
        None
    }
}

/// The place of the first newline.
fn newline(bytes: &[u8]) -> Option<usize>
    ensures { result ≡ position (λ byte. byte == 10) bytes.now }
{
    bytes.iter().position(|byte| *byte == b'\n')
}

/// Reads the next line, and subtracts its bytes and its newline from the budget. Returns `None` at the end of input.
///
/// It fails if a read fails, and if there is a byte after the budget is spent.
pub(crate) fn next_line<R: ByteIn>(
    reader: &mut R,
    budget: &mut u32,
) -> Result<Option<Line>, SessionFault>
    ensures { LineGives result
        (record { left = R.left reader.old; faults = R.faults reader.old; budget = budget.old })
        (record { left = R.left reader.new; faults = R.faults reader.new; budget = budget.new }) }
{
    let mut kept = ArrayVec::new();
    let mut is_longer = false;
    loop {
        let Ok(next) = reader.next() else {
            return Err(SessionFault::ReadFailed);
        };
        let Some(byte) = next else {
            if kept.is_empty() {
                return Ok(None);
            }
            return Ok(Some(Line {
                kept,
                is_longer,
                is_ended: false,
            }));
        };
        if *budget == 0 {
            return Err(SessionFault::TooMuchInput);
        }
        *budget -= 1;
        if byte == b'\n' {
            return Ok(Some(Line {
                kept,
                is_longer,
                is_ended: true,
            }));
        }
        if kept.is_full() {
            is_longer = true;
        } else {
            kept.push(byte);
        }
    }
}
