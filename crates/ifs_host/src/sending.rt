//! One request to a daemon, and its reply.

ghost use Rattle.std.specs.Io.{ReadsAtMost};

use crate::failure::Failure;
use crate::files::{FileFault, read_whole};
use crate::standard_output::StandardOutput;
use ifs_session::says_not_done;
use ifs_terminal::Escaped;
use std::io::{self, BufWriter, ErrorKind, Read, Write};
use std::net::Shutdown;
use std::os::unix::net::UnixStream;
use std::time::{Duration, Instant};

/// The most bytes of a reply that is printed.
const MOST: usize = 16_777_216;

/// Sends a request to the daemon of a socket, and waits for no reply.
pub fn send<'a>(rt: &HostRuntime, socket: &'a str, request: &str) -> Result<(), Failure<'a>> {
    match written(rt, socket, request) {
        Ok(_stream) => Ok(()),
        Err(error) => Err(Failure::of_system(socket, error)),
    }
}

/// How a reply is read.
#[derive(Clone, Copy)]
pub struct Reading {
    /// How long it may take.
    pub limit: Option<Duration>,
    /// The most bytes, up to 16,777,216.
    pub most: usize,
}

/// How a reply is printed.
#[derive(Clone, Copy)]
pub struct Printing {
    /// Whether the reply to a request that was not done is a refusal.
    pub check: bool,
    /// Whether what a terminal may act on is escaped.
    pub escape: bool,
}

/// Sends a request to the daemon of a socket, and prints the reply, which must come within the limit. If the time is over
/// before the reply ends, it prints what has come, and there is no reply unless that ends with a newline.
pub fn send_and_wait<'a>(
    rt: &HostRuntime,
    socket: &'a str,
    request: &str,
    limit: Option<Duration>,
    printing: Printing,
) -> Result<(), Failure<'a>> {
    let reading = Reading { limit, most: MOST };
    let reply = reply_or_none(rt, socket, request, reading)?;
    print(rt, reply.bytes.as_slice(), printing.escape)?;
    if reply.is_torn() {
        Err(Failure::NoReply { socket })
    } else if printing.check && says_not_done(reply.bytes.as_slice()) {
        Err(Failure::Refused)
    } else {
        Ok(())
    }
}

/// Prints a reply, as it is or with what a terminal may act on escaped.
fn print(rt: &HostRuntime, reply: &[u8], escape: bool) -> io::Result<()> {
    if escape {
        print_escaped(rt, reply)
    } else {
        StandardOutput::new(rt).write_all(reply)
    }
}

/// Prints a reply, and escapes what a terminal may act on.
fn print_escaped(rt: &HostRuntime, reply: &[u8]) -> io::Result<()> {
    let mut output = BufWriter::new(rt.alloc(), StandardOutput::new(rt))?;
    write!(output, "{}", Escaped(reply))?;
    output.flush()?;
    Ok(())
}

/// Sends request lines to the daemon of a socket, and returns its reply, which must come whole within the limit. The last
/// line of `requests` has no newline.
pub fn replied<'a>(
    rt: &HostRuntime,
    socket: &'a str,
    requests: &str,
    reading: Reading,
) -> Result<Vec<u8>, Failure<'a>> {
    let Arrived { bytes, is_late } = reply_or_none(rt, socket, requests, reading)?;
    if is_late {
        Err(Failure::NoReply { socket })
    } else {
        Ok(bytes)
    }
}

/// What has come back over a connection.
#[derive(Drop)]
struct Arrived {
    bytes: Vec<u8>,
    /// Whether the time was over before the end.
    is_late: bool,
}

impl Arrived {
    /// Whether the time was over within a line.
    fn is_torn(&self) -> bool {
        self.is_late && !self.bytes.as_slice().ends_with(b"\n")
    }
}

/// Sends request lines, and returns what comes back within the limit. If nothing does, that is a failure.
fn reply_or_none<'a>(
    rt: &HostRuntime,
    socket: &'a str,
    requests: &str,
    reading: Reading,
) -> Result<Arrived, Failure<'a>> {
    match reply_to(rt, socket, requests, reading) {
        Ok(reply) if reply.bytes.is_empty() => Err(Failure::NoReply { socket }),
        Ok(reply) => Ok(reply),
        Err(fault) => Err(Failure::of_file(rt, "V0", socket, fault)),
    }
}

/// Sends request lines, and returns the bytes that come back within the limit. It fails if they are too many.
fn reply_to(
    rt: &HostRuntime,
    socket: &str,
    requests: &str,
    reading: Reading,
) -> Result<Arrived, FileFault> {
    let stream = written(rt, socket, requests)?;
    // one byte more shows that there are too many
    let enough = (reading.most as u64).saturating_add(1);
    let reply = match reading.limit {
        None => Arrived {
            bytes: read_whole(rt.alloc(), (&stream).take(enough))?,
            is_late: false,
        },
        Some(limit) => reply_within(rt, &stream, enough, limit)?,
    };
    if reply.bytes.len() > reading.most {
        Err(FileFault::TooLarge)
    } else {
        Ok(reply)
    }
}

/// The bytes that come back over a connection within the limit, until there are enough.
fn reply_within(
    rt: &HostRuntime,
    stream: &UnixStream,
    enough: u64,
    limit: Duration,
) -> Result<Arrived, FileFault> {
    let mut reader = Deadline {
        rt,
        stream,
        began: Instant::now(rt)?,
        limit,
        is_over: false,
    };
    let bytes = read_whole(rt.alloc(), (&mut reader).take(enough))?;
    Ok(Arrived {
        bytes,
        is_late: reader.is_over,
    })
}

/// The reader of a connection whose input ends when a time is over.
#[derive(Drop)]
struct Deadline<'a> {
    rt: &'a HostRuntime,
    stream: &'a UnixStream,
    began: Instant,
    limit: Duration,
    /// Whether the time is over.
    is_over: bool,
}

impl Deadline<'_> {
    /// Reads within the time that is left. If none is left, the error is that of a call that timed out.
    fn read_in_time(&mut self, buf: &mut [u8]) -> io::Result<usize>
        ensures bound { ReadsAtMost result buf.new }
    {
        let left = self.limit.saturating_sub(self.began.elapsed(self.rt)?);
        if left.is_zero() {
            return Err(ErrorKind::WouldBlock.into());
        }
        let mut stream = self.stream;
        stream.set_read_timeout(Some(left))?;
        stream.read(buf)
    }
}

impl Read for Deadline<'_> {
    fn read(&mut self, buf: &mut [u8]) -> io::Result<usize> {
        match self.read_in_time(buf) {
            Err(error) if error.kind() == ErrorKind::WouldBlock => {
                self.is_over = true;
                Ok(0)
            }
            read => read,
        }
    }
}

/// Opens a connection and writes a request, and closes its writing half.
fn written(rt: &HostRuntime, socket: &str, request: &str) -> io::Result<UnixStream> {
    let stream = UnixStream::connect(rt, socket)?;
    let mut writer = &stream;
    writer.write_all(request.as_bytes())?;
    writer.write_all(b"\n")?;
    stream.shutdown(Shutdown::Write)?;
    Ok(stream)
}
