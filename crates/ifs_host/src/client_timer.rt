//! The time that the client of a connection may take.

ghost use Rattle.std.specs.Io.{ReadsAtMost, WritesAtMost};

use crate::connection_queue::{ConnectionQueue, OtherClients};
use std::cell::Cell;
use std::io::{self, ErrorKind, Read, Write};
use std::os::unix::net::UnixStream;
use std::time::{Duration, Instant};

/// The most milliseconds of waiting for a whole line, or for the reading of a reply.
const LINE_LIMIT: u64 = 5_000;

/// The age of a connection, in milliseconds, from which no line of it is read.
const AGE_LIMIT: u64 = 10_000;

/// The least milliseconds that there are for the reading of a reply.
const LEAST_REPLY_LIMIT: u64 = 500;

/// The most milliseconds of waiting for a client that has sent nothing, if others wait.
const SILENCE_LIMIT: u64 = 1_000;

/// The same, if the daemon cannot see whether others wait.
const UNKNOWN_LIMIT: u64 = 2_000;

/// The pause between two checks for others, in milliseconds.
const CHECK_PAUSE: u64 = 100;

/// The most checks for others on one connection.
const CHECKS: u32 = 1_000;

/// The wait for what should be there already, in milliseconds.
const INSTANT: u64 = 1;

/// The most milliseconds for the reading of what is there already.
const DRAIN_LIMIT: u64 = 100;

/// The most bytes of one write, so that it waits at most once.
const PIECE: usize = 16_384;

/// The most bytes of a short piece.
const SHORT: usize = 1_024;

/// The limit of a short piece, in milliseconds, which is not timed, since that costs a tenth of its writing. If it is not
/// enough, the piece is timed.
const SHORT_LIMIT: u64 = 10;

/// A connection, and how much time its client has taken.
#[derive(Drop)]
pub struct ClientTimer<'a> {
    rt: &'a HostRuntime,
    stream: &'a UnixStream,
    /// When its turn came, if the clock worked.
    began: Option<Instant>,
    /// How old it was when the present line was begun, or was read.
    line_age: Cell<Duration>,
    /// How long the writing of the present reply has been waited for.
    waited: Cell<Duration>,
    /// The age up to which what is there already is read, if nothing else is waited for.
    drain_age: Cell<Option<Duration>>,
}

impl<'a> ClientTimer<'a> {
    /// A connection whose turn came at this moment.
    pub fn new(rt: &'a HostRuntime, stream: &'a UnixStream, began: Option<Instant>) -> Self {
        let timer = ClientTimer {
            rt,
            stream,
            began,
            line_age: Cell::new(Duration::from_millis(0)),
            waited: Cell::new(Duration::from_millis(0)),
            drain_age: Cell::new(None),
        };
        let _is_old = timer.begin_line();
        timer
    }

    /// How old the connection is. It fails if the clock does.
    fn age(&self) -> io::Result<Duration> {
        match self.began {
            Some(began) => began.elapsed(self.rt),
            None => Err(ErrorKind::Other.into()),
        }
    }

    /// Begins a line. Returns whether the connection is too old for one, as it is if the clock fails.
    pub fn begin_line(&self) -> bool {
        let old = Duration::from_millis(AGE_LIMIT);
        let age = match self.age() {
            Ok(age) => age,
            Err(_) => old,
        };
        self.line_age.set(age);
        self.waited.set(Duration::from_millis(0));
        age >= old
    }

    /// Marks that bytes were read at this age.
    fn mark_read(&self, age: Duration) {
        self.line_age.set(age);
    }

    /// From now on only what is there already is read, however old the connection is, and for a tenth of a second at most.
    pub fn begin_drain(&self) {
        let age = self.age().ok().unwrap_or_default();
        let until = age.saturating_add(Duration::from_millis(DRAIN_LIMIT));
        self.drain_age.set(Some(until));
    }

    /// The time that is left for a line, after this time of waiting for it.
    fn left_for_line(&self, waited: Duration) -> io::Result<Duration> {
        let age = self.age()?;
        if let Some(until) = self.drain_age.get() {
            return Ok(
                until
                    .saturating_sub(age)
                    .min(Duration::from_millis(INSTANT)),
            );
        }
        let line = Duration::from_millis(LINE_LIMIT).saturating_sub(waited);
        let lines = Duration::from_millis(AGE_LIMIT).saturating_sub(age);
        Ok(line.min(lines))
    }

    /// The time that is left for the reading of the present reply. If none is left, the error is that of a call that timed
    /// out.
    fn left_for_reply(&self) -> io::Result<Duration> {
        let reply = Duration::from_millis(AGE_LIMIT)
            .saturating_sub(self.line_age.get())
            .max(Duration::from_millis(LEAST_REPLY_LIMIT))
            .min(Duration::from_millis(LINE_LIMIT));
        let left = reply.saturating_sub(self.waited.get());
        if left.is_zero() {
            return Err(ErrorKind::WouldBlock.into());
        }
        Ok(left)
    }

    /// Counts the waiting for a reply since this moment.
    fn count_since(&self, began: Instant) -> io::Result<()> {
        let waited = began.elapsed(self.rt)?;
        self.waited.set(self.waited.get().saturating_add(waited));
        Ok(())
    }
}

/// The reader of a connection. A read fails if a line does not come whole in time, if the connection is too old for another
/// one, and if a client that has sent nothing keeps others waiting. The end of the input is found all the same.
#[derive(Drop)]
pub struct TimedReader<'a, 'd> {
    timer: &'a ClientTimer<'a>,
    queue: &'a mut ConnectionQueue<'d>,
    /// How long the present line has been waited for.
    waited: Duration,
    /// Whether the client has sent nothing.
    is_silent: bool,
    /// The timeout that is set, if any.
    timeout: Option<Duration>,
}

impl<'a, 'd> TimedReader<'a, 'd> {
    /// The reader of a connection. Others wait in the queue.
    pub fn new(timer: &'a ClientTimer<'a>, queue: &'a mut ConnectionQueue<'d>) -> Self {
        TimedReader {
            timer,
            queue,
            waited: Duration::from_millis(0),
            is_silent: true,
            timeout: None,
        }
    }

    /// Reads within a limit.
    fn read_within(&mut self, limit: Duration, buf: &mut [u8]) -> io::Result<usize>
        ensures bound { ReadsAtMost result buf.new }
    {
        let mut stream = self.timer.stream;
        if self.timeout != Some(limit) {
            stream.set_read_timeout(Some(limit))?;
            self.timeout = Some(limit);
        }
        let before = self.timer.age()?;
        let read = stream.read(buf);
        let after = self.timer.age()?;
        self.waited = self.waited.saturating_add(after.saturating_sub(before));
        let count = read?;
        self.timer.mark_read(after);
        self.is_silent = self.is_silent && count == 0;
        if buf.iter().take(count).any(|byte| *byte == b'\n') {
            self.waited = Duration::from_millis(0);
        }
        Ok(count)
    }

    /// Reads the first bytes of a client. Now and then it checks whether others wait.
    fn read_first(&mut self, buf: &mut [u8]) -> io::Result<usize>
        ensures bound { ReadsAtMost result buf.new }
    {
        for _ in 0..CHECKS {
            let read = self.read_until_check(buf);
            if !has_timed_out(&read) || !self.has_time() {
                return read;
            }
        }
        Err(ErrorKind::WouldBlock.into())
    }

    /// Reads until it is time to check whether others wait.
    fn read_until_check(&mut self, buf: &mut [u8]) -> io::Result<usize>
        ensures bound { ReadsAtMost result buf.new }
    {
        let limit = self.time_until_check()?;
        self.read_within(limit, buf)
    }

    /// The time until the next check whether others wait.
    fn time_until_check(&self) -> io::Result<Duration> {
        let check = Duration::from_millis(SILENCE_LIMIT)
            .saturating_sub(self.waited)
            .max(Duration::from_millis(CHECK_PAUSE));
        Ok(check.min(self.timer.left_for_line(self.waited)?))
    }

    /// Whether a client that has sent nothing may be waited for longer.
    fn has_time(&mut self) -> bool {
        let most = match self.queue.check_others() {
            OtherClients::Waiting => SILENCE_LIMIT,
            OtherClients::Unknown => UNKNOWN_LIMIT,
            OtherClients::Absent => LINE_LIMIT,
        };
        self.waited < Duration::from_millis(most)
    }

    /// Looks whether the input has ended. If it has not, the error is that of a call that timed out.
    fn read_end(&mut self, buf: &mut [u8]) -> io::Result<usize>
        ensures bound { ReadsAtMost result buf.new }
    {
        let count = self.read_within(Duration::from_millis(INSTANT), buf)?;
        if count > 0 {
            return Err(ErrorKind::WouldBlock.into());
        }
        Ok(count)
    }
}

/// Whether a read has timed out.
fn has_timed_out(read: &io::Result<usize>) -> bool {
    match read {
        Ok(_) => false,
        Err(error) => error.kind() == ErrorKind::WouldBlock,
    }
}

impl<'a, 'd> Read for TimedReader<'a, 'd> {
    fn read(&mut self, buf: &mut [u8]) -> io::Result<usize> {
        if self.is_silent {
            return self.read_first(buf);
        }
        let left = self.timer.left_for_line(self.waited)?;
        if left.is_zero() {
            return self.read_end(buf);
        }
        self.read_within(left, buf)
    }
}

/// The writer of a connection. A write fails if a client does not read a reply in time.
#[derive(Drop)]
pub struct TimedWriter<'a> {
    timer: &'a ClientTimer<'a>,
    /// The timeout that is set, if any.
    timeout: Option<Duration>,
}

impl<'a> TimedWriter<'a> {
    /// The writer of a connection.
    pub fn new(timer: &'a ClientTimer<'a>) -> Self {
        TimedWriter {
            timer,
            timeout: None,
        }
    }

    /// Writes a piece within a limit.
    fn write_within(&mut self, limit: Duration, piece: &[u8]) -> io::Result<usize>
        ensures bound { WritesAtMost result piece.now }
    {
        let mut stream = self.timer.stream;
        if self.timeout != Some(limit) {
            stream.set_write_timeout(Some(limit))?;
            self.timeout = Some(limit);
        }
        stream.write(piece)
    }

    /// Writes a piece, and counts its waiting.
    fn write_timed(&mut self, piece: &[u8]) -> io::Result<usize>
        ensures bound { WritesAtMost result piece.now }
    {
        let left = self.timer.left_for_reply()?;
        let began = Instant::now(self.timer.rt)?;
        let count = self.write_within(left, piece)?;
        self.timer.count_since(began)?;
        Ok(count)
    }
}

impl<'a> Write for TimedWriter<'a> {
    fn write(&mut self, buf: &[u8]) -> io::Result<usize> {
        let piece = &buf[..buf.len().min(PIECE)];
        if SHORT < piece.len() {
            return self.write_timed(piece);
        }
        match self.write_within(Duration::from_millis(SHORT_LIMIT), piece) {
            Err(error) if error.kind() == ErrorKind::WouldBlock => self.write_timed(piece),
            written => written,
        }
    }

    fn flush(&mut self) -> io::Result<()> {
        Ok(())
    }
}
