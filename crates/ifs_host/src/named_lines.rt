//! Sessions on standard input line by line: lines may also name links and tests, and wait, and a report may follow a reply.

use crate::notes::interface_name;
use crate::reporting::write_report;
use crate::standard_output::StandardOutput;
use ifs_base::{IfaceId, Number, TestId, parse_number};
use ifs_core::{Core, Lists};
use ifs_options::{Lines, Reports};
use ifs_report::Source;
use ifs_request_reports::report_on;
use ifs_sched::Start;
use ifs_session::{MemoryIn, MemoryOut, SessionFault, simulate_into};
use ifs_terminal::{Shown, displays_as};
use std::alloc::AllocError;
use std::io::{BufRead, BufReader, Read, Write};
use std::mem;
use std::str::from_utf8;

/// The most bytes of request lines.
const INPUT: usize = 16_777_216;

/// The most interfaces or tests of an image.
const MOST: usize = 64;

/// The longest wait, in seconds: a week.
const LONGEST: u64 = 604_800;

/// What a line says, beside requests.
#[derive(Clone, Copy)]
enum Said<'l> {
    /// The runs of the tests with this quoted text have ended with this value, `ok` or `fail`.
    Test(&'l str, &'static str),
    /// The link of the interface with this quoted name is so.
    Link(&'l str, &'l str),
    /// So many seconds pass.
    Wait(u64),
}

/// What a line says. It is `None` if it has none of these forms.
fn said_by(line: &str) -> Option<Said<'_>> {
    let (word, told) = line.split_once(' ')?;
    if word == "wait" {
        let seconds = seconds_of(told)?;
        return Some(Said::Wait(seconds));
    }
    let (name, last) = told.rsplit_once(' ')?;
    match (word, last) {
        ("test", "pass") => Some(Said::Test(name, "ok")),
        ("test", "fail") => Some(Said::Test(name, "fail")),
        ("link", "up" | "down" | "unknown") => Some(Said::Link(name, last)),
        _ => None,
    }
}

/// The number of seconds that a text is.
fn seconds_of(text: &str) -> Option<u64> {
    match parse_number(text.as_bytes())? {
        Number::Within(seconds) if (1..=LONGEST).contains(&seconds) => Some(seconds),
        _ => None,
    }
}

/// Serves the lines of standard input until `stop` or their end. A line with names stands for requests, if they are taken, and each
/// reply is printed before the next line is read. A failed allocation is a failed write.
#[inline(never)]
pub(crate) fn line_by_line(
    rt: &HostRuntime,
    core: &mut Core<'_>,
    lines: Lines,
    reports: Reports,
) -> Result<(), SessionFault> {
    let Ok(input) = BufReader::new(rt.alloc(), rt.reader()) else {
        return Err(SessionFault::ReadFailed);
    };
    // one byte more shows that there are too many
    let mut input = input.take(INPUT as u64 + 1);
    let mut line = Vec::new(rt.alloc());
    let mut session = Session {
        rt,
        core,
        lines,
        reports,
        count: 0,
        number: 0,
        runs: [0; MOST],
        end: None,
    };
    for _ in 0..=INPUT {
        line.clear();
        let length = input.read_until(b'\n', &mut line).ok();
        session.serve(length, line.as_slice());
        if session.end.is_some() {
            break;
        }
    }
    session.end.unwrap_or(Ok(()))
}

/// A session, and what it keeps beside its core.
#[derive(Drop)]
struct Session<'a, 'c, 'm> {
    rt: &'a HostRuntime,
    core: &'c mut Core<'m>,
    /// Which lines it takes, and what is written beside its replies.
    lines: Lines,
    /// How reports are written.
    reports: Reports,
    /// The number of bytes that were read.
    count: usize,
    /// The number of lines that were served before this one.
    number: usize,
    /// The number of the last run of each test, or 0 if that has ended.
    runs: [u64; MOST],
    /// How it ended, if it did. It makes no request after that.
    end: Option<Result<(), SessionFault>>,
}

impl Session<'_, '_, '_> {
    /// Serves a line that was read, whose length is 0 at the end of the input. There is no length if the read failed.
    fn serve(&mut self, length: Option<usize>, line: &[u8]) {
        let Some(length) = length else {
            return self.fail(SessionFault::ReadFailed);
        };
        self.count = self.count.saturating_add(length);
        if self.count > INPUT {
            self.fail(SessionFault::TooMuchInput);
        } else if length == 0 {
            self.end = Some(Ok(()));
        } else {
            self.serve_line(line);
            self.number = self.number.saturating_add(1);
        }
    }

    /// Serves a line.
    fn serve_line(&mut self, line: &[u8]) {
        if !self.lines.takes_names {
            return self.request(line);
        }
        match said_by(from_utf8(without_newline(line)).unwrap_or_default()) {
            Some(Said::Wait(seconds)) => self.wait(seconds),
            Some(Said::Test(text, value)) => self.end_tests(line, text, value),
            Some(Said::Link(name, link)) => self.tell_link(line, name, link),
            None => self.request(line),
        }
    }

    /// Ends the session by a fault.
    fn fail(&mut self, fault: SessionFault) {
        self.end = Some(Err(fault));
    }

    /// Ticks as a clock does each second, without the ticks that neither evaluate nor start a test, and at the end. It ends sooner
    /// if a tick is not done.
    fn wait(&mut self, seconds: u64) {
        let end = self.core.now().saturating_add(seconds);
        for _ in 0..seconds {
            let moment = self.next_moment().min(end);
            self.request_of(format!(in self.rt.alloc(); "tick {moment}\n"));
            if moment == end || self.core.now() != moment || self.end.is_some() {
                break;
            }
        }
    }

    /// The next moment whose tick evaluates or starts a test, if nothing else happens.
    fn next_moment(&self) -> u64 {
        let next = self.core.now().saturating_add(1);
        if self.core.owed() {
            return next;
        }
        self.core.next_due().unwrap_or(u64::MAX).max(next)
    }

    /// Ends the last run of each test with this quoted text that has no result yet. If there is none, it is run 0 of the first
    /// such test, which is stale. If there is no such test, the line is served as a request.
    fn end_tests(&mut self, line: &[u8], text: &str, value: &str) {
        let mut first = None;
        let mut is_ended = false;
        for test in 0..MOST as u16 {
            let found = self.core.test_text(TestId(test)).unwrap_or_default();
            if is_shown(found, text) {
                first = first.or(Some(test));
                is_ended |= self.end_last_run(test, value);
            }
        }
        match first {
            None => self.request(line),
            Some(test) if !is_ended => self.end_run(test, 0, value),
            Some(_) => {}
        }
    }

    /// Ends the last run of a test, and returns whether it had no result yet.
    fn end_last_run(&mut self, test: u16, value: &str) -> bool {
        let run = match self.runs.get_mut(usize::from(test)) {
            Some(run) => mem::take(run),
            None => 0,
        };
        if run != 0 {
            self.end_run(test, run, value);
        }
        run != 0
    }

    fn end_run(&mut self, test: u16, run: u64, value: &str) {
        self.request_of(format!(in self.rt.alloc(); "result {test} {run} {value}\n"));
    }

    /// Reports the link of the interface with this quoted name. If there is none, or one has the quotes in its name, the line is
    /// served as a request.
    fn tell_link(&mut self, line: &[u8], quoted: &str, link: &str) {
        if self.core.iface_of(quoted.as_bytes()).is_none() {
            for interface in 0..MOST as u16 {
                let name = interface_name(self.core, IfaceId(interface));
                if is_shown(name, quoted) {
                    return self.request_of(format!(in self.rt.alloc(); "link {name} {link}\n"));
                }
            }
        }
        self.request(line);
    }

    fn request_of(&mut self, line: Result<String, AllocError>) {
        match line {
            Ok(line) => self.request(line.as_bytes()),
            Err(_memory) => self.fail(SessionFault::WriteFailed),
        }
    }

    /// Makes a request, whose line may have its newline, and prints its reply.
    fn request(&mut self, line: &[u8]) {
        if self.end.is_some() {
            return;
        }
        let mut replies = MemoryOut::new(self.rt.alloc());
        // New lists have starts only if the line is a tick that started tests.
        let mut lists = Lists::new();
        let mut input = MemoryIn::new(line);
        match simulate_into(self.core, &mut lists, &mut input, &mut replies) {
            Ok(summary) => {
                self.know_starts(lists.starts.as_slice());
                self.reply(line, replies.written(), summary.stopped);
                self.explain(without_newline(line));
            }
            Err(fault) => self.fail(fault),
        }
    }

    /// Writes the report on a line that is refused, if that is wanted. The report is lost if memory runs out.
    fn explain(&self, text: &[u8]) {
        if !self.lines.is_explained {
            return;
        }
        let source = Source {
            name: "-",
            text,
            lines_before: self.number,
            definitions: &[],
        };
        let report = report_on(self.rt.alloc(), self.core, text, self.lines.takes_names);
        if let Ok(Some(report)) = report {
            write_report(self.rt, self.reports, &report, source);
        }
    }

    /// Prints a request and its reply. The reply to `stop` ends the session.
    fn reply(&mut self, line: &[u8], reply: &[u8], is_stopped: bool) {
        if !self.print_exchange(line, reply) {
            self.fail(SessionFault::WriteFailed);
        } else if is_stopped {
            self.end = Some(Ok(()));
        }
    }

    /// Prints a request if it is echoed, and its reply. Returns whether that was done.
    fn print_exchange(&self, line: &[u8], reply: &[u8]) -> bool {
        if self.lines.is_echoed {
            self.write_all(b"> ")
                && self.write_all(without_newline(line))
                && self.write_all(b"\n")
                && self.write_all(reply)
        } else {
            self.write_all(reply)
        }
    }

    /// Prints bytes. Returns whether that was done.
    fn write_all(&self, bytes: &[u8]) -> bool {
        StandardOutput::new(self.rt).write_all(bytes).is_ok()
    }

    /// Knows the runs that have started.
    fn know_starts(&mut self, starts: &[Start]) {
        for start in starts {
            if let Some(place) = self.runs.get_mut(usize::from(start.test.0)) {
                *place = start.run;
            }
        }
    }
}

/// A line without its newline.
fn without_newline(line: &[u8]) -> &[u8] {
    line.strip_suffix(b"\n").unwrap_or(line)
}

/// Whether a text is this one in quotes, and not empty.
fn is_shown(text: &str, quoted: &str) -> bool {
    !text.is_empty() && displays_as(Shown(text), quoted)
}
