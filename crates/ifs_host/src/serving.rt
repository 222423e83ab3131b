//! The daemon: serves one connection after another over a Unix socket, and reloads its image.

use crate::client_lines::ClientLines;
use crate::client_timer::{ClientTimer, TimedWriter};
use crate::connection_queue::{ConnectionQueue, Wake};
use crate::event::{Event, TestSet};
use crate::failure::Failure;
use crate::notes::{NoteLog, level_of, note_end, note_no_memory, note_refused_reload, note_reload};
use crate::reloading::{FileRefused, reload};
use crate::sessions::{core_on, image_at};
use crate::shell::{Shell, try_shell};
use crate::snapshot::MOST;
use crate::sockets::{FileId, bind_socket, is_same_file, remove_made};
use crate::standard_error::StandardError;
use crate::status_file::{StatusFile, length_of, record};
use crate::system_limits::prepare;
use bumpalo::Bump;
use ifs_base::TestId;
use ifs_core::Core;
use ifs_options::{Reports, Serve};
use ifs_session::{
    ByteOut, DeviceFault, End, MemoryIn, Served, SessionFault, ToWrite, run_queue, serve_one,
    write_refused, write_reloaded,
};
use log::{Log, Logged};
use std::alloc::AllocError;
use std::io::{self, BufWriter, ErrorKind};
use std::net::Shutdown;
use std::os::unix::net::{UnixListener, UnixStream};
use std::thread;
use std::time::{Duration, Instant};

/// The most bytes of replies that are held back.
const HELD: usize = 65_536;

/// What the daemon asks itself, so that ends of tests become steps.
const QUESTION: &[u8] = b"status\n";

/// The first pause before a test that is about to end is looked at again, in milliseconds.
const SHORTEST_PAUSE: u64 = 1;

/// The longest such pause, in milliseconds.
const LONGEST_PAUSE: u64 = 64;

/// Serves the image of a file over a socket until a client sends `stop`. If a client sends `reload`, it reads the file
/// again and goes on with its image. It makes the socket's file, and removes it at the end. It fails if the file exists
/// already, or if stack or memory are too small. Notes go to standard error.
pub fn serve<'a>(rt: &HostRuntime, options: Serve<'a>) -> Result<(), Failure<'a>> {
    match prepare(rt) {
        Ok(()) => serve_prepared(rt, options),
        Err(failure) => Err(failure),
    }
}

/// Serves the image. It is no part of `serve`, whose stack is to be small until the size of the stack is known.
#[inline(never)]
fn serve_prepared<'a>(rt: &HostRuntime, options: Serve<'a>) -> Result<(), Failure<'a>> {
    let written = StandardError::new(*rt, options.form);
    let notes = Logged::new(*rt, level_of(options.notes), written);
    let images = Bump::new(rt.alloc());
    check_status_file(rt, options)?;
    serve_noted(rt, &notes, &images, options)
}

/// Serves the image, which is the first of these images, and writes notes.
fn serve_noted<'n, 'm, 'a>(
    rt: &'n HostRuntime,
    notes: &'n NoteLog,
    images: &'m Bump,
    options: Serve<'a>,
) -> Result<(), Failure<'a>> {
    let Ok(status_file) = new_status_file(*rt, notes, options) else {
        return Err(Failure::out_of_memory(rt, "V0"));
    };
    let Ok(mut host) = Shell::new(rt, notes, options.limits, status_file.as_ref()) else {
        return Err(Failure::out_of_memory(rt, "V0"));
    };
    let core = open_core(rt, images, options.image)?;
    let mut daemon = Daemon {
        rt,
        notes,
        options,
        images,
        reloads: 0,
        host: &mut host,
        status_file: status_file.as_ref(),
    };
    daemon.run(core)
}

/// Fails if the status file would be that of the image, under whatever name.
fn check_status_file<'a>(rt: &HostRuntime, options: Serve<'a>) -> Result<(), Failure<'a>> {
    match options.facts {
        Some(path) if is_same_file(rt, path, options.image) => Err(Failure::of_system(
            path,
            ErrorKind::AlreadyExists.into(),
        )),
        _ => Ok(()),
    }
}

/// The status file, if there is to be one.
fn new_status_file<'n, 'm>(
    rt: HostRuntime,
    notes: &'n NoteLog,
    options: Serve<'_>,
) -> Result<Option<StatusFile<'n, 'm>>, AllocError> {
    match options.facts {
        Some(path) => Ok(Some(StatusFile::new(rt, notes, path, options.version)?)),
        None => Ok(None),
    }
}

/// Opens the first core. Its image is the first of the images that are kept. If it is refused, writes a report.
fn open_core<'m, 'a>(
    rt: &HostRuntime,
    images: &'m Bump,
    path: &'a str,
) -> Result<Core<'m>, Failure<'a>> {
    let bytes = image_at(rt, path)?;
    match images.try_alloc_slice_copy(bytes.as_slice()) {
        Ok(image) => core_on(rt, path, image, Reports::Text),
        Err(AllocError) => Err(Failure::out_of_memory(rt, "V0")),
    }
}

/// The pauses before a test that is about to end is looked at again. Its pipe is closed a moment before the system reports its end.
/// If its pipe was closed long before, they become longer.
#[derive(Clone, Copy)]
struct Pause {
    /// How long the next one is, in milliseconds.
    next: u64,
}

impl Pause {
    /// Before the first one.
    fn new() -> Pause {
        Pause {
            next: SHORTEST_PAUSE,
        }
    }

    /// What is to be done first, if a client waits and a test ends. After a pause it is to serve the client.
    fn first(self) -> Wake {
        if self.next == SHORTEST_PAUSE {
            Wake::End
        } else {
            Wake::Client
        }
    }

    /// Waits for a pause.
    fn take(&mut self, rt: &HostRuntime) {
        thread::sleep(rt, Duration::from_millis(self.next));
        self.next = self.next.saturating_mul(2).min(LONGEST_PAUSE);
    }
}

/// Where the replies to the daemon's own questions go.
#[derive(Drop)]
struct NoReader;

impl ByteOut for NoReader {
    fn put(&mut self, _bytes: &[u8]) -> Result<(), DeviceFault> {
        Ok(())
    }

    fn flush(&mut self) -> Result<(), DeviceFault> {
        Ok(())
    }
}

/// The state of a daemon, except for its core.
#[derive(Drop)]
struct Daemon<'m, 'p, 'h, 'a> {
    rt: &'a HostRuntime,
    notes: &'a NoteLog,
    options: Serve<'p>,
    /// The first image, and those of reloads.
    images: &'m Bump,
    /// The number of reloads.
    reloads: u32,
    host: &'h mut Shell<'a, 'm, HostRuntime, NoteLog>,
    /// The status file, if there is one.
    status_file: Option<&'a StatusFile<'a, 'm>>,
}

/// What follows a connection.
#[derive(Clone, Copy)]
enum NextAction {
    /// The next connection.
    Serve,
    /// The image is read again, and then the next connection.
    Reload,
    /// The end of the daemon.
    Stop,
}

impl<'m, 'p, 'h, 'a> Daemon<'m, 'p, 'h, 'a> {
    /// Makes the socket, serves its clients, and removes its file.
    fn run(&mut self, core: Core<'m>) -> Result<(), Failure<'p>> {
        match bind_socket(self.rt, self.options.socket) {
            Ok((listener, made)) => {
                let served = self.serve_on(&listener, core);
                self.remove_socket(made, served)
            }
            Err(error) => {
                drop_core(core);
                Err(Failure::of_system(self.options.socket, error))
            }
        }
    }

    /// Serves the clients of a socket.
    fn serve_on(&mut self, listener: &UnixListener, core: Core<'m>) -> Result<(), Failure<'p>> {
        match self.print_ready(listener) {
            Ok(()) => {
                self.serve_connections(listener, core);
                Ok(())
            }
            Err(failure) => {
                drop_core(core);
                Err(failure)
            }
        }
    }

    /// Checks that commands can be run, and prints `ready`.
    fn print_ready(&self, listener: &UnixListener) -> Result<(), Failure<'p>> {
        if let Err(error) = try_host(self.rt, listener) {
            return Err(Failure::Shell(error));
        }
        println!(self.rt; "ready")?;
        Ok(())
    }

    /// Runs the commands of the opening, and then serves up to 4,294,967,295 connections, until one ends with `stop`.
    fn serve_connections(&mut self, listener: &UnixListener, core: Core<'m>) {
        let mut core = core;
        let mut queue = ConnectionQueue::new(listener);
        self.record_opening(&core);
        self.run_opening(&mut core);
        for _ in 0..u32::MAX {
            let Some(stream) = self.next_connection(&mut queue, &mut core) else {
                break;
            };
            let began = Instant::now(self.rt).ok();
            match self.serve_connection(&stream, began, &mut queue, &mut core) {
                NextAction::Serve => {}
                NextAction::Reload => core = self.reload(&stream, began, core),
                NextAction::Stop => break,
            }
        }
        if let Some(status_file) = self.status_file {
            status_file.remove();
        }
    }

    /// Waits for the next connection. Meanwhile the end of each test counts as soon as it comes.
    fn next_connection(
        &mut self,
        queue: &mut ConnectionQueue<'_>,
        core: &mut Core<'m>,
    ) -> Option<UnixStream> {
        let mut pause = Pause::new();
        for _ in 0..u64::MAX {
            let wake = queue.wait(self.host, pause.first());
            if wake == Wake::Client {
                return queue.next(self.rt, self.notes);
            }
            if self.observe_step(core) {
                pause = Pause::new();
            } else if wake == Wake::End {
                pause.take(self.rt);
            }
        }
        None
    }

    /// Makes the steps of the tests that have ended, on a connection of its own that asks one question. Returns whether there
    /// were any.
    fn observe_step(&mut self, core: &mut Core<'m>) -> bool {
        self.record(Event::ConnectionOpened);
        let mut input = MemoryIn::new(QUESTION);
        let served = serve_one(core, self.host, &mut input, &mut NoReader);
        if served.steps.is_empty() {
            return false;
        }
        self.end_connection(core);
        true
    }

    /// Runs the commands of an opening, and records its end.
    fn run_opening(&mut self, core: &mut Core<'m>) {
        run_queue(core, self.host);
        self.record_end(core);
    }

    /// Records the end of a connection, and notes how many notes found no room.
    fn end_connection(&self, core: &Core<'m>) {
        self.record_end(core);
        self.notes.flush();
    }

    /// Records that the steps of a connection or the commands of an opening were made.
    fn record_end(&self, core: &Core<'m>) {
        if self.status_file.is_some() {
            let running = running_tests(self.host);
            self.record(Event::StepsMade { core, running });
        }
    }

    /// Records a core that was opened now.
    fn record_opening(&mut self, core: &Core<'m>) {
        self.host.begin(core);
        if self.status_file.is_some() {
            let bytes = length_of(self.rt, self.options.image);
            self.record(Event::ImageOpened { core, bytes });
        }
    }

    /// Records an event, if there is a status file.
    fn record(&self, event: Event<'_, 'm>) {
        record(self.status_file, event);
    }

    /// Serves one connection, whose turn came at this moment. If the allocation for its replies fails, it is noted and not
    /// served. After a failed write it is looked for a line `stop` alone.
    fn serve_connection(
        &mut self,
        stream: &UnixStream,
        began: Option<Instant>,
        queue: &mut ConnectionQueue<'_>,
        core: &mut Core<'m>,
    ) -> NextAction {
        let timer = ClientTimer::new(self.rt, stream, began);
        let writer = TimedWriter::new(&timer);
        let Ok(writer) = BufWriter::with_capacity(self.rt.alloc(), HELD, writer) else {
            note_no_memory(self.notes);
            return NextAction::Serve;
        };
        let mut input = ClientLines::new(&timer, queue);
        let mut output = ToWrite::new(writer);
        self.record(Event::ConnectionOpened);
        let Served { end, stopped, .. } = serve_one(core, self.host, &mut input, &mut output);
        self.end_connection(core);
        if let End::Fault(_) = end {
            // so that dropping the writer does not write again
            let _closed = stream.shutdown(Shutdown::Write);
        }
        let is_cut = end == End::Fault(SessionFault::WriteFailed);
        self.next_action(end, stopped || is_cut && input.drain_for_stop())
    }

    /// Notes a connection's end, unless it is a reload, and returns what follows.
    fn next_action(&self, end: End, stopped: bool) -> NextAction {
        if end == End::Reload {
            return NextAction::Reload;
        }
        note_end(self.notes, self.options.notes, end);
        if stopped {
            NextAction::Stop
        } else {
            NextAction::Serve
        }
    }

    /// Reads the image again, and opens it in place of a core. If it is refused, that core goes on. Either way the client gets
    /// a line, and its connection is closed. Then the commands of the opening run, also if the client is gone.
    fn reload(&mut self, stream: &UnixStream, began: Option<Instant>, core: Core<'m>) -> Core<'m> {
        self.record(Event::ConnectionOpened);
        let reloaded = reload(self.rt, self.images, self.options.image, self.reloads, core);
        self.record(Event::Reloaded {
            is_refused: reloaded.is_err(),
        });
        let timer = ClientTimer::new(self.rt, stream, began);
        let mut output = ToWrite::new(TimedWriter::new(&timer));
        let mut core = match reloaded {
            Ok(core) => self.finish_reload(core, &mut output),
            Err(FileRefused { core, fault, read }) => {
                note_refused_reload(self.notes, self.rt.alloc(), fault, &read);
                // the core goes on, also if the client is gone
                let _written = write_refused(fault.text(), &mut output);
                core
            }
        };
        // so that the client waits for no command
        let _closed = stream.shutdown(Shutdown::Both);
        note_end(self.notes, self.options.notes, End::Reload);
        // a core that goes on has an empty queue
        self.run_opening(&mut core);
        core
    }

    /// Counts, records and notes a reload, and writes its line.
    fn finish_reload<W: ByteOut>(&mut self, core: Core<'m>, output: &mut W) -> Core<'m> {
        self.reloads = self.reloads.saturating_add(1);
        self.record_opening(&core);
        note_reload(self.notes, &core);
        let _written = write_reloaded(&core, output);
        core
    }

    /// Removes the socket's file. If that fails, it is the failure.
    fn remove_socket(
        &self,
        made: FileId,
        served: Result<(), Failure<'p>>,
    ) -> Result<(), Failure<'p>> {
        match remove_made(self.rt, self.options.socket, made) {
            Ok(()) => served,
            Err(error) => Err(Failure::of_system(self.options.socket, error)),
        }
    }
}

/// The tests that run.
fn running_tests(host: &Shell<'_, '_, HostRuntime, NoteLog>) -> TestSet {
    let mut running = 0;
    for index in (0..MOST as u16).rev() {
        running = running << 1 | u64::from(host.is_running(TestId(index)));
    }
    TestSet(running)
}

/// Drops a core. One function for all exits makes their proofs cheaper.
fn drop_core(_core: Core<'_>) {}

/// Runs the shell once, with one more file descriptor open, as during a connection.
fn try_host(rt: &HostRuntime, listener: &UnixListener) -> io::Result<()> {
    let _as_a_connection = listener.try_clone()?;
    try_shell(rt)
}
