//! Standard error as the place of a daemon's notes. A write to it never waits.

ghost use Rattle.std.specs.Io.{WritesAtMost};

use crate::system_limits::Stream;
use ifs_options::NoteForm;
use log::kv::Source;
use log::span::Spans;
use log::{Level, Log, Metadata, Record};
use std::alloc::{AllocError, Global};
use std::cell::Cell;
use std::fmt::Display;
use std::io::{self, ErrorKind, Write};

/// The most bytes of one write. A pipe with room for any has room for so many.
const PIECE: usize = 4_096;

/// The beginning of a note's line.
fn beginning(form: NoteForm, level: Level) -> &'static str {
    match (form, level) {
        (NoteForm::Named, Level::Error) => "[ERROR ifsvm] ",
        (NoteForm::Named, Level::Warn) => "[WARN  ifsvm] ",
        (NoteForm::Named, _) => "[INFO  ifsvm] ",
        (NoteForm::Numbered, Level::Error) => "<3>",
        (NoteForm::Numbered, Level::Warn) => "<4>",
        (NoteForm::Numbered, _) => "<6>",
        (NoteForm::Json, Level::Error) => "{\"level\":\"error\",\"note\":",
        (NoteForm::Json, Level::Warn) => "{\"level\":\"warn\",\"note\":",
        (NoteForm::Json, _) => "{\"level\":\"info\",\"note\":",
    }
}

/// A text in JSON, with its quotes.
fn in_json(alloc: Global, text: &str) -> Result<String, AllocError> {
    match serde_json::to_string(alloc, &text) {
        Ok(quoted) => Ok(quoted),
        Err(_memory) => Err(AllocError),
    }
}

/// Standard error, where notes are written in this form. A note that finds no room, or no memory, is dropped and counted.
/// The number of dropped notes is a note itself, once there is room again.
#[derive(Drop)]
pub struct StandardError {
    rt: HostRuntime,
    form: NoteForm,
    /// The number of notes that were dropped since the last note on them.
    dropped: Cell<u64>,
    /// Whether the last line is there in part.
    is_torn: Cell<bool>,
}

impl StandardError {
    /// The standard error of a runtime.
    pub fn new(rt: HostRuntime, form: NoteForm) -> Self {
        StandardError {
            rt,
            form,
            dropped: Cell::new(0),
            is_torn: Cell::new(false),
        }
    }

    /// Writes a line with its newline, after the note on dropped notes. If there is no room for the whole of it, nothing or
    /// a part of it is written.
    fn put_note(&self, line: &str) -> io::Result<()> {
        self.put_dropped()?;
        self.put(line)?;
        Ok(())
    }

    /// Notes how many notes were dropped, if any were.
    fn put_dropped(&self) -> io::Result<()> {
        let dropped = self.dropped.get();
        if dropped == 0 {
            return Ok(());
        }
        let line = self.line_of(
            Level::Warn,
            &format_args!("{dropped} notes dropped: no room on standard error"),
        )?;
        self.put(line.as_str())?;
        self.dropped.set(0);
        Ok(())
    }

    /// The line of a note, with its newline.
    fn line_of(&self, level: Level, note: &impl Display) -> Result<String, AllocError> {
        let alloc = self.rt.alloc();
        let beginning = beginning(self.form, level);
        let note = format!(in alloc; "{note}")?;
        match self.form {
            NoteForm::Json => {
                let note = in_json(alloc, note.as_str())?;
                format!(in alloc; "{beginning}{note}}}\n")
            }
            NoteForm::Named | NoteForm::Numbered => format!(in alloc; "{beginning}{note}\n"),
        }
    }

    /// Writes a line with its newline, after the end of one that is there in part.
    fn put(&self, line: &str) -> io::Result<()> {
        let mut pieces = Pieces { to: self };
        if self.is_torn.get() {
            pieces.write_all(b"\n")?;
        }
        pieces.write_all(line.as_bytes())?;
        Ok(())
    }

    /// Writes a piece of a line if there is room.
    fn put_piece(&self, piece: &[u8]) -> io::Result<usize>
        ensures bound { WritesAtMost result piece.now }
    {
        if !Stream::Error.can_write_at_once() {
            return Err(ErrorKind::WouldBlock.into());
        }
        Stream::Error.check_growth(&self.rt)?;
        let mut stream = self.rt.stderr();
        stream.write(piece)
    }
}

/// The pieces of a line.
#[derive(Drop)]
struct Pieces<'a> {
    to: &'a StandardError,
}

impl Write for Pieces<'_> {
    fn write(&mut self, buf: &[u8]) -> io::Result<usize> {
        let piece = &buf[..buf.len().min(PIECE)];
        let count = self.to.put_piece(piece)?;
        if count > 0 {
            let is_whole = count == piece.len() && matches!(piece, [.., b'\n']);
            self.to.is_torn.set(!is_whole);
        }
        Ok(count)
    }

    fn flush(&mut self) -> io::Result<()> {
        Ok(())
    }
}

impl Log for StandardError {
    fn enabled(&self, _metadata: &Metadata<'_>) -> bool {
        true
    }

    fn log<D: Display, K: Source, S: Spans>(&self, record: &Record<'_, D, K, S>) {
        let is_noted = match self.line_of(record.level(), record.args()) {
            Ok(line) => self.put_note(line.as_str()).is_ok(),
            Err(_no_memory) => false,
        };
        if !is_noted {
            self.dropped.set(self.dropped.get().saturating_add(1));
        }
    }

    /// Notes how many notes were dropped, if there is room for that now.
    fn flush(&self) {
        // it is tried again before the next note
        let _noted = self.put_dropped();
    }

    fn target(&self) -> &str {
        "ifsvm"
    }
}
