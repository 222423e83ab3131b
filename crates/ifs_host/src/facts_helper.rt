//! The helper of a daemon, a process of its own that keeps the daemon's facts in their file. So a disk that hangs holds up the
//! helper alone.
//!
//! It reads orders from standard input, one on each line: facts to write, or `remove`. To each it writes an answer to standard
//! output, on a line of its own, which is empty if all went well and says what failed if not. It ends with its input.

use crate::files::FileFault;
use crate::images::create_beside;
use crate::sockets::{FileId, remove_made};
use crate::system_limits::check_length;
use std::fs::{self, File, TryLockError};
use std::io::{self, BufRead, BufReader, ErrorKind, Write};

/// The name under which the program is the helper of a daemon.
pub const NAME: &str = "ifsvm-facts";

/// The order to remove the file.
pub const REMOVE: &str = "remove\n";

/// The rights that the file may have, as the daemon's socket: those of its owner and of its group.
const RIGHTS: u32 = 0o660;

/// The number of standard output.
const OUTPUT: i32 = 1;

/// How many names of new files are looked at for those of daemons that were killed.
const NAMES: u32 = 64;

/// The file that the program is to keep, if these are the words of a helper.
pub fn file_to_keep(words: &[String]) -> Option<&str> {
    match words {
        [name, path] if name.as_str() == NAME => Some(path.as_str()),
        _ => None,
    }
}

/// Obeys the orders of a daemon for the file at this path, until there are no more. The error is of a stream.
pub fn keep_facts(rt: &HostRuntime, path: &str) -> io::Result<()> {
    let _named = os::set_thread_name(NAME.as_bytes());
    let mut kept = KeptFile::new(rt, path);
    let mut orders = BufReader::new(rt.alloc(), rt.reader())?;
    let mut order = String::new(rt.alloc());
    for _ in 0..u64::MAX {
        order.clear();
        orders.read_line(&mut order)?;
        // what the daemon did not complete is no order
        if !order.as_str().ends_with('\n') {
            break;
        }
        let done = kept.obey(order.as_str());
        // a daemon that has ended reads no answer, and its last orders count all the same
        let _answered = answer(rt, done);
    }
    Ok(())
}

/// Writes the answer to an order. It fails if nobody reads it.
fn answer(rt: &HostRuntime, done: Result<(), FileFault>) -> io::Result<()> {
    let line = match done {
        Ok(()) => String::from_str(rt.alloc(), "\n")?,
        Err(fault) => format!(in rt.alloc(); "{fault}\n")?,
    };
    if os::write_no_sigpipe(OUTPUT, line.as_bytes()) < 0 {
        return Err(io::Error::from_raw_os_error(os::errno()));
    }
    Ok(())
}

/// The file of a daemon's facts.
#[derive(Drop)]
struct KeptFile<'a> {
    rt: &'a HostRuntime,
    path: &'a str,
    /// The file as it was written last, which is locked. There is none before.
    made: Option<MadeFile>,
}

/// A file that was written, and is locked as long as it is open.
#[derive(Drop)]
struct MadeFile {
    id: FileId,
    _lock: File,
}

impl<'a> KeptFile<'a> {
    /// The file at this path, which is not looked at yet.
    fn new(rt: &'a HostRuntime, path: &'a str) -> KeptFile<'a> {
        KeptFile {
            rt,
            path,
            made: None,
        }
    }

    /// Writes facts, or removes the file.
    fn obey(&mut self, order: &str) -> Result<(), FileFault> {
        if order == REMOVE {
            Ok(self.remove()?)
        } else {
            self.write(order.as_bytes())
        }
    }

    /// Replaces the file, if it is a regular one or there is none, and no other daemon keeps it. The system may lose it at a loss
    /// of power. If anything fails, the old one stays.
    fn write(&mut self, facts: &[u8]) -> Result<(), FileFault> {
        if !is_replaceable(self.rt, self.path)? {
            return Err(FileFault::NotRegular);
        }
        check_length(facts.len())?;
        // it is locked until it is replaced
        let _old = self.lock_other()?;
        if self.made.is_none() {
            remove_abandoned(self.rt, self.path)?;
        }
        self.made = Some(replace(self.rt, self.path, facts)?);
        Ok(())
    }

    /// Locks the file that is there, unless it is the one that was written last. It fails if another daemon keeps it.
    fn lock_other(&self) -> io::Result<Option<File>> {
        let file = match fs::open(self.rt, self.path) {
            Ok(file) => file,
            Err(error) if error.kind() == ErrorKind::NotFound => return Ok(None),
            Err(error) => return Err(error),
        };
        let id = FileId::of(&file.metadata()?);
        if self.has_made(id) {
            return Ok(None);
        }
        if is_locked(&file) || FileId::behind(self.rt, self.path)? != id {
            return Err(io::Error::other("another daemon writes it"));
        }
        Ok(Some(file))
    }

    /// Whether a file is the one that was written last.
    fn has_made(&self, id: FileId) -> bool {
        self.made.as_ref().is_some_and(|made| made.id == id)
    }

    /// Removes the file, if it is the one that was written last.
    fn remove(&mut self) -> io::Result<()> {
        match self.made.take() {
            Some(made) => remove_made(self.rt, self.path, made.id),
            None => Ok(()),
        }
    }
}

/// Whether there is no file at a path, or a regular one.
fn is_replaceable(rt: &HostRuntime, path: &str) -> io::Result<bool> {
    match fs::metadata(rt, path) {
        Ok(found) => Ok(found.is_file()),
        Err(error) if error.kind() == ErrorKind::NotFound => Ok(true),
        Err(error) => Err(error),
    }
}

/// Locks a file. Returns whether another process has locked it. A system without locks has locked none.
fn is_locked(file: &File) -> bool {
    matches!(file.try_lock(), Err(TryLockError::WouldBlock))
}

/// Replaces the file at a path by a new one that is locked. If it cannot be replaced, there is no new file.
fn replace(rt: &HostRuntime, path: &str, facts: &[u8]) -> io::Result<MadeFile> {
    let (name, file) = create_beside(rt, path, RIGHTS)?;
    match put_in_place(rt, (name.as_str(), path), file, facts) {
        Ok(made) => Ok(made),
        Err(error) => {
            // the first failure is reported, also if the new file cannot be removed
            let _removed = fs::remove_file(rt, name.as_str());
            Err(error)
        }
    }
}

/// Locks a new file, writes facts to it, and puts it in the place of another one.
fn put_in_place(
    rt: &HostRuntime,
    (name, path): (&str, &str),
    file: File,
    facts: &[u8],
) -> io::Result<MadeFile> {
    let mut file = file;
    // nobody else knows it
    let _taken = is_locked(&file);
    file.write_all(facts)?;
    let id = FileId::of(&file.metadata()?);
    fs::rename(rt, name, path)?;
    Ok(MadeFile { id, _lock: file })
}

/// Removes the new files that daemons left which were killed while they wrote. Files of daemons that run stay.
fn remove_abandoned(rt: &HostRuntime, path: &str) -> io::Result<()> {
    for number in 1..=NAMES {
        let name = format!(in rt.alloc(); "{path}.{number}.new")?;
        if is_abandoned(rt, name.as_str()) {
            // it may stay if the system refuses that
            let _removed = fs::remove_file(rt, name.as_str());
        }
    }
    Ok(())
}

/// Whether a path is that of a regular file that no process has locked.
fn is_abandoned(rt: &HostRuntime, path: &str) -> bool {
    match fs::symlink_metadata(rt, path) {
        Ok(found) if found.is_file() => match fs::open(rt, path) {
            Ok(file) => !is_locked(&file),
            Err(_gone) => false,
        },
        _ => false,
    }
}
