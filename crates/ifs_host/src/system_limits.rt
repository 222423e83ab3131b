//! What the system has room for: a write that does not wait, a longer file, and the stack and memory of a daemon.

use crate::failure::Failure;
use libc::types::{pollfd, rlimit};
use std::rt::Files;
use std::{fs, io};

/// The fewest bytes of stack for a daemon. A quarter of it may be taken by the words and the environment of the program.
const STACK: u64 = 524_288;

/// The bytes of stack below `prepare` that a daemon may come to use.
const DEPTH: usize = 327_680;

/// The bytes of memory that have to be free at the start: those of the stack, and some for the buffers of a connection.
const MEMORY: usize = 589_824;

/// The number of the limit on the length of files.
const FILE_LENGTH: i32 = 1;

/// The number of no descriptor.
const NO_DESCRIPTOR: i32 = -1;

/// A standard stream that is written to.
#[derive(Clone, Copy)]
pub enum Stream {
    /// Standard output.
    Output,
    /// Standard error.
    Error,
}

impl Stream {
    fn descriptor(self) -> i32 {
        match self {
            Stream::Output => libc::STDOUT_FILENO,
            Stream::Error => libc::STDERR_FILENO,
        }
    }

    /// The path of what is open there.
    fn path(self) -> &'static str {
        match self {
            Stream::Output => "/proc/self/fd/1",
            Stream::Error => "/proc/self/fd/2",
        }
    }

    /// Whether a write of at most 4,096 bytes ends at once. It waits if the stream is a pipe, a socket or a terminal that
    /// is full.
    pub fn can_write_at_once(self) -> bool {
        let mut asked = [pollfd {
            fd: self.descriptor(),
            events: libc::net::POLLOUT,
            revents: 0,
        }];
        libc::net::poll(&mut asked, 0) > 0
    }

    /// Whether the stream is a pipe or a socket that nobody reads any more.
    pub fn has_no_reader(self) -> bool {
        let mut asked = [pollfd {
            fd: self.descriptor(),
            events: 0,
            revents: 0,
        }];
        libc::net::poll(&mut asked, 0) > 0 && asked[0].revents & libc::net::POLLERR != 0
    }

    /// Fails if the stream is a file that has the greatest length of files already. The system would also send a signal for
    /// a write to it.
    pub fn check_growth(self, rt: &impl Files) -> io::Result<()> {
        let most = longest_file();
        if most == u64::MAX {
            return Ok(());
        }
        match self.file_length(rt) {
            Some(length) if length >= most => Err(too_long()),
            _ => Ok(()),
        }
    }

    /// The length of the file that the stream is, or the place of the next write, whichever is greater. It is `None` if the
    /// stream is no file. Without the system's list of open files it is the place alone.
    fn file_length(self, rt: &impl Files) -> Option<u64> {
        let place = libc::lseek(self.descriptor(), 0, libc::SEEK_CUR);
        let place = u64::try_from(place).ok()?;
        match fs::metadata(rt, self.path()) {
            Ok(found) if found.is_file() => Some(place.max(found.len())),
            Ok(_no_file) => None,
            Err(_unknown) => Some(place),
        }
    }
}

/// Fails if the process may write no file of so many bytes. The system would also send a signal for the write.
pub fn check_length(length: usize) -> io::Result<()> {
    if longest_file() < length as u64 {
        Err(too_long())
    } else {
        Ok(())
    }
}

/// The error of a file that is too long.
fn too_long() -> io::Error {
    io::Error::from_raw_os_error(libc::EFBIG)
}

/// The greatest length of files that the process writes.
fn longest_file() -> u64 {
    limit_of(FILE_LENGTH)
}

/// A limit of the process. It is the greatest number if there is none.
fn limit_of(resource: i32) -> u64 {
    let mut limit = rlimit {
        rlim_cur: u64::MAX,
        rlim_max: u64::MAX,
    };
    // a system that does not say it has no limit to keep
    let _status = libc::getrlimit(resource, &mut limit);
    limit.rlim_cur
}

/// Checks that there are stack and memory for a daemon, and takes the stack. So a daemon that is ready does not run out of
/// stack later.
pub fn prepare<'a>(rt: &HostRuntime) -> Result<(), Failure<'a>> {
    let stack = limit_of(libc::RLIMIT_STACK);
    if stack < STACK {
        return Err(Failure::Stack {
            bytes: stack,
            needed: STACK,
        });
    }
    if !has_memory(rt) {
        return Err(Failure::out_of_memory(rt, "V0"));
    }
    take_stack();
    Ok(())
}

/// Whether an allocation of the memory that has to be free succeeds.
#[inline(never)]
fn has_memory(rt: &HostRuntime) -> bool {
    let mut spare: Vec<u8> = Vec::new(rt.alloc());
    spare.try_reserve(MEMORY).is_ok()
}

/// Uses as much stack as a daemon may, so that the system gives it now.
#[inline(never)]
fn take_stack() {
    let mut room = [0u8; DEPTH];
    // a read that fails: the system is passed all of the room, so the room has to be there
    let _failed = libc::read(NO_DESCRIPTOR, &mut room);
}
