//! Why a file is not written, by a try to write beside it.

use crate::shell::SHELL;
use crate::system_words::SystemWords;
use std::alloc::Global;
use std::io::{self, ErrorKind};
use std::process::{Child, Command, OpenProcess, Processes, Stdio};
use std::rt::{Clock, Files};
use std::time::Duration;
use std::{fs, thread};

/// What the shell tries: to make a file and to remove it.
const TRY: &str = ": > \"$1\"; rm -f \"$1\"";

/// Looks at a program that is to end soon, and the pause before each, in milliseconds.
const LOOKS: u32 = 40;

const PAUSE: u64 = 25;

/// Why the file at a path cannot be replaced by one of this length, in words: the disk hangs, or what the system says of a file
/// beside it. It is none if such a file can be written, or if this user may not write there. It waits at most a second, and leaves
/// no file; a try that hangs removes its file once it goes on.
pub fn why_unwritable<R: Processes + Files + Clock + Alloc<A = Global>>(
    rt: &R,
    path: &str,
    length: usize,
) -> Option<String> {
    let beside = format!(in rt.alloc(); "{path}.probe").ok()?;
    if hangs(rt, beside.as_str()).unwrap_or(false) {
        return String::from_str(rt.alloc(), "the disk hangs").ok();
    }
    match write_and_remove(rt, beside.as_str(), length) {
        Err(error) if error.kind() != ErrorKind::PermissionDenied => {
            format!(in rt.alloc(); "{}", SystemWords(&error)).ok()
        }
        _ => None,
    }
}

/// Whether a file at a path is not made within a second.
fn hangs<R: Processes + Files + Clock + Alloc<A = Global>>(rt: &R, path: &str) -> io::Result<bool> {
    let mut child = spawn_try(rt, path)?;
    for _ in 0..LOOKS {
        if child.try_wait()?.is_some() {
            return Ok(false);
        }
        thread::sleep(rt, Duration::from_millis(PAUSE));
    }
    let_go(child);
    Ok(true)
}

/// Lets go of a program that hangs.
fn let_go<P: OpenProcess + Drop>(_child: Child<P>) {}

/// Starts the shell that makes and removes a file.
fn spawn_try<R: Processes + Alloc<A = Global>>(
    rt: &R,
    path: &str,
) -> io::Result<Child<R::Started>> {
    let mut command = Command::new(rt.alloc(), SHELL)?;
    command.arg("-c")?.arg(TRY)?.arg(SHELL)?.arg(path)?;
    command
        .stdin(Stdio::null())
        .stdout(Stdio::null())
        .stderr(Stdio::null());
    command.spawn(rt)
}

/// Writes a file of this length, and removes it.
fn write_and_remove<R: Files + Alloc<A = Global>>(
    rt: &R,
    path: &str,
    length: usize,
) -> io::Result<()> {
    let bytes = vec![in rt.alloc(); 0u8; length]?;
    let written = fs::write(rt, path, bytes.as_slice());
    let _removed = fs::remove_file(rt, path);
    written
}
