//! The socket's file of a daemon, and which files are the same.

use std::fs::{self, Metadata, Permissions};
use std::io::{self, ErrorKind};
use std::net::Net;
use std::os::fd::{AsFd, AsRawFd, OwnedFd};
use std::os::unix::fs::{MetadataExt, PermissionsExt};
use std::os::unix::net::{SocketAddr, UnixListener};
use std::rt::Files;

/// The permissions that the socket's file may have: those of its owner and of its group.
const RIGHTS: u32 = 0o770;

/// As many connections may wait as the system allows.
const WAITING: i32 = -1;

/// The identity of a file.
#[derive(Clone, Copy, PartialEq, Eq)]
pub struct FileId {
    device: u64,
    inode: u64,
}

impl FileId {
    /// The identity of the file at a path. A link is not followed.
    fn at(rt: &HostRuntime, path: &str) -> io::Result<FileId> {
        Ok(FileId::of(&fs::symlink_metadata(rt, path)?))
    }

    /// The identity of the file that a path leads to.
    pub fn behind(rt: &HostRuntime, path: &str) -> io::Result<FileId> {
        Ok(FileId::of(&fs::metadata(rt, path)?))
    }

    /// The identity of a file with this metadata.
    pub fn of(metadata: &Metadata) -> FileId {
        FileId {
            device: metadata.dev(),
            inode: metadata.ino(),
        }
    }
}

/// Whether two paths lead to one file.
pub fn is_same_file(rt: &HostRuntime, one: &str, other: &str) -> bool {
    match (FileId::behind(rt, one), FileId::behind(rt, other)) {
        (Ok(one), Ok(other)) => one == other,
        _ => false,
    }
}

/// Makes a socket that clients can connect to, and returns the identity of its file. It fails if the file exists already.
///
/// The file gives no right to others, whatever the umask is. Nobody can connect before that holds: the socket listens last.
/// On Linux the file never gives more rights than its socket has, so others have none from the start.
pub fn bind_socket(rt: &HostRuntime, path: &str) -> io::Result<(UnixListener, FileId)> {
    let address = SocketAddr::from_pathname(path)?;
    let socket = rt.unix_socket()?;
    // where the system refuses this, others have rights until they are removed below
    let _restricted = libc::fchmod(socket.as_raw_fd(), RIGHTS);
    rt.bind_unix(socket.as_fd(), &address)?;
    let made = FileId::at(rt, path)?;
    match listen(rt, path, socket) {
        Ok(listener) => Ok((listener, made)),
        Err(error) => {
            // the first failure is reported, also if the file cannot be removed
            let _removed = remove_made(rt, path, made);
            Err(error)
        }
    }
}

/// Removes the permissions of others on the file of a socket, and then lets clients connect.
fn listen(rt: &HostRuntime, path: &str, socket: OwnedFd) -> io::Result<UnixListener> {
    let mode = fs::symlink_metadata(rt, path)?.permissions().mode();
    fs::set_permissions(rt, path, Permissions::from_mode(mode & RIGHTS))?;
    if libc::net::listen(socket.as_raw_fd(), WAITING) < 0 {
        return Err(io::Error::from_raw_os_error(os::errno()));
    }
    Ok(UnixListener::from(socket))
}

/// Removes the file at a path if it is still the one with this identity.
pub fn remove_made(rt: &HostRuntime, path: &str, made: FileId) -> io::Result<()> {
    match FileId::at(rt, path) {
        Ok(now) if now == made => fs::remove_file(rt, path),
        Err(error) if error.kind() != ErrorKind::NotFound => Err(error),
        _ => Ok(()),
    }
}
