//! Writing image files.

ghost use Rattle.std.specs.Prelude.{OnOk};
ghost use Rattle.std.specs.Io.KnownBytes.{Appends};

use crate::system_limits::check_length;
use std::alloc::Global;
use std::fs::{self, OpenFile, OpenOptions, Permissions};
use std::io::{self, ErrorKind, Write};
use std::os::unix::fs::OpenOptionsExt;
use std::path::Path;
use std::rt::Files;

/// The rights that a new image may have.
const RIGHTS: u32 = 0o666;

/// Writes an image to a path. A regular file is written whole or not at all: a new file with its mode replaces it. If
/// anything fails before that, the old file is unchanged and no other file is left. Then the folder is synced, so that the
/// new file survives a loss of power. If the path is a link to a file, that file is replaced and the link stays. Anything
/// but a regular file, such as a device, is written in place.
///
/// An error is that of the first system call that failed: for a link that leads nowhere, for a folder in place of a file, or
/// for a folder that is missing or full. A failed allocation is an error too. If the folder cannot be synced, that is an
/// error, and the new file is there. It is no error if the user may not read the folder, or if the system syncs no folders.
pub fn write_image<R: Files + Alloc<A = Global>>(
    rt: &R,
    path: &str,
    image: &[u8],
) -> io::Result<()> {
    let named = match fs::symlink_metadata(rt, path) {
        Ok(named) => named,
        Err(error) if error.kind() == ErrorKind::NotFound => {
            return replace(rt, path, None, image);
        }
        Err(error) => return Err(error),
    };
    let old = fs::metadata(rt, path)?;
    if !old.is_file() {
        let mut device = OpenOptions::new().write(true).open(rt, path)?;
        put(&mut device, image)
    } else if named.is_symlink() {
        let file = fs::canonicalize(rt, path)?;
        replace(rt, file.as_str(), Some(old.permissions()), image)
    } else {
        replace(rt, path, Some(old.permissions()), image)
    }
}

/// Replaces the file at a path by a new one, and syncs both it and its folder. If it cannot be replaced, there is no new file.
fn replace<R: Files + Alloc<A = Global>>(
    rt: &R,
    path: &str,
    mode: Option<Permissions>,
    image: &[u8],
) -> io::Result<()> {
    let (name, mut file) = create_beside(rt, path, RIGHTS)?;
    let mut done = fill(&mut file, mode, image);
    if done.is_ok() {
        done = fs::rename(rt, name.as_str(), path);
    }
    if done.is_err() {
        // the first failure is reported, also if the new file cannot be removed
        let _removed = fs::remove_file(rt, name.as_str());
    }
    done?;
    sync_folder(rt, folder_of(path))
}

/// The folder of a path's last name.
fn folder_of(path: &str) -> &str {
    match Path::new(path).parent() {
        Some(folder) if !folder.as_str().is_empty() => folder.as_str(),
        _ => ".",
    }
}

/// Syncs the names of a folder. It ignores a folder that may not be read, and a system that syncs no folders.
fn sync_folder<R: Files>(rt: &R, folder: &str) -> io::Result<()> {
    match fs::open(rt, folder).and_then(|names| names.sync_all()) {
        Err(error) if is_left_to_system(error.kind()) => Ok(()),
        synced => synced,
    }
}

/// Whether an error means that this user or this system cannot sync a folder.
fn is_left_to_system(kind: ErrorKind) -> bool {
    matches!(
        kind,
        ErrorKind::PermissionDenied | ErrorKind::InvalidInput | ErrorKind::Unsupported
    )
}

/// Creates a file in the folder of a path, under a free name. It has those of these rights that the umask leaves.
pub(crate) fn create_beside<R: Files + Alloc<A = Global>>(
    rt: &R,
    path: &str,
    rights: u32,
) -> io::Result<(String, R::File)> {
    let mut options = OpenOptions::new();
    options.write(true).create_new(true).mode(rights);
    for number in 1..=u32::MAX {
        let name = format!(in rt.alloc(); "{path}.{number}.new")?;
        match options.open(rt, name.as_str()) {
            Ok(file) => return Ok((name, file)),
            Err(error) if error.kind() == ErrorKind::AlreadyExists => {}
            Err(error) => return Err(error),
        }
    }
    Err(io::Error::from(ErrorKind::AlreadyExists))
}

/// Sets the mode of an empty file, writes its bytes, and syncs it.
fn fill<F: Write + OpenFile>(
    file: &mut F,
    mode: Option<Permissions>,
    image: &[u8],
) -> io::Result<()>
    ensures { OnOk result (Appends (F.Write.contents file.old) (F.Write.contents file.new) image.now) }
{
    if let Some(mode) = mode {
        file.set_permissions(mode)?;
    }
    check_length(image.len())?;
    put(file, image)?;
    file.sync_all()
}

/// Writes every byte of an image, once and in order.
fn put<W: Write>(device: &mut W, image: &[u8]) -> io::Result<()>
    ensures { OnOk result (Appends (W.contents device.old) (W.contents device.new) image.now) }
{
    device.write_all(image)?;
    device.flush()
}
