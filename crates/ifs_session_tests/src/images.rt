//! Images are written whole or not at all, whichever call of the system fails.

use crate::checks::{holds_in, same_in};
use ifs_host::images::write_image;
use std::alloc::Allocator;
use std::cell::Cell;
use std::fs::{Metadata, OpenFile, OpenOptions, Permissions};
use std::io::{self, ErrorKind, Read, Seek, SeekFrom, Write};
use std::process::Abort;
use std::rt::Files;

const OLD: usize = 3;

const IMAGE: &[u8] = b"IFSV\x01";

/// A folder with an image and a new file beside it. Only their lengths are kept. One call fails, in one way.
#[derive(Drop)]
struct Folder {
    name: &'static str,
    fails_at: u32,
    failure: ErrorKind,
    calls: Cell<u32>,
    image: Cell<Option<usize>>,
    fresh: Cell<Option<usize>>,
    is_synced: Cell<bool>,
    is_interrupted: Cell<bool>,
    is_renamed: Cell<bool>,
    /// Whether the device has the names of the folder as they are.
    are_names_synced: Cell<bool>,
}

impl Folder {
    fn new(name: &'static str, image: Option<usize>, fails_at: u32, failure: ErrorKind) -> Folder {
        Folder {
            name,
            fails_at,
            failure,
            calls: Cell::new(0),
            image: Cell::new(image),
            fresh: Cell::new(None),
            is_synced: Cell::new(false),
            is_interrupted: Cell::new(false),
            is_renamed: Cell::new(false),
            are_names_synced: Cell::new(true),
        }
    }

    /// Counts a call, and fails at its turn.
    fn called(&self) -> io::Result<()> {
        let number = self.calls.get();
        self.calls.set(number.saturating_add(1));
        if number == self.fails_at {
            return Err(io::Error::from(self.failure));
        }
        Ok(())
    }
}

/// The view of a folder that a program has.
#[derive(Drop)]
struct View<'a>(&'a Folder);

/// The new file or the folder itself, opened.
#[derive(Drop)]
struct Opened<'a> {
    folder: &'a Folder,
    is_folder: bool,
}

impl Read for Opened<'_> {
    fn read(&mut self, _buffer: &mut [u8]) -> io::Result<usize> {
        Ok(0)
    }
}

impl Seek for Opened<'_> {
    fn seek(&mut self, _to: SeekFrom) -> io::Result<u64> {
        Ok(0)
    }
}

impl Write for Opened<'_> {
    /// Takes two bytes at most, after one interruption.
    fn write(&mut self, bytes: &[u8]) -> io::Result<usize> {
        self.folder.called()?;
        if !self.folder.is_interrupted.replace(true) {
            return Err(io::Error::from(ErrorKind::Interrupted));
        }
        let count = bytes.len().min(2);
        let length = self.folder.fresh.get().unwrap_or(0).saturating_add(count);
        self.folder.fresh.set(Some(length));
        Ok(count)
    }

    fn flush(&mut self) -> io::Result<()> {
        self.folder.called()
    }
}

impl OpenFile for Opened<'_> {
    fn metadata(&self) -> io::Result<Metadata> {
        Ok(Metadata::of_file(0))
    }

    fn set_len(&self, _size: u64) -> io::Result<()> {
        Ok(())
    }

    fn sync_all(&self) -> io::Result<()> {
        self.folder.called()?;
        if self.is_folder {
            self.folder.are_names_synced.set(true);
        } else {
            self.folder.is_synced.set(true);
        }
        Ok(())
    }

    fn sync_data(&self) -> io::Result<()> {
        Ok(())
    }

    fn set_permissions(&self, _mode: Permissions) -> io::Result<()> {
        self.folder.called()
    }
}

impl<'a> Files for View<'a> {
    type File = Opened<'a>;

    type Dir = Opened<'a>;

    fn open_file(&self, how: &OpenOptions, path: &str) -> io::Result<Opened<'a>> {
        self.0.called()?;
        let is_folder = !how.asks_create_new();
        if is_folder && path != self.0.name {
            return Err(io::Error::from(ErrorKind::NotFound));
        }
        if !is_folder {
            self.0.fresh.set(Some(0));
        }
        Ok(Opened {
            folder: self.0,
            is_folder,
        })
    }

    fn open_dir(&self, _path: &str) -> io::Result<Opened<'a>> {
        Err(io::Error::from(ErrorKind::Unsupported))
    }

    fn metadata(&self, path: &str) -> io::Result<Metadata> {
        self.symlink_metadata(path)
    }

    fn symlink_metadata(&self, _path: &str) -> io::Result<Metadata> {
        self.0.called()?;
        match self.0.image.get() {
            Some(length) => Ok(Metadata::of_file(length as u64)),
            None => Err(io::Error::from(ErrorKind::NotFound)),
        }
    }

    fn copy(&self, _from: &str, _to: &str) -> io::Result<u64> {
        Ok(0)
    }

    /// What was not synced may be lost.
    fn rename(&self, _from: &str, _to: &str) -> io::Result<()> {
        self.0.called()?;
        let length = self.0.fresh.get();
        self.0
            .image
            .set(if self.0.is_synced.get() { length } else { None });
        self.0.fresh.set(None);
        self.0.is_renamed.set(true);
        self.0.are_names_synced.set(false);
        Ok(())
    }

    fn remove_file(&self, _path: &str) -> io::Result<()> {
        self.0.called()?;
        self.0.fresh.set(None);
        Ok(())
    }

    fn create_dir(&self, _path: &str) -> io::Result<()> {
        Ok(())
    }

    fn remove_dir(&self, _path: &str) -> io::Result<()> {
        Ok(())
    }

    fn remove_dir_all<B: Allocator>(&self, _alloc: B, _path: &str) -> io::Result<()> {
        Ok(())
    }
}

/// Asserts what a folder has after an image was written or a call failed.
fn check_folder(rt: &impl Abort, folder: &Folder, old: Option<usize>, has_failed: bool) {
    let fails_at = folder.fails_at;
    let is_renamed = folder.is_renamed.get();
    let standing = if is_renamed { Some(IMAGE.len()) } else { old };
    same_in(rt, fails_at, folder.image.get(), standing);
    same_in(rt, fails_at, folder.fresh.get(), None);
    let is_reached = fails_at < folder.calls.get();
    let are_names_synced = folder.are_names_synced.get();
    same_in(rt, fails_at, are_names_synced, !is_renamed || !is_reached);
    holds_in(rt, fails_at, has_failed || is_renamed);
}

/// Whichever call fails, the folder has the whole new image or what it had before, and the new file is gone. If no call fails, the
/// device has the new name as well.
#[test]
fn whole_or_not_at_all(rt: HostRuntime) {
    for old in [None, Some(OLD)] {
        for fails_at in 0..14 {
            let folder = Folder::new(".", old, fails_at, ErrorKind::StorageFull);
            let written = write_image(&(View(&folder), rt.alloc()), "image", IMAGE);
            check_folder(&rt, &folder, old, written.is_err());
            same_in(
                &rt,
                fails_at,
                written.is_err(),
                fails_at < folder.calls.get(),
            );
        }
    }
}

/// It is no fault if this user or this system cannot sync the folder, once the image has its name.
#[test]
fn folders_without_sync(rt: HostRuntime) {
    for failure in [
        ErrorKind::PermissionDenied,
        ErrorKind::InvalidInput,
        ErrorKind::Unsupported,
    ] {
        for fails_at in 0..14 {
            let folder = Folder::new(".", Some(OLD), fails_at, failure);
            let written = write_image(&(View(&folder), rt.alloc()), "image", IMAGE);
            check_folder(&rt, &folder, Some(OLD), written.is_err());
            same_in(&rt, fails_at, written.is_ok(), folder.is_renamed.get());
        }
    }
}

/// The folder that is synced is that of the image.
#[test]
fn folders_of_paths(rt: HostRuntime) {
    for (path, name) in [
        ("image", "."),
        ("./image", "."),
        ("/image", "/"),
        ("etc/image", "etc"),
        ("/etc/ifsvm/image", "/etc/ifsvm"),
    ] {
        let folder = Folder::new(name, None, u32::MAX, ErrorKind::StorageFull);
        let written = write_image(&(View(&folder), rt.alloc()), path, IMAGE);
        holds_in(&rt, path, written.is_ok());
        check_folder(&rt, &folder, None, false);
    }
}
