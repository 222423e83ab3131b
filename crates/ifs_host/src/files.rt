//! Reading files.

ghost use Rattle.std.specs.Prelude.{◌≡◌, ◌≢◌, IfOk, IfErr, IfSome};
ghost use Rattle.ifs_host.specs.Files.{IsWithinLimit};
ghost use Rattle.ifs_host.specs.declared.files.FileFault.TheVariants.{TooLarge};

use std::alloc::Global;
use std::fs;
use std::io::{self, ErrorKind, Read};
use std::rt::Files;
use thiserror::Error;

/// The most bytes of a file.
const LIMIT: u64 = 16_777_216;

/// Why a file cannot be read.
#[derive(Debug, Drop, Error)]
pub enum FileFault {
    /// It could not be opened, or a read failed.
    #[error("{0}")]
    System(io::Error),
    /// It has more than 16,777,216 bytes.
    #[error("too large")]
    TooLarge,
    /// It is a folder, a pipe or a device, and only a regular file is read.
    #[error("not a regular file")]
    NotRegular,
    /// An allocation for its bytes failed.
    #[error("no memory")]
    Memory,
}

impl From<io::Error> for FileFault {
    ghost from_gives = { λ _ fault. fault ≢ TooLarge };

    fn from(error: io::Error) -> FileFault {
        if error.kind() == ErrorKind::OutOfMemory {
            FileFault::Memory
        } else {
            FileFault::System(error)
        }
    }
}

/// Reads a file.
pub fn read_file<R: Files + Alloc<A = Global>>(rt: &R, path: &str) -> Result<Vec<u8>, FileFault>
    ensures { IfOk result (λ bytes. IsWithinLimit bytes.items) }
{
    let file = fs::open(rt, path)?;
    read_whole(rt.alloc(), file)
}

/// Reads a regular file. A folder, a pipe or a device is not opened, since its bytes may never come or never end. The file may
/// be replaced between that check and its opening.
pub fn read_regular_file<R: Files + Alloc<A = Global>>(
    rt: &R,
    path: &str,
) -> Result<Vec<u8>, FileFault>
    ensures { IfOk result (λ bytes. IsWithinLimit bytes.items) }
{
    if fs::metadata(rt, path)?.is_file() {
        read_file(rt, path)
    } else {
        Err(FileFault::NotRegular)
    }
}

/// Reads every byte that a reader has left, at most 16,777,216.
pub fn read_whole<R: Read + Drop>(alloc: Global, reader: R) -> Result<Vec<u8>, FileFault>
    ensures limit { IfOk result (λ bytes. IsWithinLimit bytes.items) }
    // Nothing is cut off.
    ensures every_byte { IfSome (R.remaining reader)
        (λ left. IfOk result (λ bytes. bytes.items ≡ left)) }
    ensures too_large { IfSome (R.remaining reader)
        (λ left. IfErr result (λ fault. fault ≡ TooLarge → ¬ IsWithinLimit left)) }
{
    let mut bytes = Vec::new(alloc);
    reader.take(LIMIT + 1).read_to_end(&mut bytes)?;
    if LIMIT < bytes.len() as u64 {
        Err(FileFault::TooLarge)
    } else {
        Ok(bytes)
    }
}
