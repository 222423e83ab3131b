//! A reader that gives its bytes in pieces.

use std::io::{self, ErrorKind, Read};

/// No read fails.
pub const NEVER: u32 = u32::MAX;

/// A reader of std that gives at most `most` bytes at each read. It fails once, at the read `fails_at`. If `interrupted` is set, an
/// interruption comes before each read that gives some.
#[derive(Drop)]
pub struct Pieces<'a> {
    pub left: &'a [u8],
    pub most: usize,
    pub reads: u32,
    pub fails_at: u32,
    pub kind: ErrorKind,
    pub interrupted: bool,
}

impl Read for Pieces<'_> {
    fn read(&mut self, buffer: &mut [u8]) -> io::Result<usize> {
        let read = self.reads;
        self.reads = self.reads.saturating_add(1);
        if read == self.fails_at {
            return Err(io::Error::from(self.kind));
        }
        if self.interrupted && read % 2 == 0 {
            return Err(io::Error::from(ErrorKind::Interrupted));
        }
        let count = self.left.len().min(self.most).min(buffer.len());
        buffer[..count].copy_from_slice(&self.left[..count]);
        self.left = &self.left[count..];
        Ok(count)
    }
}
