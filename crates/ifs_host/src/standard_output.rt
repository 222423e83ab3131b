//! Standard output as the place of answers and replies.

use crate::system_limits::Stream;
use std::io::{self, Write};

/// Standard output. A write to a file that has the greatest length of files is an error, and no signal.
#[derive(Clone, Copy)]
pub struct StandardOutput<'a> {
    rt: &'a HostRuntime,
}

impl<'a> StandardOutput<'a> {
    /// The standard output of a runtime.
    pub fn new(rt: &'a HostRuntime) -> Self {
        StandardOutput { rt }
    }
}

impl Write for StandardOutput<'_> {
    fn write(&mut self, buf: &[u8]) -> io::Result<usize> {
        Stream::Output.check_growth(self.rt)?;
        self.rt.write_some(buf)
    }

    fn flush(&mut self) -> io::Result<()> {
        Ok(())
    }
}
