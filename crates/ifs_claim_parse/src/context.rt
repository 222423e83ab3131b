//! What a claims file is read with.

use ifs_policy::Tables;
use std::alloc::Global;

/// What the lines of a file are read with.
#[derive(Clone, Copy)]
pub struct Context<'a> {
    pub alloc: Global,
    /// The definitions of macros in the policy, each with a newline behind it.
    pub macros: &'a str,
    /// The definitions of the command line.
    pub definitions: &'a [(&'a str, &'a str)],
    pub tables: &'a Tables,
}

/// Where a line is: its number, its offset in the file, its bytes, and how many bytes of macros are before it where it is read.
#[derive(Clone, Copy)]
pub struct LinePlace {
    pub number: u32,
    pub at: usize,
    pub bytes: usize,
    pub macros: usize,
}
