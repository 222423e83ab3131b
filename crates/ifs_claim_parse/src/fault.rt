//! What is wrong with a line.

use crate::keyword::Wanted;
use ifs_lex::LexFault;
use ifs_report::Part;
use std::alloc::{AllocError, AllocFailed};

/// What is wrong with a token.
#[derive(Clone, Copy)]
pub enum Why {
    /// Something else can be there.
    Wanted(Wanted),
    /// It names nothing that the policy has.
    State,
    Command,
    Interface,
    Test,
    /// It names the state that a claim is already about.
    SameState,
    /// It is a number beyond 65,535.
    TooGreat,
    /// The tokens from it on are no condition.
    NoCondition,
    /// It asks for the values of tests, and the condition behind it has none.
    NoTest,
    /// It begins a claim too many.
    TooMany,
    /// The line has a sign `=`.
    Equals,
    /// The line has no tokens.
    Tokens(LexFault),
}

/// What is wrong with a line: the token with this number, from 0. The end of the line has the number of tokens.
#[derive(Clone, Copy)]
pub struct Wrong {
    pub index: usize,
    pub why: Why,
}

/// Why a line is not read.
#[derive(Clone, Copy)]
pub enum LineFault {
    Wrong(Wrong),
    Memory,
}

impl LineFault {
    /// The same at a token that is so many tokens further on.
    pub fn behind(self, count: usize) -> LineFault {
        match self {
            LineFault::Wrong(Wrong { index, why }) => LineFault::Wrong(Wrong {
                index: index.saturating_add(count),
                why,
            }),
            LineFault::Memory => LineFault::Memory,
        }
    }
}

impl From<AllocError> for LineFault {
    fn from(_e: AllocError) -> LineFault {
        LineFault::Memory
    }
}

impl<T: Drop> From<AllocFailed<T>> for LineFault {
    fn from(_e: AllocFailed<T>) -> LineFault {
        LineFault::Memory
    }
}

/// Why a file is not read: what is wrong with the line that is this part of it.
#[derive(Clone, Copy)]
pub enum FileFault {
    Line(Part, Wrong),
    Memory,
}

impl<T: Drop> From<AllocFailed<T>> for FileFault {
    fn from(_e: AllocFailed<T>) -> FileFault {
        FileFault::Memory
    }
}
