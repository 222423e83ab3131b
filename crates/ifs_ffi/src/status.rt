//! Statuses of calls.

/// The input is valid, and the results are written.
pub(crate) const GOOD: u32 = 0;
/// The input is refused.
pub(crate) const REFUSED: u32 = 1;
/// An allocation failed.
pub(crate) const OUT_OF_MEMORY: u32 = 2;
/// A buffer is too short.
pub(crate) const SHORT: u32 = 3;
/// No word has this number.
pub(crate) const NO_WORD: u32 = 4;
/// The definitions are not `NAME=VALUE`, each with a NUL behind it.
pub(crate) const NO_DEFINITIONS: u32 = 5;
/// The requests have more than 16,777,216 bytes.
pub(crate) const TOO_LONG: u32 = 6;
/// The links are not `NAME STATE`, each with a NUL behind it.
pub(crate) const NO_LINKS: u32 = 7;
