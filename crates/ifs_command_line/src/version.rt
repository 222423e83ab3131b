//! The version of the program.

/// The version, which the package and the pages name too.
pub const VERSION: &str = "0.2.0";
