//! Reports on the request lines of a session: why a line is refused, where, and what it could have been.
//!
//! The refusal itself is the reply of the session, and stays as it is. Which words could be at a place is asked of `ifs_session`,
//! whose contract says that it is exact.
//!
//! Contract: a report is an error with the code of the reply, and its place lies within the line. The words themselves are tested,
//! not proved.
#![tactic(auto)]

mod fields;
mod hints;
mod named_lines;
mod numbers;
mod places;
mod refused;
mod repairs;
mod report;
mod words;

pub use report::report_on;
