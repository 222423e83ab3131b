//! Reads a claims file: what each of its lines claims of a policy.
//!
//! A line ends at its newline, also in a comment, between quotes and behind a backslash. So a claim is never longer than a line,
//! and no comment hides one. Lines have the words, signs, quotes, comments and macros of the policies' language. Macros are those
//! at the end of the policy, and a claims file defines none. A condition is one that the policy could have behind an `if`. It
//! names only what the policy has. Directly behind `while` the words `known` and `unknown` ask for the values of its tests: it
//! then has one at least. Before `.` and `every` they are names. `changes` is always in the plural.
//!
//! Contract: `claims_of` returns what the lines of a file say, in order: each line that is not blank is one claim, with the
//! states, command, interfaces and tests that its words name. A report of a refusal names a place in the file.
#![tactic(auto)]

mod claim;
mod conditions;
mod context;
mod copying;
mod ending;
mod fault;
mod forms;
mod keyword;
mod lexical;
mod macros;
mod misplaced;
mod names;
mod nearest;
mod next;
mod placing;
mod premises;
mod reading;
mod reporting;
mod saying;
mod seen;
mod stated;
mod stopping;
mod wording;

pub use claim::{Claim, Premise, Values};
pub use reading::claims_of;
pub use stated::Stated;
