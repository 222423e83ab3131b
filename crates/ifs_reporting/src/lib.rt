//! What the words of the program say of files, as text for a reader and as JSON objects, one on a line: the reports on a refused
//! file, findings, verdicts and differences. A policy is read and compiled once for each call.
//!
//! It has no contract but that it is safe: what is said is up to `ifs_policy_reports`, `ifs_image_reports`, `ifs_lint`, `ifs_prove` and
//! `ifs_compare`.
#![tactic(auto)]

mod analysis;
mod differences;
mod findings;
mod policies;
mod reporting;
mod unused;
mod verdicts;

pub use analysis::{Analysis, Conclusion, Form};
pub use differences::{differences_between, link_of_neither};
pub use findings::findings_on;
pub use policies::{CompiledFile, compile_policy};
pub use reporting::{reports_in_json, reports_on};
pub use verdicts::verdicts_on;
