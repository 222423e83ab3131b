//! The library for other languages: functions of the C calling convention over numbers and bytes.
//!
//! The caller provides a buffer for each result. A function writes the results to the front of their buffers, sets their lengths,
//! and returns a status. If a buffer is too short, the lengths are those that are needed. Nothing is kept between two calls.
//!
//! Contract: `ifs_page_answer` gives the answer of `ifs_file_commands`, and `ifs_page_session` the replies of a session on an image.
//! What `ifs_page_reports`, `ifs_page_findings`, `ifs_page_verdicts` and `ifs_page_differences` write is tested, not proved.
#![tactic(auto)]

mod answering;
mod asking;
mod buffers;
mod definitions;
mod links;
mod reporting;
mod serving;
mod status;
mod words;
