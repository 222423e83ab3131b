//! The daemon and what it uses: files, the reload of images, and commands and tests as programs.
//!
//! Contract: a file is read and an image written whole, if the reader and the writer report their bytes. A started test waits
//! until its end is reported, or until a later start of it fails. A program past its limit holds its place until it is gone. A
//! reload opens an image only if its bytes are accepted, with what the core before it knew. Otherwise that core is unchanged. The
//! host calls its runner once for each text, and reports the runner's results, if the runner reports its calls.
#![tactic(auto)]

mod change_log;
mod children;
mod client_lines;
mod client_timer;
mod command_log;
mod connection_queue;
pub mod event;
pub mod facts_helper;
mod facts_keeper;
pub mod failure;
pub mod files;
pub mod images;
mod named_lines;
mod notes;
mod observing;
pub mod probing;
pub mod reasons;
pub mod reloading;
pub mod reporting;
pub mod runner;
pub mod runner_host;
pub mod sending;
pub mod serving;
pub mod sessions;
pub mod shell;
mod snapshot;
mod sockets;
mod standard_error;
pub mod standard_output;
pub mod standard_streams;
pub mod status_file;
mod status_recorder;
mod system_limits;
pub mod system_words;
pub mod uptime;
pub mod watching;
