//! Sessions: lines of requests in, lines of replies out.
//!
//! A request makes a step of the core, or asks a question about the core. Each line of input has one reply.
//! A reply is flushed before the next line is waited for.
//!
//! Contract: the bytes written are exactly the replies to the lines that were read, if the reader and the writer
//! report their bytes. Of a place of a line the words are known that make a request of it.
#![tactic(auto)]

mod device;
mod fault;
mod hexadecimal;
mod host;
pub mod laws;
mod lines;
mod making;
mod memory;
mod places;
mod question;
mod queue;
mod reading;
mod refusal;
mod replies;
mod request;
mod running;
mod script;
mod service;
mod session;
mod std_devices;
mod words;

pub use device::{ByteIn, ByteOut, DeviceFault};
pub use fault::{RunFault, SessionFault};
pub use host::{Host, HostEvent, HostFault, Launch};
pub use memory::{MemoryIn, MemoryOut};
pub use places::{RequestWord, fault_in, words_at};
pub use queue::run_queue;
pub use reading::{StatusLine, TraceLine, says_not_done};
pub use refusal::write_refused;
pub use replies::{answer_word, value_word, write_reloaded};
pub use request::RequestFault;
pub use running::run_hex;
pub use script::{HostText, ScriptHost};
pub use service::{End, Served, serve_one};
pub use session::{Summary, simulate, simulate_into};
pub use std_devices::{FromRead, ToWrite};
