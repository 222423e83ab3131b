//! Assembly text: the contents of an image, as lines that people read and write.
//!
//! [`disassemble`] returns the one canonical text of an image. [`assemble`] also reads texts that differ from it
//! only in blanks, comments, leading zeros and escapes.
#![tactic(auto)]

mod building;
mod fault;
mod forms;
mod kinds;
pub mod laws;
mod line;
mod lists;
mod plain;
mod printing;
mod quoting;
mod reading;
mod tables;
mod words;

pub use fault::AsmFault;
pub use printing::disassemble;
pub use reading::assemble;
