//! What all crates share: ids, link states, kinds of values, and the 19 instructions.
//!
//! The machine executes routines. A routine is a list of instructions, and a place is an index in it.
//! An event runs handlers. A handler is a routine that runs from place 0 on an empty stack.
//! The stack has values of three kinds: truths, commands and names of states.
//! `call` runs another routine from its place 0. It may use its parameters, on top of the stack, and what it pushes.
//! A frame keeps the routine and the place at which the caller goes on after `ret`.
//! The inputs of a run are facts: the link state of each interface, and the value of each test that has one.
//! Its effects are the commands that it queues, in order, and its last wish for a state.
//! Jumps lead forward, and a routine calls only routines of lower numbers, so each run ends.
//! Each executed instruction costs 1. The verifier bounds stack, frames, cost and commands of each run.
//! It also proves the kind of each value that an instruction takes, so the machine needs no trap checks.
//!
//! An instruction is four bytes: its code, a link state, and an operand of two bytes.
//! Contract: each instruction and each kind has one spelling, and the decoders reject all other bytes.
#![tactic(auto)]

mod fault_text;
mod ids;
mod items;
pub mod laws;
pub mod limits;
mod numbers;
mod op;
mod quoting;
mod span;
mod spelling;
mod text;
mod words;

pub use fault_text::{FaultPlace, FaultText};
pub use ids::{CommandId, IfaceId, RoutineId, StateId, TestId};
pub use items::Items;
pub use numbers::{Number, parse_number};
pub use op::{Kind, LinkState, Op};
pub use quoting::Quoted;
pub use span::Span;
pub use spelling::{decode_kind, decode_op, encode_kind, encode_op};
pub use text::Text;
pub use words::{QuotedByte, digit_value, hex_digit, link_word, quote_byte};
