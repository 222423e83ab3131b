//! A policy's text with its tokens and macros, and the place of each token: in the text, or in the value of a macro.
//!
//! What crates make of it is tested, not proved: reports on policies that are refused, and findings of `ifsvm lint`.
#![tactic(auto)]

pub mod lines;
pub mod macros;
mod tokenized;

pub use macros::Level;
pub use tokenized::{Other, Spot, TokenizedPolicy};
