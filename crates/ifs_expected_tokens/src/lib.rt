//! Where a policy is refused: the token at which its grammar stops, what could be there, and the places that a report may name.
//!
//! Contracts: `stop_of` names the first token that cannot be where it is, and exactly the kinds of tokens that can. `placed`
//! names no place but one on the line of a fault, or in the value of a macro where that is defined.
#![tactic(auto)]

mod expecting;
mod kind;
mod lexemes;
mod placing;
mod shortening;
mod stopping;

pub use expecting::is_front;
pub use kind::Kind;
pub use lexemes::{MOST_BYTES, Spelled, behind, lexemes_of, value_of};
pub use placing::placed;
pub use shortening::kinds_behind;
pub use stopping::{Stop, stop_of, tokens_or_none};
