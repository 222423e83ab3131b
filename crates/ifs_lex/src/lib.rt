//! The first step from a policy text: `tokens` reads its tokens and expands macros.
//!
//! The lexer reads lexemes from the left: words, quoted texts, signs and uses of macros. It removes the
//! definitions, and replaces each use by the tokens that its macro has at that place.
//! Contract: `tokens` returns the tokens of the text, numbered from 0, or the first fault from the left with its line.
#![tactic(auto)]

mod characters;
mod cursor;
mod fault;
pub mod laws;
mod limits;
mod macros;
mod pieces;
mod reading;
mod ropes;
mod scans;
mod token;

pub use characters::{is_macro_name, is_reserved};
pub use cursor::{Cursor, Lexeme};
pub use fault::LexFault;
pub use pieces::{Piece, Sign, piece_here};
pub use reading::tokens;
pub use scans::{gap_len, is_dropped};
pub use token::{Token, TokenPlace, What};
