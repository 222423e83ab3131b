//! Tests of the language: tokens, trees and policies of texts. The largest text and the stories of `ifs_explain` are here too.
//!
//! The worked cases of `ifs_vectors` show what the program prints. These tests show what a text cannot say. They are in a crate
//! above the libraries. So those are proved once, and not again with their tests.
#![tactic(auto)]

#[cfg(test)]
mod cases;
#[cfg(test)]
mod checks;
#[cfg(test)]
mod compiling;
#[cfg(test)]
mod definitions;
#[cfg(test)]
mod largest;
#[cfg(test)]
mod policies;
#[cfg(test)]
mod printing;
#[cfg(test)]
mod reports;
#[cfg(test)]
mod stops;
#[cfg(test)]
mod stories;
#[cfg(test)]
mod tokens;
#[cfg(test)]
mod trees;
