//! Images, sessions and large inputs that the tests of several crates use. Only tests use this library. What a text can say is a
//! case of `ifs_vectors`.
#![tactic(auto)]

mod hexadecimal;
pub mod images;
mod largest;
pub mod reloads;
pub mod sessions;

pub use hexadecimal::{bytes_of, digits_of};
pub use largest::{
    LARGEST_BYTES, LARGEST_COMPILED, SMALLEST, definitions_in, largest_definitions,
    largest_listing, largest_policy, longest_line_listing, repeated,
};

/// An image that is accepted, with a session on it.
#[derive(Clone, Copy, Debug)]
pub struct Row {
    /// What a failing test calls it.
    pub name: &'static str,
    /// The policy that compiles to the image, if there is one.
    pub policy: Option<&'static str>,
    /// The image's bytes in hexadecimal.
    pub image: &'static str,
    /// Request lines for a fresh core.
    pub requests: &'static str,
    /// Their reply lines: one for each request, except that a trace has several.
    pub replies: &'static str,
}
