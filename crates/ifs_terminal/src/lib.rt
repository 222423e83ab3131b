//! Texts as they are shown to a reader, whose terminal acts on some characters.
//!
//! Contract: which characters these are. How they are written is tested, not proved.
#![tactic(auto)]

mod characters;
mod draft;
mod escaping;
mod matching;

pub use characters::acts_on_terminal;
pub use draft::Draft;
pub use escaping::{Escaped, Shown};
pub use matching::displays_as;
