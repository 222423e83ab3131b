//! Reports on refused images and on refused assembly texts, in words.
//!
//! The refusal itself, its code and its place, comes from `ifs_image`, `ifs_verify` and `ifs_asm`. This crate reads the
//! image or the text again, up to that place, and says what is there, what is wrong with it and which rule it breaks.
//! It takes any bytes and any fault. If they do not belong together, the words are general.
//!
//! Contract: a report is an error with the code of the fault. The place in an assembly text lies on the line of the fault.
//! The words themselves are tested, not proved.
#![tactic(auto)]

mod assembly;
mod before;
mod causes;
mod counted;
mod field;
mod finding;
mod forms;
mod handlers;
mod image_bytes;
mod instruction;
mod misplaced;
mod pieces;
mod places;
mod quoting;
mod refusal;
mod slots;
mod unformed;
mod verification;
mod walk;
mod words;

pub use assembly::of_assembly;
pub use image_bytes::of_image;
pub use verification::of_verification;
