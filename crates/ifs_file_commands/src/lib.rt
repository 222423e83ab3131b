//! The answers of the commands that work on a file, from the file's bytes alone.
//!
//! Contract: the status is 0 exactly if the bytes are valid for the command. The text is then their budgets, counts, notes,
//! length or assembly text, and the file is the image that they describe. Otherwise the text is a fault that they have.
#![tactic(auto)]

mod answering;
mod assembling;
mod checking;
mod compiling;
mod edges;
mod graphing;
mod labels;
mod lines;
mod reading;
mod task;

pub use answering::answer;
pub use checking::{NotText, text_of};
pub use task::{Answer, memory_code};
