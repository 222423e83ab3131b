//! The image: what a policy is compiled to, and its bytes.
//!
//! An image has budgets, tables of interfaces, tests, commands and states, the handlers of the always
//! part and of each state, and routines of byte code. [`view`] checks any bytes and sees the image in
//! place, or reports the first fault with the offset of its field. [`read`] copies what [`view`] sees.
//! [`write`] returns the bytes of an image. Bytes spell at most one image, an image has one spelling, and
//! no spelling is a prefix of another.
#![tactic(auto)]

mod copying;
mod decoding;
mod fault;
mod fields;
mod fitting;
mod image;
mod image_view;
pub mod laws;
mod lent;
pub mod limits;
mod parts;
mod reading;
mod writing;

pub use copying::read;
pub use fault::ImageFault;
pub use image::{Image, upgrade};
pub use image_view::ImageView;
pub use lent::LentCode;
pub use parts::{Budgets, Handlers, ImageParts, Kinds, Routine, StateSpec, TestSpec};
pub use reading::view;
pub use writing::write;
