//! The verifier decides whether an image may run on a machine without trap checks.
//!
//! [`verify`] reads an image from its bytes and makes each check over the whole image before the next one.
//! The plain checks look at each instruction and each handler by itself. A forward pass finds the kinds on the
//! stack at each place of a routine. A backward pass finds the most that may be executed from each place on.
//! A [`Verified`] is an accepted image. A fault names a check that fails and its place, unless an allocation fails.
#![tactic(auto)]

mod amounts;
mod bounds;
mod budgets;
mod depths;
mod effects;
mod fault;
mod heights;
pub mod laws;
mod places;
mod reach;
mod rules;
mod stack;
mod stacks;
mod tables;
mod typing;
mod verified;
mod verifying;

pub use bounds::ROUTINE_COST;
pub use fault::{At, VerifyFault};
pub use verified::Verified;
pub use verifying::verify;
