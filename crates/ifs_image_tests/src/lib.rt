//! Tests of images: instructions, bytes, assembly texts and the verifier. Tests of what runs them: handlers on the machine,
//! schedules and the steps of a core.
//!
//! They are in a crate above those that they test. So those are proved once, and not again with their tests.
#![tactic(auto)]

#[cfg(test)]
mod assembly;
#[cfg(test)]
mod checks;
#[cfg(test)]
mod images;
#[cfg(test)]
mod instructions;
#[cfg(test)]
mod largest;
#[cfg(test)]
mod machine;
#[cfg(test)]
mod reports;
#[cfg(test)]
mod schedule;
#[cfg(test)]
mod steps;
#[cfg(test)]
mod verifying;
#[cfg(test)]
mod views;
