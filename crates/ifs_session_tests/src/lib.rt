//! Tests of sessions and of the daemon: lines in and lines out, devices and served connections. Tests of the host: files and images
//! in folders, commands and tests, and reloads.
//!
//! They are in a crate above those that they test. So those are proved once, and not again with their tests.
#![tactic(auto)]

#[cfg(test)]
mod checks;
#[cfg(test)]
mod devices;
#[cfg(test)]
mod hosts;
#[cfg(test)]
mod images;
#[cfg(test)]
mod pieces;
#[cfg(test)]
mod reloads;
#[cfg(test)]
mod talks;
