//! Tests of `ifs_levels`: what the commands of small policies add up to.
#![tactic(auto)]

#[cfg(test)]
mod levels;
