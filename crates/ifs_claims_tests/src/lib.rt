//! Tests of `ifs_claims`: what is said of claims on small policies.
#![tactic(auto)]

#[cfg(test)]
mod claims;
