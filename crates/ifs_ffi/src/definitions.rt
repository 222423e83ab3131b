//! Definitions of macros that are given beside a policy.

ghost use Rattle.std.specs.Prelude.{◌≡◌, ◌⊎◌, IfOk, IfErr};
ghost use Rattle.ifs_lex.specs.Expansion.{defined_by};
ghost use Rattle.ifs_ffi.specs.Definitions.{AreDefinitions, Gives};
ghost use Rattle.ifs_ffi.specs.declared.definitions.DefinitionsFault.TheVariants as fault;

use crate::status::{NO_DEFINITIONS, OUT_OF_MEMORY};
use ifs_command_line::definition_of;
use std::alloc::Global;
use std::str::from_utf8;

/// Why bytes give no definitions.
#[derive(Clone, Copy)]
pub(crate) enum DefinitionsFault {
    /// They are not UTF-8, or not `NAME=VALUE`, each with a NUL behind it.
    NoDefinitions,
    /// An allocation failed.
    Memory,
}

impl DefinitionsFault {
    /// The status of a call with these bytes.
    pub(crate) fn status(self) -> u32
        ensures status { (result ≡ 2) ⊎ (result ≡ 5) }
        ensures no_definitions { result ≡ 5 → self ≡ fault.NoDefinitions }
        ensures memory { result ≡ 2 → self ≡ fault.Memory }
    {
        match self {
            DefinitionsFault::NoDefinitions => NO_DEFINITIONS,
            DefinitionsFault::Memory => OUT_OF_MEMORY,
        }
    }
}

/// The definitions that bytes give.
pub(crate) fn definitions_of(
    alloc: Global,
    bytes: &[u8],
) -> Result<Vec<(&str, &str)>, DefinitionsFault>
    ensures given { IfOk result (λ made. Gives bytes.now (defined_by made.items)) }
    ensures none { IfErr result (λ it. it ≡ fault.NoDefinitions → ¬ AreDefinitions bytes.now) }
{
    match from_utf8(bytes) {
        Ok(text) => definitions_in(alloc, text),
        Err(_error) => Err(DefinitionsFault::NoDefinitions),
    }
}

/// The definitions that a text gives.
fn definitions_in(alloc: Global, text: &str) -> Result<Vec<(&str, &str)>, DefinitionsFault>
    ensures given { IfOk result (λ made. Gives text.now (defined_by made.items)) }
    ensures none { IfErr result (λ it. it ≡ fault.NoDefinitions → ¬ AreDefinitions text.now) }
{
    let mut made = Vec::new(alloc);
    let mut left = text;
    'words: while let Some((word, rest)) = left.split_once('\0') {
        let Some(definition) = definition_of(word) else {
            return Err(DefinitionsFault::NoDefinitions);
        };
        let Ok(()) = made.push(definition) else {
            return Err(DefinitionsFault::Memory);
        };
        left = rest;
    }
    if left.is_empty() {
        Ok(made)
    } else {
        Err(DefinitionsFault::NoDefinitions)
    }
}
