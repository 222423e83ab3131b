//! The policies of sources.

use ifs_parse::Tree;
use ifs_play::CompiledPolicy;
use ifs_policy::{Policy, PolicyFault, policy_of};
use ifs_report::Source;
use std::alloc::{AllocError, Global};
use std::str::from_utf8;

/// A source whose text is a policy.
#[derive(Drop)]
pub struct PolicyFile<'a> {
    pub(crate) source: Source<'a>,
    pub(crate) text: &'a str,
    pub(crate) tree: Tree,
    pub(crate) policy: Policy,
}

/// Reads the policy of a source. It is `None` if `check` refuses the source.
pub(crate) fn read_policy<'a>(
    alloc: Global,
    source: Source<'a>,
) -> Result<Option<PolicyFile<'a>>, AllocError> {
    let Ok(text) = from_utf8(source.text) else {
        return Ok(None);
    };
    match policy_of(alloc, text, source.definitions) {
        Ok(found) => Ok(Some(PolicyFile {
            source,
            text,
            tree: found.tree,
            policy: found.policy,
        })),
        Err(PolicyFault::Memory) => Err(AllocError),
        Err(_fault) => Ok(None),
    }
}

/// A source whose policy compiles.
pub struct CompiledFile<'a> {
    pub(crate) source: Source<'a>,
    pub(crate) text: &'a str,
    pub(crate) tree: Tree,
    pub(crate) compiled: CompiledPolicy,
}

impl Drop for CompiledFile<'_> {
    fn drop(self) {
        let CompiledFile {
            source: _source,
            text: _text,
            tree: _tree,
            compiled: _compiled,
        } = self;
    }
}

/// Reads the policy of a source, and compiles it. It is `None` if `compile` refuses the source.
pub fn compile_policy<'a>(
    alloc: Global,
    source: Source<'a>,
) -> Result<Option<CompiledFile<'a>>, AllocError> {
    match read_policy(alloc, source)? {
        Some(file) => compiled_file(alloc, file),
        None => Ok(None),
    }
}

/// The same source with the image of its policy.
fn compiled_file<'a>(
    alloc: Global,
    file: PolicyFile<'a>,
) -> Result<Option<CompiledFile<'a>>, AllocError> {
    let PolicyFile {
        source,
        text,
        tree,
        policy,
    } = file;
    match CompiledPolicy::new(alloc, policy)? {
        Some(compiled) => Ok(Some(CompiledFile {
            source,
            text,
            tree,
            compiled,
        })),
        None => Ok(None),
    }
}
