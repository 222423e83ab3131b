//! From a text to the bytes of its image.

ghost use Rattle.std.specs.Prelude.{◌≡◌, ◌≢◌, Some, Err, IfOk, IfErr, slice_get};
ghost use Rattle.ifs_lex.specs.declared.fault.LexFault.{LexFault};
ghost use Rattle.ifs_lex.specs.AtOnce.{certain_at_once};
ghost use Rattle.ifs_gen.specs.declared.compile_fault.CompileFault.TheVariants.{Memory};
ghost use Rattle.ifs_gen.specs.Compiled.{Compiles, IsCodeRefusal, IsCompiled, IsCompileRefusal, IsWritten, of_policy};
ghost use Rattle.ifs_policy.specs.Texts.{of_text, SaysFile};
ghost use Rattle.ifs_lex.specs.Expansion.{defined_by};

use crate::compile_fault::CompileFault;
use crate::generating::generate;
use crate::laws::means_the_policy;
use ifs_image::write;
use ifs_parse::Tree;
use ifs_policy::{Policy, PolicyText, policy_of};
use std::alloc::Global;

/// The bytes of an image, beside the tree of its text and the notes on it.
#[derive(Drop)]
pub struct CompiledText {
    pub tree: Tree,
    pub bytes: Vec<u8>,
}

/// The bytes of the image of a policy.
fn bytes_of(alloc: Global, policy: &Policy) -> Result<Vec<u8>, CompileFault>
    ensures written { IfOk result (λ bytes. IsWritten policy.now bytes.items) }
    ensures refused { IfErr result (λ fault. IsCodeRefusal policy.now fault) }
{
    let image = match generate(alloc, policy) {
        Ok(image) => image,
        Err(fault) => return Err(CompileFault::from(fault)),
    };
    match write(alloc, &image) {
        Ok(bytes) => Ok(bytes),
        Err(_) => Err(CompileFault::Memory),
    }
}

/// The bytes of the image of a text. `defs` define macros and override the definitions of the text. The first
/// of two with one name holds.
///
/// An error is that of the first step that fails: the tokens, the grammar and the names, each with a line, and
/// then the limits of code. P0 may come in place of any other result, except a fault that is certain before the
/// first allocation.
pub fn compile<'a>(
    alloc: Global,
    text: &'a str,
    defs: &'a [(&'a str, &'a str)],
) -> Result<Vec<u8>, CompileFault>
    // The bytes spell the image of the text's one policy, and mean that policy. The verifier accepts them.
    ensures compiled { IfOk result (λ bytes. IsCompiled text.now (defined_by defs.now) bytes.items) }
    // The image has version 1, which is in the byte behind the four letters.
    ensures version { IfOk result (λ bytes. slice_get bytes.items 4 ≡ Some 1) }
    // An error other than P0 comes only if the text has no policy, or if the code of its policy exceeds the
    // limit of the error.
    ensures refused { IfErr result (λ fault. IsCompileRefusal text.now (defined_by defs.now) fault) }
    // So each text that compiles is compiled, unless an allocation fails.
    ensures none { IfErr result (λ fault. fault ≢ Memory → ¬ Compiles text.now (defined_by defs.now)) }
    // A fault that is certain before the first allocation is returned, not P0.
    ensures at_once { (fault : LexFault) → certain_at_once text.now (defined_by defs.now) ≡ Some fault → result ≡ Err (of_policy (of_text fault)) }
{
    match compile_with_notes(alloc, text, defs) {
        Ok(CompiledText { tree: _, bytes }) => Ok(bytes),
        Err(fault) => Err(fault),
    }
}

/// The same as `compile`, with the tree of the text beside the bytes.
pub fn compile_with_notes<'a>(
    alloc: Global,
    text: &'a str,
    defs: &'a [(&'a str, &'a str)],
) -> Result<CompiledText, CompileFault>
    ensures compiled { IfOk result (λ it. IsCompiled text.now (defined_by defs.now) it.bytes.items) }
    ensures tree { IfOk result (λ it. SaysFile text.now (defined_by defs.now) it.tree) }
    ensures refused { IfErr result (λ fault. IsCompileRefusal text.now (defined_by defs.now) fault) }
    ensures none { IfErr result (λ fault. fault ≢ Memory → ¬ Compiles text.now (defined_by defs.now)) }
    ensures at_once { (fault : LexFault) → certain_at_once text.now (defined_by defs.now) ≡ Some fault → result ≡ Err (of_policy (of_text fault)) }
{
    means_the_policy();
    let PolicyText { tree, policy } = match policy_of(alloc, text, defs) {
        Ok(it) => it,
        Err(fault) => return Err(CompileFault::from(fault)),
    };
    match bytes_of(alloc, &policy) {
        Ok(bytes) => Ok(CompiledText { tree, bytes }),
        Err(fault) => Err(fault),
    }
}
