//! From a text to a core that runs it.

ghost use Rattle.std.specs.Prelude.{◌≡◌, ◌≢◌, ℕ, List, Some, Err, IfOk, IfErr};
ghost use Rattle.ifs_lex.specs.declared.fault.LexFault.{LexFault};
ghost use Rattle.ifs_lex.specs.AtOnce.{certain_at_once};
ghost use Rattle.ifs_policy.specs.Texts.{of_text};
ghost use Rattle.ifs_core.specs.Carrying.{known_by};
ghost use Rattle.ifs_core.specs.Gateway.{nothing_known};
ghost use Rattle.ifs_image.specs.Spelling.{Spells};
ghost use Rattle.ifs_gen.specs.declared.compile_fault.CompileFault.TheVariants.{Memory};
ghost use Rattle.ifs_gen.specs.Compiled.{Compiles, IsCompileRefusal, IsCompiled, of_policy};
ghost use Rattle.ifs_gen.specs.CompiledCore.{RunsText};
ghost use Rattle.ifs_lex.specs.Expansion.{defined_by};

use crate::compile_fault::CompileFault;
use crate::compiling::compile;
use ifs_core::{Carried, Core};
use ifs_verify::{Verified, VerifyFault, verify};
use std::alloc::Global;

/// Compiles a text, verifies its image and opens a core on it, which runs what the text says. `defs` define macros
/// and override the definitions of the text. The bytes of the image replace the content of `image`, and the core
/// borrows its texts and code from them. If the text does not compile, `image` keeps its content.
///
/// The errors are those of `compile`; the verifier rejects nothing that compiles. P0 may come in place of any
/// other result, except a fault that is certain before the first allocation.
pub fn compiled_core<'a, 'b>(
    alloc: Global,
    text: &'a str,
    defs: &'a [(&'a str, &'a str)],
    image: &'b mut Vec<u8>,
) -> Result<Core<'b>, CompileFault>
    // The core runs the one policy of the text: it has its names, its texts and, for every list of steps, its replies.
    ensures runs { IfOk result (λ core. RunsText text.now (defined_by defs.now) (nothing_known core.image) core) }
    // An error other than P0 comes only if the text has no policy, or if its code exceeds a limit.
    ensures refused { IfErr result (λ fault. IsCompileRefusal text.now (defined_by defs.now) fault) }
    // So each text that compiles gets a core, unless an allocation fails.
    ensures none { IfErr result (λ fault. fault ≢ Memory → ¬ Compiles text.now (defined_by defs.now)) }
    // A fault that is certain before the first allocation is returned, not P0.
    ensures at_once { (fault : LexFault) → certain_at_once text.now (defined_by defs.now) ≡ Some fault → result ≡ Err (of_policy (of_text fault)) }
{
    match compile(alloc, text, defs) {
        Ok(bytes) => *image = bytes,
        Err(fault) => return Err(fault),
    }
    let verified = match verify(alloc, image.as_slice()) {
        Ok(verified) => verified,
        Err(VerifyFault::OutOfMemory) => return Err(CompileFault::Memory),
        Err(_) => unreachable!(),
    };
    match Core::open(alloc, verified) {
        Ok(core) => {
            // The accepted image keeps its promises.
            core.image();
            Ok(core)
        }
        Err(_) => Err(CompileFault::Memory),
    }
}

/// Opens an image with the knowledge that another core carried, as [`Core::open_with`] does. If a text compiles to
/// the image, the core runs what that text says, from the carried links and run number. It does not allocate and
/// cannot fail.
pub fn opened_with<'a>(next: Verified<'a>, carried: Carried) -> Core<'a>
    ensures image { result.image ≡ next.entry }
    // For each text that compiles to bytes of the image, the core runs the one policy of the text.
    ensures runs { (text : List ℕ) (defs : List (List ℕ × List ℕ)) (bytes : List ℕ) → IsCompiled text defs bytes → Spells bytes next.entry → RunsText text defs (known_by carried next.entry) result }
{
    let core = Core::open_with(next, carried);
    // The accepted image keeps its promises.
    core.image();
    core
}
