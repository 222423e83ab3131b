//! Laws of the assembly text. Each is the contract of a function; an empty function has a law of definitions alone.

ghost use Rattle.std.specs.Prelude.{◌≡◌, List, ℕ, IfOk, IfErr};
ghost use Rattle.ifs_asm.specs.declared.fault.AsmFault.TheVariants.{Memory};
ghost use Rattle.ifs_image.specs.declared.parts.ImageParts.{ImageParts};
ghost use Rattle.ifs_image.specs.Limits.{Fits, InRange};
ghost use Rattle.ifs_asm.specs.Texts.{canonical};
ghost use Rattle.ifs_asm.specs.Spellings.{TextSpells};

use crate::fault::AsmFault;
use crate::printing::disassemble;
use crate::reading::assemble;
use ifs_image::Image;
use std::alloc::Global;

/// The canonical text of an image spells it.
pub fn canonical_text_spells_its_image()
    ensures { (image : ImageParts) → Fits image → InRange image → TextSpells (canonical image) image }
{}

/// No text spells two images.
pub fn one_image()
    ensures { (text : List ℕ) (image other : ImageParts) → TextSpells text image → TextSpells text other → image ≡ other }
{}

/// Writes an image and reads it back. The result is the same image, or A0 if an allocation fails.
pub fn reads_back(alloc: Global, image: &Image) -> Result<Image, AsmFault>
    ensures same { IfOk result (λ again. again ≡ image.now) }
    ensures only { IfErr result (λ fault. fault ≡ Memory) }
{
    let text = disassemble(alloc, image)?;
    assemble(alloc, text.as_str())
}
