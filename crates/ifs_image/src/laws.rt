//! Laws of the format: each is the contract of an empty function.

ghost use Rattle.std.specs.Prelude.{◌≡◌, List, ℕ, ◌++◌, []};
ghost use Rattle.ifs_image.specs.declared.fault.ImageFault.{ImageFault};
ghost use Rattle.ifs_image.specs.declared.parts.ImageParts.{ImageParts};
ghost use Rattle.ifs_image.specs.Limits.{code_limit, Fits, InRange};
ghost use Rattle.ifs_image.specs.Spelling.{Spells, image_bytes};
ghost use Rattle.ifs_image.specs.Fields.{bytes_of, image_fields};
ghost use Rattle.ifs_image.specs.Faults.{IsFirstFault};

/// No spelling is a prefix of another.
pub fn prefix_free()
    ensures { (bytes more : List ℕ) (image other : ImageParts)
        → Spells bytes image → Spells (bytes ++ more) other → more ≡ [] }
{}

/// Bytes spell at most one image.
pub fn one_image()
    ensures { (bytes : List ℕ) (image other : ImageParts)
        → Spells bytes image → Spells bytes other → image ≡ other }
{}

/// An image within its limits has exactly one spelling.
pub fn one_spelling()
    ensures some { (image : ImageParts) → Fits image → InRange image → Spells (image_bytes image) image }
    ensures only { (image : ImageParts) (bytes other : List ℕ)
        → Spells bytes image → Spells other image → bytes ≡ other }
{}

/// All routines together have at most 8,192 instructions in version 1, and at most 65,535 in version 2.
pub fn code_limits()
    ensures first { code_limit 1 ≡ 8192 }
    ensures second { code_limit 2 ≡ 65535 }
{}

/// The fields of an image, one after the other, are its spelling.
pub fn fields_spell()
    ensures { (image : ImageParts) → Fits image → InRange image → bytes_of (image_fields image) ≡ image_bytes image }
{}

/// Bytes have at most one first fault. Bytes that spell an image have none.
pub fn one_fault()
    ensures one { (bytes : List ℕ) (fault other : ImageFault) → IsFirstFault bytes fault → IsFirstFault bytes other → fault ≡ other }
    ensures none { (bytes : List ℕ) (image : ImageParts) (fault : ImageFault) → Spells bytes image → ¬ IsFirstFault bytes fault }
{}
