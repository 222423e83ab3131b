//! Tasks on the bytes of a file.

/// A task on the bytes of a file.
#[derive(Clone, Copy)]
pub enum Task {
    /// Check whether a text is a policy.
    Check,
    /// Compile a policy to an image.
    Compile,
    /// Verify an image.
    Verify,
    /// Print the assembly text of an image.
    Disasm,
    /// Make the image that an assembly text spells.
    Asm,
    /// Make the image of version 2 with the same content as an image.
    Upgrade,
    /// Draw the states of a policy.
    Graph,
}
