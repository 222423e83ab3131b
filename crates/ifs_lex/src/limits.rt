//! The limits of a policy text.

/// The most bytes of a text, and of a macro's value.
pub const MAX_TEXT: usize = 1_048_576;

/// The most tokens of a text, without its end, and of a macro's value.
pub const MAX_TOKENS: usize = 16_384;

/// The most macro names.
pub const MAX_MACROS: usize = 256;
