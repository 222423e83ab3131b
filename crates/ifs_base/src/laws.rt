//! Laws of the spelling. Each law is the contract of a function that does nothing.

ghost use Rattle.ifs_base.specs.Spelling.{IsReadBack};

/// `decode_op` reads each instruction back from the bytes that `encode_op` returns.
pub fn instructions_are_read_back()
    ensures { IsReadBack }
{}
