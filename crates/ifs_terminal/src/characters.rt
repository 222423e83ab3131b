//! The characters that a terminal acts on.

ghost use Rattle.std.specs.Prelude.{◌≡◌};
ghost use Rattle.ifs_terminal.specs.Terminals.{acts_on_terminal};

/// Returns whether a terminal may act on a character in place of showing it: a control character, a separator of lines or
/// paragraphs, or a character that changes the direction of the text around it.
pub fn acts_on_terminal(character: char) -> bool
    ensures { result ≡ acts_on_terminal character }
{
    matches!(
        u32::from(character),
        0..=31 | 127..=159 | 1_564 | 8_206 | 8_207 | 8_232..=8_238 | 8_294..=8_297
    )
}
