//! Definitions on the command line.

ghost use Rattle.std.specs.Prelude.{◌≡◌, ℕ, List, IfSome, IsSomeAnd};
ghost use Rattle.ifs_command_line.specs.Definitions.{Defines};

use ifs_lex::is_macro_name;

/// The name and the value of a word after `-D`, which is split at its first `=`. It is `None` if there is no `=`, or if the
/// part before it is not a macro name.
pub fn definition_of(word: &str) -> Option<(&str, &str)>
    ensures found { IfSome result (λ it. Defines word.now it.0.now it.1.now) }
    ensures only { (name value : List ℕ) → Defines word.now name value
        → IsSomeAnd result (λ it. (it.0.now ≡ name) × (it.1.now ≡ value)) }
{
    let (name, value) = word.split_once('=')?;
    if is_macro_name(name) {
        Some((name, value))
    } else {
        None
    }
}
