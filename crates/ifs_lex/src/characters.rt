//! The bytes of words, names and blanks.

ghost use Rattle.std.specs.Prelude.{◌≡◌};
ghost use Rattle.std.specs.List.{prefix_len};
ghost use Rattle.ifs_lex.specs.Characters as characters;

/// Returns whether a byte is a letter.
fn is_letter(byte: u8) -> bool
    ensures { result ≡ characters.is_letter byte }
{
    matches!(byte, b'A'..=b'Z' | b'a'..=b'z')
}

/// Returns whether a byte is a digit.
fn is_digit(byte: u8) -> bool
    ensures { result ≡ characters.is_digit byte }
{
    matches!(byte, b'0'..=b'9')
}

/// Returns whether a byte is a blank.
pub fn is_blank(byte: u8) -> bool
    ensures { result ≡ characters.is_blank byte }
{
    matches!(byte, b' ' | b'\t' | b'\r' | b'\n')
}

/// Returns whether a byte opens a quoted text.
pub fn is_quote(byte: u8) -> bool
    ensures { result ≡ characters.is_quote byte }
{
    matches!(byte, b'"' | b'\'')
}

/// Returns whether a macro name can begin with a byte.
pub fn begins_name(byte: u8) -> bool
    ensures { result ≡ characters.begins_name byte }
{
    is_letter(byte) || byte == b'_'
}

/// Returns whether a macro name can go on with a byte.
pub fn continues_name(byte: u8) -> bool
    ensures { result ≡ characters.continues_name byte }
{
    is_letter(byte) || is_digit(byte) || byte == b'_'
}

/// Returns whether a word can begin with a byte.
pub fn begins_word(byte: u8) -> bool
    ensures { result ≡ characters.begins_word byte }
{
    is_letter(byte) || is_digit(byte) || byte == b'_' || byte == b'/'
}

/// Returns whether a word can go on with a byte.
pub fn continues_word(byte: u8) -> bool
    ensures { result ≡ characters.continues_word byte }
{
    begins_word(byte) || matches!(byte, b'-' | b':' | b'+' | b'@' | b'%' | b'*' | b'~')
}

/// Returns for how many bytes a macro name goes on.
pub fn name_run(bytes: &[u8]) -> usize
    ensures { result ≡ prefix_len characters.continues_name bytes.now }
{
    bytes
        .iter()
        .take_while(|byte| continues_name(**byte))
        .count()
}

/// Returns for how many bytes a word goes on.
pub fn word_run(bytes: &[u8]) -> usize
    ensures { result ≡ prefix_len characters.continues_word bytes.now }
{
    bytes
        .iter()
        .take_while(|byte| continues_word(**byte))
        .count()
}

/// Returns whether a text is a macro name: a letter or `_`, and then only letters, digits and `_`.
pub fn is_macro_name(text: &str) -> bool
    ensures { result ≡ characters.is_macro_name text.now }
{
    match text.as_bytes() {
        [] => false,
        [first, rest @ ..] => begins_name(*first) && name_run(rest) == rest.len(),
    }
}

/// Returns whether a word is reserved.
pub fn is_reserved(word: &str) -> bool
    ensures { result ≡ characters.is_reserved word.now }
{
    matches!(
        word,
        "state" | "init-state" | "init" | "if" | "run" | "set-state" | "every"
    )
}
