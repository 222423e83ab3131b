//! Scans of texts and of lists.

/// A kind of byte.
#[derive(Clone, Copy)]
pub(crate) enum ByteKind {
    /// A blank or a tab.
    Blank,
    /// What ASCII has between words.
    Space,
    Digit,
    Zero,
    /// A letter, a digit or `_`, as the name of a macro has them.
    OfName,
}

/// Whether a byte is of a kind.
fn is_of(kind: ByteKind, byte: u8) -> bool {
    match kind {
        ByteKind::Blank => byte == b' ' || byte == b'\t',
        ByteKind::Space => byte.is_ascii_whitespace(),
        ByteKind::Digit => byte.is_ascii_digit(),
        ByteKind::Zero => byte == b'0',
        ByteKind::OfName => byte.is_ascii_alphanumeric() || byte == b'_',
    }
}

/// How many bytes of a kind a text begins with.
pub(crate) fn length_of_front(text: &str, kind: ByteKind) -> usize {
    let mut length = 0usize;
    for byte in text.bytes() {
        if !is_of(kind, byte) {
            break;
        }
        length = length.saturating_add(1);
    }
    length
}

/// Whether all bytes of a text are of a kind.
pub(crate) fn is_all(text: &str, kind: ByteKind) -> bool {
    length_of_front(text, kind) == text.len()
}

/// Whether a part is in a text.
pub(crate) fn contains(text: &str, part: &str) -> bool {
    text.find(part).is_some()
}

/// Whether a word is one of these.
pub(crate) fn is_one_of(word: &str, words: &[&str]) -> bool {
    for known in words {
        if *known == word {
            return true;
        }
    }
    false
}
