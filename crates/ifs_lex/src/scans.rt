//! Lengths of what comes first in a text.

ghost use Rattle.std.specs.Prelude.{◌≡◌, ◌≤◌, ◌<◌, ◌∷◌, false, length, IfSome, MatchOption};
ghost use Rattle.ifs_lex.specs.Lexemes as lexemes;
ghost use Rattle.ifs_lex.specs.Lexemes.{Blanks};
ghost use Rattle.ifs_lex.specs.Spelling.{after_backslash};
ghost use Rattle.ifs_lex.specs.inner.Gaps.{comment_bytes, IsGapPart};

use crate::characters::is_blank;
use memchr::memchr;

/// Returns whether bytes begin with this one.
pub fn begins_with(byte: u8, bytes: &[u8]) -> bool
    ensures { result ≡ lexemes.begins_with byte bytes.now }
{
    match bytes {
        [] => false,
        [first, ..] => *first == byte,
    }
}

/// Returns the length of a comment after its `#`. Its newline is part of it.
fn comment_len(bytes: &[u8]) -> usize
    ensures value { result ≡ comment_bytes bytes.now (lexemes.inside_len 10 false bytes.now) }
    ensures within { result ≤ length bytes.now }
{
    match inside_len(b'\n', bytes) {
        Some(len) => len + 1,
        None => bytes.len(),
    }
}

/// Returns the length of the blank, the joined line or the comment that begins with a byte, if one does.
#[tactic(auto, using(crate::proofs::Gaps::blank_part, crate::proofs::Gaps::joined_here, crate::proofs::Gaps::comment_here, crate::proofs::Gaps::no_gap))]
fn part_of(byte: u8, rest: &[u8]) -> Option<usize>
    ensures { MatchOption result (lexemes.gap_len Blanks (byte ∷ rest.now) ≡ 0) (IsGapPart (byte ∷ rest.now)) }
{
    if byte == b'#' {
        return Some(1 + comment_len(rest));
    }
    if is_blank(byte) {
        return Some(1);
    }
    if byte == b'\\' && begins_with(b'\n', rest) {
        return Some(2);
    }
    None
}

/// Returns the length of the first part of a gap, if one comes first.
fn gap_part(bytes: &[u8]) -> Option<usize>
    ensures { MatchOption result (lexemes.gap_len Blanks bytes.now ≡ 0) (IsGapPart bytes.now) }
{
    match bytes {
        [] => None,
        [byte, rest @ ..] => part_of(*byte, rest),
    }
}

/// Returns the length of the blanks and comments that come first.
pub fn gap_len(bytes: &[u8]) -> usize
    ensures { result ≡ lexemes.gap_len Blanks bytes.now }
{
    let mut len = 0;
    while let Some(part) = gap_part(bytes.split_at(len).1) {
        len += part;
    }
    len
}

/// Returns whether the byte before a place is a backslash.
fn is_after_backslash(bytes: &[u8], place: usize) -> bool
    requires { place ≤ length bytes.now }
    ensures { result ≡ after_backslash false bytes.now place }
{
    place > 0 && bytes[place - 1] == b'\\'
}

/// Returns the number of bytes before the closing quote, if there is one.
pub fn inside_len(quote: u8, bytes: &[u8]) -> Option<usize>
    ensures value { result ≡ lexemes.inside_len quote false bytes.now }
    ensures within { IfSome result (λ len. len < length bytes.now) }
{
    let mut from = 0;
    while let Some(ahead) = memchr(quote, bytes.split_at(from).1) {
        let place = from + ahead;
        if !is_after_backslash(bytes, place) {
            return Some(place);
        }
        from = place + 1;
    }
    None
}

#[tactic(auto, unfolding(crate::specs::Lexemes::is_dropped))]
/// Returns whether a byte between quotes is no part of the value.
pub fn is_dropped(quote: u8, byte: u8, rest: &[u8]) -> bool
    ensures { result ≡ lexemes.is_dropped quote byte rest.now }
{
    byte == b'\n'
        || byte == b'\\'
            && (begins_with(quote, rest)
                || begins_with(b' ', rest)
                || begins_with(b'\t', rest)
                || begins_with(b'\n', rest))
}
