//! The words of a line.

ghost use Rattle.std.specs.Prelude.{◌≡◌, ◌≤◌, ◌+◌, length, map};
ghost use Rattle.std.specs.List.{prefix_len};
ghost use Rattle.std.specs.Str.{bytes_eq};
ghost use Rattle.ifs_asm.specs.Spellings.{is_space_or_tab, is_silent};
ghost use Rattle.ifs_asm.specs.inner.Words.{Bare, Inside, mode_after, goes_on, word_len, after_blanks, words_up_to};

use crate::plain::run_in_quotes;
use arrayvec::ArrayVec;

/// One more word than the longest form of a line has.
const WORDS: usize = 9;

/// The first words of a line, nine at most.
pub(crate) type Words<'a> = ArrayVec<&'a [u8], WORDS>;

/// The value beside the key that a word is, and `None` if the word is none of the keys.
macro_rules! value_of {
    ($word:expr; $($key:literal => $value:expr),+ $(,)?) => {
        $(if $crate::words::is($word, $key) {
            Some($value)
        } else)+ {
            None
        }
    };
}

pub(crate) use value_of;

/// Whether a word is this key. Arrays of one length are compared at once, where slices of unknown length cost a call.
#[inline(always)]
pub(crate) fn is<const N: usize>(word: &[u8], key: &[u8; N]) -> bool
    ensures { result ≡ bytes_eq word.now key.now }
{
    match <&[u8; N]>::try_from(word) {
        Ok(same_length) => *same_length == *key,
        Err(_) => false,
    }
}

/// Whether a line is empty or a comment.
pub(crate) fn is_silent(line: &[u8]) -> bool
    ensures { result ≡ is_silent line.now }
{
    for byte in line {
        if !is_blank(*byte) {
            return *byte == b';';
        }
    }
    true
}

/// Splits a line into words at the blanks outside quotes.
pub(crate) fn words_of(line: &[u8]) -> Words<'_>
    ensures { map (λ word. word.now) result.items ≡ words_up_to 9 line.now }
{
    let mut words = ArrayVec::new();
    let mut left = line;
    for _ in 0..WORDS {
        let rest = after_blanks(left);
        if rest.is_empty() {
            return words;
        }
        let (word, others) = rest.split_at(word_len(rest));
        words.push(word);
        left = others;
    }
    words
}

/// The bytes after the blanks at the front.
fn after_blanks(bytes: &[u8]) -> &[u8]
    ensures { result.now ≡ after_blanks bytes.now }
{
    &bytes[blanks(bytes)..]
}

/// The number of blanks at the front.
fn blanks(bytes: &[u8]) -> usize
    ensures value { result ≡ prefix_len is_space_or_tab bytes.now }
    ensures within { result ≤ length bytes.now }
{
    bytes.iter().take_while(|byte| is_blank(**byte)).count()
}

fn is_blank(byte: u8) -> bool
    ensures { result ≡ is_space_or_tab byte }
{
    byte == b' ' || byte == b'\t'
}

/// The number of bytes before the first blank outside quotes.
fn word_len(bytes: &[u8]) -> usize
    ensures value { result ≡ word_len Bare bytes.now }
    ensures within { result ≤ length bytes.now }
{
    let mut left = bytes;
    while let Some((byte, rest)) = left.split_first() {
        if is_blank(*byte) {
            return bytes.len() - left.len();
        }
        left = behind(*byte, rest);
    }
    bytes.len()
}

/// The bytes after a byte outside quotes. If it is a quote, they follow the quoted text that it begins.
fn behind(byte: u8, rest: &[u8]) -> &[u8]
    ensures value { length rest.now + word_len Bare result.now ≡ length result.now + word_len (mode_after Bare byte) rest.now }
    ensures within { length result.now ≤ length rest.now }
{
    if byte == b'"' {
        behind_quotes(rest)
    } else {
        rest
    }
}

/// The bytes after the quote that ends a text. There are none if no quote ends it.
fn behind_quotes(bytes: &[u8]) -> &[u8]
    ensures value { length bytes.now + word_len Bare result.now ≡ length result.now + word_len Inside bytes.now }
    ensures within { length result.now ≤ length bytes.now }
{
    let mut left = behind_run(bytes);
    while let [b'\\', _, rest @ ..] = left {
        left = behind_run(rest);
    }
    match left {
        [b'"', rest @ ..] => rest,
        _ => &[],
    }
}

/// The bytes inside quotes from the first quote or backslash on.
fn behind_run(bytes: &[u8]) -> &[u8]
    ensures value { length bytes.now + word_len Inside result.now ≡ length result.now + word_len Inside bytes.now }
    ensures within { length result.now ≤ length bytes.now }
    ensures whole { prefix_len goes_on result.now ≡ 0 }
{
    &bytes[run_in_quotes(bytes)..]
}
