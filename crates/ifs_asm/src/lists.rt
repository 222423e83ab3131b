//! Lists of tests.

ghost use Rattle.std.specs.Prelude.{◌≡◌, ◌∷◌, ◌<◌, ◌==◌, ℕ, IfSome, length, option_map, option_and_then};
ghost use Rattle.std.specs.List.{slice_split, position};
ghost use Rattle.ifs_asm.specs.inner.Words.{mask_in, masked, with_test};
ghost use Rattle.ifs_asm.specs.inner.Forms.{mask_by, listed_by, parts_left};

use crate::words::is;
use ifs_base::{Number, parse_number};

/// A list of tests.
#[derive(Clone, Copy)]
pub(crate) enum ListForm {
    /// Ascending tests below 64, as a mask: the bit of weight 2^t is set if test t is listed.
    Mask(u64),
    /// A test is over 63, or not greater than the one before it.
    OutOfRange,
}

/// Reads a list: a dash, or numbers with commas between them. Returns `None` if the word is no list.
pub(crate) fn list_of(word: &[u8]) -> Option<ListForm>
    ensures { listed_by result ≡ mask_in word.now }
{
    if is(word, b"-") {
        return Some(ListForm::Mask(0));
    }
    numbers_of(word)
}

/// Reads numbers with commas between them.
fn numbers_of(word: &[u8]) -> Option<ListForm>
    ensures { listed_by result ≡ masked 0 (slice_split (λ byte. byte == 44) word.now) }
{
    let mut list = ListForm::Mask(0);
    let mut left = Some(word);
    while let Some(text) = left {
        let (part, rest) = cut_at_comma(text);
        list = list.with(parse_number(part)?);
        left = rest;
    }
    Some(list)
}

/// The bytes before the first comma, and those after it if there is a comma.
pub(crate) fn cut_at_comma(text: &[u8]) -> (&[u8], Option<&[u8]>)
    ensures parts { slice_split (λ byte. byte == 44) text.now ≡ result.0.now ∷ parts_left (option_map (λ rest. rest.now) result.1) }
    ensures shorter { IfSome result.1 (λ rest. length rest.now < length text.now) }
{
    match comma(text) {
        Some(place) => (&text[..place], Some(&text[place + 1..])),
        None => (text, None),
    }
}

/// The place of the first comma.
fn comma(text: &[u8]) -> Option<usize>
    ensures { result ≡ position (λ byte. byte == 44) text.now }
{
    text.iter().position(|byte| *byte == b',')
}

impl ListForm {
    ghost use Rattle.ifs_asm.specs.inner.Forms.{mask_by};
    ghost use Rattle.ifs_asm.specs.inner.Words.{with_test};
    ghost use Rattle.ifs_base.specs.Numbers.{sized};

    /// The list with one more test.
    fn with(self, test: Number) -> ListForm
        ensures { (n : ℕ) → test ≡ sized n → mask_by result ≡ option_and_then (λ mask. with_test mask n) (mask_by self) }
    {
        match (self, test) {
            (ListForm::Mask(mask), Number::Within(test)) => with_test(mask, test),
            _ => ListForm::OutOfRange,
        }
    }
}

/// A mask with one more test. The test has to be greater than all tests of the mask.
fn with_test(mask: u64, test: u64) -> ListForm
    ensures { mask_by result ≡ with_test mask test }
{
    if test < 64 && mask < 1 << test {
        ListForm::Mask((1 << test) + mask)
    } else {
        ListForm::OutOfRange
    }
}
