//! Reads decimal numbers.

ghost use Rattle.std.specs.Prelude.{◌≡◌};
ghost use Rattle.std.specs.Option.{option_map};
ghost use Rattle.ifs_base.specs.Numbers.{number_of, sized};
ghost use Rattle.ifs_base.specs.inner.Digits.{with_digit};

/// A number that decimal digits spell.
#[derive(Clone, Copy, Debug, PartialEq, Eq)]
pub enum Number {
    /// A number below 2^64.
    Within(u64),
    /// A number of 2^64 or more.
    TooGreat,
}

/// Reads the number that decimal digits spell. Returns `None` if a text is empty or has another byte.
pub fn parse_number(text: &[u8]) -> Option<Number>
    ensures { result ≡ option_map sized (number_of text.now) }
{
    if text.is_empty() {
        return None;
    }
    let mut value = Some(0);
    for digit in text {
        if !digit.is_ascii_digit() {
            return None;
        }
        value = with_digit(value, *digit - b'0');
    }
    Some(value.map_or(Number::TooGreat, Number::Within))
}

/// Appends a digit to a number. Returns `None` if the result is 2^64 or more.
fn with_digit(value: Option<u64>, digit: u8) -> Option<u64>
    ensures { result ≡ with_digit value digit }
{
    value?.checked_mul(10)?.checked_add(u64::from(digit))
}
