//! Whole numbers as the values of tags.

ghost use Rattle.std.specs.Prelude.{◌≡◌, ◌<◌, ◌≤◌, ◌^◌, ◌*◌, ◌+◌, ℕ, true, length};
ghost use Rattle.std.specs.Char.{is_ascii_digit, digit_value};
ghost use Rattle.std.specs.List.{list_all};
ghost use Rattle.std.specs.Str.{all_ascii_digits};
ghost use Rattle.std.specs.Str.Parse.{digits_value};
ghost use Rattle.playlist_terms.specs.TagValues.{are_digits, whole_number_of, as_version};

const MOST_DIGITS: usize = 20;

/// A whole number below 2^64, in 1 to 20 digits.
pub(crate) fn whole_number(text: &[u8]) -> Option<u64>
    ensures { result ≡ whole_number_of text.now }
{
    if !are_digits(MOST_DIGITS, text) {
        return None;
    }
    let value = value_of(text);
    if value > u128::from(u64::MAX) {
        return None;
    }
    Some(value as u64)
}

/// A version of the protocol, 1 to 65,535.
pub(crate) fn version(text: &[u8]) -> Option<u32>
    ensures { result ≡ as_version (whole_number_of text.now) }
{
    match whole_number(text) {
        Some(number) if number >= 1 && number <= 65_535 => Some(number as u32),
        _ => None,
    }
}

/// Whether these are digits, one at least and so many at most.
#[tactic(auto, using(crate::proofs::Digits::all_digits_test))]
pub(crate) fn are_digits(most: usize, text: &[u8]) -> bool
    ensures { result ≡ are_digits most text.now }
{
    all_digits(text) && !text.is_empty() && text.len() <= most
}

/// Whether each byte is a digit.
pub(crate) fn all_digits(text: &[u8]) -> bool
    ensures { result ≡ list_all is_ascii_digit text.now }
{
    text.iter().all(|byte| byte.is_ascii_digit())
}

/// The number that at most 20 digits spell.
pub(crate) fn value_of(digits: &[u8]) -> u128
    requires digits { all_ascii_digits digits.now ≡ true }
    requires few { length digits.now ≤ 20 }
    ensures value { result ≡ digits_value 10 digits.now }
    ensures below { (most : ℕ) → length digits.now ≤ most → result < 10 ^ most }
{
    let mut value = 0;
    for digit in digits {
        value = value * 10 + u128::from(digit_of(*digit));
    }
    value
}

/// The number that one digit spells.
fn digit_of(digit: u8) -> u8
    requires { is_ascii_digit digit ≡ true }
    ensures value { result ≡ digit_value digit }
    ensures below { result < 10 }
{
    digit - b'0'
}
