//! Whole numbers as text.

ghost use Rattle.std.specs.Prelude.{◌≡◌, IfOk};
ghost use Rattle.std.specs.Fmt.{decimal};
ghost use Rattle.std.specs.Char.{is_ascii_digit};
ghost use Rattle.std.specs.List.{list_all};
ghost use Rattle.text_terms.specs.Numbers.{is_numeral, number_of};

use lists::{Memory, Text};
use std::alloc::Global;

/// The number that the text spells: `0`, or digits without a leading zero, with a value below 2^128.
pub fn read_number(text: &str) -> Option<u128>
    ensures { result ≡ number_of text.now }
{
    if !is_numeral(text.as_bytes()) {
        return None;
    }
    text.parse::<u128>().ok()
}

/// The one text that spells the number. The only error is want of memory.
pub fn number_text(alloc: Global, value: u128) -> Result<Text, Memory>
    ensures { IfOk result (λ text. text ≡ decimal value) }
{
    Ok(Text::over(value.to_string(alloc)?))
}

/// Whether these are digits alone, at least one, with a zero in front only where it stands alone.
#[tactic(auto, using(crate::proofs::Numerals::all_digits_test))]
fn is_numeral(bytes: &[u8]) -> bool
    ensures { result ≡ is_numeral bytes.now }
{
    let Some(first) = bytes.first() else {
        return false;
    };
    (*first != b'0' || bytes.len() == 1) && all_digits(bytes)
}

/// Whether each byte is a decimal digit.
fn all_digits(bytes: &[u8]) -> bool
    ensures { result ≡ list_all is_ascii_digit bytes.now }
{
    bytes.iter().all(|byte| byte.is_ascii_digit())
}
