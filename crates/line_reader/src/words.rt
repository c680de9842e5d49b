//! What a line says behind a word.

ghost use Rattle.std.specs.Prelude.{◌≡◌, MatchOption, None, Some};
ghost use Rattle.text_terms.specs.Numbers.{number_of};
ghost use Rattle.form_terms.specs.TextLines.{number_after};

use std::str;
use texts::read_number;

/// The number that follows a word.
pub(crate) fn number_after(word: &[u8], text: &[u8]) -> Option<u128>
    ensures { result ≡ number_after word.now text.now }
{
    number_in(text.strip_prefix(word)?)
}

/// The number that the bytes spell.
fn number_in(bytes: &[u8]) -> Option<u128>
    ensures { result ≡ number_of bytes.now }
{
    match str::from_utf8(bytes) {
        Ok(text) => read_number(text),
        Err(_) => None,
    }
}
