//! The rules on names.

ghost use Rattle.std.specs.Prelude.{◌≡◌};
ghost use Rattle.std.specs.List.{list_all};
ghost use Rattle.text_terms.specs.Names.{is_name, is_plain, is_printable, is_plain_character};

const LONGEST_NAME: usize = 1024;

const LONGEST_PLAIN_NAME: usize = 64;

/// Whether the text may name a blob, or be a URI: 1 to 1,024 bytes, without control characters.
pub fn is_name(text: &str) -> bool
    ensures { result ≡ is_name text.now }
{
    let bytes = text.as_bytes();
    !bytes.is_empty() && bytes.len() <= LONGEST_NAME && all_printable(bytes)
}

/// Whether the text may name a licensee or a title: 1 to 64 letters and digits of ASCII, `.`, `_` and `-`.
pub fn is_plain(text: &str) -> bool
    ensures { result ≡ is_plain text.now }
{
    let bytes = text.as_bytes();
    !bytes.is_empty() && bytes.len() <= LONGEST_PLAIN_NAME && all_plain(bytes)
}

/// Whether no byte is a control character.
fn all_printable(bytes: &[u8]) -> bool
    ensures { result ≡ list_all is_printable bytes.now }
{
    bytes.iter().all(|byte| *byte >= b' ' && *byte != 0x7f)
}

/// Whether each byte may stand in a plain name.
fn all_plain(bytes: &[u8]) -> bool
    ensures { result ≡ list_all is_plain_character bytes.now }
{
    bytes.iter().all(|byte| byte.is_ascii_alphanumeric() || matches!(*byte, b'.' | b'_' | b'-'))
}
