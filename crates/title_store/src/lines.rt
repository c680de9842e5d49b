//! What single lines of a title's text say.

ghost use Rattle.std.specs.Prelude.{◌≡◌, ◌==◌, Some};
ghost use Rattle.std.specs.List.{position};
ghost use Rattle.std.specs.Option.{option_map};
ghost use Rattle.text_terms.specs.Numbers.{number_of};
ghost use Rattle.title_terms.specs.TitleText.{exactly, if_text, text_after, parted, cut_said, segment_said, digest_said};
ghost use Rattle.title_store.specs.Reads.{parts_view};

use hex::FromHex;
use std::str;
use texts::read_number;

/// What the line of a segment says.
#[derive(Clone, Copy)]
pub(crate) struct SegmentParts<'a> {
    pub(crate) micros: u128,
    pub(crate) uri: &'a str,
    pub(crate) cut: bool,
}

/// The bytes, where they are just these.
pub(crate) fn exactly(wanted: &[u8], text: &[u8]) -> Option<()>
    ensures { result ≡ exactly wanted.now text.now }
{
    if text == wanted { Some(()) } else { None }
}

/// The text behind a word.
pub(crate) fn text_after<'a>(word: &[u8], text: &'a [u8]) -> Option<&'a str>
    ensures { option_map (λ value. value.now) result ≡ text_after word.now text.now }
{
    text_in(text.strip_prefix(word)?)
}

/// The bytes, where they are a text.
fn text_in(bytes: &[u8]) -> Option<&str>
    ensures { option_map (λ value. value.now) result ≡ if_text (Some bytes.now) }
{
    match str::from_utf8(bytes) {
        Ok(text) => Some(text),
        Err(_) => None,
    }
}

/// The number that the bytes spell.
pub(crate) fn number_in(bytes: &[u8]) -> Option<u128>
    ensures { result ≡ number_of bytes.now }
{
    match str::from_utf8(bytes) {
        Ok(text) => read_number(text),
        Err(_) => None,
    }
}

/// A segment: a digit for the cut, a space, the microseconds, a space and the URI.
#[tactic(auto, unfolding(title_terms::specs::TitleText::segment_said))]
pub(crate) fn segment_in(text: &[u8]) -> Option<SegmentParts<'_>>
    ensures { option_map parts_view result ≡ segment_said text.now }
{
    let (flag, timed) = parted(text)?;
    let (number, uri) = parted(timed)?;
    let cut = cut_in(flag)?;
    let micros = number_in(number)?;
    let uri = text_in(uri)?;
    Some(SegmentParts { micros, uri, cut })
}

/// What stands in front of the first space, and behind it.
fn parted(text: &[u8]) -> Option<(&[u8], &[u8])>
    ensures { option_map (λ parts. (parts.0.now, parts.1.now)) result ≡ parted text.now }
{
    let space = space_in(text)?;
    Some((&text[..space], &text[space + 1..]))
}

/// The place of the first space.
fn space_in(text: &[u8]) -> Option<usize>
    ensures { result ≡ position (λ b. b == 32) text.now }
{
    text.iter().position(|byte| *byte == b' ')
}

/// Whether a discontinuity stands in front of the segment.
fn cut_in(flag: &[u8]) -> Option<bool>
    ensures { result ≡ cut_said flag.now }
{
    if flag == b"0".as_slice() {
        return Some(false);
    }
    if flag == b"1".as_slice() {
        return Some(true);
    }
    None
}

/// The digest that 64 digits spell, all of them in lower case.
#[tactic(auto, unfolding(title_terms::specs::TitleText::digest_said))]
pub(crate) fn digest_in(text: &[u8]) -> Option<[u8; 32]>
    ensures { result ≡ digest_said text.now }
{
    let Ok(digest) = <[u8; 32] as FromHex>::from_hex(text) else {
        return None;
    };
    let mut again = [0u8; 64];
    hex::encode_to_slice(digest.as_slice(), &mut again).unwrap();
    if again.as_slice() == text {
        Some(digest)
    } else {
        None
    }
}
