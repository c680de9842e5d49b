//! The class of a line, in a playlist of any kind.

ghost use Rattle.std.specs.Prelude.{◌≡◌, ◌==◌, true, false, MatchOption};
ghost use Rattle.std.specs.List.{before_first, after_first, position};
ghost use Rattle.std.specs.Str.{is_utf8};
ghost use Rattle.std.specs.Str.Lines.{strip_carriage_return};
ghost use Rattle.playlist_terms.specs.Lines.{line_of, is_spaces, stands_as_uri};
ghost use Rattle.m3u8_text.specs.Seen.{line_seen};

use std::str;

/// What a line is, before its value is read.
#[derive(Clone, Copy, Debug)]
pub(crate) enum Line<'a> {
    /// It is no UTF-8.
    NotText,
    /// It is empty, spaces alone, or a comment.
    Silent,
    /// A tag's name, and its value behind the first colon.
    Tag { name: &'a [u8], value: &'a [u8] },
    /// Any other line.
    Uri(&'a str),
}

/// The class of the line.
#[tactic(auto, unfolding(playlist_terms::specs::Lines::line_of))]
pub(crate) fn line_of(text: &[u8]) -> Line<'_>
    ensures { line_seen result ≡ line_of text.now }
{
    let Some(string) = text_of(text) else {
        return Line::NotText;
    };
    if is_spaces(text) {
        return Line::Silent;
    }
    if text.starts_with(b"#EXT".as_slice()) {
        let (name, value) = cut_at(text, b':');
        return Line::Tag { name, value };
    }
    if text.starts_with(b"#".as_slice()) {
        return Line::Silent;
    }
    Line::Uri(string)
}

/// The bytes as a text; `None` where they are no UTF-8.
fn text_of(bytes: &[u8]) -> Option<&str>
    ensures { MatchOption result (is_utf8 bytes.now ≡ false) (λ text. (is_utf8 bytes.now ≡ true)
        × (text.now ≡ bytes.now)) }
{
    match str::from_utf8(bytes) {
        Ok(text) => Some(text),
        Err(_) => None,
    }
}

/// Whether these are spaces alone.
pub(crate) fn is_spaces(bytes: &[u8]) -> bool
    ensures { result ≡ is_spaces bytes.now }
{
    bytes.iter().all(|byte| *byte == b' ')
}

/// Whether the text is neither a tag nor a comment, and has more than spaces.
pub(crate) fn stands_as_uri(text: &[u8]) -> bool
    ensures { result ≡ stands_as_uri text.now }
{
    if !text.is_empty() && text[0] == b'#' {
        return false;
    }
    !is_spaces(text)
}

/// What stands in front of the first such byte, and behind it: all bytes and none, where there is none.
pub(crate) fn cut_at(text: &[u8], mark: u8) -> (&[u8], &[u8])
    ensures front { result.0.now ≡ before_first (λ b. b == mark) text.now }
    ensures behind { result.1.now ≡ after_first (λ b. b == mark) text.now }
{
    match place_of(text, mark) {
        Some(place) => (&text[..place], &text[place + 1..]),
        None => (text, &text[text.len()..]),
    }
}

/// The place of the first such byte.
pub(crate) fn place_of(text: &[u8], mark: u8) -> Option<usize>
    ensures { result ≡ position (λ b. b == mark) text.now }
{
    text.iter().position(|byte| *byte == mark)
}

/// The text without one carriage return at its end.
pub(crate) fn without_return(text: &[u8]) -> &[u8]
    ensures { result.now ≡ strip_carriage_return text.now }
{
    match text {
        [front @ .., b'\r'] => front,
        _ => text,
    }
}
