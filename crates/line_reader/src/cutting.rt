//! A line from the front of a text.

ghost use Rattle.std.specs.Prelude.{◌≡◌, ◌<◌, length, IfSome, MatchOption, [], ◌∷◌, ◌==◌};
ghost use Rattle.std.specs.List.{position};
ghost use Rattle.form_terms.specs.TextLines.{parts_of};

use memchr::memchr;

/// The bytes before the first line feed and those after it; `None` where there is none.
pub(crate) fn cut_line(bytes: &[u8]) -> Option<(&[u8], &[u8])>
    ensures parts { MatchOption result (parts_of bytes.now
        ≡ bytes.now ∷ []) (λ cut. parts_of bytes.now ≡ cut.0.now ∷ parts_of cut.1.now) }
    ensures shorter { IfSome result (λ cut. length cut.1.now < length bytes.now) }
{
    let end = line_feed(bytes)?;
    Some((&bytes[..end], &bytes[end + 1..]))
}

/// The place of the first line feed.
fn line_feed(bytes: &[u8]) -> Option<usize>
    ensures { result ≡ position (λ b. b == 10) bytes.now }
{
    memchr(b'\n', bytes)
}
