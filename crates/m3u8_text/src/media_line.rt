//! What a line says in a media playlist.

ghost use Rattle.std.specs.Prelude.{◌≡◌};
ghost use Rattle.playlist_terms.specs.MediaLines.{media_line, media_tag, is_outside, is_no_key};
ghost use Rattle.m3u8_text.specs.Seen.{said};

use crate::class::{Line, line_of};
use crate::durations::duration;
use crate::tag_values::{version, whole_number};

/// What a line says, its value already read. A number is `None` where the value has not its form.
#[derive(Clone, Copy, Debug)]
pub(crate) enum MediaLine<'a> {
    /// It is no UTF-8.
    NotText,
    /// Nothing that is kept.
    Silent,
    Uri(&'a str),
    /// The line is `#EXTM3U`.
    Start,
    /// A tag of that name with a value.
    StartTag,
    Version(Option<u32>),
    Target(Option<u64>),
    Sequence(Option<u64>),
    Duration(Option<u64>),
    /// Whether the type of the playlist is `VOD`.
    Kind(bool),
    End,
    Cut,
    /// Whether the segments have no key.
    Key(bool),
    /// A tag that the profile leaves out.
    Outside,
}

/// What the line says.
#[tactic(auto, unfolding(playlist_terms::specs::MediaLines::media_line))]
pub(crate) fn media_line(text: &[u8]) -> MediaLine<'_>
    ensures { said result ≡ media_line text.now }
{
    if text == b"#EXTM3U".as_slice() {
        return MediaLine::Start;
    }
    match line_of(text) {
        Line::NotText => MediaLine::NotText,
        Line::Silent => MediaLine::Silent,
        Line::Tag { name, value } => media_tag(name, value),
        Line::Uri(uri) => MediaLine::Uri(uri),
    }
}

/// What a tag says.
#[tactic(auto, unfolding(playlist_terms::specs::MediaLines::media_tag))]
fn media_tag<'a>(name: &[u8], value: &[u8]) -> MediaLine<'a>
    ensures { said result ≡ media_tag name.now value.now }
{
    if name == b"#EXTINF".as_slice() {
        MediaLine::Duration(duration(value))
    } else if name == b"#EXT-X-DISCONTINUITY".as_slice() {
        MediaLine::Cut
    } else if name == b"#EXT-X-VERSION".as_slice() {
        MediaLine::Version(version(value))
    } else if name == b"#EXT-X-TARGETDURATION".as_slice() {
        MediaLine::Target(whole_number(value))
    } else if name == b"#EXT-X-MEDIA-SEQUENCE".as_slice() {
        MediaLine::Sequence(whole_number(value))
    } else if name == b"#EXT-X-PLAYLIST-TYPE".as_slice() {
        MediaLine::Kind(value == b"VOD".as_slice())
    } else if name == b"#EXT-X-ENDLIST".as_slice() {
        MediaLine::End
    } else if name == b"#EXT-X-KEY".as_slice() {
        MediaLine::Key(is_no_key(value))
    } else if name == b"#EXTM3U".as_slice() {
        MediaLine::StartTag
    } else if is_outside(name) {
        MediaLine::Outside
    } else {
        MediaLine::Silent
    }
}

/// Whether the value of a key says that nothing is encrypted.
fn is_no_key(value: &[u8]) -> bool
    ensures { result ≡ is_no_key value.now }
{
    value == b"METHOD=NONE".as_slice() || value.starts_with(b"METHOD=NONE,".as_slice())
}

/// Whether the profile leaves the tag out.
fn is_outside(name: &[u8]) -> bool
    ensures { result ≡ is_outside name.now }
{
    name == b"#EXT-X-BYTERANGE".as_slice()
        || name == b"#EXT-X-MAP".as_slice()
        || name == b"#EXT-X-I-FRAMES-ONLY".as_slice()
        || name == b"#EXT-X-STREAM-INF".as_slice()
        || name == b"#EXT-X-I-FRAME-STREAM-INF".as_slice()
        || name == b"#EXT-X-MEDIA".as_slice()
}
