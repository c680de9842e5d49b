//! A segment of a playlist.

ghost use Rattle.std.specs.Prelude.{◌≡◌, ◌<◌, ◌^◌};
ghost use Rattle.playlist_terms.specs.Playlists.{IsSegment, is_segment_uri};
ghost use Rattle.m3u8_text.specs.Answers.{MakesSegment};

use crate::class::stands_as_uri;
use crate::errors::SegmentError;
use lists::Text;
use std::alloc::Global;
use std::marker::Model;
use texts::is_name;

// Ten digits are enough for the seconds of a duration below this.
const LONGEST_DURATION: u64 = 10_000_000_000_000_000;

/// A segment: its duration in microseconds, the name of its blob, and whether a discontinuity stands in front of it.
///
/// Its URI can stand on a line of its own, and its seconds have at most ten digits.
#[derive(Debug, Drop)]
pub struct Segment {
    micros: u64,
    uri: Text,
    cut: bool,
}

impl Model for Segment {
    ghost use Rattle.playlist_terms.specs.Playlists.{PlaylistSegment, IsSegment};

    ghost Value = { PlaylistSegment };

    ghost view = { λ s. record { micros = s.micros; uri = s.uri; cut = s.cut } };

    ghost invariant = { λ s. IsSegment (record { micros = s.micros; uri = s.uri; cut = s.cut }) };
}

impl Segment {
    /// The segment of this duration in microseconds and this URI, which it copies.
    pub fn new(alloc: Global, micros: u64, uri: &str, cut: bool) -> Result<Segment, SegmentError>
        // Which segment it is, or which rule is broken first.
        ensures { MakesSegment result micros uri.now cut }
    {
        if !is_segment_uri(uri) {
            return Err(SegmentError::BadUri);
        }
        if micros >= LONGEST_DURATION {
            return Err(SegmentError::LongDuration);
        }
        let uri = Text::of(alloc, uri)?;
        Ok(Segment { micros, uri, cut })
    }

    /// The segment of these parts, which are allowed.
    pub(crate) fn over(micros: u64, uri: Text, cut: bool) -> Segment
        requires { IsSegment (record { micros = micros; uri = uri; cut = cut }) }
        ensures { result ≡ record { micros = micros; uri = uri; cut = cut } }
    {
        Segment { micros, uri, cut }
    }

    /// The duration in microseconds.
    pub fn micros(&self) -> u64
        ensures { result ≡ self.now.micros }
    {
        self.micros
    }

    /// The name of the blob that the segment is.
    pub fn uri(&self) -> &Text
        ensures { result.now ≡ self.now.uri }
    {
        &self.uri
    }

    /// Whether a discontinuity stands in front of the segment.
    pub fn cut(&self) -> bool
        ensures { result ≡ self.now.cut }
    {
        self.cut
    }
}

/// Whether the text can be the URI of a segment.
fn is_segment_uri(uri: &str) -> bool
    ensures { result ≡ is_segment_uri uri.now }
{
    is_name(uri) && stands_as_uri(uri.as_bytes())
}
