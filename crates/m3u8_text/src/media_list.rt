//! A media playlist in memory.

ghost use Rattle.std.specs.Prelude.{◌≡◌, ◌≤◌, ◌↔◌, ◌++◌, [], ◌∷◌, length, slice_get, IfOk, IsOk, IsErrOf, OnOk, OnErr};
ghost use Rattle.std.specs.Option.{option_copied};
ghost use Rattle.playlist_terms.specs.Playlists.{IsPlaylist};
ghost use Rattle.m3u8_text.specs.declared.errors.PushError.TheVariants as push_errors;

use crate::errors::{ListError, PushError};
use crate::segment::Segment;
use std::alloc::Global;
use std::marker::Model;

// The most segments that a list has.
const MOST_SEGMENTS: usize = 100_000;

/// A media playlist: the version of the protocol, the target duration in seconds, the number of the first segment, and at
/// most 100,000 segments.
#[derive(Debug, Drop)]
pub struct MediaList {
    version: u32,
    target: u64,
    sequence: u64,
    segments: Vec<Segment>,
}

impl Model for MediaList {
    ghost use Rattle.playlist_terms.specs.Playlists.{Playlist, IsPlaylist};

    ghost Value = { Playlist };

    ghost view = { λ l. record { version = l.version; target = l.target; sequence = l.sequence; segments = l.segments.items } };

    ghost invariant = { λ l. IsPlaylist (record { version = l.version; target = l.target; sequence = l.sequence; segments = l.segments.items }) };
}

impl MediaList {
    /// A list without segments. Refused exactly where the version is not 1 to 65,535. It takes no memory.
    pub fn new(
        alloc: Global,
        version: u32,
        target: u64,
        sequence: u64,
    ) -> Result<MediaList, ListError>
        ensures made { IfOk result (λ l. l
            ≡ record { version = version; target = target; sequence = sequence; segments = [] }) }
        ensures allowed { IsOk result ↔ ((1 ≤ version) × (version ≤ 65535)) }
    {
        if version < 1 || version > 65_535 {
            return Err(ListError::BadVersion);
        }
        Ok(MediaList {
            version,
            target,
            sequence,
            segments: Vec::new(alloc),
        })
    }

    /// The list of a text that says nothing.
    pub(crate) fn empty(alloc: Global) -> MediaList
        ensures { result ≡ record { version = 1; target = 0; sequence = 0; segments = [] } }
    {
        MediaList {
            version: 1,
            target: 0,
            sequence: 0,
            segments: Vec::new(alloc),
        }
    }

    /// Adds a segment behind the others. A refused segment is dropped, and the list stays as it was.
    pub fn push(&mut self, segment: Segment) -> Result<(), PushError>
        ensures added { OnOk result (self.new
            ≡ record self.old { segments = self.old.segments ++ segment ∷ [] }) }
        ensures kept { OnErr result (self.new ≡ self.old) }
        ensures full { IsErrOf result push_errors.Full ↔ (100000 ≤ length self.old.segments) }
    {
        if self.segments.len() >= MOST_SEGMENTS {
            return Err(PushError::Full);
        }
        self.segments.push(segment)?;
        Ok(())
    }

    /// Sets the version alone.
    pub(crate) fn set_version(&mut self, version: u32)
        requires low { 1 ≤ version }
        requires high { version ≤ 65535 }
        ensures { self.new ≡ record self.old { version = version } }
    {
        self.version = version;
    }

    /// Sets the target duration alone, in seconds.
    pub(crate) fn set_target(&mut self, target: u64)
        ensures { self.new ≡ record self.old { target = target } }
    {
        self.target = target;
    }

    /// Sets the number of the first segment alone.
    pub(crate) fn set_sequence(&mut self, sequence: u64)
        ensures { self.new ≡ record self.old { sequence = sequence } }
    {
        self.sequence = sequence;
    }

    /// The version of the protocol, 1 to 65,535.
    pub fn version(&self) -> u32
        ensures { result ≡ self.now.version }
    {
        self.version
    }

    /// The target duration in seconds.
    pub fn target(&self) -> u64
        ensures { result ≡ self.now.target }
    {
        self.target
    }

    /// The number of the first segment.
    pub fn sequence(&self) -> u64
        ensures { result ≡ self.now.sequence }
    {
        self.sequence
    }

    /// The number of segments.
    pub fn len(&self) -> u32
        ensures number { result ≡ length self.now.segments }
        ensures allowed { IsPlaylist self.now }
    {
        self.segments.len() as u32
    }

    /// The segment at this place, counted from 0; `None` past the end.
    pub fn get(&self, i: u32) -> Option<&Segment>
        ensures { option_copied result ≡ slice_get self.now.segments i }
    {
        self.segments.get(i as usize)
    }

    /// All segments, in order.
    pub fn segments(&self) -> &[Segment]
        ensures items { result.now ≡ self.now.segments }
        ensures allowed { IsPlaylist self.now }
    {
        self.segments.as_slice()
    }
}
