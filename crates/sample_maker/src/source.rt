//! The design and the media list of every sample.

ghost use Rattle.std.specs.Prelude.{◌≡◌, ◌<◌, ◌^◌, ◌++◌, ◌∷◌, [], IfOk, OnOk, true};
ghost use Rattle.std.specs.List.{range_with_len};
ghost use Rattle.playlist_terms.specs.Playlists.{is_segment_uri};
ghost use Rattle.sample_terms.specs.Inputs as inputs;

use designs::{Design, DesignError};
use lists::{Memory, Text};
use m3u8_text::{MediaList, PushError, Segment, SegmentError};
use std::alloc::Global;

/// The design: 64 places, at each of which 256 symbols may stand.
pub(crate) fn design(alloc: Global) -> Result<Design, Memory>
    ensures { IfOk result (λ design. design ≡ inputs.design) }
{
    let marked = first_numbers(alloc, 64)?;
    match Design::of(alloc, "sample", 8, 3, 3, "v/", ".ts", marked.as_slice()) {
        Ok(design) => Ok(design),
        Err(DesignError::Memory) => Err(Memory),
        Err(DesignError::NotDesign(_)) => unreachable!(),
    }
}

/// So many numbers from 0 on.
fn first_numbers(alloc: Global, count: u32) -> Result<Vec<u32>, Memory>
    ensures { IfOk result (λ numbers. numbers.items ≡ range_with_len 0 count) }
{
    let mut numbers = Vec::new(alloc);
    for place in 0..count {
        numbers.push(place)?;
    }
    Ok(numbers)
}

/// The media list: 64 segments of six seconds.
pub(crate) fn source(alloc: Global) -> Result<MediaList, Memory>
    ensures { IfOk result (λ source. source ≡ inputs.list) }
{
    let mut source = MediaList::new(alloc, 3, 6, 0).unwrap();
    for place in 0..64 {
        let segment = source_segment(alloc, place)?;
        put(&mut source, segment)?;
    }
    Ok(source)
}

/// The segment of a number.
fn source_segment(alloc: Global, place: u32) -> Result<Segment, Memory>
    requires { place < 64 }
    ensures { IfOk result (λ segment. segment ≡ inputs.segment place) }
{
    let uri = Text::over(format!(in alloc; "s{place}.ts")?);
    segment_of(alloc, 6_000_000, uri.as_str(), false)
}

/// The segment of these parts, which are allowed.
pub(crate) fn segment_of(
    alloc: Global,
    micros: u64,
    uri: &str,
    cut: bool,
) -> Result<Segment, Memory>
    requires uri { is_segment_uri uri.now ≡ true }
    requires micros { micros < 10 ^ 16 }
    ensures { IfOk result (λ segment. segment
        ≡ record { micros = micros; uri = uri.now; cut = cut }) }
{
    match Segment::new(alloc, micros, uri, cut) {
        Ok(segment) => Ok(segment),
        Err(SegmentError::Memory) => Err(Memory),
        Err(_) => unreachable!(),
    }
}

/// Puts a segment behind the others of a list that has room.
pub(crate) fn put(list: &mut MediaList, segment: Segment) -> Result<(), Memory>
    ensures { OnOk result (list.new
        ≡ record list.old { segments = list.old.segments ++ segment ∷ [] }) }
{
    match list.push(segment) {
        Ok(()) => Ok(()),
        Err(_) => Err(Memory),
    }
}
