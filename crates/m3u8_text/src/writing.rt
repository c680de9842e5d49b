//! The text of a playlist.

ghost use Rattle.std.specs.Prelude.{◌≡◌, ◌++◌, ◌+◌, ◌%◌, [], ◌∷◌, Ok, IfOk, OnOk};
ghost use Rattle.std.specs.Fmt.{decimal};
ghost use Rattle.std.specs.List.{flat_map};
ghost use Rattle.playlist_terms.specs.Lines.{fed};
ghost use Rattle.playlist_terms.specs.Durations.{low_digits};
ghost use Rattle.playlist_terms.specs.Playlists.{playlist_text, head_lines, segment_lines, cut_lines, duration_line};
ghost use Rattle.playlist_terms.specs.Reading.{playlist_of};

use crate::media_list::MediaList;
use crate::segment::Segment;
use lists::Memory;
use std::alloc::Global;
use texts::number_text;

const MICROS_A_SECOND: u64 = 1_000_000;

/// The text of the list. The only error is want of memory.
#[tactic(auto, using(std::proofs::Common::append_assoc))]
pub fn write(alloc: Global, list: &MediaList) -> Result<Vec<u8>, Memory>
    ensures text { IfOk result (λ bytes. bytes.items ≡ playlist_text list.now) }
    // What is written is read again.
    ensures again { IfOk result (λ bytes. playlist_of bytes.items ≡ Ok list.now) }
{
    let mut out = Vec::new(alloc);
    put_head(alloc, &mut out, list)?;
    put_segments(alloc, &mut out, list.segments())?;
    put_line(&mut out, b"#EXT-X-ENDLIST")?;
    Ok(out)
}

/// Writes the five lines in front of the segments.
#[tactic(auto, using(std::proofs::Common::append_assoc))]
fn put_head(alloc: Global, out: &mut Vec<u8>, list: &MediaList) -> Result<(), Memory>
    ensures { OnOk result (out.new.items ≡ out.old.items ++ flat_map fed (head_lines list.now)) }
{
    put_line(out, b"#EXTM3U")?;
    put_number_line(alloc, out, b"#EXT-X-VERSION:", u64::from(list.version()))?;
    put_number_line(alloc, out, b"#EXT-X-TARGETDURATION:", list.target())?;
    put_number_line(alloc, out, b"#EXT-X-MEDIA-SEQUENCE:", list.sequence())?;
    put_line(out, b"#EXT-X-PLAYLIST-TYPE:VOD")
}

/// Writes the lines of each segment.
fn put_segments(alloc: Global, out: &mut Vec<u8>, segments: &[Segment]) -> Result<(), Memory>
    ensures { OnOk result (out.new.items
        ≡ out.old.items ++ flat_map fed (flat_map segment_lines segments.now)) }
{
    for segment in segments {
        put_segment(alloc, out, segment)?;
    }
    Ok(())
}

/// Writes the lines of one segment.
#[tactic(auto, using(std::proofs::Common::append_assoc))]
fn put_segment(alloc: Global, out: &mut Vec<u8>, segment: &Segment) -> Result<(), Memory>
    ensures { OnOk result (out.new.items
        ≡ out.old.items ++ flat_map fed (segment_lines segment.now)) }
{
    put_cut(out, segment.cut())?;
    put_duration(alloc, out, segment.micros())?;
    put_line(out, segment.uri().as_str().as_bytes())
}

/// Writes the line of a discontinuity, where there is one.
fn put_cut(out: &mut Vec<u8>, cut: bool) -> Result<(), Memory>
    ensures { OnOk result (out.new.items ≡ out.old.items ++ flat_map fed (cut_lines cut)) }
{
    if cut {
        put_line(out, b"#EXT-X-DISCONTINUITY")?;
    }
    Ok(())
}

/// Writes the line of a duration in microseconds.
#[tactic(auto, using(std::proofs::Common::append_assoc))]
fn put_duration(alloc: Global, out: &mut Vec<u8>, micros: u64) -> Result<(), Memory>
    ensures { OnOk result (out.new.items ≡ out.old.items ++ fed (duration_line micros)) }
{
    let seconds = number_text(alloc, u128::from(micros / MICROS_A_SECOND))?;
    out.extend_from_slice(b"#EXTINF:")?;
    out.extend_from_slice(seconds.as_str().as_bytes())?;
    out.push(b'.')?;
    out.extend_from_slice(&six_digits(micros % MICROS_A_SECOND))?;
    put_line(out, b",")
}

/// The lowest six digits of the number.
fn six_digits(number: u64) -> [u8; 6]
    ensures { result ≡ low_digits 6 number }
{
    [
        last_digit(number / 100_000),
        last_digit(number / 10_000),
        last_digit(number / 1_000),
        last_digit(number / 100),
        last_digit(number / 10),
        last_digit(number),
    ]
}

/// The lowest digit of the number.
fn last_digit(number: u64) -> u8
    ensures { result ≡ 48 + number % 10 }
{
    b'0' + (number % 10) as u8
}

/// Writes a line of a tag and a number.
#[tactic(auto, using(std::proofs::Common::append_assoc))]
fn put_number_line(alloc: Global, out: &mut Vec<u8>, tag: &[u8], value: u64) -> Result<(), Memory>
    ensures { OnOk result (out.new.items ≡ out.old.items ++ fed (tag.now ++ decimal value)) }
{
    let number = number_text(alloc, u128::from(value))?;
    out.extend_from_slice(tag)?;
    put_line(out, number.as_str().as_bytes())
}

/// Writes the bytes and a line feed.
fn put_line(out: &mut Vec<u8>, text: &[u8]) -> Result<(), Memory>
    ensures { OnOk result (out.new.items ≡ out.old.items ++ fed text.now) }
{
    out.extend_from_slice(text)?;
    out.push(b'\n')?;
    Ok(())
}
