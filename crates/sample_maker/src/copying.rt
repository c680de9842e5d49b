//! The copy that the coalition puts together, and its word.

ghost use Rattle.std.specs.Prelude.{◌≡◌, ◌<◌, length, slice_get, IfOk, Some};
ghost use Rattle.playlist_terms.specs.Playlists.{IsSegment};
ghost use Rattle.sample_terms.specs.Copies.{word_of};
ghost use Rattle.sample_terms.specs.Inputs.{title_of, variants};
ghost use Rattle.sample_terms.specs.Numbers.{first_member, member_at, second_member, third_member};
ghost use Rattle.sample_maker.specs.Copying.{copy_of, list_for};
ghost use Rattle.sample_maker.specs.Holding.{HoldsVariants};

use crate::numbers::turn_at;
use crate::source::{put, segment_of};
use copy_match::{MatchError, match_copy};
use lists::Memory;
use m3u8_text::{MediaList, Segment};
use rs_code::Word;
use shelf_io::MemShelf;
use std::alloc::Global;
use title_store::Title;

/// The copy: for the places 29 down to 0 the segment of the list of the member whose turn it is.
pub(crate) fn copy_of(
    alloc: Global,
    number: u64,
    first: &MediaList,
    second: &MediaList,
    third: &MediaList,
) -> Result<MediaList, Memory>
    requires first { first.now ≡ list_for number (first_member number) }
    requires second { second.now ≡ list_for number (second_member number) }
    requires third { third.now ≡ list_for number (third_member number) }
    ensures { IfOk result (λ copy. copy ≡ copy_of number 30) }
{
    let mut copy = MediaList::new(alloc, 3, 6, 0).unwrap();
    for i in 0..30 {
        let place = 29 - i;
        let list = list_at(number, place, first, second, third);
        let segment = segment_at(alloc, list, place)?;
        put(&mut copy, segment)?;
    }
    Ok(copy)
}

/// The list of the member whose turn it is at a place.
fn list_at<'a>(
    number: u64,
    place: u32,
    first: &'a MediaList,
    second: &'a MediaList,
    third: &'a MediaList,
) -> &'a MediaList
    requires place { place < 64 }
    requires first { first.now ≡ list_for number (first_member number) }
    requires second { second.now ≡ list_for number (second_member number) }
    requires third { third.now ≡ list_for number (third_member number) }
    ensures { result.now ≡ list_for number (member_at number place) }
{
    match turn_at(number, place) {
        0 => first,
        1 => second,
        _ => third,
    }
}

/// The segment that stands at a place of a list.
fn segment_at(alloc: Global, list: &MediaList, place: u32) -> Result<Segment, Memory>
    requires { place < length list.now.segments }
    ensures { IfOk result (λ segment. slice_get list.now.segments place ≡ Some segment) }
{
    let segments = list.segments();
    same_segment(alloc, &segments[place as usize])
}

/// A segment once more.
fn same_segment(alloc: Global, segment: &Segment) -> Result<Segment, Memory>
    requires { IsSegment segment.now }
    ensures { IfOk result (λ copied. copied ≡ segment.now) }
{
    segment_of(
        alloc,
        segment.micros(),
        segment.uri().as_str(),
        segment.cut(),
    )
}

/// The word that the title sees in the copy. A store in memory of which no call is to fail has no failed read; if one came, it would
/// be told as want of memory.
pub(crate) fn word_over(
    alloc: Global,
    number: u64,
    shelf: &mut MemShelf,
    title: &Title,
    copy: &MediaList,
) -> Result<Word, Memory>
    requires held { HoldsVariants number shelf.old.blobs variants }
    requires title { title.now ≡ title_of number }
    requires copy { copy.now ≡ copy_of number 30 }
    ensures { IfOk result (λ word. word ≡ word_of number) }
{
    match match_copy(alloc, shelf, title, copy) {
        Ok(word) => Ok(word),
        Err(MatchError::Missing(_)) => unreachable!(),
        Err(MatchError::TooLong(_)) => unreachable!(),
        Err(MatchError::Fault(_)) => Err(Memory),
        Err(MatchError::Memory) => Err(Memory),
    }
}
