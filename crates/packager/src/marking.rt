//! A title's media list with a variant at each marked segment.

ghost use Rattle.std.specs.Prelude.{◌≡◌, ◌+◌, ◌<◌, ◌^◌, ◌++◌, [], ◌∷◌, max, true, IfOk, IfSome, OnOk};
ghost use Rattle.title_terms.specs.Designs.{places, symbols};
ghost use Rattle.packaging_terms.specs.Licensees.{place_of, raised_target, whole_seconds};
ghost use Rattle.playlist_terms.specs.Playlists.{IsSegment, is_segment_uri};
ghost use Rattle.packager.specs.Marking.{AreSymbols, IsNext, marked_list, marked_segment, symbol_in};

use lists::Memory;
use m3u8_text::{MediaList, Segment};
use rs_code::Word;
use std::alloc::Global;
use title_store::Title;

/// The title's media list, with the variant of the word's symbol at each marked segment. It goes along the segments and the
/// marks once.
pub(crate) fn marked_list(alloc: Global, title: &Title, word: &Word) -> Result<MediaList, Memory>
    requires { AreSymbols title.now word.now }
    ensures { IfOk result (λ list. list ≡ marked_list title.now word.now) }
{
    let segments = title.list().segments();
    let mut list = without_segments(alloc, title.list());
    let mut next = 0;
    'segments: for i in 0..segments.len() {
        let place = place_at(title, i as u32, &mut next);
        let segment = marked_segment(alloc, title, word, &segments[i], place)?;
        put(&mut list, segment)?;
    }
    Ok(list)
}

/// The list that a licensee gets, without its segments.
fn without_segments(alloc: Global, source: &MediaList) -> MediaList
    ensures { result ≡ record {
      version = max 3 source.now.version;
      target = raised_target source.now;
      sequence = source.now.sequence;
      segments = [];
    } }
{
    let _segments = source.len();
    let target = raised_target(source);
    MediaList::new(alloc, source.version().max(3), target, source.sequence()).unwrap()
}

/// The greatest of the target and of all durations in whole seconds.
fn raised_target(list: &MediaList) -> u64
    ensures { result ≡ raised_target list.now }
{
    let mut target = list.target();
    'segments: for segment in list.segments() {
        target = target.max(whole_seconds(segment.micros()));
    }
    target
}

/// A duration in whole seconds, the half rounded up.
fn whole_seconds(micros: u64) -> u64
    ensures { result ≡ whole_seconds micros }
{
    (micros / 500_000 + 1) / 2
}

/// The place at which the segment of this number is marked, where `next` is the place of the first mark that is not below it.
/// Then `next` is the place of the first mark above it.
fn place_at(title: &Title, i: u32, next: &mut u32) -> Option<u32>
    requires { IsNext title.now.design.marked i next.old }
    ensures place { result ≡ place_of title.now.design i }
    ensures inside { IfSome result (λ place. place < places title.now.design) }
    ensures next { IsNext title.now.design.marked (i + 1) next.new }
{
    let place = *next;
    if place >= title.places() || title.marked(place) != i {
        return None;
    }
    *next = place + 1;
    Some(place)
}

/// The segment with the variant of the word's symbol, where it is marked at a place.
fn marked_segment(
    alloc: Global,
    title: &Title,
    word: &Word,
    source: &Segment,
    place: Option<u32>,
) -> Result<Segment, Memory>
    requires symbols { AreSymbols title.now word.now }
    requires source { IsSegment source.now }
    requires place { IfSome place (λ place. place < places title.now.design) }
    ensures { IfOk result (λ segment. segment
        ≡ marked_segment title.now word.now source.now place) }
{
    let _places = title.places();
    match place {
        None => segment_of(alloc, source.micros(), source.uri().as_str(), source.cut()),
        Some(place) => {
            let symbol = symbol_in(word, place);
            let name = title.variant_name(alloc, place, symbol)?;
            segment_of(alloc, source.micros(), name.as_str(), source.cut())
        }
    }
}

/// The symbol of the word at the place.
fn symbol_in(word: &Word, place: u32) -> u8
    ensures { result ≡ symbol_in word.now place }
{
    word.get(place).unwrap_or(0)
}

/// The segment of these parts, which are allowed.
fn segment_of(alloc: Global, micros: u64, uri: &str, cut: bool) -> Result<Segment, Memory>
    requires uri { is_segment_uri uri.now ≡ true }
    requires micros { micros < 10 ^ 16 }
    ensures { IfOk result (λ segment. segment
        ≡ record { micros = micros; uri = uri.now; cut = cut }) }
{
    match Segment::new(alloc, micros, uri, cut) {
        Ok(segment) => Ok(segment),
        Err(_) => Err(Memory),
    }
}

/// Puts a segment behind the others of a list that has room.
fn put(list: &mut MediaList, segment: Segment) -> Result<(), Memory>
    ensures { OnOk result (list.new
        ≡ record list.old { segments = list.old.segments ++ segment ∷ [] }) }
{
    match list.push(segment) {
        Ok(()) => Ok(()),
        Err(_) => Err(Memory),
    }
}
