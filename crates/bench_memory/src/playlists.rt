//! `push` of a list of segments, and `take` of its reader.

use crate::trial::Trial;
use m3u8_text::{ListReader, MediaList, Segment, write};
use shelf_io::Taker;
use std::alloc::Global;

/// Adds a fifth segment to a list of four, for which the list has to grow.
pub(crate) fn push_tried(alloc: Global) -> Trial {
    let (Some(mut list), Some(copy), Some(first), Some(second)) = (
        list_of_four(alloc),
        list_of_four(alloc),
        segment(alloc, "s4.ts"),
        segment(alloc, "s4.ts"),
    ) else {
        return Trial::Unprepared;
    };
    if list.push(first).is_ok() {
        return Trial::Done;
    }
    let is_same = are_same(alloc, &list, &copy);
    Trial::kept(is_same && list.push(second).is_ok())
}

/// A list of four segments.
fn list_of_four(alloc: Global) -> Option<MediaList> {
    let mut list = MediaList::new(alloc, 3, 6, 0).ok()?;
    for uri in ["s0.ts", "s1.ts", "s2.ts", "s3.ts"] {
        list.push(segment(alloc, uri)?).ok()?;
    }
    Some(list)
}

/// A segment of six seconds.
fn segment(alloc: Global, uri: &str) -> Option<Segment> {
    Segment::new(alloc, 6_000_000, uri, false).ok()
}

/// Whether two lists have one text.
fn are_same(alloc: Global, one: &MediaList, other: &MediaList) -> bool {
    match (write(alloc, one), write(alloc, other)) {
        (Ok(one), Ok(other)) => one.as_slice() == other.as_slice(),
        _ => false,
    }
}

/// A whole list, in one piece.
const TEXT: &[u8] =
    b"#EXTM3U\n#EXT-X-TARGETDURATION:6\n#EXTINF:6,\ns0.ts\n#EXTINF:6,\ns1.ts\n#EXT-X-ENDLIST\n";

/// Takes the text of a list. A reader that was refused memory is spent: it refuses what comes later, and finds no list.
pub(crate) fn take_tried(alloc: Global) -> Trial {
    let mut reader = ListReader::new(alloc);
    if reader.take(TEXT).is_ok() {
        return match reader.finish() {
            Ok(list) if list.len() == 2 => Trial::Done,
            Ok(_) => Trial::Changed,
            Err(_) => Trial::Unprepared,
        };
    }
    let is_spent = reader.take(TEXT).is_err() && reader.finish().is_err();
    Trial::kept(is_spent)
}
