//! Segments and lists made by hand, read and written.

use m3u8_text::{
    ListError, MediaList, PlaylistError, PushError, Segment, SegmentError, read, write,
};
use playlist_terms::PlaylistFault;
use std::alloc::Global;
use std::test::Fail;

const PAIR: &[u8] =
    b"#EXTM3U\n#EXT-X-VERSION:3\n#EXT-X-TARGETDURATION:6\n#EXT-X-MEDIA-SEQUENCE:0\n#EXT-X-PLAYLIST-TYPE:VOD\n#EXTINF:6.000000,\ns0.ts\n#EXTINF:6.000000,\ns1.ts\n#EXTINF:4.500000,\ns2.ts\n#EXT-X-ENDLIST\n";

/// Why there is no such segment.
fn segment_error(alloc: Global, micros: u64, uri: &str) -> Option<SegmentError> {
    Segment::new(alloc, micros, uri, false).err()
}

#[test]
fn makes_segments_by_the_rules(rt: HostRuntime) -> Result<(), Fail> {
    for (micros, uri, want) in [
        (0, "#a", Some(SegmentError::BadUri)),
        (0, "", Some(SegmentError::BadUri)),
        (0, "  ", Some(SegmentError::BadUri)),
        (0, "a\tb", Some(SegmentError::BadUri)),
        (
            10_000_000_000_000_000,
            "a",
            Some(SegmentError::LongDuration),
        ),
        (9_999_999_999_999_999, "a", None),
        (0, " a#", None),
    ] {
        assert_eq!(rt; segment_error(rt.alloc(), micros, uri), want, "{uri}");
    }
    let segment = Segment::new(rt.alloc(), 7, "s0.ts", true)?;
    assert_eq!(rt; segment.micros(), 7);
    assert_eq!(rt; segment.uri().as_str(), "s0.ts");
    assert!(rt; segment.cut());
    Ok(())
}

#[test]
fn makes_lists_by_the_rules(rt: HostRuntime) -> Result<(), Fail> {
    for version in [0, 65_536] {
        assert_eq!(rt;
            MediaList::new(rt.alloc(), version, 6, 0).err(),
            Some(ListError::BadVersion)
        );
    }
    let mut list = MediaList::new(rt.alloc(), 3, 6, 0)?;
    for (micros, uri) in [
        (6_000_000, "s0.ts"),
        (6_000_000, "s1.ts"),
        (4_500_000, "s2.ts"),
    ] {
        list.push(Segment::new(rt.alloc(), micros, uri, false)?)?;
    }
    assert_eq!(rt; list.len(), 3);
    assert!(rt; list.get(3).is_none());
    let text = write(rt.alloc(), &list)?;
    assert!(rt; text.as_slice() == PAIR);
    Ok(())
}

#[test]
fn reads_what_stands_in_a_list(rt: HostRuntime) -> Result<(), Fail> {
    let list = read(
        rt.alloc(),
        b"#EXTM3U\n#EXT-X-ENDLIST\n#EXT-X-VERSION:00065535\n#EXT-X-TARGETDURATION:18446744073709551615\n#EXT-X-MEDIA-SEQUENCE:00000000000000000007\n#EXT-X-DISCONTINUITY\n#EXTINF:9999999999.9999999999,t,u\na b\n#EXT-X-KEY:METHOD=NONE,X=1\n#EXT-X-NEW:1\n#EXTINF:0\nc",
    )?;
    assert_eq!(rt; list.version(), 65_535);
    assert_eq!(rt; list.target(), u64::MAX);
    assert_eq!(rt; list.sequence(), 7);
    for (place, micros, uri, cut) in [(0, 9_999_999_999_999_999, "a b", true), (1, 0, "c", false)] {
        let Some(segment) = list.get(place) else {
            assert!(rt; false, "{place}");
            return Ok(());
        };
        assert_eq!(rt; segment.micros(), micros);
        assert_eq!(rt; segment.uri().as_str(), uri);
        assert_eq!(rt; segment.cut(), cut);
    }
    let text = write(rt.alloc(), &list)?;
    if text.len() < 1_000 {
        assert_eq!(rt; read(rt.alloc(), text.as_slice())?.len(), 2);
    }
    Ok(())
}

/// The list of a text of less than 10 MB.
fn short_read(alloc: Global, text: &[u8]) -> Result<MediaList, PlaylistError> {
    if text.len() > 10_000_000 {
        return Err(PlaylistError::Memory);
    }
    read(alloc, text)
}

#[test]
fn holds_100_000_segments_and_no_more(rt: HostRuntime) -> Result<(), Fail> {
    let mut text = Vec::new(rt.alloc());
    text.extend_from_slice(b"#EXTM3U\n#EXT-X-TARGETDURATION:6\n#EXT-X-ENDLIST\n")?;
    for _ in 0..100_000 {
        text.extend_from_slice(b"#EXTINF:6,\na\n")?;
    }
    let mut list = short_read(rt.alloc(), text.as_slice())?;
    assert_eq!(rt; list.len(), 100_000);
    let more = Segment::new(rt.alloc(), 0, "a", false)?;
    assert_eq!(rt; list.push(more), Err(PushError::Full));
    text.extend_from_slice(b"#EXTINF:6,\na\n")?;
    let wanted = PlaylistError::Line {
        number: 200_005,
        fault: PlaylistFault::TooMany,
    };
    assert_eq!(rt; short_read(rt.alloc(), text.as_slice()).err(), Some(wanted));
    Ok(())
}
