//! Each fault of the format with its line, and which of two comes first.

use m3u8_text::{PlaylistError, read};
use playlist_terms::PlaylistFault;
use std::alloc::Global;

const HEAD: &[u8] = b"#EXTM3U\n#EXT-X-TARGETDURATION:6\n";

/// Why the text is no playlist.
fn fault_of(alloc: Global, text: &[u8]) -> Option<PlaylistError> {
    if text.len() > 1_000 {
        return None;
    }
    read(alloc, text).err()
}

/// This fault at the line of this number.
fn at(number: u32, fault: PlaylistFault) -> Option<PlaylistError> {
    Some(PlaylistError::Line { number, fault })
}

#[test]
fn names_the_fault_of_a_first_line(rt: HostRuntime) {
    for (text, want) in [
        (b"".as_slice(), at(1, PlaylistFault::NotM3u)),
        (b"\n#EXTM3U\n".as_slice(), at(1, PlaylistFault::NotM3u)),
        (b"#EXTM3U:\n".as_slice(), at(1, PlaylistFault::NotM3u)),
        (b" #EXTM3U\n".as_slice(), at(1, PlaylistFault::NotM3u)),
        (
            b"\xef\xbb\xbf#EXTM3U\n".as_slice(),
            at(1, PlaylistFault::NotM3u),
        ),
        (b"\xff\n".as_slice(), at(1, PlaylistFault::Utf8)),
        (b"#EXTM3U\r\n".as_slice(), at(0, PlaylistFault::NoTarget)),
        (b"#EXTM3U\r\r\n".as_slice(), at(1, PlaylistFault::NotM3u)),
    ] {
        assert_eq!(rt; fault_of(rt.alloc(), text), want);
    }
}

#[test]
fn names_the_fault_of_a_later_line(rt: HostRuntime) -> Result<(), std::test::Fail> {
    for (rest, want) in [
        (b"#EXTM3U\n".as_slice(), at(3, PlaylistFault::Repeat)),
        (b"#EXTM3U:\n".as_slice(), at(3, PlaylistFault::Repeat)),
        (
            b"#EXT-X-VERSION:0\n".as_slice(),
            at(3, PlaylistFault::Number),
        ),
        (
            b"#EXT-X-VERSION:65536\n".as_slice(),
            at(3, PlaylistFault::Number),
        ),
        (b"#EXT-X-VERSION\n".as_slice(), at(3, PlaylistFault::Number)),
        (
            b"#EXT-X-VERSION:3\n#EXT-X-VERSION:x\n".as_slice(),
            at(4, PlaylistFault::Repeat),
        ),
        (
            b"#EXT-X-TARGETDURATION:7\n".as_slice(),
            at(3, PlaylistFault::Repeat),
        ),
        (
            b"#EXT-X-MEDIA-SEQUENCE:18446744073709551616\n".as_slice(),
            at(3, PlaylistFault::Number),
        ),
        (
            b"#EXT-X-MEDIA-SEQUENCE:000000000000000000007\n".as_slice(),
            at(3, PlaylistFault::Number),
        ),
        (
            b"#EXT-X-MEDIA-SEQUENCE:+7\n".as_slice(),
            at(3, PlaylistFault::Number),
        ),
        (
            b"#EXT-X-PLAYLIST-TYPE:EVENT\n".as_slice(),
            at(3, PlaylistFault::Unsupported),
        ),
        (
            b"#EXT-X-ENDLIST\n#EXT-X-ENDLIST\n".as_slice(),
            at(4, PlaylistFault::Repeat),
        ),
        (
            b"#EXTINF:6\n#EXTINF:x\n".as_slice(),
            at(4, PlaylistFault::TwoDurations),
        ),
        (b"#EXTINF:.5\n".as_slice(), at(3, PlaylistFault::Number)),
        (b"#EXTINF:6.5s\n".as_slice(), at(3, PlaylistFault::Number)),
        (
            b"#EXTINF:9999999999.\na\n".as_slice(),
            at(0, PlaylistFault::NoEnd),
        ),
        (
            b"#EXTINF:00000000006\n".as_slice(),
            at(3, PlaylistFault::Number),
        ),
        (
            b"#EXT-X-KEY:METHOD=NONEX\n".as_slice(),
            at(3, PlaylistFault::Encrypted),
        ),
        (
            b"#EXT-X-MAP:URI=\"a\"\n".as_slice(),
            at(3, PlaylistFault::Unsupported),
        ),
        (
            b"#EXT-X-MEDIA:TYPE=AUDIO\n".as_slice(),
            at(3, PlaylistFault::Unsupported),
        ),
        (b"a\n".as_slice(), at(3, PlaylistFault::NoDuration)),
        (
            b"#EXTINF:6\na\tb\n".as_slice(),
            at(4, PlaylistFault::BadUri),
        ),
        (b"\t\n".as_slice(), at(3, PlaylistFault::NoDuration)),
        (
            b"#EXTINF:6\n#EXT-X-ENDLIST\n".as_slice(),
            at(3, PlaylistFault::NoUri),
        ),
        (b"# x\n#EX\n\n   \n".as_slice(), at(0, PlaylistFault::NoEnd)),
        (
            b"#EXTINF:x\n#EXT-X-MAP\n".as_slice(),
            at(3, PlaylistFault::Number),
        ),
    ] {
        let mut text = Vec::new(rt.alloc());
        text.extend_from_slice(HEAD)?;
        text.extend_from_slice(rest)?;
        assert_eq!(rt; fault_of(rt.alloc(), text.as_slice()), want);
    }
    Ok(())
}
