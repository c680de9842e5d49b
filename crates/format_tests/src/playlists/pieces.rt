//! The same list from pieces cut anywhere, and a blob poured into a reader.

ghost use Rattle.std.specs.Prelude.{◌≤◌, ◌<◌, length};

use m3u8_text::{ListReader, MediaList, PlaylistError, write};
use playlist_terms::PlaylistFault;
use shelf_io::{FetchError, MemShelf, Taker, pour};
use std::alloc::Global;
use std::test::Fail;

const LINES: &[u8] =
    b"#EXTM3U\r\n#EXT-X-VERSION:3\r\n#EXT-X-TARGETDURATION:6\r\n#EXT-X-MEDIA-SEQUENCE:0\r\n#EXT-X-PLAYLIST-TYPE:VOD\r\n#EXTINF:6.000000,\r\ns0.ts\r\n#EXT-X-ENDLIST\r\n";

const TEXT: &[u8] =
    b"#EXTM3U\n#EXT-X-VERSION:3\n#EXT-X-TARGETDURATION:6\n#EXT-X-MEDIA-SEQUENCE:0\n#EXT-X-PLAYLIST-TYPE:VOD\n#EXTINF:6.000000,\ns0.ts\n#EXT-X-ENDLIST\n";

/// The list from pieces of this size.
fn fed(alloc: Global, text: &[u8], size: usize) -> Result<MediaList, PlaylistError>
    requires some { 1 ≤ size }
    requires short { length text.now < 1000 }
{
    let mut reader = ListReader::new(alloc);
    let mut rest = text;
    'pieces: while !rest.is_empty() {
        let cut = rest.len().min(size);
        reader.take(&rest[..cut])?;
        rest = &rest[cut..];
    }
    reader.finish()
}

#[test]
fn reads_pieces_cut_anywhere(rt: HostRuntime) -> Result<(), Fail> {
    for size in 1..20 {
        let list = fed(rt.alloc(), LINES, size)?;
        assert!(rt; write(rt.alloc(), &list)?.as_slice() == TEXT, "{size}");
    }
    Ok(())
}

#[test]
fn keeps_the_first_fault(rt: HostRuntime) {
    let text = b"#EXTM3U\n#EXTINF:x\n#EXT-X-MAP\n\xff";
    let wanted = PlaylistError::Line {
        number: 2,
        fault: PlaylistFault::Number,
    };
    assert_eq!(rt; fed(rt.alloc(), text, 12).err(), Some(wanted));
}

/// How the reading of the blob by parts ends, with this limit.
fn poured(alloc: Global, shelf: &mut MemShelf, limit: u64) -> Result<ListReader, FetchError> {
    let mut reader = ListReader::new(alloc);
    if limit < 1_000_000 {
        pour(alloc, shelf, "list", limit, &mut reader)?;
    }
    Ok(reader)
}

#[test]
fn reads_a_blob_that_is_poured(rt: HostRuntime) -> Result<(), Fail> {
    let mut shelf = MemShelf::new(rt.alloc());
    assert_eq!(rt;
        poured(rt.alloc(), &mut shelf, 999).err(),
        Some(FetchError::Missing)
    );
    shelf.hold("list", LINES)?;
    let short = LINES.len() as u64 - 1;
    assert_eq!(rt;
        poured(rt.alloc(), &mut shelf, short).err(),
        Some(FetchError::TooLong)
    );
    let list = poured(rt.alloc(), &mut shelf, short + 1)?.finish()?;
    assert!(rt; write(rt.alloc(), &list)?.as_slice() == TEXT);
    Ok(())
}
