//! A playlist from its text.

ghost use Rattle.std.specs.Prelude.{◌<◌, ◌^◌, length};
ghost use Rattle.playlist_terms.specs.Reading.{playlist_of};
ghost use Rattle.m3u8_text.specs.Answers.{ReadsAs};

use crate::errors::PlaylistError;
use crate::list_reader::ListReader;
use crate::media_list::MediaList;
use shelf_io::Taker;
use std::alloc::Global;

/// The playlist that the bytes spell.
pub fn read(alloc: Global, bytes: &[u8]) -> Result<MediaList, PlaylistError>
    requires { length bytes.now < 2 ^ 32 }
    // Which playlist it is, or which fault is the first and on which line, unless memory runs out.
    ensures { ReadsAs result (playlist_of bytes.now) }
{
    let mut reader = ListReader::new(alloc);
    reader.take(bytes)?;
    reader.finish()
}
