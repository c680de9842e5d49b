//! A media playlist under a name, which is read while its parts come.

ghost use Rattle.std.specs.Prelude.{◌≡◌, ℕ, List, [], IsTrue};
ghost use Rattle.text_terms.specs.Names.{is_name};
ghost use Rattle.playlist_terms.specs.Reading.{playlist_of};
ghost use Rattle.m3u8_text.specs.Readers.{Stands};
ghost use Rattle.outcome_terms.specs.declared.fault.Fault.TheVariants.{BadPlaylist};
ghost use Rattle.outcome_terms.specs.Reading.{understood};
ghost use Rattle.outcome_terms.specs.Stores.{Follows, Settles};
ghost use Rattle.outcome_terms.specs.TitleCommand.{playlist_under};
ghost use Rattle.title_io.specs.Pours.{PoursAs};

use lists::Text;
use m3u8_text::{ListReader, MediaList, PlaylistError};
use outcome_terms::{Fault, Refusal};
use playlist_terms::LineFault;
use shelf_io::{FetchError, Shelf, pour};
use shelf_terms::BLOB_LIMIT;
use std::alloc::Global;

/// The media playlist that a blob holds. A blob that is missing, too long or not read to its end is refused as such, whatever
/// its parts were.
pub fn playlist_under<S: Shelf>(
    alloc: Global,
    shelf: &mut S,
    name: &str,
) -> Result<MediaList, Refusal>
    requires { IsTrue (is_name name.now) }
    ensures { Follows (playlist_under name.now) (S.store shelf.old)
        (S.store shelf.new) result }
{
    let mut reader = ListReader::new(alloc);
    match poured(alloc, shelf, name, &mut reader) {
        Ok(()) => finished(reader),
        Err(refusal) => Err(refusal),
    }
}

/// Hands a blob to a reader that took nothing yet.
fn poured<S: Shelf>(
    alloc: Global,
    shelf: &mut S,
    name: &str,
    reader: &mut ListReader,
) -> Result<(), Refusal>
    requires name { IsTrue (is_name name.now) }
    requires stands { Stands reader.old [] }
    requires taken { reader.old.taken ≡ 0 }
    ensures { PoursAs name.now (S.store shelf.old) (S.store shelf.new)
        (Stands reader.new) result }
{
    match pour(alloc, shelf, name, BLOB_LIMIT, reader) {
        Ok(()) => Ok(()),
        Err(FetchError::Missing) => Err(Refusal::Missing(Text::of(alloc, name)?)),
        Err(FetchError::Fault) => Err(Refusal::ReadFault(Text::of(alloc, name)?)),
        Err(FetchError::TooLong) => Err(Refusal::TooLong(Text::of(alloc, name)?)),
        Err(FetchError::Memory) => Err(Refusal::Memory),
    }
}

/// The playlist that the reader's bytes spell.
fn finished(reader: ListReader) -> Result<MediaList, Refusal>
    ensures { (bytes : List ℕ) → Stands reader bytes
        → Settles result (understood BadPlaylist (playlist_of bytes)) }
{
    match reader.finish() {
        Ok(list) => Ok(list),
        Err(PlaylistError::Line { number, fault }) => Err(Refusal::Content(Fault::BadPlaylist(
            LineFault {
                line: number,
                fault,
            },
        ))),
        Err(PlaylistError::Memory) => Err(Refusal::Memory),
    }
}
