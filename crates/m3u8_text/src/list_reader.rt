//! A reader of playlists that takes pieces of bytes.

ghost use Rattle.std.specs.Prelude.{◌≡◌, ℕ, List, [], true, false, IsErrOf};
ghost use Rattle.playlist_terms.specs.Reading.{playlist_of};
ghost use Rattle.m3u8_text.specs.Answers.{ReadsAs};
ghost use Rattle.m3u8_text.specs.Readers.{Stands};
ghost use Rattle.m3u8_text.specs.declared.errors.PlaylistError.TheVariants as playlist_errors;

use crate::errors::PlaylistError;
use crate::media_list::MediaList;
use crate::pieces::Pieces;
use lists::Memory;
use shelf_io::Taker;
use std::alloc::Global;
use std::marker::Model;

/// A reader of a media playlist that comes in pieces, cut anywhere.
///
/// It keeps the first fault and goes on taking, so that what else can fail is reported first. After want of memory it is
/// spent, and answers nothing else any more.
#[derive(Drop)]
pub struct ListReader {
    pieces: Pieces,
    taken: u32,
    spent: bool,
}

impl Model for ListReader {
    ghost use Rattle.std.specs.Prelude.{◌≡◌, ◌≤◌, ◌+◌, false, vec_len};
    ghost use Rattle.m3u8_text.specs.Readers.{Reading};

    ghost Value = { Reading };

    ghost view = { λ r. record { pieces = r.pieces; taken = r.taken; spent = r.spent } };

    ghost invariant = { λ r. r.spent ≡ false → r.pieces.reader.lines + vec_len r.pieces.tail ≤ r.taken };
}

impl ListReader {
    /// A reader of no bytes. It takes no memory.
    pub fn new(alloc: Global) -> ListReader
        ensures stands { Stands result [] }
        ensures fresh { result.spent ≡ false }
        ensures nothing { result.taken ≡ 0 }
    {
        ListReader {
            pieces: Pieces::new(alloc),
            taken: 0,
            spent: false,
        }
    }

    /// The playlist that the bytes spell which it took, or their first fault; want of memory where it is spent.
    pub fn finish(self) -> Result<MediaList, PlaylistError>
        ensures playlist { (bytes : List ℕ) → Stands self bytes
            → ReadsAs result (playlist_of bytes) }
        ensures spent { self.spent ≡ true → IsErrOf result playlist_errors.Memory }
    {
        if self.spent {
            return Err(PlaylistError::Memory);
        }
        self.pieces.finish()
    }
}

impl Taker for ListReader {
    ghost use Rattle.m3u8_text.specs.Readers.{Stands};

    ghost stands = { Stands };

    ghost spent = { λ r. r.spent };

    ghost taken = { λ r. r.taken };

    fn take(&mut self, piece: &[u8]) -> Result<(), Memory> {
        if self.spent {
            return Err(Memory);
        }
        let Ok(()) = self.pieces.take(piece) else {
            self.spent = true;
            return Err(Memory);
        };
        self.taken += piece.len() as u32;
        Ok(())
    }
}
