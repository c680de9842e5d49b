//! The word of a copy, read segment by segment.

ghost use Rattle.std.specs.Prelude.{◌≡◌, IsTrue, IfOk, length};
ghost use Rattle.text_terms.specs.Names.{is_name};
ghost use Rattle.code_terms.specs.Words.{HasSymbolsBelow};
ghost use Rattle.title_terms.specs.Designs.{places, symbols};
ghost use Rattle.blob_digests.specs.Digests.{DigestGives};
ghost use Rattle.outcome_terms.specs.Stores.{Follows};
ghost use Rattle.copy_match.specs.Matches.{Matches, ReadsDigest, by_name, stopped_at};
ghost use Rattle.outcome_terms.specs.TraceCommand.{word_of_copy_under};

use crate::error::MatchError;
use crate::reader::CopyReader;
use blob_digests::{Digest, digest_of};
use lists::Memory;
use m3u8_text::{MediaList, Segment};
use rs_code::Word;
use shelf_io::{FetchError, Shelf};
use std::alloc::Global;
use title_store::Title;

/// The word that the copy with this playlist shows of the title. Each segment is read in order, part by part, and told by its
/// digest alone, whatever its name and its place in the list.
pub fn match_copy<S: Shelf>(
    alloc: Global,
    shelf: &mut S,
    title: &Title,
    copy: &MediaList,
) -> Result<Word, MatchError>
    // Where the blobs are told, the word of all segments, or which one is the first that cannot be read.
    ensures told { Matches (S.store shelf.old).told title.now copy.now result }
    ensures reading { Follows (word_of_copy_under title.now copy.now)
        (S.store shelf.old)
        (S.store shelf.new) (by_name copy.now result) }
    ensures places { IfOk result (λ word. length word ≡ places title.now.design) }
    ensures symbols { IfOk result (HasSymbolsBelow (symbols title.now.design)) }
{
    let mut reader = match CopyReader::new(alloc, title) {
        Ok(reader) => reader,
        Err(Memory) => return Err(MatchError::Memory),
    };
    let segments = copy.segments();
    'segments: for (i, segment) in segments.iter().enumerate() {
        match segment_digest(alloc, shelf, segment) {
            Ok(digest) => reader.see(&digest),
            Err(error) => return Err(stopped_at(i as u32, error)),
        }
    }
    match reader.word(alloc) {
        Ok(word) => Ok(word),
        Err(Memory) => Err(MatchError::Memory),
    }
}

/// The digest of a segment's blob.
fn segment_digest<S: Shelf>(
    alloc: Global,
    shelf: &mut S,
    segment: &Segment,
) -> Result<Digest, FetchError>
    requires { IsTrue (is_name segment.now.uri) }
    ensures digest { DigestGives (S.store shelf.old) (S.store shelf.new) segment.now.uri result }
    ensures reads { ReadsDigest segment.now.uri (S.store shelf.old)
        (S.store shelf.new) result }
{
    digest_of(alloc, shelf, segment.uri().as_str())
}

/// The refusal at the segment of this number.
fn stopped_at(i: u32, error: FetchError) -> MatchError
    ensures { result ≡ stopped_at i error }
{
    match error {
        FetchError::Missing => MatchError::Missing(i),
        FetchError::Fault => MatchError::Fault(i),
        FetchError::TooLong => MatchError::TooLong(i),
        FetchError::Memory => MatchError::Memory,
    }
}
