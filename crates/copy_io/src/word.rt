//! The word of a copy under a name.

ghost use Rattle.std.specs.Prelude.{◌≡◌, length, IfOk, IsTrue};
ghost use Rattle.text_terms.specs.Names.{is_name};
ghost use Rattle.code_terms.specs.Words.{HasSymbolsBelow};
ghost use Rattle.title_terms.specs.Designs.{places, symbols};
ghost use Rattle.outcome_terms.specs.Stores.{Follows};
ghost use Rattle.outcome_terms.specs.TraceCommand.{word_shown, word_of_copy_under};
ghost use Rattle.copy_match.specs.Matches.{name_at, refusal_of};

use copy_match::{MatchError, match_copy};
use lists::{Memory, Text};
use m3u8_text::MediaList;
use outcome_terms::Refusal;
use rs_code::Word;
use shelf_io::Shelf;
use std::alloc::Global;
use title_io::playlist_under;
use title_store::Title;

/// The word that a copy shows, whose playlist is the blob of this name.
#[tactic(auto, using(outcome_terms::proofs::Readings::reading_rules), unfolding(outcome_terms::specs::TraceCommand::word_shown))]
pub fn word_shown<S: Shelf>(
    alloc: Global,
    shelf: &mut S,
    title: &Title,
    copy: &str,
) -> Result<Word, Refusal>
    requires { IsTrue (is_name copy.now) }
    ensures word { Follows (word_shown title.now copy.now) (S.store shelf.old)
        (S.store shelf.new) result }
    ensures places { IfOk result (λ word. length word ≡ places title.now.design) }
    ensures symbols { IfOk result (HasSymbolsBelow (symbols title.now.design)) }
{
    let copy = playlist_under(alloc, shelf, copy)?;
    word_of(alloc, shelf, title, &copy)
}

/// The word that the segments of a copy show. A refusal has the name of its segment.
fn word_of<S: Shelf>(
    alloc: Global,
    shelf: &mut S,
    title: &Title,
    copy: &MediaList,
) -> Result<Word, Refusal>
    ensures word { Follows (word_of_copy_under title.now copy.now)
        (S.store shelf.old) (S.store shelf.new) result }
    ensures places { IfOk result (λ word. length word ≡ places title.now.design) }
    ensures symbols { IfOk result (HasSymbolsBelow (symbols title.now.design)) }
{
    match match_copy(alloc, shelf, title, copy) {
        Ok(word) => Ok(word),
        Err(error) => match named_refusal(alloc, copy, error) {
            Ok(refusal) => Err(refusal),
            Err(Memory) => Err(Refusal::Memory),
        },
    }
}

/// The refusal with the name of the segment in place of its number.
fn named_refusal(alloc: Global, copy: &MediaList, error: MatchError) -> Result<Refusal, Memory>
    ensures { IfOk result (λ refusal. refusal ≡ refusal_of copy.now error) }
{
    match error {
        MatchError::Missing(i) => Ok(Refusal::Missing(name_at(alloc, copy, i)?)),
        MatchError::Fault(i) => Ok(Refusal::ReadFault(name_at(alloc, copy, i)?)),
        MatchError::TooLong(i) => Ok(Refusal::TooLong(name_at(alloc, copy, i)?)),
        MatchError::Memory => Ok(Refusal::Memory),
    }
}

/// The name of the segment of this number; nothing where there is none.
fn name_at(alloc: Global, copy: &MediaList, i: u32) -> Result<Text, Memory>
    ensures { IfOk result (λ name. name ≡ name_at copy.now i) }
{
    match copy.get(i) {
        Some(segment) => Text::of(alloc, segment.uri().as_str()),
        None => Text::of(alloc, ""),
    }
}
