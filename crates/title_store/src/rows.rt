//! One line of a title's text after the other.

ghost use Rattle.std.specs.Prelude.{◌≡◌, ◌+◌, ◌<◌, ◌^◌, true, ℕ, List, OnOk, IfOk};
ghost use Rattle.text_terms.specs.Numbers.{number_of};
ghost use Rattle.form_terms.specs.Forms.{row, the_end};
ghost use Rattle.line_reader.specs.Finds.{Finds};
ghost use Rattle.playlist_terms.specs.Playlists.{PlaylistSegment};
ghost use Rattle.title_terms.specs.TitleText.{exactly, text_after, segment_form, mark_form, digest_said, kinds_of_rows};
ghost use Rattle.title_terms.specs.declared.fault.TitleKind.TheVariants as kinds;
ghost use Rattle.title_terms.specs.Designs.{is_above};
ghost use Rattle.title_store.specs.Reads.{Reads};

use crate::errors::TitleReadError;
use crate::lines::{digest_in, exactly, number_in, segment_in, text_after};
use designs::is_above;
use line_reader::{Lines, RowKinds};
use m3u8_text::{Segment, SegmentError};
use std::alloc::Global;
use title_terms::{TitleFault, TitleKind};

/// How a line is refused that is not there or not what belongs there.
pub(crate) const ROW: RowKinds<TitleKind> = RowKinds {
    missing: TitleKind::Form,
    unended: TitleKind::Form,
    wrong: TitleKind::Form,
};

/// The next line, which has to be just this.
#[tactic(auto, unfolding(form_terms::specs::Forms::row, form_terms::specs::Forms::followed, form_terms::specs::Forms::said))]
pub(crate) fn exact_row(lines: &mut Lines, wanted: &[u8]) -> Result<(), TitleFault>
    requires room { lines.old.number + 1 < 2 ^ 32 }
    ensures found { Finds (λ done. done) result lines.old lines.new
        (row kinds_of_rows (exactly wanted.now)) }
    ensures counted { OnOk result (lines.new.number ≡ lines.old.number + 1) }
{
    let text = lines.next_line(TitleKind::Form, TitleKind::Form)?;
    match exactly(wanted, text) {
        Some(()) => Ok(()),
        None => Err(lines.fault(TitleKind::Form)),
    }
}

/// The next line, which has to be a word and a text.
#[tactic(auto, unfolding(form_terms::specs::Forms::row, form_terms::specs::Forms::followed, form_terms::specs::Forms::said))]
pub(crate) fn text_row<'a>(lines: &mut Lines<'a>, word: &[u8]) -> Result<&'a str, TitleFault>
    requires room { lines.old.number + 1 < 2 ^ 32 }
    ensures found { Finds (λ text. text.now) result lines.old lines.new
        (row kinds_of_rows (text_after word.now)) }
    ensures counted { OnOk result (lines.new.number ≡ lines.old.number + 1) }
{
    let text = lines.next_line(TitleKind::Form, TitleKind::Form)?;
    match text_after(word, text) {
        Some(value) => Ok(value),
        None => Err(lines.fault(TitleKind::Form)),
    }
}

/// The next line, which has to be a segment of a playlist.
#[tactic(auto, unfolding(title_terms::specs::TitleText::segment_form, form_terms::specs::Forms::row, form_terms::specs::Forms::followed, form_terms::specs::Forms::said, form_terms::specs::Forms::require, form_terms::specs::Forms::give))]
pub(crate) fn segment_row(alloc: Global, lines: &mut Lines) -> Result<Segment, TitleReadError>
    requires room { lines.old.number + 1 < 2 ^ 32 }
    ensures found { (past : List PlaylistSegment)
        → Reads (λ segment. segment) result lines.old lines.new (segment_form past) }
    ensures counted { OnOk result (lines.new.number ≡ lines.old.number + 1) }
{
    let text = lines.next_line(TitleKind::Form, TitleKind::Form)?;
    let Some(parts) = segment_in(text) else {
        return Err(lines.fault(TitleKind::Form).into());
    };
    if parts.micros >= 10_000_000_000_000_000 {
        return Err(lines.fault(TitleKind::Rule).into());
    }
    match Segment::new(alloc, parts.micros as u64, parts.uri, parts.cut) {
        Ok(segment) => Ok(segment),
        Err(SegmentError::BadUri) => Err(lines.fault(TitleKind::Rule).into()),
        Err(SegmentError::LongDuration) => Err(lines.fault(TitleKind::Rule).into()),
        Err(SegmentError::Memory) => Err(TitleReadError::Memory),
    }
}

/// The next line, which has to be the number of one of so many segments, above the last of these.
#[tactic(auto, unfolding(title_terms::specs::TitleText::mark_form, form_terms::specs::Forms::row, form_terms::specs::Forms::followed, form_terms::specs::Forms::said, form_terms::specs::Forms::require, form_terms::specs::Forms::give))]
pub(crate) fn mark_row(lines: &mut Lines, past: &[u32], segments: u32) -> Result<u32, TitleFault>
    requires room { lines.old.number + 1 < 2 ^ 32 }
    ensures found { Finds (λ segment. segment) result lines.old lines.new
        (mark_form segments past.now) }
    ensures counted { OnOk result (lines.new.number ≡ lines.old.number + 1) }
{
    let text = lines.next_line(TitleKind::Form, TitleKind::Form)?;
    let Some(number) = number_in(text) else {
        return Err(lines.fault(TitleKind::Form));
    };
    if number >= u128::from(segments) {
        return Err(lines.fault(TitleKind::Rule));
    }
    if !is_above(past, number as u64) {
        return Err(lines.fault(TitleKind::Rule));
    }
    Ok(number as u32)
}

/// The next line, which has to be a digest.
#[tactic(auto, unfolding(form_terms::specs::Forms::row, form_terms::specs::Forms::followed, form_terms::specs::Forms::said))]
pub(crate) fn digest_row(lines: &mut Lines) -> Result<[u8; 32], TitleFault>
    requires room { lines.old.number + 1 < 2 ^ 32 }
    ensures found { Finds (λ digest. digest) result lines.old lines.new
        (row kinds_of_rows digest_said) }
    ensures counted { OnOk result (lines.new.number ≡ lines.old.number + 1) }
{
    let text = lines.next_line(TitleKind::Form, TitleKind::Form)?;
    match digest_in(text) {
        Some(digest) => Ok(digest),
        None => Err(lines.fault(TitleKind::Form)),
    }
}

/// Nothing may follow.
#[tactic(auto, unfolding(form_terms::specs::Forms::the_end))]
pub(crate) fn end(lines: &Lines) -> Result<(), TitleFault>
    requires room { lines.now.number + 1 < 2 ^ 32 }
    ensures { Finds (λ done. done) result lines.now lines.now (the_end kinds.Form) }
{
    if lines.is_over() {
        return Ok(());
    }
    let last = lines.fault(TitleKind::Form);
    Err(TitleFault {
        line: last.line + 1,
        kind: last.kind,
    })
}
