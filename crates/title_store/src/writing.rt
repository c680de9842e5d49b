//! The text of a title.

ghost use Rattle.std.specs.Prelude.{◌≡◌, ◌++◌, true, length, map, codes, is_some, Ok, IfOk, OnOk};
ghost use Rattle.std.specs.List.{flat_map, list_all};
ghost use Rattle.std.specs.Fmt.{decimal};
ghost use Rattle.hex.specs.Hex.{encode_lower};
ghost use Rattle.form_terms.specs.TextLines.{line, number_text};
ghost use Rattle.title_terms.specs.TitleText.{cut_text, design_lines, list_lines, marked_lines, segment_text, title_of, title_text};
ghost use Rattle.title_store.specs.Cells.{filled};

use crate::table::Table;
use crate::title::Title;
use designs::Design;
use lists::Memory;
use m3u8_text::{MediaList, Segment};
use std::alloc::Global;
use texts::number_text;

impl Title {
    /// The text that the title is kept as.
    pub fn write(&self, alloc: Global) -> Result<Vec<u8>, Memory>
        ensures text { IfOk result (λ bytes. bytes.items ≡ title_text self.now) }
        // It is read again as the same title.
        ensures again { IfOk result (λ bytes. title_of bytes.items ≡ Ok self.now) }
    {
        let mut out = Vec::new(alloc);
        put_design(alloc, &mut out, &self.design)?;
        put_list(alloc, &mut out, &self.list)?;
        put_marks(alloc, &mut out, self.design.marks())?;
        put_digests(&mut out, &self.table)?;
        Ok(out)
    }
}

/// Writes the lines of the design in front of its marks.
fn put_design(alloc: Global, out: &mut Vec<u8>, design: &Design) -> Result<(), Memory>
    ensures { OnOk result (out.new.items
        ≡ out.old.items ++ flat_map line (design_lines design.now)) }
{
    put_line(out, b"title 1")?;
    put_text_line(out, b"name ", design.name().as_str())?;
    put_code(alloc, out, design)?;
    put_text_line(out, b"prefix ", design.prefix().as_str())?;
    put_text_line(out, b"suffix ", design.suffix().as_str())?;
    Ok(())
}

/// Writes the lines of the code's three numbers.
#[tactic(auto, using(std::proofs::Common::append_assoc))]
fn put_code(alloc: Global, out: &mut Vec<u8>, design: &Design) -> Result<(), Memory>
    ensures { OnOk result (out.new.items
        ≡ out.old.items ++ (line (number_text (codes "m ") design.now.bits)
        ++ (line (number_text (codes "k ") design.now.dimension)
        ++ line (number_text (codes "c ") design.now.bound)))) }
{
    put_number_line(alloc, out, b"m ", u128::from(design.bits()))?;
    put_number_line(alloc, out, b"k ", u128::from(design.dimension()))?;
    put_number_line(alloc, out, b"c ", u128::from(design.bound()))?;
    Ok(())
}

/// Writes the lines of the media list.
fn put_list(alloc: Global, out: &mut Vec<u8>, list: &MediaList) -> Result<(), Memory>
    ensures { OnOk result (out.new.items ≡ out.old.items ++ flat_map line (list_lines list.now)) }
{
    put_number_line(alloc, out, b"version ", u128::from(list.version()))?;
    put_number_line(alloc, out, b"target ", u128::from(list.target()))?;
    put_number_line(alloc, out, b"sequence ", u128::from(list.sequence()))?;
    put_number_line(alloc, out, b"segments ", u128::from(list.len()))?;
    put_segments(alloc, out, list.segments())
}

/// Writes a line for each segment.
fn put_segments(alloc: Global, out: &mut Vec<u8>, segments: &[Segment]) -> Result<(), Memory>
    ensures { OnOk result (out.new.items
        ≡ out.old.items ++ flat_map line (map segment_text segments.now)) }
{
    'segments: for segment in segments {
        put_segment(alloc, out, segment)?;
    }
    Ok(())
}

/// Writes the line of a segment.
#[tactic(auto, using(std::proofs::Common::append_assoc))]
fn put_segment(alloc: Global, out: &mut Vec<u8>, segment: &Segment) -> Result<(), Memory>
    ensures { OnOk result (out.new.items ≡ out.old.items ++ line (segment_text segment.now)) }
{
    let micros = number_text(alloc, u128::from(segment.micros()))?;
    out.extend_from_slice(cut_digit(segment.cut()))?;
    out.extend_from_slice(b" ")?;
    out.extend_from_slice(micros.as_str().as_bytes())?;
    out.extend_from_slice(b" ")?;
    put_line(out, segment.uri().as_str().as_bytes())
}

/// `1` for a segment with a discontinuity in front of it.
fn cut_digit(cut: bool) -> &'static [u8]
    ensures { result.now ≡ cut_text cut }
{
    if cut { b"1" } else { b"0" }
}

/// Writes how many segments are marked, and the number of each.
fn put_marks(alloc: Global, out: &mut Vec<u8>, marks: &[u32]) -> Result<(), Memory>
    ensures { OnOk result (out.new.items
        ≡ out.old.items ++ flat_map line (marked_lines marks.now)) }
{
    put_number_line(alloc, out, b"marked ", marks.len() as u128)?;
    put_numbers(alloc, out, marks)
}

/// Writes each number on a line of its own.
fn put_numbers(alloc: Global, out: &mut Vec<u8>, numbers: &[u32]) -> Result<(), Memory>
    ensures { OnOk result (out.new.items
        ≡ out.old.items ++ flat_map line (map decimal numbers.now)) }
{
    'numbers: for number in numbers {
        put_number_line(alloc, out, b"", u128::from(*number))?;
    }
    Ok(())
}

/// Writes the digest of each cell.
fn put_digests(out: &mut Vec<u8>, table: &Table) -> Result<(), Memory>
    requires { list_all is_some table.now ≡ true }
    ensures { OnOk result (out.new.items
        ≡ out.old.items ++ flat_map line (map encode_lower (filled table.now))) }
{
    for cell in 0..table.len() {
        let digest = table.at(cell).unwrap();
        put_digest(out, &digest)?;
    }
    Ok(())
}

/// Writes a digest as 64 digits in lower case.
fn put_digest(out: &mut Vec<u8>, digest: &[u8; 32]) -> Result<(), Memory>
    ensures { OnOk result (out.new.items ≡ out.old.items ++ line (encode_lower digest.now)) }
{
    let mut digits = [0u8; 64];
    hex::encode_to_slice(digest.as_slice(), &mut digits).unwrap();
    put_line(out, digits.as_slice())
}

/// Writes a line of a word and a text.
#[tactic(auto, using(std::proofs::Common::append_assoc))]
fn put_text_line(out: &mut Vec<u8>, word: &[u8], text: &str) -> Result<(), Memory>
    ensures { OnOk result (out.new.items ≡ out.old.items ++ line (word.now ++ text.now)) }
{
    out.extend_from_slice(word)?;
    put_line(out, text.as_bytes())
}

/// Writes a line of a word and a number.
fn put_number_line(alloc: Global, out: &mut Vec<u8>, word: &[u8], value: u128) -> Result<(), Memory>
    ensures { OnOk result (out.new.items ≡ out.old.items ++ line (number_text word.now value)) }
{
    let number = number_text(alloc, value)?;
    put_text_line(out, word, number.as_str())
}

/// Writes the bytes and a line feed.
fn put_line(out: &mut Vec<u8>, text: &[u8]) -> Result<(), Memory>
    ensures { OnOk result (out.new.items ≡ out.old.items ++ line text.now) }
{
    out.extend_from_slice(text)?;
    out.push(b'\n')?;
    Ok(())
}
