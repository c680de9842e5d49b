//! A title from its text.

ghost use Rattle.std.specs.Prelude.{◌≡◌, ◌+◌, ◌*◌, ◌<◌, ◌≤◌, ◌^◌, ◌&&◌, [], codes, true, length, vec_len, is_some, Ok, IfOk, IfErr, OnOk};
ghost use Rattle.std.specs.List.{list_all};
ghost use Rattle.form_terms.specs.Forms.{rows_after};
ghost use Rattle.line_reader.specs.Finds.{Finds};
ghost use Rattle.decoding_terms.specs.Parameters.{is_bound, is_light};
ghost use Rattle.title_terms.specs.TitleText.{design_form, list_form, number_line, segment_form, mark_form, marked_form, digest_form, title_form, title_of, title_text};
ghost use Rattle.title_terms.specs.Titles.{Title, IsTitle};
ghost use Rattle.title_store.specs.Cells.{filled};
ghost use Rattle.title_store.specs.Reads.{Reads, ReadsAs, head_view, parts_title};
ghost use Rattle.title_store.specs.declared.errors.TitleReadError.TheVariants as read_errors;

use crate::errors::TitleReadError;
use crate::rows::{ROW, digest_row, end, exact_row, mark_row, segment_row, text_row};
use crate::table::{CellError, Table};
use crate::title::Title;
use designs::{Design, are_enough, have_room, is_affix, is_light};
use line_reader::Lines;
use m3u8_text::MediaList;
use std::alloc::Global;
use texts::is_plain;
use title_terms::{TitleFault, TitleKind};

impl Title {
    /// The title that the bytes are the text of.
    pub fn read(alloc: Global, bytes: &[u8]) -> Result<Title, TitleReadError>
        // Which title it is, or which fault.
        ensures answer { ReadsAs result (title_of bytes.now) }
        // What is read is valid, and the bytes are its text.
        ensures found { IfOk result (λ title. IsTitle title × (bytes.now ≡ title_text title)) }
        // The text of each valid title is read, unless memory runs out.
        ensures every { (t : Title) → IsTitle t → bytes.now ≡ title_text t → ReadsAs result (Ok t) }
    {
        title_in(alloc, bytes)
    }
}

/// The title whose text the bytes are.
fn title_in(alloc: Global, bytes: &[u8]) -> Result<Title, TitleReadError>
    ensures { ReadsAs result (title_of bytes.now) }
{
    let mut lines = Lines::of(bytes);
    match read_parts(alloc, &mut lines) {
        Ok(parts) => title_of_parts(alloc, parts),
        Err(error) => Err(error),
    }
}

/// What was read of a title.
#[derive(Drop)]
pub(crate) struct Parts<'a> {
    pub(crate) head: Head<'a>,
    pub(crate) list: MediaList,
    pub(crate) marks: Vec<u32>,
    pub(crate) table: Table,
}

/// All lines of a title, behind which nothing may follow.
#[tactic(auto, unfolding(title_terms::specs::TitleText::title_form, form_terms::specs::Forms::followed, form_terms::specs::Forms::give))]
fn read_parts<'a>(alloc: Global, lines: &mut Lines<'a>) -> Result<Parts<'a>, TitleReadError>
    requires start { lines.old.number ≡ 0 }
    ensures found { Reads parts_title result lines.old lines.new title_form }
    ensures full { IfOk result (λ parts. list_all is_some parts.table ≡ true) }
{
    let head = read_head(lines)?;
    let list = read_list(alloc, lines)?;
    let marks = read_marks(alloc, lines, &head, list.len())?;
    let count = variant_count(marks.as_slice(), head.bits);
    let table = read_digests(alloc, lines, count)?;
    match end(lines) {
        Ok(()) => Ok(Parts {
            head,
            list,
            marks,
            table,
        }),
        Err(fault) => Err(TitleReadError::NotTitle(fault)),
    }
}

/// How many variants so many marked segments have.
fn variant_count(marks: &[u32], bits: u32) -> u32
    requires few { length marks.now ≤ 256 }
    requires bits { bits ≤ 8 }
    ensures number { result ≡ length marks.now * 2 ^ bits }
    ensures few { result ≤ 65536 }
{
    (marks.len() as u32) << bits
}

/// The title of parts that were read, which are those of a valid title.
fn title_of_parts(alloc: Global, parts: Parts<'_>) -> Result<Title, TitleReadError>
    requires valid { IsTitle (parts_title parts) }
    requires full { list_all is_some parts.table ≡ true }
    ensures made { IfOk result (λ title. title ≡ parts_title parts.entry) }
    ensures memory { IfErr result (λ e. e ≡ read_errors.Memory) }
{
    let head = parts.head;
    let design = Design::of(
        alloc,
        head.name,
        head.bits,
        head.dimension,
        head.bound,
        head.prefix,
        head.suffix,
        parts.marks.as_slice(),
    );
    match design {
        Ok(design) => Ok(Title {
            design,
            list: parts.list,
            table: parts.table,
        }),
        // No rule is broken, so memory was wanting.
        Err(_) => Err(TitleReadError::Memory),
    }
}

/// The first lines of a title, before the segments and marks.
#[derive(Clone, Copy)]
pub(crate) struct Head<'a> {
    pub(crate) name: &'a str,
    pub(crate) bits: u32,
    pub(crate) dimension: u32,
    pub(crate) bound: u32,
    pub(crate) prefix: &'a str,
    pub(crate) suffix: &'a str,
}

/// The design on the first seven lines, without its marks.
#[tactic(auto, unfolding(title_terms::specs::TitleText::design_form, title_terms::specs::TitleText::text_line, form_terms::specs::Forms::number_row, form_terms::specs::Forms::followed, form_terms::specs::Forms::require, form_terms::specs::Forms::give))]
pub(crate) fn read_head<'a>(lines: &mut Lines<'a>) -> Result<Head<'a>, TitleFault>
    requires start { lines.old.number ≡ 0 }
    ensures found { Finds head_view result lines.old lines.new design_form }
    ensures bits { IfOk result (λ head. head.bits ≤ 8) }
    ensures low { IfOk result (λ head. 2 ≤ head.dimension) }
    ensures high { IfOk result (λ head. head.dimension ≤ 13) }
    ensures bound { IfOk result (λ head. head.bound ≤ 8) }
    ensures counted { OnOk result (lines.new.number ≡ 7) }
{
    exact_row(lines, b"title 1")?;
    let name = text_row(lines, b"name ")?;
    if !is_plain(name) {
        return Err(lines.fault(TitleKind::Rule));
    }
    let bits = lines.number_row(ROW, b"m ")?;
    if !(4..=8).contains(&bits) {
        return Err(lines.fault(TitleKind::Rule));
    }
    let dimension = lines.number_row(ROW, b"k ")?;
    if !(2..=13).contains(&dimension) {
        return Err(lines.fault(TitleKind::Rule));
    }
    let bound = bound_row(lines, dimension as u32)?;
    let prefix = text_row(lines, b"prefix ")?;
    if !is_affix(prefix) {
        return Err(lines.fault(TitleKind::Rule));
    }
    let suffix = text_row(lines, b"suffix ")?;
    if !is_affix(suffix) {
        return Err(lines.fault(TitleKind::Rule));
    }
    Ok(Head {
        name,
        bits: bits as u32,
        dimension: dimension as u32,
        bound,
        prefix,
        suffix,
    })
}

/// The largest coalition on the next line.
#[tactic(auto, unfolding(form_terms::specs::Forms::number_row, form_terms::specs::Forms::followed, form_terms::specs::Forms::require, form_terms::specs::Forms::give))]
fn bound_row(lines: &mut Lines, dimension: u32) -> Result<u32, TitleFault>
    requires room { lines.old.number + 1 < 2 ^ 32 }
    requires low { 2 ≤ dimension }
    requires high { dimension ≤ 13 }
    ensures found { Finds (λ bound. bound) result lines.old lines.new
        (number_line (codes "c ") (λ c. is_bound c && is_light dimension c)) }
    ensures high { IfOk result (λ bound. bound ≤ 8) }
    ensures counted { OnOk result (lines.new.number ≡ lines.old.number + 1) }
{
    let bound = lines.number_row(ROW, b"c ")?;
    if !(1..=8).contains(&bound) {
        return Err(lines.fault(TitleKind::Rule));
    }
    if !is_light(dimension, bound as u32) {
        return Err(lines.fault(TitleKind::Rule));
    }
    Ok(bound as u32)
}

/// The media list on the lines behind the design.
#[tactic(auto, unfolding(title_terms::specs::TitleText::list_form, form_terms::specs::Forms::number_row, form_terms::specs::Forms::followed, form_terms::specs::Forms::require, form_terms::specs::Forms::give))]
pub(crate) fn read_list(alloc: Global, lines: &mut Lines) -> Result<MediaList, TitleReadError>
    requires start { lines.old.number ≡ 7 }
    ensures found { Reads (λ list. list) result lines.old lines.new list_form }
    ensures few { IfOk result (λ list. length list.segments ≤ 100000) }
    ensures counted { IfOk result (λ list. lines.new.number ≡ 11 + length list.segments) }
{
    let version = lines.number_row(ROW, b"version ")?;
    if !(1..=65_535).contains(&version) {
        return Err(lines.fault(TitleKind::Rule).into());
    }
    let target = lines.number_row(ROW, b"target ")?;
    if target > u128::from(u64::MAX) {
        return Err(lines.fault(TitleKind::Rule).into());
    }
    let sequence = lines.number_row(ROW, b"sequence ")?;
    if sequence > u128::from(u64::MAX) {
        return Err(lines.fault(TitleKind::Rule).into());
    }
    let count = lines.number_row(ROW, b"segments ")?;
    if count > 100_000 {
        return Err(lines.fault(TitleKind::Rule).into());
    }
    let list = MediaList::new(alloc, version as u32, target as u64, sequence as u64).unwrap();
    read_segments(alloc, lines, list, count as u32)
}

/// So many segments, behind a list that has none yet.
fn read_segments(
    alloc: Global,
    lines: &mut Lines,
    list: MediaList,
    count: u32,
) -> Result<MediaList, TitleReadError>
    requires none { list.segments ≡ [] }
    requires few { count ≤ 100000 }
    requires start { lines.old.number ≡ 11 }
    ensures rows { Reads (λ grown. grown.segments) result lines.old lines.new
        (rows_after [] count segment_form) }
    ensures others { IfOk result (λ grown. grown ≡ record list { segments = grown.segments }) }
    ensures number { IfOk result (λ grown. length grown.segments ≡ count) }
    ensures counted { OnOk result (lines.new.number ≡ 11 + count) }
{
    let mut list = list;
    'rows: for _row in 0..count {
        let segment = match segment_row(alloc, lines) {
            Ok(segment) => segment,
            Err(error) => return Err(error),
        };
        match list.push(segment) {
            Ok(()) => {}
            Err(_) => return Err(TitleReadError::Memory),
        }
    }
    Ok(list)
}

/// The numbers of the marked segments, of so many segments.
#[tactic(auto, unfolding(title_terms::specs::TitleText::marked_form, form_terms::specs::Forms::number_row, form_terms::specs::Forms::followed, form_terms::specs::Forms::require, form_terms::specs::Forms::give))]
pub(crate) fn read_marks(
    alloc: Global,
    lines: &mut Lines,
    head: &Head,
    segments: u32,
) -> Result<Vec<u32>, TitleReadError>
    requires bits { head.now.bits ≤ 8 }
    requires low { 2 ≤ head.now.dimension }
    requires high { head.now.dimension ≤ 13 }
    requires bound { head.now.bound ≤ 8 }
    requires start { lines.old.number ≤ 100011 }
    ensures found { Reads (λ marks. marks.items) result lines.old lines.new
        (marked_form (head_view head.now) segments) }
    ensures few { IfOk result (λ marks. vec_len marks ≤ 256) }
    ensures counted { IfOk result (λ marks. lines.new.number ≤ 100268) }
{
    let count = lines.number_row(ROW, b"marked ")?;
    if count > 256 {
        return Err(lines.fault(TitleKind::Rule).into());
    }
    if !have_room(head.bits, count as usize) {
        return Err(lines.fault(TitleKind::Rule).into());
    }
    if !are_enough(head.dimension, head.bound, count as usize) {
        return Err(lines.fault(TitleKind::Rule).into());
    }
    read_numbers(alloc, lines, count as u32, segments)
}

/// So many numbers of segments.
fn read_numbers(
    alloc: Global,
    lines: &mut Lines,
    count: u32,
    segments: u32,
) -> Result<Vec<u32>, TitleReadError>
    requires few { count ≤ 256 }
    requires start { lines.old.number ≤ 100012 }
    ensures rows { Reads (λ marks. marks.items) result lines.old lines.new
        (rows_after [] count (mark_form segments)) }
    ensures number { IfOk result (λ marks. vec_len marks ≡ count) }
    ensures counted { OnOk result (lines.new.number ≡ lines.old.number + count) }
{
    let mut marks: Vec<u32> = Vec::new(alloc);
    'rows: for _row in 0..count {
        let segment = match mark_row(lines, marks.as_slice(), segments) {
            Ok(segment) => segment,
            Err(fault) => return Err(TitleReadError::NotTitle(fault)),
        };
        match marks.push(segment) {
            Ok(()) => {}
            Err(error) => return Err(error.into()),
        }
    }
    Ok(marks)
}

/// So many digests, no two of which are the same.
pub(crate) fn read_digests(
    alloc: Global,
    lines: &mut Lines,
    count: u32,
) -> Result<Table, TitleReadError>
    requires few { count ≤ 65536 }
    requires start { lines.old.number ≤ 100268 }
    ensures rows { Reads (λ table. filled table) result lines.old lines.new
        (rows_after [] count digest_form) }
    ensures full { IfOk result (λ table. list_all is_some table ≡ true) }
    ensures counted { OnOk result (lines.new.number ≤ 165804) }
{
    let mut table = Table::new(alloc, count as usize)?;
    'rows: for row in 0..count {
        let digest = match digest_row(lines) {
            Ok(digest) => digest,
            Err(fault) => return Err(TitleReadError::NotTitle(fault)),
        };
        match table.put(row, &digest) {
            Ok(()) => {}
            Err(CellError::Full) => return Err(TitleReadError::Memory),
            Err(CellError::HeldBy(_)) => return Err(lines.fault(TitleKind::Duplicate).into()),
            Err(CellError::Memory) => return Err(TitleReadError::Memory),
        }
    }
    Ok(table)
}
