//! A title in memory.

ghost use Rattle.std.specs.Prelude.{◌≡◌, ◌==◌, ◌<◌, ◌≤◌, ℕ, true, nat_lt, if◌then◌else◌, None, Some, length, slice_get, MatchOption, IfOk, IfSome};
ghost use Rattle.std.specs.Option.{option_copied, option_map};
ghost use Rattle.std.specs.List.{position};
ghost use Rattle.title_terms.specs.Designs.{places, symbols, variant_name};
ghost use Rattle.title_terms.specs.Titles.{cell_of, digest_at, IsTitle};
ghost use Rattle.title_store.specs.Builds.{title_by, is_full, IsBuild};

use crate::table::Table;
use blob_digests::Digest;
use designs::Design;
use lists::{Memory, Text};
use m3u8_text::{MediaList, Segment};
use std::alloc::Global;
use std::marker::Model;

/// A title, which contracts see as its design, its media list and the list of its digests, place by place and symbol by
/// symbol. It is valid, so all its digests differ.
#[derive(Drop)]
pub struct Title {
    pub(crate) design: Design,
    pub(crate) list: MediaList,
    pub(crate) table: Table,
}

impl Model for Title {
    ghost use Rattle.title_terms.specs.Titles.{Title};
    ghost use Rattle.title_store.specs.Builds.{title_by, IsWhole};

    ghost Value = { Title };

    ghost view = { λ t. title_by (record { design = t.design; list = t.list; cells = t.table }) };

    ghost invariant = { λ t. IsWhole (record { design = t.design; list = t.list; cells = t.table }) };
}

impl Title {
    /// The title of these parts, all of whose cells are full.
    pub(crate) fn over(design: Design, list: MediaList, table: Table) -> Title
        requires build { IsBuild (record { design = design; list = list; cells = table }) }
        requires full { is_full (record { design = design; list = list; cells = table }) ≡ true }
        ensures { result ≡ title_by (record { design = design; list = list; cells = table }) }
    {
        let _ = table.len();
        Title {
            design,
            list,
            table,
        }
    }

    /// The bits of a symbol, 4 to 8.
    pub fn bits(&self) -> u32
        ensures value { result ≡ self.now.design.bits }
        ensures low { 4 ≤ result }
        ensures high { result ≤ 8 }
    {
        self.design.bits()
    }

    /// How many symbols a message has, 2 to 13.
    pub fn dimension(&self) -> u32
        ensures value { result ≡ self.now.design.dimension }
        ensures low { 2 ≤ result }
        ensures high { result ≤ 13 }
    {
        self.design.dimension()
    }

    /// The largest coalition, 1 to 8.
    pub fn bound(&self) -> u32
        ensures value { result ≡ self.now.design.bound }
        ensures low { 1 ≤ result }
        ensures high { result ≤ 8 }
    {
        self.design.bound()
    }

    /// The number of marked segments.
    pub fn places(&self) -> u32
        ensures number { result ≡ places self.now.design }
        ensures few { result ≤ 256 }
        ensures valid { IsTitle self.now }
    {
        self.design.places()
    }

    /// The number of the segment at this place.
    pub fn marked(&self, place: u32) -> u32
        requires { place < places self.now.design }
        ensures { slice_get self.now.design.marked place ≡ Some result }
    {
        self.design.marked(place)
    }

    /// The media playlist of which some segments are marked.
    pub fn list(&self) -> &MediaList
        ensures { result.now ≡ self.now.list }
    {
        &self.list
    }

    /// The version of the protocol.
    pub fn version(&self) -> u32
        ensures { result ≡ self.now.list.version }
    {
        self.list.version()
    }

    /// The target duration in seconds.
    pub fn target(&self) -> u64
        ensures { result ≡ self.now.list.target }
    {
        self.list.target()
    }

    /// The number of the first segment.
    pub fn sequence(&self) -> u64
        ensures { result ≡ self.now.list.sequence }
    {
        self.list.sequence()
    }

    /// The number of segments.
    pub fn segments(&self) -> u32
        ensures { result ≡ length self.now.list.segments }
    {
        self.list.len()
    }

    /// The segment of this number; `None` past the end.
    pub fn segment(&self, i: u32) -> Option<&Segment>
        ensures { option_copied result ≡ slice_get self.now.list.segments i }
    {
        self.list.get(i)
    }

    /// The place at which this segment is marked; `None` where it is not marked.
    pub fn place_of(&self, i: u32) -> Option<u32>
        ensures { result ≡ position (λ segment. segment == i) self.now.design.marked }
    {
        let marks = self.design.marks();
        match place_in(marks, i) {
            Some(place) => Some(place as u32),
            None => None,
        }
    }

    /// The digest of a variant; `None` where there is no such variant.
    pub fn digest(&self, place: u32, symbol: u8) -> Option<Digest>
        ensures { option_map (λ digest. digest.bytes) result ≡ digest_at self.now place symbol }
    {
        let cell = match cell_in(&self.design, place, symbol) {
            Some(cell) => cell,
            None => return None,
        };
        match self.table.at(cell) {
            Some(bytes) => Some(Digest { bytes }),
            None => None,
        }
    }

    /// The variant with this digest. There is at most one.
    pub fn find(&self, digest: &Digest) -> Option<(u32, u8)>
        // No variant has the digest, or this one has it.
        ensures found { MatchOption result ((place symbol : ℕ)
            → digest_at self.now place symbol ≡ Some digest.now.bytes
            → ⊥) (λ variant. digest_at self.now variant.0 variant.1 ≡ Some digest.now.bytes) }
        ensures inside { IfSome result (λ variant. (variant.0 < places self.now.design)
            × (variant.1 < symbols self.now.design)) }
    {
        match self.table.find(&digest.bytes) {
            Some(cell) => {
                let symbols = self.design.symbols();
                Some((cell / symbols, (cell % symbols) as u8))
            }
            None => None,
        }
    }

    /// The name of the blob of a variant.
    pub fn variant_name(&self, alloc: Global, place: u32, symbol: u8) -> Result<Text, Memory>
        requires place { place < places self.now.design }
        requires symbol { symbol < symbols self.now.design }
        ensures { IfOk result (λ name. name ≡ variant_name self.now.design place symbol) }
    {
        self.design.variant_name(alloc, place, symbol)
    }
}

/// The first place in a list that has this number.
fn place_in(marks: &[u32], segment: u32) -> Option<usize>
    ensures place { result ≡ position (λ mark. mark == segment) marks.now }
    ensures inside { IfSome result (λ place. place < length marks.now) }
{
    marks.iter().position(|mark| *mark == segment)
}

/// The cell of a variant; `None` where there is no such symbol.
fn cell_in(design: &Design, place: u32, symbol: u8) -> Option<usize>
    ensures { result ≡ (if nat_lt symbol (symbols design.now) then Some
        (cell_of design.now place symbol) else None) }
{
    let symbols = design.symbols() as usize;
    if symbol as usize >= symbols {
        return None;
    }
    Some(place as usize * symbols + symbol as usize)
}
