//! A title that is being built.

ghost use Rattle.std.specs.Prelude.{◌≡◌, ◌*◌, ◌<◌, ◌≤◌, OnOk, OnErr, true, IfOk};
ghost use Rattle.title_terms.specs.Designs.{places, symbols, variant_name};
ghost use Rattle.title_store.specs.Builds.{BuildsAs, AddsAs, with_digest, is_full, title_by, first_beyond};

use crate::errors::{AddError, BuildError};
use crate::table::{CellError, Table};
use crate::title::Title;
use blob_digests::Digest;
use designs::Design;
use lists::{Memory, Text};
use m3u8_text::MediaList;
use std::alloc::Global;
use std::marker::Model;

/// A title whose digests are still to come, which contracts see as its design, its media list, and a cell for each variant.
#[derive(Drop)]
pub struct TitleBuilder {
    design: Design,
    list: MediaList,
    table: Table,
}

impl Model for TitleBuilder {
    ghost use Rattle.title_store.specs.Builds.{Build, IsBuild};

    ghost Value = { Build };

    ghost view = { λ b. record { design = b.design; list = b.list; cells = b.table } };

    ghost invariant = { λ b. IsBuild (record { design = b.design; list = b.list; cells = b.table }) };
}

impl TitleBuilder {
    /// A title of this design and list, without digests. On refusal both are dropped.
    pub fn new(alloc: Global, design: Design, source: MediaList) -> Result<TitleBuilder, BuildError>
        // Where it is begun nothing is added yet; else which marked number is the first without a segment.
        ensures { BuildsAs result design source }
    {
        if let Some(segment) = first_beyond(&design, &source) {
            return Err(BuildError::NoSegment(segment));
        }
        let count = variant_count(&design);
        let Ok(table) = Table::new(alloc, count) else {
            return Err(BuildError::Memory);
        };
        Ok(TitleBuilder {
            design,
            list: source,
            table,
        })
    }

    /// Adds the digest of a variant, which has to be new. A refusal leaves all as it was.
    pub fn add(&mut self, place: u32, symbol: u8, digest: &Digest) -> Result<(), AddError>
        requires place { place < places self.old.design }
        requires symbol { symbol < symbols self.old.design }
        ensures answer { AddsAs result self.old place symbol digest.now.bytes }
        ensures added { OnOk result (self.new
            ≡ with_digest self.old place symbol digest.now.bytes) }
        ensures refused { OnErr result (self.new ≡ self.old) }
    {
        let symbols = self.design.symbols();
        let cell = place * symbols + u32::from(symbol);
        match self.table.put(cell, &digest.bytes) {
            Ok(()) => Ok(()),
            Err(CellError::Full) => Err(AddError::Twice),
            Err(CellError::HeldBy(other)) => Err(AddError::Duplicate {
                place: other / symbols,
                symbol: (other % symbols) as u8,
            }),
            Err(CellError::Memory) => Err(AddError::Memory),
        }
    }

    /// Whether every variant has a digest. It looks at each variant.
    pub fn is_full(&self) -> bool
        ensures { result ≡ is_full self.now }
    {
        self.table.is_full()
    }

    /// The title with the digests that were added. It takes no memory.
    pub fn finish(self) -> Title
        requires { is_full self ≡ true }
        ensures { result ≡ title_by self }
    {
        Title::over(self.design, self.list, self.table)
    }

    /// The name of the blob of a variant.
    pub fn variant_name(&self, alloc: Global, place: u32, symbol: u8) -> Result<Text, Memory>
        requires place { place < places self.now.design }
        requires symbol { symbol < symbols self.now.design }
        ensures { IfOk result (λ name. name ≡ variant_name self.now.design place symbol) }
    {
        self.design.variant_name(alloc, place, symbol)
    }
}

/// The first marked number for which the list has no segment.
fn first_beyond(design: &Design, list: &MediaList) -> Option<u32>
    ensures { result ≡ first_beyond design.now list.now }
{
    let count = list.len();
    'marks: for segment in design.marks() {
        if *segment >= count {
            return Some(*segment);
        }
    }
    None
}

/// How many variants there are.
pub(crate) fn variant_count(design: &Design) -> usize
    ensures number { result ≡ places design.now * symbols design.now }
    ensures few { result ≤ 65536 }
{
    (design.places() * design.symbols()) as usize
}
