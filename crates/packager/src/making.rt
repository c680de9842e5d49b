//! A title that is made of the variants that a store holds.

ghost use Rattle.std.specs.Prelude.{◌≡◌, ◌*◌, ◌<◌, IfSome, IsTrue};
ghost use Rattle.text_terms.specs.Names.{is_name};
ghost use Rattle.title_terms.specs.Designs.{IsDesign, places, symbols};
ghost use Rattle.title_terms.specs.Titles.{cell_of};
ghost use Rattle.packaging_terms.specs.Making.{made};
ghost use Rattle.outcome_terms.specs.Stores.{Answers, Follows};
ghost use Rattle.outcome_terms.specs.TitleCommand.{title_made, told_title};
ghost use Rattle.packager.specs.Builds.{AddsAs, FillsAs, HashesAs, IsBegun, PutsAs};
ghost use Rattle.packager.specs.Refusals.{told_by};

use crate::errors::PackError;
use designs::Design;
use lists::Text;
use m3u8_text::MediaList;
use shelf_io::{FetchError, Shelf};
use shelf_terms::BLOB_LIMIT;
use std::alloc::Global;
use title_store::{AddError, BuildError, Digest, Title, TitleBuilder, digest_of};

/// The title of this design and this media list, with the digest of each variant that the store holds. The variants are read in
/// order of place and then of symbol, and none of them is kept; no other blob is read. On refusal the design and the list are
/// dropped.
pub fn make_title<S: Shelf>(
    alloc: Global,
    shelf: &mut S,
    design: Design,
    source: MediaList,
) -> Result<Title, PackError>
    ensures made { Follows (title_made design source) (S.store shelf.old)
        (S.store shelf.new) (told_by (λ title. title) result) }
    // Where the blobs are told: the title of the held variants, or the first thing in order that stands in the way.
    ensures held { IfSome (S.store shelf.old).told (λ blobs. Answers (told_by (λ title. title) result)
        (told_title design (made BLOB_LIMIT blobs design source))) }
    ensures same { (S.store shelf.new).told ≡ (S.store shelf.old).told }
{
    titled(alloc, shelf, design, source)
}

/// The same, which follows its reading.
fn titled<S: Shelf>(
    alloc: Global,
    shelf: &mut S,
    design: Design,
    source: MediaList,
) -> Result<Title, PackError>
    ensures { Follows (title_made design source) (S.store shelf.old)
        (S.store shelf.new) (told_by (λ title. title) result) }
{
    let places = design.places();
    let symbols = design.symbols();
    let mut builder = match TitleBuilder::new(alloc, design, source) {
        Ok(builder) => builder,
        Err(BuildError::NoSegment(segment)) => return Err(PackError::NoSegment(segment)),
        Err(BuildError::Memory) => return Err(PackError::Memory),
    };
    match add_variants(alloc, shelf, &mut builder, places, symbols) {
        Ok(()) => Ok(builder.finish()),
        Err(error) => Err(error),
    }
}

/// Reads every variant of a title that is begun, in order, and adds its digest.
fn add_variants<S: Shelf>(
    alloc: Global,
    shelf: &mut S,
    builder: &mut TitleBuilder,
    place_count: u32,
    symbol_count: u32,
) -> Result<(), PackError>
    requires design { IsDesign builder.old.design }
    requires begun { IsBegun builder.old 0 }
    requires places { place_count ≡ places builder.old.design }
    requires symbols { symbol_count ≡ symbols builder.old.design }
    ensures { FillsAs result builder.old builder.new (S.store shelf.old)
        (S.store shelf.new) }
{
    'variants: for variant in 0..place_count * symbol_count {
        match add_variant(alloc, shelf, builder, variant, symbol_count) {
            Ok(()) => {}
            Err(error) => return Err(error),
        }
    }
    Ok(())
}

/// Reads the variant of this number and adds its digest.
fn add_variant<S: Shelf>(
    alloc: Global,
    shelf: &mut S,
    builder: &mut TitleBuilder,
    variant: u32,
    symbol_count: u32,
) -> Result<(), PackError>
    requires design { IsDesign builder.old.design }
    requires begun { IsBegun builder.old variant }
    requires inside { variant < places builder.old.design * symbols builder.old.design }
    requires symbols { symbol_count ≡ symbols builder.old.design }
    ensures { AddsAs result builder.old builder.new variant (S.store shelf.old)
        (S.store shelf.new) }
{
    let place = variant / symbol_count;
    let symbol = (variant % symbol_count) as u8;
    let Ok(name) = builder.variant_name(alloc, place, symbol) else {
        return Err(PackError::Memory);
    };
    match digest_under(alloc, shelf, name.as_str()) {
        Ok(digest) => put(builder, place, symbol, &digest),
        Err(error) => Err(error),
    }
}

/// The digest of the blob under a name.
fn digest_under<S: Shelf>(alloc: Global, shelf: &mut S, name: &str) -> Result<Digest, PackError>
    requires { IsTrue (is_name name.now) }
    ensures { HashesAs name.now (S.store shelf.old)
        (S.store shelf.new)
        result }
{
    match digest_of(alloc, shelf, name) {
        Ok(digest) => Ok(digest),
        Err(FetchError::Missing) => Err(PackError::Missing(Text::of(alloc, name)?)),
        Err(FetchError::Fault) => Err(PackError::Fault(Text::of(alloc, name)?)),
        Err(FetchError::TooLong) => Err(PackError::TooLong(Text::of(alloc, name)?)),
        Err(FetchError::Memory) => Err(PackError::Memory),
    }
}

/// Puts the digest of the next variant, which no earlier one may have.
fn put(builder: &mut TitleBuilder, place: u32, symbol: u8, digest: &Digest) -> Result<(), PackError>
    requires place { place < places builder.old.design }
    requires symbol { symbol < symbols builder.old.design }
    requires begun { IsBegun builder.old (cell_of builder.old.design place symbol) }
    ensures { PutsAs result builder.old builder.new (cell_of builder.old.design place symbol)
        digest.now.bytes }
{
    match builder.add(place, symbol, digest) {
        Ok(()) => Ok(()),
        Err(AddError::Twice) => unreachable!(),
        Err(
            AddError::Duplicate {
                place: earlier_place,
                symbol: earlier_symbol,
            },
        ) => Err(PackError::Duplicate {
            place: earlier_place,
            symbol: earlier_symbol,
            again_place: place,
            again_symbol: symbol,
        }),
        Err(AddError::Memory) => Err(PackError::Memory),
    }
}
