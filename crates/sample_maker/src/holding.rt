//! The variants of a sample, held in a store.

ghost use Rattle.std.specs.Prelude.{◌≡◌, ◌+◌, ◌<◌, ◌≤◌, IfOk, OnOk};
ghost use Rattle.std.specs.FinMap.{insert};
ghost use Rattle.packaging_terms.specs.Variants.{blob_of};
ghost use Rattle.sample_terms.specs.Inputs as inputs;
ghost use Rattle.sample_maker.specs.Holding.{HoldsVariants, bytes_of};

use designs::Design;
use lists::{Memory, Text};
use shelf_io::MemShelf;
use std::alloc::Global;

/// Holds so many of the variants under their names, place by place and at each place symbol by symbol.
pub(crate) fn hold_variants(
    alloc: Global,
    shelf: &mut MemShelf,
    design: &Design,
    number: u64,
    count: u32,
) -> Result<(), Memory>
    requires design { design.now ≡ inputs.design }
    requires few { count ≤ 16384 }
    ensures { OnOk result (HoldsVariants number shelf.new.blobs count) }
{
    for variant in 0..count {
        hold_variant(alloc, shelf, design, number, variant)?;
    }
    Ok(())
}

/// Holds one variant under its name.
fn hold_variant(
    alloc: Global,
    shelf: &mut MemShelf,
    design: &Design,
    number: u64,
    variant: u32,
) -> Result<(), Memory>
    requires { design.now ≡ inputs.design }
    ensures { OnOk result (shelf.new.blobs
        ≡ insert shelf.old.blobs (blob_of inputs.design variant) (bytes_of number variant)) }
{
    let name = blob_name(alloc, design, variant)?;
    let text = variant_text(alloc, number, variant / 256, variant % 256)?;
    shelf.hold(name.as_str(), text.as_str().as_bytes())
}

/// The name of a variant's blob.
fn blob_name(alloc: Global, design: &Design, variant: u32) -> Result<Text, Memory>
    requires { design.now ≡ inputs.design }
    ensures { IfOk result (λ name. name ≡ blob_of inputs.design variant) }
{
    design.variant_name(alloc, variant / 256, (variant % 256) as u8)
}

/// What is held of a variant.
fn variant_text(alloc: Global, number: u64, place: u32, symbol: u32) -> Result<Text, Memory>
    ensures { IfOk result (λ text. text ≡ inputs.variant_text number place symbol) }
{
    Ok(Text::over(format!(in alloc; "{number}/{place}/{symbol}")?))
}
