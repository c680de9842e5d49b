//! The title of a sample.

ghost use Rattle.std.specs.Prelude.{◌≡◌, ◌+◌, ◌*◌, IfOk, Some};
ghost use Rattle.sample_terms.specs.Inputs.{variants};
ghost use Rattle.sample_maker.specs.Answers.{IsFree, TitlesAs, told_twins, twins_in};
ghost use Rattle.sample_maker.specs.Holding.{HoldsVariants};

use crate::error::SampleError;
use crate::holding::hold_variants;
use crate::source::{design, source};
use packager::{PackError, make_title};
use shelf_io::MemShelf;
use std::alloc::Global;
use title_store::Title;

/// Fills the store with all variants, and makes the title of them.
pub(crate) fn title_over(
    alloc: Global,
    number: u64,
    shelf: &mut MemShelf,
) -> Result<Title, SampleError>
    ensures answer { TitlesAs result number }
    ensures held { IfOk result (λ _. HoldsVariants number shelf.new.blobs variants) }
{
    let design = design(alloc)?;
    let source = source(alloc)?;
    hold_variants(alloc, shelf, &design, number, 16384)?;
    match make_title(alloc, shelf, design, source) {
        Ok(title) => Ok(title),
        Err(error) => Err(sample_error(error)),
    }
}

/// What is answered where no title is made. A store in memory of which no call is to fail has no failed read; if one came, it would
/// be told as want of memory.
fn sample_error(error: PackError) -> SampleError
    requires { IsFree error }
    ensures { twins_in result ≡ told_twins error }
{
    match error {
        PackError::Duplicate {
            place,
            symbol,
            again_place,
            again_symbol,
        } => duplicate((place, symbol), (again_place, again_symbol)),
        PackError::Fault(_) => SampleError::Memory,
        PackError::Memory => SampleError::Memory,
        _ => unreachable!(),
    }
}

/// What is answered where these two variants, each a place and a symbol, have one digest.
fn duplicate(earlier: (u32, u8), later: (u32, u8)) -> SampleError
    ensures { twins_in result
        ≡ Some (earlier.0 * 256 + earlier.1, later.0 * 256 + later.1) }
{
    SampleError::Duplicate {
        place: earlier.0,
        symbol: earlier.1,
        again_place: later.0,
        again_symbol: later.1,
    }
}
