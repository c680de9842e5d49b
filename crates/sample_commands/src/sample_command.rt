//! `sample`: a large input that is made from a number, and whom the desk accuses in it.

ghost use Rattle.std.specs.Prelude.{◌≡◌};
ghost use Rattle.outcome_terms.specs.SampleCommand.{sample, sample_trace};
ghost use Rattle.outcome_terms.specs.Stores.{Settles, seen};
ghost use Rattle.outcome_terms.specs.Traces.{IsWithin};
ghost use Rattle.trace_costs.specs.Costs.{curve_costs};
ghost use Rattle.sample_commands.specs.Refusals.{HasSymbols, refused_as};

use gs_params::Interpolate;
use outcome_terms::{Fault, Refusal};
use sample_maker::{SampleError, sample};
use std::alloc::Global;
use steps::{Looks, Products, Steps};

/// The line that sums the sample of this number up. It reads no blob.
pub fn sample_text<I: Interpolate, P: Products, Q: Looks>(
    alloc: Global,
    number: u64,
    by: &I,
    prods: &mut Steps<P>,
    looks: &mut Steps<Q>,
) -> Result<Vec<u8>, Refusal>
    ensures summary { Settles (seen (λ text. text.items) result) (sample number) }
    ensures steps { IsWithin (curve_costs I.cost) sample_trace
        (record { products = prods.old; looks = looks.old })
        (record { products = prods.new; looks = looks.new }) }
{
    match sample(alloc, number, by, prods, looks) {
        Ok(text) => Ok(text),
        Err(error) => Err(refusal(error)),
    }
}

/// What the command is refused with, where there is no summary.
fn refusal(error: SampleError) -> Refusal
    ensures refused { result ≡ refused_as error }
    ensures symbols { HasSymbols error }
{
    match error {
        SampleError::Duplicate {
            place,
            symbol,
            again_place,
            again_symbol,
        } => Refusal::Content(Fault::Duplicate {
            place,
            symbol,
            again_place,
            again_symbol,
        }),
        SampleError::Memory => Refusal::Memory,
    }
}
