//! The whole sample.

ghost use Rattle.std.specs.Prelude.{◌≡◌, ◌+◌, ◌≤◌, ℕ, IfOk, None};
ghost use Rattle.coalition_terms.specs.Coalition.{IsTraced};
ghost use Rattle.desk_terms.specs.Bounds.{tracing_bound};
ghost use Rattle.desk_terms.specs.Roll.{roll_of};
ghost use Rattle.list_decode.specs.Answers.{CostsAtMost};
ghost use Rattle.sample_terms.specs.Copies.{word_of};
ghost use Rattle.sample_terms.specs.Inputs.{register_of, title_of, twins, variants};
ghost use Rattle.sample_terms.specs.Numbers.{coalition};
ghost use Rattle.sample_terms.specs.Summary.{sampled, summary_of};
ghost use Rattle.sample_maker.specs.Answers.{SamplesAs};
ghost use Rattle.sample_maker.specs.Copying.{copy_of};
ghost use Rattle.sample_maker.specs.Holding.{HoldsVariants};

use crate::copying::{copy_of, word_over};
use crate::error::SampleError;
use crate::numbers::{first_member, second_member, third_member};
use crate::playlists::list_for;
use crate::register::register_of;
use crate::summary::summary;
use crate::titling::title_over;
use crate::tracing::findings_of;
use gs_params::Interpolate;
use lic_register::Register;
use lists::Memory;
use m3u8_text::MediaList;
use shelf_io::MemShelf;
use std::alloc::Global;
use steps::{Looks, Products, Steps};
use title_store::Title;

/// The summary of the sample of this number: a register of 1,000 licensees, a title of 64 places and a copy that three of them
/// put together, and whom the desk accuses. It goes the whole way on a store in memory of its own.
#[tactic(auto, unfolding(sample_terms::specs::Summary::sampled))]
pub fn sample<I: Interpolate, P: Products, Q: Looks>(
    alloc: Global,
    number: u64,
    by: &I,
    prods: &mut Steps<P>,
    looks: &mut Steps<Q>,
) -> Result<Vec<u8>, SampleError>
    // The summary, or the first two variants that have one digest, exactly where there are two.
    ensures answer { SamplesAs result (sampled number) }
    // Everyone who is accused is of the coalition, and somebody is.
    ensures traced { IfOk result (λ _. IsTraced (roll_of (register_of number))
        (word_of number) 3 (coalition number)) }
    ensures products { (curve : ℕ) → CostsAtMost I.cost 3 3 30 curve
        → prods.new ≤ prods.old + tracing_bound curve 64 3 3 + 1152 }
    ensures looks { looks.new ≤ looks.old + 76 }
{
    let mut shelf = MemShelf::new(alloc);
    match title_over(alloc, number, &mut shelf) {
        Ok(title) => match traced(alloc, number, &mut shelf, &title, by, prods, looks) {
            Ok(text) => Ok(text),
            Err(Memory) => Err(SampleError::Memory),
        },
        Err(error) => Err(error),
    }
}

/// The summary where no two variants have one digest.
fn traced<I: Interpolate, P: Products, Q: Looks>(
    alloc: Global,
    number: u64,
    shelf: &mut MemShelf,
    title: &Title,
    by: &I,
    prods: &mut Steps<P>,
    looks: &mut Steps<Q>,
) -> Result<Vec<u8>, Memory>
    requires alone { twins number variants ≡ None }
    requires held { HoldsVariants number shelf.old.blobs variants }
    requires title { title.now ≡ title_of number }
    ensures summary { IfOk result (λ text. text.items ≡ summary_of number) }
    ensures traced { IfOk result (λ _. IsTraced (roll_of (register_of number))
        (word_of number) 3 (coalition number)) }
    ensures products { (curve : ℕ) → CostsAtMost I.cost 3 3 30 curve
        → prods.new ≤ prods.old + tracing_bound curve 64 3 3 + 576 }
    ensures looks { looks.new ≤ looks.old + 73 }
{
    let register = register_of(alloc, number)?;
    let _licensees = register.len();
    let copy = mixed_copy(alloc, number, title, &register, prods, looks)?;
    let word = word_over(alloc, number, shelf, title, &copy)?;
    let found = findings_of(alloc, &register, &word, by, prods, looks)?;
    let text = summary(alloc, number, &found)?;
    Ok(text)
}

/// The copy that the three members put together from the playlists that they get.
fn mixed_copy<P: Products, Q: Looks>(
    alloc: Global,
    number: u64,
    title: &Title,
    register: &Register,
    prods: &mut Steps<P>,
    looks: &mut Steps<Q>,
) -> Result<MediaList, Memory>
    requires title { title.now ≡ title_of number }
    requires register { register.now ≡ register_of number }
    ensures copy { IfOk result (λ copy. copy ≡ copy_of number 30) }
    ensures products { prods.new ≤ prods.old + 576 }
    ensures looks { looks.new ≤ looks.old + 6 }
{
    let one = first_member(number);
    let two = second_member(number);
    let three = third_member(number);
    let first = list_for(alloc, number, title, register, one, prods, looks)?;
    let second = list_for(alloc, number, title, register, two, prods, looks)?;
    let third = list_for(alloc, number, title, register, three, prods, looks)?;
    copy_of(alloc, number, &first, &second, &third)
}
