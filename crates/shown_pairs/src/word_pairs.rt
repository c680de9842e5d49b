//! The pairs of a word.

ghost use Rattle.std.specs.Prelude.{◌≡◌, ◌++◌, IfOk, OnOk};
ghost use Rattle.pair_terms.specs.Pairs.{pair_at, pairs_of};

use lists::Memory;
use rs_code::Word;
use std::alloc::{AllocError, Global};

/// The pairs of the word's readable places, in order. The only error is want of memory.
pub fn pairs_of(alloc: Global, word: &Word) -> Result<Vec<(u32, u8)>, Memory>
    ensures { IfOk result (λ pairs. pairs.items ≡ pairs_of word.now) }
{
    let mut pairs = Vec::new(alloc);
    'places: for place in 0..word.len() {
        add_slot(&mut pairs, place, word.get(place))?;
    }
    Ok(pairs)
}

/// Puts the pair of this slot behind the others, if it holds a symbol.
fn add_slot(pairs: &mut Vec<(u32, u8)>, place: u32, slot: Option<u8>) -> Result<(), AllocError>
    ensures { OnOk result (pairs.new.items ≡ pairs.old.items ++ pair_at place slot) }
{
    if let Some(symbol) = slot {
        pairs.push((place, symbol))?;
    }
    Ok(())
}
