//! Words: a symbol or an erasure at each place.

ghost use Rattle.std.specs.Prelude.{◌≡◌, ◌<◌, ◌≤◌, [], ◌∷◌, ◌++◌, length, IfSome, IfOk, OnOk};
ghost use Rattle.code_terms.specs.Words.{readable, slot_at};
ghost use Rattle.rs_code.specs.WordShape.{IsWord};

use lists::Memory;
use std::alloc::{AllocError, Global};
use std::marker::Model;

/// A word of at most 256 places: at each place a symbol, or `None` for an erasure.
#[derive(Debug, Drop)]
pub struct Word {
    slots: Vec<Option<u8>>,
}

impl Model for Word {
    ghost use Rattle.std.specs.Prelude.{ℕ, List, Option};
    ghost use Rattle.rs_code.specs.WordShape.{IsWord};

    ghost Value = { List (Option ℕ) };

    ghost view = { λ w. w.slots.items };

    ghost invariant = { λ w. IsWord w.slots.items };
}

impl Word {
    /// The word with these slots, in order.
    pub fn of(alloc: Global, slots: &[Option<u8>]) -> Result<Word, Memory>
        requires { length slots.now ≤ 256 }
        ensures { IfOk result (λ w. w ≡ slots.now) }
    {
        let mut copy = Vec::with_capacity(alloc, slots.len())?;
        for slot in slots {
            append(&mut copy, *slot)?;
        }
        Ok(Word { slots: copy })
    }

    /// The word of these slots, which it takes over.
    pub(crate) fn over(slots: Vec<Option<u8>>) -> Word
        requires { IsWord slots.items }
        ensures { result ≡ slots.items }
    {
        Word { slots }
    }

    /// The number of places, erasures included.
    pub fn len(&self) -> u32
        ensures places { result ≡ length self.now }
        ensures short { result ≤ 256 }
    {
        self.slots.len() as u32
    }

    /// The symbol at this place; `None` at an erasure, and past the end.
    pub fn get(&self, place: u32) -> Option<u8>
        ensures { result ≡ slot_at self.now place }
    {
        *self.slots.get(place as usize)?
    }

    /// How many places are no erasures.
    pub fn readable(&self) -> u32
        ensures { result ≡ readable self.now }
    {
        self.slots.iter().filter(|slot| slot.is_some()).count() as u32
    }
}

/// Puts one more slot behind the others.
pub(crate) fn append(slots: &mut Vec<Option<u8>>, slot: Option<u8>) -> Result<(), AllocError>
    ensures appended { OnOk result (slots.new.items ≡ slots.old.items ++ slot ∷ []) }
    ensures byte { IfSome slot (λ v. v < 256) }
{
    slots.push(slot)?;
    Ok(())
}
