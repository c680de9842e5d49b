//! A word in two rows, so that many of its places are compared at once.

ghost use Rattle.std.specs.Prelude.{◌≡◌, ℕ, ◌+◌, ◌≤◌, List, Option, length};
ghost use Rattle.code_terms.specs.Words.{agreement_of};
ghost use Rattle.decoder_terms.specs.Decoding.{meets_threshold};
ghost use Rattle.report_check.specs.Shown.{AreSlots, HasSlots, HasSymbols, agreement_below};

use crate::rows::PLACES;
use rs_code::Word;

/// A word: at each place a symbol, and whether it is known; and how many places can be read.
#[derive(Drop)]
pub(crate) struct Slots {
    pub(crate) places: u32,
    pub(crate) readable: u32,
    pub(crate) symbols: [u8; PLACES],
    pub(crate) known: [bool; PLACES],
    ghost short: { places ≤ 256 },
}

impl Slots {
    /// The slots of a word.
    pub(crate) fn of(word: &Word) -> Slots
        ensures { AreSlots word.now result.places result.readable result.symbols result.known }
    {
        let places = word.len();
        let mut symbols = [0; PLACES];
        let mut known = [false; PLACES];
        for place in 0..places {
            if let Some(symbol) = word.get(place) {
                symbols[place as usize] = symbol;
                known[place as usize] = true;
            }
        }
        Slots {
            places,
            readable: word.readable(),
            symbols,
            known,
        }
    }

    /// Whether enough of these symbols are the word's for the threshold of this bound.
    pub(crate) fn meets(&self, symbols: &[u8; PLACES], bound: u32) -> bool
        requires { bound ≤ 8 }
        ensures { (m k u : ℕ) (word : List (Option ℕ))
            → AreSlots word self.now.places self.now.readable self.now.symbols self.now.known
            → HasSymbols m k u (length word) symbols.now
            → result ≡ meets_threshold m k word bound u }
    {
        self.readable <= self.agreement(symbols) * bound
    }

    /// In how many places the word has these symbols.
    fn agreement(&self, symbols: &[u8; PLACES]) -> u32
        ensures few { result ≤ 256 }
        ensures value { (m k u : ℕ) (word : List (Option ℕ)) → length word ≡ self.now.places
            → HasSlots word self.now.symbols self.now.known
            → HasSymbols m k u (length word) symbols.now → result ≡ agreement_of m k u word }
    {
        let mut count = 0;
        for group in 0..self.places.div_ceil(16) {
            count += u32::from(self.sixteen(symbols, 16 * group as usize));
        }
        count
    }

    /// In how many of the sixteen places from `start` on the word has these symbols.
    fn sixteen(&self, symbols: &[u8; PLACES], start: usize) -> u8
        requires { start ≤ 240 }
        ensures few { result ≤ 16 }
        ensures value { (m k u : ℕ) (word : List (Option ℕ)) → length word ≡ self.now.places
            → HasSlots word self.now.symbols self.now.known
            → HasSymbols m k u (length word) symbols.now
            → agreement_below m k u word start + result ≡ agreement_below m k u word (start + 16) }
    {
        let mut count: u8 = 0;
        for offset in 0..16usize {
            let place = start + offset;
            let agrees = self.known[place] & (self.symbols[place] == symbols[place]);
            count += u8::from(agrees);
        }
        count
    }
}
