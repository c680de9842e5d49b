//! A walk over pairs, at each place of which a message's symbol is computed once.

ghost use Rattle.std.specs.Prelude.{◌≡◌, ℕ, ◌+◌, ◌*◌, ◌^◌, ◌<◌, ◌≤◌};
ghost use Rattle.code_terms.specs.Symbols.{symbol_of};
ghost use Rattle.pair_terms.specs.Pairs.{fits};

use gf2m::{Field, Products, Steps};
use rs_code::{Code, Message};

/// Where a walk stands.
#[derive(Clone, Copy)]
pub(crate) struct Walk {
    /// How many places are passed.
    pub(crate) passed: u32,
    /// The message's symbol at the last of them.
    pub(crate) symbol: u8,
}

/// Whether the message fits this pair, which stands at the last place passed or a later one.
pub(crate) fn fits<F: Field, P: Products>(
    code: &Code<F>,
    message: Message,
    place: u32,
    shown: u8,
    walk: &mut Walk,
    prods: &mut Steps<P>,
) -> bool
    requires place { place < code.now.places }
    requires message { message < 2 ^ (F.BITS * code.now.dimension) }
    requires ahead { walk.old.passed ≤ place + 1 }
    requires symbol { (last : ℕ) → walk.old.passed ≡ last + 1
        → walk.old.symbol ≡ symbol_of F.BITS code.now.dimension message last }
    ensures value { result ≡ fits F.BITS code.now.dimension message (place, shown) }
    ensures passed { walk.new.passed ≡ place + 1 }
    ensures symbol { walk.new.symbol ≡ symbol_of F.BITS code.now.dimension message place }
    ensures products { prods.new + walk.old.passed * code.now.dimension ≤ prods.old
        + walk.new.passed * code.now.dimension }
{
    let _places = code.n();
    if place + 1 != walk.passed {
        walk.symbol = code.symbol(message, place, prods).to();
        walk.passed = place + 1;
    }
    shown == walk.symbol
}
