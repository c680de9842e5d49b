//! Where a message fits pairs.

ghost use Rattle.std.specs.Prelude.{◌≡◌, ◌+◌, ◌*◌, ◌^◌, ◌<◌, ◌≤◌, [], ◌∷◌, ◌++◌, IfOk, OnOk, if◌then◌else◌, length};
ghost use Rattle.pair_terms.specs.Pairs.{ArePairs, fitting_count, fitting_places};

use crate::walk::{Walk, fits};
use gf2m::{Field, Products, Steps};
use lists::{Items, Memory};
use rs_code::{Code, Message, Places};
use std::alloc::{AllocError, Global};

/// How many of the pairs, at most 1024, the message fits. Its symbol is computed once at each place.
pub fn fitting_count<F: Field, P: Products>(
    code: &Code<F>,
    message: Message,
    pairs: &[(u32, u8)],
    prods: &mut Steps<P>,
) -> u32
    requires pairs { ArePairs code.now.places pairs.now }
    requires few { length pairs.now ≤ 1024 }
    requires message { message < 2 ^ (F.BITS * code.now.dimension) }
    ensures value { result ≡ fitting_count F.BITS code.now.dimension message pairs.now }
    ensures few { result ≤ length pairs.now }
    ensures products { prods.new ≤ prods.old + code.now.places * code.now.dimension }
{
    let mut walk = Walk {
        passed: 0,
        symbol: 0,
    };
    let mut count: u32 = 0;
    'pairs: for i in 0..pairs.len() {
        let (place, shown) = pairs[i];
        let hit = fits(code, message, place, shown, &mut walk, prods);
        count += hit as u32;
    }
    count
}

/// The places where the message fits the pairs, in ascending order. Its symbol is computed once at each place.
pub fn fitting_places<F: Field, P: Products>(
    alloc: Global,
    code: &Code<F>,
    message: Message,
    pairs: &[(u32, u8)],
    prods: &mut Steps<P>,
) -> Result<Places, Memory>
    requires pairs { ArePairs code.now.places pairs.now }
    requires message { message < 2 ^ (F.BITS * code.now.dimension) }
    ensures value { IfOk result (λ places. places
        ≡ fitting_places F.BITS code.now.dimension message pairs.now) }
    ensures products { prods.new ≤ prods.old + code.now.places * code.now.dimension }
{
    let _places = code.n();
    let mut walk = Walk {
        passed: 0,
        symbol: 0,
    };
    let mut places = Vec::new(alloc);
    'pairs: for i in 0..pairs.len() {
        let (place, shown) = pairs[i];
        let hit = fits(code, message, place, shown, &mut walk, prods);
        push_if(&mut places, place as u16, hit)?;
    }
    Ok(Items::over(places))
}

/// Puts the place behind the others where it is one of them.
fn push_if(places: &mut Vec<u16>, place: u16, is_one: bool) -> Result<(), AllocError>
    ensures { OnOk result (places.new.items
        ≡ places.old.items ++ (if is_one then place ∷ [] else [])) }
{
    if is_one {
        places.push(place)?;
    }
    Ok(())
}
