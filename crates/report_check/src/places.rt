//! Where a message and a word agree, counted without taking memory.

ghost use Rattle.std.specs.Prelude.{◌≡◌, ◌+◌, ◌*◌, ◌^◌, ◌<◌, ◌≤◌, length, true, drop};
ghost use Rattle.std.specs.Str.{bytes_eq};
ghost use Rattle.code_terms.specs.Words.{agrees, places_of};
ghost use Rattle.decoder_terms.specs.Decoding.{meets_threshold};
ghost use Rattle.decoding_terms.specs.Parameters.{is_allowed_bound};
ghost use Rattle.report_check.specs.Walks.{place_after};

use code_terms::Message;
use gf2m::Field;
use rs_code::{Code, Word};
use steps::{Products, Steps};

/// Whether these are all places where the message and the word agree, in ascending order.
pub(crate) fn has_places<F: Field, P: Products>(
    places: &[u16],
    message: Message,
    code: &Code<F>,
    word: &Word,
    prods: &mut Steps<P>,
) -> bool
    requires length { length word.now ≡ code.now.places }
    requires message { message < 2 ^ (F.BITS * code.now.dimension) }
    ensures value { result
        ≡ bytes_eq places.now (places_of F.BITS code.now.dimension message word.now) }
    ensures products { prods.new ≤ prods.old + code.now.places * code.now.dimension }
{
    let mut position = 0;
    'places: for place in 0..code.n() {
        match place_after(places, position, place, message, code, word, prods) {
            Some(next) => position = next,
            None => return false,
        }
    }
    position == places.len()
}

/// The position in the list behind this place of the word; `None` where message and word agree there and the list has another
/// place or none.
fn place_after<F: Field, P: Products>(
    places: &[u16],
    position: usize,
    place: u32,
    message: Message,
    code: &Code<F>,
    word: &Word,
    prods: &mut Steps<P>,
) -> Option<usize>
    requires place { place < code.now.places }
    requires message { message < 2 ^ (F.BITS * code.now.dimension) }
    ensures position { result ≡ place_after (drop position places.now) position
        (agrees F.BITS code.now.dimension message word.now place) place }
    ensures products { prods.new ≤ prods.old + code.now.dimension }
{
    if !agrees(message, code, word, place, prods) {
        return Some(position);
    }
    match places.get(position) {
        Some(listed) if u32::from(*listed) == place => Some(position + 1),
        _ => None,
    }
}

/// Whether the word has the message's symbol at this place.
fn agrees<F: Field, P: Products>(
    message: Message,
    code: &Code<F>,
    word: &Word,
    place: u32,
    prods: &mut Steps<P>,
) -> bool
    requires place { place < code.now.places }
    requires message { message < 2 ^ (F.BITS * code.now.dimension) }
    ensures value { result ≡ agrees F.BITS code.now.dimension message word.now place }
    ensures products { prods.new ≤ prods.old + code.now.dimension }
{
    match word.get(place) {
        Some(symbol) => symbol == code.symbol(message, place, prods).to(),
        None => false,
    }
}

/// Whether the message meets the threshold of this bound.
pub(crate) fn meets<F: Field, P: Products>(
    message: Message,
    code: &Code<F>,
    word: &Word,
    bound: u32,
    prods: &mut Steps<P>,
) -> bool
    requires length { length word.now ≡ code.now.places }
    requires message { message < 2 ^ (F.BITS * code.now.dimension) }
    requires bound { is_allowed_bound code.now.dimension bound ≡ true }
    ensures value { result ≡ meets_threshold F.BITS code.now.dimension word.now bound message }
    ensures products { prods.new ≤ prods.old + code.now.places * code.now.dimension }
{
    let _places = word.len();
    let agreement = code.agreement(message, word, prods);
    word.readable() <= agreement * bound
}
