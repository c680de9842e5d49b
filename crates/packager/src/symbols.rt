//! The symbols of a licensee.

ghost use Rattle.std.specs.Prelude.{◌≡◌, ◌+◌, ◌*◌, ◌^◌, ◌<◌, ◌≤◌, IfOk};
ghost use Rattle.code_terms.specs.Words.{codeword_of};
ghost use Rattle.title_terms.specs.Designs.{places};
ghost use Rattle.title_terms.specs.Titles.{IsTitle};

use code_terms::Message;
use gf2m::{Field, Products, Steps};
use lists::Memory;
use rs_code::{Code, Word};
use std::alloc::Global;
use title_store::Title;

/// The symbols of a message at the places of the title, in order.
pub(crate) fn symbols_of<F: Field, P: Products>(
    alloc: Global,
    title: &Title,
    message: Message,
    prods: &mut Steps<P>,
) -> Result<Word, Memory>
    requires field { F.BITS ≡ title.now.design.bits }
    requires message { message < 2 ^ (F.BITS * title.now.design.dimension) }
    ensures symbols { IfOk result (λ word. word
        ≡ codeword_of F.BITS title.now.design.dimension message (places title.now.design)) }
    ensures valid { IsTitle title.now }
    ensures products { prods.new
        ≤ prods.old + places title.now.design * title.now.design.dimension }
{
    let code = Code::<F>::new(title.places(), title.dimension()).unwrap();
    code.codeword(alloc, message, prods)
}
