//! The y-roots of a curve as messages, of which those stay that fit enough of the pairs.

ghost use Rattle.std.specs.Prelude.{◌≡◌, ℕ, ◌+◌, ◌*◌, ◌^◌, ◌<◌, ◌≤◌, [], ◌∷◌, ◌++◌, All, IfOk, OnOk, filter, if◌then◌else◌, length, map, nat_le};
ghost use Rattle.code_terms.specs.Symbols.{packed};
ghost use Rattle.pair_terms.specs.Pairs.{ArePairs};
ghost use Rattle.pair_terms.specs.Recovery.{fits_enough};

use gf2m::{Elements, Field, Items, Products, Steps};
use lists::Memory;
use rs_code::{Code, Message};
use shown_pairs::fitting_count;
use std::alloc::{AllocError, Global};
use uni_poly::Poly;

/// The messages with these coefficients that meet the threshold, in the same order.
pub fn kept<F: Field, P: Products>(
    alloc: Global,
    code: &Code<F>,
    pairs: &[(u32, u8)],
    c: u32,
    roots: &[Poly<F>],
    prods: &mut Steps<P>,
) -> Result<Vec<Message>, Memory>
    requires pairs { ArePairs code.now.places pairs.now }
    requires few { length pairs.now ≤ 1024 }
    requires bound { c ≤ 8 }
    requires short { All (λ root. length root ≤ code.now.dimension) roots.now }
    ensures value { IfOk result (λ messages. messages.items
        ≡ filter (fits_enough F.BITS code.now.dimension pairs.now c)
        (map (λ root. packed F.BITS (map F.number root)) roots.now)) }
    ensures products { prods.new ≤ prods.old
        + length roots.now * (code.now.places * code.now.dimension) }
{
    let mut messages = Vec::new(alloc);
    'roots: for i in 0..roots.len() {
        let message = message_of(alloc, code, &roots[i])?;
        let keeps = meets(code, pairs, c, message, prods);
        keep(&mut messages, message, keeps)?;
    }
    Ok(messages)
}

/// Puts the message behind the others where it is one of them.
fn keep(messages: &mut Vec<Message>, message: Message, keeps: bool) -> Result<(), AllocError>
    ensures { OnOk result (messages.new.items
        ≡ messages.old.items ++ (if keeps then message ∷ [] else [])) }
{
    if keeps {
        messages.push(message)?;
    }
    Ok(())
}

/// The message with these coefficients.
fn message_of<F: Field>(alloc: Global, code: &Code<F>, root: &Poly<F>) -> Result<Message, Memory>
    requires { length root.now ≤ code.now.dimension }
    ensures value { IfOk result (λ message. message ≡ packed F.BITS (map F.number root.now)) }
    ensures small { IfOk result (λ message. message < 2 ^ (F.BITS * code.now.dimension)) }
{
    let mut coefs = Vec::with_capacity(alloc, root.as_slice().len())?;
    coefs.extend_from_slice(root.as_slice())?;
    let coefs: Elements<F> = Items::over(coefs);
    Ok(code.pack(&coefs))
}

/// Whether the message fits at least a c-th part of the pairs.
fn meets<F: Field, P: Products>(
    code: &Code<F>,
    pairs: &[(u32, u8)],
    c: u32,
    message: Message,
    prods: &mut Steps<P>,
) -> bool
    requires pairs { ArePairs code.now.places pairs.now }
    requires few { length pairs.now ≤ 1024 }
    requires bound { c ≤ 8 }
    requires message { message < 2 ^ (F.BITS * code.now.dimension) }
    ensures value { result ≡ fits_enough F.BITS code.now.dimension pairs.now c message }
    ensures products { prods.new ≤ prods.old + code.now.places * code.now.dimension }
{
    let count = fitting_count(code, message, pairs, prods) as u64;
    pairs.len() as u64 <= count * c as u64
}
