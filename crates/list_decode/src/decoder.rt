//! The decoder.

ghost use Rattle.std.specs.Prelude.{◌≡◌, ℕ, ◌+◌, ◌<◌, ◌≤◌, IfOk, length};
ghost use Rattle.code_terms.specs.Words.{HasSymbolsBelow, readable};
ghost use Rattle.decoder_terms.specs.Bounds.{decoding_bound};
ghost use Rattle.pair_terms.specs.Pairs.{ArePairs, HaveSymbolsBelow};
ghost use Rattle.pair_terms.specs.Recovery.{recovery_bound};
ghost use Rattle.list_decode.specs.Answers.{CostsAtMost, DecodesAs, decoding, recovering};

use crate::candidates::kept;
use crate::decode_error::DecodeError;
use crate::points::points;
use gf2m::{Field, Items, Products, Steps};
use gs_params::{Interpolate, params};
use rr_roots::poly_roots;
use rs_code::{Code, MessageList, Word};
use shown_pairs::pairs_of;
use std::alloc::Global;

/// The messages that fit at least a c-th part of these pairs, in ascending order. Refused, in this order, are a bound that
/// codes of this dimension don't allow, and c² (k - 1) pairs or fewer; the only other error is want of memory.
///
/// It is the decoder of Guruswami and Sudan (1999): a curve is zero at the points of the pairs so often that every such
/// message is one of its y-roots. The pairs are at most 1024, in order of place and then of symbol; the products are at most
/// `recovery_bound`, where the curve costs no more than `curve`.
pub fn recover<F: Field, I: Interpolate, P: Products>(
    alloc: Global,
    code: &Code<F>,
    pairs: &[(u32, u8)],
    c: u32,
    by: &I,
    prods: &mut Steps<P>,
) -> Result<MessageList, DecodeError>
    requires pairs { ArePairs code.now.places pairs.now }
    requires symbols { HaveSymbolsBelow F.Q pairs.now }
    requires few { length pairs.now ≤ 1024 }
    ensures recovered { DecodesAs result (recovering F.BITS code.now.dimension pairs.now c) }
    ensures few { IfOk result (λ messages. length messages < length pairs.now + c) }
    ensures products { (curve : ℕ)
        → CostsAtMost I.cost code.now.dimension c (length pairs.now) curve
        → prods.new ≤ prods.old + recovery_bound curve (length pairs.now) code.now.places code.now.dimension c }
{
    let places = code.n();
    let chosen = params(code.k(), c, pairs.len() as u32)?;
    let points = points(alloc, places, pairs)?;
    let curve = by.curve(alloc, &points, &chosen, prods)?;
    let roots = poly_roots(alloc, &curve, code.k(), prods)?;
    let messages = kept(alloc, code, pairs, c, roots.as_slice(), prods)?;
    Ok(Items::over(messages))
}

/// The messages that agree with at least a c-th part of the word's readable places, in ascending order. Refused, in this
/// order, are a bound that codes of this dimension don't allow, and c² (k - 1) readable places or fewer; the only other error
/// is want of memory.
///
/// The products are at most `decoding_bound`, where the curve costs no more than `curve`.
pub fn decode<F: Field, I: Interpolate, P: Products>(
    alloc: Global,
    code: &Code<F>,
    word: &Word,
    c: u32,
    by: &I,
    prods: &mut Steps<P>,
) -> Result<MessageList, DecodeError>
    requires length { length word.now ≡ code.now.places }
    requires symbols { HasSymbolsBelow F.Q word.now }
    ensures decoded { DecodesAs result (decoding F.BITS code.now.dimension word.now c) }
    ensures few { IfOk result (λ messages. length messages < code.now.places + c) }
    ensures products { (curve : ℕ)
        → CostsAtMost I.cost code.now.dimension c (readable word.now) curve
        → prods.new ≤ prods.old + decoding_bound curve code.now.places code.now.dimension c }
{
    let _places = code.n();
    let pairs = pairs_of(alloc, word)?;
    recover(alloc, code, pairs.as_slice(), c, by, prods)
}
