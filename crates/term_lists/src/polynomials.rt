//! From lists of coefficients to polynomials.

ghost use Rattle.std.specs.Prelude.{◌≡◌, ◌<◌, ◌≤◌, ℕ, length, IfOk};
ghost use Rattle.algebra.specs.Roots.{AreDifferent};
ghost use Rattle.term_lists.specs.Places.{exponents_at};
ghost use Rattle.term_lists.specs.Polynomials.{HasTerms};

use crate::exponents::Exponents;
use bi_poly::BiPoly;
use gf2m::Field;
use lists::Memory;
use std::alloc::Global;

/// The polynomial in which each term that stands in the list has the coefficient at the same place. The only error is want
/// of memory.
pub fn polynomial_of<F: Field>(
    alloc: Global,
    terms: &[Exponents],
    coefs: &[F],
) -> Result<BiPoly<F>, Memory>
    requires few { length coefs.now ≤ length terms.now }
    requires x { (k : ℕ) → k < length terms.now → (exponents_at terms.now k).x < 4096 }
    requires y { (k : ℕ) → k < length terms.now → (exponents_at terms.now k).y < 4096 }
    requires different { AreDifferent (length terms.now) (exponents_at terms.now) }
    ensures { IfOk result (λ q. HasTerms F.ring terms.now coefs.now (length coefs.now) q) }
{
    let mut q = BiPoly::zero(alloc);
    'terms: for k in 0..coefs.len() {
        let term = terms[k];
        q.set(term.x, term.y, coefs[k])?;
    }
    Ok(q)
}
