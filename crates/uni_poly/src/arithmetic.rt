//! Sums and products of polynomials.

ghost use Rattle.std.specs.Prelude.{◌≡◌, ℕ, ◌+◌, ◌*◌, ◌<◌, ◌≤◌, length, vec_len, IfOk};
ghost use Rattle.algebra.specs.Lists.{IsListOf, coefficients};
ghost use Rattle.algebra.specs.Series.{product};

use crate::poly::Poly;
use gf2m::{Field, Products, Steps};
use lists::Memory;
use std::alloc::{AllocError, Global};

impl<F: Field> Poly<F> {
    /// The sum, which is the difference too.
    pub fn add(&self, alloc: Global, other: &Poly<F>) -> Result<Poly<F>, Memory>
        ensures { IfOk result (λ sum. IsListOf F.ring
            (λ k. F.ring.plus (coefficients F.ring self.now k) (coefficients F.ring other.now k)) sum) }
    {
        let len = self.as_slice().len().max(other.as_slice().len());
        let mut sum = Vec::with_capacity(alloc, len)?;
        'coefficients: for i in 0..len {
            sum.push(self.coef(i).add(other.coef(i)))?;
        }
        Ok(Poly::over(sum))
    }

    /// The product.
    pub fn mul<P: Products>(
        &self,
        alloc: Global,
        other: &Poly<F>,
        prods: &mut Steps<P>,
    ) -> Result<Poly<F>, Memory>
        ensures value { IfOk result (λ p. IsListOf F.ring
            (product F.ring (coefficients F.ring self.now) (coefficients F.ring other.now)) p) }
        ensures products { prods.new ≤ prods.old + length self.now * length other.now }
    {
        let (left, right) = (self.as_slice(), other.as_slice());
        let len = left.len().checked_add(right.len()).ok_or(Memory)?;
        let mut product = zeros(alloc, len)?;
        add_product(&mut product, left, right, prods);
        Ok(Poly::over(product))
    }
}

/// So many zeros.
pub(crate) fn zeros<F: Field>(alloc: Global, len: usize) -> Result<Vec<F>, AllocError>
    ensures count { IfOk result (λ zeros. vec_len zeros ≡ len) }
    ensures each { IfOk result (λ zeros. (k : ℕ) → coefficients F.ring zeros.items k ≡ F.ring.nil) }
{
    let mut zeros = Vec::with_capacity(alloc, len)?;
    'zeros: for _place in 0..len {
        zeros.push(F::zero())?;
    }
    Ok(zeros)
}

/// Turns zeros into the product of two lists of coefficients.
fn add_product<F: Field, P: Products>(
    target: &mut [F],
    left: &[F],
    right: &[F],
    prods: &mut Steps<P>,
)
    requires room { length target.old ≡ length left.now + length right.now }
    requires zeros { (k : ℕ) → coefficients F.ring target.old k ≡ F.ring.nil }
    ensures value { (k : ℕ) →
        coefficients F.ring target.new k
        ≡ product F.ring (coefficients F.ring left.now) (coefficients F.ring right.now) k }
    ensures products { prods.new ≡ prods.old + length left.now * length right.now }
{
    'factors: for i in (0..left.len()).rev() {
        add_shifted(target, right, left[i], i, prods);
    }
}

/// Adds the factor times x^at times one polynomial to another, both as lists of coefficients with the lowest first.
/// There is no coefficient past the end of `target`, so it has to be long enough.
pub fn add_shifted<F: Field, P: Products>(
    target: &mut [F],
    source: &[F],
    factor: F,
    at: usize,
    prods: &mut Steps<P>,
)
    requires { at + length source.now ≤ length target.old }
    ensures length { length target.new ≡ length target.old }
    ensures before { (k : ℕ) → k < at
        → coefficients F.ring target.new k ≡ coefficients F.ring target.old k }
    ensures from { (k : ℕ) →
        coefficients F.ring target.new (at + k)
        ≡ F.ring.plus
        (coefficients F.ring target.old (at + k))
        (F.ring.times factor (coefficients F.ring source.now k)) }
    ensures products { prods.new ≡ prods.old + length source.now }
{
    F::add_multiple(&mut target[at..at + source.len()], source, factor, prods);
}
