//! Polynomials as lists of coefficients.

ghost use Rattle.std.specs.Prelude.{◌≡◌, ◌≢◌, ℕ, ◌+◌, ◌≤◌, length, IfOk, MatchOption, []};
ghost use Rattle.algebra.specs.Lists.{IsListOf, IsTrimmed, coefficients};

use gf2m::Field;
use lists::Memory;
use std::alloc::Global;
use std::marker::Model;

/// A polynomial, which contracts see as the list of its coefficients, the lowest first, without zeros at the end.
#[derive(Drop)]
pub struct Poly<F: Field> {
    coefs: Vec<F>,
}

impl<F: Field> Model for Poly<F> {
    ghost use Rattle.std.specs.Prelude.{List};
    ghost use Rattle.algebra.specs.Lists.{IsTrimmed};

    ghost Value = { List F };

    ghost view = { λ p. p.coefs.items };

    ghost invariant = { λ p. IsTrimmed F.ring p.coefs.items };
}

impl<F: Field> Poly<F> {
    /// The polynomial with these coefficients, the lowest first. Zeros at the end are dropped.
    pub fn from(alloc: Global, coefs: &[F]) -> Result<Poly<F>, Memory>
        ensures { IfOk result (λ p. IsListOf F.ring (coefficients F.ring coefs.now) p) }
    {
        let mut copy = Vec::with_capacity(alloc, coefs.len())?;
        copy.extend_from_slice(coefs)?;
        Ok(Poly::over(copy))
    }

    /// The polynomial with these coefficients, which it takes over.
    pub(crate) fn over(mut coefs: Vec<F>) -> Poly<F>
        ensures { IsListOf F.ring (coefficients F.ring coefs.items) result }
    {
        let len = significant(coefs.as_slice());
        coefs.truncate(len);
        Poly { coefs }
    }

    /// All coefficients, the lowest first, without zeros at the end.
    pub fn as_slice(&self) -> &[F]
        ensures value { result.now ≡ self.now }
        ensures trimmed { IsTrimmed F.ring self.now }
    {
        self.coefs.as_slice()
    }

    /// The coefficient of x^i, which is zero past the end.
    pub fn coef(&self, i: usize) -> F
        ensures { result ≡ coefficients F.ring self.now i }
    {
        match self.coefs.get(i) {
            Some(coef) => *coef,
            None => F::zero(),
        }
    }

    /// The greatest power with a coefficient that is not zero; none for the zero polynomial.
    pub fn degree(&self) -> Option<usize>
        ensures { MatchOption result (self.now ≡ [])
            (λ d. (length self.now ≡ d + 1) × (coefficients F.ring self.now d ≢ F.ring.nil)) }
    {
        self.coefs.len().checked_sub(1)
    }
}

/// The same coefficients without the zeros at the end.
pub fn trimmed<F: Field>(coefs: &[F]) -> &[F]
    ensures { IsListOf F.ring (coefficients F.ring coefs.now) result.now }
{
    &coefs[..significant(coefs)]
}

/// How many coefficients are left when zeros at the end are dropped.
fn significant<F: Field>(coefs: &[F]) -> usize
    ensures within { result ≤ length coefs.now }
    ensures zeros { (k : ℕ) → result ≤ k → coefficients F.ring coefs.now k ≡ F.ring.nil }
    ensures last { (k : ℕ) → result ≡ k + 1 → coefficients F.ring coefs.now k ≢ F.ring.nil }
{
    'zeros: for i in (0..coefs.len()).rev() {
        if coefs[i] != F::zero() {
            return i + 1;
        }
    }
    0
}
