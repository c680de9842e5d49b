//! The coefficients that stand with one power of y.

ghost use Rattle.std.specs.Prelude.{◌≡◌, ℕ, ◌+◌, ◌<◌, ◌≤◌, length, drop, set, IfOk, OnOk, [], ◌++◌, replicate};
ghost use Rattle.algebra.specs.Lists.{IsListOf, coefficients};

use gf2m::{Field, Products, Steps};
use std::alloc::{AllocError, Global};
use std::marker::Model;
use uni_poly::{add_shifted, trimmed};

// Coefficients by the power of x, the lowest first. There may be zeros at the end.
#[derive(Drop)]
pub(crate) struct Row<F: Field> {
    coefs: Vec<F>,
}

impl<F: Field> Model for Row<F> {
    ghost use Rattle.std.specs.Prelude.{List};

    ghost Value = { List F };

    ghost view = { λ row. row.coefs.items };
}

impl<F: Field> Row<F> {
    /// The row without coefficients.
    pub(crate) fn empty(alloc: Global) -> Row<F>
        ensures { result ≡ [] }
    {
        Row {
            coefs: Vec::new(alloc),
        }
    }

    /// The row with these coefficients, which it takes over.
    pub(crate) fn over(coefs: Vec<F>) -> Row<F>
        ensures { result ≡ coefs.items }
    {
        Row { coefs }
    }

    /// The same row in memory of its own.
    pub(crate) fn copy(&self, alloc: Global) -> Result<Row<F>, AllocError>
        ensures { IfOk result (λ row. row ≡ self.now) }
    {
        let mut coefs = Vec::with_capacity(alloc, self.coefs.len())?;
        coefs.extend_from_slice(self.coefs.as_slice())?;
        Ok(Row { coefs })
    }

    /// The coefficients, the one without x first; the last may be zero.
    pub(crate) fn as_slice(&self) -> &[F]
        ensures { result.now ≡ self.now }
    {
        self.coefs.as_slice()
    }

    /// The coefficients without zeros at the end.
    pub(crate) fn trimmed(&self) -> &[F]
        ensures { IsListOf F.ring (coefficients F.ring self.now) result.now }
    {
        trimmed(self.coefs.as_slice())
    }

    /// The coefficient of x^i, which is zero past the end.
    pub(crate) fn coef(&self, i: usize) -> F
        ensures { result ≡ coefficients F.ring self.now i }
    {
        match self.coefs.get(i) {
            Some(coef) => *coef,
            None => F::zero(),
        }
    }

    /// Makes the row so long, by zeros at the end.
    pub(crate) fn grow(&mut self, len: usize) -> Result<(), AllocError>
        ensures same { (k : ℕ) → coefficients F.ring self.new k ≡ coefficients F.ring self.old k }
        ensures ok { OnOk result (len ≤ length self.new) }
    {
        if self.coefs.len() < len {
            self.coefs.resize(len, F::zero())?;
        }
        Ok(())
    }

    /// Puts the value in place of the coefficient of x^i.
    pub(crate) fn put(&mut self, i: usize, value: F)
        requires { i < length self.old }
        ensures { self.new ≡ set self.old i value }
    {
        self.coefs[i] = value;
    }

    /// Adds the factor times x^at times these coefficients.
    pub(crate) fn add_shifted<P: Products>(
        &mut self,
        source: &[F],
        factor: F,
        at: usize,
        prods: &mut Steps<P>,
    )
        requires { at + length source.now ≤ length self.old }
        ensures length { length self.new ≡ length self.old }
        ensures before { (k : ℕ) → k < at
            → coefficients F.ring self.new k ≡ coefficients F.ring self.old k }
        ensures from { (k : ℕ) →
            coefficients F.ring self.new (at + k)
            ≡ F.ring.plus
            (coefficients F.ring self.old (at + k))
            (F.ring.times factor (coefficients F.ring source.now k)) }
        ensures products { prods.new ≡ prods.old + length source.now }
    {
        add_shifted(self.coefs.as_mut_slice(), source, factor, at, prods);
    }

    /// Drops the first coefficients.
    pub(crate) fn drop_first(&mut self, count: usize)
        requires { count ≤ length self.old }
        ensures { self.new ≡ drop count self.old }
    {
        self.coefs.rotate_left(count);
        self.coefs.truncate(self.coefs.len() - count);
    }
}
