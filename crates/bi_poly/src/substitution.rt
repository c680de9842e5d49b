//! Polynomials put in place of y, and zero in place of x.

ghost use Rattle.std.specs.Prelude.{◌≡◌, ℕ, IfOk, OnOk};
ghost use Rattle.algebra.specs.Bivariate.{IsWithin, coefficient, substituted};
ghost use Rattle.algebra.specs.Lists.{IsListOf, coefficients};

use crate::bivariate::BiPoly;
use gf2m::{Field, Products, Steps};
use lists::Memory;
use uni_poly::Poly;

impl<F: Field> BiPoly<F> {
    /// Q(x, f(x)). The only error is want of memory.
    pub fn substitute<P: Products>(
        &self,
        f: &Poly<F>,
        prods: &mut Steps<P>,
    ) -> Result<Poly<F>, Memory>
        ensures { IfOk result (λ p. IsListOf F.ring
            (substituted F.ring self.now (coefficients F.ring f.now)) p) }
    {
        let mut value = Poly::from(self.alloc, &[])?;
        'rows: for j in (0..self.rows.len()).rev() {
            let row = Poly::from(self.alloc, self.rows[j].as_slice())?;
            value = value.mul(self.alloc, f, prods)?.add(self.alloc, &row)?;
        }
        Ok(value)
    }

    /// Q(0, y), as a polynomial in y. The only error is want of memory.
    pub fn at_zero(&self) -> Result<Poly<F>, Memory>
        ensures value { IfOk result
            (λ p. IsListOf F.ring (λ j. coefficient F.ring self.now 0 j) p) }
        ensures limits { OnOk result (IsWithin 65536 4096 self.now) }
    {
        let mut column = Vec::with_capacity(self.alloc, self.rows.len())?;
        'rows: for j in 0..self.rows.len() {
            column.push(self.rows[j].coef(0))?;
        }
        Ok(Poly::from(self.alloc, &column)?)
    }
}
