//! Values of polynomials, and division by x + a.

ghost use Rattle.std.specs.Prelude.{◌≡◌, ◌+◌, ◌≤◌, length, IfOk};
ghost use Rattle.algebra.specs.Lists.{coefficients};
ghost use Rattle.algebra.specs.Series.{value};
ghost use Rattle.uni_poly.specs.Division.{IsDivision};

use crate::arithmetic::zeros;
use crate::poly::Poly;
use gf2m::{Field, Products, Steps};
use lists::Memory;
use std::alloc::Global;

impl<F: Field> Poly<F> {
    /// The value at this element.
    pub fn eval<P: Products>(&self, at: F, prods: &mut Steps<P>) -> F
        ensures value { result ≡ value F.ring (length self.now) (coefficients F.ring self.now) at }
        ensures products { prods.new ≤ prods.old + length self.now }
    {
        let coefs = self.as_slice();
        let mut value = F::zero();
        'coefficients: for i in (0..coefs.len()).rev() {
            value = value.mul(at, prods).add(coefs[i]);
        }
        value
    }

    /// The quotient by x + a, and the rest.
    pub fn div_linear<P: Products>(
        &self,
        alloc: Global,
        a: F,
        prods: &mut Steps<P>,
    ) -> Result<(Poly<F>, F), Memory>
        ensures value { IfOk result (λ parts. IsDivision F.ring self.now a parts.0 parts.1) }
        ensures products { prods.new ≤ prods.old + length self.now }
    {
        let coefs = self.as_slice();
        let mut quotient = zeros(alloc, coefs.len())?;
        let mut rest = F::zero();
        'coefficients: for i in (0..coefs.len()).rev() {
            quotient[i] = rest;
            rest = rest.mul(a, prods).add(coefs[i]);
        }
        Ok((Poly::over(quotient), rest))
    }
}
