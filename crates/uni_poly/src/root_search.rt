//! The roots of a polynomial.

ghost use Rattle.std.specs.Prelude.{◌≡◌, ◌+◌, ◌*◌, ◌<◌, ◌≤◌, length, IfOk};
ghost use Rattle.uni_poly.specs.Roots.{IsRootList};

use crate::poly::Poly;
use gf2m::{Elements, Field, Products, Steps};
use lists::{Items, Memory};
use std::alloc::{AllocError, Global};

impl<F: Field> Poly<F> {
    /// All roots, each once, in ascending order of their numbers. Of the zero polynomial all elements are roots.
    pub fn roots<P: Products>(
        &self,
        alloc: Global,
        prods: &mut Steps<P>,
    ) -> Result<Elements<F>, Memory>
        ensures value { IfOk result (λ roots. IsRootList F.ring F.number self.now roots) }
        // a polynomial that is not zero has no more than its degree says
        ensures few { 0 < length self.now → IfOk result (λ roots. length roots < length self.now) }
        ensures products { prods.new ≤ prods.old + F.Q * length self.now }
    {
        let mut roots = Vec::with_capacity(alloc, self.as_slice().len())?;
        'elements: for number in 0..F::Q {
            let element = element::<F>(number);
            if self.eval(element, prods) == F::zero() {
                roots.push(element)?;
            }
        }
        Ok(Items::over(roots))
    }
}

/// The element with this number.
fn element<F: Field>(number: u32) -> F
    requires { number < F.Q }
    ensures { F.number result ≡ number }
{
    F::of(number as u8).unwrap()
}
