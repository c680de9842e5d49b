//! Tables of powers.

ghost use Rattle.std.specs.Prelude.{◌≡◌, ◌+◌, ◌<◌, ◌≤◌, length, IfOk};
ghost use Rattle.algebra.specs.Bivariate.{weight};
ghost use Rattle.bi_poly.specs.Rows.{ArePowers};

use gf2m::{Field, Products, Steps};
use std::alloc::{AllocError, Global};

/// The first powers of an element, from the power 0 on.
pub fn powers<F: Field, P: Products>(
    alloc: Global,
    element: F,
    count: usize,
    prods: &mut Steps<P>,
) -> Result<Vec<F>, AllocError>
    ensures count { IfOk result (λ powers. length powers.items ≡ count) }
    ensures powers { IfOk result (λ powers. ArePowers F.ring element powers.items) }
    ensures products { prods.new ≤ prods.old + count }
{
    let mut powers = Vec::with_capacity(alloc, count)?;
    let mut power = F::one();
    'powers: for _k in 0..count {
        powers.push(power)?;
        power = element.mul(power, prods);
    }
    Ok(powers)
}

/// The derivative of this order of x^exponent at the element whose powers these are.
pub fn power_derivative<F: Field>(powers: &[F], exponent: usize, order: usize) -> F
    requires { exponent < length powers.now }
    ensures { (element : F) → ArePowers F.ring element powers.now
        → result ≡ weight F.ring element exponent order }
{
    if exponent & order == order {
        powers[exponent - order]
    } else {
        F::zero()
    }
}
