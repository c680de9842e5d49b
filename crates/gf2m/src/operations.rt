//! The operations of `Field` on `Gf<M>`, for every M at once.

ghost use Rattle.std.specs.Prelude.{
  ◌≡◌,
  ◌^◌,
  ◌+◌,
  ◌<◌,
  ◌≤◌,
  ◌↔◌,
  IsNone,
  IfSome,
  length,
};
ghost use Rattle.gf2m.specs.Elements.{nil, plus, times, unit};

use crate::arithmetic::{inverse_of, product_of};
use crate::gf::Gf;
use steps::{Products, Steps};

/// The element 0.
pub fn zero<const M: u32>() -> Gf<M>
    requires low { 4 ≤ M }
    requires high { M ≤ 8 }
    ensures { (low : 4 ≤ M) (high : M ≤ 8) → result ≡ nil M low high }
{
    Gf { value: 0 }
}

/// The element 1.
pub fn one<const M: u32>() -> Gf<M>
    requires low { 4 ≤ M }
    requires high { M ≤ 8 }
    ensures { (low : 4 ≤ M) (high : M ≤ 8) → result ≡ unit M low high }
{
    Gf { value: 1 }
}

/// The element with this number; none where no element has it.
pub fn element_of<const M: u32>(value: u8) -> Option<Gf<M>>
    requires low { 4 ≤ M }
    requires high { M ≤ 8 }
    ensures none { IsNone result ↔ (2 ^ M ≤ value) }
    ensures some { IfSome result (λ x. x.value ≡ value) }
{
    if (value as u32) < 1 << M {
        Some(Gf { value })
    } else {
        None
    }
}

/// The sum of two elements.
pub fn sum<const M: u32>(x: Gf<M>, y: Gf<M>) -> Gf<M>
    ensures { result ≡ plus M x.entry y.entry }
{
    Gf {
        value: x.value ^ y.value,
    }
}

/// The product of two elements, which counts as one.
pub fn product<const M: u32, P: Products>(x: Gf<M>, y: Gf<M>, prods: &mut Steps<P>) -> Gf<M>
    requires low { 4 ≤ M }
    requires high { M ≤ 8 }
    ensures value { (low : 4 ≤ M) (high : M ≤ 8) → result ≡ times M low high x.entry y.entry }
    ensures ticks { prods.new ≡ prods.old + 1 }
{
    prods.tick();
    Gf {
        value: product_of::<M>(x.value, y.value),
    }
}

/// The inverse of an element, which counts as one product; none for 0.
pub fn inverse<const M: u32, P: Products>(x: Gf<M>, prods: &mut Steps<P>) -> Option<Gf<M>>
    requires low { 4 ≤ M }
    requires high { M ≤ 8 }
    ensures none { (low : 4 ≤ M) (high : M ≤ 8) → IsNone result ↔ (x.entry ≡ nil M low high) }
    ensures some { (low : 4 ≤ M) (high : M ≤ 8) →
        IfSome result (λ y. times M low high x.entry y ≡ unit M low high) }
    ensures ticks { prods.new ≡ prods.old + 1 }
{
    prods.tick();
    if x.value == 0 {
        return None;
    }
    Some(Gf {
        value: inverse_of::<M>(x.value),
    })
}
