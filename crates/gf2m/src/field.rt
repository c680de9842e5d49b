//! What every field of this project is.

ghost use Rattle.std.specs.Prelude.{
  ◌≡◌,
  ℕ,
  ◌+◌,
  ◌^◌,
  ◌<◌,
  ◌≤◌,
  ◌↔◌,
  IsNone,
  IfSome,
  bit_xor,
  length,
  true,
};
ghost use Rattle.std.specs.Simd.Lanes.{zip2};
ghost use Rattle.algebra.specs.Ring.{IsField, Ring};
ghost use Rattle.gf_terms.specs.Arithmetic.{product};

use steps::{Products, Steps};

/// A field with 2^BITS elements, each of which is shown as a number below 2^BITS.
///
/// Sum and product are those of polynomials over GF(2): bit i of the number is the coefficient of x^i. `ring` has the operations, and `number` is what `to` gives.
pub trait Field: Copy + Eq {
    /// The number of bits of an element, 4 to 8.
    const BITS: u32;

    ghost BITS: { ℕ };

    /// The number of elements, 2^BITS.
    const Q: u32;

    ghost Q: { ℕ };

    ghost number: { Self → ℕ };

    ghost ring: { Ring Self };

    /// The element 0.
    fn zero() -> Self
        ensures { result ≡ ring.nil };

    /// The element 1.
    fn one() -> Self
        ensures { result ≡ ring.unit };

    /// The element with this number; none where no element has it.
    fn of(value: u8) -> Option<Self>
        ensures none { IsNone result ↔ (Q ≤ value) }
        ensures some { IfSome result (λ x. number x ≡ value) };

    /// The element's number.
    fn to(self) -> u8
        ensures { result ≡ number self };

    /// The sum, which is the difference too.
    fn add(self, other: Self) -> Self
        ensures { result ≡ ring.plus self other };

    /// The product.
    fn mul<P: Products>(self, other: Self, prods: &mut Steps<P>) -> Self
        ensures value { result ≡ ring.times self other }
        ensures ticks { prods.new ≡ prods.old + 1 };

    /// What gives 1 when it is multiplied by this element; none for 0.
    fn inv<P: Products>(self, prods: &mut Steps<P>) -> Option<Self>
        ensures none { IsNone result ↔ (self ≡ ring.nil) }
        ensures some { IfSome result (λ x. ring.times self x ≡ ring.unit) }
        ensures ticks { prods.new ≡ prods.old + 1 };

    /// Adds `factor` times each element of `source` to the element of `target` at the same place: as many products as elements.
    fn add_multiple<P: Products>(
        target: &mut [Self],
        source: &[Self],
        factor: Self,
        prods: &mut Steps<P>,
    )
        requires { length target.old ≡ length source.now }
        ensures value { target.new ≡ zip2 (λ x y. ring.plus x (ring.times factor y)) target.old
            source.now }
        ensures ticks { prods.new ≡ prods.old + length source.now };

    ghost field: { IsField ring };

    ghost number_plus: { (x y : Self) → number (ring.plus x y) ≡ bit_xor (number x) (number y) };

    ghost number_times: { (x y : Self) → number (ring.times x y) ≡ product BITS (number x) (number y) };

    ghost number_nil: { number ring.nil ≡ 0 };

    ghost number_unit: { number ring.unit ≡ 1 };

    ghost least_bits: { 4 ≤ BITS };

    ghost most_bits: { BITS ≤ 8 };

    ghost size: { Q ≡ 2 ^ BITS };

    ghost below: { (x : Self) → number x < Q };

    ghost same: { (x y : Self) → number x ≡ number y → x ≡ y };

    ghost equal: { (x y : Self) → (Self.eq x y ≡ true) ↔ (number x ≡ number y) };

    ghost every: { (n : ℕ) → n < Q → (x : Self) × (number x ≡ n) };
}
