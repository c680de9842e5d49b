//! A multiple of one slice added to another, sixteen elements at a time.
//!
//! A number below 256 is the exclusive or of a number below 16 and a multiple of 16, so its product with a factor is that of two products out of sixteen each.

ghost use Rattle.std.specs.Prelude.{
  ◌≡◌,
  ℕ,
  ◌+◌,
  ◌*◌,
  ◌/◌,
  ◌%◌,
  ◌^◌,
  ◌<◌,
  ◌≤◌,
  List,
  bit_xor,
  length,
  slice_index,
  slice_index_or,
};
ghost use Rattle.std.specs.Simd.Lanes.{zip2};
ghost use Rattle.gf_terms.specs.Arithmetic.{product};
ghost use Rattle.gf2m.specs.Elements.{with_multiple};
ghost use Rattle.gf2m.specs.Slices.{HasProducts, zipped_below};
ghost use Rattle.gf2m.specs.declared.gf.Gf.{Gf};

use crate::arithmetic::product_of;
use crate::gf::Gf;
use std::simd::prelude::*;
use steps::{Products, Steps};

/// The products of a factor with the numbers below 16.
fn low_products<const M: u32>(factor: u8) -> [u8; 16]
    requires low { 4 ≤ M }
    requires high { M ≤ 8 }
    requires factor { factor < 2 ^ M }
    ensures { (a : ℕ) → a < 16 → slice_index result a ≡ product M factor a }
{
    let mut products = [0u8; 16];
    for (number, product) in products.iter_mut().enumerate() {
        *product = product_of::<M>(factor, number as u8);
    }
    products
}

/// The products of a factor with the multiples of 16 that are elements.
fn high_products<const M: u32>(factor: u8) -> [u8; 16]
    requires low { 4 ≤ M }
    requires high { M ≤ 8 }
    requires factor { factor < 2 ^ M }
    ensures { (b : ℕ) → b < 16 → 16 * b < 2 ^ M → slice_index result b ≡ product M factor (16 * b) }
{
    let mut products = [0u8; 16];
    for (number, product) in products.iter_mut().enumerate() {
        if 16 * number < 1 << M {
            *product = product_of::<M>(factor, (16 * number) as u8);
        }
    }
    products
}

/// The exclusive or of the two products that make each number's.
fn sixteen_products(low: &[u8; 16], high: &[u8; 16], numbers: &[u8; 16]) -> [u8; 16]
    ensures { (k : ℕ) → k < 16 →
        slice_index result k
        ≡ bit_xor (slice_index low.now (slice_index numbers.now k % 16))
        (slice_index high.now (slice_index numbers.now k / 16 % 16)) }
{
    let numbers = u8x16::from_array(*numbers);
    let mask = u8x16::splat(15);
    let low = u8x16::from_array(*low).swizzle_dyn(numbers & mask);
    let high = u8x16::from_array(*high).swizzle_dyn((numbers >> u8x16::splat(4)) & mask);
    (low ^ high).to_array()
}

/// The numbers of sixteen elements in a row.
fn sixteen_numbers<const M: u32>(source: &[Gf<M>], start: usize) -> [u8; 16]
    requires { start + 16 ≤ length source.now }
    ensures { (k : ℕ) (x : Gf M) → k < 16
        → slice_index result k ≡ (slice_index_or source.now (start + k) x).value }
{
    let mut numbers = [0u8; 16];
    for (k, number) in numbers.iter_mut().enumerate() {
        *number = source[start + k].value;
    }
    numbers
}

/// Adds to sixteen elements from `start` on the factor's products with those of `source`.
fn add_sixteen<const M: u32>(
    target: &mut [Gf<M>],
    source: &[Gf<M>],
    start: usize,
    products: &[u8; 16],
    factor: Gf<M>,
)
    requires low { 4 ≤ M }
    requires high { M ≤ 8 }
    requires same { length target.old ≡ length source.now }
    requires room { start + 16 ≤ length source.now }
    requires products { (k : ℕ) (y : Gf M) → k < 16 →
        slice_index products.now k
        ≡ product M factor.value (slice_index_or source.now (start + k) y).value }
    ensures { (low : 4 ≤ M) (high : M ≤ 8) (xs : List (Gf M)) → length xs ≡ length source.now
        → target.old ≡ zipped_below (with_multiple M low high factor.entry) start xs source.now
        → target.new ≡ zipped_below (with_multiple M low high factor.entry) (start
        + 16) xs source.now }
{
    for k in 0..16usize {
        target[start + k] = Gf {
            value: target[start + k].value ^ products[k],
        };
    }
}

/// Adds the multiple to the elements in whole groups of sixteen, and answers how many these are.
fn add_groups<const M: u32>(
    target: &mut [Gf<M>],
    source: &[Gf<M>],
    low: &[u8; 16],
    high: &[u8; 16],
    factor: Gf<M>,
) -> usize
    requires low { 4 ≤ M }
    requires high { M ≤ 8 }
    requires same { length target.old ≡ length source.now }
    requires products { HasProducts M factor.value low.now high.now }
    ensures within { result ≤ length source.now }
    ensures value { (low : 4 ≤ M) (high : M ≤ 8) →
        target.new ≡ zipped_below (with_multiple M low high factor.entry) result target.old source.now }
{
    let groups = source.len() / 16;
    for group in 0..groups {
        let numbers = sixteen_numbers(source, 16 * group);
        let products = sixteen_products(low, high, &numbers);
        add_sixteen(target, source, 16 * group, &products, factor);
    }
    16 * groups
}

/// Adds the multiple to the elements from `start` on, one by one.
fn add_rest<const M: u32>(
    target: &mut [Gf<M>],
    source: &[Gf<M>],
    start: usize,
    low: &[u8; 16],
    high: &[u8; 16],
    factor: Gf<M>,
)
    requires low { 4 ≤ M }
    requires high { M ≤ 8 }
    requires same { length target.old ≡ length source.now }
    requires start { start ≤ length source.now }
    requires products { HasProducts M factor.value low.now high.now }
    ensures { (low : 4 ≤ M) (high : M ≤ 8) (xs : List (Gf M)) → length xs ≡ length source.now
        → target.old ≡ zipped_below (with_multiple M low high factor.entry) start xs source.now
        → target.new ≡ zip2 (with_multiple M low high factor.entry) xs source.now }
{
    for place in start..source.len() {
        let number = source[place].value as usize;
        let product = low[number % 16] ^ high[number / 16];
        target[place] = Gf {
            value: target[place].value ^ product,
        };
    }
}

/// Adds a multiple of each element of `source` to that of `target` at the same place.
pub fn add_multiple<const M: u32, P: Products>(
    target: &mut [Gf<M>],
    source: &[Gf<M>],
    factor: Gf<M>,
    prods: &mut Steps<P>,
)
    requires low { 4 ≤ M }
    requires high { M ≤ 8 }
    requires same { length target.old ≡ length source.now }
    ensures value { (low : 4 ≤ M) (high : M ≤ 8) →
        target.new ≡ zip2 (with_multiple M low high factor.entry) target.old source.now }
    ensures ticks { prods.new ≡ prods.old + length source.now }
{
    prods.add(source.len() as u64);
    let low = low_products::<M>(factor.value);
    let high = high_products::<M>(factor.value);
    let done = add_groups(target, source, &low, &high, factor);
    add_rest(target, source, done, &low, &high, factor);
}
