//! The shift that takes Q(x, y) to Q(x, x y + g).

ghost use Rattle.std.specs.Prelude.{
  ◌≡◌,
  ◌≢◌,
  ℕ,
  ◌+◌,
  ◌-◌,
  ◌*◌,
  ◌<◌,
  ◌≤◌,
  if◌then◌else◌,
  length,
  IfOk,
  OnOk,
};
ghost use Rattle.algebra.specs.Binomials.{has_bits};
ghost use Rattle.std.specs.FinMap.{empty};
ghost use Rattle.algebra.specs.Bivariate.{greatest, shift_of, weight, x_power, y_power};
ghost use Rattle.algebra.specs.Lists.{coefficients};
ghost use Rattle.algebra.specs.Sums.{power, sum_below};
ghost use Rattle.bi_poly.specs.Results.{IsMapOf, shift_bound};
ghost use Rattle.bi_poly.specs.Rows.{ArePowers, cell};

use crate::bivariate::BiPoly;
use crate::row::Row;
use crate::rows::height;
use gf2m::{Field, Products, Steps};
use lists::Memory;
use std::alloc::{AllocError, Global};

impl<F: Field> BiPoly<F> {
    /// Q(x, x y + g). The only error is want of memory.
    pub fn shift<P: Products>(&self, g: F, prods: &mut Steps<P>) -> Result<BiPoly<F>, Memory>
        requires { greatest x_power self.now + greatest y_power self.now < 65536 }
        ensures value { IfOk result (λ shifted. IsMapOf F.number (shift_of F.ring self.now g)
            shifted) }
        ensures nonzero { self.now ≢ empty → IfOk result (λ shifted. shifted ≢ empty) }
        ensures products { prods.new ≤ prods.old + shift_bound self.now }
        ensures none { self.now ≡ empty → prods.new ≡ prods.old }
    {
        let powers = powers(self.alloc, g, height(&self.rows), prods)?;
        let mut rows = Vec::with_capacity(self.alloc, powers.len())?;
        'rows: for h in 0..powers.len() {
            rows.push(shifted_row(self.alloc, &self.rows, &powers, h, prods)?)?;
        }
        Ok(BiPoly {
            alloc: self.alloc,
            rows,
        })
    }
}

/// The first powers of g, from g^0 on.
fn powers<F: Field, P: Products>(
    alloc: Global,
    g: F,
    count: usize,
    prods: &mut Steps<P>,
) -> Result<Vec<F>, AllocError>
    ensures count { IfOk result (λ powers. length powers.items ≡ count) }
    ensures each { IfOk result (λ powers. ArePowers F.ring g powers.items) }
    ensures products { prods.new ≤ prods.old + count }
    ensures none { count ≡ 0 → prods.new ≡ prods.old }
{
    let mut powers = Vec::with_capacity(alloc, count)?;
    let mut power = F::one();
    'powers: for _k in 0..count {
        powers.push(power)?;
        power = power.mul(g, prods);
    }
    Ok(powers)
}

/// The row of y^h in Q(x, x y + g), from as many rows as there are powers of g.
fn shifted_row<F: Field, P: Products>(
    alloc: Global,
    rows: &[Row<F>],
    powers: &[F],
    h: usize,
    prods: &mut Steps<P>,
) -> Result<Row<F>, AllocError>
    requires inside { h < length powers.now }
    requires rows { length powers.now ≤ length rows.now }
    requires low { length powers.now ≤ 4096 }
    requires limit { (i j : ℕ) → 65536 ≤ i → cell F.ring rows.now i j ≡ F.ring.nil }
    ensures before { IfOk result (λ row. (k : ℕ) → k < h → coefficients F.ring row k ≡ F.ring.nil) }
    ensures from { (g : F) → ArePowers F.ring g powers.now → IfOk result (λ row. (k : ℕ) →
        coefficients F.ring row (h + k)
        ≡ sum_below F.ring (length powers.now)
        (λ j. F.ring.times (cell F.ring rows.now k j) (weight F.ring g j h))) }
    ensures products { (most : ℕ) → ((i j : ℕ) → most ≤ i → cell F.ring rows.now i j ≡ F.ring.nil)
        → prods.new ≤ prods.old + (length powers.now - 1) * most }
{
    let mut row = raised(alloc, rows[h].trimmed(), h)?;
    'rows: for j in h + 1..powers.len() {
        add_term(&mut row, rows[j].trimmed(), powers[j - h], j, h, prods)?;
    }
    Ok(row)
}

/// x^at times the polynomial with these coefficients.
fn raised<F: Field>(alloc: Global, coefs: &[F], at: usize) -> Result<Row<F>, AllocError>
    ensures before { IfOk result (λ row. (k : ℕ) → k < at
        → coefficients F.ring row k ≡ F.ring.nil) }
    ensures from { IfOk result (λ row. (k : ℕ) →
        coefficients F.ring row (at + k) ≡ coefficients F.ring coefs.now k) }
{
    let mut row = Vec::new(alloc);
    row.resize(at, F::zero())?;
    row.extend_from_slice(coefs)?;
    Ok(Row::over(row))
}

/// Adds the power of g times these coefficients from x^h on, where the binomial of j over h is odd.
fn add_term<F: Field, P: Products>(
    row: &mut Row<F>,
    coefs: &[F],
    power: F,
    j: usize,
    h: usize,
    prods: &mut Steps<P>,
) -> Result<(), AllocError>
    requires { h + length coefs.now < 18446744073709551616 }
    ensures before { (k : ℕ) → k < h
        → coefficients F.ring row.new k ≡ coefficients F.ring row.old k }
    ensures from { OnOk result ((k : ℕ) →
        coefficients F.ring row.new (h + k)
        ≡ F.ring.plus
        (coefficients F.ring row.old (h + k))
        (if has_bits j h then F.ring.times power (coefficients F.ring coefs.now k) else F.ring.nil)) }
    ensures products { prods.new ≤ prods.old + length coefs.now }
{
    if j & h == h {
        row.grow(h + coefs.len())?;
        row.add_shifted(coefs, power, h, prods);
    }
    Ok(())
}
