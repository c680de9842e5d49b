//! Multiples of one polynomial added to another.

ghost use Rattle.std.specs.Prelude.{◌≡◌, ℕ, ◌+◌, ◌<◌, ◌≤◌, length, OnOk, OnErr};
ghost use Rattle.std.specs.FinMap.{empty};
ghost use Rattle.algebra.specs.Lists.{coefficients};
ghost use Rattle.algebra.specs.Roots.{total};
ghost use Rattle.bi_poly.specs.Results.{IsMapOf, plus_multiple, row_total};
ghost use Rattle.bi_poly.specs.Rows.{HaveRoom, cell, row_at};

use crate::bivariate::BiPoly;
use crate::row::Row;
use crate::rows::{grow_rows, height};
use gf2m::{Field, Products, Steps};
use lists::Memory;
use std::alloc::AllocError;

impl<F: Field> BiPoly<F> {
    /// Adds the factor times the other polynomial. The only error is want of memory.
    pub fn add_multiple<P: Products>(
        &mut self,
        other: &BiPoly<F>,
        factor: F,
        prods: &mut Steps<P>,
    ) -> Result<(), Memory>
        ensures ok { OnOk result (IsMapOf F.number (plus_multiple F.ring self.old factor other.now)
            self.new) }
        ensures err { OnErr result (self.new ≡ self.old) }
        // for each power of y of the other polynomial up to the greatest, one more than the greatest power of x beside it
        ensures products { prods.new ≤ prods.old + row_total 1 other.now }
        ensures none { other.now ≡ empty → prods.new ≡ prods.old }
    {
        let height = height(&other.rows);
        grow_rows(&mut self.rows, self.alloc, height)?;
        grow_all(&mut self.rows, &other.rows, height)?;
        add_rows(&mut self.rows, &other.rows, height, factor, prods);
        Ok(())
    }
}

/// Makes the first rows as long as those of the others are without zeros at their ends.
fn grow_all<F: Field>(
    rows: &mut Vec<Row<F>>,
    others: &[Row<F>],
    count: usize,
) -> Result<(), AllocError>
    requires rows { count ≤ length rows.old.items }
    requires others { count ≤ length others.now }
    ensures same { (i j : ℕ) → cell F.ring rows.new.items i j ≡ cell F.ring rows.old.items i j }
    ensures count { length rows.new.items ≡ length rows.old.items }
    ensures ok { OnOk result (HaveRoom F.ring others.now count rows.new.items) }
{
    'rows: for j in 0..count {
        rows[j].grow(others[j].trimmed().len())?;
    }
    Ok(())
}

/// Adds the factor times the first of the others to the first rows.
fn add_rows<F: Field, P: Products>(
    rows: &mut Vec<Row<F>>,
    others: &[Row<F>],
    count: usize,
    factor: F,
    prods: &mut Steps<P>,
)
    requires rows { count ≤ length rows.old.items }
    requires others { count ≤ length others.now }
    requires room { HaveRoom F.ring others.now count rows.old.items }
    ensures sums { (i j : ℕ) → j < count →
        cell F.ring rows.new.items i j
        ≡ F.ring.plus (cell F.ring rows.old.items i j)
        (F.ring.times factor (cell F.ring others.now i j)) }
    ensures same { (i j : ℕ) → count ≤ j
        → cell F.ring rows.new.items i j ≡ cell F.ring rows.old.items i j }
    ensures products { (most : ℕ → ℕ)
        → ((i j : ℕ) → most j ≤ i → cell F.ring others.now i j ≡ F.ring.nil)
        → prods.new ≤ prods.old + total count most }
    ensures none { count ≡ 0 → prods.new ≡ prods.old }
{
    'rows: for j in 0..count {
        rows[j].add_shifted(others[j].trimmed(), factor, 0, prods);
    }
}
