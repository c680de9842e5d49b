//! Rows of coefficients, one for each power of y.

ghost use Rattle.std.specs.Prelude.{◌≡◌, ◌≢◌, ℕ, ◌+◌, ◌<◌, ◌≤◌, length, OnOk};
ghost use Rattle.bi_poly.specs.Rows.{cell, row_at};

use crate::row::Row;
use gf2m::Field;
use std::alloc::{AllocError, Global};

/// The coefficient of x^i y^j.
pub(crate) fn cell<F: Field>(rows: &[Row<F>], i: usize, j: usize) -> F
    ensures { result ≡ cell F.ring rows.now i j }
{
    match rows.get(j) {
        Some(row) => row.coef(i),
        None => F::zero(),
    }
}

/// How many rows there are up to the last with a coefficient that is not zero.
pub(crate) fn height<F: Field>(rows: &[Row<F>]) -> usize
    ensures within { result ≤ length rows.now }
    ensures zeros { (i j : ℕ) → result ≤ j → cell F.ring rows.now i j ≡ F.ring.nil }
    ensures last { (j : ℕ) → result ≡ j + 1 → (i : ℕ) × (cell F.ring rows.now i j ≢ F.ring.nil) }
{
    'rows: for j in (0..rows.len()).rev() {
        if !rows[j].trimmed().is_empty() {
            return j + 1;
        }
    }
    0
}

/// Makes so many rows, by empty ones at the end.
pub(crate) fn grow_rows<F: Field>(
    rows: &mut Vec<Row<F>>,
    alloc: Global,
    count: usize,
) -> Result<(), AllocError>
    ensures same { (i j : ℕ) → cell F.ring rows.new.items i j ≡ cell F.ring rows.old.items i j }
    ensures ok { OnOk result (count ≤ length rows.new.items) }
{
    'rows: for _row in rows.len()..count {
        rows.push(Row::empty(alloc))?;
    }
    Ok(())
}
