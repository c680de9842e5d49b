//! Elimination, row by row.

ghost use Rattle.std.specs.Prelude.{◌≡◌, ◌≢◌, ◌+◌, ◌-◌, ◌*◌, ◌<◌, ◌≤◌, length, map, IfSome, IfOk, IsNone, slice_index_or, []};
ghost use Rattle.algebra.specs.Lists.{coefficients};
ghost use Rattle.system_terms.specs.Systems.{IsZero, IsRank};
ghost use Rattle.linear_solve.specs.Pivots.{ArePivots, HaveSameSolutions};
ghost use Rattle.linear_solve.specs.Tables.{cleared, entries, HaveLength};

use crate::pivot::Pivot;
use gf2m::{Field, Products, Steps};
use std::alloc::{AllocError, Global};

/// Takes the rows out from the last to the first, and clears those that are left in the column of the row's first entry
/// that is not zero.
pub(crate) fn eliminate<F: Field, P: Products>(
    alloc: Global,
    mut rows: Vec<Vec<F>>,
    columns: usize,
    prods: &mut Steps<P>,
) -> Result<Vec<Pivot<F>>, AllocError>
    requires { HaveLength columns (map (λ row. row.items) rows.items) }
    ensures pivots { IfOk result (λ pivots. ArePivots F.ring columns pivots.items) }
    ensures solutions { IfOk result (λ pivots.
        HaveSameSolutions F.ring columns (map (λ row. row.items) rows.items) [] pivots.items) }
    ensures rank { IfOk result (λ pivots.
        IsRank F.ring
        (length (map (λ row. row.items) rows.items))
        columns
        (entries F.ring (map (λ row. row.items) rows.items))
        (length pivots.items)) }
    ensures count { IfOk result (λ pivots. length pivots.items ≤ length rows.items) }
    ensures products { prods.new ≤ prods.old
        + length rows.items * (1 + (length rows.items - 1) * (1 + columns)) }
{
    let mut pivots = Vec::with_capacity(alloc, rows.len().min(columns))?;
    'rows: while let Some(row) = rows.pop() {
        if let Some(column) = leading(&row) {
            let inverse = inverse_at(&row, column, prods);
            clear_all(&mut rows, &row, column, inverse, prods);
            pivots.push(Pivot {
                row,
                column,
                inverse,
            })?;
        }
    }
    Ok(pivots)
}

/// The first column in which the row is not zero; none for a row of zeros.
fn leading<F: Field>(row: &[F]) -> Option<usize>
    ensures none { IsNone result → IsZero F.ring (length row.now) (coefficients F.ring row.now) }
    ensures some { IfSome result (λ column. (column < length row.now)
        × (coefficients F.ring row.now column ≢ F.ring.nil)) }
    ensures first { IfSome result (λ column. IsZero F.ring column (coefficients F.ring row.now)) }
{
    'columns: for (column, entry) in row.iter().enumerate() {
        if *entry != F::zero() {
            return Some(column);
        }
    }
    None
}

/// The inverse of the row's entry in the column.
fn inverse_at<F: Field, P: Products>(row: &[F], column: usize, prods: &mut Steps<P>) -> F
    requires column { column < length row.now }
    requires entry { coefficients F.ring row.now column ≢ F.ring.nil }
    ensures inverse { F.ring.times (coefficients F.ring row.now column) result ≡ F.ring.unit }
    ensures products { prods.new ≤ prods.old + 1 }
{
    row[column].inv(prods).unwrap()
}

/// Clears the row in the pivot's column.
fn clear<F: Field, P: Products>(
    row: &mut Vec<F>,
    pivot: &[F],
    column: usize,
    inverse: F,
    prods: &mut Steps<P>,
)
    requires column { column < length row.old.items }
    requires length { length row.old.items ≡ length pivot.now }
    ensures cleared { row.new.items ≡ cleared F.ring pivot.now column inverse row.old.items }
    ensures products { prods.new ≤ prods.old + (1 + length pivot.now) }
{
    let factor = row[column].mul(inverse, prods);
    F::add_multiple(row, pivot, factor, prods);
}

/// Clears all rows in the pivot's column.
fn clear_all<F: Field, P: Products>(
    rows: &mut [Vec<F>],
    pivot: &[F],
    column: usize,
    inverse: F,
    prods: &mut Steps<P>,
)
    requires column { column < length pivot.now }
    requires lengths { HaveLength (length pivot.now) (map (λ row. row.items) rows.old) }
    ensures cleared { map (λ row. row.items) rows.new
        ≡ map (cleared F.ring pivot.now column inverse) (map (λ row. row.items) rows.old) }
    ensures products { prods.new ≤ prods.old + length rows.old * (1 + length pivot.now) }
{
    'rows: for row in rows.iter_mut() {
        clear(row, pivot, column, inverse, prods);
    }
}
