//! Solutions, from the rows that elimination has finished.

ghost use Rattle.std.specs.Prelude.{◌≡◌, ◌≢◌, ◌↔◌, IsTrue, ℕ, ◌+◌, ◌*◌, ◌<◌, ◌≤◌, length, IfSome, IfOk, IsNone, slice_index, slice_index_or};
ghost use Rattle.algebra.specs.Lists.{coefficients};
ghost use Rattle.system_terms.specs.Systems.{Solves, row_times};
ghost use Rattle.linear_solve.specs.Pivots.{ArePivots, rows_of, columns_of, settled};
ghost use Rattle.linear_solve.specs.Tables.{entries};

use crate::pivot::Pivot;
use gf2m::{Field, Products, Steps};
use std::alloc::{AllocError, Global};

/// A column that is no pivot's.
pub(crate) fn free_column<F: Field>(pivots: &[Pivot<F>], columns: usize) -> Option<usize>
    ensures some { IfSome result (λ free.
        (free < columns)
        × ((j : ℕ) → j < length pivots.now → slice_index (columns_of pivots.now) j ≢ free)) }
    ensures none { IsNone result → (k : ℕ) → k < columns
        → ((j : ℕ) → j < length pivots.now → slice_index (columns_of pivots.now) j ≢ k) → ⊥ }
{
    for column in 0..columns {
        if is_free(pivots, column) {
            return Some(column);
        }
    }
    None
}

/// Whether the column is no pivot's.
fn is_free<F: Field>(pivots: &[Pivot<F>], column: usize) -> bool
    ensures { IsTrue result ↔ ((j : ℕ) → j < length pivots.now
        → slice_index (columns_of pivots.now) j ≢ column) }
{
    'pivots: for pivot in pivots {
        if pivot.column == column {
            return false;
        }
    }
    true
}

/// The row's sum of products with the vector.
fn row_times<F: Field, P: Products>(row: &[F], vector: &[F], prods: &mut Steps<P>) -> F
    requires { length row.now ≡ length vector.now }
    ensures value { result ≡ row_times F.ring (length row.now) (coefficients F.ring row.now)
        (coefficients F.ring vector.now) }
    ensures products { prods.new ≡ prods.old + length row.now }
{
    let mut sum = F::zero();
    'columns: for k in (0..row.len()).rev() {
        sum = row[k].mul(vector[k], prods).add(sum);
    }
    sum
}

/// The vector with 1 in the free column that the pivots' rows send to zero.
pub(crate) fn solution<F: Field, P: Products>(
    alloc: Global,
    pivots: &[Pivot<F>],
    columns: usize,
    free: usize,
    prods: &mut Steps<P>,
) -> Result<Vec<F>, AllocError>
    requires pivots { ArePivots F.ring columns pivots.now }
    requires inside { free < columns }
    requires free { (j : ℕ) → j < length pivots.now → slice_index (columns_of pivots.now) j ≢ free }
    ensures long { IfOk result (λ vector. length vector.items ≡ columns) }
    ensures solves { IfOk result (λ vector.
        Solves F.ring (length pivots.now) columns (entries F.ring (rows_of pivots.now)) (coefficients F.ring vector.items)) }
    ensures one { IfOk result (λ vector. coefficients F.ring vector.items free ≡ F.ring.unit) }
    ensures products { prods.new ≤ prods.old + length pivots.now * (columns + 1) }
{
    let mut vector = vec![in alloc; F::zero(); columns]?;
    vector[free] = F::one();
    'pivots: for j in (0..pivots.len()).rev() {
        settle(&pivots[j], &mut vector, prods);
    }
    Ok(vector)
}

/// Changes the vector in the pivot's column so that the pivot's row sends it to zero.
fn settle<F: Field, P: Products>(pivot: &Pivot<F>, vector: &mut Vec<F>, prods: &mut Steps<P>)
    requires column { pivot.now.column < length vector.old.items }
    requires length { length pivot.now.row.items ≡ length vector.old.items }
    ensures value { vector.new.items ≡ settled F.ring pivot.now vector.old.items }
    ensures products { prods.new ≡ prods.old + (length vector.old.items + 1) }
{
    let rest = row_times(&pivot.row, vector, prods);
    let change = rest.mul(pivot.inverse, prods);
    vector[pivot.column] = vector[pivot.column].add(change);
}
