//! Matrices.

ghost use Rattle.std.specs.Prelude.{◌≡◌, ◌↔◌, ◌+◌, ◌*◌, ◌<◌, ◌≤◌, length, map, replicate, set, IfOk, IfSome, IsNone, slice_index_or, []};
ghost use Rattle.algebra.specs.Lists.{coefficients};
ghost use Rattle.system_terms.specs.Systems.{IsRank, IsZero, OnlyZeroSolves, Solves};
ghost use Rattle.linear_solve.specs.Tables.{HaveLength, entries};

use crate::elimination::eliminate;
use crate::solution::{free_column, solution};
use gf2m::{Elements, Field, Products, Steps};
use lists::{Items, Memory};
use std::alloc::{AllocError, Global};
use std::marker::Model;

/// A matrix over the field `F` with at least one row and one column and at most 150,000,000 entries, which contracts see
/// as the number of its columns and the list of its rows. Rows and columns are counted from 0.
#[derive(Drop)]
pub struct Matrix<F: Field> {
    columns: usize,
    rows: Vec<Vec<F>>,
}

impl<F: Field> Model for Matrix<F> {
    ghost use Rattle.std.specs.Prelude.{map};
    ghost use Rattle.linear_solve.specs.Tables.{Table, IsTable};

    ghost Value = { Table F };

    ghost view = { λ m. record { columns = m.columns; rows = map (λ row. row.items) m.rows.items } };

    ghost invariant = { λ m. IsTable (record { columns = m.columns; rows = map (λ row. row.items) m.rows.items }) };
}

impl<F: Field> Matrix<F> {
    /// The matrix of zeros with these numbers of rows and columns. The only error is want of memory.
    pub fn zeros(alloc: Global, rows: usize, cols: usize) -> Result<Matrix<F>, Memory>
        requires rows { 1 ≤ rows }
        requires columns { 1 ≤ cols }
        requires few { rows * cols ≤ 150000000 }
        ensures { IfOk result (λ matrix.
            matrix ≡ record { columns = cols; rows = replicate rows (replicate cols F.ring.nil) }) }
    {
        let mut lines = Vec::new(alloc);
        'rows: for _row in 0..rows {
            lines.push(zero_row(alloc, cols)?)?;
        }
        Ok(Matrix {
            columns: cols,
            rows: lines,
        })
    }

    /// The matrix with these rows, of which each has one entry for each column.
    pub fn from_rows(cols: usize, rows: Vec<Vec<F>>) -> Matrix<F>
        requires rows { 1 ≤ length rows.items }
        requires columns { 1 ≤ cols }
        requires few { length rows.items * cols ≤ 150000000 }
        requires even { HaveLength cols (map (λ row. row.items) rows.items) }
        ensures { result ≡ record { columns = cols; rows = map (λ row. row.items) rows.items } }
    {
        Matrix {
            columns: cols,
            rows,
        }
    }

    /// Puts the value in the row and the column in place of the entry there.
    pub fn set(&mut self, row: usize, col: usize, value: F)
        requires row { row < length self.old.rows }
        requires column { col < self.old.columns }
        ensures columns { self.new.columns ≡ self.old.columns }
        ensures rows { self.new.rows ≡ set self.old.rows row
            (set (slice_index_or self.old.rows row []) col value) }
    {
        self.rows[row][col] = value;
    }

    /// The entry in the row and the column.
    pub fn get(&self, row: usize, col: usize) -> F
        requires row { row < length self.now.rows }
        requires column { col < self.now.columns }
        ensures { result ≡ entries F.ring self.now.rows row col }
    {
        self.rows[row][col]
    }

    /// A vector that every row sends to zero: one that is not zero, where there is one. The only error is want of memory.
    pub fn kernel<P: Products>(
        self,
        alloc: Global,
        prods: &mut Steps<P>,
    ) -> Result<Option<Elements<F>>, Memory>
        ensures length { IfOk result (λ found. IfSome found (λ x. length x ≡ self.columns)) }
        ensures solves { IfOk result (λ found. IfSome found (λ x.
            Solves F.ring (length self.rows) self.columns (entries F.ring self.rows) (coefficients F.ring x))) }
        ensures nonzero { IfOk result (λ found. IfSome found (λ x.
            IsZero F.ring self.columns (coefficients F.ring x) → ⊥)) }
        ensures none { IfOk result (λ found.
            IsNone found ↔ OnlyZeroSolves F.ring (length self.rows) self.columns (entries F.ring self.rows)) }
        ensures wide { length self.rows < self.columns → IfOk result (λ found. IsNone found → ⊥) }
        ensures products { prods.new ≤ prods.old
            + 3 * (length self.rows * length self.rows) * self.columns }
    {
        let Matrix { columns, rows } = self;
        let pivots = eliminate(alloc, rows, columns, prods)?;
        let Some(free) = free_column(&pivots, columns) else {
            return Ok(None);
        };
        let vector = solution(alloc, &pivots, columns, free, prods)?;
        Ok(Some(Items::over(vector)))
    }

    /// The rank: how many rows the longest list of independent rows has. The only error is want of memory.
    pub fn rank<P: Products>(self, alloc: Global, prods: &mut Steps<P>) -> Result<usize, Memory>
        ensures rank { IfOk result (λ rank.
            IsRank F.ring (length self.rows) self.columns (entries F.ring self.rows) rank) }
        ensures products { prods.new ≤ prods.old
            + 3 * (length self.rows * length self.rows) * self.columns }
    {
        let Matrix { columns, rows } = self;
        let pivots = eliminate(alloc, rows, columns, prods)?;
        Ok(pivots.len())
    }
}

/// A row of zeros.
pub(crate) fn zero_row<F: Field>(alloc: Global, columns: usize) -> Result<Vec<F>, AllocError>
    ensures { IfOk result (λ row. row.items ≡ replicate columns F.ring.nil) }
{
    let mut row = Vec::with_capacity(alloc, columns)?;
    'columns: for _column in 0..columns {
        row.push(F::zero())?;
    }
    Ok(row)
}
