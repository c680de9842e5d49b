//! Polynomials in two variables.

ghost use Rattle.std.specs.Prelude.{◌≡◌, ◌<◌, IfOk, OnOk, OnErr};
ghost use Rattle.std.specs.FinMap.{empty};
ghost use Rattle.algebra.specs.Bivariate.{coefficient};
ghost use Rattle.bi_poly.specs.Results.{with_coefficient};

use crate::row::Row;
use crate::rows::{cell, grow_rows};
use gf2m::Field;
use lists::Memory;
use std::alloc::Global;
use std::marker::Model;

/// A polynomial in x and y over the field `F`, which contracts see as the finite map from the powers of x and y in its terms to
/// their coefficients. No coefficient in the map is zero, all powers of x are below 65,536 and all powers of y below 4,096.
#[derive(Drop)]
pub struct BiPoly<F: Field> {
    pub(crate) alloc: Global,
    pub(crate) rows: Vec<Row<F>>,
}

impl<F: Field> Model for BiPoly<F> {
    ghost use Rattle.std.specs.FinMap as map;
    ghost use Rattle.std.specs.Coded.{coded_ℕ, coded×};
    ghost use Rattle.algebra.specs.Bivariate.{pair_cmp};
    ghost use Rattle.bi_poly.specs.Rows.{AreLimited, polynomial_of};

    ghost Value = { map.FinMap pair_cmp F };

    ghost coded = { map.code (coded× coded_ℕ coded_ℕ) F.code };

    ghost view = { λ q. polynomial_of F.number q.rows.items };

    ghost invariant = { λ q. AreLimited F.ring q.rows.items };
}

impl<F: Field> BiPoly<F> {
    /// The zero polynomial. It takes no memory.
    pub fn zero(alloc: Global) -> BiPoly<F>
        ensures { result ≡ empty }
    {
        BiPoly {
            alloc,
            rows: Vec::new(alloc),
        }
    }

    /// The same polynomial in memory of its own. The only error is want of memory.
    pub fn copy(&self) -> Result<BiPoly<F>, Memory>
        ensures { IfOk result (λ copy. copy ≡ self.now) }
    {
        let mut rows = Vec::with_capacity(self.alloc, self.rows.len())?;
        'rows: for j in 0..self.rows.len() {
            rows.push(self.rows[j].copy(self.alloc)?)?;
        }
        Ok(BiPoly {
            alloc: self.alloc,
            rows,
        })
    }

    /// Puts the value in place of the coefficient of x^i y^j. The only error is want of memory.
    pub fn set(&mut self, i: usize, j: usize, value: F) -> Result<(), Memory>
        requires x { i < 4096 }
        requires y { j < 4096 }
        ensures ok { OnOk result (self.new ≡ with_coefficient F.number self.old i j value) }
        ensures err { OnErr result (self.new ≡ self.old) }
    {
        grow_rows(&mut self.rows, self.alloc, j + 1)?;
        self.rows[j].grow(i + 1)?;
        self.rows[j].put(i, value);
        Ok(())
    }

    /// The coefficient of x^i y^j, which is zero where no term has these powers.
    pub fn coef(&self, i: usize, j: usize) -> F
        ensures { result ≡ coefficient F.ring self.now i j }
    {
        cell(&self.rows, i, j)
    }
}
