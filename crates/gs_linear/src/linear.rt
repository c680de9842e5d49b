//! A curve as a vector of the kernel.

ghost use Rattle.std.specs.Prelude.{◌≡◌, ◌+◌, ◌*◌, ◌≤◌, IfOk, length};
ghost use Rattle.gs_linear.specs.Equations.{IsSolution};
ghost use Rattle.term_lists.specs.Places.{AreTermsBelow};

use crate::equations::equations;
use bi_poly::BiPoly;
use gf2m::{Elements, Field, Products, Steps};
use gs_params::{Interpolate, Params};
use linear_solve::Matrix;
use lists::Memory;
use std::alloc::Global;
use term_lists::{Exponents, polynomial_of, terms_below};

/// Finds a curve by linear algebra: the unknowns are the coefficients of the terms that weigh less than e, and each order of a
/// derivative at each point gives an equation.
#[derive(Clone, Copy, Debug)]
pub struct Linear;

impl Interpolate for Linear {
    ghost use Rattle.std.specs.Prelude.{◌*◌};

    ghost cost = { λ p. 16 * (p.rows * p.rows) * p.cols };

    fn curve<F: Field, P: Products>(
        &self,
        alloc: Global,
        points: &[(F, F)],
        params: &Params,
        prods: &mut Steps<P>,
    ) -> Result<BiPoly<F>, Memory> {
        let w = params.w as usize;
        let e = params.e as usize;
        let terms = terms_below(alloc, w, e)?;
        let orders = terms_below(alloc, 1, params.s as usize)?;
        let vector = solution(alloc, &terms, &orders, params, points, prods)?;
        polynomial_of(alloc, &terms, vector.as_slice())
    }
}

/// A vector that is not zero and solves the system.
fn solution<F: Field, P: Products>(
    alloc: Global,
    terms: &[Exponents],
    orders: &[Exponents],
    params: &Params,
    points: &[(F, F)],
    prods: &mut Steps<P>,
) -> Result<Elements<F>, Memory>
    requires points { length points.now ≡ params.now.r }
    requires terms { AreTermsBelow params.now.w params.now.e terms.now }
    requires orders { AreTermsBelow 1 params.now.s orders.now }
    ensures solution { IfOk result
        (λ vector. IsSolution F.ring terms.now orders.now points.now vector) }
    ensures products { prods.new ≤ prods.old
        + 16 * (params.now.rows * params.now.rows) * params.now.cols }
{
    let rows = equations(alloc, terms, orders, params.e as usize, points, prods)?;
    let matrix = Matrix::from_rows(terms.len(), rows);
    Ok(matrix.kernel(alloc, prods)?.unwrap())
}
