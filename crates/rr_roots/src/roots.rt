//! All y-roots, in order.

ghost use Rattle.std.specs.Prelude.{◌≡◌, ◌≢◌, ℕ, ◌+◌, ◌-◌, ◌*◌, ◌<◌, ◌≤◌, length, IfOk};
ghost use Rattle.std.specs.FinMap.{empty};
ghost use Rattle.algebra.specs.Bivariate.{greatest, weight_by, x_power, y_power};
ghost use Rattle.root_terms.specs.YRoots.{AreYRootLists, AreYRoots};

use crate::branches::reduction;
use crate::numbers::{numbered, roots_of, sort_by_number};
use crate::search::root_lists;
use bi_poly::BiPoly;
use gf2m::{Elements, Field, Items, Products, Steps};
use lists::Memory;
use std::alloc::Global;
use uni_poly::PolyList;

/// The polynomials f of degree below `k` with Q(x, f(x)) = 0, each once, in ascending order of the numbers whose digits are
/// their coefficients, the lowest first. The only error is want of memory.
///
/// The search is that of Roth and Ruckenstein (2000). For the products, y stands for one more than the greatest power of y,
/// and e for any number above the weight in which y counts as k - 1.
pub fn poly_roots<F: Field, P: Products>(
    alloc: Global,
    q: &BiPoly<F>,
    k: u32,
    prods: &mut Steps<P>,
) -> Result<PolyList<F>, Memory>
    requires nonzero { q.now ≢ empty }
    requires x { greatest x_power q.now < 4096 }
    requires least_k { 2 ≤ k }
    requires most_k { k ≤ 13 }
    ensures these { IfOk result (λ roots. AreYRoots F.ring F.number F.Q q.now k roots) }
    ensures few { IfOk result (λ roots. length roots ≤ greatest y_power q.now) }
    ensures products { (e : ℕ) → greatest (weight_by (k - 1)) q.now < e
        → let y = greatest y_power q.now + 1 in
        prods.new ≤ prods.old + k * (y * y * (256 + e * y)) }
{
    let lists = all_lists(alloc, q, k, prods)?;
    let mut entries = numbered(alloc, &lists)?;
    sort_by_number(&mut entries)?;
    Ok(Items::over(roots_of(alloc, entries)?))
}

/// All y-roots as lists of k coefficients, in the order in which they are found.
fn all_lists<F: Field, P: Products>(
    alloc: Global,
    q: &BiPoly<F>,
    k: u32,
    prods: &mut Steps<P>,
) -> Result<Vec<Elements<F>>, Memory>
    requires nonzero { q.now ≢ empty }
    requires x { greatest x_power q.now < 4096 }
    requires least_k { 2 ≤ k }
    requires most_k { k ≤ 13 }
    ensures these { IfOk result (λ lists. AreYRootLists F.ring q.now k lists.items) }
    ensures few { IfOk result (λ lists. length lists.items ≤ greatest y_power q.now) }
    ensures products { (e : ℕ) → greatest (weight_by (k - 1)) q.now < e
        → let y = greatest y_power q.now + 1 in
        prods.new ≤ prods.old + k * (y * y * (256 + e * y)) }
{
    let column = q.at_zero()?;
    if column.degree().is_some() {
        return root_lists(alloc, q, k, prods);
    }
    let curve = reduction(q)?;
    root_lists(alloc, &curve, k, prods)
}
