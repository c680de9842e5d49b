//! The search, coefficient by coefficient from the lowest.

ghost use Rattle.std.specs.Prelude.{◌≡◌, ℕ, ◌+◌, ◌-◌, ◌*◌, ◌<◌, ◌≤◌, ◌∷◌, ◌++◌, length, map, IfOk, OnOk};
ghost use Rattle.algebra.specs.Bivariate.{greatest, weight_by, x_power, y_power};
ghost use Rattle.root_terms.specs.Branches.{IsNarrow, IsReduced, search_bound};
ghost use Rattle.root_terms.specs.YRoots.{AreYRootLists};

use crate::branches::{branch, vanishes_at_zero};
use bi_poly::BiPoly;
use gf2m::{Elements, Field, Items, Products, Steps};
use lists::Memory;
use std::alloc::Global;

/// The y-roots with at most `count` coefficients, as lists of so many coefficients. The only error is want of memory.
pub fn root_lists<F: Field, P: Products>(
    alloc: Global,
    q: &BiPoly<F>,
    count: u32,
    prods: &mut Steps<P>,
) -> Result<Vec<Elements<F>>, Memory>
    requires reduced { IsReduced F.ring q.now }
    requires room { greatest x_power q.now + count * greatest y_power q.now < 65536 }
    ensures these { IfOk result (λ lists. AreYRootLists F.ring q.now count lists.items) }
    // no more than the degree of Q(0, y); after the last coefficient there may be one even where that is 0
    ensures few { (d : ℕ) → 1 ≤ d + count → IsNarrow F.ring d q.now
        → IfOk result (λ lists. length lists.items ≤ d) }
    ensures products { (d y e : ℕ) → IsNarrow F.ring d q.now → greatest y_power q.now < y
        → greatest (weight_by (count - 1)) q.now < e
        → prods.new ≤ prods.old + search_bound count d y e }
{
    if count == 0 {
        return last_lists(alloc, q);
    }
    let column = q.at_zero()?;
    let constants = column.roots(alloc, prods)?;
    let mut found = Vec::new(alloc);
    'constants: for n in 0..constants.len() {
        let constant = constants.as_slice()[n];
        let child = branch(q, constant, prods)?;
        let tails = root_lists(alloc, &child, count - 1, prods)?;
        add_each(alloc, &mut found, constant, &tails)?;
    }
    Ok(found)
}

/// The list of no coefficients, where it stands for a y-root.
fn last_lists<F: Field>(alloc: Global, q: &BiPoly<F>) -> Result<Vec<Elements<F>>, Memory>
    requires { greatest x_power q.now < 65536 }
    ensures these { IfOk result (λ lists. AreYRootLists F.ring q.now 0 lists.items) }
    ensures few { IfOk result (λ lists. length lists.items ≤ 1) }
{
    let mut lists = Vec::new(alloc);
    if !vanishes_at_zero(q) {
        return Ok(lists);
    }
    lists.push(Items::over(Vec::new(alloc)))?;
    Ok(lists)
}

/// Adds each of the lists with the constant before it.
fn add_each<F: Field>(
    alloc: Global,
    found: &mut Vec<Elements<F>>,
    constant: F,
    tails: &[Elements<F>],
) -> Result<(), Memory>
    ensures { OnOk result (found.new.items
        ≡ found.old.items ++ map (λ tail. constant ∷ tail) tails.now) }
{
    'tails: for i in 0..tails.len() {
        found.push(led_by(alloc, constant, tails[i].as_slice())?)?;
    }
    Ok(())
}

/// The list that begins with the constant.
fn led_by<F: Field>(alloc: Global, constant: F, tail: &[F]) -> Result<Elements<F>, Memory>
    ensures { IfOk result (λ list. list ≡ constant ∷ tail.now) }
{
    let mut list = Vec::new(alloc);
    list.push(constant)?;
    list.extend_from_slice(tail)?;
    Ok(Items::over(list))
}
