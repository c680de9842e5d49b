//! Derivatives of many polynomials at once, by halves.
//!
//! In characteristic two x^h is (x + a)^h + a^h where h is a power of two. So the part of a polynomial from x^h on, times a^h and added to the part below, gives the derivatives of orders below h, and the part from x^h on gives the others.

ghost use Rattle.std.specs.Prelude.{◌≡◌, ℕ, ◌+◌, ◌*◌, ◌^◌, ◌<◌, ◌≤◌, length};
ghost use Rattle.koetter_terms.specs.Derivatives.{derivative};
ghost use Rattle.gs_koetter.specs.Tables.{AreSquares, entry};

use crate::cancelling::add_front;
use gf2m::{Field, Products, Steps};

/// Puts in the powers a, a^2, a^4 and so on of the element.
pub(crate) fn fill_squares<F: Field, P: Products>(
    squares: &mut Vec<F>,
    element: F,
    prods: &mut Steps<P>,
)
    ensures squares { AreSquares F.ring element squares.new.items }
    ensures length { length squares.new.items ≡ length squares.old.items }
    ensures products { prods.new ≤ prods.old + length squares.old.items }
{
    let mut square = element;
    'squares: for k in 0..squares.len() {
        squares[k] = square;
        square = square.mul(square, prods);
    }
}

/// Puts in each column of the table, which holds a polynomial's coefficients from the power 0 on, the polynomial's derivatives
/// from the order 0 on, at the element whose squares these are. `span` is how many entries 2^n rows have, where n is the number
/// of squares; afterwards only the first `wanted` entries count.
pub(crate) fn expand<F: Field, P: Products>(
    table: &mut [F],
    squares: &[F],
    span: usize,
    wanted: usize,
    prods: &mut Steps<P>,
)
    requires room { length table.old ≤ span }
    requires even { (width : ℕ) × (span ≡ 2 ^ length squares.now * width) }
    ensures value { (a : F) (width : ℕ) → AreSquares F.ring a squares.now
        → span ≡ 2 ^ length squares.now * width
        → (u j : ℕ) → j < width → u * width + j < wanted → entry F.ring width table.new u j
        ≡ derivative F.ring (2 ^ length squares.now) (λ i. entry F.ring width table.old i j) a u }
    ensures length { length table.new ≡ length table.old }
    ensures products { (width rows : ℕ) → span ≡ 2 ^ length squares.now * width
        → wanted ≤ rows * width
        → prods.new ≤ prods.old + rows * length table.old }
{
    if wanted == 0 {
        return;
    }
    let Some((power, lower)) = squares.split_last() else {
        return;
    };
    let half = span / 2;
    if table.len() <= half {
        expand(table, lower, half, wanted, prods);
        return;
    }
    let (low, high) = table.split_at_mut(half);
    add_front(&mut low[..high.len()], high, high.len(), *power, prods);
    expand(low, lower, half, wanted, prods);
    expand(high, lower, half, wanted.saturating_sub(half), prods);
}
