//! A curve's coefficients as a table, and all its derivatives at a point.

ghost use Rattle.std.specs.Prelude.{◌≡◌, ℕ, ◌+◌, ◌*◌, ◌<◌, ◌≤◌, length, drop};
ghost use Rattle.algebra.specs.Lists.{coefficients};
ghost use Rattle.decoding_terms.specs.Parameters.{term_count};
ghost use Rattle.koetter_terms.specs.Curves.{curve};
ghost use Rattle.gs_koetter.specs.Tables.{entry};

use crate::frame::{Frame, Monomials};
use crate::raising::entry;
use gf2m::Field;

/// Puts zero everywhere.
pub(crate) fn clear<F: Field>(table: &mut [F])
    ensures zeros { (k : ℕ) → coefficients F.ring table.new k ≡ F.ring.nil }
    ensures length { length table.new ≡ length table.old }
{
    'places: for k in 0..table.len() {
        table[k] = F::zero();
    }
}

/// Puts the coefficient of x^i y^j in row i and column j of a table, and zeros everywhere else.
#[inline(never)] // its loop needs the registers for itself
pub(crate) fn lay_out<F: Field>(table: &mut [F], coefs: &[F], frame: &Frame)
    requires few { length coefs.now ≤ length frame.now.terms.terms.items }
    requires size { length table.old ≡ frame.now.terms.e * frame.now.width }
    ensures entries { (i j : ℕ) → i < frame.now.terms.e → j < frame.now.width
        → entry F.ring frame.now.width table.new i j
        ≡ curve F.ring frame.now.terms.w coefs.now i j }
    ensures length { length table.new ≡ length table.old }
{
    clear(table);
    let cells = frame.cells.as_slice();
    'terms: for k in 0..coefs.len() {
        table[cells[k]] = coefs[k];
    }
}

/// Puts in the derivatives in their order, from a table with a row for each order in y and a column for each in x.
fn pick<F: Field>(tile: &mut [F], table: &[F], orders: &Monomials)
    requires by_one { orders.now.w ≡ 1 }
    requires tile { length tile.old ≡ term_count 1 orders.now.e }
    ensures each { (u v : ℕ) → u + v < orders.now.e → curve F.ring 1 tile.new u v
        ≡ entry F.ring orders.now.e table.now v u }
    ensures length { length tile.new ≡ length tile.old }
{
    'orders: for k in 0..orders.terms.len() {
        let order = orders.terms[k];
        tile[k] = entry(table, order.y * orders.e + order.x);
    }
}

/// Puts in the derivatives in front of a curve's coefficients.
pub(crate) fn pick_front<F: Field>(list: &mut [F], table: &[F], orders: &Monomials)
    requires by_one { orders.now.w ≡ 1 }
    requires room { term_count 1 orders.now.e ≤ length list.old }
    ensures each { (u v : ℕ) → u + v < orders.now.e → curve F.ring 1 list.new u v
        ≡ entry F.ring orders.now.e table.now v u }
    ensures rest { drop (term_count 1 orders.now.e) list.new
        ≡ drop (term_count 1 orders.now.e) list.old }
    ensures length { length list.new ≡ length list.old }
{
    pick(&mut list[..orders.terms.len()], table, orders);
}
