//! Those who are missing in the list.

ghost use Rattle.std.specs.Prelude.{◌≡◌, ℕ, ◌+◌, ◌<◌, ◌≤◌, List, Option, length, true, drop, IsTrue};
ghost use Rattle.decoding_terms.specs.Parameters.{is_allowed_bound};
ghost use Rattle.desk_terms.specs.Findings.{is_accused};
ghost use Rattle.desk_terms.specs.Roll.{roll_of};
ghost use Rattle.report_terms.specs.Verdicts.{first_missed};
ghost use Rattle.report_check.specs.Shown.{AreRows, AreSlots};
ghost use Rattle.report_check.specs.Bounds.{rows_bound};
ghost use Rattle.report_check.specs.Walks.{Ascend, is_next, position_after};

use crate::listed::message_at;
use crate::rows::Rows;
use crate::slots::Slots;
use desk_terms::Accused;
use gf2m::Field;
use lic_register::Register;
use rs_code::{Code, Word};
use steps::{Looks, Products, Steps};

/// The serial of the first licensee who meets the threshold and is not in the list. It walks the register once, and the list
/// beside it. Before that it makes the rows of the code, so that no product is left for the walk.
pub(crate) fn first_missed<F: Field, P: Products, Q: Looks>(
    accused: &[Accused],
    register: &Register,
    code: &Code<F>,
    word: &Word,
    bound: u32,
    prods: &mut Steps<P>,
    looks: &mut Steps<Q>,
) -> Option<u32>
    requires bits { F.BITS ≡ register.now.bits }
    requires dimension { code.now.dimension ≡ register.now.dimension }
    requires length { length word.now ≡ code.now.places }
    requires bound { is_allowed_bound code.now.dimension bound ≡ true }
    requires order { Ascend 0 accused.now }
    ensures missed { result ≡ first_missed (roll_of register.now) word.now bound accused.now }
    ensures products { prods.new
        ≤ prods.old + rows_bound F.BITS code.now.places code.now.dimension }
    ensures looks { looks.new ≤ looks.old + length register.now.licensees }
{
    let rows = Rows::of(code, prods);
    let slots = Slots::of(word);
    let mut position = 0;
    'serials: for serial in 0..register.len() {
        match position_after(
            accused, position, serial, register, &rows, &slots, bound, looks,
        ) {
            Some(next) => position = next,
            None => return Some(serial),
        }
    }
    None
}

/// The position in the list behind the licensee of this serial; `None` where the licensee is missing there.
fn position_after<Q: Looks>(
    accused: &[Accused],
    position: usize,
    serial: u32,
    register: &Register,
    rows: &Rows,
    slots: &Slots,
    bound: u32,
    looks: &mut Steps<Q>,
) -> Option<usize>
    requires bound { bound ≤ 8 }
    requires serial { serial < length register.now.licensees }
    ensures position { (word : List (Option ℕ))
        → AreRows register.now.bits register.now.dimension (length word) rows.now.digits
        rows.now.rows
        → AreSlots word slots.now.places slots.now.readable slots.now.symbols slots.now.known
        → result ≡ position_after (drop position accused.now) position serial
        (is_accused (roll_of register.now) word bound serial) }
    ensures looks { looks.new ≤ looks.old + 1 }
{
    if is_next(accused, position, serial) {
        return Some(position + 1);
    }
    if meets(serial, register, rows, slots, bound, looks) {
        None
    } else {
        Some(position)
    }
}

/// Whether the licensee of this serial meets the threshold of this bound.
fn meets<Q: Looks>(
    serial: u32,
    register: &Register,
    rows: &Rows,
    slots: &Slots,
    bound: u32,
    looks: &mut Steps<Q>,
) -> bool
    requires bound { bound ≤ 8 }
    requires serial { serial < length register.now.licensees }
    ensures accused { (word : List (Option ℕ))
        → AreRows register.now.bits register.now.dimension (length word) rows.now.digits
        rows.now.rows
        → AreSlots word slots.now.places slots.now.readable slots.now.symbols slots.now.known
        → result ≡ is_accused (roll_of register.now) word bound serial }
    ensures looks { looks.new ≤ looks.old + 1 }
{
    let message = message_at(register, serial, looks).unwrap();
    slots.meets(&rows.symbols_of(message), bound)
}

/// Whether this serial stands at this position.
fn is_next(accused: &[Accused], position: usize, serial: u32) -> bool
    ensures next { result ≡ is_next (drop position accused.now) serial }
    ensures within { IsTrue result → position < length accused.now }
{
    match accused.get(position) {
        Some(one) => one.serial == serial,
        None => false,
    }
}
