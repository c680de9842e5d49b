//! The symbols of all messages with one digit, from which those of every message are made.
//!
//! The digits are those to the base 16. The symbols of a message are the exclusive or of those of its digits, each with as many
//! zeros behind it as in the message.

ghost use Rattle.std.specs.Prelude.{◌≡◌, ℕ, ◌+◌, ◌*◌, ◌^◌, ◌<◌, ◌≤◌, bit_xor, slice_index};
ghost use Rattle.report_check.specs.Bounds.{rows_bound};
ghost use Rattle.report_check.specs.Shown.{AreRows, HasRows, HasSymbols, message_of_row};

use code_terms::Message;
use gf2m::Field;
use rs_code::Code;
use steps::{Products, Steps};

/// The most places of a word.
pub(crate) const PLACES: usize = 256;

/// Sixteen rows for each of 26 digits, since a message has at most 104 bits.
const ROWS: usize = 416;

/// The symbols at all places of each message with one digit. The one of digit d with q zeros behind it stands at 16 q + d.
#[derive(Drop)]
pub(crate) struct Rows {
    pub(crate) digits: u32,
    pub(crate) rows: [[u8; PLACES]; ROWS],
    ghost few: { digits ≤ 26 },
}

impl Rows {
    /// The rows of a code.
    pub(crate) fn of<F: Field, P: Products>(code: &Code<F>, prods: &mut Steps<P>) -> Rows
        ensures rows { AreRows F.BITS code.now.dimension code.now.places result.digits result.rows }
        ensures products { prods.new
            ≤ prods.old + rows_bound F.BITS code.now.places code.now.dimension }
    {
        let mut rows = Rows {
            digits: (F::BITS * code.k()).div_ceil(4),
            rows: [[0; PLACES]; ROWS],
        };
        fill_rows(code, rows.digits, &mut rows.rows, prods);
        rows
    }

    /// The message's symbols at all places.
    pub(crate) fn symbols_of(&self, message: Message) -> [u8; PLACES]
        ensures { (m k n : ℕ) → AreRows m k n self.now.digits self.now.rows → n ≤ 256
            → message < 2 ^ (m * k) → HasSymbols m k message n result }
    {
        let number = message.number();
        let mut symbols = [0; PLACES];
        for zeros in 0..self.digits {
            let digit = (number >> (4 * zeros)) % 16;
            let index = 16 * zeros as usize + digit as usize;
            add(&mut symbols, &self.rows[index]);
        }
        symbols
    }
}

/// Writes the rows of so many digits.
fn fill_rows<F: Field, P: Products>(
    code: &Code<F>,
    digits: u32,
    rows: &mut [[u8; PLACES]; ROWS],
    prods: &mut Steps<P>,
)
    requires { digits ≤ 26 }
    ensures rows { HasRows F.BITS code.now.dimension code.now.places (16 * digits) rows.new }
    ensures products { prods.new
        ≤ prods.old + 16 * digits * (code.now.places * code.now.dimension) }
{
    let count = message_count(code);
    for index in 0..16 * digits {
        let number = number_of_row(index);
        if number < count {
            fill_row(code, Message::of(number), &mut rows[index as usize], prods);
        }
    }
}

/// How many messages a code has.
fn message_count<F: Field>(code: &Code<F>) -> u128
    ensures { result ≡ 2 ^ (F.BITS * code.now.dimension) }
{
    1 << (F::BITS * code.k())
}

/// The number of the message whose symbols the row of this index has.
fn number_of_row(index: u32) -> u128
    requires { index < 416 }
    ensures { result ≡ message_of_row index }
{
    u128::from(index % 16) << (4 * (index / 16))
}

/// Writes the symbols of one message.
fn fill_row<F: Field, P: Products>(
    code: &Code<F>,
    message: Message,
    row: &mut [u8; PLACES],
    prods: &mut Steps<P>,
)
    requires { message < 2 ^ (F.BITS * code.now.dimension) }
    ensures symbols { HasSymbols F.BITS code.now.dimension message code.now.places row.new }
    ensures products { prods.new ≤ prods.old + code.now.places * code.now.dimension }
{
    for place in 0..code.n() {
        row[place as usize] = code.symbol(message, place, prods).to();
    }
}

/// Adds a row to the symbols.
fn add(symbols: &mut [u8; PLACES], row: &[u8; PLACES])
    ensures { (place : ℕ) → place < 256 →
        slice_index symbols.new place
        ≡ bit_xor (slice_index symbols.old place) (slice_index row.now place) }
{
    for place in 0..PLACES {
        symbols[place] ^= row[place];
    }
}
