//! Products and inverses in every field, by tables of powers and logarithms.

ghost use Rattle.std.specs.Prelude.{◌≡◌, ◌^◌, ◌<◌, ◌≤◌};
ghost use Rattle.gf_terms.specs.Arithmetic.{product};
ghost use Rattle.gf2m.specs.Tables.{AreLogarithms, ArePowers};

use crate::tables;

/// The powers of 2, twice round, and zeros.
fn exponents<const M: u32>() -> &'static [u8]
    requires low { 4 ≤ M }
    requires high { M ≤ 8 }
    ensures { ArePowers M result.now }
{
    match M {
        4 => &tables::EXPONENTS_4,
        5 => &tables::EXPONENTS_5,
        6 => &tables::EXPONENTS_6,
        7 => &tables::EXPONENTS_7,
        _ => &tables::EXPONENTS_8,
    }
}

/// The exponent with which 2 gives each number, and for 0 the place of a zero.
fn logarithms<const M: u32>() -> &'static [u16]
    requires low { 4 ≤ M }
    requires high { M ≤ 8 }
    ensures { AreLogarithms M result.now }
{
    match M {
        4 => &tables::LOGARITHMS_4,
        5 => &tables::LOGARITHMS_5,
        6 => &tables::LOGARITHMS_6,
        7 => &tables::LOGARITHMS_7,
        _ => &tables::LOGARITHMS_8,
    }
}

/// The product of two numbers below 2^M.
pub fn product_of<const M: u32>(x: u8, y: u8) -> u8
    requires low { 4 ≤ M }
    requires high { M ≤ 8 }
    requires left { x < 2 ^ M }
    requires right { y < 2 ^ M }
    ensures value { result ≡ product M x y }
    ensures below { result < 2 ^ M }
{
    let logarithms = logarithms::<M>();
    let exponent = logarithms[x as usize] as usize + logarithms[y as usize] as usize;
    exponents::<M>()[exponent]
}

/// The number whose product with x, which is not 0, is 1.
pub fn inverse_of<const M: u32>(x: u8) -> u8
    requires low { 4 ≤ M }
    requires high { M ≤ 8 }
    requires positive { 0 < x }
    requires below { x < 2 ^ M }
    ensures value { product M x result ≡ 1 }
    ensures below { result < 2 ^ M }
{
    let logarithms = logarithms::<M>();
    let period = logarithms.len() - 1;
    exponents::<M>()[period - logarithms[x as usize] as usize]
}
