//! The fields GF(2^4) to GF(2^8): the trait `Field` with its laws, and `Gf<M>`, which implements it.
#![tactic(auto)]

mod arithmetic;
mod field;
mod fields;
mod gf;
mod operations;
mod slices;
mod tables;

pub use field::Field;
pub use gf::Gf;
pub use lists::Items;
pub use steps::{Products, Steps};

/// A list of elements of the field `F`.
pub type Elements<F> = Items<F>;
