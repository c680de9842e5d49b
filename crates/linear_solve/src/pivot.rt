//! Rows that elimination has finished.

use gf2m::Field;

// A row that was taken out, the column in which the rows that were left were cleared with it, and the inverse of its
// entry there.
#[derive(Drop)]
pub(crate) struct Pivot<F: Field> {
    pub(crate) row: Vec<F>,
    pub(crate) column: usize,
    pub(crate) inverse: F,
}
