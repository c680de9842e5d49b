//! Why there is no such code.

/// Why numbers make no code.
#[derive(Clone, Copy, Debug, PartialEq, Eq)]
pub enum CodeError {
    /// The number of coefficients is not 2 to 13.
    BadK,
    /// The number of places is 0, or greater than the number of the field's elements.
    BadN,
}
