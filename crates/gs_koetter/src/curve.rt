//! Curves that are kept.

/// A curve that is kept: in one list its derivatives at the point at hand, in the order of their orders, and its coefficients, in
/// the order of all terms; how many derivatives there are, how many coefficients up to the leading term, and the power of x in that
/// term.
#[derive(Drop)]
pub(crate) struct Curve<F> {
    pub(crate) list: Vec<F>,
    pub(crate) orders: usize,
    pub(crate) len: usize,
    pub(crate) exponent: usize,
}
