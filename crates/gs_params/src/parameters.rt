//! Parameters.

ghost use Rattle.std.specs.Prelude.{◌≡◌, ◌≤◌};
ghost use Rattle.decoding_terms.specs.Parameters.{IsWeight, equation_count, term_count};

/// Why there are no parameters.
#[derive(Debug, Clone, Copy, PartialEq, Eq)]
pub enum ParamError {
    /// Codes of this dimension don't allow for coalitions of so many.
    BadBound,
    /// There are too few points: so many.
    TooFew(u32),
}

/// The numbers with which a curve Q(x, y) through some points is looked for.
#[derive(Debug, Clone, Copy, PartialEq, Eq)]
pub struct Params {
    /// How much y weighs, where x weighs 1: the greatest degree of the polynomials that are looked for.
    pub w: u32,
    /// How many points there are.
    pub r: u32,
    /// Through how many of the points such a polynomial has to go.
    pub t: u32,
    /// The multiplicity of the curve at each point.
    pub s: u32,
    /// All terms of the curve weigh less.
    pub e: u32,
    /// How many equations that makes.
    pub rows: u32,
    /// How many terms weigh less than e.
    pub cols: u32,
    ghost some_points: { 1 ≤ r },
    ghost some_weight: { 1 ≤ w },
    ghost most_weight: { w ≤ 12 },
    ghost some_times: { 1 ≤ s },
    ghost most_times: { s ≤ 12 },
    ghost equations: { rows ≡ equation_count r s },
    ghost weight: { IsWeight w rows e },
    ghost terms: { cols ≡ term_count w e },
    ghost few_equations: { rows ≤ 8000 },
    ghost low_weight: { e ≤ 4096 },
}
