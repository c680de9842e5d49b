//! Tables that all curves share.

ghost use Rattle.std.specs.Prelude.{◌≡◌, ◌+◌, ◌-◌, ◌*◌, ◌/◌, ◌^◌, ◌<◌, ◌≤◌, ℕ, suc, IfOk};
ghost use Rattle.koetter_terms.specs.Curves.{AreQuotients};
ghost use Rattle.gs_koetter.specs.Tables.{AreCells, AreTurns};
ghost use Rattle.term_lists.specs.Places.{AreTermsBelow, place};

use std::alloc::{AllocError, Global};
use term_lists::{Exponents, terms_below};

/// The terms that weigh less than e, where x weighs 1 and y weighs w, in order, and at each term's place the place of that
/// term divided by x, or a number past all places.
#[derive(Drop)]
pub(crate) struct Monomials {
    pub(crate) w: usize,
    pub(crate) e: usize,
    pub(crate) terms: Vec<Exponents>,
    pub(crate) quotients: Vec<usize>,
    ghost some_weight: { 1 ≤ w },
    ghost low: { e ≤ 4096 },
    ghost terms_are: { AreTermsBelow w e terms.items },
    ghost quotients_are: { AreQuotients w e quotients.items },
}

impl Monomials {
    /// The only error is want of memory.
    pub(crate) fn below(alloc: Global, w: usize, e: usize) -> Result<Monomials, AllocError>
        requires some { 1 ≤ w }
        requires light { w ≤ 12 }
        requires low { e ≤ 4096 }
        ensures w { IfOk result (λ m. m.w ≡ w) }
        ensures e { IfOk result (λ m. m.e ≡ e) }
    {
        let terms = terms_below(alloc, w, e)?;
        let quotients = quotients(alloc, w, e, &terms)?;
        Ok(Monomials {
            w,
            e,
            terms,
            quotients,
        })
    }
}

/// At each term's place the place of that term divided by x, or a number past all places.
fn quotients(
    alloc: Global,
    w: usize,
    e: usize,
    terms: &[Exponents],
) -> Result<Vec<usize>, AllocError>
    requires some { 1 ≤ w }
    requires light { w ≤ 12 }
    requires low { e ≤ 4096 }
    requires terms { AreTermsBelow w e terms.now }
    ensures { IfOk result (λ quotients. AreQuotients w e quotients.items) }
{
    let mut quotients = Vec::with_capacity(alloc, terms.len())?;
    'terms: for k in 0..terms.len() {
        quotients.push(quotient(w, terms[k], k, terms.len()))?;
    }
    Ok(quotients)
}

/// The place of the term divided by x, or `none`. The term stands at place `k`.
fn quotient(w: usize, term: Exponents, k: usize, none: usize) -> usize
    requires some { 1 ≤ w }
    requires place { place w term.x term.y ≡ k }
    requires low { term.x + w * term.y < 4096 }
    ensures divided { (i : ℕ) → term.x ≡ suc i → result ≡ place w i term.y }
    ensures others { term.x ≡ 0 → result ≡ none }
{
    if term.x == 0 {
        return none;
    }
    k - ((term.x - 1 + w * term.y) / w + 1)
}

/// How often a table of so many rows can be halved: `count` times at least, and `span` is how many entries 2^count rows have.
#[derive(Clone, Copy)]
pub(crate) struct Halvings {
    pub(crate) rows: usize,
    pub(crate) width: usize,
    pub(crate) count: usize,
    pub(crate) span: usize,
    ghost enough: { rows ≤ 2 ^ count },
    ghost few: { count ≤ rows },
    ghost whole: { span ≡ 2 ^ count * width },
}

impl Halvings {
    /// The halvings of a table with so many rows of this width.
    pub(crate) fn of(rows: usize, width: usize) -> Halvings
        requires rows { rows ≤ 4096 }
        requires width { width ≤ 4096 }
        ensures rows { result.rows ≡ rows }
        ensures width { result.width ≡ width }
    {
        let mut count = 0;
        let mut height = 1;
        let mut span = width;
        'halvings: while height < rows {
            count += 1;
            height *= 2;
            span *= 2;
        }
        Halvings {
            rows,
            width,
            count,
            span,
        }
    }
}

/// Where in a table with rows of `width` the entries stand that a turned table, whose rows are columns, has one after the other.
/// Of the table's rows there are the first `side`.
pub(crate) fn turns(alloc: Global, width: usize, side: usize) -> Result<Vec<usize>, AllocError>
    requires width { width ≤ 4096 }
    requires some { 1 ≤ side }
    requires side { side ≤ 4096 }
    ensures { IfOk result (λ turns. AreTurns width side turns.items) }
{
    let mut turns = Vec::with_capacity(alloc, width * side)?;
    'places: for k in 0..width * side {
        turns.push(k % side * width + k / side)?;
    }
    Ok(turns)
}

/// At each term's place the place of its coefficient in a table with a row of `width` for each power of x.
pub(crate) fn cells(
    alloc: Global,
    monomials: &Monomials,
    width: usize,
) -> Result<Vec<usize>, AllocError>
    requires width { width ≤ 4096 }
    ensures { IfOk result (λ cells. AreCells width monomials.now.terms.items cells.items) }
{
    let mut cells = Vec::with_capacity(alloc, monomials.terms.len())?;
    'terms: for k in 0..monomials.terms.len() {
        let term = monomials.terms[k];
        cells.push(term.x * width + term.y)?;
    }
    Ok(cells)
}

/// What all curves share: their terms, the orders of the derivatives at a point as terms, how many powers of y there are, how
/// the tables of derivatives in x and in y are halved, where the coefficients stand in the first, and how it is turned into the
/// second.
#[derive(Drop)]
pub(crate) struct Frame {
    pub(crate) terms: Monomials,
    pub(crate) orders: Monomials,
    pub(crate) width: usize,
    pub(crate) xs: Halvings,
    pub(crate) ys: Halvings,
    pub(crate) cells: Vec<usize>,
    pub(crate) turns: Vec<usize>,
    ghost orders_by_one: { orders.w ≡ 1 },
    ghost few_weights: { terms.w ≤ 12 },
    ghost some_powers: { 1 ≤ width },
    ghost few_powers: { width ≤ 4096 },
    ghost all_powers: { terms.e ≤ terms.w * width },
    ghost light_powers: { terms.w * (width - 1) < terms.e },
    ghost x_rows: { xs.rows ≡ terms.e },
    ghost x_width: { xs.width ≡ width },
    ghost y_rows: { ys.rows ≡ width },
    ghost y_width: { ys.width ≡ orders.e },
    ghost placed: { AreCells width terms.terms.items cells.items },
    ghost turned: { AreTurns width orders.e turns.items },
}
