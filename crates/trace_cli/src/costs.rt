//! What the curves of the program cost.

ghost use Rattle.std.specs.Prelude.{ℕ, ◌≤◌};
ghost use Rattle.desk_terms.specs.Bounds.{iterative_curve_bound};
ghost use Rattle.list_decode.specs.Answers.{CostsAtMost};
ghost use Rattle.trace_costs.specs.Costs.{IsBuilt};

use gs_koetter::Koetter;
use gs_params::Interpolate;

/// How the program finds the curve of a trace.
pub const CURVES: Koetter = Koetter;

/// What `main` hands in builds a curve point by point: for a word of at most n places it costs no more than the first term of
/// `iterative_product_bound`.
pub fn curves_cost()
    ensures { (n k c r : ℕ) → r ≤ n
        → CostsAtMost ⟦<Koetter as Interpolate>⟧.cost k c r (iterative_curve_bound n k c) }
{}

/// It keeps the premise of the clause `products_built` of `run`, so `run` takes no more products than
/// `iterative_product_bound`.
pub fn curves_are_built()
    ensures { IsBuilt ⟦<Koetter as Interpolate>⟧.cost }
{}
