//! What a curve costs, as it is declared.

ghost use Rattle.std.specs.Prelude.{◌≡◌, ◌*◌};
ghost use Rattle.gs_params.specs.declared.parameters.Params.{Params};

use crate::linear::Linear;
use gs_params::Interpolate;

/// The cost that `Linear` declares, and what it comes to where it was worked out apart: for nineteen places, messages of three
/// coefficients and coalitions of three, so with a weight of 2, multiplicity 3 and terms that weigh less than 21.
pub fn linear_cost()
    ensures cost { (p : Params) → ⟦<Linear as Interpolate>⟧.cost p
        ≡ 16 * (p.rows * p.rows) * p.cols }
    ensures nineteen_places { (p : Params) → p.w ≡ 2 → p.r ≡ 19 → p.s ≡ 3 → p.e ≡ 21
        → ⟦<Linear as Interpolate>⟧.cost p ≡ 25160256 }
{}
