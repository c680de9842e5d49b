//! What a curve costs, as it is declared.

ghost use Rattle.std.specs.Prelude.{◌≡◌, ◌+◌, ◌-◌, ◌*◌, ◌/◌};
ghost use Rattle.gs_params.specs.declared.parameters.Params.{Params};

use crate::koetter::Koetter;
use gs_params::Interpolate;

/// The cost that `Koetter` declares, and what it comes to where it was worked out apart: for nineteen places, messages of three
/// coefficients and coalitions of three, so with a weight of 2, multiplicity 3 and terms that weigh less than 21.
pub fn koetter_cost()
    ensures cost { (p : Params) → ⟦<Koetter as Interpolate>⟧.cost p
        ≡ 8 * p.rows * ((p.e - 1) / p.w + 1) * p.cols }
    ensures nineteen_places { (p : Params) → p.w ≡ 2 → p.r ≡ 19 → p.s ≡ 3 → p.e ≡ 21
        → ⟦<Koetter as Interpolate>⟧.cost p ≡ 1213872 }
{}
