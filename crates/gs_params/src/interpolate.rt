//! What finds a curve.

ghost use Rattle.std.specs.Prelude.{◌≡◌, ◌≢◌, ℕ, ◌+◌, ◌<◌, ◌≤◌, All, IfOk, length};
ghost use Rattle.std.specs.FinMap.{empty};
ghost use Rattle.algebra.specs.Bivariate.{HasMultiplicity, greatest, weight_by};

use crate::parameters::Params;
use bi_poly::BiPoly;
use gf2m::{Field, Products, Steps};
use lists::Memory;
use std::alloc::Global;

/// A way to find a curve with a given multiplicity at each of some points. `cost` is how many products it takes at most.
pub trait Interpolate {
    ghost use Rattle.gs_params.specs.declared.parameters.Params.{Params};

    ghost cost: { Params → ℕ };

    /// A polynomial Q(x, y) that is not zero, all of whose terms weigh less than e, and that is zero at each point with
    /// multiplicity at least s. Points may share a coordinate, or be the same. The only error is want of memory.
    fn curve<F: Field, P: Products>(
        &self,
        alloc: Global,
        points: &[(F, F)],
        params: &Params,
        prods: &mut Steps<P>,
    ) -> Result<BiPoly<F>, Memory>
        requires { length points.now ≡ params.now.r }
        ensures nonzero { IfOk result (λ q. q ≢ empty) }
        ensures light { IfOk result (λ q. greatest (weight_by params.now.w) q < params.now.e) }
        ensures multiplicity { IfOk result
            (λ q. All (λ p. HasMultiplicity F.ring params.now.s q p.0 p.1) points.now) }
        ensures products { prods.new ≤ prods.old + cost params.now };
}
