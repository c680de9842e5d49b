//! The choice of parameters.

ghost use Rattle.std.specs.Prelude.{◌≡◌, ◌+◌, ◌-◌, ◌*◌, ◌≤◌, IfOk};
ghost use Rattle.std.specs.Result.{result_err};
ghost use Rattle.decoding_terms.specs.Parameters.{
  AreEnough,
  AreParameters,
  IsAgreement,
  IsMultiplicity,
  IsWeight,
  equation_count,
  term_count,
};
ghost use Rattle.gs_params.specs.Refusals.{refusal_of};

use crate::parameters::{ParamError, Params};

/// The parameters for polynomials of degree below `k` that go through at least a c-th part of `r` points, where `c` is how
/// many may have colluded. Refused, in this order, are a bound that codes of dimension `k` don't allow, and c² (k - 1)
/// points or fewer.
pub fn params(k: u32, c: u32, r: u32) -> Result<Params, ParamError>
    requires least_k { 2 ≤ k }
    requires most_k { k ≤ 13 }
    requires points { r ≤ 1024 }
    ensures refused { result_err result ≡ refusal_of k c r }
    ensures weight { IfOk result (λ p. p.w ≡ k - 1) }
    ensures points { IfOk result (λ p. p.r ≡ r) }
    ensures chosen { IfOk result (λ p. AreParameters (k - 1) c r p.t p.s p.e) }
    ensures multiplicity { IfOk result (λ p. p.s ≤ c * p.w) }
    ensures below { IfOk result (λ p. p.e ≤ p.s * p.t) }
{
    let w = k - 1;
    if c < 1 || c > 8 || c * w > 12 {
        return Err(ParamError::BadBound);
    }
    if r <= c * c * w {
        return Err(ParamError::TooFew(r));
    }
    Ok(chosen(w, c, r))
}

/// The parameters where there are some.
fn chosen(w: u32, c: u32, r: u32) -> Params
    requires enough { AreEnough w c r }
    requires bound { c ≤ 8 }
    requires product { c * w ≤ 12 }
    requires points { r ≤ 1024 }
    ensures weight { result.w ≡ w }
    ensures points { result.r ≡ r }
    ensures chosen { AreParameters w c r result.t result.s result.e }
    ensures multiplicity { result.s ≤ c * w }
    ensures below { result.e ≤ result.s * result.t }
{
    let t = agreement(c, r);
    let s = multiplicity(w, c, r, t);
    let rows = equations(r, s);
    let (e, cols) = weight(w, rows);
    Params {
        w,
        r,
        t,
        s,
        e,
        rows,
        cols,
    }
}

/// The least number that is at least a c-th part of r.
fn agreement(c: u32, r: u32) -> u32
    requires some { 1 ≤ c }
    requires few { c ≤ 8 }
    requires points { r ≤ 1024 }
    ensures least { IsAgreement c r result }
    ensures few { result ≤ r }
{
    (r + (c - 1)) / c
}

/// The least multiplicity that does.
fn multiplicity(w: u32, c: u32, r: u32, t: u32) -> u32
    requires enough { AreEnough w c r }
    requires bound { c ≤ 8 }
    requires product { c * w ≤ 12 }
    requires points { r ≤ 1024 }
    requires agreement { IsAgreement c r t }
    requires few { t ≤ r }
    ensures least { IsMultiplicity w r t result }
    ensures few { result ≤ c * w }
    ensures equations { equation_count r result ≤ 8000 }
{
    let room = t * t - w * r;
    let gap = (w * r).saturating_sub(t);
    let mut s = 1;
    's: while s * room <= gap {
        s += 1;
    }
    s
}

/// How many equations say that a curve has multiplicity s at each of r points.
fn equations(r: u32, s: u32) -> u32
    requires points { r ≤ 1024 }
    requires few { s ≤ 12 }
    ensures { result ≡ equation_count r s }
{
    r * (s * (s + 1)) / 2
}

/// The least weight below which there are more terms than equations, and how many terms those are.
fn weight(w: u32, rows: u32) -> (u32, u32)
    requires some { 1 ≤ w }
    requires light { w ≤ 12 }
    requires few { rows ≤ 8000 }
    ensures least { IsWeight w rows result.0 }
    ensures low { result.0 ≤ 4096 }
    ensures terms { result.1 ≡ term_count w result.0 }
{
    let mut e: u32 = 0;
    let mut cols: u32 = 0;
    'cols: while cols <= rows {
        cols += e / w + 1;
        e += 1;
    }
    (e, cols)
}
