//! The exponents of terms.

ghost use Rattle.std.specs.Prelude.{◌≡◌, ◌+◌, ◌-◌, ◌*◌, ◌/◌, ◌≤◌, IfOk, OnOk};
ghost use Rattle.term_lists.specs.Extended.{IsExtended};
ghost use Rattle.term_lists.specs.Places.{AreTermsBelow};

use std::alloc::{AllocError, Global};

/// The powers of x and y in a term.
#[derive(Clone, Copy, Debug)]
pub struct Exponents {
    /// The power of x.
    pub x: usize,
    /// The power of y.
    pub y: usize,
}

/// The terms that weigh less than `e`, where y weighs `w`: by weight, and where that is the same by the power of y.
pub fn terms_below(alloc: Global, w: usize, e: usize) -> Result<Vec<Exponents>, AllocError>
    requires some { 1 ≤ w }
    requires light { w ≤ 12 }
    requires low { e ≤ 4096 }
    ensures { IfOk result (λ terms. AreTermsBelow w e terms.items) }
{
    let mut terms = Vec::new(alloc);
    'weights: for weight in 0..e {
        add_weight(&mut terms, w, weight)?;
    }
    Ok(terms)
}

/// Adds the terms of one weight.
fn add_weight(terms: &mut Vec<Exponents>, w: usize, weight: usize) -> Result<(), AllocError>
    requires some { 1 ≤ w }
    requires light { w ≤ 12 }
    requires low { weight ≤ 4096 }
    ensures { OnOk result (IsExtended
        (λ j term. term ≡ record { x = weight - w * j; y = j })
        (record { x = 0; y = 0 })
        terms.old.items
        (weight / w + 1)
        terms.new.items) }
{
    'powers: for y in 0..weight / w + 1 {
        terms.push(Exponents {
            x: weight - w * y,
            y,
        })?;
    }
    Ok(())
}
