//! The points of pairs.

ghost use Rattle.std.specs.Prelude.{◌≡◌, ◌<◌, ◌≤◌, [], ◌∷◌, ◌++◌, All, IfOk, OnOk, map};
ghost use Rattle.pair_terms.specs.Pairs.{HaveSymbolsBelow};
ghost use Rattle.list_decode.specs.Points.{ArePoints, numbers_of};

use gf2m::Field;
use lists::Memory;
use std::alloc::{AllocError, Global};

/// For each pair the element of its place's number, and the symbol.
pub fn points<F: Field>(
    alloc: Global,
    places: u32,
    pairs: &[(u32, u8)],
) -> Result<Vec<(F, F)>, Memory>
    requires places { places ≤ F.Q }
    requires within { All (λ p. p.0 < places) pairs.now }
    requires symbols { HaveSymbolsBelow F.Q pairs.now }
    ensures { IfOk result (λ points. ArePoints F.number pairs.now points.items) }
{
    let mut points = Vec::new(alloc);
    'pairs: for i in 0..pairs.len() {
        let (place, symbol) = pairs[i];
        add_point(&mut points, place, symbol)?;
    }
    Ok(points)
}

/// Puts the point with these numbers behind the others.
fn add_point<F: Field>(points: &mut Vec<(F, F)>, place: u32, symbol: u8) -> Result<(), AllocError>
    requires place { place < F.Q }
    requires symbol { symbol < F.Q }
    ensures { OnOk result (map (numbers_of F.number) points.new.items
        ≡ map (numbers_of F.number) points.old.items ++ (place, symbol) ∷ []) }
{
    let x = element(place as u8);
    let y = element(symbol);
    points.push((x, y))?;
    Ok(())
}

/// The element with this number.
fn element<F: Field>(number: u8) -> F
    requires { number < F.Q }
    ensures { F.number result ≡ number }
{
    F::of(number).unwrap()
}
