//! Systems that are solved by hand.

ghost use Rattle.std.specs.Prelude.{◌≡◌, ◌<◌};

use gf2m::{Elements, Field, Gf};
use linear_solve::Matrix;
use std::alloc::Global;
use std::marker::Brand;
use std::process::Abort;
use std::sync::ledger::Blank;
use steps::{Ledger, ProductLedger, Products, Steps};

/// The matrix with these entries, row by row.
fn matrix_of<F: Field>(alloc: Global, columns: usize, numbers: &[u8]) -> Option<Matrix<F>> {
    if columns == 0 || columns > 4 || numbers.len() > 12 || numbers.len() < columns {
        return None;
    }
    let rows = numbers.len() / columns;
    let mut matrix = Matrix::zeros(alloc, rows, columns).ok()?;
    'entries: for place in 0..rows * columns {
        matrix.set(place / columns, place % columns, F::of(numbers[place])?);
    }
    Some(matrix)
}

/// Whether the vector is a multiple of these numbers that is not zero; they begin with 1 or with zeros and 1.
fn is_multiple<F: Field, P: Products>(
    vector: &Elements<F>,
    numbers: &[u8],
    prods: &mut Steps<P>,
) -> Option<bool> {
    let lead = numbers.iter().position(|number| *number == 1)?;
    let factor = *vector.get(lead)?;
    'numbers: for (place, number) in numbers.iter().enumerate() {
        if *vector.get(place)? != factor.mul(F::of(*number)?, prods) {
            return Some(false);
        }
    }
    Some(factor != F::zero() && vector.len() == numbers.len())
}

/// Whether the kernel has just the multiples of these numbers, or for no numbers just zero.
fn has_kernel<F: Field, P: Products>(
    alloc: Global,
    columns: usize,
    entries: &[u8],
    numbers: &[u8],
    prods: &mut Steps<P>,
) -> Option<bool> {
    match matrix_of::<F>(alloc, columns, entries)?
        .kernel(alloc, prods)
        .ok()?
    {
        Some(vector) => is_multiple(&vector, numbers, prods),
        None => Some(numbers.is_empty()),
    }
}

/// The rank of the matrix with these entries.
fn rank_of<F: Field, P: Products>(
    alloc: Global,
    columns: usize,
    entries: &[u8],
    prods: &mut Steps<P>,
) -> Option<usize> {
    matrix_of::<F>(alloc, columns, entries)?
        .rank(alloc, prods)
        .ok()
}

/// Kernels that were worked out apart.
fn known_kernels<F: Field, P: Ledger>(rt: &impl Abort, host: &HostRuntime, blank: Blank)
    requires name { blank.name ≡ P.name }
    requires parts { blank.parts ≡ P.parts }
    requires some { 0 < P.parts }
{
    let alloc = host.alloc();
    let mut prods = Steps::<ProductLedger<P>>::new(host, blank);
    assert!(rt; has_kernel::<F, _>(alloc, 2, &[0, 0, 1, 0], &[0, 1], &mut prods) == Some(true));
    assert!(rt; has_kernel::<F, _>(alloc, 1, &[0, 0], &[1], &mut prods) == Some(true));
    assert!(rt; has_kernel::<F, _>(alloc, 2, &[2, 1, 2, 1], &[1, 2], &mut prods) == Some(true));
    assert!(rt; has_kernel::<F, _>(alloc, 2, &[1, 0, 0, 1], &[], &mut prods) == Some(true));
    assert!(rt; has_kernel::<F, _>(alloc, 2, &[1, 1], &[1, 1], &mut prods) == Some(true));
    assert!(rt;
        has_kernel::<F, _>(alloc, 3, &[1, 0, 1, 0, 1, 1], &[1, 1, 1], &mut prods) == Some(true)
    );
}

/// Ranks that were worked out apart.
fn known_ranks<F: Field, P: Ledger>(rt: &impl Abort, host: &HostRuntime, blank: Blank)
    requires name { blank.name ≡ P.name }
    requires parts { blank.parts ≡ P.parts }
    requires some { 0 < P.parts }
{
    let alloc = host.alloc();
    let mut prods = Steps::<ProductLedger<P>>::new(host, blank);
    assert!(rt; rank_of::<F, _>(alloc, 2, &[0, 0, 1, 0], &mut prods) == Some(1));
    assert!(rt; rank_of::<F, _>(alloc, 1, &[0, 0], &mut prods) == Some(0));
    assert!(rt; rank_of::<F, _>(alloc, 2, &[2, 1, 2, 1], &mut prods) == Some(1));
    assert!(rt; rank_of::<F, _>(alloc, 2, &[1, 0, 0, 1], &mut prods) == Some(2));
    assert!(rt; rank_of::<F, _>(alloc, 2, &[1, 1], &mut prods) == Some(1));
    assert!(rt; rank_of::<F, _>(alloc, 3, &[1, 0, 1, 0, 1, 1], &mut prods) == Some(2));
    assert!(rt; rank_of::<F, _>(alloc, 3, &[1, 0, 1, 0, 1, 1, 1, 1, 0], &mut prods) == Some(2));
}

#[test]
fn solves_systems(rt: HostRuntime) {
    known_kernels::<Gf<4>, Brand>(&rt, &rt, Blank::new(1));
    known_kernels::<Gf<8>, Brand>(&rt, &rt, Blank::new(1));
    known_ranks::<Gf<4>, Brand>(&rt, &rt, Blank::new(1));
    known_ranks::<Gf<8>, Brand>(&rt, &rt, Blank::new(1));
}
