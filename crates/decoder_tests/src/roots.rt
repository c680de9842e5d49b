//! Curves whose y-roots are known: products of factors y + f and of factors without y-roots.

ghost use Rattle.std.specs.Prelude.{◌≡◌, ◌<◌};

use bi_poly::BiPoly;
use gf2m::{Field, Gf};
use rr_roots::poly_roots;
use std::alloc::Global;
use std::marker::Brand;
use std::process::Abort;
use std::sync::ledger::Blank;
use steps::{Ledger, ProductLedger, Products, Steps};
use uni_poly::Poly;

/// A term: the power of x, that of y, and the number of the coefficient.
type Term = (usize, usize, u8);

/// The terms of a curve, and the numbers of the coefficients of its y-roots of degree below `k`.
struct Curve {
    k: u32,
    terms: &'static [Term],
    roots: &'static [&'static [u8]],
}

const IN_16: &[Curve] = &[
    Curve {
        k: 2,
        terms: &[(0, 2, 1), (2, 0, 1)],
        roots: &[&[0, 1]],
    },
    Curve {
        k: 2,
        terms: &[(0, 1, 1), (0, 2, 1), (1, 0, 1), (2, 0, 1)],
        roots: &[&[0, 1], &[1, 1]],
    },
    Curve {
        k: 2,
        terms: &[(0, 2, 1), (1, 0, 1)],
        roots: &[],
    },
    Curve {
        k: 2,
        terms: &[(1, 1, 1)],
        roots: &[&[]],
    },
    // each once, and a factor without y-roots
    Curve {
        k: 2,
        terms: &[
            (0, 3, 5),
            (0, 4, 4),
            (0, 5, 1),
            (1, 1, 5),
            (1, 2, 1),
            (2, 0, 5),
            (2, 1, 1),
            (2, 2, 5),
            (2, 3, 1),
            (3, 0, 5),
            (3, 1, 1),
        ],
        roots: &[&[5], &[0, 1], &[1, 1]],
    },
    // one of them twice
    Curve {
        k: 3,
        terms: &[
            (0, 1, 6),
            (0, 3, 1),
            (2, 0, 3),
            (2, 1, 4),
            (2, 2, 9),
            (4, 0, 2),
            (4, 1, 1),
            (6, 0, 9),
        ],
        roots: &[&[7, 2, 1], &[0, 0, 9]],
    },
    // the same first coefficients
    Curve {
        k: 3,
        terms: &[
            (0, 2, 9),
            (0, 3, 8),
            (0, 4, 9),
            (0, 5, 7),
            (0, 6, 1),
            (1, 0, 9),
            (1, 1, 8),
            (1, 2, 9),
            (1, 3, 7),
            (1, 4, 1),
            (2, 2, 13),
            (2, 3, 4),
            (2, 4, 13),
            (2, 5, 2),
            (3, 0, 13),
            (3, 1, 4),
            (3, 2, 5),
            (3, 3, 9),
            (3, 4, 15),
            (4, 0, 8),
            (4, 1, 11),
            (4, 2, 13),
            (4, 3, 12),
            (4, 4, 1),
            (5, 0, 2),
            (5, 1, 12),
            (5, 2, 3),
            (5, 3, 15),
            (6, 0, 2),
            (6, 1, 15),
            (6, 2, 6),
            (6, 3, 2),
            (7, 0, 6),
            (7, 1, 2),
        ],
        roots: &[&[3], &[4, 0, 1], &[3, 5, 1], &[3, 5, 2]],
    },
    // zero among them, and a power of x
    Curve {
        k: 2,
        terms: &[(3, 2, 15), (3, 3, 1), (4, 1, 15), (4, 2, 14), (5, 1, 15)],
        roots: &[&[], &[0, 1], &[15, 15]],
    },
    // as many as the degree in y
    Curve {
        k: 3,
        terms: &[
            (0, 3, 1),
            (0, 5, 1),
            (1, 2, 1),
            (1, 3, 1),
            (3, 1, 1),
            (3, 3, 1),
            (4, 1, 1),
            (4, 3, 1),
            (5, 1, 1),
            (5, 2, 1),
        ],
        roots: &[&[], &[1], &[0, 1], &[0, 0, 1], &[1, 1, 1]],
    },
];

const IN_256: &[Curve] = &[
    // each once, and a factor without y-roots
    Curve {
        k: 3,
        terms: &[
            (0, 3, 248),
            (0, 4, 55),
            (0, 5, 1),
            (1, 1, 248),
            (1, 2, 55),
            (1, 3, 181),
            (1, 4, 17),
            (2, 1, 180),
            (2, 2, 44),
            (2, 3, 181),
            (2, 4, 129),
            (3, 0, 61),
            (3, 1, 181),
            (3, 2, 57),
            (3, 3, 121),
            (4, 0, 184),
            (4, 1, 121),
        ],
        roots: &[&[255], &[200, 17], &[0, 0, 129]],
    },
    // one of them twice
    Curve {
        k: 2,
        terms: &[
            (3, 0, 251),
            (3, 1, 188),
            (3, 2, 99),
            (3, 3, 1),
            (4, 0, 101),
            (4, 2, 2),
            (5, 0, 99),
            (5, 1, 1),
            (6, 0, 2),
        ],
        roots: &[&[99, 1], &[99, 2]],
    },
    // the same first coefficients
    Curve {
        k: 4,
        terms: &[
            (0, 3, 1),
            (0, 4, 1),
            (0, 5, 1),
            (0, 6, 1),
            (1, 1, 1),
            (1, 2, 1),
            (1, 3, 3),
            (1, 4, 1),
            (1, 5, 2),
            (2, 1, 2),
            (2, 3, 6),
            (2, 4, 4),
            (3, 1, 4),
            (3, 2, 4),
            (3, 3, 13),
            (3, 5, 5),
            (4, 1, 13),
            (4, 4, 5),
            (5, 1, 5),
            (5, 2, 5),
            (5, 3, 29),
            (5, 4, 3),
            (6, 1, 29),
            (6, 2, 3),
            (6, 3, 22),
            (6, 4, 16),
            (7, 1, 22),
            (7, 2, 16),
            (7, 3, 52),
            (8, 1, 52),
            (8, 3, 12),
            (9, 1, 12),
            (9, 3, 80),
            (10, 1, 80),
        ],
        roots: &[&[], &[1, 2, 0, 4], &[1, 2, 3, 4], &[1, 2, 3, 5]],
    },
    // as many as the degree in y
    Curve {
        k: 3,
        terms: &[
            (0, 2, 192),
            (0, 3, 249),
            (0, 4, 1),
            (1, 1, 148),
            (1, 2, 76),
            (1, 3, 122),
            (2, 1, 244),
            (2, 2, 223),
            (2, 3, 252),
            (3, 1, 167),
            (3, 2, 49),
            (4, 1, 199),
        ],
        roots: &[&[], &[7, 7], &[0, 128], &[254, 253, 252]],
    },
];

/// The polynomial of these terms.
fn polynomial<F: Field>(alloc: Global, terms: &[Term]) -> Option<BiPoly<F>> {
    let mut whole = BiPoly::zero(alloc);
    for (i, j, number) in terms {
        if *i >= 4096 || *j >= 4096 {
            return None;
        }
        whole.set(*i, *j, F::of(*number)?).ok()?;
    }
    Some(whole)
}

/// Whether these are the coefficients of the root, lowest first.
fn has_numbers<F: Field>(root: &Poly<F>, numbers: &[u8]) -> bool {
    let coefs = root.as_slice();
    if coefs.len() != numbers.len() {
        return false;
    }
    for i in 0..coefs.len() {
        if coefs[i].to() != numbers[i] {
            return false;
        }
    }
    true
}

/// Whether these are the curve's y-roots, in this order.
fn has_roots<F: Field, P: Products>(
    alloc: Global,
    curve: &Curve,
    prods: &mut Steps<P>,
) -> Option<bool> {
    let whole = polynomial::<F>(alloc, curve.terms)?;
    if whole.x_degree()? >= 4096 || curve.k < 2 || curve.k > 13 {
        return None;
    }
    let found = poly_roots(alloc, &whole, curve.k, prods).ok()?;
    if found.len() != curve.roots.len() {
        return Some(false);
    }
    for i in 0..curve.roots.len() {
        if !has_numbers(&found.as_slice()[i], curve.roots[i]) {
            return Some(false);
        }
    }
    Some(true)
}

/// Roots that were worked out apart.
fn known_roots<P: Ledger>(rt: &impl Abort, host: &HostRuntime, blank: Blank)
    requires name { blank.name ≡ P.name }
    requires parts { blank.parts ≡ P.parts }
    requires some { 0 < P.parts }
{
    let alloc = host.alloc();
    let mut prods = Steps::<ProductLedger<P>>::new(host, blank);
    for curve in IN_16 {
        assert!(rt; has_roots::<Gf<4>, _>(alloc, curve, &mut prods) == Some(true));
    }
    for curve in IN_256 {
        assert!(rt; has_roots::<Gf<8>, _>(alloc, curve, &mut prods) == Some(true));
    }
}

#[test]
fn finds_all_roots_in_order(rt: HostRuntime) {
    known_roots::<Brand>(&rt, &rt, Blank::new(1));
}
