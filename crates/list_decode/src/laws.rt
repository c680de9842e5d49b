//! What is proved of curves and messages alone.

ghost use Rattle.std.specs.Prelude.{◌≡◌, ℕ, List, Option, length, map, true};
ghost use Rattle.algebra.specs.Bivariate.{Bivariate};
ghost use Rattle.algebra.specs.Lists.{coefficients};
ghost use Rattle.code_terms.specs.Symbols.{packed};
ghost use Rattle.decoder_terms.specs.Decoding.{meets_threshold};
ghost use Rattle.pair_terms.specs.Pairs.{ArePairs, Pair, pairs_of};
ghost use Rattle.pair_terms.specs.Recovery.{fits_enough};
ghost use Rattle.root_terms.specs.YRoots.{IsYRoot};
ghost use Rattle.list_decode.specs.Curves.{IsCurveOf};

use gf2m::Field;

/// Agreement makes a root: of a curve that an interpolator finds with the parameters for some pairs, the polynomial of each
/// message that fits enough of the pairs is a y-root. For the pairs of a word these are the messages that meet the threshold.
pub fn agreement_makes_a_root<F: Field>()
    ensures pairs { (n k c : ℕ) (pairs : List Pair) (q : Bivariate F) (list : List F)
        → ArePairs n pairs → IsCurveOf F.ring F.number k c pairs q → length list ≡ k
        → fits_enough F.BITS k pairs c (packed F.BITS (map F.number list)) ≡ true
        → IsYRoot F.ring q (coefficients F.ring list) }
    ensures word { (k c : ℕ) (word : List (Option ℕ)) (q : Bivariate F) (list : List F)
        → IsCurveOf F.ring F.number k c (pairs_of word) q → length list ≡ k
        → meets_threshold F.BITS k word c (packed F.BITS (map F.number list)) ≡ true
        → IsYRoot F.ring q (coefficients F.ring list) }
{}
