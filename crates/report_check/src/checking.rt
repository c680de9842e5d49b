//! The verdict on findings.

ghost use Rattle.std.specs.Prelude.{◌≡◌, ◌+◌, ◌≤◌, length, true};
ghost use Rattle.decoding_terms.specs.Parameters.{is_allowed_bound};
ghost use Rattle.desk_terms.specs.Roll.{roll_of};
ghost use Rattle.report_terms.specs.Verdicts.{list_verdict, verdict};
ghost use Rattle.report_check.specs.Bounds.{check_bound, check_look_bound};

use crate::listed::first_fault;
use crate::missing::first_missed;
use desk_terms::{Accused, Findings};
use gf2m::Field;
use lic_register::Register;
use report_terms::Verdict;
use rs_code::{Code, Word};
use steps::{Looks, Products, Steps};

/// The verdict on these findings: the first thing that is wrong with them, or that they are right. It compares the word with one
/// licensee after the other, and takes no memory.
#[tactic(auto, unfolding(report_terms::specs::Verdicts::verdict))]
pub fn check<F: Field, P: Products, Q: Looks>(
    findings: &Findings,
    register: &Register,
    code: &Code<F>,
    word: &Word,
    prods: &mut Steps<P>,
    looks: &mut Steps<Q>,
) -> Verdict
    requires bits { F.BITS ≡ register.now.bits }
    requires dimension { code.now.dimension ≡ register.now.dimension }
    requires length { length word.now ≡ code.now.places }
    requires bound { is_allowed_bound code.now.dimension findings.now.bound ≡ true }
    ensures verdict { result ≡ verdict (roll_of register.now) word.now findings.now }
    ensures products { prods.new ≤ prods.old
        + check_bound F.BITS code.now.places code.now.dimension (length findings.now.accused) }
    ensures looks { looks.new ≤ looks.old
        + check_look_bound (length register.now.licensees) (length findings.now.accused) }
{
    let bound = findings.bound;
    let readable = word.readable();
    if readable <= bound * bound * (register.dimension() - 1) {
        return Verdict::TooFew(readable);
    }
    if findings.readable != readable {
        return Verdict::WrongReadable;
    }
    let accused = findings.accused.as_slice();
    list_verdict(accused, register, code, word, bound, prods, looks)
}

/// The verdict on a list of accused, of whom the first that is wrong counts, and then the first who is missing.
fn list_verdict<F: Field, P: Products, Q: Looks>(
    accused: &[Accused],
    register: &Register,
    code: &Code<F>,
    word: &Word,
    bound: u32,
    prods: &mut Steps<P>,
    looks: &mut Steps<Q>,
) -> Verdict
    requires bits { F.BITS ≡ register.now.bits }
    requires dimension { code.now.dimension ≡ register.now.dimension }
    requires length { length word.now ≡ code.now.places }
    requires bound { is_allowed_bound code.now.dimension bound ≡ true }
    ensures verdict { result ≡ list_verdict (roll_of register.now) word.now bound accused.now }
    ensures products { prods.new ≤ prods.old
        + check_bound F.BITS code.now.places code.now.dimension (length accused.now) }
    ensures looks { looks.new ≤ looks.old
        + check_look_bound (length register.now.licensees) (length accused.now) }
{
    match first_fault(accused, register, code, word, bound, prods, looks) {
        Some(fault) => fault,
        None => match first_missed(accused, register, code, word, bound, prods, looks) {
            Some(serial) => Verdict::Absent(serial),
            None => Verdict::Right,
        },
    }
}
