//! Those in the list, one after the other.

ghost use Rattle.std.specs.Prelude.{◌≡◌, ◌+◌, ◌*◌, ◌^◌, ◌<◌, ◌≤◌, length, nat_lt, true, None, Some, IfSome, IfNone, if◌then◌else◌};
ghost use Rattle.decoding_terms.specs.Parameters.{is_allowed_bound};
ghost use Rattle.desk_terms.specs.Roll.{message_at, roll_of};
ghost use Rattle.report_terms.specs.Verdicts.{fault_of, first_fault, is_enrolled};
ghost use Rattle.report_check.specs.Walks.{Ascend};

use crate::places::{has_places, meets};
use code_terms::Message;
use desk_terms::Accused;
use gf2m::Field;
use lic_register::Register;
use report_terms::Verdict;
use rs_code::{Code, Word};
use steps::{Looks, Products, Steps};

/// The first thing that is wrong with one of them, by position.
pub(crate) fn first_fault<F: Field, P: Products, Q: Looks>(
    accused: &[Accused],
    register: &Register,
    code: &Code<F>,
    word: &Word,
    bound: u32,
    prods: &mut Steps<P>,
    looks: &mut Steps<Q>,
) -> Option<Verdict>
    requires bits { F.BITS ≡ register.now.bits }
    requires dimension { code.now.dimension ≡ register.now.dimension }
    requires length { length word.now ≡ code.now.places }
    requires bound { is_allowed_bound code.now.dimension bound ≡ true }
    ensures fault { result ≡ first_fault (roll_of register.now) word.now bound 0 0 accused.now }
    ensures order { IfNone result (Ascend 0 accused.now) }
    ensures products { prods.new
        ≤ prods.old + 2 * length accused.now * (code.now.places * code.now.dimension) }
    ensures looks { looks.new ≤ looks.old + 2 * length accused.now }
{
    let _licensees = register.len();
    let mut least = 0;
    'accused: for (i, one) in accused.iter().enumerate() {
        match fault_of(
            one, i as u32, least, register, code, word, bound, prods, looks,
        ) {
            Some(fault) => return Some(fault),
            None => least = one.serial + 1,
        }
    }
    None
}

/// What is wrong with one of them, at this position and behind serials that are all below `least`.
#[tactic(auto, unfolding(report_terms::specs::Verdicts::fault_of))]
fn fault_of<F: Field, P: Products, Q: Looks>(
    one: &Accused,
    position: u32,
    least: u32,
    register: &Register,
    code: &Code<F>,
    word: &Word,
    bound: u32,
    prods: &mut Steps<P>,
    looks: &mut Steps<Q>,
) -> Option<Verdict>
    requires bits { F.BITS ≡ register.now.bits }
    requires dimension { code.now.dimension ≡ register.now.dimension }
    requires length { length word.now ≡ code.now.places }
    requires bound { is_allowed_bound code.now.dimension bound ≡ true }
    ensures fault { result
        ≡ fault_of (roll_of register.now) word.now bound position least one.now }
    ensures enrolled { IfNone result (one.now.serial < length register.now.licensees) }
    ensures order { IfNone result (least ≤ one.now.serial) }
    ensures products { prods.new
        ≤ prods.old + 2 * (code.now.places * code.now.dimension) }
    ensures looks { looks.new ≤ looks.old + 2 }
{
    let message = match message_of(one, register, looks) {
        Some(message) => message,
        None => return Some(Verdict::NotEnrolled(position)),
    };
    if one.serial < least {
        return Some(Verdict::Order(position));
    }
    if !has_places(one.places.as_slice(), message, code, word, prods) {
        return Some(Verdict::WrongPlaces(position));
    }
    if !meets(message, code, word, bound, prods) {
        return Some(Verdict::Below(position));
    }
    None
}

/// The message of the licensee who has this serial and this name; `None` where there is none.
fn message_of<Q: Looks>(one: &Accused, register: &Register, looks: &mut Steps<Q>) -> Option<Message>
    ensures found { result ≡ (if is_enrolled (roll_of register.now) one.now then Some
        (message_at (roll_of register.now) one.now.serial) else None) }
    ensures small { IfSome result (λ u. u
        < 2 ^ (register.now.bits * register.now.dimension)) }
    ensures looks { looks.new ≤ looks.old + 2 }
{
    let licensee = match register.entry(one.serial, looks) {
        Some(licensee) => licensee,
        None => return None,
    };
    if licensee.name != one.name.as_str() {
        return None;
    }
    message_at(register, one.serial, looks)
}

/// The message of a serial; `None` where nobody has it.
pub(crate) fn message_at<Q: Looks>(
    register: &Register,
    serial: u32,
    looks: &mut Steps<Q>,
) -> Option<Message>
    ensures found { result ≡ (if nat_lt serial (length register.now.licensees) then Some
        (message_at (roll_of register.now) serial) else None) }
    ensures small { IfSome result (λ u. u
        < 2 ^ (register.now.bits * register.now.dimension)) }
    ensures looks { looks.new ≡ looks.old + 1 }
{
    let _licensees = register.len();
    register.message_of(serial, looks)
}
