//! What a title has to be for a register and a bound.

ghost use Rattle.std.specs.Prelude.{◌≡◌, ◌≤◌, IsTrue};
ghost use Rattle.packaging_terms.specs.Licensees.{fits};
ghost use Rattle.outcome_terms.specs.PackageCommand.{mismatch};
ghost use Rattle.outcome_terms.specs.Stores.{Settles};
ghost use Rattle.outcome_terms.specs.TraceCommand.{is_served};
ghost use Rattle.copy_io.specs.Demands.{demanded};

use lic_register::Register;
use outcome_terms::{Fault, Refusal};
use title_store::Title;

/// The bound, where title and register are of one code and the title serves the bound. The codes are looked at first.
#[tactic(auto, unfolding(crate::specs::Demands::demanded))]
pub fn demanded(title: &Title, register: &Register, c: u128) -> Result<u32, Refusal>
    ensures { Settles result (demanded title.now register.now c) }
{
    if !fits(title, register) {
        return Err(Refusal::Content(mismatch(title, register)));
    }
    if !is_served(title, c) {
        return Err(Refusal::Content(Fault::BadBound(c)));
    }
    Ok(c as u32)
}

/// Whether title and register are of one code.
pub fn fits(title: &Title, register: &Register) -> bool
    ensures { result ≡ fits title.now register.now }
{
    title.bits() == register.bits() && title.dimension() == register.dimension()
}

/// The codes that differ.
pub fn mismatch(title: &Title, register: &Register) -> Fault
    ensures { result ≡ mismatch title.now register.now }
{
    Fault::Mismatch {
        title_bits: title.bits(),
        title_dimension: title.dimension(),
        register_bits: register.bits(),
        register_dimension: register.dimension(),
    }
}

/// Whether the title serves coalitions of so many licensees.
pub fn is_served(title: &Title, c: u128) -> bool
    ensures served { result ≡ is_served title.now c }
    ensures small { IsTrue result → c ≤ 8 }
{
    1 <= c && c <= u128::from(title.bound())
}
