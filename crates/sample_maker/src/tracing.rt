//! The call of the desk.

ghost use Rattle.std.specs.Prelude.{◌≡◌, ◌+◌, ◌≤◌, ℕ, IfOk, length};
ghost use Rattle.code_terms.specs.Words.{HasSymbolsBelow, readable};
ghost use Rattle.desk_terms.specs.Bounds.{tracing_bound};
ghost use Rattle.desk_terms.specs.Findings.{findings};
ghost use Rattle.desk_terms.specs.Roll.{roll_of};
ghost use Rattle.list_decode.specs.Answers.{CostsAtMost};

use desk_terms::Findings;
use gf2m::Gf;
use gs_params::Interpolate;
use lic_register::Register;
use lists::Memory;
use rs_code::{Code, Word};
use std::alloc::Global;
use steps::{Looks, Products, Steps};
use trace_desk::accuse;

/// Whom the desk accuses at the bound 3, for a word of 64 places of which 30 are readable.
pub(crate) fn findings_of<I: Interpolate, P: Products, Q: Looks>(
    alloc: Global,
    register: &Register,
    word: &Word,
    by: &I,
    prods: &mut Steps<P>,
    looks: &mut Steps<Q>,
) -> Result<Findings, Memory>
    requires bits { register.now.bits ≡ 8 }
    requires dimension { register.now.dimension ≡ 3 }
    requires length { length word.now ≡ 64 }
    requires symbols { HasSymbolsBelow 256 word.now }
    requires readable { readable word.now ≡ 30 }
    ensures findings { IfOk result (λ found. found ≡ findings (roll_of register.now) word.now 3) }
    ensures products { (curve : ℕ) → CostsAtMost I.cost 3 3 30 curve
        → prods.new ≤ prods.old + tracing_bound curve 64 3 3 }
    ensures looks { looks.new ≤ looks.old + 67 }
{
    let code = Code::<Gf<8>>::new(64, 3).unwrap();
    match accuse(alloc, register, &code, word, 3, by, prods, looks) {
        Ok(found) => Ok(found),
        Err(_) => Err(Memory),
    }
}
