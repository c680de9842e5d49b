//! The call of the desk, over the field that the symbols of a register belong to.

ghost use Rattle.std.specs.Prelude.{◌≡◌, ◌≤◌, ◌^◌, length};
ghost use Rattle.code_terms.specs.Words.{HasSymbolsBelow};
ghost use Rattle.desk_terms.specs.Roll.{roll_of};
ghost use Rattle.trace_desk.specs.Answers.{TracesAs, tracing};
ghost use Rattle.outcome_terms.specs.Traces.{IsWithin, trace_at};
ghost use Rattle.trace_costs.specs.Costs.{curve_costs};

use command_io::over_field;
use desk_terms::Findings;
use gf2m::{Field, Gf};
use gs_params::Interpolate;
use lic_register::Register;
use rs_code::{Code, Word};
use std::alloc::Global;
use steps::{Looks, Products, Steps};
use trace_desk::{DeskError, accuse};

/// What the desk answers for this register.
pub fn desk_answer<I: Interpolate, P: Products, Q: Looks>(
    alloc: Global,
    register: &Register,
    word: &Word,
    bound: u32,
    by: &I,
    prods: &mut Steps<P>,
    looks: &mut Steps<Q>,
) -> Result<Findings, DeskError>
    requires least { 1 ≤ length word.now }
    requires most { length word.now ≤ 2 ^ register.now.bits }
    requires symbols { HasSymbolsBelow (2 ^ register.now.bits) word.now }
    ensures findings { TracesAs result (tracing (roll_of register.now) word.now bound) }
    ensures steps { IsWithin (curve_costs I.cost) (trace_at register.now.dimension word.now bound)
        (record { products = prods.old; looks = looks.old })
        (record { products = prods.new; looks = looks.new }) }
{
    over_field!(
        register.bits(),
        answer_over,
        [I, P, Q],
        (alloc, register, word, bound, by, prods, looks)
    )
}

/// The same over this field.
fn answer_over<F: Field, I: Interpolate, P: Products, Q: Looks>(
    alloc: Global,
    register: &Register,
    word: &Word,
    bound: u32,
    by: &I,
    prods: &mut Steps<P>,
    looks: &mut Steps<Q>,
) -> Result<Findings, DeskError>
    requires field { F.BITS ≡ register.now.bits }
    requires least { 1 ≤ length word.now }
    requires most { length word.now ≤ 2 ^ register.now.bits }
    requires symbols { HasSymbolsBelow (2 ^ register.now.bits) word.now }
    ensures findings { TracesAs result (tracing (roll_of register.now) word.now bound) }
    ensures steps { IsWithin (curve_costs I.cost) (trace_at register.now.dimension word.now bound)
        (record { products = prods.old; looks = looks.old })
        (record { products = prods.new; looks = looks.new }) }
{
    let code = Code::<F>::new(word.len(), register.dimension()).unwrap();
    accuse(alloc, register, &code, word, bound, by, prods, looks)
}
