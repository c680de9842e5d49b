//! A register in memory.

ghost use Rattle.std.specs.Prelude.{◌≡◌, ◌≤◌, ◌<◌, IfOk, length};
ghost use Rattle.std.specs.Result.{result_err};
ghost use Rattle.register_terms.specs.Enrolment.{IsValid};
ghost use Rattle.register_terms.specs.Rules.{empty_register, broken_rule};
ghost use Rattle.lic_register.specs.Parts.{register_by, IsAllowed};

use crate::rule::Rule;
use indexmap::IndexMap;
use register_terms::{MOST_LICENSEES, RegisterError};
use std::alloc::Global;
use std::marker::Model;

/// A register of licensees, which contracts see as the numbers of its code, the rule of its messages and the list of its
/// licensees. The place of a licensee in the list is the serial.
///
/// It keeps one index from names to states, in the order of enrolment, so no look-up walks over the licensees.
#[derive(Drop)]
pub struct Register {
    pub(crate) alloc: Global,
    pub(crate) rule: Rule,
    pub(crate) licensees: IndexMap<String, bool>,
}

impl Model for Register {
    ghost use Rattle.register_terms.specs.Enrolment.{Enrolment, IsValid};

    ghost Value = { Enrolment };

    ghost use Rattle.lic_register.specs.Index.{entry_licensees, register_with};

    ghost view = { λ r. register_with r.rule (entry_licensees r.licensees.entries) };

    ghost invariant = { λ r. IsValid (register_with r.rule (entry_licensees r.licensees.entries)) };
}

impl Register {
    /// A register without licensees, over codewords of `k` symbols of `m` bits, whose serial j has the message aj + b,
    /// taken by the number of messages. It takes no memory.
    pub fn new(alloc: Global, m: u32, k: u32, a: u128, b: u128) -> Result<Register, RegisterError>
        ensures refused { result_err result ≡ broken_rule m k a b }
        ensures made { IfOk result (λ r. r ≡ empty_register m k a b) }
    {
        let rule = Rule {
            bits: m,
            dimension: k,
            multiplier: a,
            shift: b,
        };
        match rule.broken() {
            Some(error) => Err(error),
            None => Ok(Register::by_rule(alloc, rule)),
        }
    }

    /// A register without licensees.
    pub(crate) fn by_rule(alloc: Global, rule: Rule) -> Register
        requires { IsAllowed rule }
        ensures { result ≡ register_by rule }
    {
        Register {
            alloc,
            rule,
            licensees: IndexMap::new(alloc),
        }
    }

    /// The bits of a symbol, 4 to 8.
    pub fn bits(&self) -> u32
        ensures value { result ≡ self.now.bits }
        ensures low { 4 ≤ result }
        ensures high { result ≤ 8 }
    {
        self.rule.bits
    }

    /// How many symbols a message has, 2 to 13.
    pub fn dimension(&self) -> u32
        ensures value { result ≡ self.now.dimension }
        ensures low { 2 ≤ result }
        ensures high { result ≤ 13 }
    {
        self.rule.dimension
    }

    /// The number of licensees, active and withdrawn.
    pub fn len(&self) -> u32
        ensures number { result ≡ length self.now.licensees }
        ensures few { result ≤ MOST_LICENSEES }
        ensures valid { IsValid self.now }
    {
        self.licensees.len() as u32
    }
}
