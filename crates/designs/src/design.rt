//! A design in memory.

ghost use Rattle.std.specs.Prelude.{◌≡◌, ◌≤◌, ◌<◌, ◌++◌, IfOk, Some, length, slice_get};
ghost use Rattle.title_terms.specs.Designs.{IsDesign, places, symbols, variant_name};
ghost use Rattle.title_terms.specs.DesignText.{design_of};
ghost use Rattle.title_terms.specs.DesignRules.{design_from};
ghost use Rattle.designs.specs.Answers.{Gives, of_numbers};

use crate::document::design_in;
use crate::errors::DesignError;
use crate::judging::{Wanted, judge, numbers};
use lists::{Memory, Text};
use std::alloc::Global;
use std::marker::Model;
use title_terms::DesignFault;

/// A design, which contracts see as its seven values. All rules of `title_terms` on designs hold of it.
#[derive(Debug, Drop)]
pub struct Design {
    pub(crate) name: Text,
    pub(crate) bits: u32,
    pub(crate) dimension: u32,
    pub(crate) bound: u32,
    pub(crate) prefix: Text,
    pub(crate) suffix: Text,
    pub(crate) marked: Vec<u32>,
}

impl Model for Design {
    ghost use Rattle.title_terms.specs.Designs.{Design, IsDesign};

    ghost Value = { Design };

    ghost view = { λ d. record { name = d.name; bits = d.bits; dimension = d.dimension; bound = d.bound; prefix = d.prefix; suffix = d.suffix; marked = d.marked.items } };

    ghost invariant = { λ d. IsDesign (record { name = d.name; bits = d.bits; dimension = d.dimension; bound = d.bound; prefix = d.prefix; suffix = d.suffix; marked = d.marked.items }) };
}

impl Design {
    /// The design that the bytes say, which have to be a TOML document as the kit's `toml` reads it.
    #[tactic(auto, unfolding(title_terms::specs::DesignText::design_of))]
    pub fn read(alloc: Global, bytes: &[u8]) -> Result<Design, DesignError>
        // Which design it is, or the first thing that is wrong.
        ensures { Gives result (design_of bytes.now) }
    {
        match toml::table_from_slice(alloc, bytes) {
            Ok(table) => design_in(alloc, &table),
            Err(error) if error.is_memory() => Err(DesignError::Memory),
            Err(_) => Err(DesignError::NotDesign(DesignFault::NotToml)),
        }
    }

    /// The design of these values, which it copies: symbols of `m` bits, messages of `k` symbols, coalitions of up to `c`.
    pub fn of(
        alloc: Global,
        name: &str,
        m: u32,
        k: u32,
        c: u32,
        prefix: &str,
        suffix: &str,
        marked: &[u32],
    ) -> Result<Design, DesignError>
        // Which design it is, or the first rule that is broken.
        ensures { Gives result (design_from
            (of_numbers name.now m k c prefix.now suffix.now marked.now)) }
    {
        let marks = numbers(alloc, marked)?;
        let wanted = Wanted {
            name,
            bits: Some(u64::from(m)),
            dimension: Some(u64::from(k)),
            bound: Some(u64::from(c)),
            prefix,
            suffix,
            marked: marks.as_slice(),
        };
        judge(alloc, &wanted)
    }

    /// The name, which is plain.
    pub fn name(&self) -> &Text
        ensures { result.now ≡ self.now.name }
    {
        &self.name
    }

    /// What stands in front of the numbers in a variant's name.
    pub fn prefix(&self) -> &Text
        ensures { result.now ≡ self.now.prefix }
    {
        &self.prefix
    }

    /// What stands behind them.
    pub fn suffix(&self) -> &Text
        ensures { result.now ≡ self.now.suffix }
    {
        &self.suffix
    }

    /// The bits of a symbol, 4 to 8.
    pub fn bits(&self) -> u32
        ensures value { result ≡ self.now.bits }
        ensures low { 4 ≤ result }
        ensures high { result ≤ 8 }
    {
        self.bits
    }

    /// How many symbols there are, 16 to 256.
    pub fn symbols(&self) -> u32
        ensures number { result ≡ symbols self.now }
        ensures low { 16 ≤ result }
        ensures high { result ≤ 256 }
    {
        1 << self.bits
    }

    /// How many symbols a message has, 2 to 13.
    pub fn dimension(&self) -> u32
        ensures value { result ≡ self.now.dimension }
        ensures low { 2 ≤ result }
        ensures high { result ≤ 13 }
    {
        self.dimension
    }

    /// The largest coalition, 1 to 8.
    pub fn bound(&self) -> u32
        ensures value { result ≡ self.now.bound }
        ensures low { 1 ≤ result }
        ensures high { result ≤ 8 }
    {
        self.bound
    }

    /// The number of marked segments.
    pub fn places(&self) -> u32
        ensures number { result ≡ places self.now }
        ensures few { result ≤ 256 }
        ensures allowed { IsDesign self.now }
    {
        self.marked.len() as u32
    }

    /// The number of the segment at this place.
    pub fn marked(&self, place: u32) -> u32
        requires { place < places self.now }
        ensures { slice_get self.now.marked place ≡ Some result }
    {
        self.marked[place as usize]
    }

    /// The numbers of the marked segments, by place.
    pub fn marks(&self) -> &[u32]
        ensures numbers { result.now ≡ self.now.marked }
        ensures few { length result.now ≤ 256 }
    {
        self.marked.as_slice()
    }

    /// The name of the variant of this symbol at this place.
    #[tactic(auto, using(std::proofs::Common::append_assoc))]
    pub fn variant_name(&self, alloc: Global, place: u32, symbol: u8) -> Result<Text, Memory>
        ensures { IfOk result (λ name. name ≡ variant_name self.now place symbol) }
    {
        let mut name = String::from_str(alloc, self.prefix.as_str())?;
        name.push_str(place.to_string(alloc)?.as_str())?;
        name.push_str("-")?;
        name.push_str(hex::encode(alloc, [symbol])?.as_str())?;
        name.push_str(self.suffix.as_str())?;
        Ok(Text::over(name))
    }
}
