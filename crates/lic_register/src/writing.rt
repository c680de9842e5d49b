//! The text of a register.

ghost use Rattle.std.specs.Prelude.{◌≡◌, ◌+◌, ◌++◌, length, map, IfOk, OnOk};
ghost use Rattle.std.specs.List.{flat_map};
ghost use Rattle.form_terms.specs.TextLines.{line, number_text};
ghost use Rattle.register_terms.specs.RegisterText.{header_lines, licensee_line, register_text};
ghost use Rattle.register_terms.specs.declared.edition.Edition.TheVariants.{Newer};
ghost use Rattle.lic_register.specs.Index.{entry_licensees};
ghost use Rattle.lic_register.specs.Parts.{register_by};

use crate::register::Register;
use crate::rule::Rule;
use indexmap::IndexMap;
use lists::Memory;
use std::alloc::Global;
use steps::{Looks, Steps};
use texts::number_text;

impl Register {
    /// The text that the register is kept as. It takes a look for each licensee.
    pub fn write<Q: Looks>(&self, looks: &mut Steps<Q>) -> Result<Vec<u8>, Memory>
        ensures text { IfOk result (λ bytes. bytes.items ≡ register_text self.now) }
        ensures looks { looks.new ≡ looks.old + length self.now.licensees }
    {
        looks.add(u64::from(self.len()));
        let mut out = Vec::new(self.alloc);
        put_header(self.alloc, &mut out, &self.rule)?;
        put_licensees(&mut out, &self.licensees)?;
        Ok(out)
    }
}

/// Writes the five lines before the licensees.
#[tactic(auto, using(std::proofs::Common::append_assoc))]
fn put_header(alloc: Global, out: &mut Vec<u8>, rule: &Rule) -> Result<(), Memory>
    ensures { OnOk result (out.new.items
        ≡ out.old.items ++ flat_map line (header_lines Newer (register_by rule.now))) }
{
    put_line(out, b"register 2")?;
    put_number_line(alloc, out, b"m ", u128::from(rule.bits))?;
    put_number_line(alloc, out, b"k ", u128::from(rule.dimension))?;
    put_number_line(alloc, out, b"a ", rule.multiplier)?;
    put_number_line(alloc, out, b"b ", rule.shift)?;
    Ok(())
}

/// Writes each licensee on a line of its own.
fn put_licensees(out: &mut Vec<u8>, licensees: &IndexMap<String, bool>) -> Result<(), Memory>
    ensures { OnOk result (out.new.items
        ≡ out.old.items ++ flat_map line
        (map (licensee_line Newer) (entry_licensees licensees.now.entries))) }
{
    for serial in 0..licensees.len() {
        let (name, active) = licensees.get_index(serial).unwrap();
        put_licensee(out, name.as_str(), *active)?;
    }
    Ok(())
}

/// Writes the line of a licensee.
#[tactic(auto, using(std::proofs::Common::append_assoc))]
fn put_licensee(out: &mut Vec<u8>, name: &str, active: bool) -> Result<(), Memory>
    ensures { OnOk result (out.new.items
        ≡ out.old.items ++ line (licensee_line Newer
        (record { name = name.now; active = active }))) }
{
    if active {
        out.extend_from_slice(b"active ")?;
    } else {
        out.extend_from_slice(b"withdrawn ")?;
    }
    put_line(out, name.as_bytes())
}

/// Writes a line of a word and a number.
fn put_number_line(alloc: Global, out: &mut Vec<u8>, word: &[u8], value: u128) -> Result<(), Memory>
    ensures { OnOk result (out.new.items ≡ out.old.items ++ line (number_text word.now value)) }
{
    let number = number_text(alloc, value)?;
    out.extend_from_slice(word)?;
    put_line(out, number.as_str().as_bytes())
}

/// Writes the bytes and a line feed.
fn put_line(out: &mut Vec<u8>, text: &[u8]) -> Result<(), Memory>
    ensures { OnOk result (out.new.items ≡ out.old.items ++ line text.now) }
{
    out.extend_from_slice(text)?;
    out.push(b'\n')?;
    Ok(())
}
