//! A register from its text.

ghost use Rattle.std.specs.Prelude.{◌≡◌, ◌<◌, ◌≤◌, ◌+◌, ◌==◌, ◌^◌, false, length, IfOk, OnOk, Ok};
ghost use Rattle.std.specs.Option.{option_map};
ghost use Rattle.register_terms.specs.declared.edition.Edition.TheVariants.{Newer};
ghost use Rattle.form_terms.specs.TextLines.{number_after};
ghost use Rattle.form_terms.specs.Forms.{place, before, number_row, row};
ghost use Rattle.register_terms.specs.Rules.{are_bits, is_dimension, is_multiplier, is_shift};
ghost use Rattle.register_terms.specs.RegisterText.{IsTextOf, edition_in, header, header_form, licensee_in, later, register_of};
ghost use Rattle.register_terms.specs.Enrolment.{Enrolment, IsValid};
ghost use Rattle.line_reader.specs.Finds.{Finds};
ghost use Rattle.lic_register.specs.Answers.{ReadsAs};
ghost use Rattle.lic_register.specs.Parts.{register_by, IsAllowed, GoesOn, Admits, read_licensee};

use crate::errors::{EnrolError, RegisterReadError};
use crate::register::Register;
use crate::rule::{Rule, are_bits, is_dimension, is_multiplier, message_count};
use line_reader::{Lines, RowKinds};
use register_terms::{Edition, MOST_LICENSEES, RegisterFault, RegisterKind};
use std::alloc::Global;
use std::str;

/// How one of the first five lines is refused.
const HEADER: RowKinds<RegisterKind> = RowKinds {
    missing: RegisterKind::Header,
    unended: RegisterKind::Ending,
    wrong: RegisterKind::Header,
};

/// What a later line says.
#[derive(Clone, Copy)]
pub(crate) struct LicenseeLine<'a> {
    pub(crate) name: &'a [u8],
    pub(crate) active: bool,
}

/// Why a licensee was not admitted.
#[derive(Clone, Copy)]
pub(crate) enum Hindrance {
    /// The line has this fault.
    Kind(RegisterKind),
    /// There was not enough memory.
    Memory,
}

impl Register {
    /// The register that the bytes are a text of. It takes no look.
    pub fn read(alloc: Global, bytes: &[u8]) -> Result<Register, RegisterReadError>
        // Which register it is, or which fault.
        ensures answer { ReadsAs result (register_of bytes.now) }
        // What is read is valid, and the bytes are one of its texts.
        ensures found { IfOk result (λ register. IsValid register × IsTextOf register bytes.now) }
        // Each text of a valid register is read, unless memory runs out.
        ensures every { (e : Enrolment) → IsValid e → IsTextOf e bytes.now → ReadsAs result (Ok e) }
    {
        register_in(alloc, bytes)
    }
}

/// The register by the first five lines, with the licensee on each line after them.
fn register_in(alloc: Global, bytes: &[u8]) -> Result<Register, RegisterReadError>
    ensures { ReadsAs result (register_of bytes.now) }
{
    let mut lines = Lines::of(bytes);
    let (edition, rule) = first_lines(&mut lines)?;
    let mut register = Register::by_rule(alloc, rule);
    while !lines.is_over() {
        enrol_line(&mut register, edition, &mut lines)?;
    }
    Ok(register)
}

/// Which text it is, and the numbers on the first five lines.
#[tactic(auto, unfolding(register_terms::specs::RegisterText::header_form, form_terms::specs::Forms::number_row, form_terms::specs::Forms::followed, form_terms::specs::Forms::require, form_terms::specs::Forms::give))]
fn first_lines(lines: &mut Lines) -> Result<(Edition, Rule), RegisterFault>
    requires start { lines.old.number ≡ 0 }
    ensures found { Finds (λ x. (x.0, register_by x.1)) result lines.old lines.new header_form }
    ensures allowed { IfOk result (λ x. IsAllowed x.1) }
    ensures counted { OnOk result (lines.new.number ≡ 5) }
{
    let edition = edition_line(lines)?;
    let bits = lines.number_row(HEADER, b"m ")?;
    if !are_bits(bits) {
        return Err(lines.fault(RegisterKind::BadM));
    }
    let dimension = lines.number_row(HEADER, b"k ")?;
    if !is_dimension(dimension) {
        return Err(lines.fault(RegisterKind::BadK));
    }
    let messages = message_count(bits as u32, dimension as u32);
    let multiplier = lines.number_row(HEADER, b"a ")?;
    if !is_multiplier(multiplier, messages) {
        return Err(lines.fault(RegisterKind::BadMultiplier));
    }
    let shift = lines.number_row(HEADER, b"b ")?;
    if shift >= messages {
        return Err(lines.fault(RegisterKind::BadShift));
    }
    let rule = Rule {
        bits: bits as u32,
        dimension: dimension as u32,
        multiplier,
        shift,
    };
    Ok((edition, rule))
}

/// The line that says which text it is.
#[tactic(auto, unfolding(form_terms::specs::Forms::row, form_terms::specs::Forms::followed, form_terms::specs::Forms::said))]
fn edition_line(lines: &mut Lines) -> Result<Edition, RegisterFault>
    requires room { lines.old.number + 1 < 2 ^ 32 }
    ensures found { Finds (λ x. x) result lines.old lines.new (row header edition_in) }
    ensures counted { OnOk result (lines.new.number ≡ lines.old.number + 1) }
{
    let text = lines.next_line(RegisterKind::Header, RegisterKind::Ending)?;
    if text == b"register 2".as_slice() {
        return Ok(Edition::Newer);
    }
    if text == b"register 1".as_slice() {
        return Ok(Edition::Older);
    }
    Err(lines.fault(RegisterKind::Header))
}

/// Enrols the licensee that stands on the next line.
fn enrol_line(
    register: &mut Register,
    edition: Edition,
    lines: &mut Lines,
) -> Result<(), RegisterReadError>
    requires more { (length lines.old.lines + length lines.old.tail == 0) ≡ false }
    requires place { lines.old.number ≡ 5 + length register.old.licensees }
    ensures goes_on { GoesOn result edition register.old register.new lines.old lines.new }
    ensures counted { OnOk result (lines.new.number ≡ 5 + length register.new.licensees) }
    ensures fewer { OnOk result (length lines.new.lines < length lines.old.lines) }
{
    let few = register.len() <= MOST_LICENSEES;
    prove!(few);
    let line = licensee_line(edition, lines)?;
    match admit(register, &line) {
        Ok(()) => Ok(()),
        Err(Hindrance::Kind(kind)) => Err(lines.fault(kind).into()),
        Err(Hindrance::Memory) => Err(RegisterReadError::Memory),
    }
}

/// The state and the name on the next line.
#[tactic(auto, unfolding(form_terms::specs::Forms::row, form_terms::specs::Forms::followed, form_terms::specs::Forms::said))]
fn licensee_line<'a>(
    edition: Edition,
    lines: &mut Lines<'a>,
) -> Result<LicenseeLine<'a>, RegisterFault>
    requires room { lines.old.number + 1 < 2 ^ 32 }
    ensures found { Finds read_licensee result lines.old lines.new
        (row later (licensee_in edition)) }
    ensures counted { OnOk result (lines.new.number ≡ lines.old.number + 1) }
    ensures fewer { OnOk result (length lines.new.lines < length lines.old.lines) }
{
    let text = lines.next_line(RegisterKind::Header, RegisterKind::Ending)?;
    match edition {
        Edition::Older => Ok(LicenseeLine {
            name: text,
            active: true,
        }),
        Edition::Newer => match state_and_name(text) {
            Some(line) => Ok(line),
            None => Err(lines.fault(RegisterKind::BadStatus)),
        },
    }
}

/// The state and the name of a line of the newer text.
fn state_and_name(text: &[u8]) -> Option<LicenseeLine<'_>>
    ensures { option_map read_licensee result ≡ licensee_in Newer text.now }
{
    if let Some(name) = text.strip_prefix(b"active ".as_slice()) {
        return Some(LicenseeLine { name, active: true });
    }
    let name = text.strip_prefix(b"withdrawn ".as_slice())?;
    Some(LicenseeLine {
        name,
        active: false,
    })
}

/// Enrols the name in its state.
fn admit(register: &mut Register, line: &LicenseeLine) -> Result<(), Hindrance>
    ensures { Admits result register.old register.new line.now.name.now line.now.active }
{
    let Ok(name) = str::from_utf8(line.name) else {
        return Err(Hindrance::Kind(RegisterKind::BadName));
    };
    match register.admit(name, line.active) {
        Ok(_) => Ok(()),
        Err(EnrolError::BadName) => Err(Hindrance::Kind(RegisterKind::BadName)),
        Err(EnrolError::NameTaken(_)) => Err(Hindrance::Kind(RegisterKind::NameTaken)),
        Err(EnrolError::Full(_)) => Err(Hindrance::Kind(RegisterKind::Full)),
        Err(EnrolError::Memory) => Err(Hindrance::Memory),
    }
}
