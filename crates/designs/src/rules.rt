//! The rules on single values of a design.

ghost use Rattle.std.specs.Prelude.{◌≡◌, ◌≤◌, IfOk};
ghost use Rattle.std.specs.List.{list_all};
ghost use Rattle.decoding_terms.specs.Parameters.{is_bound, is_light};
ghost use Rattle.register_terms.specs.Rules.{are_bits, is_dimension};
ghost use Rattle.title_terms.specs.Designs.{is_affix, is_affix_character, is_above, are_enough, have_room};
ghost use Rattle.title_terms.specs.DesignRules.{allowed};
ghost use Rattle.title_terms.specs.declared.fault.DesignFault.TheVariants as faults;

use title_terms::DesignFault;

/// The bits of a symbol, which have to be 4 to 8.
pub(crate) fn allowed_bits(number: Option<u64>) -> Result<u32, DesignFault>
    ensures found { result ≡ allowed are_bits faults.BadM number }
    ensures few { IfOk result (λ m. m ≤ 8) }
{
    match number {
        Some(m) if (4..=8).contains(&m) => Ok(m as u32),
        _ => Err(DesignFault::BadM),
    }
}

/// The symbols of a message, which have to be 2 to 13.
pub(crate) fn allowed_dimension(number: Option<u64>) -> Result<u32, DesignFault>
    ensures found { result ≡ allowed is_dimension faults.BadK number }
    ensures low { IfOk result (λ k. 2 ≤ k) }
    ensures high { IfOk result (λ k. k ≤ 13) }
{
    match number {
        Some(k) if (2..=13).contains(&k) => Ok(k as u32),
        _ => Err(DesignFault::BadK),
    }
}

/// The largest coalition, which has to be 1 to 8.
pub(crate) fn allowed_bound(number: Option<u64>) -> Result<u32, DesignFault>
    ensures found { result ≡ allowed is_bound faults.BadBound number }
    ensures high { IfOk result (λ c. c ≤ 8) }
{
    match number {
        Some(c) if (1..=8).contains(&c) => Ok(c as u32),
        _ => Err(DesignFault::BadBound),
    }
}

/// Whether tracing a coalition of the bound is not too much work.
pub fn is_light(dimension: u32, bound: u32) -> bool
    requires low { 2 ≤ dimension }
    requires high { dimension ≤ 13 }
    requires bound { bound ≤ 8 }
    ensures { result ≡ is_light dimension bound }
{
    bound * (dimension - 1) <= 12
}

/// Whether so many places tell each member of a coalition from everyone else.
pub fn are_enough(dimension: u32, bound: u32, places: usize) -> bool
    requires low { 2 ≤ dimension }
    requires high { dimension ≤ 13 }
    requires bound { bound ≤ 8 }
    ensures { result ≡ are_enough dimension bound places }
{
    ((bound * bound * (dimension - 1)) as usize) < places
}

/// Whether each of so many places has a symbol of its own.
pub fn have_room(bits: u32, places: usize) -> bool
    requires few { bits ≤ 8 }
    ensures { result ≡ have_room bits places }
{
    places <= 1 << bits
}

/// Whether the text may stand in front of the numbers of a variant's name, or behind them.
pub fn is_affix(text: &str) -> bool
    ensures { result ≡ is_affix text.now }
{
    let bytes = text.as_bytes();
    bytes.len() <= 64 && all_in_affixes(bytes)
}

/// Whether each byte is a letter or digit of ASCII, `.`, `_`, `-` or `/`.
fn all_in_affixes(bytes: &[u8]) -> bool
    ensures { result ≡ list_all is_affix_character bytes.now }
{
    bytes.iter().all(|b| b.is_ascii_alphanumeric()
        || *b == b'.'
        || *b == b'_'
        || *b == b'-'
        || *b == b'/')
}

/// Whether the number is above the last of these, if there is one.
pub fn is_above(past: &[u32], segment: u64) -> bool
    ensures { result ≡ is_above past.now segment }
{
    match past.last() {
        Some(last) => u64::from(*last) < segment,
        None => true,
    }
}
