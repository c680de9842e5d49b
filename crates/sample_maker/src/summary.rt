//! The line that sums a sample up.

ghost use Rattle.std.specs.Prelude.{◌≡◌, ◌++◌, IfOk, OnOk, map};
ghost use Rattle.std.specs.List.{flat_map};
ghost use Rattle.sample_terms.specs.Summary.{line_on, spaced, spaced_or_none};
ghost use Rattle.sample_maker.specs.Heads.{head};

use crate::numbers::{first_member, second_member, third_member};
use desk_terms::{Accused, Findings};
use lists::Memory;
use std::alloc::Global;

/// The line on these findings.
pub(crate) fn summary(alloc: Global, number: u64, found: &Findings) -> Result<Vec<u8>, Memory>
    ensures { IfOk result (λ text. text.items ≡ line_on number found.now) }
{
    let first = first_member(number);
    let second = second_member(number);
    let third = third_member(number);
    let mut text = head(alloc, number, found.readable, first, second, third)?;
    put_serials(alloc, &mut text, found.accused.as_slice())?;
    text.push(b'\n')?;
    Ok(text)
}

/// The line up to the word `accused`.
fn head(
    alloc: Global,
    number: u64,
    readable: u32,
    first: u32,
    second: u32,
    third: u32,
) -> Result<Vec<u8>, Memory>
    ensures { IfOk result (λ text. text.items ≡ head number readable first second third) }
{
    let text = format!(in alloc;
        "sample {number} licensees 1000 places 64 readable {readable} bound 3 coalition {first} {second} {third} accused"
    )?;
    Ok(text.into_bytes())
}

/// Writes the serial of each behind a space, or that there is none.
fn put_serials(alloc: Global, text: &mut Vec<u8>, accused: &[Accused]) -> Result<(), Memory>
    ensures { OnOk result (text.new.items
        ≡ text.old.items ++ spaced_or_none (map (λ one. one.serial) accused.now)) }
{
    if accused.is_empty() {
        text.extend_from_slice(b" none")?;
        return Ok(());
    }
    put_each(alloc, text, accused)
}

/// Writes the serial of each behind a space.
fn put_each(alloc: Global, text: &mut Vec<u8>, accused: &[Accused]) -> Result<(), Memory>
    ensures { OnOk result (text.new.items
        ≡ text.old.items ++ flat_map spaced (map (λ one. one.serial) accused.now)) }
{
    'accused: for one in accused {
        put_number(alloc, text, one.serial)?;
    }
    Ok(())
}

/// Writes a number behind a space.
fn put_number(alloc: Global, text: &mut Vec<u8>, number: u32) -> Result<(), Memory>
    ensures { OnOk result (text.new.items ≡ text.old.items ++ spaced number) }
{
    let digits = format!(in alloc; " {number}")?;
    text.extend_from_slice(digits.as_bytes())?;
    Ok(())
}
