//! The order in which y-roots are given.

ghost use Rattle.std.specs.Prelude.{◌≡◌, ◌≤◌, All, IfOk, OnOk, IsPermutation, length, map};
ghost use Rattle.std.specs.List.Sorted.{IsNonDecreasingBy};
ghost use Rattle.algebra.specs.Lists.{IsListOf, coefficients};
ghost use Rattle.root_terms.specs.Entries.{AreNumbered};
ghost use Rattle.root_terms.specs.YRoots.{number_of};

use gf2m::{Elements, Field};
use lists::Memory;
use std::alloc::Global;
use uni_poly::Poly;

/// A y-root with its number.
#[derive(Drop)]
pub struct Entry<F: Field> {
    pub number: u128,
    pub root: Poly<F>,
}

/// The lists as polynomials with their numbers.
pub fn numbered<F: Field>(alloc: Global, lists: &[Elements<F>]) -> Result<Vec<Entry<F>>, Memory>
    requires { All (λ list. length list ≤ 13) lists.now }
    ensures { IfOk result (λ entries. AreNumbered F.ring F.number F.Q (λ entry. entry.number)
        (λ entry. entry.root) lists.now entries.items) }
{
    let mut entries = Vec::with_capacity(alloc, lists.len())?;
    'lists: for i in 0..lists.len() {
        entries.push(entry_of(alloc, lists[i].as_slice())?)?;
    }
    Ok(entries)
}

/// The list with its number, by which entries are put in order.
fn entry_of<F: Field>(alloc: Global, list: &[F]) -> Result<Entry<F>, Memory>
    requires { length list.now ≤ 13 }
    ensures number { IfOk result (λ entry. entry.number ≡ number_of F.number F.Q entry.root) }
    ensures root { IfOk result
        (λ entry. IsListOf F.ring (coefficients F.ring list.now) entry.root) }
{
    let root = Poly::from(alloc, list)?;
    Ok(Entry {
        number: number_of(root.as_slice()),
        root,
    })
}

/// The number whose digits are these coefficients, the lowest first.
pub fn number_of<F: Field>(list: &[F]) -> u128
    requires { length list.now ≤ 13 }
    ensures { result ≡ number_of F.number F.Q list.now }
{
    let mut number = 0;
    'coefficients: for i in (0..list.len()).rev() {
        let digit = list[i].to() as u128;
        number = digit + F::Q as u128 * number;
    }
    number
}

/// Puts the entries in ascending order of their numbers.
pub fn sort_by_number<F: Field>(entries: &mut Vec<Entry<F>>) -> Result<(), Memory>
    ensures permutation { IsPermutation entries.old.items entries.new.items }
    ensures sorted { OnOk result (IsNonDecreasingBy (λ entry. entry.number) entries.new.items) }
{
    entries.sort_by_key(|entry| entry.number)?;
    Ok(())
}

/// The y-roots alone.
pub fn roots_of<F: Field>(alloc: Global, entries: Vec<Entry<F>>) -> Result<Vec<Poly<F>>, Memory>
    ensures { IfOk result (λ roots. roots.items ≡ map (λ entry. entry.root) entries.items) }
{
    let mut roots = Vec::with_capacity(alloc, entries.len())?;
    'entries: for entry in entries {
        roots.push(entry.root)?;
    }
    Ok(roots)
}
