//! `package`: the playlist that a licensee gets.

ghost use Rattle.std.specs.Prelude.{◌≡◌, ◌≤◌, length, true, IfOk, IsErrOf, IsTrue};
ghost use Rattle.text_terms.specs.Names.{is_name};
ghost use Rattle.packaging_terms.specs.Licensees.{fits, licensed_text};
ghost use Rattle.packager.specs.Licences.{IsLicensed, IsWithdrawn};
ghost use Rattle.packager.specs.declared.errors.PlaylistFailure.TheVariants as failures;
ghost use Rattle.outcome_terms.specs.PackageCommand.{package_, packaged};
ghost use Rattle.outcome_terms.specs.Stores.{Exactly, Follows, Settles, seen};

use command_io::{over_field, register_under};
use gf2m::Gf;
use lic_register::Register;
use lists::Text;
use outcome_terms::{Fault, Refusal};
use packager::{PlaylistFailure, fits, playlist};
use shelf_io::Shelf;
use std::alloc::Global;
use steps::{Looks, Products, Steps};
use title_io::title_under;
use title_store::Title;

/// The text of the playlist that the licensee of this name gets of a title, by a register of the same code.
#[tactic(auto, using(outcome_terms::proofs::Readings::reading_rules), unfolding(outcome_terms::specs::PackageCommand::package_))]
pub fn playlist_text<S: Shelf, P: Products, Q: Looks>(
    alloc: Global,
    shelf: &mut S,
    title: &str,
    register: &str,
    name: &str,
    out: &str,
    prods: &mut Steps<P>,
    looks: &mut Steps<Q>,
) -> Result<Vec<u8>, Refusal>
    requires title { IsTrue (is_name title.now) }
    requires register { IsTrue (is_name register.now) }
    ensures { Follows (package_ title.now register.now name.now out.now)
        (S.store shelf.old) (S.store shelf.new)
        (seen (λ text. Exactly text.items) result) }
{
    if out == title || out == register {
        return Err(Refusal::Content(Fault::SameName(Text::of(alloc, out)?)));
    }
    let title = title_under(alloc, shelf, title)?;
    let register = register_under(alloc, shelf, register)?;
    packaged(alloc, &title, &register, name, prods, looks)
}

/// The text of the playlist of this name, or why there is none.
fn packaged<P: Products, Q: Looks>(
    alloc: Global,
    title: &Title,
    register: &Register,
    name: &str,
    prods: &mut Steps<P>,
    looks: &mut Steps<Q>,
) -> Result<Vec<u8>, Refusal>
    ensures { Settles (seen (λ text. Exactly text.items) result)
        (packaged title.now register.now name.now) }
{
    if !fits(title, register) {
        return Err(Refusal::Content(Fault::Mismatch {
            title_bits: title.bits(),
            title_dimension: title.dimension(),
            register_bits: register.bits(),
            register_dimension: register.dimension(),
        }));
    }
    let serial = match register.serial_of(name, looks) {
        Some(serial) => serial,
        None => return Err(Refusal::Content(Fault::Unknown(Text::of(alloc, name)?))),
    };
    match licensed(alloc, title, register, serial, prods, looks) {
        Ok(text) => Ok(text),
        Err(PlaylistFailure::Withdrawn) => Err(Refusal::Content(Fault::Withdrawn(Text::of(
            alloc, name,
        )?))),
        Err(PlaylistFailure::NoSuchSerial) => unreachable!(),
        Err(PlaylistFailure::Memory) => Err(Refusal::Memory),
    }
}

/// The text of the playlist of this serial, over the field that the title's symbols belong to.
fn licensed<P: Products, Q: Looks>(
    alloc: Global,
    title: &Title,
    register: &Register,
    serial: u32,
    prods: &mut Steps<P>,
    looks: &mut Steps<Q>,
) -> Result<Vec<u8>, PlaylistFailure>
    requires fits { fits title.now register.now ≡ true }
    ensures text { IfOk result (λ text. text.items
        ≡ licensed_text title.now register.now serial) }
    ensures licensed { IfOk result (λ _. IsLicensed register.now serial) }
    ensures no_such_serial { IsErrOf result failures.NoSuchSerial
        → length register.now.licensees ≤ serial }
    ensures withdrawn { IsErrOf result failures.Withdrawn → IsWithdrawn register.now serial }
{
    over_field!(
        title.bits(),
        playlist,
        [P, Q],
        (alloc, title, register, serial, prods, looks)
    )
}
