//! The playlist of a licensee.

ghost use Rattle.std.specs.Prelude.{◌≡◌, ◌+◌, ◌*◌, ◌≤◌, ◌↔◌, length, true, Ok, IfOk, IsErrOf};
ghost use Rattle.register_terms.specs.Enrolment.{message_of};
ghost use Rattle.playlist_terms.specs.Reading.{playlist_of};
ghost use Rattle.title_terms.specs.Designs.{places};
ghost use Rattle.packaging_terms.specs.Licensees.{fits, licensed_list, licensed_text};
ghost use Rattle.packager.specs.Licences.{IsLicensed, IsWithdrawn};
ghost use Rattle.packager.specs.declared.errors.PlaylistFailure.TheVariants as failures;

use crate::errors::PlaylistFailure;
use crate::licence::licence;
use crate::marking::marked_list;
use crate::symbols::symbols_of;
use code_terms::Message;
use gf2m::Field;
use lic_register::Register;
use lists::Memory;
use m3u8_text::write;
use std::alloc::Global;
use steps::{Looks, Products, Steps};
use title_store::Title;

/// Whether the title and the register are of the same code.
pub fn fits(title: &Title, register: &Register) -> bool
    ensures { result ≡ fits title.now register.now }
{
    title.bits() == register.bits() && title.dimension() == register.dimension()
}

/// The text of the playlist that the licensee of this serial gets: the title's media list, with the licensee's variant at each
/// marked segment. `F` is the field of the title's symbols.
///
/// The products are at most the places times the symbols of a message, and the looks at most two.
pub fn playlist<F: Field, P: Products, Q: Looks>(
    alloc: Global,
    title: &Title,
    register: &Register,
    serial: u32,
    prods: &mut Steps<P>,
    looks: &mut Steps<Q>,
) -> Result<Vec<u8>, PlaylistFailure>
    requires fits { fits title.now register.now ≡ true }
    requires field { F.BITS ≡ title.now.design.bits }
    ensures text { IfOk result (λ text. text.items
        ≡ licensed_text title.now register.now serial) }
    ensures licensed { IfOk result (λ _. IsLicensed register.now serial) }
    // It is read as the list that the licensee gets.
    ensures again { IfOk result (λ text. playlist_of text.items
        ≡ Ok (licensed_list title.now register.now serial)) }
    ensures no_such_serial { IsErrOf result failures.NoSuchSerial
        ↔ (length register.now.licensees ≤ serial) }
    ensures withdrawn { IsErrOf result failures.Withdrawn ↔ IsWithdrawn register.now serial }
    ensures products { prods.new
        ≤ prods.old + places title.now.design * title.now.design.dimension }
    ensures looks { looks.new ≤ looks.old + 2 }
{
    match licence(register, serial, looks) {
        Err(failure) => Err(failure),
        Ok(message) => match text_for::<F, P>(alloc, title, register, serial, message, prods) {
            Ok(text) => Ok(text),
            Err(Memory) => Err(PlaylistFailure::Memory),
        },
    }
}

/// The text of the playlist for the message of this serial.
fn text_for<F: Field, P: Products>(
    alloc: Global,
    title: &Title,
    register: &Register,
    serial: u32,
    message: Message,
    prods: &mut Steps<P>,
) -> Result<Vec<u8>, Memory>
    requires fits { fits title.now register.now ≡ true }
    requires field { F.BITS ≡ title.now.design.bits }
    requires message { message ≡ message_of register.now serial }
    ensures text { IfOk result (λ text. text.items
        ≡ licensed_text title.now register.now serial) }
    ensures again { IfOk result (λ text. playlist_of text.items
        ≡ Ok (licensed_list title.now register.now serial)) }
    ensures products { prods.new
        ≤ prods.old + places title.now.design * title.now.design.dimension }
{
    let word = symbols_of::<F, P>(alloc, title, message, prods)?;
    let list = marked_list(alloc, title, &word)?;
    write(alloc, &list)
}
