//! The playlists of a sample's coalition.

ghost use Rattle.std.specs.Prelude.{◌≡◌, ◌+◌, ◌<◌, ◌≤◌, IfOk};
ghost use Rattle.sample_terms.specs.Inputs.{register_of, title_of};
ghost use Rattle.sample_maker.specs.Copying.{list_for};

use gf2m::Gf;
use lic_register::Register;
use lists::Memory;
use m3u8_text::{MediaList, PlaylistError, read};
use packager::{PlaylistFailure, playlist};
use std::alloc::Global;
use steps::{Looks, Products, Steps};
use title_store::Title;

/// The list that a licensee gets, read again from the text of the playlist.
pub(crate) fn list_for<P: Products, Q: Looks>(
    alloc: Global,
    number: u64,
    title: &Title,
    register: &Register,
    serial: u32,
    prods: &mut Steps<P>,
    looks: &mut Steps<Q>,
) -> Result<MediaList, Memory>
    requires title { title.now ≡ title_of number }
    requires register { register.now ≡ register_of number }
    requires serial { serial < 1000 }
    ensures list { IfOk result (λ list. list ≡ list_for number serial) }
    ensures products { prods.new ≤ prods.old + 192 }
    ensures looks { looks.new ≤ looks.old + 2 }
{
    match playlist::<Gf<8>, P, Q>(alloc, title, register, serial, prods, looks) {
        Ok(text) => match read(alloc, text.as_slice()) {
            Ok(list) => Ok(list),
            Err(PlaylistError::Memory) => Err(Memory),
            Err(_) => unreachable!(),
        },
        Err(PlaylistFailure::NoSuchSerial) => unreachable!(),
        Err(PlaylistFailure::Withdrawn) => unreachable!(),
        Err(PlaylistFailure::Memory) => Err(Memory),
    }
}
