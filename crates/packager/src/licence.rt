//! Who holds a licence.

ghost use Rattle.std.specs.Prelude.{◌+◌, ◌≤◌};
ghost use Rattle.packager.specs.Licences.{LicensesAs};

use crate::errors::PlaylistFailure;
use code_terms::Message;
use lic_register::Register;
use steps::{Looks, Steps};

/// The message of the licensee with this serial, who holds the licence still. It takes no memory.
pub(crate) fn licence<Q: Looks>(
    register: &Register,
    serial: u32,
    looks: &mut Steps<Q>,
) -> Result<Message, PlaylistFailure>
    ensures message { LicensesAs result register.now serial }
    ensures looks { looks.new ≤ looks.old + 2 }
{
    match register.entry(serial, looks) {
        None => Err(PlaylistFailure::NoSuchSerial),
        Some(licensee) if !licensee.active => Err(PlaylistFailure::Withdrawn),
        Some(_) => match register.message_of(serial, looks) {
            Some(message) => Ok(message),
            None => Err(PlaylistFailure::NoSuchSerial),
        },
    }
}
