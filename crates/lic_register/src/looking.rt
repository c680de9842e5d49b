//! Looks into a register.

ghost use Rattle.std.specs.Prelude.{◌≡◌, ◌+◌, ◌*◌, ◌%◌, ◌^◌, ◌≤◌, ◌==◌, ◌&&◌, None, Some, nat_lt, length, slice_get, if◌then◌else◌};
ghost use Rattle.std.specs.Option.{option_map};
ghost use Rattle.register_terms.specs.Enrolment.{message_of, names_of, serial_of};
ghost use Rattle.lic_register.specs.Index.{shown};

use crate::licensee::Licensee;
use crate::register::Register;
use code_terms::Message;
use steps::{Looks, Steps};

impl Register {
    /// The licensee of this serial; `None` where nobody has it. This is one look.
    pub fn entry<Q: Looks>(&self, serial: u32, looks: &mut Steps<Q>) -> Option<Licensee<'_>>
        ensures found { option_map shown result ≡ slice_get self.now.licensees serial }
        ensures looks { looks.new ≡ looks.old + 1 }
    {
        looks.tick();
        let (name, active) = self.licensees.get_index(serial as usize)?;
        Some(Licensee {
            name: name.as_str(),
            active: *active,
        })
    }

    /// The serial of the licensee with this name; `None` where nobody has it. This is one look.
    pub fn serial_of<Q: Looks>(&self, name: &str, looks: &mut Steps<Q>) -> Option<u32>
        ensures found { result ≡ serial_of (names_of self.now.licensees) name.now }
        ensures looks { looks.new ≡ looks.old + 1 }
    {
        looks.tick();
        self.serial(name)
    }

    /// The serial of the licensee with this name.
    pub(crate) fn serial(&self, name: &str) -> Option<u32>
        ensures { result ≡ serial_of (names_of self.now.licensees) name.now }
    {
        let place = self.licensees.get_index_of(name)?;
        Some(place as u32)
    }

    /// The message of the licensee of this serial; `None` where nobody has it. This is one look.
    pub fn message_of<Q: Looks>(&self, serial: u32, looks: &mut Steps<Q>) -> Option<Message>
        ensures found { result ≡ (if nat_lt serial (length self.now.licensees) then Some
            (message_of self.now serial) else None) }
        ensures looks { looks.new ≡ looks.old + 1 }
    {
        looks.tick();
        if serial >= self.len() {
            return None;
        }
        let number = self.rule.multiplier * u128::from(serial) + self.rule.shift;
        Some(Message::of(number % self.rule.message_count()))
    }
}
