//! Who has a message.

ghost use Rattle.std.specs.Prelude.{◌≡◌, ◌≢◌, ℕ, ◌+◌, ◌*◌, ◌%◌, ◌^◌, ◌<◌, ◌≤◌, Some, IfSome, IsNone, length, slice_get};
ghost use Rattle.std.specs.Option.{option_map};
ghost use Rattle.register_terms.specs.Enrolment.{IsValid, message_of};
ghost use Rattle.lic_register.specs.Index.{shown};

use crate::licensee::Licensee;
use crate::register::Register;
use code_terms::Message;
use steps::{Looks, Steps};

impl Register {
    /// The serial and the licensee with this message; `None` where nobody has it. This is one look, and takes no memory.
    pub fn by_message<Q: Looks>(
        &self,
        message: Message,
        looks: &mut Steps<Q>,
    ) -> Option<(u32, Licensee<'_>)>
        ensures some { IfSome result (λ found. (message_of self.now found.0 ≡ message)
            × (slice_get self.now.licensees found.0 ≡ Some (shown found.1))) }
        ensures none { IsNone result → (serial : ℕ) → serial < length self.now.licensees
            → message_of self.now serial ≢ message }
        ensures valid { IsValid self.now }
        ensures looks { looks.new ≡ looks.old + 1 }
    {
        looks.tick();
        let enrolled = self.len();
        let serial = self.serial_with(message.number())?;
        if serial >= u128::from(enrolled) {
            return None;
        }
        let serial = serial as u32;
        let licensee = self.licensee_at(serial)?;
        Some((serial, licensee))
    }

    /// The licensee of this serial; `None` where nobody has it.
    fn licensee_at(&self, serial: u32) -> Option<Licensee<'_>>
        ensures { option_map shown result ≡ slice_get self.now.licensees serial }
    {
        let (name, active) = self.licensees.get_index(serial as usize)?;
        Some(Licensee {
            name: name.as_str(),
            active: *active,
        })
    }

    /// The serial that the register's rule gives this message, whether or not it is enrolled; `None` where the number is
    /// no message.
    fn serial_with(&self, message: u128) -> Option<u128>
        ensures some { IfSome result (λ serial. (serial < 2 ^ (self.now.bits * self.now.dimension))
            × (message_of self.now serial ≡ message)) }
        ensures none { IsNone result → 2 ^ (self.now.bits * self.now.dimension) ≤ message }
    {
        let messages = self.rule.message_count();
        if message >= messages {
            return None;
        }
        let rest = (message + (messages - self.rule.shift)) % messages;
        let bits = self.rule.bits * self.rule.dimension;
        Some(quotient(rest, self.rule.multiplier, bits))
    }
}

/// The number below 2^bits whose product with the odd multiplier has this rest after division by 2^bits. It is found by
/// long division from the lowest bit on.
fn quotient(rest: u128, multiplier: u128, bits: u32) -> u128
    requires few { bits ≤ 104 }
    requires odd { multiplier % 2 ≡ 1 }
    requires multiplier { multiplier < 2 ^ bits }
    requires rest { rest < 2 ^ bits }
    ensures below { result < 2 ^ bits }
    ensures quotient { (multiplier * result) % 2 ^ bits ≡ rest }
{
    let messages: u128 = 1 << bits;
    let mut left = rest;
    let mut quotient: u128 = 0;
    'bits: for bit in 0..bits {
        if left % 2 == 1 {
            quotient += 1 << bit;
            left += messages - multiplier;
        }
        left /= 2;
    }
    quotient
}
