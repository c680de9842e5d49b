//! What the desk sees of a register.

ghost use Rattle.std.specs.Prelude.{◌≡◌, ◌≢◌, ℕ, ◌+◌, All, IfSome, IsNone, Some, slice_get};
ghost use Rattle.desk_terms.specs.Roll.{IsRoll, Roll, roll_of};

use lic_register::{Licensee, Register};
use rs_code::Message;
use steps::{Looks, Steps};

/// A book of licensees, which contracts see as a roll. A licensee is found by the message alone.
pub trait Book {
    ghost use Rattle.desk_terms.specs.Roll.{Roll};

    ghost roll: { Self → Roll };

    /// The bits of a symbol.
    fn bits(&self) -> u32
        ensures value { result ≡ (roll self.now).bits }
        ensures kept { IsRoll (roll self.now) };

    /// How many symbols a message has.
    fn dimension(&self) -> u32
        ensures value { result ≡ (roll self.now).dimension }
        ensures kept { IsRoll (roll self.now) };

    /// The serial and the licensee with this message; `None` where nobody has it. This is one look, and takes no memory.
    fn by_message<Q: Looks>(
        &self,
        message: Message,
        looks: &mut Steps<Q>,
    ) -> Option<(u32, Licensee<'_>)>
        ensures some { IfSome result (λ found. slice_get (roll self.now).entries found.0
            ≡ Some (record { message = message; name = found.1.name.now })) }
        ensures none { IsNone result → All (λ entry. entry.message
            ≢ message) (roll self.now).entries }
        ensures kept { IsRoll (roll self.now) }
        ensures looks { looks.new ≡ looks.old + 1 };
}

impl Book for Register {
    ghost use Rattle.desk_terms.specs.Roll.{roll_of};

    ghost roll = { roll_of };

    fn bits(&self) -> u32 {
        let _licensees = self.len();
        self.bits()
    }

    fn dimension(&self) -> u32 {
        let _licensees = self.len();
        self.dimension()
    }

    fn by_message<Q: Looks>(
        &self,
        message: Message,
        looks: &mut Steps<Q>,
    ) -> Option<(u32, Licensee<'_>)> {
        self.by_message(message, looks)
    }
}
