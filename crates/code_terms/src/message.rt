//! The number that a codeword is made from.

ghost use Rattle.std.specs.Prelude.{◌≡◌};

use std::marker::Model;

/// The number of a message. Over symbols of m bits its coefficient at j is made of the bits mj to mj + m - 1.
#[derive(Clone, Copy, Debug, PartialEq, Eq)]
pub struct Message {
    number: u128,
}

impl Model for Message {
    ghost use Rattle.std.specs.Prelude.{ℕ};

    ghost Value = { ℕ };

    ghost view = { λ a. a.number };

    ghost inverse = { λ n. record { number = n } };
}

impl Message {
    /// The message of this number.
    pub fn of(number: u128) -> Message
        ensures { result ≡ number }
    {
        Message { number }
    }

    /// The number of this message.
    pub fn number(self) -> u128
        ensures { result ≡ self }
    {
        self.number
    }
}
