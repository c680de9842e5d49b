//! The numbers of a register, and the rules on them.

ghost use Rattle.std.specs.Prelude.{◌≡◌, ◌*◌, ◌%◌, ◌^◌, ◌≤◌, ◌==◌, ◌&&◌, nat_lt, min};
ghost use Rattle.register_terms.specs.Rules.{are_bits, is_dimension, broken_rule};

use register_terms::{MOST_LICENSEES, RegisterError};

/// The numbers of a register: its code, and the rule of its messages.
#[derive(Clone, Copy, Debug, PartialEq, Eq)]
pub(crate) struct Rule {
    pub(crate) bits: u32,
    pub(crate) dimension: u32,
    pub(crate) multiplier: u128,
    pub(crate) shift: u128,
}

impl Rule {
    /// The first rule that these numbers break.
    pub(crate) fn broken(&self) -> Option<RegisterError>
        ensures { result ≡ broken_rule self.now.bits self.now.dimension self.now.multiplier
            self.now.shift }
    {
        if !are_bits(u128::from(self.bits)) {
            return Some(RegisterError::BadM);
        }
        if !is_dimension(u128::from(self.dimension)) {
            return Some(RegisterError::BadK);
        }
        let messages = self.message_count();
        if !is_multiplier(self.multiplier, messages) {
            return Some(RegisterError::BadMultiplier);
        }
        if self.shift >= messages {
            return Some(RegisterError::BadShift);
        }
        None
    }

    /// How many messages there are.
    pub(crate) fn message_count(&self) -> u128
        requires bits { self.now.bits ≤ 8 }
        requires dimension { self.now.dimension ≤ 13 }
        ensures { result ≡ 2 ^ (self.now.bits * self.now.dimension) }
    {
        message_count(self.bits, self.dimension)
    }

    /// How many licensees a register with these numbers can hold.
    pub(crate) fn capacity(&self) -> u32
        requires bits { self.now.bits ≤ 8 }
        requires dimension { self.now.dimension ≤ 13 }
        ensures { result ≡ min (2 ^ (self.now.bits * self.now.dimension)) MOST_LICENSEES }
    {
        self.message_count().min(u128::from(MOST_LICENSEES)) as u32
    }
}

/// Whether a symbol may have so many bits.
pub(crate) fn are_bits(m: u128) -> bool
    ensures { result ≡ are_bits m }
{
    (4..=8).contains(&m)
}

/// Whether a message may have so many symbols.
pub(crate) fn is_dimension(k: u128) -> bool
    ensures { result ≡ is_dimension k }
{
    (2..=13).contains(&k)
}

/// Whether the number is an odd message, of so many messages.
pub(crate) fn is_multiplier(a: u128, messages: u128) -> bool
    ensures { result ≡ ((a % 2 == 1) && nat_lt a messages) }
{
    a % 2 == 1 && a < messages
}

/// How many messages of so many symbols of so many bits there are.
pub(crate) fn message_count(bits: u32, dimension: u32) -> u128
    requires bits { bits ≤ 8 }
    requires dimension { dimension ≤ 13 }
    ensures { result ≡ 2 ^ (bits * dimension) }
{
    1 << (bits * dimension)
}
