//! The numbers that a sample is made of.

ghost use Rattle.std.specs.Prelude.{◌≡◌, ◌+◌, ◌%◌, ◌^◌, ◌<◌};
ghost use Rattle.sample_terms.specs.Numbers.{first_member, multiplier, second_member, seed_of, shift, third_member, word_number};

use rand_chacha::ChaCha20Rng;
use rand_core::SeedableRng;
use rand_core::utils::NextWord;

/// The seed of a number.
fn seed(number: u64) -> [u8; 32]
    ensures { result ≡ seed_of number }
{
    let mut seed = [0; 32];
    seed[..8].copy_from_slice(&number.to_le_bytes());
    seed
}

/// The word at this place.
#[tactic(auto, unfolding(sample_terms::specs::Numbers::word_number))]
pub(crate) fn word_number(number: u64, place: u32) -> u32
    ensures { result ≡ word_number number place }
{
    let mut words = ChaCha20Rng::from_seed(seed(number));
    words.set_word_pos(u128::from(place));
    words.next_word()
}

/// The multiplier of the register.
pub(crate) fn multiplier(number: u64) -> u32
    ensures value { result ≡ multiplier number }
    ensures odd { result % 2 ≡ 1 }
    ensures below { result < 2 ^ 24 }
{
    2 * (word_number(number, 0) % (1 << 23)) + 1
}

/// The shift of the register.
pub(crate) fn shift(number: u64) -> u32
    ensures value { result ≡ shift number }
    ensures below { result < 2 ^ 24 }
{
    word_number(number, 1) % (1 << 24)
}

/// The serial of the first member of the coalition.
pub(crate) fn first_member(number: u64) -> u32
    ensures value { result ≡ first_member number }
    ensures below { result < 1000 }
{
    word_number(number, 2) % 1000
}

/// The serial of the second member.
pub(crate) fn second_member(number: u64) -> u32
    ensures value { result ≡ second_member number }
    ensures below { result < 1000 }
{
    word_number(number, 3) % 1000
}

/// The serial of the third member.
pub(crate) fn third_member(number: u64) -> u32
    ensures value { result ≡ third_member number }
    ensures below { result < 1000 }
{
    word_number(number, 4) % 1000
}

/// Whose turn it is at a place: the number of the member, 0 to 2.
pub(crate) fn turn_at(number: u64, place: u32) -> u32
    requires { place < 64 }
    ensures { result ≡ word_number number (5 + place) % 3 }
{
    word_number(number, 5 + place) % 3
}
