//! Durations in whole microseconds.

ghost use Rattle.std.specs.Prelude.{◌≡◌, ◌<◌, ◌^◌, true};
ghost use Rattle.std.specs.Str.{all_ascii_digits};
ghost use Rattle.std.specs.Str.Parse.{digits_value};
ghost use Rattle.playlist_terms.specs.Durations.{duration_of, micros_of_parts, first_six};

use crate::class::cut_at;
use crate::tag_values::{all_digits, are_digits, value_of};

const MICROS_A_SECOND: u64 = 1_000_000;

const MOST_SECOND_DIGITS: usize = 10;

/// The duration in the value of an `#EXTINF`: what stands in front of the first comma.
pub(crate) fn duration(value: &[u8]) -> Option<u64>
    ensures { result ≡ duration_of value.now }
{
    let (number, _title) = cut_at(value, b',');
    let (seconds, fraction) = cut_at(number, b'.');
    micros(seconds, fraction)
}

/// The microseconds of seconds and the digits behind the point.
#[tactic(auto, using(crate::proofs::Digits::all_digits_test))]
fn micros(seconds: &[u8], fraction: &[u8]) -> Option<u64>
    ensures { result ≡ micros_of_parts seconds.now fraction.now }
{
    if !are_digits(MOST_SECOND_DIGITS, seconds) || !all_digits(fraction) {
        return None;
    }
    let whole = value_of(seconds) as u64;
    Some(whole * MICROS_A_SECOND + millionths(fraction))
}

/// The first six digits behind the point, where a missing one is a zero.
fn millionths(fraction: &[u8]) -> u64
    requires { all_ascii_digits fraction.now ≡ true }
    ensures value { result ≡ digits_value 10 (first_six fraction.now) }
    ensures below { result < 10 ^ 6 }
{
    let given = fraction.len().min(6);
    let mut six = [b'0'; 6];
    six[..given].copy_from_slice(&fraction[..given]);
    value_of(&six) as u64
}
