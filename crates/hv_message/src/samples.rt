//! The numbers of samples and their limits. The definitions are in specs/Samples.antt.

ghost use Rattle.std.specs.Prelude.{◌≡◌, ◌≤◌, ◌^◌, true, option_map, unsigned_abs};
ghost use Rattle.hv_message.specs.Samples as sample;

use hv_asked::{MAX_SEED, MAX_THRESHOLD};

/// Whether a whole number is a seed, one from 0 to 2^64 - 1.
pub(crate) fn is_seed(n: i128) -> bool
    ensures { result ≡ sample.is_seed n }
{
    0 <= n && n <= i128::from(MAX_SEED)
}

/// Whether a whole number is a threshold, one from 0 to 2^32.
pub(crate) fn is_threshold(n: i128) -> bool
    ensures { result ≡ sample.is_threshold n }
{
    0 <= n && n <= i128::from(MAX_THRESHOLD)
}

/// Whether what is given for a seed is one. It may be absent.
pub(crate) fn is_seed_if_given(seed: Option<i128>) -> bool
    ensures { result ≡ sample.is_seed_if_given seed }
{
    match seed {
        Some(seed) => is_seed(seed),
        None => true,
    }
}

pub(crate) fn seed_of(n: i128) -> u64
    requires { sample.is_seed n ≡ true }
    ensures { result ≡ unsigned_abs n }
{
    n as u64
}

pub(crate) fn threshold_of(n: i128) -> u64
    requires { sample.is_threshold n ≡ true }
    ensures value { result ≡ unsigned_abs n }
    ensures fit { result ≤ 2 ^ 32 }
{
    n as u64
}

/// The seed, where one is given.
pub(crate) fn seed_if_given(seed: Option<i128>) -> Option<u64>
    requires { sample.is_seed_if_given seed ≡ true }
    ensures { result ≡ option_map unsigned_abs seed }
{
    match seed {
        Some(seed) => Some(seed_of(seed)),
        None => None,
    }
}
