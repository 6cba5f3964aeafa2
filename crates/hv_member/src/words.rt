//! Words of 64 bits as a set of numbers: number n is there where bit n % 64 of word n / 64 is set.

ghost use Rattle.std.specs.Prelude.{◌≡◌, ℕ, ◌*◌, ◌<◌, ◌≤◌, ◌||◌, ◌==◌, ◌↔◌, true, length, IsTrue};
ghost use Rattle.hv_member.specs.Bits.{bit_of, IsFirstBit};

/// The most words that a set of numbers of 32 bits takes.
const MAX_WORDS: usize = 67_108_864;

/// Whether the bit is set.
pub(crate) fn has_bit(words: &[u64], number: usize) -> bool
    requires { number < 64 * length words.now }
    ensures { result ≡ bit_of words.now number }
{
    (words[number / 64] >> (number % 64)) & 1 == 1
}

/// Sets the bit.
pub(crate) fn set_bit(words: &mut [u64], number: usize)
    requires { number < 64 * length words.old }
    ensures { (n : ℕ) → bit_of words.new n ≡ (n == number || bit_of words.old n) }
{
    words[number / 64] |= 1 << (number % 64);
}

/// The first bit that is set, from bit `from` on.
pub(crate) fn first_bit(words: &[u64], from: usize) -> Option<usize>
    requires { length words.now ≤ MAX_WORDS }
    ensures { IsFirstBit words.now from result }
{
    let index = from / 64;
    if index >= words.len() {
        return None;
    }
    let rest = words[index] >> (from % 64);
    if rest != 0 {
        return Some(from + rest.trailing_zeros() as usize);
    }
    first_bit_of_words(words, index + 1)
}

/// The first bit that is set, from the lowest of word `start` on.
fn first_bit_of_words(words: &[u64], start: usize) -> Option<usize>
    requires { length words.now ≤ MAX_WORDS }
    ensures { IsFirstBit words.now (64 * start) result }
{
    for index in start..words.len() {
        let word = words[index];
        if word != 0 {
            return Some(64 * index + word.trailing_zeros() as usize);
        }
    }
    None
}

/// Whether each bit that is set in the left words is set in the right ones, of which there are as many.
pub(crate) fn are_within(left: &[u64], right: &[u64]) -> bool
    requires { length left.now ≡ length right.now }
    ensures { IsTrue result ↔ ((n : ℕ) → bit_of left.now n ≡ true → bit_of right.now n ≡ true) }
{
    for index in 0..left.len() {
        if left[index] & right[index] != left[index] {
            return false;
        }
    }
    true
}
