//! Keys of texts: numbers by which most texts are compared without looking at their bytes again (specs/Keys.antt).

ghost use Rattle.std.specs.Prelude.{◌≡◌, ◌≤◌, ◌<◌, length};
ghost use Rattle.hv_bucket.specs.Buckets.{is_reached};
ghost use Rattle.hv_bucket.specs.Keys.{IsKey, cut_digits};

/// The length in bytes from which on a text's key doesn't tell it from each other text.
pub(crate) const LONG: usize = 8;

/// The key of a text: its first seven bytes, and then its length, from 8 on as 8. Of a shorter text places are read
/// that it has, some of them again, and what isn't its own is cut off: so few jumps hang on the length.
#[inline(always)]
pub(crate) fn key_of(bytes: &[u8]) -> u64
    ensures { IsKey bytes.now result }
{
    if LONG <= bytes.len() {
        long_key(bytes)
    } else if 4 <= bytes.len() {
        middle_key(bytes)
    } else if !bytes.is_empty() {
        short_key(bytes)
    } else {
        0
    }
}

/// The key of a text of eight bytes or more.
#[inline(always)]
fn long_key(bytes: &[u8]) -> u64
    requires { 8 ≤ length bytes.now }
    ensures { IsKey bytes.now result }
{
    let first = u64::from_be_bytes([
        bytes[0], bytes[1], bytes[2], bytes[3], bytes[4], bytes[5], bytes[6], bytes[7],
    ]);
    first / 256 * 256 + LONG as u64
}

/// The key of a text of four to seven bytes.
#[inline(always)]
fn middle_key(bytes: &[u8]) -> u64
    requires some { 4 ≤ length bytes.now }
    requires few { length bytes.now < 8 }
    ensures { IsKey bytes.now result }
{
    let last = bytes.len() - 1;
    let (fifth, sixth) = (bytes[last.min(4)], bytes[last.min(5)]);
    let digits = [
        bytes[0],
        bytes[1],
        bytes[2],
        bytes[3],
        fifth,
        sixth,
        bytes[last],
        0,
    ];
    cut_key(digits, bytes.len())
}

/// The key of a text of one to three bytes.
#[inline(always)]
fn short_key(bytes: &[u8]) -> u64
    requires some { 0 < length bytes.now }
    requires few { length bytes.now < 4 }
    ensures { IsKey bytes.now result }
{
    let len = bytes.len();
    cut_key(
        [bytes[0], bytes[len / 2], bytes[len - 1], 0, 0, 0, 0, 0],
        len,
    )
}

/// The first bytes of eight, so many, and their number in the last one's place.
#[inline(always)]
fn cut_key(digits: [u8; 8], len: usize) -> u64
    requires some { 0 < len }
    requires few { len < 8 }
    ensures { result ≡ cut_digits len digits }
{
    let unused = 64 - 8 * len;
    (u64::from_be_bytes(digits) >> unused << unused) + len as u64
}

/// Whether a left boundary isn't above a text, both with their keys.
#[inline(always)]
pub(crate) fn is_reached(bound: &str, bound_key: u64, text: &str, key: u64) -> bool
    requires bound { IsKey bound.now bound_key }
    requires text { IsKey text.now key }
    ensures { result ≡ is_reached text.now bound.now }
{
    if bound_key == key {
        bound <= text
    } else {
        bound_key < key
    }
}
