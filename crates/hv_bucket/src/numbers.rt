//! Buckets of whole numbers, and of days by their numbers. The definition divides unbounded whole numbers
//! (`int_bucket` of specs/Buckets.antt); the code multiplies by an inverse, tests the answer, and divides only where
//! the test fails. So a wrong inverse would only be slow, and contracts don't see it.

ghost use Rattle.std.specs.Prelude.{◌≡◌, ◌<◌, ◌≤◌, ◌+◌, ◌*◌, ◌/◌, ◌^◌, ◌↔◌, ◌-ℤ◌, true, false, unsigned_abs, int_le, ◌&&◌, IfOk, IfSome, IsErrOf, IsTrue};
ghost use Rattle.std.specs.Cmp.{partial_equiv_from_equiv};
ghost use Rattle.std.specs.Hash as fed;
ghost use Rattle.std.proofs.Common.{ap};
ghost use Rattle.hv_value.specs.Same.{same_by};
ghost use Rattle.hv_value.specs.SameLaws.{same_by-decides, same_by-equiv};
ghost use Rattle.hv_bucket.specs.Buckets.{are_int_buckets, int_bucket, number_place};

use crate::{BucketErr, MAX_BUCKETS, Place};
use std::hash::{Hash, Hasher};
use std::marker::Model;

/// The ends of some whole numbers, both among them, and the number of buckets that they are put into.
#[derive(Clone, Copy, Debug, PartialEq, Eq, Hash)]
pub struct IntLimits {
    pub lo: i64,
    pub hi: i64,
    pub n: u32,
}

/// The whole numbers from a least to a greatest one, put into buckets whose sizes differ by at most one number.
/// Contracts see the limits.
#[derive(Drop)]
pub struct IntBuckets {
    limits: IntLimits,
    // 2^64 by the number of numbers, rounded up, where that is of use
    inverse: u64,
}

impl Model for IntBuckets {
    ghost use Rattle.std.specs.Prelude.{◌≡◌, true};
    ghost use Rattle.hv_bucket.specs.declared.numbers.IntLimits.{IntLimits};
    ghost use Rattle.hv_bucket.specs.Limits.{are_int_limits};

    ghost Value = { IntLimits };

    ghost view = { λ buckets. buckets.limits };

    ghost invariant = { λ buckets. are_int_limits buckets.limits ≡ true };
}

impl IntBuckets {
    /// So many buckets of the numbers from `lo` to `hi`, both among them.
    pub fn new(lo: i64, hi: i64, n: u32) -> Result<IntBuckets, BucketErr>
        ensures ok { IfOk result (λ buckets. buckets ≡ record { lo = lo; hi = hi; n = n }) }
        ensures bad_buckets { IsErrOf result BucketErr.BadBuckets ↔ (are_int_buckets lo hi n ≡ false) }
        ensures no_memory { IsErrOf result BucketErr.Memory → ⊥ }
    {
        if lo <= hi && 0 < n && n <= MAX_BUCKETS {
            Ok(IntBuckets {
                limits: IntLimits { lo, hi, n },
                inverse: inverse_of(hi.abs_diff(lo)),
            })
        } else {
            Err(BucketErr::BadBuckets)
        }
    }

    /// The ends of the numbers and the number of buckets.
    pub fn limits(&self) -> IntLimits
        ensures value { result ≡ self.now }
        ensures sound { are_int_buckets result.lo result.hi result.n ≡ true }
    {
        self.limits
    }

    /// Equal buckets. It takes no memory.
    pub fn copied(&self) -> IntBuckets
        ensures { result ≡ self.now }
    {
        IntBuckets {
            limits: self.limits,
            inverse: self.inverse,
        }
    }

    /// Whether two have the same limits.
    pub fn same(&self, other: &IntBuckets) -> bool
        ensures { IsTrue result ↔ (self.now ≡ other.now) }
    {
        are_same_limits(self.limits(), other.limits())
    }

    /// Where a number is put.
    #[inline(always)]
    pub(crate) fn place_of(&self, x: i64) -> Place
        ensures { result ≡ number_place self.now.lo self.now.hi self.now.n x }
    {
        let limits = self.limits();
        if limits.lo <= x && x <= limits.hi {
            let above = x.abs_diff(limits.lo);
            let last = limits.hi.abs_diff(limits.lo);
            Place::In(bucket_at(above, last, limits.n, self.inverse))
        } else {
            Place::Outside
        }
    }
}

/// The least width of numbers, less one, from which on buckets are computed in 128 bits.
const WIDE: u64 = 1 << 53;

/// What numbers are multiplied by, where their last one is so far above their first: 0 where that is of no use.
fn inverse_of(last: u64) -> u64 {
    if 0 < last && last < WIDE {
        u64::MAX / (last + 1) + 1
    } else {
        0
    }
}

/// The bucket of a number so far above the first, where the last is so far above it.
#[inline(always)]
fn bucket_at(above: u64, last: u64, n: u32, inverse: u64) -> u32
    requires within { above ≤ last }
    requires some { 0 < n }
    requires few { n ≤ 1024 }
    ensures value { result ≡ above * n / (last + 1) }
    ensures below { result < n }
{
    if last < WIDE {
        quotient(above * u64::from(n), last + 1, inverse) as u32
    } else {
        (u128::from(above) * u128::from(n) / (u128::from(last) + 1)) as u32
    }
}

/// The quotient, rounded down: by the inverse of the divisor where that gives it.
#[inline(always)]
fn quotient(product: u64, divisor: u64, inverse: u64) -> u64
    requires { 0 < divisor }
    ensures { result ≡ product / divisor }
{
    let guess = ((u128::from(product) * u128::from(inverse)) >> 64) as u64;
    match checked(product, divisor, guess) {
        Some(quotient) => quotient,
        None => product / divisor,
    }
}

/// The guess, where it is the quotient rounded down.
#[inline(always)]
fn checked(product: u64, divisor: u64, guess: u64) -> Option<u64>
    ensures { IfSome result (λ quotient. quotient ≡ product / divisor) }
{
    let left = product.checked_sub(guess.checked_mul(divisor)?)?;
    if left < divisor { Some(guess) } else { None }
}

fn are_same_limits(a: IntLimits, b: IntLimits) -> bool
    ensures { IsTrue result ↔ (a ≡ b) }
{
    a == b
}

/// Two are equal where their limits are.
impl PartialEq for IntBuckets {
    ghost use Rattle.hv_bucket.specs.contracts.numbers.IntBuckets as row;

    ghost eq = { same_by row.the_row.coded };

    ghost laws = { partial_equiv_from_equiv (same_by-equiv row.the_row.coded) };

    fn eq(&self, other: &IntBuckets) -> bool {
        self.same(other)
    }
}

impl Eq for IntBuckets {
    ghost use Rattle.hv_bucket.specs.contracts.numbers.IntBuckets as row;

    ghost laws = { same_by-equiv row.the_row.coded };
}

impl Hash for IntBuckets {
    ghost use Rattle.hv_bucket.specs.contracts.numbers.IntBuckets as row;
    ghost use Rattle.hv_bucket.specs.Hashes.{limits_writes};

    ghost hash_input = { limits_writes };

    ghost respects_eq = { λ x y e. ap limits_writes ((same_by-decides row.the_row.coded x y).0 e) };

    fn hash<H: Hasher>(&self, state: &mut H) {
        self.limits.lo.hash(state);
        self.limits.hi.hash(state);
        self.limits.n.hash(state);
    }
}
