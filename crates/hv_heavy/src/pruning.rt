//! The heavy hitters of two lists of pairs together: the pairs of one value joined, and of more than `k` the largest
//! kept, each lowered by the estimate of the largest that isn't ("Mergeable Summaries", section 3).

ghost use Rattle.std.specs.Prelude.{◌≡◌, ◌<◌, ◌≤◌, ◌+◌, ◌-◌, ◌*◌, ◌++◌, ◌^◌, ℕ, length, map, count_by, nat_le, nat_lt, sum_by, if◌then◌else◌, IfOk};
ghost use Rattle.hv_value.specs.declared.cell.Cell.{Cell};
ghost use Rattle.hv_sketch.specs.Rising.{IsRising};
ghost use Rattle.hv_heavy.specs.Heavy.{AreHeavy, IsNear, by_value, total};
ghost use Rattle.hv_heavy.specs.Pairs.{lowered, taken};

use crate::HeavyPair;
use crate::pair_order::PairOrder;
use hv_sketch::joined;
use hv_value::{Listed, Mem};
use std::alloc::Global;

/// The heavy hitters of two rising lists together, at most `k`.
pub(crate) fn sum(alloc: Global, a: &[HeavyPair], b: &[HeavyPair], k: u32) -> Mem<Listed<HeavyPair>>
    requires left { IsRising by_value a.now }
    requires right { IsRising by_value b.now }
    requires fits { total a.now + total b.now < 2 ^ 64 }
    ensures { IfOk result (λ pairs. (n : ℕ) (count : Cell → ℕ) →
        IsNear k n count (a.now ++ b.now) → AreHeavy k n count pairs) }
{
    let both = joined(alloc, &PairOrder, a, b, a.len() + b.len())?;
    pruned(alloc, both, k)
}

/// The heavy hitters among rising pairs, at most `k`.
fn pruned(alloc: Global, pairs: Vec<HeavyPair>, k: u32) -> Mem<Listed<HeavyPair>>
    requires { IsRising by_value pairs.items }
    ensures { IfOk result (λ kept. (n : ℕ) (count : Cell → ℕ) →
        IsNear k n count pairs.items → AreHeavy k n count kept) }
{
    let less = cut_of(alloc, pairs.as_slice(), k)?;
    lowered(alloc, pairs, less)
}

/// Each pair with its estimate lowered by so much, those of which something is left.
fn lowered(alloc: Global, pairs: Vec<HeavyPair>, less: u64) -> Mem<Listed<HeavyPair>>
    ensures { IfOk result (λ kept. kept ≡ lowered less pairs.items) }
{
    let mut kept = Listed::new(alloc);
    for pair in pairs {
        if pair.estimate > less {
            kept.push(HeavyPair {
                value: pair.value,
                estimate: pair.estimate - less,
            })?;
        }
    }
    Ok(kept)
}

/// What is taken from each estimate so that at most `k` are left: the largest but `k`, or 0 where there are no more.
fn cut_of(alloc: Global, pairs: &[HeavyPair], k: u32) -> Mem<u64>
    ensures enough { IfOk result (λ less. (k + 1) * less ≤ taken less pairs.now) }
    ensures few { IfOk result (λ less. count_by (λ pair. nat_lt less pair.estimate) pairs.now ≤ k) }
{
    let most = k as usize;
    if pairs.len() <= most {
        return Ok(0);
    }
    let mut estimates = estimates_of(alloc, pairs)?;
    Ok(largest_but(estimates.as_mut_slice(), most))
}

fn estimates_of(alloc: Global, pairs: &[HeavyPair]) -> Mem<Vec<u64>>
    ensures { IfOk result (λ estimates. estimates.items ≡ map (λ pair. pair.estimate) pairs.now) }
{
    let mut estimates = Vec::new(alloc);
    for pair in pairs {
        estimates.push(pair.estimate)?;
    }
    Ok(estimates)
}

/// The largest of some numbers but `k`. They change places.
fn largest_but(numbers: &mut [u64], k: usize) -> u64
    requires { k < length numbers.old }
    ensures enough { (k + 1) * result
        ≤ sum_by (λ n. if nat_le result n then result else 0) numbers.old }
    ensures few { count_by (λ n. nat_lt result n) numbers.old ≤ k }
{
    let place = numbers.len() - 1 - k;
    let (_, number, _) = numbers.select_nth_unstable(place);
    *number
}
