//! The frequent values of a column as a value, and how they are made of heavy hitters (specs/Frequent.antt).

ghost use Rattle.std.specs.Prelude.{◌≡◌, ◌+◌, ◌*◌, ◌++◌, filter, nat_lt, IfOk, OnOk};
ghost use Rattle.hv_view.specs.Frequent.{frequent_among, is_frequent, pair_values, paired};

use hv_heavy::{CountShown, HeavyPair};
use hv_value::{Cell, Listed, Mem};
use std::alloc::Global;

/// A value, and how many cells are equal to it.
#[derive(Drop)]
pub struct FrequentPair {
    pub value: Cell,
    pub count: u64,
}

/// The values that are more than one in k + 1 of the cells that aren't missing.
#[derive(Drop)]
pub struct FrequentShown {
    /// How many cells are missing.
    pub missing: u64,
    /// How many aren't.
    pub n: u64,
    /// The values, strictly rising, each with its count.
    pub pairs: Listed<FrequentPair>,
}

impl FrequentPair {
    /// An equal pair.
    fn copied(&self, alloc: Global) -> Mem<FrequentPair>
        ensures { IfOk result (λ copy. copy ≡ self.now) }
    {
        Ok(FrequentPair {
            value: Cell::of(alloc, self.value.lent())?,
            count: self.count,
        })
    }
}

impl FrequentShown {
    /// An equal value.
    pub fn copied(&self, alloc: Global) -> Mem<FrequentShown>
        ensures { IfOk result (λ copy. copy ≡ self.now) }
    {
        Ok(FrequentShown {
            missing: self.missing,
            n: self.n,
            pairs: copied_pairs(alloc, self.pairs.as_slice())?,
        })
    }
}

fn copied_pairs(alloc: Global, pairs: &[FrequentPair]) -> Mem<Listed<FrequentPair>>
    ensures { IfOk result (λ copy. copy ≡ pairs.now) }
{
    let mut copy = Listed::new(alloc);
    for pair in pairs {
        copy.push(pair.copied(alloc)?)?;
    }
    Ok(copy)
}

/// The values of pairs, copied.
pub(crate) fn pair_values(alloc: Global, pairs: &[HeavyPair]) -> Mem<Listed<Cell>>
    ensures { IfOk result (λ values. values ≡ pair_values pairs.now) }
{
    let mut values = Listed::new(alloc);
    for pair in pairs {
        values.push(Cell::of(alloc, pair.value.lent())?)?;
    }
    Ok(values)
}

/// Whether a pair's count is more than one in k + 1 of n.
fn is_frequent(pair: &FrequentPair, k: u32, n: u64) -> bool
    ensures { result ≡ is_frequent k n pair.now }
{
    is_above_share(k, n, pair.count)
}

/// Whether a count is more than one in k + 1 of n, computed in 128 bits.
fn is_above_share(k: u32, n: u64, count: u64) -> bool
    ensures { result ≡ nat_lt n ((k + 1) * count) }
{
    u128::from(n) < (u128::from(k) + 1) * u128::from(count)
}

/// Adds values with their counts, in turn, as far as both go.
fn add_paired(
    alloc: Global,
    found: &[HeavyPair],
    counts: &[u64],
    pairs: &mut Listed<FrequentPair>,
) -> Mem<()>
    ensures { OnOk result (pairs.new ≡ pairs.old ++ paired (pair_values found.now) counts.now) }
{
    let [pair, more_pairs @ ..] = found else {
        return Ok(());
    };
    let [count, more_counts @ ..] = counts else {
        return Ok(());
    };
    let value = Cell::of(alloc, pair.value.lent())?;
    let count = *count;
    pairs.push(FrequentPair { value, count })?;
    add_paired(alloc, more_pairs, more_counts, pairs)
}

/// The frequent ones of pairs.
fn frequent_ones(pairs: Listed<FrequentPair>, k: u32, n: u64) -> Listed<FrequentPair>
    ensures { result ≡ filter (is_frequent k n) pairs }
{
    let mut pairs = pairs.into_vec();
    pairs.retain(|pair| is_frequent(pair, k, n));
    Listed::from_vec(pairs)
}

/// The frequent ones among values that were counted, one count a value.
pub(crate) fn frequent_among(
    alloc: Global,
    k: u32,
    found: &[HeavyPair],
    counted: &CountShown,
) -> Mem<FrequentShown>
    ensures { IfOk result (λ value. value ≡ frequent_among k (pair_values found.now) counted.now) }
{
    let mut pairs = Listed::new(alloc);
    add_paired(alloc, found, counted.counts.as_slice(), &mut pairs)?;
    Ok(FrequentShown {
        missing: counted.missing,
        n: counted.n,
        pairs: frequent_ones(pairs, k, counted.n),
    })
}
