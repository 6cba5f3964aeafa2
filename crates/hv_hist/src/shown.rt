//! The values of charts of one axis, made of the counts by slot: one for each bucket, and then those of the rows
//! outside of all buckets and of the rows with a missing cell.

ghost use Rattle.std.specs.Prelude.{◌≡◌, ◌+◌, ◌<◌, ◌^◌, take, IfOk};
ghost use Rattle.std.specs.List.{sum};
ghost use Rattle.hv_hist.specs.Sums.{running_sums};

use hv_sketch::copied_counts;
use hv_value::{Listed, Mem};
use std::alloc::Global;

/// A histogram: how many rows are in each bucket, how many cells are missing, and how many others are in no bucket.
#[derive(Drop)]
pub struct HistogramShown {
    pub counts: Listed<u64>,
    pub missing: u64,
    pub outside: u64,
}

/// A cumulative distribution: for each bucket how many rows are in it or in one before it, and the rest as in a
/// histogram.
#[derive(Drop)]
pub struct CdfShown {
    pub missing: u64,
    pub outside: u64,
    pub sums: Listed<u64>,
}

impl HistogramShown {
    /// An equal histogram.
    pub fn copied(&self, alloc: Global) -> Mem<HistogramShown>
        ensures { IfOk result (λ copy. copy ≡ self.now) }
    {
        Ok(HistogramShown {
            counts: copied_counts(alloc, self.counts.as_slice())?,
            missing: self.missing,
            outside: self.outside,
        })
    }
}

impl CdfShown {
    /// An equal distribution.
    pub fn copied(&self, alloc: Global) -> Mem<CdfShown>
        ensures { IfOk result (λ copy. copy ≡ self.now) }
    {
        Ok(CdfShown {
            missing: self.missing,
            outside: self.outside,
            sums: copied_counts(alloc, self.sums.as_slice())?,
        })
    }
}

/// The counts of the first slots, at most so many.
pub(crate) fn first_counts(alloc: Global, counts: &[u64], slots: usize) -> Mem<Listed<u64>>
    ensures { IfOk result (λ first. first ≡ take slots counts.now) }
{
    let first = &counts[..slots.min(counts.len())];
    Ok(Listed::from_vec(Vec::from_slice(alloc, first)?))
}

/// The running sums of counts whose sum fits.
pub(crate) fn sums(alloc: Global, counts: &[u64]) -> Mem<Listed<u64>>
    ensures { IfOk result (λ sums. sum counts.now < 2 ^ 64 → sums ≡ running_sums counts.now) }
{
    let mut sums = Listed::new(alloc);
    let mut so_far: u64 = 0;
    for count in counts {
        so_far = so_far.saturating_add(*count);
        sums.push(so_far)?;
    }
    Ok(sums)
}
