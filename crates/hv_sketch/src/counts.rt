//! Counts by slot: numbers at places from 0, each of 64 bits. Contracts see them as their list.

ghost use Rattle.std.specs.Prelude.{◌≡◌, ◌+◌, ◌<◌, ◌^◌, length, get_or, replicate, slice_index, slice_set, EachIndex, IfOk};
ghost use Rattle.hv_sketch.specs.Tally.{added};

use hv_value::{Listed, Mem};
use std::alloc::Global;
use std::marker::Model;

/// A list of counts, one for each slot.
#[derive(Drop)]
pub struct Counts {
    counts: Vec<u64>,
}

impl Model for Counts {
    ghost use Rattle.std.specs.Prelude.{ℕ, List};

    ghost Value = { List ℕ };

    ghost view = { λ counts. counts.counts.items };
}

impl Counts {
    /// A count of 0 for each of so many slots.
    pub fn zeros(alloc: Global, slots: usize) -> Mem<Counts>
        ensures { IfOk result (λ counts. counts ≡ replicate slots 0) }
    {
        Ok(Counts {
            counts: vec![in alloc; 0; slots]?,
        })
    }

    /// The counts, in the order of the slots.
    pub fn as_slice(&self) -> &[u64]
        ensures { result.now ≡ self.now }
    {
        self.counts.as_slice()
    }

    /// Adds one to the count of a slot.
    #[inline(always)]
    pub fn add_one(&mut self, slot: usize)
        requires within { slot < length self.old }
        requires fits { slice_index self.old slot + 1 < 2 ^ 64 }
        ensures { self.new ≡ slice_set self.old slot (slice_index self.old slot + 1) }
    {
        self.counts[slot] += 1;
    }

    /// Adds to each count the one of the same slot in other counts.
    pub fn add(&mut self, other: &Counts)
        requires alike { length self.old ≡ length other.now }
        requires fits { EachIndex self.old (λ slot. slice_index self.old slot + slice_index other.now slot < 2 ^ 64) }
        ensures { self.new ≡ added self.old other.now }
    {
        add_each(self.counts.as_mut_slice(), other.as_slice());
    }

    /// Equal counts.
    pub fn copy(&self, alloc: Global) -> Mem<Counts>
        ensures { IfOk result (λ counts. counts ≡ self.now) }
    {
        let mut copy = Counts::zeros(alloc, self.counts.len())?;
        copy.counts.copy_from_slice(self.counts.as_slice());
        Ok(copy)
    }
}

/// Adds to each number of a slice the one at the same place of another.
fn add_each(counts: &mut [u64], others: &[u64])
    requires alike { length counts.old ≡ length others.now }
    requires fits { EachIndex counts.old (λ slot. slice_index counts.old slot + slice_index others.now slot < 2 ^ 64) }
    ensures { counts.new ≡ added counts.old others.now }
{
    for slot in 0..counts.len() {
        counts[slot] += others[slot];
    }
}

/// The count of a slot, 0 where there is none.
pub fn count_at(counts: &[u64], slot: usize) -> u64
    ensures { result ≡ get_or counts.now slot 0 }
{
    match counts.get(slot) {
        Some(count) => *count,
        None => 0,
    }
}

/// Equal counts as a list, in memory of their own.
pub fn copied_counts(alloc: Global, counts: &[u64]) -> Mem<Listed<u64>>
    ensures { IfOk result (λ copy. copy ≡ counts.now) }
{
    Ok(Listed::from_vec(Vec::from_slice(alloc, counts)?))
}
