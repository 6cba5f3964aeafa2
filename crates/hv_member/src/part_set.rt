//! A set of partitions of a table. Contracts see the rising list of their numbers, all below the number of
//! partitions that the table has.

ghost use Rattle.std.specs.Prelude.{◌≡◌, ◌^◌, ◌<◌, ◌≤◌, true, [], length, IfOk};
ghost use Rattle.hv_member.specs.Sets.{is_in, IsSetBelow, numbers, inserted, has_all, exceeds, next_from};

use crate::words::{are_within, first_bit, has_bit, set_bit};
use hv_value::Mem;
use std::alloc::Global;
use std::marker::Model;

/// Some of the partitions below a size. One of 65,536 takes 8 KiB and a few words.
#[derive(Drop)]
pub struct PartSet {
    size: u32,
    count: u32,
    words: Vec<u64>,
}

impl Model for PartSet {
    ghost use Rattle.hv_member.specs.PartSet.{Parts};

    ghost Value = { Parts };

    ghost use Rattle.hv_member.specs.Bits.{members_of, IsKept};

    ghost view = { λ s. record { size = s.size; parts = members_of s.size s.words.items } };

    ghost invariant = { λ s. IsKept s.size s.count s.words.items };
}

impl PartSet {
    /// No partition, of those below `size`.
    pub fn new(alloc: Global, size: u32) -> Mem<PartSet>
        ensures { IfOk result (λ made. made ≡ record { size = size; parts = [] }) }
    {
        let words = vec![in alloc; 0u64; (size as usize).div_ceil(64)]?;
        Ok(PartSet {
            size,
            count: 0,
            words,
        })
    }

    /// Adds the partition, which may be there already.
    pub fn insert(&mut self, p: u32)
        requires { p < self.old.size }
        ensures { self.new ≡ record self.old { parts = inserted p self.old.parts } }
    {
        if !has_bit(&self.words, p as usize) {
            set_bit(&mut self.words, p as usize);
            self.count += 1;
        }
    }

    /// Whether the partition is there.
    pub fn contains(&self, p: u32) -> bool
        ensures { result ≡ is_in p self.now.parts }
    {
        p < self.size && has_bit(&self.words, p as usize)
    }

    /// How many partitions are there, at most the size. Takes constant time, and tells a caller what each set keeps to.
    pub fn count(&self) -> u32
        ensures value { result ≡ length self.now.parts }
        ensures set { IsSetBelow self.now.size self.now.parts }
        ensures within { length self.now.parts ≤ self.now.size }
        ensures small { self.now.size < 2 ^ 32 }
    {
        self.count
    }

    /// Whether all the partitions below the size are there. Takes constant time.
    pub fn is_full(&self) -> bool
        ensures value { result ≡ has_all self.now.size self.now.parts }
        ensures whole { result ≡ true → self.now.parts ≡ numbers self.now.size }
    {
        self.count == self.size
    }

    /// The first partition that is there and is not below `from`, which may be `from` itself.
    pub fn next(&self, from: u32) -> Option<u32>
        ensures { result ≡ next_from from self.now.parts }
    {
        let found = first_bit(&self.words, from as usize)?;
        Some(found as u32)
    }

    /// The same partitions in memory of its own.
    pub fn copy(&self, alloc: Global) -> Mem<PartSet>
        ensures { IfOk result (λ made. made ≡ self.now) }
    {
        let words = Vec::from_slice(alloc, &self.words)?;
        Ok(PartSet {
            size: self.size,
            count: self.count,
            words,
        })
    }

    /// Whether this set has all that the other has, and more, of two sets of one size.
    pub fn exceeds(&self, other: &PartSet) -> bool
        requires { self.now.size ≡ other.now.size }
        ensures { result ≡ exceeds self.now.parts other.now.parts }
    {
        other.count < self.count && are_within(&other.words, &self.words)
    }
}
