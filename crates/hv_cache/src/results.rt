//! `Results`, a cache over the kit's crate `lru`. A clause sees one as the record `Recent` of `specs/Recent.antt`, and its
//! calls as the functions on lists of pairs of `specs/Results.antt`.

ghost use Rattle.std.specs.Prelude.{◌≡◌, ◌↔◌, ◌+◌, ◌-◌, ◌<◌, ◌≤◌, ◌^◌, [], length, option_copied, IfOk, OnOk, OnErr, IfErr, IsOk, IsSome, IsTrue};
ghost use Rattle.std.specs.List.{IsDistinct};
ghost use Rattle.std.specs.Map.{keys_of};
ghost use Rattle.hv_cache.specs.Recent.{recent, IsWithin};
ghost use Rattle.hv_cache.specs.Results.{found, brought_front, put_front, cut};

use hv_value::Mem;
use lru::LruCache;
use std::alloc::Global;
use std::hash::Hash;
use std::marker::Model;
use std::num::NonZeroUsize;

/// A cache of results by their keys, of which it keeps the newest used.
#[derive(Drop)]
pub struct Results<K: Eq + Hash, V> {
    kept: LruCache<K, V>,
}

impl<K: Eq + Hash, V> Model for Results<K, V> {
    ghost use Rattle.hv_cache.specs.Recent.{Recent, recent, recent_code, IsWithin};

    ghost Value = { Recent K V };

    ghost coded = { recent_code K.code V.code };

    ghost view = { λ results. recent results.kept.cap results.kept.entries };

    ghost invariant = { λ results. IsWithin (recent results.kept.cap results.kept.entries) };
}

impl<K: Eq + Hash, V> Results<K, V> {
    ghost use Rattle.std.specs.Borrow.{sem};
    ghost use Rattle.hv_cache.specs.ResultsLends.{ends_as};

    /// A cache of no pairs, with room for so many pairs, 1 or more. It takes the memory of a pair when that is put.
    pub fn new(alloc: Global, capacity: u32) -> Mem<Results<K, V>>
        requires { 0 < capacity }
        ensures { IfOk result (λ made. made ≡ recent capacity []) }
    {
        let room = NonZeroUsize::new(capacity as usize).unwrap();
        Ok(Results {
            kept: LruCache::sparse(alloc, room)?,
        })
    }

    /// The value of the key, whose pair goes first.
    #[tactic(auto, using(crate::proofs::LruLemmas::within_promoted))]
    pub fn get(&mut self, key: &K) -> Option<&V>
        ensures* brought { sem 𝓛 (ends_as K.row V.row K.Hash self.entry
            (brought_front K.eq key.now self.old.pairs)) }
        ensures value { option_copied result ≡ found K.eq key.now self.old.pairs }
    {
        self.kept.get(key)
    }

    /// The value of the key, whose pair stays where it is.
    pub fn peek(&self, key: &K) -> Option<&V>
        ensures { option_copied result ≡ found K.eq key.now self.now.pairs }
    {
        self.kept.peek(key)
    }

    /// The number of pairs.
    pub fn len(&self) -> u32
        ensures value { result ≡ length self.now.pairs }
        ensures within { IsWithin self.now }
        ensures distinct { IsDistinct K.eq (keys_of self.now.pairs) }
    {
        self.kept.len() as u32
    }
}

impl<K: Eq + Hash + Drop, V: Drop> Results<K, V> {
    /// Puts the value under the key, first of all pairs. The value of an equal key is dropped, and of a full cache the
    /// oldest used pair.
    ///
    /// For want of memory it gives both back, and the cache stays as it was. That doesn't come where the key is there.
    #[tactic(auto, using(crate::proofs::LruLemmas::put_entries_cut, crate::proofs::LruLemmas::within_after))]
    pub fn put(&mut self, key: K, value: V) -> Result<(), (K, V)>
        ensures ok { OnOk result (self.new ≡ recent self.old.capacity
            (cut self.old.capacity (put_front K.eq key value self.old.pairs))) }
        ensures back { IfErr result (λ both. both ≡ (key, value)) }
        ensures err { OnErr result (self.new ≡ self.old) }
        ensures there { IsSome (found K.eq key self.old.pairs) → IsOk result }
    {
        match self.kept.put(key, value) {
            Ok(_) => Ok(()),
            Err(failed) => Err(failed.value),
        }
    }

    /// Drops the oldest used pair, and answers whether there was one.
    pub fn drop_oldest(&mut self) -> bool
        ensures value { IsTrue result ↔ (0 < length self.old.pairs) }
        ensures dropped { self.new ≡ recent self.old.capacity
            (cut (length self.old.pairs - 1) self.old.pairs) }
    {
        self.kept.pop_lru().is_some()
    }

    /// Drops all pairs.
    pub fn clear(&mut self)
        ensures { self.new ≡ recent self.old.capacity [] }
    {
        self.kept.clear();
    }
}
