//! Pairs in the order of their values: of two of one value the estimates are added.

ghost use Rattle.std.specs.Prelude.{◌≡◌};
ghost use Rattle.hv_heavy.specs.Heavy.{by_value};

use crate::HeavyPair;
use hv_sketch::Ranking;
use hv_value::{Mem, compare};
use std::alloc::Global;
use std::cmp::Ordering;

/// The order of pairs, in which only those of one value tie.
#[derive(Drop)]
pub(crate) struct PairOrder;

impl Ranking for PairOrder {
    ghost use Rattle.hv_heavy.specs.Heavy.{by_value};
    ghost use Rattle.hv_heavy.specs.Pairs.{CanAdd, added};
    ghost use Rattle.hv_heavy.specs.PairOrder.{added_joins, pairs_total};

    type Item = HeavyPair;

    ghost cmp = { λ _ x y. by_value x y };

    ghost join = { λ _ x y. added x y };

    ghost may_join = { λ _ x y. CanAdd x y };

    fn compare(&self, a: &HeavyPair, b: &HeavyPair) -> Ordering {
        compare_values(a, b)
    }

    fn join(&self, alloc: Global, a: &HeavyPair, b: &HeavyPair) -> Mem<HeavyPair> {
        let mut both = b.copy(alloc)?;
        both.estimate += a.estimate;
        Ok(both)
    }

    fn copy(&self, alloc: Global, a: &HeavyPair) -> Mem<HeavyPair> {
        a.copy(alloc)
    }

    ghost order = { λ _. pairs_total };

    ghost ties = { λ _. added_joins };
}

/// How two pairs compare by their values.
pub(crate) fn compare_values(a: &HeavyPair, b: &HeavyPair) -> Ordering
    ensures { result ≡ by_value a.now b.now }
{
    compare(a.value.lent(), b.value.lent())
}
