//! Keys with their numbers of rows in an order: of two equal ones their numbers are added.

ghost use Rattle.std.specs.Prelude.{◌≡◌};
ghost use Rattle.hv_value.specs.Orders.{compare_by, compare_keys};
ghost use Rattle.hv_next.specs.KeyPlaces.{compare_at};

use crate::NextRow;
use hv_sketch::Ranking;
use hv_value::{Cell, Mem, Order, OrderKey, compare};
use std::alloc::Global;
use std::cmp::Ordering;

/// The order of keys that an order of rows gives.
#[derive(Drop)]
pub(crate) struct KeyRanking<'a> {
    pub(crate) order: &'a Order,
}

impl Ranking for KeyRanking<'_> {
    ghost use Rattle.hv_next.specs.KeyOrder.{added_joins, rows_total};
    ghost use Rattle.hv_next.specs.Next.{added, compare_rows};
    ghost use Rattle.hv_next.specs.NextSums.{CanAdd};

    type Item = NextRow;

    ghost cmp = { λ ranking x y. compare_rows ranking.order.now x y };

    ghost join = { λ _ x y. added x y };

    ghost may_join = { λ _ x y. CanAdd x y };

    fn compare(&self, a: &NextRow, b: &NextRow) -> Ordering {
        compare_lists(self.order.keys(), a.key.as_slice(), b.key.as_slice())
    }

    fn join(&self, alloc: Global, a: &NextRow, b: &NextRow) -> Mem<NextRow> {
        let mut both = b.copy(alloc)?;
        both.count += a.count;
        Ok(both)
    }

    fn copy(&self, alloc: Global, a: &NextRow) -> Mem<NextRow> {
        a.copy(alloc)
    }

    ghost order = { λ ranking. rows_total ranking.order.now };

    ghost ties = { λ ranking. added_joins ranking.order.now };
}

/// How two lists of cells compare, also where they have more cells than there are keys, or fewer.
fn compare_lists(keys: &[OrderKey], a: &[Cell], b: &[Cell]) -> Ordering
    ensures { result ≡ compare_keys keys.now a.now b.now }
{
    let shared = a.len().min(b.len());
    for place in 0..shared {
        let found = compare_at(keys, place, &a[place], &b[place]);
        if found.is_ne() {
            return found;
        }
    }
    a.len().cmp(&b.len())
}

/// How two cells compare by the key at a place, or as cells where there is none.
fn compare_at(keys: &[OrderKey], place: usize, a: &Cell, b: &Cell) -> Ordering
    ensures { result ≡ compare_at keys.now place a.now b.now }
{
    if place < keys.len() {
        compare_by_key(&keys[place], a, b)
    } else {
        compare(a.lent(), b.lent())
    }
}

fn compare_by_key(key: &OrderKey, a: &Cell, b: &Cell) -> Ordering
    ensures { result ≡ compare_by key.now a.now b.now }
{
    if key.down {
        compare(b.lent(), a.lent())
    } else {
        compare(a.lent(), b.lent())
    }
}
