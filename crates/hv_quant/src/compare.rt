//! Sampled rows in the order of their words, and in that of their keys: only equal ones tie.

ghost use Rattle.std.specs.Prelude.{◌≡◌};
ghost use Rattle.hv_value.specs.Orders.{compare_by, compare_keys};
ghost use Rattle.hv_next.specs.KeyPlaces.{compare_at};
ghost use Rattle.hv_quant.specs.Quantiles.{by_key};
ghost use Rattle.hv_quant.specs.Sample.{by_place, by_word};

use crate::SampledRow;
use hv_sketch::Ranking;
use hv_value::{Cell, Mem, Order, OrderKey, compare};
use std::alloc::Global;
use std::cmp::Ordering;

/// The order of sampled rows by their words.
#[derive(Drop)]
pub(crate) struct WordRanking<'a> {
    pub(crate) order: &'a Order,
}

impl Ranking for WordRanking<'_> {
    ghost use Rattle.hv_quant.specs.Sample.{by_word, kept};
    ghost use Rattle.hv_quant.specs.SampleOrder.{word_joins, words_total};

    type Item = SampledRow;

    ghost cmp = { λ ranking x y. by_word ranking.order.now x y };

    ghost join = { λ _ x y. kept x y };

    fn compare(&self, a: &SampledRow, b: &SampledRow) -> Ordering {
        compare_words(self.order, a, b)
    }

    fn join(&self, alloc: Global, _a: &SampledRow, b: &SampledRow) -> Mem<SampledRow> {
        b.copy(alloc)
    }

    fn copy(&self, alloc: Global, a: &SampledRow) -> Mem<SampledRow> {
        a.copy(alloc)
    }

    ghost order = { λ ranking. words_total ranking.order.now };

    ghost ties = { λ ranking. word_joins ranking.order.now };
}

/// How two rows compare by their words, then by their places, and last by their keys.
pub(crate) fn compare_words(order: &Order, a: &SampledRow, b: &SampledRow) -> Ordering
    ensures { result ≡ by_word order.now a.now b.now }
{
    let words = a.word.cmp(&b.word);
    if words.is_ne() {
        return words;
    }
    let places = compare_places(a, b);
    if places.is_ne() {
        return places;
    }
    compare_lists(order.keys(), a.key.as_slice(), b.key.as_slice())
}

/// How two rows compare by their keys, then by their places, and last by their words.
pub(crate) fn compare_keyed(order: &Order, a: &SampledRow, b: &SampledRow) -> Ordering
    ensures { result ≡ by_key order.now a.now b.now }
{
    let keys = compare_lists(order.keys(), a.key.as_slice(), b.key.as_slice());
    if keys.is_ne() {
        return keys;
    }
    let places = compare_places(a, b);
    if places.is_ne() {
        return places;
    }
    a.word.cmp(&b.word)
}

/// How two rows compare by their partitions, then by their numbers.
fn compare_places(a: &SampledRow, b: &SampledRow) -> Ordering
    ensures { result ≡ by_place a.now b.now }
{
    let parts = a.part.cmp(&b.part);
    if parts.is_ne() {
        return parts;
    }
    a.row.cmp(&b.row)
}

/// How two lists of cells compare, also where they have more cells than there are keys, or fewer.
fn compare_lists(keys: &[OrderKey], a: &[Cell], b: &[Cell]) -> Ordering
    ensures { result ≡ compare_keys keys.now a.now b.now }
{
    let shared = a.len().min(b.len());
    for place in 0..shared {
        let found = compare_at(keys, place, &a[place], &b[place]);
        if found.is_ne() {
            return found;
        }
    }
    a.len().cmp(&b.len())
}

/// How two cells compare by the key at a place, or as cells where there is none.
fn compare_at(keys: &[OrderKey], place: usize, a: &Cell, b: &Cell) -> Ordering
    ensures { result ≡ compare_at keys.now place a.now b.now }
{
    if place < keys.len() {
        compare_by_key(&keys[place], a, b)
    } else {
        compare(a.lent(), b.lent())
    }
}

fn compare_by_key(key: &OrderKey, a: &Cell, b: &Cell) -> Ordering
    ensures { result ≡ compare_by key.now a.now b.now }
{
    if key.down {
        compare(b.lent(), a.lent())
    } else {
        compare(a.lent(), b.lent())
    }
}
