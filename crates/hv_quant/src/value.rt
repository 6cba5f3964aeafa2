//! The quantiles of a sample (specs/Quantiles.antt): its rows are sorted by key, and the keys at evenly spaced places
//! are copied.

ghost use Rattle.std.specs.Prelude.{◌≡◌, ◌<◌, ◌≤◌, List, length, map, IfOk, IsPermutation};
ghost use Rattle.std.specs.List.Sorted.{IsSorted};
ghost use Rattle.hv_value.specs.Rows.{Row};
ghost use Rattle.hv_quant.specs.Quantiles.{by_key, quantile_place, quantiles_in, quantiles_of, value_over};
ghost use Rattle.hv_quant.specs.Sample.{IsSample, sample_of};

use crate::compare::compare_keyed;
use crate::summary::copied_rows;
use crate::{Sample, SampleSummary, SampledRow};
use hv_sketch::copied_cells;
use hv_value::{Cell, Listed, Mem, Order};
use std::alloc::Global;

/// Quantiles of a sample.
#[derive(Drop)]
pub struct SampleValue {
    /// The keys, in the order by which they were sampled: the first is the least of the sample, the last the greatest,
    /// the others at evenly spaced places between; none of no rows.
    pub quantiles: Listed<Listed<Cell>>,
    /// How many rows the sample has.
    pub rows: u64,
    /// The seed of the words by which they were sampled.
    pub seed: u64,
}

impl SampleValue {
    /// An equal value.
    pub fn copied(&self, alloc: Global) -> Mem<SampleValue>
        ensures { IfOk result (λ value. value ≡ self.now) }
    {
        Ok(SampleValue {
            quantiles: copied_keys(alloc, self.quantiles.as_slice())?,
            rows: self.rows,
            seed: self.seed,
        })
    }
}

/// Equal keys, in memory of their own.
fn copied_keys(alloc: Global, keys: &[Listed<Cell>]) -> Mem<Listed<Listed<Cell>>>
    ensures { IfOk result (λ copy. copy ≡ keys.now) }
{
    let mut copy = Listed::new(alloc);
    for key in keys {
        copy.push(copied_cells(alloc, key.as_slice())?)?;
    }
    Ok(copy)
}

impl Sample {
    /// The quantiles of a sample, how many rows it has, and its seed.
    pub fn value(&self, alloc: Global, s: &SampleSummary) -> Mem<SampleValue>
        ensures { (rows : List Row) → IsSample self.now.seed self.now.k self.now.order rows s.now → IfOk result (λ value.
            value ≡ value_over self.now rows) }
    {
        let rows = sorted_rows(alloc, &self.order, s.rows.as_slice())?;
        let quantiles = quantiles_in(alloc, rows.as_slice(), self.q)?;
        Ok(SampleValue {
            quantiles,
            rows: s.rows.as_slice().len() as u64,
            seed: self.seed,
        })
    }
}

/// The quantiles of a sample, as lists of cells.
pub fn quantiles(alloc: Global, sample: &Sample, s: &SampleSummary) -> Mem<Vec<Vec<Cell>>>
    ensures { (rows : List Row) → IsSample sample.now.seed sample.now.k sample.now.order rows s.now → IfOk result (λ keys.
        map (λ key. key.items) keys.items ≡ quantiles_of sample.now.order sample.now.q
        (sample_of sample.now.seed sample.now.k sample.now.order rows)) }
{
    let value = sample.value(alloc, s)?;
    as_vecs(alloc, value.quantiles.into_vec())
}

fn as_vecs(alloc: Global, lists: Vec<Listed<Cell>>) -> Mem<Vec<Vec<Cell>>>
    ensures { IfOk result (λ keys. map (λ key. key.items) keys.items ≡ lists.items) }
{
    let mut keys = Vec::new(alloc);
    for list in lists {
        keys.push(list.into_vec())?;
    }
    Ok(keys)
}

/// Copies of rows, in the order of their keys.
fn sorted_rows(alloc: Global, order: &Order, rows: &[SampledRow]) -> Mem<Vec<SampledRow>>
    ensures same { IfOk result (λ sorted. IsPermutation rows.now sorted.items) }
    ensures sorted { IfOk result (λ sorted. IsSorted (by_key order.now) sorted.items) }
{
    let mut sorted = copied_rows(alloc, rows)?;
    sort_by_key(order, sorted.as_mut_slice());
    Ok(sorted)
}

fn sort_by_key(order: &Order, rows: &mut [SampledRow])
    ensures same { IsPermutation rows.old rows.new }
    ensures sorted { IsSorted (by_key order.now) rows.new }
{
    rows.sort_unstable_by(|a, b| compare_keyed(order, a, b));
}

/// The `q` quantiles of rows in order.
fn quantiles_in(alloc: Global, rows: &[SampledRow], q: u32) -> Mem<Listed<Listed<Cell>>>
    ensures { IfOk result (λ keys. keys ≡ quantiles_in q rows.now) }
{
    let mut keys = Listed::new(alloc);
    if rows.is_empty() {
        return Ok(keys);
    }
    for j in 0..q {
        let place = quantile_place(q, rows.len(), j);
        keys.push(copied_cells(alloc, rows[place].key.as_slice())?)?;
    }
    Ok(keys)
}

/// The place of quantile `j` of `q` among rows, of which there is one at least.
fn quantile_place(q: u32, rows: usize, j: u32) -> usize
    requires some { 0 < rows }
    requires within { j < q }
    ensures value { result ≡ quantile_place q rows j }
    ensures there { result < rows }
{
    let steps = u128::from(q.saturating_sub(1).max(1));
    let last = rows as u128 - 1;
    (u128::from(j) * last / steps) as usize
}
