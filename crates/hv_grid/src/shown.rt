//! The values of charts of two axes, made of the counts by slot.

ghost use Rattle.std.specs.Prelude.{◌≡◌, ◌+◌, ◌*◌, get_or, map, IfOk};
ghost use Rattle.std.specs.List.{range_with_len};

use crate::slots::grid_slot;
use hv_sketch::{copied_counts, count_at};
use hv_value::{Listed, Mem};
use std::alloc::Global;

/// A stacked histogram: for each bucket of the first axis how many of its rows are in each bucket of the second one
/// and how many in none of them; how many cells of the first axis are missing, and how many others are in no bucket
/// of it.
#[derive(Drop)]
pub struct StackedShown {
    pub counts: Listed<Listed<u64>>,
    pub missing: u64,
    pub other: Listed<u64>,
    pub outside: u64,
}

/// A heat map: for each bucket of the first axis how many of its rows are in each bucket of the second one, and how
/// many rows aren't in a bucket of both.
#[derive(Drop)]
pub struct HeatMapShown {
    pub counts: Listed<Listed<u64>>,
    pub rest: u64,
}

impl StackedShown {
    /// An equal stacked histogram.
    pub fn copied(&self, alloc: Global) -> Mem<StackedShown>
        ensures { IfOk result (λ copy. copy ≡ self.now) }
    {
        Ok(StackedShown {
            counts: copied_rows(alloc, self.counts.as_slice())?,
            missing: self.missing,
            other: copied_counts(alloc, self.other.as_slice())?,
            outside: self.outside,
        })
    }
}

impl HeatMapShown {
    /// An equal heat map.
    pub fn copied(&self, alloc: Global) -> Mem<HeatMapShown>
        ensures { IfOk result (λ copy. copy ≡ self.now) }
    {
        Ok(HeatMapShown {
            counts: copied_rows(alloc, self.counts.as_slice())?,
            rest: self.rest,
        })
    }
}

/// Equal rows of counts, in memory of their own.
fn copied_rows(alloc: Global, rows: &[Listed<u64>]) -> Mem<Listed<Listed<u64>>>
    ensures { IfOk result (λ copy. copy ≡ rows.now) }
{
    let mut copy = Listed::new(alloc);
    for row in rows {
        copy.push(copied_counts(alloc, row.as_slice())?)?;
    }
    Ok(copy)
}

/// The first counts of one row of a grid whose rows have so many slots.
fn row_counts(alloc: Global, counts: &[u64], row: u32, width: u32, columns: u32) -> Mem<Listed<u64>>
    ensures { IfOk result (λ made. made ≡ map (λ b. get_or counts.now (row * width + b) 0) (range_with_len 0 columns)) }
{
    let mut made = Listed::new(alloc);
    for column in 0..columns {
        made.push(count_at(counts, grid_slot(row, column, width)))?;
    }
    Ok(made)
}

/// The first counts of each row of a grid of so many rows.
pub(crate) fn grid_of(
    alloc: Global,
    counts: &[u64],
    rows: u32,
    width: u32,
    columns: u32,
) -> Mem<Listed<Listed<u64>>>
    ensures { IfOk result (λ made. made ≡ map (λ a. map (λ b. get_or counts.now (a * width + b) 0) (range_with_len 0 columns)) (range_with_len 0 rows)) }
{
    let mut made = Listed::new(alloc);
    for row in 0..rows {
        made.push(row_counts(alloc, counts, row, width, columns)?)?;
    }
    Ok(made)
}

/// The counts of one column of a grid of so many rows.
pub(crate) fn column_counts(
    alloc: Global,
    counts: &[u64],
    rows: u32,
    width: u32,
    column: u32,
) -> Mem<Listed<u64>>
    ensures { IfOk result (λ made. made ≡ map (λ a. get_or counts.now (a * width + column) 0) (range_with_len 0 rows)) }
{
    let mut made = Listed::new(alloc);
    for row in 0..rows {
        made.push(count_at(counts, grid_slot(row, column, width)))?;
    }
    Ok(made)
}
