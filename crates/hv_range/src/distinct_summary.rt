//! The distinct values of a column as a value: those of no rows, of one cell more, and of the rows of two
//! summaries (specs/Distinct.antt, specs/DistinctSums.antt).

ghost use Rattle.std.specs.Prelude.{◌≡◌, ◌≤◌, ◌+◌, ◌||◌, [], List, false, length, nat_lt, take, IfOk, OnOk};
ghost use Rattle.std.specs.List.{insert};
ghost use Rattle.hv_value.specs.declared.cell.Cell.{Cell};
ghost use Rattle.hv_value.specs.Cells.{cell_lent};
ghost use Rattle.hv_value.specs.Order.{compare_cells};
ghost use Rattle.hv_sketch.specs.Rising.{IsRising, put, put_all};
ghost use Rattle.hv_range.specs.Distinct.{first_of, kept};
ghost use Rattle.hv_range.specs.DistinctSums.{distinct_sum, with_inserted};

use crate::values::{joined, place_of};
use hv_sketch::copied_cells;
use hv_value::{Cell, CellRef, Listed, Mem};
use std::alloc::Global;

/// The least different values of a column, rising, at most some number of them, and whether there are more.
#[derive(Drop)]
pub struct DistinctSummary {
    /// The values, strictly rising, none of them missing.
    pub values: Listed<Cell>,
    /// Whether the column has others.
    pub more: bool,
}

impl DistinctSummary {
    /// The values of no rows.
    pub(crate) fn empty(alloc: Global) -> DistinctSummary
        ensures { result ≡ record { values = []; more = false } }
    {
        DistinctSummary {
            values: Listed::new(alloc),
            more: false,
        }
    }

    /// An equal summary.
    pub fn copy(&self, alloc: Global) -> Mem<DistinctSummary>
        ensures { IfOk result (λ s. s ≡ self.now) }
    {
        Ok(DistinctSummary {
            values: copied_cells(alloc, self.values.as_slice())?,
            more: self.more,
        })
    }
}

/// Adds a cell that isn't missing to the `k` least values of some. It is copied only where it is one of them.
pub(crate) fn add_value(
    alloc: Global,
    summary: &mut DistinctSummary,
    k: u32,
    cell: CellRef<'_>,
) -> Mem<()>
    requires rising { IsRising compare_cells summary.old.values }
    requires few { length summary.old.values ≤ k }
    ensures { OnOk result ((values : List Cell) → summary.old ≡ first_of k values
        → summary.new ≡ first_of k (put compare_cells kept (cell_lent cell.entry) values)) }
{
    match place_of(summary.values.as_slice(), cell) {
        Ok(_) => Ok(()),
        Err(place) => insert_value(alloc, summary, k, place, cell),
    }
}

/// Puts a new value at its place, and drops the last where there are more than `k`.
fn insert_value(
    alloc: Global,
    summary: &mut DistinctSummary,
    k: u32,
    place: usize,
    cell: CellRef<'_>,
) -> Mem<()>
    requires within { place ≤ length summary.old.values }
    requires few { length summary.old.values ≤ k }
    ensures { OnOk result (summary.new ≡ with_inserted k place (cell_lent cell.entry) summary.old) }
{
    let k = k as usize;
    let full = summary.values.as_slice().len() == k;
    if place < k {
        summary.values.insert(place, Cell::of(alloc, cell)?)?;
        summary.values.truncate(k);
    }
    summary.more = summary.more || full;
    Ok(())
}

/// The `k` least values of the rows of both.
pub(crate) fn sum(
    alloc: Global,
    a: &DistinctSummary,
    b: &DistinctSummary,
    k: u32,
) -> Mem<DistinctSummary>
    requires left { IsRising compare_cells a.now.values }
    requires right { IsRising compare_cells b.now.values }
    ensures { IfOk result (λ s. s ≡ distinct_sum k a.now b.now) }
{
    let least = least_of(alloc, a.values.as_slice(), b.values.as_slice(), k)?;
    Ok(DistinctSummary {
        values: least.values,
        more: a.more || b.more || least.more,
    })
}

/// The `k` least values of two rising lists, and whether they have more.
fn least_of(alloc: Global, a: &[Cell], b: &[Cell], k: u32) -> Mem<DistinctSummary>
    requires left { IsRising compare_cells a.now }
    requires right { IsRising compare_cells b.now }
    ensures { IfOk result (λ s. s ≡ first_of k (put_all compare_cells kept a.now b.now)) }
{
    let k = k as usize;
    let mut values = joined(alloc, a, b, k + 1)?;
    let more = values.as_slice().len() > k;
    values.truncate(k);
    Ok(DistinctSummary { values, more })
}
