//! The range of a column as a value: that of no rows, of one cell more, and of the rows of two ranges
//! (specs/Range.antt, specs/RangeSums.antt).

ghost use Rattle.std.specs.Prelude.{◌≡◌, ℕ, pos, true, false, Bool, not, if◌then◌else◌, IsOk, IfOk, OnOk, FitsSigned};
ghost use Rattle.std.specs.Int.{w64};
ghost use Rattle.hv_value.specs.declared.cell.Cell.TheVariants as cells;
ghost use Rattle.hv_value.specs.Cells.{cell_lent};
ghost use Rattle.hv_sketch.specs.ColumnCells.{is_missing};
ghost use Rattle.hv_range.specs.Cells.{is_text, number_of};
ghost use Rattle.hv_range.specs.RangeSums.{CanAdd, cell_range, empty_range, range_sum};

use crate::extremes::{copied, greatest_of, least_of, widen};
use hv_value::{Cell, CellRef, Mem};
use std::alloc::Global;

/// The range of a column over some rows.
#[derive(Drop)]
pub struct RangeSummary {
    /// How many cells aren't missing.
    pub count: u64,
    /// How many cells are missing.
    pub missing: u64,
    /// The least cell that isn't missing, where there is one, else a missing one.
    pub least: Cell,
    /// The greatest, likewise.
    pub greatest: Cell,
    /// The exact sum of the whole numbers, 0 for a column of another kind.
    pub sum: i128,
}

impl RangeSummary {
    /// The range of no rows.
    pub(crate) fn empty() -> RangeSummary
        ensures { result ≡ empty_range }
    {
        RangeSummary {
            count: 0,
            missing: 0,
            least: Cell::Missing,
            greatest: Cell::Missing,
            sum: 0,
        }
    }

    /// An equal range.
    pub fn copy(&self, alloc: Global) -> Mem<RangeSummary>
        ensures { IfOk result (λ s. s ≡ self.now) }
    {
        Ok(RangeSummary {
            count: self.count,
            missing: self.missing,
            least: copied(alloc, &self.least)?,
            greatest: copied(alloc, &self.greatest)?,
            sum: self.sum,
        })
    }
}

/// Whether a cell is missing.
pub(crate) fn is_missing(cell: CellRef<'_>) -> bool
    ensures { result ≡ is_missing (cell_lent cell.entry) }
{
    match cell {
        CellRef::Missing => true,
        _ => false,
    }
}

/// 1 where something is so, else 0.
fn one_where(so: bool) -> u64
    ensures { result ≡ (if so then 1 else 0) }
{
    if so { 1 } else { 0 }
}

/// The whole number that a cell holds, 0 where it holds none.
fn number_of(cell: CellRef<'_>) -> i64
    ensures value { result ≡ number_of (cell_lent cell.entry) }
    ensures small { FitsSigned w64 (number_of (cell_lent cell.entry)) }
{
    match cell {
        CellRef::Int(n) => n,
        _ => 0,
    }
}

/// Adds a cell to the range of some rows. A text is copied only where it is a new least or greatest.
#[inline(always)]
pub(crate) fn add_cell(alloc: Global, kept: &mut RangeSummary, cell: CellRef<'_>) -> Mem<()>
    requires { FitsSigned w64 (number_of (cell_lent cell)) → CanAdd kept.old (cell_range (cell_lent cell)) }
    ensures value { OnOk result (kept.new ≡ range_sum kept.old (cell_range (cell_lent cell.entry))) }
    ensures small { FitsSigned w64 (number_of (cell_lent cell.entry)) }
{
    let number = number_of(cell);
    let missing = is_missing(cell);
    widen(alloc, &mut kept.least, &mut kept.greatest, cell)?;
    kept.count += one_where(!missing);
    kept.missing += one_where(missing);
    kept.sum += i128::from(number);
    Ok(())
}

/// The range of the rows of both.
pub(crate) fn sum(alloc: Global, a: &RangeSummary, b: &RangeSummary) -> Mem<RangeSummary>
    requires { CanAdd a.now b.now }
    ensures value { IfOk result (λ s. s ≡ range_sum a.now b.now) }
    ensures always { is_text a.now.least ≡ false → is_text b.now.least ≡ false → is_text a.now.greatest ≡ false
        → is_text b.now.greatest ≡ false → IsOk result }
{
    Ok(RangeSummary {
        count: a.count + b.count,
        missing: a.missing + b.missing,
        least: least_of(alloc, &a.least, &b.least)?,
        greatest: greatest_of(alloc, &a.greatest, &b.greatest)?,
        sum: a.sum + b.sum,
    })
}
