//! The range of a column of whole numbers or of days while rows are gathered: its ends as numbers
//! (specs/NumberRange.antt).

ghost use Rattle.std.specs.Prelude.{◌≡◌, ◌+◌, ◌<◌, ◌^◌, ◌+ℤ◌, ℕ, true, if◌then◌else◌, FitsSigned};
ghost use Rattle.std.specs.Int.{w64, w128};
ghost use Rattle.std.specs.Ordering.{int_cmp, is_lt};
ghost use Rattle.hv_value.specs.Cells.{cell_lent, is_of_kind};
ghost use Rattle.hv_range.specs.Cells.{number_of};
ghost use Rattle.hv_range.specs.IsRange.{TakesNoMemory};
ghost use Rattle.hv_range.specs.NumberRange.{end_cell, end_with, number_cell, range_kept, with_number};
ghost use Rattle.hv_range.specs.RangeSums.{CanAdd, cell_range, empty_range, range_sum};

use crate::RangeSummary;
use crate::extremes::in_order;
use hv_value::{Cell, CellRef, Kind};

/// The range of some rows of a column of whole numbers or of days, which takes no memory.
#[derive(Clone, Copy)]
pub(crate) struct NumberRange {
    /// How many cells aren't missing.
    count: u64,
    /// How many cells are missing.
    missing: u64,
    /// The least number, where there is one, and the greatest.
    low: i64,
    high: i64,
    /// The exact sum of the whole numbers.
    sum: i128,
}

/// The cell of a number in a column of a kind.
fn number_cell(kind: Kind, n: i64) -> Cell
    requires { is_of_kind kind (number_cell kind n) ≡ true }
    ensures { result ≡ number_cell kind n }
{
    match kind {
        Kind::Int => Cell::Int(n),
        Kind::Date => Cell::Date(n as i32),
        Kind::Text => Cell::Missing,
    }
}

impl NumberRange {
    /// The range of no rows.
    pub(crate) fn empty() -> NumberRange
        ensures value { (kind : Kind) → range_kept kind result ≡ empty_range }
    {
        NumberRange {
            count: 0,
            missing: 0,
            low: 0,
            high: 0,
            sum: 0,
        }
    }

    /// The least number with one more.
    #[inline(always)]
    fn low_with(&self, n: i64) -> i64
        ensures { result ≡ end_with self.now.count n (if is_lt (int_cmp n self.now.low) then n else self.now.low) }
    {
        if self.count == 0 || in_order(n, self.low).is_lt() {
            n
        } else {
            self.low
        }
    }

    /// The greatest number with one more.
    #[inline(always)]
    fn high_with(&self, n: i64) -> i64
        ensures { result ≡ end_with self.now.count n (if is_lt (int_cmp self.now.high n) then n else self.now.high) }
    {
        if self.count == 0 || in_order(self.high, n).is_lt() {
            n
        } else {
            self.high
        }
    }

    /// Adds a number, which counts in the sum as so much.
    #[inline(always)]
    fn add_number(&mut self, n: i64, share: i64)
        requires count { self.old.count + 1 < 2 ^ 64 }
        requires sum { FitsSigned w128 (self.old.sum +ℤ share) }
        ensures { self.new ≡ with_number n share self.old }
    {
        self.low = self.low_with(n);
        self.high = self.high_with(n);
        self.count += 1;
        self.sum += i128::from(share);
    }

    /// Adds a cell of a column of whole numbers or of days.
    #[inline(always)]
    pub(crate) fn add_cell(&mut self, cell: CellRef<'_>)
        requires { FitsSigned w64 (number_of (cell_lent cell)) → (kind : Kind) × TakesNoMemory kind
            × (is_of_kind kind (cell_lent cell) ≡ true) × CanAdd (range_kept kind self.old) (cell_range (cell_lent cell)) }
        ensures value { (kind : Kind) → TakesNoMemory kind → is_of_kind kind (cell_lent cell.entry) ≡ true
            → range_kept kind self.new ≡ range_sum (range_kept kind self.old) (cell_range (cell_lent cell.entry)) }
        ensures small { FitsSigned w64 (number_of (cell_lent cell.entry)) }
    {
        match cell {
            CellRef::Int(n) => self.add_number(n, n),
            CellRef::Date(day) => self.add_number(i64::from(day), 0),
            CellRef::Missing => self.missing += 1,
            CellRef::Text(_) => unreachable!(),
        }
    }

    /// The range, of a column of the kind.
    pub(crate) fn summary(&self, kind: Kind) -> RangeSummary
        requires least { is_of_kind kind (end_cell kind self.now.count self.now.low) ≡ true }
        requires greatest { is_of_kind kind (end_cell kind self.now.count self.now.high) ≡ true }
        ensures { result ≡ range_kept kind self.now }
    {
        let (least, greatest) = if self.count == 0 {
            (Cell::Missing, Cell::Missing)
        } else {
            (number_cell(kind, self.low), number_cell(kind, self.high))
        };
        RangeSummary {
            count: self.count,
            missing: self.missing,
            least,
            greatest,
            sum: self.sum,
        }
    }
}
