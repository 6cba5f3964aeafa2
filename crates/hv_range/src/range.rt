//! The range of a column as a vizketch. Its summary stands for rows where it is their range
//! (specs/IsRange.antt).

ghost use Rattle.std.specs.Prelude.{◌≡◌, IfOk};
ghost use Rattle.hv_sketch.specs.Columns.{IsColumnOf};
ghost use Rattle.hv_range.specs.IsRange.{IsRange, TakesNoMemory};

use crate::RangeSummary;
use crate::numbers::NumberRange;
use crate::summary::{add_cell, sum};
use hv_sketch::{CellGather, Vizketch, gather_cells, is_column_of};
use hv_value::{CellRef, Kind, Mem, Schema, Table};
use std::alloc::Global;

/// The range of one column.
#[derive(Clone, Copy, Debug, PartialEq, Eq, Hash)]
pub struct Range {
    /// The place of the column, from 0.
    pub col: u32,
    /// The kind of the column.
    pub kind: Kind,
}

impl Range {
    pub fn new(col: u32, kind: Kind) -> Range
        ensures { result ≡ record { col = col; kind = kind } }
    {
        Range { col, kind }
    }

    /// The range of a table's column of whole numbers or of days.
    fn summary_by_numbers<T: Table>(&self, alloc: Global, table: &T) -> Mem<RangeSummary>
        requires column { IsColumnOf (T.columns table.now) self.now.col self.now.kind }
        requires free { TakesNoMemory self.now.kind }
        ensures { IfOk result (λ s. IsRange self.now.kind self.now.col (T.rows table.now) s) }
    {
        let view = ByNumbers { kind: self.kind };
        Ok(gather_cells(alloc, &view, self.col, table)?.summary(self.kind))
    }
}

/// The range of a column of whole numbers or of days, gathered by its numbers alone.
#[derive(Clone, Copy)]
struct ByNumbers {
    kind: Kind,
}

impl CellGather for ByNumbers {
    ghost use Rattle.std.specs.Prelude.{◌≡◌};
    ghost use Rattle.hv_range.specs.IsRange.{IsCellRange, TakesNoMemory};
    ghost use Rattle.hv_range.specs.NumberRange.{range_kept};

    type Kept = NumberRange;

    ghost keeps = { λ view cells kept. IsCellRange view.kind cells (range_kept view.kind kept) };

    ghost takes = { λ view kind. (kind ≡ view.kind) × TakesNoMemory view.kind };

    fn start(&self, _alloc: Global) -> Mem<NumberRange> {
        Ok(NumberRange::empty())
    }

    #[inline(always)]
    fn add_cell(&self, _alloc: Global, kept: &mut NumberRange, cell: CellRef<'_>) -> Mem<()> {
        kept.add_cell(cell);
        Ok(())
    }
}

impl CellGather for Range {
    ghost use Rattle.std.specs.Prelude.{◌≡◌};
    ghost use Rattle.hv_range.specs.IsRange.{IsCellRange};

    type Kept = RangeSummary;

    ghost keeps = { λ view cells summary. IsCellRange view.kind cells summary };

    ghost takes = { λ view kind. kind ≡ view.kind };

    fn start(&self, _alloc: Global) -> Mem<RangeSummary> {
        Ok(RangeSummary::empty())
    }

    #[inline(always)]
    fn add_cell(&self, alloc: Global, kept: &mut RangeSummary, cell: CellRef<'_>) -> Mem<()> {
        add_cell(alloc, kept, cell)
    }
}

impl Vizketch for Range {
    ghost use Rattle.hv_sketch.specs.Columns.{IsColumnOf};
    ghost use Rattle.hv_range.specs.IsRange.{IsRange, TakesNoMemory};
    ghost use Rattle.hv_range.specs.RangeLaws.{IsRange-swap};

    type Summary = RangeSummary;

    ghost stands = { λ view rows summary. IsRange view.kind view.col rows summary };

    ghost fits_columns = { λ view columns. IsColumnOf columns view.col view.kind };

    ghost merges_always = { λ view. TakesNoMemory view.kind };

    fn fits(&self, schema: &Schema) -> bool {
        is_column_of(schema, self.col, self.kind)
    }

    fn zero(&self, _alloc: Global) -> Mem<RangeSummary> {
        Ok(RangeSummary::empty())
    }

    fn summarize<T: Table>(&self, alloc: Global, table: &T) -> Mem<RangeSummary> {
        match self.kind {
            Kind::Text => gather_cells(alloc, self, self.col, table),
            Kind::Int | Kind::Date => self.summary_by_numbers(alloc, table),
        }
    }

    fn merge_into(&self, alloc: Global, acc: &mut RangeSummary, d: &RangeSummary) -> Mem<()> {
        *acc = sum(alloc, acc, d)?;
        Ok(())
    }

    fn copy(&self, alloc: Global, s: &RangeSummary) -> Mem<RangeSummary> {
        s.copy(alloc)
    }

    ghost any_order = { λ view a b c summary h. IsRange-swap view.kind view.col a b c summary h };
}
