//! The distinct values of a column as a vizketch: its summary stands for rows where it is what
//! specs/Distinct.antt says of them.

ghost use Rattle.std.specs.Prelude.{◌≡◌};

use crate::DistinctSummary;
use crate::distinct_summary::{add_value, sum};
use crate::summary::is_missing;
use hv_sketch::{CellGather, Vizketch, gather_cells};
use hv_value::{CellRef, Mem, Schema, Table};
use std::alloc::Global;

/// The least different values of one column, at most so many.
#[derive(Clone, Copy, Debug, PartialEq, Eq, Hash)]
pub struct Distinct {
    /// The place of the column, from 0.
    pub col: u32,
    /// How many values are kept at most.
    pub k: u32,
}

impl Distinct {
    pub fn new(col: u32, k: u32) -> Distinct
        ensures { result ≡ record { col = col; k = k } }
    {
        Distinct { col, k }
    }
}

impl CellGather for Distinct {
    ghost use Rattle.std.specs.Prelude.{⊤};
    ghost use Rattle.hv_range.specs.Distinct.{distinct_of_cells};

    type Kept = DistinctSummary;

    ghost keeps = { λ view cells summary. summary ≡ distinct_of_cells view.k cells };

    ghost takes = { λ view kind. ⊤ };

    fn start(&self, alloc: Global) -> Mem<DistinctSummary> {
        Ok(DistinctSummary::empty(alloc))
    }

    fn add_cell(&self, alloc: Global, kept: &mut DistinctSummary, cell: CellRef<'_>) -> Mem<()> {
        if is_missing(cell) {
            return Ok(());
        }
        add_value(alloc, kept, self.k, cell)
    }
}

impl Vizketch for Distinct {
    ghost use Rattle.std.specs.Prelude.{◌<◌, length};
    ghost use Rattle.std.proofs.Common.{◌∙◌};
    ghost use Rattle.hv_range.specs.Distinct.{distinct_of};
    ghost use Rattle.hv_range.specs.DistinctLaws.{distinct_of-swap};

    type Summary = DistinctSummary;

    ghost stands = { λ view rows summary. summary ≡ distinct_of view.col view.k rows };

    ghost fits_columns = { λ view columns. view.col < length columns };

    fn fits(&self, schema: &Schema) -> bool {
        self.col < schema.len()
    }

    fn zero(&self, alloc: Global) -> Mem<DistinctSummary> {
        Ok(DistinctSummary::empty(alloc))
    }

    fn summarize<T: Table>(&self, alloc: Global, table: &T) -> Mem<DistinctSummary> {
        gather_cells(alloc, self, self.col, table)
    }

    fn merge_into(&self, alloc: Global, acc: &mut DistinctSummary, d: &DistinctSummary) -> Mem<()> {
        *acc = sum(alloc, acc, d, self.k)?;
        Ok(())
    }

    fn copy(&self, alloc: Global, s: &DistinctSummary) -> Mem<DistinctSummary> {
        s.copy(alloc)
    }

    ghost any_order = { λ view a b c summary h. h ∙ distinct_of-swap view.col view.k a b c };
}
