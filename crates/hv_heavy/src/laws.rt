//! That no frequent value is lost, as the contract of a call that does nothing.

ghost use Rattle.std.specs.Prelude.{◌<◌, ◌+◌, ◌*◌, List};
ghost use Rattle.hv_value.specs.declared.cell.Cell.{Cell};
ghost use Rattle.hv_value.specs.Rows.{Row};
ghost use Rattle.hv_sketch.specs.ColumnCells.{cells_in};
ghost use Rattle.hv_heavy.specs.Heavy.{HasPair, IsHeavy, count_of};

use crate::{HeavySummary, MisraGries};

/// Each value that is more than one in k + 1 of the cells that aren't missing has a pair. So the frequent values of a
/// column are among its heavy hitters, and to count those finds them exactly.
pub fn frequent_values_stay(view: &MisraGries, summary: &HeavySummary)
    ensures { (rows : List Row) (value : Cell) → IsHeavy view.now.col view.now.k rows summary.now
        → summary.now.n < (view.now.k + 1) * count_of (cells_in view.now.col rows) value
        → HasPair summary.now.pairs value }
{}
