//! What a view of one column does with each cell in turn: it states its step of cells alone, and nothing of rows
//! or tables (specs/ColumnCells.antt).

ghost use Rattle.std.specs.Prelude.{◌<◌, ◌^◌, ◌++◌, [], ◌∷◌, List, length, IfOk, OnOk};
ghost use Rattle.hv_value.specs.Cells.{cell_lent};
ghost use Rattle.hv_value.specs.declared.cell.Cell.{Cell};
ghost use Rattle.hv_value.specs.declared.cell.Kind.{Kind};
ghost use Rattle.hv_sketch.specs.ColumnCells.{cells_in};
ghost use Rattle.hv_sketch.specs.Columns.{TakesCell, TakesColumn};

use crate::{Gather, gather_rows};
use hv_value::{CellRef, Mem, Table};
use std::alloc::Global;

/// What a view of one column does with the cells of its rows in turn.
pub trait CellGather {
    /// What is kept of the cells so far.
    type Kept: Drop;

    // what is kept is that of the cells, in their order
    ghost keeps: { Self → List Cell → Self.Kept → Type 0 };

    // whether the cells of a column of the kind may be gathered
    ghost takes: { Self → Kind → Type 0 };

    /// What is kept of no cells.
    fn start(&self, alloc: Global) -> Mem<Self::Kept>
        ensures { IfOk result (λ kept. keeps self.now [] kept) };

    /// Adds a cell, missing or of a kind that is taken. After an Err nothing is known of `kept`.
    fn add_cell(&self, alloc: Global, kept: &mut Self::Kept, cell: CellRef<'_>) -> Mem<()>
        requires taken { TakesCell (takes self.now) (cell_lent cell) }
        requires kept_so_far { (cells : List Cell) × keeps self.now cells kept.old × length cells < 2 ^ 42 }
        ensures { OnOk result ((cells : List Cell) → keeps self.now cells kept.old → length cells < 2 ^ 42
            → keeps self.now (cells ++ cell_lent cell.entry ∷ []) kept.new) };
}

/// Gathers the cells of a table's column, at its place from 0, in the order of the rows: one step for each row.
pub fn gather_cells<V: CellGather, T: Table>(
    alloc: Global,
    view: &V,
    col: u32,
    table: &T,
) -> Mem<V::Kept>
    requires { TakesColumn (V.takes view.now) (T.columns table.now) col }
    ensures { IfOk result (λ kept. V.keeps view.now (cells_in col (T.rows table.now)) kept) }
{
    gather_rows(alloc, &ColumnCells { view, col }, table)
}

/// The cells of a column as rows that are gathered.
#[derive(Drop)]
struct ColumnCells<'a, V: CellGather> {
    view: &'a V,
    col: u32,
}

impl<'a, V: CellGather> Gather for ColumnCells<'a, V> {
    type Gathered = V::Kept;

    ghost gathers = { λ column part rows kept. V.keeps column.view.now (cells_in column.col rows) kept };

    ghost takes = { λ column columns. TakesColumn (V.takes column.view.now) columns column.col };

    fn start<T: Table>(&self, alloc: Global, _table: &T) -> Mem<V::Kept> {
        self.view.start(alloc)
    }

    #[inline(always)]
    fn add_row<T: Table>(&self, alloc: Global, kept: &mut V::Kept, table: &T, row: u32) -> Mem<()> {
        self.view.add_cell(alloc, kept, table.cell(row, self.col))
    }
}
