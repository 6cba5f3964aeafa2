//! Whether a row matches: one of its named cells is a text that meets the test.

ghost use Rattle.std.specs.Prelude.{◌≡◌, ◌<◌, length, option_map, IfOk, Some};
ghost use Rattle.std.specs.List.{All, list_any};
ghost use Rattle.hv_value.specs.Cells.{cell_at, cell_lent};
ghost use Rattle.hv_value.specs.Rows.{Row};
ghost use Rattle.hv_value.specs.Table.{row_from};
ghost use Rattle.hv_expr.specs.Holds.{cell_meets};
ghost use Rattle.hv_expr.specs.Ready.{IsReadyTest};
ghost use Rattle.hv_expr.specs.declared.text_test.TextTest.{TextTest};

use hv_expr::ReadyTest;
use hv_value::{CellRef, Mem, Table};
use std::alloc::Global;

/// Whether one of the cells of a row that is there, in some columns, is a text that meets a prepared test. It looks at
/// no column after the first that does.
pub(crate) fn has_match<T: Table>(
    alloc: Global,
    cols: &[u32],
    ready: &ReadyTest,
    table: &T,
    row: u32,
) -> Mem<bool>
    requires row_there { option_map (λ found. found.number) (row_from row (T.rows table.now))
        ≡ Some row }
    requires cols_there { All (λ col. col < length (T.columns table.now)) cols.now }
    ensures { (test : TextTest) (found : Row) → IsReadyTest test ready.now
        → row_from row (T.rows table.now) ≡ Some found
        → IfOk result (λ yes.
        yes ≡ list_any (λ col. cell_meets test (cell_at found.cells col)) cols.now) }
{
    for col in cols {
        if meets(alloc, ready, table.cell(row, *col))? {
            return Ok(true);
        }
    }
    Ok(false)
}

/// Whether a cell is a text that meets a prepared test.
fn meets(alloc: Global, ready: &ReadyTest, cell: CellRef<'_>) -> Mem<bool>
    ensures { (test : TextTest) → IsReadyTest test ready.now
        → IfOk result (λ yes. yes ≡ cell_meets test (cell_lent cell.entry)) }
{
    match cell {
        CellRef::Text(text) => ready.meets(alloc, text),
        _ => Ok(false),
    }
}
