//! Lists of cells, copied.

ghost use Rattle.std.specs.Prelude.{◌≡◌, IfOk};

use hv_value::{Cell, Listed, Mem};
use std::alloc::Global;

/// Copies of cells, as a list.
pub fn copied_cells(alloc: Global, cells: &[Cell]) -> Mem<Listed<Cell>>
    ensures { IfOk result (λ copy. copy ≡ cells.now) }
{
    let mut copy = Listed::new(alloc);
    for cell in cells {
        copy.push(Cell::of(alloc, cell.lent())?)?;
    }
    Ok(copy)
}
