//! Rising lists of cells: where a cell stands in one, and two joined. `put` and `put_all` are those of
//! `hv_sketch` (specs/Rising.antt).

ghost use Rattle.std.specs.Prelude.{◌≡◌, ◌≤◌, length, take, IfOk, IfErr, IsTrue};
ghost use Rattle.std.specs.List.{insert};
ghost use Rattle.hv_value.specs.Cells.{cell_lent};
ghost use Rattle.hv_value.specs.Order.{compare_cells};
ghost use Rattle.hv_sketch.specs.Rising.{IsRising, put, put_all};
ghost use Rattle.hv_range.specs.Distinct.{kept};

use hv_sketch::Ranking;
use hv_value::{Cell, CellRef, Listed, Mem, compare};
use std::alloc::Global;
use std::cmp::Ordering;

/// The place of a cell in a rising list, or else where it would stand. A cell above all of the list costs
/// one comparison, since most cells are where a list of the least ones is full.
pub(crate) fn place_of(cells: &[Cell], cell: CellRef<'_>) -> Result<usize, usize>
    requires { IsRising compare_cells cells.now }
    ensures there { IfOk result (λ _.
        put compare_cells kept (cell_lent cell.entry) cells.now ≡ cells.now) }
    ensures within { IfErr result (λ place. place ≤ length cells.now) }
    ensures between { IfErr result (λ place. put compare_cells kept (cell_lent cell.entry) cells.now
        ≡ insert cells.now place (cell_lent cell.entry)) }
{
    if is_above(cells, cell) {
        return Err(cells.len());
    }
    cells.binary_search_by(|other| order_to(other, cell))
}

/// How a cell of a list compares with one that is looked for in it.
fn order_to(other: &Cell, cell: CellRef<'_>) -> Ordering
    ensures { result ≡ compare_cells other.now (cell_lent cell.entry) }
{
    compare(other.lent(), cell)
}

/// Whether a cell is above the last of a rising list, which isn't empty.
fn is_above(cells: &[Cell], cell: CellRef<'_>) -> bool
    requires { IsRising compare_cells cells.now }
    ensures { IsTrue result → put compare_cells kept (cell_lent cell.entry) cells.now
        ≡ insert cells.now (length cells.now) (cell_lent cell.entry) }
{
    let count = cells.len();
    count > 0 && order_to(&cells[count - 1], cell).is_lt()
}

/// The order of cells, in which only equal ones tie: of two that tie one is kept.
#[derive(Drop)]
struct CellOrder;

impl Ranking for CellOrder {
    ghost use Rattle.hv_value.specs.Order.{compare_cells};
    ghost use Rattle.hv_value.specs.CellOrder.{cells_total};
    ghost use Rattle.hv_range.specs.Distinct.{kept};
    ghost use Rattle.hv_range.specs.DistinctLaws.{kept_joins};

    type Item = Cell;

    ghost cmp = { λ _ x y. compare_cells x y };

    ghost join = { λ _ x y. kept x y };

    fn compare(&self, a: &Cell, b: &Cell) -> Ordering {
        compare(a.lent(), b.lent())
    }

    fn join(&self, alloc: Global, _a: &Cell, b: &Cell) -> Mem<Cell> {
        Cell::of(alloc, b.lent())
    }

    fn copy(&self, alloc: Global, a: &Cell) -> Mem<Cell> {
        Cell::of(alloc, a.lent())
    }

    ghost order = { λ _. cells_total };

    ghost ties = { λ _. kept_joins };
}

/// Two rising lists joined, each cell that is in both once: the least of them, at most so many.
pub(crate) fn joined(alloc: Global, a: &[Cell], b: &[Cell], most: usize) -> Mem<Listed<Cell>>
    requires left { IsRising compare_cells a.now }
    requires right { IsRising compare_cells b.now }
    ensures { IfOk result (λ values. values ≡ take most (put_all compare_cells kept a.now b.now)) }
{
    let cells = hv_sketch::joined(alloc, &CellOrder, a, b, most)?;
    Ok(Listed::from_vec(cells))
}
