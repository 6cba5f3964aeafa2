//! The lesser and the greater of two cells, where a missing one gives way to any other
//! (specs/Extremes.antt).

ghost use Rattle.std.specs.Prelude.{◌≡◌, false, IsOk, IfOk, OnOk};
ghost use Rattle.std.specs.Ordering.{int_cmp, is_lt};
ghost use Rattle.hv_value.specs.Cells.{cell_lent};
ghost use Rattle.hv_value.specs.Order.{compare_cells};
ghost use Rattle.hv_range.specs.Cells.{is_text};
ghost use Rattle.hv_range.specs.Extremes.{greater, lesser, missing_last};

use hv_value::{Cell, CellRef, Mem, compare};
use std::alloc::Global;
use std::cmp::Ordering;

/// How two numbers compare.
#[inline(always)]
pub(crate) fn in_order(m: i64, n: i64) -> Ordering
    ensures { result ≡ int_cmp m n }
{
    m.cmp(&n)
}

/// Whether a cell is less than the least so far, which is missing where there was none.
fn is_lower(cell: CellRef<'_>, least: CellRef<'_>) -> bool
    ensures { result ≡ is_lt (missing_last (cell_lent cell.entry) (cell_lent least.entry)) }
{
    match (cell, least) {
        (CellRef::Missing, _) => false,
        (_, CellRef::Missing) => true,
        _ => compare(cell, least).is_lt(),
    }
}

/// Whether a cell is greater than the greatest so far, which is missing where there was none.
fn is_higher(cell: CellRef<'_>, greatest: CellRef<'_>) -> bool
    ensures { result ≡ is_lt (compare_cells (cell_lent greatest.entry) (cell_lent cell.entry)) }
{
    match cell {
        CellRef::Missing => false,
        _ => compare(greatest, cell).is_lt(),
    }
}

/// Makes `least` the lesser of itself and a cell, and `greatest` the greater.
#[inline(always)]
pub(crate) fn widen(
    alloc: Global,
    least: &mut Cell,
    greatest: &mut Cell,
    cell: CellRef<'_>,
) -> Mem<()>
    ensures low { OnOk result (least.new ≡ lesser least.old (cell_lent cell.entry)) }
    ensures high { OnOk result (greatest.new ≡ greater greatest.old (cell_lent cell.entry)) }
{
    lower(alloc, least, cell)?;
    raise(alloc, greatest, cell)
}

/// Makes `least` the lesser of itself and a cell, which is copied only then.
fn lower(alloc: Global, least: &mut Cell, cell: CellRef<'_>) -> Mem<()>
    ensures { OnOk result (least.new ≡ lesser least.old (cell_lent cell.entry)) }
{
    if is_lower(cell, least.lent()) {
        *least = Cell::of(alloc, cell)?;
    }
    Ok(())
}

/// Makes `greatest` the greater of itself and a cell, which is copied only then.
fn raise(alloc: Global, greatest: &mut Cell, cell: CellRef<'_>) -> Mem<()>
    ensures { OnOk result (greatest.new ≡ greater greatest.old (cell_lent cell.entry)) }
{
    if is_higher(cell, greatest.lent()) {
        *greatest = Cell::of(alloc, cell)?;
    }
    Ok(())
}

/// A copy of a cell, which takes memory for a text alone.
pub(crate) fn copied(alloc: Global, cell: &Cell) -> Mem<Cell>
    ensures value { IfOk result (λ c. c ≡ cell.now) }
    ensures always { is_text cell.now ≡ false → IsOk result }
{
    Ok(match cell {
        Cell::Missing => Cell::Missing,
        Cell::Int(n) => Cell::Int(*n),
        Cell::Date(day) => Cell::Date(*day),
        Cell::Text(text) => Cell::Text(text.copy(alloc)?),
    })
}

/// A copy of the lesser of two cells.
pub(crate) fn least_of(alloc: Global, a: &Cell, b: &Cell) -> Mem<Cell>
    ensures value { IfOk result (λ c. c ≡ lesser a.now b.now) }
    ensures always { is_text a.now ≡ false → is_text b.now ≡ false → IsOk result }
{
    if is_lower(b.lent(), a.lent()) {
        copied(alloc, b)
    } else {
        copied(alloc, a)
    }
}

/// A copy of the greater of two cells.
pub(crate) fn greatest_of(alloc: Global, a: &Cell, b: &Cell) -> Mem<Cell>
    ensures value { IfOk result (λ c. c ≡ greater a.now b.now) }
    ensures always { is_text a.now ≡ false → is_text b.now ≡ false → IsOk result }
{
    if is_higher(b.lent(), a.lent()) {
        copied(alloc, b)
    } else {
        copied(alloc, a)
    }
}
