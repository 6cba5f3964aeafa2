//! The columns of two tables of one schema, united: the left's cells in the left's rows, and the right's in those that
//! the right alone has.

ghost use Rattle.std.specs.Prelude.{◌≡◌, ◌+◌, ◌<◌, ◌^◌, ℕ, length, map, true, IfOk, IsTrue};
ghost use Rattle.std.specs.Arc.{arc_value};
ghost use Rattle.hv_value.specs.Cells.{cell_at, cell_lent, is_of_kind};
ghost use Rattle.hv_member.specs.Sets.{is_in, next_from};
ghost use Rattle.hv_made.specs.Steps.{AreUnited, IsUnited, chosen_cell};

use hv_column::Column;
use hv_member::Member;
use hv_part::PartTable;
use hv_value::{CellRef, Mem, Table};
use std::alloc::Global;
use std::sync::Arc;

/// Whether two cells are the same.
#[inline]
fn are_same(left: CellRef<'_>, right: CellRef<'_>) -> bool
    ensures { IsTrue result → cell_lent left.entry ≡ cell_lent right.entry }
{
    match (left, right) {
        (CellRef::Missing, CellRef::Missing) => true,
        (CellRef::Int(m), CellRef::Int(n)) => m == n,
        (CellRef::Date(m), CellRef::Date(n)) => m == n,
        (CellRef::Text(s), CellRef::Text(t)) => s == t,
        _ => false,
    }
}

/// Whether two columns have the same cells in some rows. The first row where they differ ends the walk.
fn agree(left: &Column, right: &Column, rows: &Member) -> bool
    requires left { length left.now.cells ≡ rows.now.size }
    requires right { length right.now.cells ≡ rows.now.size }
    ensures { IsTrue result → (n : ℕ) → is_in n rows.now.rows ≡ true → cell_at left.now.cells n ≡ cell_at right.now.cells n }
{
    let _ = rows.count();
    let mut from = 0;
    let mut hint = 0;
    while let Some(row) = rows.next_near(from, &mut hint) {
        if !are_same(left.cell(row), right.cell(row)) {
            return false;
        }
        from = row + 1;
    }
    true
}

/// Whether a row is there, asked of rising rows one by one: `next` is the first that isn't below it, and moves on.
#[inline]
fn is_next(rows: &Member, row: u32, next: &mut Option<u32>, hint: &mut usize) -> bool
    requires small { row < 2 ^ 26 }
    requires first { next.old ≡ next_from row rows.now.rows }
    ensures value { result ≡ is_in row rows.now.rows }
    ensures onward { next.new ≡ next_from (row + 1) rows.now.rows }
{
    let _ = rows.count();
    match *next {
        Some(found) if found == row => {
            *next = rows.next_near(row + 1, hint);
            true
        }
        _ => false,
    }
}

/// The left's cell in a row, or the right's, or a missing one.
#[inline]
fn chosen<'a>(
    left: &'a Column,
    right: &'a Column,
    row: u32,
    is_left: bool,
    is_right: bool,
) -> CellRef<'a>
    requires left { row < length left.now.cells }
    requires right { row < length right.now.cells }
    ensures value { cell_lent result ≡ chosen_cell left.now right.now row is_left is_right }
    ensures fits { right.now.kind ≡ left.now.kind → is_of_kind left.now.kind (cell_lent result) ≡ true }
{
    let _ = (left.kind(), right.kind());
    if is_left {
        left.cell(row)
    } else if is_right {
        right.cell(row)
    } else {
        CellRef::Missing
    }
}

/// A column with the left's cells in the rows of `held`, the right's in those of `alone`, and missing cells between
/// them.
fn mixed_column(
    alloc: Global,
    left: &Column,
    right: &Column,
    held: &Member,
    alone: &Member,
) -> Mem<Column>
    requires kinds { right.now.kind ≡ left.now.kind }
    requires lengths { length right.now.cells ≡ length left.now.cells }
    ensures { IfOk result (IsUnited left.now right.now held.now.rows alone.now.rows) }
{
    let mut column = Column::new(alloc, left.kind())?;
    let mut left_hint = 0;
    let mut right_hint = 0;
    let mut next_left = held.next_near(0, &mut left_hint);
    let mut next_right = alone.next_near(0, &mut right_hint);
    for row in 0..left.len() {
        let is_left = is_next(held, row, &mut next_left, &mut left_hint);
        let is_right = is_next(alone, row, &mut next_right, &mut right_hint);
        let cell = chosen(left, right, row, is_left, is_right);
        column.push(cell)?;
    }
    Ok(column)
}

/// The left column itself where the right one has the same cells in the rows that it alone has, else a new one.
fn united_column(
    alloc: Global,
    left: &Arc<Column>,
    right: &Arc<Column>,
    held: &Member,
    alone: &Member,
) -> Mem<Arc<Column>>
    requires kinds { (arc_value right.now).kind ≡ (arc_value left.now).kind }
    requires left { length (arc_value left.now).cells ≡ alone.now.size }
    requires right { length (arc_value right.now).cells ≡ alone.now.size }
    ensures { IfOk result (λ made. IsUnited (arc_value left.now) (arc_value right.now) held.now.rows alone.now.rows (arc_value made)) }
{
    if agree(left, right, alone) {
        Ok(Arc::try_clone(left)?)
    } else {
        Ok(Arc::new(alloc, mixed_column(alloc, left, right, held, alone)?)?)
    }
}

/// The columns of both tables, united one by one: `alone` has the rows that the right table alone has.
pub(crate) fn united_columns(
    alloc: Global,
    left: &PartTable,
    right: &PartTable,
    alone: &Member,
) -> Mem<Vec<Arc<Column>>>
    requires columns { right.now.columns ≡ left.now.columns }
    requires heights { right.now.member.size ≡ left.now.member.size }
    requires rows { alone.now.size ≡ left.now.member.size }
    ensures { IfOk result (λ made. AreUnited left.now.cols right.now.cols left.now.member.rows alone.now.rows left.now.member.size
        (map arc_value made.items)) }
{
    let held = left.member();
    let _ = right.height();
    let mut united = Vec::new(alloc);
    for j in 0..left.schema().len() {
        let column = united_column(alloc, left.column(j), right.column(j), held, alone)?;
        united.push(column)?;
    }
    Ok(united)
}
