//! Keys of rows in an order, and the key above which rows are, where there is one: when they may be taken of a table,
//! whether a row is above, and copies. The definitions are in specs/Fits.antt and specs/Next.antt.

ghost use Rattle.std.specs.Prelude.{◌≡◌, ◌↔◌, ◌<◌, length, option_map, IfOk, IsTrue, Some};
ghost use Rattle.hv_value.specs.Cells.{is_of_kind};
ghost use Rattle.hv_value.specs.Orders.{AreInColumns, key_of};
ghost use Rattle.hv_value.specs.Rows.{Row};
ghost use Rattle.hv_value.specs.Table.{row_from};
ghost use Rattle.hv_sketch.specs.Columns.{kind_at};
ghost use Rattle.hv_next.specs.Fits.{FitsNext, IsKeyOf, are_of_keys, is_of_column};
ghost use Rattle.hv_next.specs.Next.{is_above};

use hv_sketch::copied_cells;
use hv_value::{Cell, Kind, Listed, Mem, Order, OrderKey, Schema, Table};
use std::alloc::Global;

/// Whether a schema has the column of each key, and `after`, where there is one, has one cell for each key, missing or
/// of the kind of that key's column.
pub fn fits_keys(schema: &Schema, order: &Order, after: &Option<Listed<Cell>>) -> bool
    ensures { IsTrue result ↔ FitsNext order.now after.now schema.now }
{
    are_in_columns(schema, order.keys()) && after_fits(schema, order, after)
}

/// Whether the key of a row that is there is above another; each is where there is no other.
#[inline(always)]
pub fn is_above<T: Table>(order: &Order, after: &Option<Listed<Cell>>, table: &T, row: u32) -> bool
    requires fit { FitsNext order.now after.now (T.columns table.now) }
    requires row_there { option_map (λ found. found.number) (row_from row (T.rows table.now)) ≡ Some row }
    ensures { (found : Row) → row_from row (T.rows table.now) ≡ Some found
        → result ≡ is_above order.now after.now found }
{
    match after {
        Some(after) => order.compare_row(table, row, after.as_slice()).is_gt(),
        None => true,
    }
}

/// The key of a row that is there.
pub fn key_at<T: Table>(alloc: Global, order: &Order, table: &T, row: u32) -> Mem<Listed<Cell>>
    requires row_there { option_map (λ found. found.number) (row_from row (T.rows table.now)) ≡ Some row }
    requires cols_there { AreInColumns (T.columns table.now) order.now }
    ensures { (found : Row) → row_from row (T.rows table.now) ≡ Some found
        → IfOk result (λ cells. cells ≡ key_of order.now found) }
{
    cells_at(alloc, order.keys(), table, row)
}

/// An equal key, where there is one.
pub fn copied_key(alloc: Global, key: &Option<Listed<Cell>>) -> Mem<Option<Listed<Cell>>>
    ensures { IfOk result (λ copy. copy ≡ key.now) }
{
    match key {
        Some(key) => Ok(Some(copied_cells(alloc, key.as_slice())?)),
        None => Ok(None),
    }
}

/// The cells of a row that is there in the columns of keys.
fn cells_at<T: Table>(alloc: Global, keys: &[OrderKey], table: &T, row: u32) -> Mem<Listed<Cell>>
    requires row_there { option_map (λ found. found.number) (row_from row (T.rows table.now)) ≡ Some row }
    requires cols_there { AreInColumns (T.columns table.now) keys.now }
    ensures { (found : Row) → row_from row (T.rows table.now) ≡ Some found
        → IfOk result (λ cells. cells ≡ key_of keys.now found) }
{
    let mut cells = Listed::new(alloc);
    for key in keys {
        cells.push(Cell::of(alloc, table.cell(row, key.col))?)?;
    }
    Ok(cells)
}

/// Whether the column of each key is there.
fn are_in_columns(schema: &Schema, keys: &[OrderKey]) -> bool
    ensures { IsTrue result ↔ AreInColumns schema.now keys.now }
{
    for key in keys {
        if schema.len() <= key.col {
            return false;
        }
    }
    true
}

/// Whether `after`, where there is one, has one cell for each key, missing or of the kind of that key's column.
fn after_fits(schema: &Schema, order: &Order, after: &Option<Listed<Cell>>) -> bool
    requires { AreInColumns schema.now order.now }
    ensures { IsTrue result ↔ IsKeyOf schema.now order.now after.now }
{
    match after {
        Some(after) => are_cells_of(schema, order.keys(), after.as_slice()),
        None => true,
    }
}

/// Whether cells are one for each key, each missing or of the kind of the key's column.
fn are_cells_of(schema: &Schema, keys: &[OrderKey], cells: &[Cell]) -> bool
    requires { AreInColumns schema.now keys.now }
    ensures { result ≡ are_of_keys schema.now keys.now cells.now }
{
    if keys.len() != cells.len() {
        return false;
    }
    for place in 0..keys.len() {
        if !is_cell_of(schema, &keys[place], &cells[place]) {
            return false;
        }
    }
    true
}

/// Whether a cell may stand in a key's column, which is there.
fn is_cell_of(schema: &Schema, key: &OrderKey, cell: &Cell) -> bool
    requires { key.now.col < length schema.now }
    ensures { result ≡ is_of_column (kind_at schema.now key.now.col) cell.now }
{
    is_of_kind(schema.kind(key.col), cell)
}

/// Whether a cell may stand in a column of the kind: a missing one in any, and a date only of the years 1 to 9999.
fn is_of_kind(kind: Kind, cell: &Cell) -> bool
    ensures { result ≡ is_of_kind kind cell.now }
{
    match (kind, cell) {
        (_, Cell::Missing) => true,
        (Kind::Int, Cell::Int(_)) => true,
        (Kind::Date, Cell::Date(day)) => -719_162 <= *day && *day <= 2_932_896,
        (Kind::Text, Cell::Text(_)) => true,
        _ => false,
    }
}
