//! Records pushed into columns, a field at a time.

ghost use Rattle.std.specs.Prelude.{◌≡◌, ◌<◌, ◌^◌, length, true, OnOk, option_map, option_and_then};
ghost use Rattle.csv.specs.Records.{field_at, fields_of};
ghost use Rattle.hv_value.specs.Cells.{cell_lent, is_of_kind};
ghost use Rattle.hv_value.specs.Rows.{cell_of_field, cell_of_found};
ghost use Rattle.hv_value.specs.declared.cell.Kind.TheVariants as kind;
ghost use Rattle.hv_csv.specs.Fill.{HaveRoom, with_field, with_row, with_rows};
ghost use Rattle.hv_csv.specs.Left.{IsSetUp, records_left};

use crate::reader::read_next;
use csv::{ByteRecord, Reader};
use hv_column::Column;
use hv_value::{CellRef, Kind, Mem, day_of, int_of};

/// The whole number that a field writes.
fn int_cell_of(field: &[u8]) -> CellRef<'static>
    ensures cell { cell_lent result ≡ cell_of_field kind.Int field.now }
    ensures kind { is_of_kind kind.Int (cell_lent result) ≡ true }
{
    match int_of(field) {
        None => CellRef::Missing,
        Some(n) => CellRef::Int(n),
    }
}

/// The day that a field names.
fn date_cell_of(field: &[u8]) -> CellRef<'static>
    ensures cell { cell_lent result ≡ cell_of_field kind.Date field.now }
    ensures kind { is_of_kind kind.Date (cell_lent result) ≡ true }
{
    match day_of(field) {
        None => CellRef::Missing,
        Some(day) => CellRef::Date(day),
    }
}

/// The text that a field holds.
fn text_cell_of(field: &[u8]) -> CellRef<'_>
    ensures cell { cell_lent result ≡ cell_of_field kind.Text field.now }
    ensures kind { is_of_kind kind.Text (cell_lent result) ≡ true }
{
    match str::from_utf8(field) {
        Ok(text) => CellRef::Text(text),
        Err(_) => CellRef::Missing,
    }
}

/// What a field reads as in a column of the kind: missing where it doesn't read.
fn cell_of_bytes(kind: Kind, field: &[u8]) -> CellRef<'_>
    ensures cell { cell_lent result ≡ cell_of_field kind field.now }
    ensures kind { is_of_kind kind (cell_lent result) ≡ true }
{
    match kind {
        Kind::Int => int_cell_of(field),
        Kind::Date => date_cell_of(field),
        Kind::Text => text_cell_of(field),
    }
}

/// The same of a field that may be absent, and is missing then.
fn cell_of(kind: Kind, field: Option<&[u8]>) -> CellRef<'_>
    ensures cell { cell_lent result ≡ cell_of_found kind (option_map (λ text. text.now) field.entry) }
    ensures kind { is_of_kind kind (cell_lent result) ≡ true }
{
    match field {
        None => CellRef::Missing,
        Some(text) => cell_of_bytes(kind, text),
    }
}

/// The field of a row at the place of a column, if there are both.
fn field_of(row: &ByteRecord, place: Option<usize>) -> Option<&[u8]>
    ensures { option_map (λ text. text.now) result ≡ option_and_then (field_at (fields_of row.now)) place }
{
    row.get(place?)
}

/// Pushes a row's field into the column of that place.
fn push_field(column: &mut Column, place: Option<usize>, row: &ByteRecord) -> Mem<()>
    requires { length column.old.cells < 2 ^ 26 }
    ensures { OnOk result (column.new ≡ with_field place (fields_of row.now) column.old) }
{
    column.push(cell_of(column.kind(), field_of(row, place)))
}

/// Pushes a row's fields into the columns of their places.
fn push_row(cols: &mut [Column], places: &[Option<usize>], row: &ByteRecord) -> Mem<()>
    requires room { HaveRoom 1 cols.old }
    requires places { length places.now ≡ length cols.old }
    ensures { OnOk result (cols.new ≡ with_row places.now (fields_of row.now) cols.old) }
{
    for j in 0..cols.len() {
        push_field(&mut cols[j], places[j], row)?;
    }
    Ok(())
}

/// Pushes all records that a reader has left into columns. Each is read into `row`, so none is copied but there.
pub(crate) fn push_rows(
    cols: &mut [Column],
    places: &[Option<usize>],
    reader: &mut Reader<&[u8]>,
    row: &mut ByteRecord,
) -> Mem<()>
    requires set_up { IsSetUp reader.old }
    requires room { HaveRoom (length (records_left reader.old)) cols.old }
    requires places { length places.now ≡ length cols.old }
    ensures { OnOk result (cols.new ≡ with_rows places.now (records_left reader.old) cols.old) }
{
    while read_next(reader, row)? {
        push_row(cols, places, row)?;
    }
    Ok(())
}
