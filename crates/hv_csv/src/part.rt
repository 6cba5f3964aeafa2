//! A partition's bytes read into the columns of a schema.

ghost use Rattle.std.specs.Prelude.{◌≡◌, ◌<◌, ◌^◌, length, map, true, IfOk};
ghost use Rattle.hv_value.specs.Rows.{records_of};
ghost use Rattle.hv_value.specs.Schema.{is_schema};
ghost use Rattle.hv_column.specs.Rows.{columns_of_records};
ghost use Rattle.hv_csv.specs.Fill.{empty_column};

use crate::fill::push_rows;
use crate::header::places_of;
use crate::reader::{read_next, reader_of};
use csv::ByteRecord;
use hv_column::Column;
use hv_value::{Mem, Schema};
use std::alloc::Global;

/// A column without cells for each column of a schema.
fn empty_columns(alloc: Global, schema: &Schema) -> Mem<Vec<Column>>
    ensures cols { IfOk result (λ cols. cols.items ≡ map empty_column schema.now) }
    ensures schema { is_schema schema.now ≡ true }
{
    let mut cols = Vec::new(alloc);
    for j in 0..schema.len() {
        cols.push(Column::new(alloc, schema.kind(j))?)?;
    }
    Ok(cols)
}

/// Reads the rows of a partition's bytes into the columns of a schema, in one pass. The first record is the
/// header. Each byte string of fewer than 2^26 bytes is accepted. Its second clause hands out what each schema
/// keeps.
pub fn read_part(alloc: Global, bytes: &[u8], schema: &Schema) -> Mem<Vec<Column>>
    requires { length bytes.now < 2 ^ 26 }
    ensures cols { IfOk result (λ cols. cols.items ≡ columns_of_records schema.now (records_of bytes.now)) }
    ensures schema { is_schema schema.now ≡ true }
{
    let mut cols = empty_columns(alloc, schema)?;
    let mut reader = reader_of(alloc, bytes);
    let mut row = ByteRecord::new(alloc);
    if !read_next(&mut reader, &mut row)? {
        return Ok(cols);
    }
    let places = places_of(alloc, schema, &row)?;
    push_rows(&mut cols, &places, &mut reader, &mut row)?;
    Ok(cols)
}
