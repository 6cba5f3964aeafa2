//! The table of a partition's own rows. Contracts see it as its columns, its partition's number and its tagged
//! rows (specs/Base.antt).

ghost use Rattle.std.specs.Prelude.{◌≡◌, ◌<◌, ◌^◌, length, IfOk};
ghost use Rattle.hv_value.specs.Rows.{base_rows};
ghost use Rattle.hv_csv.specs.Base.{TableRows, row_count};

use crate::part::read_part;
use hv_column::Column;
use hv_value::{CellRef, Mem, Schema, Table};
use std::alloc::Global;
use std::marker::Model;

/// All rows of a partition, numbered from 0. Each of its calls takes constant time and no memory.
#[derive(Drop)]
pub struct BaseTable<'a> {
    schema: &'a Schema,
    part: u32,
    cols: Vec<Column>,
    /// The number of rows, which is that of each column's cells.
    count: u32,
}

impl<'a> Model for BaseTable<'a> {
    ghost use Rattle.hv_column.specs.Rows.{rows_across};
    ghost use Rattle.hv_csv.specs.Base.{HoldTable, TableRows};

    ghost Value = { TableRows };

    ghost view = { λ table. record { columns = table.schema.now; part = table.part; rows = rows_across table.part table.cols.items 0 table.count } };

    ghost invariant = { λ table. HoldTable table.schema.now table.part table.cols.items table.count };
}

impl Table for BaseTable<'_> {
    ghost columns = { λ table. table.columns };

    ghost part_number = { λ table. table.part };

    ghost rows = { λ table. table.rows };

    fn schema(&self) -> &Schema {
        self.schema
    }

    fn part(&self) -> u32 {
        self.part
    }

    fn next_row(&self, from: u32) -> Option<u32> {
        if from < self.count { Some(from) } else { None }
    }

    fn cell(&self, row: u32, col: u32) -> CellRef<'_> {
        self.cols[col as usize].cell(row)
    }
}

/// The number of cells of the first column.
fn count_rows(cols: &[Column]) -> u32
    ensures { result ≡ row_count cols.now }
{
    match cols {
        [] => 0,
        [first, ..] => first.len(),
    }
}

/// Reads a partition's bytes, fewer than 2^26 of them, into the table of its rows.
pub fn base_table<'a>(
    alloc: Global,
    schema: &'a Schema,
    part: u32,
    bytes: &[u8],
) -> Mem<BaseTable<'a>>
    requires { length bytes.now < 2 ^ 26 }
    ensures { IfOk result (λ table. table ≡ record { columns = schema.now; part = part; rows = base_rows schema.now part bytes.now }) }
{
    let cols = read_part(alloc, bytes, schema)?;
    let count = count_rows(&cols);
    Ok(BaseTable {
        schema,
        part,
        cols,
        count,
    })
}
