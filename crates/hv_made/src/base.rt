//! The table of a base's partition, before any term.

ghost use Rattle.std.specs.Prelude.{◌≡◌, ◌<◌, ◌^◌, length, map, IfOk};
ghost use Rattle.std.specs.Arc.{arc_value};
ghost use Rattle.hv_value.specs.Rows.{base_rows};
ghost use Rattle.hv_made.specs.Steps.{IsTableOf};

use hv_column::Column;
use hv_csv::read_part;
use hv_lineage::copy_schema;
use hv_member::Member;
use hv_part::PartTable;
use hv_value::{Mem, Schema, Table};
use std::alloc::Global;
use std::sync::Arc;

/// The columns, each to be shared.
fn shared_columns(alloc: Global, cols: Vec<Column>) -> Mem<Vec<Arc<Column>>>
    ensures { IfOk result (λ made. map arc_value made.items ≡ cols.items) }
{
    let mut shared = Vec::new(alloc);
    for column in cols {
        shared.push(Arc::new(alloc, column)?)?;
    }
    Ok(shared)
}

/// Reads a partition's bytes, fewer than 2^26 of them, into the table of all its rows.
pub fn base_part(alloc: Global, schema: &Schema, part: u32, bytes: &[u8]) -> Mem<PartTable>
    requires { length bytes.now < 2 ^ 26 }
    ensures { IfOk result (λ table. IsTableOf schema.now part (base_rows schema.now part bytes.now) table) }
{
    let cols = read_part(alloc, bytes, schema)?;
    let height = cols[0].len();
    let cols = shared_columns(alloc, cols)?;
    let schema = copy_schema(alloc, schema)?;
    Ok(PartTable::new(schema, part, cols, Member::full(height)))
}

/// The same table, over the same columns.
pub fn share_part(alloc: Global, table: &PartTable) -> Mem<PartTable>
    ensures { IfOk result (λ made. made ≡ table.now) }
{
    let member = table.member().and(alloc, table.member())?;
    let mut cols = Vec::new(alloc);
    for j in 0..table.schema().len() {
        cols.push(Arc::try_clone(table.column(j))?)?;
    }
    let schema = copy_schema(alloc, table.schema())?;
    Ok(PartTable::new(schema, table.part(), cols, member))
}
