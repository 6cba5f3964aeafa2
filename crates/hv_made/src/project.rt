//! Some columns of a table, in the order of their names.

ghost use Rattle.std.specs.Prelude.{◌≡◌, length, map, true, None, IfOk};
ghost use Rattle.std.specs.Arc.{arc_value};
ghost use Rattle.std.specs.List.{list_all};
ghost use Rattle.hv_lineage.specs.Made.{picked};
ghost use Rattle.hv_lineage.specs.Refusals.{choice_refusal, has_column};
ghost use Rattle.hv_made.specs.Steps.{IsPicked, picked_cols};

use hv_column::Column;
use hv_lineage::{LineageErr, picked_schema};
use hv_part::PartTable;
use hv_value::{Mem, Memory, Schema, Table, Text};
use std::alloc::Global;
use std::sync::Arc;

/// The named columns, shared once more.
fn named_columns(
    alloc: Global,
    schema: &Schema,
    cols: &[Arc<Column>],
    names: &[Text],
) -> Mem<Vec<Arc<Column>>>
    requires wide { length cols.now ≡ length schema.now }
    requires named { list_all (has_column schema.now) names.now ≡ true }
    ensures { IfOk result (λ made. map arc_value made.items ≡ picked_cols schema.now (map arc_value cols.now) names.now) }
{
    let mut picked = Vec::new(alloc);
    for name in names {
        let j = schema.find(name.as_str()).unwrap();
        picked.push(Arc::try_clone(&cols[j as usize])?)?;
    }
    Ok(picked)
}

/// The schema of the named columns, which make one.
fn schema_of(alloc: Global, schema: &Schema, names: &[Text]) -> Mem<Schema>
    requires { choice_refusal schema.now names.now ≡ None }
    ensures { IfOk result (λ made. made ≡ picked schema.now names.now) }
{
    match picked_schema(alloc, schema, names) {
        Ok(made) => Ok(made),
        Err(LineageErr::Memory) => Err(Memory),
        Err(_) => unreachable!(),
    }
}

/// Keeps the named columns alone, in the order of the names.
pub(crate) fn projected(alloc: Global, table: PartTable, names: &[Text]) -> Mem<PartTable>
    requires { choice_refusal table.columns names.now ≡ None }
    ensures { IfOk result (λ made. IsPicked table names.now made) }
{
    let part = table.part();
    let (schema, cols, member) = table.into_parts();
    let picked = named_columns(alloc, &schema, &cols, names)?;
    let schema = schema_of(alloc, &schema, names)?;
    Ok(PartTable::new(schema, part, picked, member))
}
