//! Two tables of one partition, combined row by row.

ghost use Rattle.std.specs.Prelude.{◌≡◌, ◌++◌, None, IfOk};
ghost use Rattle.hv_lineage.specs.declared.how.How2.TheVariants as how2;
ghost use Rattle.hv_lineage.specs.Refusals.{how_refusal};
ghost use Rattle.hv_made.specs.Steps.{IsCombined};

use crate::rows::with_member;
use crate::union::united_columns;
use hv_lineage::{How2, LineageErr, zipped_schema};
use hv_part::PartTable;
use hv_value::{Mem, Memory, Schema, Table};
use std::alloc::Global;

/// The schema of both, side by side, which make one.
fn schema_of(alloc: Global, left: &Schema, right: &Schema) -> Mem<Schema>
    requires { how_refusal how2.Zip left.now right.now ≡ None }
    ensures { IfOk result (λ made. made ≡ left.now ++ right.now) }
{
    match zipped_schema(alloc, left, right) {
        Ok(made) => Ok(made),
        Err(LineageErr::Memory) => Err(Memory),
        Err(_) => unreachable!(),
    }
}

/// The rows that both have, with the columns of both.
fn zipped(alloc: Global, left: PartTable, right: PartTable) -> Mem<PartTable>
    requires fit { how_refusal how2.Zip left.columns right.columns ≡ None }
    requires heights { left.member.size ≡ right.member.size }
    ensures { IfOk result (IsCombined how2.Zip left right) }
{
    let schema = schema_of(alloc, left.schema(), right.schema())?;
    let member = left.member().and(alloc, right.member())?;
    let part = left.part();
    let (_, mut cols, _) = left.into_parts();
    let (_, mut more, _) = right.into_parts();
    cols.append(&mut more)?;
    Ok(PartTable::new(schema, part, cols, member))
}

/// The rows that either has, with the left's cells where the left has them.
fn united(alloc: Global, left: PartTable, right: PartTable) -> Mem<PartTable>
    requires fit { how_refusal how2.Union left.columns right.columns ≡ None }
    requires heights { left.member.size ≡ right.member.size }
    ensures { IfOk result (IsCombined how2.Union left right) }
{
    let member = left.member().or(alloc, right.member())?;
    let alone = right.member().minus(alloc, left.member())?;
    let cols = united_columns(alloc, &left, &right, &alone)?;
    let part = left.part();
    let (schema, _, _) = left.into_parts();
    Ok(PartTable::new(schema, part, cols, member))
}

/// The rows that both have, with the left's cells.
fn common(alloc: Global, left: PartTable, right: &PartTable) -> Mem<PartTable>
    requires { left.member.size ≡ right.now.member.size }
    ensures { IfOk result (IsCombined how2.Both left right.now) }
{
    let member = left.member().and(alloc, right.member())?;
    Ok(with_member(left, member))
}

/// The rows that the left has and the right has not, with the left's cells.
fn without(alloc: Global, left: PartTable, right: &PartTable) -> Mem<PartTable>
    requires { left.member.size ≡ right.now.member.size }
    ensures { IfOk result (IsCombined how2.Minus left right.now) }
{
    let member = left.member().minus(alloc, right.member())?;
    Ok(with_member(left, member))
}

/// The table of two tables of one partition, combined.
pub(crate) fn combined(
    alloc: Global,
    how: How2,
    left: PartTable,
    right: PartTable,
) -> Mem<PartTable>
    requires fit { how_refusal how left.columns right.columns ≡ None }
    requires heights { left.member.size ≡ right.member.size }
    ensures { IfOk result (IsCombined how left right) }
{
    match how {
        How2::Zip => zipped(alloc, left, right),
        How2::Union => united(alloc, left, right),
        How2::Both => common(alloc, left, &right),
        How2::Minus => without(alloc, left, &right),
    }
}
