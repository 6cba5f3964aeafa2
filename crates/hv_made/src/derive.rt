//! One more column of a table: an expression's values.

ghost use Rattle.std.specs.Prelude.{◌≡◌, length, true, None, Some, IfOk};
ghost use Rattle.hv_expr.specs.declared.expr.Expr.{Expr};
ghost use Rattle.hv_expr.specs.Ready.{IsReadyExpr, is_expr_within};
ghost use Rattle.hv_expr.specs.Checks.{expr_fault, has_fit_factors, kind_of};
ghost use Rattle.hv_lineage.specs.Lineages.{IsFitColumn};
ghost use Rattle.hv_lineage.specs.Made.{with_column};
ghost use Rattle.hv_lineage.specs.Refusals.{name_refusal};
ghost use Rattle.hv_made.specs.Steps.{HasValues, IsDerived, value_in};

use hv_column::Column;
use hv_expr::{Expr, ReadyExpr};
use hv_lineage::{LineageErr, longer_schema};
use hv_part::PartTable;
use hv_value::{Cell, Kind, Mem, Memory, Schema, Table, Text};
use std::alloc::Global;
use std::sync::Arc;

/// The kind of an expression that can be used over a schema.
fn kind_over(expr: &Expr, schema: &Schema) -> Kind
    requires { expr_fault schema.now expr.now ≡ None }
    ensures { kind_of schema.now expr.now ≡ Some result }
{
    expr.check(schema).unwrap()
}

/// The value of a prepared expression in a row, missing where the row isn't there.
fn value_at(alloc: Global, table: &PartTable, ready: &ReadyExpr, row: u32) -> Mem<Cell>
    requires { is_expr_within (length table.now.columns) ready.now ≡ true }
    ensures { (e : Expr) → IsReadyExpr table.now.columns e ready.now → IfOk result (λ cell. cell ≡ value_in table.now e row) }
{
    if table.member().contains(row) {
        ready.eval(alloc, table, row)
    } else {
        Ok(Cell::Missing)
    }
}

/// A column with the values of an expression in the rows that are there, and missing cells between them.
fn value_column(alloc: Global, table: &PartTable, expr: &Expr) -> Mem<Column>
    requires value { expr_fault table.now.columns expr.now ≡ None }
    requires factors { has_fit_factors expr.now ≡ true }
    ensures kind { IfOk result (λ column. kind_of table.now.columns expr.now ≡ Some column.kind) }
    ensures length { IfOk result (λ column. length column.cells ≡ table.now.member.size) }
    ensures values { IfOk result (λ column. HasValues table.now expr.now column) }
{
    let ready = ReadyExpr::of(alloc, expr, table.schema())?;
    let mut column = Column::new(alloc, kind_over(expr, table.schema()))?;
    for row in 0..table.height() {
        let cell = value_at(alloc, table, &ready, row)?;
        column.push(cell.lent())?;
    }
    Ok(column)
}

/// The schema with one more column, of a name that is allowed.
fn schema_with(alloc: Global, schema: &Schema, name: &Text, kind: Kind) -> Mem<Schema>
    requires { name_refusal schema.now name.now (Some kind) ≡ None }
    ensures { IfOk result (λ made. made ≡ with_column schema.now name.now (Some kind)) }
{
    match longer_schema(alloc, schema, name, kind) {
        Ok(made) => Ok(made),
        Err(LineageErr::Memory) => Err(Memory),
        Err(_) => unreachable!(),
    }
}

/// Adds a column of an expression's values at the end.
pub(crate) fn derived(alloc: Global, table: PartTable, name: &Text, expr: &Expr) -> Mem<PartTable>
    requires { IsFitColumn table.columns name.now expr.now }
    ensures { IfOk result (λ made. IsDerived table name.now expr.now made) }
{
    let column = value_column(alloc, &table, expr)?;
    let part = table.part();
    let (schema, mut cols, member) = table.into_parts();
    let schema = schema_with(alloc, &schema, name, column.kind())?;
    cols.push(Arc::new(alloc, column)?)?;
    Ok(PartTable::new(schema, part, cols, member))
}
