//! Schemas made of schemas, and why some can't be made. The definitions are in specs/Made.antt and
//! specs/Refusals.antt.

ghost use Rattle.std.specs.Prelude.{◌≡◌, ◌<◌, ◌⊎◌, ◌++◌, length, true, false, IfOk, IfErr, None, Some, slice_get};
ghost use Rattle.std.specs.List.{list_all};
ghost use Rattle.hv_value.specs.Schema.{is_schema};
ghost use Rattle.hv_lineage.specs.declared.error.LineageErr.TheVariants as err;
ghost use Rattle.hv_lineage.specs.Lineages.{IsRefusal};
ghost use Rattle.hv_lineage.specs.declared.how.How2.TheVariants as how2;
ghost use Rattle.hv_lineage.specs.Made.{columns_by, picked, with_column};
ghost use Rattle.hv_lineage.specs.Refusals.{choice_refusal, has_column, have_common, how_refusal, name_refusal};

use crate::{How2, LineageErr, Shared};
use hv_value::{Kind, Mem, Schema, SchemaErr, Text};
use std::alloc::Global;

/// A copy of the column at a place from 0.
fn copy_column(alloc: Global, schema: &Schema, j: u32) -> Mem<(Text, Kind)>
    requires { j < length schema.now }
    ensures { IfOk result (λ column. slice_get schema.now j ≡ Some column) }
{
    Ok((Text::of(alloc, schema.name(j))?, schema.kind(j)))
}

/// Adds copies of all columns at the end.
fn add_columns(alloc: Global, columns: &mut Vec<(Text, Kind)>, schema: &Schema) -> Mem<()>
    ensures { IfOk result (λ _. columns.new.items ≡ columns.old.items ++ schema.now) }
{
    for j in 0..schema.len() {
        columns.push(copy_column(alloc, schema, j)?)?;
    }
    Ok(())
}

/// Copies of all columns.
fn copy_columns(alloc: Global, schema: &Schema) -> Mem<Vec<(Text, Kind)>>
    ensures { IfOk result (λ columns. columns.items ≡ schema.now) }
{
    let mut columns = Vec::new(alloc);
    add_columns(alloc, &mut columns, schema)?;
    Ok(columns)
}

/// The schema of columns that make one.
fn schema_of(columns: Vec<(Text, Kind)>) -> Schema
    requires { is_schema columns.items ≡ true }
    ensures { result ≡ columns.items }
{
    Schema::new(columns).unwrap()
}

/// The same schema, in memory of its own.
pub fn copy_schema(alloc: Global, schema: &Schema) -> Mem<Schema>
    ensures { IfOk result (λ made. made ≡ schema.now) }
{
    let columns = copy_columns(alloc, schema)?;
    let _ = schema.len();
    Ok(schema_of(columns))
}

/// The schema of columns, or that they make none.
fn tried_schema(columns: Vec<(Text, Kind)>) -> Result<Schema, LineageErr>
    ensures ok { IfOk result (λ made. (is_schema columns.items ≡ true) × (made ≡ columns.items)) }
    ensures err { IfErr result (λ e. (is_schema columns.items ≡ false) × (e ≡ err.BadSchema)) }
{
    match Schema::new(columns) {
        Ok(schema) => Ok(schema),
        Err(SchemaErr::BadSchema) => Err(LineageErr::BadSchema),
        Err(SchemaErr::Memory) => Err(LineageErr::Memory),
    }
}

/// Copies of the named columns, in the order of the names.
fn picked_columns(
    alloc: Global,
    schema: &Schema,
    names: &[Text],
) -> Result<Vec<(Text, Kind)>, LineageErr>
    ensures ok { IfOk result (λ columns. (list_all (has_column schema.now) names.now ≡ true) × (columns.items ≡ picked schema.now names.now)) }
    ensures err { IfErr result (λ e. ((list_all (has_column schema.now) names.now ≡ false) × (e ≡ err.NoColumn)) ⊎ (e ≡ err.Memory)) }
{
    let mut columns = Vec::new(alloc);
    for name in names {
        let Some(j) = schema.find(name.as_str()) else {
            return Err(LineageErr::NoColumn);
        };
        columns.push(copy_column(alloc, schema, j)?)?;
    }
    Ok(columns)
}

/// The schema of the named columns, in the order of the names.
pub fn picked_schema(alloc: Global, schema: &Schema, names: &[Text]) -> Result<Schema, LineageErr>
    ensures ok { IfOk result (λ made. made ≡ picked schema.now names.now) }
    ensures fit { IfOk result (λ _. choice_refusal schema.now names.now ≡ None) }
    ensures refused { IfErr result (IsRefusal (choice_refusal schema.now names.now)) }
{
    tried_schema(picked_columns(alloc, schema, names)?)
}

/// The schema with one more column at its end.
pub fn longer_schema(
    alloc: Global,
    schema: &Schema,
    name: &Text,
    kind: Kind,
) -> Result<Schema, LineageErr>
    ensures ok { IfOk result (λ made. made ≡ with_column schema.now name.now (Some kind)) }
    ensures fit { IfOk result (λ _. name_refusal schema.now name.now (Some kind) ≡ None) }
    ensures refused { IfErr result (IsRefusal (name_refusal schema.now name.now (Some kind))) }
{
    if schema.find(name.as_str()).is_some() {
        return Err(LineageErr::NameClash);
    }
    let mut columns = copy_columns(alloc, schema)?;
    columns.push((name.copy(alloc)?, kind))?;
    tried_schema(columns)
}

/// Whether the schemas have a name in common.
fn have_common_name(left: &Schema, right: &Schema) -> bool
    ensures { result ≡ have_common left.now right.now }
{
    for j in 0..right.len() {
        if left.find(right.name(j)).is_some() {
            return true;
        }
    }
    false
}

/// The schema of the left columns and then the right ones.
pub fn zipped_schema(alloc: Global, left: &Schema, right: &Schema) -> Result<Schema, LineageErr>
    ensures ok { IfOk result (λ made. made ≡ left.now ++ right.now) }
    ensures fit { IfOk result (λ _. how_refusal how2.Zip left.now right.now ≡ None) }
    ensures refused { IfErr result (IsRefusal (how_refusal how2.Zip left.now right.now)) }
{
    if have_common_name(left, right) {
        return Err(LineageErr::NameClash);
    }
    let mut columns = copy_columns(alloc, left)?;
    add_columns(alloc, &mut columns, right)?;
    tried_schema(columns)
}

/// The schema of two that are equal, shared once more.
fn common_schema(
    left: &Shared<Schema>,
    right: &Shared<Schema>,
) -> Result<Shared<Schema>, LineageErr>
    ensures ok { IfOk result (λ made. made ≡ left.now) }
    ensures fit { IfOk result (λ _. how_refusal how2.Union left.now right.now ≡ None) }
    ensures refused { IfErr result (IsRefusal (how_refusal how2.Union left.now right.now)) }
{
    if left.get() == right.get() {
        Ok(left.share()?)
    } else {
        Err(LineageErr::SchemaDiffers)
    }
}

/// The schema of two terms combined, by their schemas.
pub(crate) fn combined_schema(
    alloc: Global,
    how: How2,
    left: &Shared<Schema>,
    right: &Shared<Schema>,
) -> Result<Shared<Schema>, LineageErr>
    ensures ok { IfOk result (λ made. made ≡ columns_by how left.now right.now) }
    ensures fit { IfOk result (λ _. how_refusal how left.now right.now ≡ None) }
    ensures refused { IfErr result (IsRefusal (how_refusal how left.now right.now)) }
{
    match how {
        How2::Zip => {
            let schema = zipped_schema(alloc, left.get(), right.get())?;
            Ok(Shared::new(alloc, schema)?)
        }
        How2::Union => common_schema(left, right),
        How2::Both | How2::Minus => Ok(left.share()?),
    }
}
