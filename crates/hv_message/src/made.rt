//! Lineages of tables that are given.

ghost use Rattle.std.specs.Prelude.{◌≡◌, ◌≤◌, true};
ghost use Rattle.hv_lineage.specs.declared.base.Base.TheVariants as base;
ghost use Rattle.hv_value.specs.declared.catalog.TheConstants.{MAX_PARTITIONS};
ghost use Rattle.hv_message.specs.Meant.{IsMade, IsSchemaOf};
ghost use Rattle.hv_asked.specs.Tables.{are_parts, fits_table};
ghost use Rattle.hv_message.specs.Tables as given;

use hv_asked::{Refused, TableAsked, Why};
use hv_lineage::{Base, Lineage};
use hv_value::{Catalog, Kind, Listed, Schema, SchemaErr, Text};
use sqlite_items::Items;
use std::alloc::Global;
use std::sync::Arc;

fn schema_of(columns: Listed<(Text, Kind)>) -> Result<Schema, Refused>
    ensures { IsSchemaOf result columns }
{
    match Schema::new(columns.into_vec()) {
        Ok(schema) => Ok(schema),
        Err(SchemaErr::BadSchema) => Err(Refused::Word(Why::Schema)),
        Err(SchemaErr::Memory) => Err(Refused::Memory),
    }
}

fn items_of(texts: Listed<Text>) -> Items<Text>
    ensures { result ≡ texts }
{
    Items::from_vec(texts.into_vec())
}

fn inline_over(
    alloc: Global,
    columns: Listed<(Text, Kind)>,
    parts: Listed<Text>,
) -> Result<Arc<Lineage>, Refused>
    requires { are_parts parts ≡ true }
    ensures { IsMade result (given.over columns (base.Inline columns parts)) }
{
    let schema = schema_of(columns)?;
    let parts = items_of(parts);
    Ok(Lineage::base(alloc, Base::Inline { schema, parts })?)
}

fn named_over(
    alloc: Global,
    columns: Listed<(Text, Kind)>,
    table: Text,
    parts: u32,
) -> Result<Arc<Lineage>, Refused>
    requires { parts ≤ MAX_PARTITIONS }
    ensures { IsMade result (given.over columns (base.Named columns table parts)) }
{
    let schema = schema_of(columns)?;
    let base = Base::Named {
        schema,
        table,
        parts,
    };
    Ok(Lineage::base(alloc, base)?)
}

/// The lineage of a table that is within its limits.
pub(crate) fn loaded(
    alloc: Global,
    catalog: &Catalog,
    asked: TableAsked,
) -> Result<Arc<Lineage>, Refused>
    requires { fits_table asked ≡ true }
    ensures { IsMade result (given.loaded catalog.now asked) }
{
    match asked {
        TableAsked::Inline(columns, parts) => inline_over(alloc, columns, parts),
        TableAsked::Named(columns, name) => match catalog.parts_of(name.as_str()) {
            Some(parts) => named_over(alloc, columns, name, parts),
            None => Err(Refused::Word(Why::Table)),
        },
    }
}
