//! Tables that a load or a lineage's base gives. What each field means is said in specs/Tables.antt.

ghost use Rattle.std.specs.Prelude.{◌≡◌};
ghost use Rattle.serde_json.specs.Find.{get};
ghost use Rattle.serde_json.specs.View.{view};
ghost use Rattle.hv_asked.specs.Meant.{IsField, Tells};
ghost use Rattle.hv_asked.specs.Tables as table;

use crate::asked::TableAsked;
use crate::fields::{Item, all_items, field, list, name, names, needed, pair};
use crate::refused::Refused;
use crate::words::kind_named;
use hv_value::{Kind, Listed, Text};
use serde_json::Value;
use std::alloc::Global;

impl Item for (Text, Kind) {
    ghost use Rattle.hv_asked.specs.Tables.{column_of};

    ghost read = { column_of };

    fn item(alloc: Global, value: &Value) -> Result<(Text, Kind), Refused> {
        let (name, word) = pair(value)?;
        let name = needed(name.as_str())?;
        let kind = needed(word.as_str().and_then(kind_named))?;
        Ok((Text::of(alloc, name)?, kind))
    }
}

/// The columns of a table, whether they make a schema or not.
fn columns_in(alloc: Global, value: &Value) -> Result<Listed<(Text, Kind)>, Refused>
    ensures { IsField result (table.columns_in (view value.now)) }
{
    all_items(alloc, list(value, "schema")?)
}

fn inline_of(alloc: Global, value: &Value) -> Result<TableAsked, Refused>
    ensures { Tells result (table.inline_of (view value.now)) }
{
    let parts = names(alloc, value, "parts")?;
    let columns = columns_in(alloc, value)?;
    Ok(TableAsked::Inline(columns, parts))
}

fn named_of(alloc: Global, value: &Value) -> Result<TableAsked, Refused>
    ensures { Tells result (table.named_of (view value.now)) }
{
    let table = name(alloc, value, "table")?;
    let columns = columns_in(alloc, value)?;
    Ok(TableAsked::Named(columns, table))
}

/// The table under a key: the one that is given whole where there is one, else the named one. `Why::Field` where it is
/// absent or has another shape, or memory is refused.
pub fn table_in(alloc: Global, value: &Value, key: &str) -> Result<TableAsked, Refused>
    ensures { Tells result (table.table_in key.now (view value.now)) }
{
    let forms = field(value, key)?;
    match forms.get("inline") {
        Some(inline) => inline_of(alloc, inline),
        None => named_of(alloc, field(forms, "named")?),
    }
}
