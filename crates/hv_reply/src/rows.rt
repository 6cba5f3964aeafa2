//! The values of next rows, of searches and of samples as JSON. What each is is said in specs/Values.antt.

ghost use Rattle.std.specs.Prelude.{◌≡◌, map, IfOk};
ghost use Rattle.serde_json.specs.View.{view};
ghost use Rattle.hv_reply.specs.Values.{find_data, key_data, key_or_null, list_of, next_data, next_row_data, quantiles_data};

use crate::values::cells_value;
use hv_find::FindSummary;
use hv_next::{NextRow, NextSummary};
use hv_quant::SampleValue;
use hv_value::{Cell, Listed, Mem};
use serde_json::{Value, json};
use std::alloc::Global;

/// A key and how many rows have it.
fn next_row_value(alloc: Global, row: &NextRow) -> Mem<Value>
    ensures { IfOk result (λ value. view value ≡ next_row_data row.now) }
{
    let key = cells_value(alloc, row.key.as_slice())?;
    Ok(json!(in alloc; {"count": row.count, "key": key})?)
}

/// Keys, in turn, each with its number of rows.
fn next_row_list(alloc: Global, rows: &[NextRow]) -> Mem<Value>
    ensures { IfOk result (λ value. view value ≡ list_of (map next_row_data rows.now)) }
{
    let mut list = Vec::with_capacity(alloc, rows.len())?;
    for row in rows {
        list.push(next_row_value(alloc, row)?)?;
    }
    Ok(Value::Array(list))
}

/// The next rows, and how many rows aren't above.
pub(crate) fn next_value(alloc: Global, next: &NextSummary) -> Mem<Value>
    ensures { IfOk result (λ value. view value ≡ next_data next.now) }
{
    let rows = next_row_list(alloc, next.rows.as_slice())?;
    Ok(json!(in alloc; {"before": next.before, "rows": rows})?)
}

/// A key, or null where there is none.
fn key_or_null(alloc: Global, key: &Option<Listed<Cell>>) -> Mem<Value>
    ensures { IfOk result (λ value. view value ≡ key_or_null key.now) }
{
    match key {
        Some(key) => cells_value(alloc, key.as_slice()),
        None => Ok(Value::Null),
    }
}

/// What is found: how many rows are above, how many aren't, and the least key above.
pub(crate) fn find_value(alloc: Global, find: &FindSummary) -> Mem<Value>
    ensures { IfOk result (λ value. view value ≡ find_data find.now) }
{
    let first = key_or_null(alloc, &find.first)?;
    Ok(json!(in alloc; {"above": find.above, "before": find.before, "first": first})?)
}

/// Keys, in turn.
fn key_list(alloc: Global, keys: &[Listed<Cell>]) -> Mem<Value>
    ensures { IfOk result (λ value. view value ≡ list_of (map key_data keys.now)) }
{
    let mut list = Vec::with_capacity(alloc, keys.len())?;
    for key in keys {
        list.push(cells_value(alloc, key.as_slice())?)?;
    }
    Ok(Value::Array(list))
}

/// The quantiles of a sample, how many rows it has, and its seed.
pub(crate) fn quantiles_value(alloc: Global, sample: &SampleValue) -> Mem<Value>
    ensures { IfOk result (λ value. view value ≡ quantiles_data sample.now) }
{
    let quantiles = key_list(alloc, sample.quantiles.as_slice())?;
    Ok(json!(in alloc; {"quantiles": quantiles, "rows": sample.rows, "seed": sample.seed})?)
}
