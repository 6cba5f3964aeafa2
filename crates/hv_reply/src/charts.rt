//! The values of charts as JSON. What each is is said in specs/Values.antt.

ghost use Rattle.std.specs.Prelude.{◌≡◌, codes, map, IfOk};
ghost use Rattle.serde_json.specs.Data.{member, no_members, object};
ghost use Rattle.serde_json.specs.View.{view};
ghost use Rattle.hv_reply.specs.Values.{cdf_data, counts_data, grid_data, groups_data, heat_map_data, histogram_data, stacked_data, whole};

use hv_grid::{HeatMapShown, StackedShown};
use hv_hist::{CdfShown, HistogramShown};
use hv_value::{Listed, Mem};
use serde_json::{Value, json};
use std::alloc::Global;

/// Counts, in turn.
pub(crate) fn counts_value(alloc: Global, counts: &[u64]) -> Mem<Value>
    ensures { IfOk result (λ value. view value ≡ counts_data counts.now) }
{
    let mut list = Vec::with_capacity(alloc, counts.len())?;
    for count in counts {
        list.push(Value::from(*count))?;
    }
    Ok(Value::Array(list))
}

pub(crate) fn histogram_value(alloc: Global, histogram: &HistogramShown) -> Mem<Value>
    ensures { IfOk result (λ value. view value ≡ histogram_data histogram.now) }
{
    let counts = counts_value(alloc, histogram.counts.as_slice())?;
    Ok(
        json!(in alloc; {"counts": counts, "missing": histogram.missing, "outside": histogram.outside})?,
    )
}

pub(crate) fn cdf_value(alloc: Global, cdf: &CdfShown) -> Mem<Value>
    ensures { IfOk result (λ value. view value ≡ cdf_data cdf.now) }
{
    let sums = counts_value(alloc, cdf.sums.as_slice())?;
    Ok(json!(in alloc; {"missing": cdf.missing, "outside": cdf.outside, "sums": sums})?)
}

/// Rows of counts, in turn.
fn grid_value(alloc: Global, rows: &[Listed<u64>]) -> Mem<Value>
    ensures { IfOk result (λ value. view value ≡ grid_data rows.now) }
{
    let mut list = Vec::with_capacity(alloc, rows.len())?;
    for row in rows {
        list.push(counts_value(alloc, row.as_slice())?)?;
    }
    Ok(Value::Array(list))
}

pub(crate) fn stacked_value(alloc: Global, stacked: &StackedShown) -> Mem<Value>
    ensures { IfOk result (λ value. view value ≡ stacked_data stacked.now) }
{
    let counts = grid_value(alloc, stacked.counts.as_slice())?;
    let other = counts_value(alloc, stacked.other.as_slice())?;
    Ok(
        json!(in alloc; {"counts": counts, "missing": stacked.missing, "other": other, "outside": stacked.outside})?,
    )
}

pub(crate) fn heat_map_value(alloc: Global, heat: &HeatMapShown) -> Mem<Value>
    ensures { IfOk result (λ value. view value ≡ heat_map_data heat.now) }
{
    let counts = grid_value(alloc, heat.counts.as_slice())?;
    Ok(json!(in alloc; {"counts": counts, "rest": heat.rest})?)
}

/// The histograms of groups, and how many rows are in none.
pub(crate) fn histograms_value(alloc: Global, groups: &[HistogramShown], rest: u64) -> Mem<Value>
    ensures { IfOk result (λ value. view value ≡ groups_data (map histogram_data groups.now) rest) }
{
    let mut list = Vec::with_capacity(alloc, groups.len())?;
    for group in groups {
        list.push(histogram_value(alloc, group)?)?;
    }
    groups_value(alloc, Value::Array(list), rest)
}

/// The heat maps of groups, and how many rows are in none.
pub(crate) fn heat_maps_value(alloc: Global, groups: &[HeatMapShown], rest: u64) -> Mem<Value>
    ensures { IfOk result (λ value. view value ≡ groups_data (map heat_map_data groups.now) rest) }
{
    let mut list = Vec::with_capacity(alloc, groups.len())?;
    for group in groups {
        list.push(heat_map_value(alloc, group)?)?;
    }
    groups_value(alloc, Value::Array(list), rest)
}

fn groups_value(alloc: Global, groups: Value, rest: u64) -> Mem<Value>
    ensures { IfOk result
        (λ value. view value ≡ object (member (codes "groups") (view groups) (member (codes "rest") (whole rest) no_members))) }
{
    Ok(json!(in alloc; {"groups": groups, "rest": rest})?)
}
