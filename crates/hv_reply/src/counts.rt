//! The values of heavy hitters, of counted and frequent values, and of histograms between a column's own ends as JSON.
//! What each is is said in specs/Values.antt.

ghost use Rattle.std.specs.Prelude.{◌≡◌, codes, map, IfOk};
ghost use Rattle.serde_json.specs.Data.{member, no_members, object};
ghost use Rattle.serde_json.specs.View.{view};
ghost use Rattle.hv_value.specs.declared.cell.Cell.{Cell};
ghost use Rattle.hv_reply.specs.Values.{auto_data, count_data, counted_data, frequent_data, frequent_pair_data, heavy_data, heavy_pair_data, list_of, whole};

use crate::charts::counts_value;
use crate::values::cell_value;
use hv_heavy::{CountShown, HeavyPair, HeavySummary};
use hv_value::{Cell, Mem};
use hv_view::{AutoShown, FrequentPair, FrequentShown};
use serde_json::{Value, json};
use std::alloc::{AllocError, Global};

/// A value, and how many cells it is or is taken to be.
fn counted_value(alloc: Global, value: &Cell, count: u64) -> Mem<Value>
    ensures { IfOk result (λ made. view made ≡ counted_data value.now count) }
{
    let cell = cell_value(alloc, value)?;
    Ok(json!(in alloc; [cell, count])?)
}

/// Pairs of a value and an estimate, in turn.
fn heavy_pairs(alloc: Global, pairs: &[HeavyPair]) -> Mem<Value>
    ensures { IfOk result (λ value. view value ≡ list_of (map heavy_pair_data pairs.now)) }
{
    let mut list = Vec::with_capacity(alloc, pairs.len())?;
    for pair in pairs {
        list.push(counted_value(alloc, &pair.value, pair.estimate)?)?;
    }
    Ok(Value::Array(list))
}

/// Pairs of a value and its count, in turn.
fn frequent_pairs(alloc: Global, pairs: &[FrequentPair]) -> Mem<Value>
    ensures { IfOk result (λ value. view value ≡ list_of (map frequent_pair_data pairs.now)) }
{
    let mut list = Vec::with_capacity(alloc, pairs.len())?;
    for pair in pairs {
        list.push(counted_value(alloc, &pair.value, pair.count)?)?;
    }
    Ok(Value::Array(list))
}

/// Heavy hitters, and how many cells there are.
pub(crate) fn heavy_value(alloc: Global, heavy: &HeavySummary) -> Mem<Value>
    ensures { IfOk result (λ value. view value ≡ heavy_data heavy.now) }
{
    let pairs = heavy_pairs(alloc, heavy.pairs.as_slice())?;
    Ok(json!(in alloc; {"missing": heavy.missing, "n": heavy.n, "pairs": pairs})?)
}

/// The counts of values, and how many cells there are.
pub(crate) fn count_value(alloc: Global, count: &CountShown) -> Mem<Value>
    ensures { IfOk result (λ value. view value ≡ count_data count.now) }
{
    let counts = counts_value(alloc, count.counts.as_slice())?;
    Ok(json!(in alloc; {"counts": counts, "missing": count.missing, "n": count.n})?)
}

/// A histogram with its ends.
pub(crate) fn auto_value(alloc: Global, auto: &AutoShown) -> Mem<Value>
    ensures { IfOk result (λ value. view value ≡ auto_data auto.now) }
{
    let counts = counts_value(alloc, auto.counts.as_slice())?;
    let greatest = cell_value(alloc, &auto.hi)?;
    let least = cell_value(alloc, &auto.lo)?;
    Ok(between(alloc, counts, greatest, least, auto.missing)?)
}

fn between(
    alloc: Global,
    counts: Value,
    greatest: Value,
    least: Value,
    missing: u64,
) -> Result<Value, AllocError>
    ensures { IfOk result
        (λ value. view value ≡ object (member (codes "counts") (view counts)
        (member (codes "hi") (view greatest)
        (member (codes "lo") (view least)
        (member (codes "missing") (whole missing) no_members))))) }
{
    json!(in alloc; {"counts": counts, "hi": greatest, "lo": least, "missing": missing})
}

/// Frequent values, and how many cells there are.
pub(crate) fn frequent_value(alloc: Global, frequent: &FrequentShown) -> Mem<Value>
    ensures { IfOk result (λ value. view value ≡ frequent_data frequent.now) }
{
    let pairs = frequent_pairs(alloc, frequent.pairs.as_slice())?;
    Ok(json!(in alloc; {"missing": frequent.missing, "n": frequent.n, "pairs": pairs})?)
}
