//! Cells and the values of views as JSON. What each is is said in specs/Values.antt.

ghost use Rattle.std.specs.Prelude.{◌≡◌, true, map, codes, string_bytes, IfOk};
ghost use Rattle.std.specs.Fmt.{signed_decimal};
ghost use Rattle.serde_json.specs.Data.{boolean, number, string, object, member, no_members};
ghost use Rattle.serde_json.specs.Find.{of_integer};
ghost use Rattle.serde_json.specs.View.{view};
ghost use Rattle.hv_value.specs.Civil.{text_of_day};
ghost use Rattle.hv_value.specs.Days.{is_day_number};
ghost use Rattle.hv_view.specs.declared.shown.Shown.TheVariants as shown;
ghost use Rattle.hv_expr.specs.Checks.{is_fit_factor};
ghost use Rattle.hv_reply.specs.Values.{cell_data, day_data, list_of, shown_data, sum_data, whole, whole_or_null};

use crate::charts::{
    cdf_value, heat_map_value, heat_maps_value, histogram_value, histograms_value, stacked_value,
};
use crate::counts::{auto_value, count_value, frequent_value, heavy_value};
use crate::rows::{find_value, next_value, quantiles_value};
use hv_value::{Cell, Mem, date_text};
use hv_view::Shown;
use serde_json::{Value, json};
use std::alloc::{AllocError, Global};

/// The day number of 0001-01-01, the first that has a text.
const FIRST_DAY: i32 = -719_162;

/// The day number of 9999-12-31, the last that has a text.
const LAST_DAY: i32 = 2_932_896;

fn is_day_number(day: i32) -> bool
    ensures { result ≡ is_day_number day }
{
    FIRST_DAY <= day && day <= LAST_DAY
}

/// A whole number of 64 bits, with a sign or without.
pub(crate) fn integer_value(n: i128) -> Value
    requires { is_fit_factor n ≡ true }
    ensures { view result ≡ number (of_integer n) }
{
    if n < 0 {
        Value::from(n as i64)
    } else {
        Value::from(n as u64)
    }
}

/// A number, or null where there is none.
pub(crate) fn whole_or_null(n: Option<u64>) -> Value
    ensures { view result ≡ whole_or_null n }
{
    Value::from(n)
}

/// The text of a day of the years 1 to 9999. A number of another day, which no table and no message has, stands for
/// itself.
fn day_value(alloc: Global, day: i32) -> Mem<Value>
    ensures { IfOk result (λ value. view value ≡ day_data day) }
{
    if is_day_number(day) {
        date_value(alloc, day)
    } else {
        Ok(Value::from(day))
    }
}

/// The text of a day.
fn date_value(alloc: Global, day: i32) -> Mem<Value>
    requires { is_day_number day ≡ true }
    ensures { IfOk result (λ value. view value ≡ string (text_of_day day)) }
{
    let digits = date_text(day);
    let text = std::str::from_utf8(&digits).unwrap();
    Ok(Value::try_from_str(alloc, text)?)
}

/// A cell: null, a number, a date's text, or a text.
pub(crate) fn cell_value(alloc: Global, cell: &Cell) -> Mem<Value>
    ensures { IfOk result (λ value. view value ≡ cell_data cell.now) }
{
    match cell {
        Cell::Missing => Ok(Value::Null),
        Cell::Int(n) => Ok(Value::from(*n)),
        Cell::Date(day) => day_value(alloc, *day),
        Cell::Text(text) => Ok(Value::try_from_str(alloc, text.as_str())?),
    }
}

pub(crate) fn cells_value(alloc: Global, cells: &[Cell]) -> Mem<Value>
    ensures { IfOk result (λ value. view value ≡ list_of (map cell_data cells.now)) }
{
    let mut list = Vec::with_capacity(alloc, cells.len())?;
    for cell in cells {
        list.push(cell_value(alloc, cell)?)?;
    }
    Ok(Value::Array(list))
}

/// A sum's digits, or null where there is none.
fn sum_value(alloc: Global, sum: Option<i128>) -> Mem<Value>
    ensures { IfOk result (λ value. view value ≡ sum_data sum) }
{
    match sum {
        Some(sum) => Ok(Value::String(format!(in alloc; "{sum}")?)),
        None => Ok(Value::Null),
    }
}

/// The value of a view or of a plan.
pub fn shown_value(alloc: Global, shown: &Shown) -> Mem<Value>
    ensures { IfOk result (λ value. view value ≡ shown_data shown.now) }
{
    match shown {
        Shown::Range {
            count,
            max,
            min,
            missing,
            sum,
        } => {
            let greatest = cell_value(alloc, max)?;
            let least = cell_value(alloc, min)?;
            let sum = sum_value(alloc, *sum)?;
            Ok(range_value(alloc, *count, greatest, least, *missing, sum)?)
        }
        Shown::Distinct { more, values } => {
            let values = cells_value(alloc, values.as_slice())?;
            Ok(distinct_value(alloc, *more, values)?)
        }
        Shown::Histogram(histogram) => histogram_value(alloc, histogram),
        Shown::Cdf(cdf) => cdf_value(alloc, cdf),
        Shown::Stacked(stacked) => stacked_value(alloc, stacked),
        Shown::HeatMap(heat) => heat_map_value(alloc, heat),
        Shown::TrellisHistogram { groups, rest } => {
            histograms_value(alloc, groups.as_slice(), *rest)
        }
        Shown::TrellisHeatMap { groups, rest } => heat_maps_value(alloc, groups.as_slice(), *rest),
        Shown::NextRows(next) => next_value(alloc, next),
        Shown::Find(find) => find_value(alloc, find),
        Shown::Heavy(heavy) => heavy_value(alloc, heavy),
        Shown::CountOf(count) => count_value(alloc, count),
        Shown::Quantiles(sample) => quantiles_value(alloc, sample),
        Shown::Auto(auto) => auto_value(alloc, auto),
        Shown::Frequent(frequent) => frequent_value(alloc, frequent),
    }
}

fn range_value(
    alloc: Global,
    count: u64,
    greatest: Value,
    least: Value,
    missing: u64,
    sum: Value,
) -> Result<Value, AllocError>
    ensures { IfOk result
        (λ value. view value ≡ object (member (codes "count") (whole count)
        (member (codes "max") (view greatest)
        (member (codes "min") (view least)
        (member (codes "missing") (whole missing)
        (member (codes "sum") (view sum) no_members)))))) }
{
    json!(in alloc; {"count": count, "max": greatest, "min": least, "missing": missing, "sum": sum})
}

fn distinct_value(alloc: Global, more: bool, values: Value) -> Result<Value, AllocError>
    ensures { IfOk result
        (λ value. view value ≡ object (member (codes "more") (boolean more)
        (member (codes "values") (view values) no_members))) }
{
    json!(in alloc; {"more": more, "values": values})
}
