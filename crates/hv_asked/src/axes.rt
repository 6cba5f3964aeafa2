//! Axes of the charts that a message asks for: what is asked for, and what it means over columns. The definitions are in
//! specs/Axes.antt.

ghost use Rattle.std.specs.Prelude.{◌≡◌, true, Ok, Err, if◌then◌else◌, IfOk};
ghost use Rattle.serde_json.specs.View.{view};
ghost use Rattle.hv_value.specs.Days.{day_of_text};
ghost use Rattle.hv_sketch.specs.Columns.{IsColumnOf};
ghost use Rattle.hv_bucket.specs.Buckets.{are_int_buckets, are_text_buckets};
ghost use Rattle.hv_bucket.specs.Places.{fits_axis};
ghost use Rattle.hv_asked.specs.Axes as axes;
ghost use Rattle.hv_asked.specs.Constants.{fits_cell};
ghost use Rattle.hv_asked.specs.Flaws.{map_ok};
ghost use Rattle.hv_asked.specs.Meant.{IsField, axis_found};

use crate::Why;
use crate::asked::{AxisAsked, CellAsked};
use crate::constants::cell;
use crate::fields::{field, name, names, number};
use crate::refused::Refused;
use hv_bucket::{Axis, Buckets, IntBuckets, MAX_BUCKETS, TextBuckets};
use hv_value::{Kind, Listed, Schema, Text, day_of};
use serde_json::Value;
use std::alloc::Global;

fn texts_of(alloc: Global, value: &Value) -> Result<AxisAsked, Refused>
    ensures { IsField result (axes.texts_of (view value.now)) }
{
    let col = name(alloc, value, "col")?;
    let bounds = names(alloc, value, "bounds")?;
    Ok(AxisAsked::Texts { col, bounds })
}

fn numbers_of(alloc: Global, value: &Value) -> Result<AxisAsked, Refused>
    ensures { IsField result (axes.numbers_of (view value.now)) }
{
    let col = name(alloc, value, "col")?;
    let lo = cell(alloc, value, "lo")?;
    let hi = cell(alloc, value, "hi")?;
    let n = number(value, "n")?;
    Ok(AxisAsked::Numbers { col, lo, hi, n })
}

/// The axis under a key: one with left boundaries is one of texts. `Why::Field` where it is absent or has another
/// shape, or memory is refused.
pub fn axis_in(alloc: Global, value: &Value, key: &str) -> Result<AxisAsked, Refused>
    ensures { IsField result (axes.axis_in key.now (view value.now)) }
{
    let axis = field(value, key)?;
    match axis.get("bounds") {
        Some(_) => texts_of(alloc, axis),
        None => numbers_of(alloc, axis),
    }
}

/// Two axes: under `x`, and under `y`. It fails as `axis_in` does, for `x` first.
pub fn axes_in(alloc: Global, value: &Value) -> Result<(AxisAsked, AxisAsked), Refused>
    ensures { IsField result (axes.axes_in (view value.now)) }
{
    let x = axis_in(alloc, value, "x")?;
    let y = axis_in(alloc, value, "y")?;
    Ok((x, y))
}

/// Where the column with a name is, from 0, and of which kind it is. `Why::Column` where there is none.
pub fn column(schema: &Schema, name: &Text) -> Result<(u32, Kind), Why>
    ensures value { result ≡ axes.column_named schema.now name.now }
    ensures there { IfOk result (λ column. IsColumnOf schema.now column.0 column.1) }
{
    match schema.find(name.as_str()) {
        Some(col) => Ok((col, schema.kind(col))),
        None => Err(Why::Column),
    }
}

/// An end of numbers beside a column of a kind.
fn end_of(kind: Kind, end: &CellAsked) -> Result<i64, Why>
    requires { fits_cell end.now ≡ true }
    ensures { result ≡ axes.end_of kind end.now }
{
    match (kind, end) {
        (Kind::Int, CellAsked::Number(n)) => Ok(*n as i64),
        (Kind::Date, CellAsked::Text(text)) => day_named(text),
        _ => Err(Why::Kind),
    }
}

/// The number of the day that a text names.
fn day_named(text: &Text) -> Result<i64, Why>
    ensures { result ≡ axes.of_day (day_of_text text.now) }
{
    match day_of(text.as_str().as_bytes()) {
        Some(day) => Ok(i64::from(day)),
        None => Err(Why::Kind),
    }
}

/// An axis whose column is there, of a kind that it takes, before it is known whether there are such buckets.
#[derive(Drop)]
pub(crate) enum AxisFound {
    Numbers { col: u32, lo: i64, hi: i64, n: i128 },
    Texts { col: u32, bounds: Listed<Text> },
}

/// The axis over the columns of a schema.
fn found(schema: &Schema, asked: AxisAsked) -> Result<AxisFound, Why>
    requires { axes.fits_asked asked ≡ true }
    ensures value { map_ok axis_found result ≡ axes.found schema.now asked }
    ensures fits { IfOk result (λ f. fits_axis schema.now (axis_found f) ≡ true) }
{
    match asked {
        AxisAsked::Numbers { col, lo, hi, n } => {
            let (col, kind) = column(schema, &col)?;
            let lo = end_of(kind, &lo)?;
            let hi = end_of(kind, &hi)?;
            Ok(AxisFound::Numbers { col, lo, hi, n })
        }
        AxisAsked::Texts { col, bounds } => match column(schema, &col)? {
            (col, Kind::Text) => Ok(AxisFound::Texts { col, bounds }),
            _ => Err(Why::Kind),
        },
    }
}

impl AxisFound {
    /// The axis, where there are such buckets.
    fn bucketed(self) -> Result<Axis, Why>
        ensures { result ≡ axes.bucketed (axis_found self) }
    {
        match self {
            AxisFound::Numbers { col, lo, hi, n } => {
                let buckets = Buckets::Int(numbers(lo, hi, n)?);
                Ok(Axis { col, buckets })
            }
            AxisFound::Texts { col, bounds } => {
                let buckets = Buckets::Text(texts(bounds)?);
                Ok(Axis { col, buckets })
            }
        }
    }
}

/// So many buckets of the numbers from one to another. A number below 0 asks for none.
fn numbers(lo: i64, hi: i64, n: i128) -> Result<IntBuckets, Why>
    ensures { result ≡ (if are_int_buckets lo hi (axes.bucket_count n)
        then Ok (record { lo = lo; hi = hi; n = axes.bucket_count n }) else Err Why.Buckets) }
{
    if n > i128::from(MAX_BUCKETS) {
        return Err(Why::Buckets);
    }
    match IntBuckets::new(lo, hi, n.max(0) as u32) {
        Ok(buckets) => Ok(buckets),
        Err(_) => Err(Why::Buckets),
    }
}

/// Buckets of texts with these left boundaries.
fn texts(bounds: Listed<Text>) -> Result<TextBuckets, Why>
    ensures { result ≡ (if are_text_buckets bounds then Ok bounds else Err Why.Buckets) }
{
    match TextBuckets::new(bounds.into_vec()) {
        Ok(buckets) => Ok(buckets),
        Err(_) => Err(Why::Buckets),
    }
}

/// One axis over the columns of a schema. `Why::Column` where its column is absent, `Why::Kind` where an end or the
/// column has another kind, then `Why::Buckets` where there are no such buckets.
pub fn one_axis(schema: &Schema, x: AxisAsked) -> Result<Axis, Why>
    requires { axes.fits_asked x ≡ true }
    ensures value { result ≡ axes.one_axis schema.now x }
    ensures fits { IfOk result (λ axis. fits_axis schema.now axis ≡ true) }
{
    found(schema, x)?.bucketed()
}

/// Two axes over the columns of a schema, with the errors of `one_axis`: both are looked up before there are buckets.
pub fn two_axes(schema: &Schema, x: AxisAsked, y: AxisAsked) -> Result<(Axis, Axis), Why>
    requires x { axes.fits_asked x ≡ true }
    requires y { axes.fits_asked y ≡ true }
    ensures value { result ≡ axes.two_axes schema.now x y }
    ensures fits { IfOk result (λ both. (fits_axis schema.now both.0 ≡ true)
        × (fits_axis schema.now both.1 ≡ true)) }
{
    let x = found(schema, x)?;
    let y = found(schema, y)?;
    Ok((x.bucketed()?, y.bucketed()?))
}

/// Three axes over the columns of a schema, with the errors of `one_axis`: all are looked up before there are buckets.
pub fn three_axes(
    schema: &Schema,
    by: AxisAsked,
    x: AxisAsked,
    y: AxisAsked,
) -> Result<(Axis, (Axis, Axis)), Why>
    requires by { axes.fits_asked by ≡ true }
    requires x { axes.fits_asked x ≡ true }
    requires y { axes.fits_asked y ≡ true }
    ensures value { result ≡ axes.three_axes schema.now by x y }
    ensures fits { IfOk result (λ all. (fits_axis schema.now all.0 ≡ true)
        × (fits_axis schema.now all.1.0 ≡ true) × (fits_axis schema.now all.1.1 ≡ true)) }
{
    let by = found(schema, by)?;
    let x = found(schema, x)?;
    let y = found(schema, y)?;
    Ok((by.bucketed()?, (x.bucketed()?, y.bucketed()?)))
}
